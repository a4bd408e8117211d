//! The templates of the patterns.
ghost use Rattle.std.specs.Prelude.{◌≡◌, ◌≤◌, length};
ghost use Rattle.stamp_templates.specs.Templates.{allows, template_of};

/// How many patterns there are. Their numbers are from 1 on.
pub const PATTERNS: u8 = 26;

/// The most bytes of a template.
pub const LONGEST: u8 = 28;

// The templates of the patterns in order, the first of pattern 1.
static TEMPLATES: [&[u8]; 26] = [
    b"0000-00-00 00:00:00,000",
    b"0000-00-00 00:00:00.000",
    b"0000-00-00T00:00:00.000Z",
    b"0000-00-00T00:00:00.000",
    b"[0000-00-00 00:00:00,000]",
    b"0000-00-00T00:00:00Z",
    b"0000-00-00T00:00:00",
    b"0000-00-00 00:00:00",
    b"0000/00/00 00:00:00",
    b"00/00/00 00:00:00",
    b"0000-00-00 00:00:00,000000",
    b"0000-00-00 00:00:00.000000",
    b"0000-00-00T00:00:00.000000Z",
    b"0000-00-00T00:00:00.000000",
    b"[0000-00-00 00:00:00,000000]",
    b"0000/00/00 00:00:00.000000",
    b"0000-00-00 00:00:00,000",
    b"0000-00-00 00:00:00.000",
    b"0000-00-00T00:00:00.000Z",
    b"0000-00-00T00:00:00.000",
    b"[0000-00-00 00:00:00,000]",
    b"0000-00-00T00:00:00Z",
    b"0000-00-00T00:00:00",
    b"0000-00-00 00:00:00",
    b"0000/00/00 00:00:00",
    b"00/00/00 00:00:00",
];

/// The template of a pattern, as long as each of its texts; an empty one for a number that is no
/// pattern's.
pub fn template(pattern: u8) -> &'static [u8]
    ensures text { result.now ≡ template_of pattern }
    ensures short { length result.now ≤ 28 }
{
    if pattern == 0 || pattern > PATTERNS {
        return b"";
    }
    TEMPLATES[usize::from(pattern) - 1]
}

/// Whether a byte of a template allows this byte at its place.
#[inline]
pub fn allows(slot: u8, byte: u8) -> bool
    ensures { result ≡ allows slot byte }
{
    if slot == b'0' {
        byte.is_ascii_digit()
    } else {
        slot == byte
    }
}
