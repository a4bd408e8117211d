//! The header: what stands in the first 32 bytes of an archive.

ghost use Rattle.std.specs.Prelude.{◌≡◌, ◌≢◌, IsTrue, IfSome, IsNone};
ghost use Rattle.record_format.specs.Header.{IsHeader, IsLaidOut, header_bytes, header_in};

use byteorder::{ByteOrder, LittleEndian};

/// The last version of the format; the first is 1.
pub const LAST_VERSION: u32 = 3;

/// How many log types an archive may hold at most.
pub const MAX_TYPES: u32 = 2_147_483_648;

/// How many dictionary words an archive may hold at most.
pub const MAX_WORDS: u32 = 2_147_483_648;

/// How many bytes a header has.
pub const HEADER_LEN: usize = 32;

/// How many bytes an archive has at least: a header and a closed gate.
pub const MIN_ARCHIVE_LEN: u64 = 33;

/// How many bytes an archive may have at most.
pub const MAX_ARCHIVE_LEN: u64 = 1_099_511_627_776;

/// The eight bytes that every archive begins with: `CLPARCH` and a line end.
const MARK: [u8; 8] = *b"CLPARCH\n";

/// The limits that an archive was created with, and the version of its format.
#[derive(Clone, Copy, Debug, PartialEq, Eq)]
pub struct Header {
    /// The version of the format, 1 to [`LAST_VERSION`].
    pub version: u32,
    /// How many log types the archive may hold, 1 to [`MAX_TYPES`].
    pub types_limit: u32,
    /// How many dictionary words the archive may hold, 1 to [`MAX_WORDS`].
    pub words_limit: u32,
    /// How many bytes the archive may have, [`MIN_ARCHIVE_LEN`] to [`MAX_ARCHIVE_LEN`].
    pub length_limit: u64,
}

/// Whether the numbers are those of a header.
fn is_in_range(header: &Header) -> bool
    ensures yes { IsTrue result → IsHeader header.now }
    ensures no { IsHeader header.now → IsTrue result }
{
    (1..=LAST_VERSION).contains(&header.version)
        && (1..=MAX_TYPES).contains(&header.types_limit)
        && (1..=MAX_WORDS).contains(&header.words_limit)
        && (MIN_ARCHIVE_LEN..=MAX_ARCHIVE_LEN).contains(&header.length_limit)
}

/// Whether the mark and the four zero bytes of a header stand at their places.
fn is_laid_out(bytes: &[u8; HEADER_LEN]) -> bool
    ensures yes { IsTrue result → IsLaidOut bytes.now }
    ensures no { IsLaidOut bytes.now → IsTrue result }
{
    bytes[..8] == MARK[..] && LittleEndian::read_u32(&bytes[20..]) == 0
}

/// The numbers that stand at a header's places.
fn numbers_in(bytes: &[u8; HEADER_LEN]) -> Header
    ensures { result ≡ header_in bytes.now }
{
    Header {
        version: LittleEndian::read_u32(&bytes[8..]),
        types_limit: LittleEndian::read_u32(&bytes[12..]),
        words_limit: LittleEndian::read_u32(&bytes[16..]),
        length_limit: LittleEndian::read_u64(&bytes[24..]),
    }
}

/// The 32 bytes of a header: the mark, then version, limit of types, limit of words and a zero of
/// four bytes each, then the limit of length in eight. Each number has its lowest byte first.
pub fn write_header(header: &Header) -> [u8; HEADER_LEN]
    requires { IsHeader header.now }
    ensures { result ≡ header_bytes header.now }
{
    let mut bytes = [0; HEADER_LEN];
    bytes[..8].copy_from_slice(&MARK);
    LittleEndian::write_u32(&mut bytes[8..12], header.version);
    LittleEndian::write_u32(&mut bytes[12..16], header.types_limit);
    LittleEndian::write_u32(&mut bytes[16..20], header.words_limit);
    LittleEndian::write_u64(&mut bytes[24..], header.length_limit);
    bytes
}

/// The header that the bytes spell, and none exactly where they spell none: where the mark or the
/// zero is not there, or the version or a limit lies outside its range.
pub fn read_header(bytes: &[u8; HEADER_LEN]) -> Option<Header>
    ensures found { IfSome result (λ h. IsHeader h) }
    ensures spelled { IfSome result (λ h. bytes.now ≡ header_bytes h) }
    ensures none { IsNone result → (h : _) → IsHeader h → bytes.now ≢ header_bytes h }
{
    if !is_laid_out(bytes) {
        return None;
    }
    let header = numbers_in(bytes);
    if is_in_range(&header) {
        Some(header)
    } else {
        None
    }
}
