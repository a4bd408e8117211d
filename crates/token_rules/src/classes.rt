//! The classes of bytes.
ghost use Rattle.std.specs.Prelude.{◌≡◌, ◌<◌, ◌↔◌, IsTrue, not};
ghost use Rattle.token_rules.specs.Classes.{meets};
ghost use Rattle.token_rules.specs.Tokens.{IsDelimiter, is_digit, is_hexadecimal, is_letter, is_token_byte};

// The bits of a byte's class.
const DELIMITER: u8 = 1;

pub(crate) const DIGIT: u8 = 2;

pub(crate) const LETTER: u8 = 4;

pub(crate) const HEXADECIMAL: u8 = 8;

// The classes themselves: a delimiter, a digit, a letter that is a hexadecimal digit, another
// letter, and the marks `+`, `-`, `.`, `\` and `_`, which are of no class.
const D: u8 = DELIMITER;

const N: u8 = DIGIT | HEXADECIMAL;

const H: u8 = LETTER | HEXADECIMAL;

const L: u8 = LETTER;

const M: u8 = 0;

#[rattlefmt::skip]
static CLASSES: [u8; 256] = [
    D, D, D, D, D, D, D, D, D, D, D, D, D, D, D, D,
    D, D, D, D, D, D, D, D, D, D, D, D, D, D, D, D,
    D, D, D, D, D, D, D, D, D, D, D, M, D, M, M, D,
    N, N, N, N, N, N, N, N, N, N, D, D, D, D, D, D,
    D, H, H, H, H, H, H, L, L, L, L, L, L, L, L, L,
    L, L, L, L, L, L, L, L, L, L, L, D, M, D, D, M,
    D, H, H, H, H, H, H, L, L, L, L, L, L, L, L, L,
    L, L, L, L, L, L, L, L, L, L, L, D, D, D, D, D,
    D, D, D, D, D, D, D, D, D, D, D, D, D, D, D, D,
    D, D, D, D, D, D, D, D, D, D, D, D, D, D, D, D,
    D, D, D, D, D, D, D, D, D, D, D, D, D, D, D, D,
    D, D, D, D, D, D, D, D, D, D, D, D, D, D, D, D,
    D, D, D, D, D, D, D, D, D, D, D, D, D, D, D, D,
    D, D, D, D, D, D, D, D, D, D, D, D, D, D, D, D,
    D, D, D, D, D, D, D, D, D, D, D, D, D, D, D, D,
    D, D, D, D, D, D, D, D, D, D, D, D, D, D, D, D,
];

// The byte's class.
#[inline]
pub(crate) fn of(byte: u8) -> u8
    ensures delimiter { meets result 1 ≡ not (is_token_byte byte) }
    ensures small { result < 16 }
    ensures digit { meets result 2 ≡ is_digit byte }
    ensures letter { meets result 4 ≡ is_letter byte }
    ensures hexadecimal { meets result 8 ≡ is_hexadecimal byte }
{
    CLASSES[usize::from(byte)]
}

// Whether the bits meet the flag.
#[inline]
pub(crate) fn meets(bits: u8, flag: u8) -> bool
    ensures { result ≡ meets bits flag }
{
    bits & flag != 0
}

/// Whether the byte is a delimiter: any byte but the digits, the letters, `+`, `-`, `.`, `\` and
/// `_`. So each byte from 0x80 on is one.
#[inline]
pub fn is_delim(byte: u8) -> bool
    ensures { IsTrue result ↔ IsDelimiter byte }
{
    meets(of(byte), DELIMITER)
}
