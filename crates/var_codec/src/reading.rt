// From a text to its word.
ghost use Rattle.std.specs.Prelude.{◌≡◌, ◌≤◌, ◌↔◌, ◌++◌, length, MatchOption, SomeIff, IsTrue, FitsSigned};
ghost use Rattle.std.specs.Int.{w64};
ghost use Rattle.std.specs.Fmt.{sign_text};
ghost use Rattle.var_codec.specs.Codes.{Codes};
ghost use Rattle.var_codec.specs.Digits.{HasDigits, HasPoint, Reads, IsOther, IsUnsigned, IsPlain, signed};

use crate::{Coded, MAX_DECIMAL_DIGITS};

// The most digits that a whole number of 64 bits has.
const MAX_DIGITS: usize = 19;

// The digits of a text without its sign.
#[derive(Clone, Copy)]
struct Digits {
    number: u64,
    point: Option<usize>,
}

/// The word of a variable's text: `Whole` where the text is the plain decimal print of a number of
/// 64 signed bits, `Decimal` where it is an optional `-` and 1 to 16 digits with exactly one point
/// among or before them and at least one digit after it, and else `Word`.
///
/// It reads at most 20 bytes and takes no memory.
pub fn encode(text: &[u8]) -> Coded
    ensures { Codes text.now result }
{
    let (negative, digits) = split_sign(text);
    if digits.len() > MAX_DIGITS {
        return Coded::Word;
    }
    let Some(read) = read_digits(digits) else {
        return Coded::Word;
    };
    match read.point {
        None => whole(negative, digits, read.number),
        Some(point) => decimal(negative, digits, read.number, point),
    }
}

// Whether a `-` stands in front, and what follows it.
fn split_sign(text: &[u8]) -> (bool, &[u8])
    ensures joined { text.now ≡ sign_text result.0 ++ result.1.now }
    ensures unsigned { IsUnsigned result.0 result.1.now }
{
    match text {
        [b'-', digits @ ..] => (true, digits),
        _ => (false, text),
    }
}

// Reads digits with at most one point among them.
fn read_digits(bytes: &[u8]) -> Option<Digits>
    requires { length bytes.now ≤ 19 }
    ensures { MatchOption result (IsOther bytes.now) (λ d. Reads bytes.now d.number d.point) }
{
    let mut number = 0;
    let mut point = None;
    for (i, &byte) in bytes.iter().enumerate() {
        if byte.is_ascii_digit() {
            number = number * 10 + u64::from(byte - b'0');
        } else if byte == b'.' && point.is_none() {
            point = Some(i);
        } else {
            return None;
        }
    }
    Some(Digits { number, point })
}

// The word of a sign and digits without a point.
fn whole(negative: bool, digits: &[u8], number: u64) -> Coded
    requires digits { HasDigits digits.now number }
    requires short { length digits.now ≤ 19 }
    ensures { Codes (sign_text negative ++ digits.now) result }
{
    if !is_plain(negative, digits) {
        return Coded::Word;
    }
    match with_sign(negative, number) {
        Some(value) => Coded::Whole(value),
        None => Coded::Word,
    }
}

// Whether no needless 0 stands in front of the digits, and no sign before a lone 0.
fn is_plain(negative: bool, digits: &[u8]) -> bool
    ensures { IsTrue result ↔ IsPlain negative digits.now }
{
    match digits {
        [] => false,
        [b'0'] => !negative,
        [b'0', ..] => false,
        _ => true,
    }
}

// The number with its sign, if it has 64 signed bits.
fn with_sign(negative: bool, number: u64) -> Option<i64>
    ensures { SomeIff result (FitsSigned w64 (signed negative number)) (signed negative number) }
{
    if negative {
        0i64.checked_sub_unsigned(number)
    } else {
        0i64.checked_add_unsigned(number)
    }
}

// The word of a sign and digits with a point.
fn decimal(negative: bool, digits: &[u8], number: u64, point: usize) -> Coded
    requires { HasPoint digits.now number point }
    ensures { Codes (sign_text negative ++ digits.now) result }
{
    let count = digits.len() - 1;
    let places = count - point;
    if places == 0 || count > MAX_DECIMAL_DIGITS {
        return Coded::Word;
    }
    let counts = (count - 1) << 4 | (places - 1);
    Coded::Decimal(u64::from(negative) << 63 | number << 8 | counts as u64)
}
