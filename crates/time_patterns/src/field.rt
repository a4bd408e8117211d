//! One number of a stamp's text: read and written with all its digits.
ghost use Rattle.time_patterns.specs.Digits.{digits, byte_text};
ghost use Rattle.time_patterns.specs.Steps.{IsNumber};
ghost use Rattle.std.specs.Prelude.{◌≡◌, ◌≢◌, ℕ, List, ◌+◌, ◌^◌, ◌<◌, ◌≤◌, ◌++◌, length, take, IfSome, IfNone};

use crate::digits::{ROOM, put, six_digits, three_digits};

/// A number of a stamp's text: how many digits it has, and the byte that stands before it.
#[derive(Clone, Copy, Debug)]
pub struct Field {
    pub before: Option<u8>,
    pub digits: u8,
}

impl Field {
    ghost use Rattle.time_patterns.specs.Digits.{field_text};
    ghost use Rattle.time_patterns.specs.Steps.{IsField, IsFewDigits, LacksField};

    /// Reads the byte and the number at the front of the text, and gives what is left of it.
    /// `None` where they do not stand there.
    #[inline(always)]
    pub fn read<'a>(&self, text: &'a [u8]) -> Option<(u32, &'a [u8])>
        requires { self.now.digits ≤ 6 }
        ensures some { IfSome result (λ r. IsField self.now text.now r.0 r.1.now) }
        ensures none { IfNone result (LacksField self.now text.now) }
    {
        let text = skip_byte(self.before, text)?;
        let (front, rest) = text.split_at_checked(usize::from(self.digits))?;
        Some((read_digits(front)?, rest))
    }

    /// Writes the byte and the number at the place, and gives the place behind them. The number has
    /// three digits or six, or none.
    #[inline(always)]
    pub fn write(&self, number: u32, out: &mut [u8; ROOM], at: usize) -> usize
        requires digits { IsFewDigits self.now.digits }
        requires number { number < 10 ^ self.now.digits }
        requires room { at + length (field_text self.now number) ≤ 32 }
        ensures text { take result out.new ≡ take at out.old ++ field_text self.now number }
        ensures end { result ≡ at + length (field_text self.now number) }
    {
        let at = write_byte(self.before, out, at);
        let digits = self.digits;
        if digits == 3 {
            return put(out, at, &three_digits(number));
        }
        if digits == 6 {
            return put(out, at, &six_digits(number));
        }
        at
    }
}

/// What follows the byte, if there is one to stand at the front.
#[inline(always)]
pub fn skip_byte(byte: Option<u8>, text: &[u8]) -> Option<&[u8]>
    ensures some { IfSome result (λ rest. text.now ≡ byte_text byte ++ rest.now) }
    ensures none { IfNone result ((rest : List ℕ) → text.now ≢ byte_text byte ++ rest) }
{
    let Some(byte) = byte else {
        return Some(text);
    };
    match text.split_first() {
        Some((first, rest)) if *first == byte => Some(rest),
        _ => None,
    }
}

/// Writes the byte at the place, if there is one, and gives the place behind it.
#[inline(always)]
pub fn write_byte(byte: Option<u8>, out: &mut [u8; ROOM], at: usize) -> usize
    requires { at + length (byte_text byte) ≤ 32 }
    ensures text { take result out.new ≡ take at out.old ++ byte_text byte }
    ensures end { result ≡ at + length (byte_text byte) }
{
    let Some(byte) = byte else {
        return at;
    };
    out[at] = byte;
    at + 1
}

// The number whose digits these bytes are.
#[inline(always)]
fn read_digits(text: &[u8]) -> Option<u32>
    requires { length text.now ≤ 6 }
    ensures some { IfSome result (λ x. IsNumber text.now x) }
    ensures none { IfNone result ((x : ℕ) → text.now ≢ digits (length text.now) x) }
{
    let mut number = 0;
    for byte in text {
        if !byte.is_ascii_digit() {
            return None;
        }
        number = number * 10 + u32::from(*byte - b'0');
    }
    Some(number)
}
