// From a word back to its text.
ghost use Rattle.std.specs.Prelude.{◌≡◌, ℕ, ◌+◌, ◌-◌, ◌<◌, ◌≤◌, ◌^◌, ◌↔◌, List, ◌++◌, length, take, drop, IsTrue, OnOk, OnErr};
ghost use Rattle.std.specs.Fmt.{sign_text, signed_decimal};
ghost use Rattle.var_codec.specs.Codes.{Codes, HasText, IsDecimalWord};
ghost use Rattle.var_codec.specs.Fields.{AreFields, padded};

use crate::{Coded, MAX_DECIMAL_DIGITS};
use itoa::{Buffer, write_digits};
use std::alloc::AllocError;

// The bits of a word's number.
const NUMBER_MASK: u64 = (1 << 54) - 1;

// The powers of ten up to that of the most digits.
static TENS: [u64; 17] = [
    1,
    10,
    100,
    1_000,
    10_000,
    100_000,
    1_000_000,
    10_000_000,
    100_000_000,
    1_000_000_000,
    10_000_000_000,
    100_000_000_000,
    1_000_000_000_000,
    10_000_000_000_000,
    100_000_000_000_000,
    1_000_000_000_000_000,
    10_000_000_000_000_000,
];

// The most bytes of a whole number, what is copied of it, and the room for both.
const MAX_WHOLE_LEN: usize = 20;

const WIDTH: usize = 24;

const ROOM: usize = 44;

// What the word of a decimal holds.
#[derive(Clone, Copy)]
struct Fields {
    negative: bool,
    number: u64,
    count: usize,
    places: usize,
}

/// Prints a whole number at the front of `out`, and gives the count of bytes printed: the one text
/// whose word it is.
pub fn whole_text(value: i64, out: &mut [u8; 20]) -> usize
    ensures within { result ≤ 20 }
    ensures text { Codes (take result out.new) (Coded.Whole value) }
    ensures only { (text : List ℕ) → Codes text (Coded.Whole value) → text ≡ take result out.new }
{
    let mut buffer = Buffer::new();
    put(out, 0, buffer.format(value).as_bytes())
}

/// Appends a whole number: the one text whose word it is. Without memory nothing is appended.
#[inline]
pub fn append_whole(value: i64, out: &mut Vec<u8>) -> Result<(), AllocError>
    ensures text { OnOk result ((text : List ℕ)
        × Codes text (Coded.Whole value) × (out.new.items ≡ out.old.items ++ text)) }
    ensures kept { OnErr result (out.new.items ≡ out.old.items) }
{
    let mut text = [0; ROOM];
    let start = write_whole(value, &mut text);
    append_from(out, &text, start)
}

/// Whether a number is the word of some decimal: bit 62 is zero, the number of the digits, in bits 8
/// to 61, is below 10 to the count of digits, and no more digits stand after the point than there
/// are. The count of digits is the number in bits 4 to 7 plus 1, the count of digits after the point
/// the number in bits 0 to 3 plus 1.
pub fn decimal_ok(word: u64) -> bool
    ensures text { IsTrue result ↔ HasText word }
    ensures bits { IsTrue result ↔ IsDecimalWord word }
{
    let fields = take_apart(word);
    word >> 62 & 1 == 0 && fields.number < ten_to(fields.count) && fields.places <= fields.count
}

/// Prints the decimal of a word at the front of `out`, and gives the count of bytes printed: the one
/// text whose word it is. `decimal_ok` tells whether there is one.
pub fn decimal_text(word: u64, out: &mut [u8; 20]) -> usize
    requires { HasText word }
    ensures within { result ≤ 20 }
    ensures text { Codes (take result out.new) (Coded.Decimal word) }
    ensures only { (text : List ℕ) → Codes text (Coded.Decimal word) → text ≡ take result out.new }
{
    let fields = take_apart(word);
    let padded = padded_digits(fields.number);
    let digits = &padded[MAX_DECIMAL_DIGITS - fields.count..];
    let (before, after) = digits.split_at(fields.count - fields.places);
    let at = put(out, 0, sign(fields.negative));
    let at = put(out, at, before);
    let at = put(out, at, b".");
    put(out, at, after)
}

// The sign of a text.
fn sign(negative: bool) -> &'static [u8]
    ensures { result.now ≡ sign_text negative }
{
    if negative { b"-" } else { b"" }
}

// Takes a word apart.
fn take_apart(word: u64) -> Fields
    ensures { AreFields word result }
{
    Fields {
        negative: word >> 63 == 1,
        number: word >> 8 & NUMBER_MASK,
        count: (word >> 4 & 15) as usize + 1,
        places: (word & 15) as usize + 1,
    }
}

// Ten to the count of digits.
fn ten_to(count: usize) -> u64
    requires { count ≤ 16 }
    ensures { result ≡ 10 ^ count }
{
    TENS[count]
}

// The digits of a number with zeros in front.
fn padded_digits(number: u64) -> [u8; MAX_DECIMAL_DIGITS]
    requires { number < 10 ^ 16 }
    ensures { result ≡ padded number }
{
    let mut digits = [b'0'; MAX_DECIMAL_DIGITS];
    let _ = write_digits(number, &mut digits, MAX_DECIMAL_DIGITS);
    digits
}

// Writes a whole number so that it ends at the most that one has, and gives where it starts.
#[inline(always)]
fn write_whole(value: i64, text: &mut [u8; ROOM]) -> usize
    ensures within { result ≤ 20 }
    ensures text { take (20 - result) (drop result text.new) ≡ signed_decimal value }
{
    let start = write_digits(value.unsigned_abs(), text, MAX_WHOLE_LEN);
    if value >= 0 {
        return start;
    }
    text[start - 1] = b'-';
    start - 1
}

// Appends what stands from a place up to the most that a whole number has. All of a width is copied, and
// what is behind is taken back, since a copy of a fixed width costs less than a call.
#[inline(always)]
fn append_from(out: &mut Vec<u8>, text: &[u8; ROOM], start: usize) -> Result<(), AllocError>
    requires { start ≤ 20 }
    ensures put { OnOk result
        (out.new.items ≡ out.old.items ++ take (20 - start) (drop start text.now)) }
    ensures kept { OnErr result (out.new.items ≡ out.old.items) }
{
    let end = out.len() + (MAX_WHOLE_LEN - start);
    let Some(wide) = text[start..].first_chunk::<WIDTH>() else {
        unreachable!();
    };
    out.extend_from_slice(wide)?;
    out.truncate(end);
    Ok(())
}

// Copies the bytes to a place, and gives the place after them.
fn put(out: &mut [u8; 20], at: usize, bytes: &[u8]) -> usize
    requires { at + length bytes.now ≤ 20 }
    ensures end { result ≡ at + length bytes.now }
    ensures written { take result out.new ≡ take at out.old ++ bytes.now }
{
    let end = at + bytes.len();
    out[at..end].copy_from_slice(bytes);
    end
}
