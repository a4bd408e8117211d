//! Which of 64 bytes are of a class: a bit for each byte, the first byte's the lowest.
ghost use Rattle.std.specs.Prelude.{◌≡◌, ℕ, ◌<◌, slice_index};
ghost use Rattle.token_rules.specs.StepsOfWindows.{test};
ghost use Rattle.token_rules.specs.Tokens.{is_digit, is_hexadecimal, is_letter, is_token_byte};

use std::simd::prelude::*;

// What makes a small letter of a capital one.
const SMALL: u8 = 0x20;

// The digits.
#[inline(always)]
pub(crate) fn digits(bytes: u8x64) -> u64
    ensures { (k : ℕ) → k < 64 → test result k ≡ is_digit (slice_index bytes k) }
{
    (bytes - u8x64::splat(b'0'))
        .simd_lt(u8x64::splat(10))
        .to_bitmask()
}

// The letters.
#[inline(always)]
pub(crate) fn letters(bytes: u8x64) -> u64
    ensures { (k : ℕ) → k < 64 → test result k ≡ is_letter (slice_index bytes k) }
{
    ((bytes | u8x64::splat(SMALL)) - u8x64::splat(b'a'))
        .simd_lt(u8x64::splat(26))
        .to_bitmask()
}

// The hexadecimal digits of either case.
#[inline(always)]
pub(crate) fn hexadecimals(bytes: u8x64) -> u64
    ensures { (k : ℕ) → k < 64 → test result k ≡ is_hexadecimal (slice_index bytes k) }
{
    let digits = (bytes - u8x64::splat(b'0')).simd_lt(u8x64::splat(10));
    let letters = ((bytes | u8x64::splat(SMALL)) - u8x64::splat(b'a')).simd_lt(u8x64::splat(6));
    (digits | letters).to_bitmask()
}

// The bytes that are no delimiters: digits, letters, and the marks `+`, `-`, `.`, `\` and `_`.
#[inline(always)]
pub(crate) fn tokens(bytes: u8x64) -> u64
    ensures { (k : ℕ) → k < 64 → test result k ≡ is_token_byte (slice_index bytes k) }
{
    let digits = (bytes - u8x64::splat(b'0')).simd_lt(u8x64::splat(10));
    let letters = ((bytes | u8x64::splat(SMALL)) - u8x64::splat(b'a')).simd_lt(u8x64::splat(26));
    let marks = bytes.simd_eq(u8x64::splat(b'+'))
        | bytes.simd_eq(u8x64::splat(b'-'))
        | bytes.simd_eq(u8x64::splat(b'.'))
        | bytes.simd_eq(u8x64::splat(b'\\'))
        | bytes.simd_eq(u8x64::splat(b'_'));
    (digits | letters | marks).to_bitmask()
}
