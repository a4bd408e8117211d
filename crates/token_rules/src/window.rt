//! Windows: what 64 bytes of a text are, a bit for each.
ghost use Rattle.std.specs.Prelude.{◌≡◌, ℕ, ◌+◌, ◌<◌, ◌≤◌, false, true, length, slice_index};
ghost use Rattle.token_rules.specs.StepsOfWindows.{Shows, all_bits, any_bit, test};

use crate::lanes;
use std::simd::prelude::*;

/// How many bytes a window shows.
pub(crate) const SIZE: usize = 64;

/// What the 64 bytes of a text from a place on are, a bit for each byte, the lowest for the first.
/// No bit is set for a place past the end.
#[derive(Clone, Copy)]
pub(crate) struct Window {
    /// The place of the first byte.
    pub(crate) at: usize,
    /// The bytes that are no delimiters.
    pub(crate) tokens: u64,
    /// The digits.
    pub(crate) digits: u64,
    /// The letters.
    pub(crate) letters: u64,
    /// The hexadecimal digits of either case.
    pub(crate) hexadecimals: u64,
}

// The window that these bytes of the body make.
#[inline(always)]
fn of(bytes: u8x64, at: usize, body: &[u8]) -> Window
    requires { (k : ℕ) → k < 64 → slice_index bytes k ≡ slice_index body.now (at + k) }
    ensures at { result.at ≡ at }
    ensures shows { Shows body.now result }
{
    Window {
        at,
        tokens: lanes::tokens(bytes),
        digits: lanes::digits(bytes),
        letters: lanes::letters(bytes),
        hexadecimals: lanes::hexadecimals(bytes),
    }
}

// The last bytes from a place on, and zeros behind them.
fn last(body: &[u8], at: usize) -> u8x64
    requires { (at ≤ length body.now) × (length body.now < at + 64) }
    ensures { (k : ℕ) → k < 64 → slice_index result k ≡ slice_index body.now (at + k) }
{
    let rest = &body[at..];
    let mut bytes = [0; SIZE];
    bytes[..rest.len()].copy_from_slice(rest);
    u8x64::from_array(bytes)
}

/// The window over a text from a place on.
#[inline]
pub(crate) fn over(body: &[u8], at: usize) -> Window
    requires inside { at ≤ length body.now }
    requires later { 64 ≤ length body.now → at < length body.now }
    ensures at { result.at ≡ at }
    ensures shows { Shows body.now result }
{
    let left = body.len() - at;
    if SIZE <= left {
        of(u8x64::from_slice(&body[at..]), at, body)
    } else if SIZE <= body.len() {
        // Nothing is copied: the last bytes of the text, without those before the place.
        let start = body.len() - SIZE;
        moved(of(u8x64::from_slice(&body[start..]), start, body), at, body)
    } else {
        of(last(body, at), at, body)
    }
}

// The window of a text's end, from a later place on.
#[inline(always)]
fn moved(window: Window, at: usize, body: &[u8]) -> Window
    requires shows { Shows body.now window }
    requires later { (window.at ≤ at) × (at < window.at + 64) }
    requires end { length body.now ≤ window.at + 64 }
    ensures at { result.at ≡ at }
    ensures shows { Shows body.now result }
{
    let by = at - window.at;
    Window {
        at,
        tokens: moved_down(window.tokens, by),
        digits: moved_down(window.digits, by),
        letters: moved_down(window.letters, by),
        hexadecimals: moved_down(window.hexadecimals, by),
    }
}

// The bits from a place on.
#[inline(always)]
fn moved_down(bits: u64, by: usize) -> u64
    requires { by < 64 }
    ensures kept { (k : ℕ) → test result k ≡ test bits (by + k) }
    ensures above { (k : ℕ) → 64 ≤ by + k → test result k ≡ false }
{
    bits >> by
}

/// Whether one of so many bits from a place on is set.
#[inline(always)]
pub(crate) fn any_bit(bits: u64, from: usize, count: usize) -> bool
    requires { from + count < 64 }
    ensures { result ≡ any_bit bits from count }
{
    (bits >> from) & ((1 << count) - 1) != 0
}

/// Whether each of so many bits from a place on is set.
#[inline(always)]
pub(crate) fn all_bits(bits: u64, from: usize, count: usize) -> bool
    requires { from + count < 64 }
    ensures { result ≡ all_bits bits from count }
{
    !any_bit(!bits, from, count)
}

/// How many bits from a place on are not set before the first that is; 64 where none is set.
#[inline(always)]
pub(crate) fn clear_from(bits: u64, from: usize) -> usize
    requires { from < 64 }
    ensures bound { result ≤ 64 }
    ensures inside { result < 64 → from + result < 64 }
    ensures clear { (k : ℕ) → k < result → test bits (from + k) ≡ false }
    ensures set { result < 64 → test bits (from + result) ≡ true }
{
    (bits >> from).trailing_zeros() as usize
}

/// How many bits from a place on are set before the first that is not.
#[inline(always)]
pub(crate) fn set_from(bits: u64, from: usize) -> usize
    requires { from < 64 }
    ensures bound { from + result ≤ 64 }
    ensures set { (k : ℕ) → k < result → test bits (from + k) ≡ true }
    ensures clear { from + result < 64 → test bits (from + result) ≡ false }
{
    // Zeros come in from above, so that it ends there at the latest.
    (!(bits >> from)).trailing_zeros() as usize
}
