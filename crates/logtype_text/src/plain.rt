//! Constants that stand in the text of a log type as they are: 16 bytes are looked at together.
ghost use Rattle.std.specs.Prelude.{◌≡◌, ℕ, ◌<◌, ◌≤◌, All, false, length, slice_index, take, true};
ghost use Rattle.logtype_text.specs.TypeText.{is_escaped};
ghost use Rattle.token_rules.specs.StepsOfWindows.{test};

use crate::text::{ESCAPE, WHOLE, needs_escape};
use std::simd::prelude::*;

// How many bytes are looked at together. Most runs of constants between two slots are shorter.
const WIDTH: usize = 16;

/// How many bytes at the front of a text are constants that stand there as they are: none of them is
/// a placeholder or a `\`. Takes no memory.
#[inline]
pub fn plain_front(text: &[u8]) -> usize
    ensures within { result ≤ length text.now }
    ensures plain { All (λ b. is_escaped b ≡ false) (take result text.now) }
    ensures most { result < length text.now → is_escaped (slice_index text.now result) ≡ true }
{
    let mut end = 0;
    while WIDTH <= text.len() - end {
        let plain = first_escaped(u8x16::from_slice(&text[end..]));
        if plain < WIDTH {
            return end + plain;
        }
        end += WIDTH;
    }
    plain_end(text, end)
}

// Where the constants end that stand there as they are from a place on, byte by byte.
#[inline]
fn plain_end(text: &[u8], from: usize) -> usize
    requires within { from ≤ length text.now }
    requires plain { All (λ b. is_escaped b ≡ false) (take from text.now) }
    ensures within { result ≤ length text.now }
    ensures plain { All (λ b. is_escaped b ≡ false) (take result text.now) }
    ensures most { result < length text.now → is_escaped (slice_index text.now result) ≡ true }
{
    let mut end = from;
    while end < text.len() && !needs_escape(text[end]) {
        end += 1;
    }
    end
}

// The place of the first of 16 bytes that stands behind a `\` where it is a constant; 16 or more
// where there is none.
#[inline(always)]
fn first_escaped(bytes: u8x16) -> usize
    ensures plain { (k : ℕ) → k < 16 → k < result → is_escaped (slice_index bytes k) ≡ false }
    ensures stop { result < 16 → is_escaped (slice_index bytes result) ≡ true }
{
    escaped(bytes).trailing_zeros() as usize
}

// Which of 16 bytes stand behind a `\` where they are constants: a bit for each, the first byte's
// the lowest.
#[inline(always)]
fn escaped(bytes: u8x16) -> u64
    ensures { (k : ℕ) → k < 16 → test result k ≡ is_escaped (slice_index bytes k) }
{
    let placeholders = (bytes - u8x16::splat(WHOLE)).simd_lt(u8x16::splat(3));
    (placeholders | bytes.simd_eq(u8x16::splat(ESCAPE))).to_bitmask()
}
