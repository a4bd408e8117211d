//! Which tokens lie in stamps, with what stands around them in the pattern.
ghost use Rattle.std.specs.Prelude.{◌≡◌, ◌<◌, ◌≤ℤ◌, ℕ, ℤ, List, IfOk, IsFalse, length};
ghost use Rattle.row_codec.specs.Means.{HasStampText};
ghost use Rattle.time_patterns.specs.Stamps.{Prints};
ghost use Rattle.subquery_filter.specs.Filter.{AreStamps, IsWithin, StampMarks};
ghost use Rattle.subquery_filter.specs.Tokens.{EndsAt, LiesAcross, LiesInStamp};

use crate::bits::mark_at;
use crate::short_text::stands_in;
use crate::token::Token;
use segment_format::Head;
use stamp_templates::{may_end, may_hold, may_hold_between, stands_at};
use std::alloc::{AllocError, Global};
use time_patterns::StampPrinter;
use time_patterns::laws::{moment_tells_text, patterns_print_whole_moments};
use token_rules::is_delim;

/// The patterns that print stamps are below this.
const PATTERNS: u8 = 27;

/// Whether so many bytes of a text may end a stamp of the pattern, with a delimiter of the text
/// behind them.
fn may_end_at(pattern: u8, text: &[u8], len: usize) -> bool
    requires { len < length text.now }
    ensures { IsFalse result → (moment : ℤ) (s : List ℕ) → Prints pattern moment s
        → ¬ EndsAt text.now s len }
{
    is_delim(text[len]) && may_end(pattern, &text[..len])
}

/// Whether a stamp of the pattern may end with a front of a text, with a delimiter of the text
/// behind it.
fn may_lie_across(pattern: u8, text: &[u8]) -> bool
    ensures { IsFalse result → (moment : ℤ) (s : List ℕ) → Prints pattern moment s
        → ¬ LiesAcross text.now s }
{
    for len in 1..text.len() {
        if may_end_at(pattern, text, len) {
            return true;
        }
    }
    false
}

/// Whether a token may lie in a stamp of the pattern.
fn may_lie(token: &Token, pattern: u8) -> bool
    ensures { IsFalse result → (moment : ℤ) (s : List ℕ) → Prints pattern moment s
        → ¬ LiesInStamp token.now.chunk token.now.text s }
{
    let chunk = token.chunk.as_slice();
    if may_hold(pattern, chunk) {
        return true;
    }
    may_lie_across(pattern, chunk) && may_hold(pattern, token.text.as_slice())
}

/// The bit of a token that may lie in a stamp of the pattern.
fn stamp_bit(token: &Token, pattern: u8) -> u8
    ensures { (moment : ℤ) (s : List ℕ) → Prints pattern moment s
        → LiesInStamp token.now.chunk token.now.text s → result ≡ token.now.bit }
{
    if may_lie(token, pattern) {
        token.bit
    } else {
        0
    }
}

/// Whether so many bytes of a text end a stamp, with a delimiter of the text behind them.
fn ends_at(stamp: &[u8], text: &[u8], len: usize) -> bool
    requires { len < length text.now }
    ensures { IsFalse result → ¬ EndsAt text.now stamp.now len }
{
    if !is_delim(text[len]) {
        return false;
    }
    len <= stamp.len() && stands_at(stamp, &text[..len], stamp.len() - len)
}

/// Whether a front of a text ends a stamp, with a delimiter of the text behind it.
fn lies_across(stamp: &[u8], text: &[u8]) -> bool
    ensures { IsFalse result → ¬ LiesAcross text.now stamp.now }
{
    for len in 1..text.len() {
        if ends_at(stamp, text, len) {
            return true;
        }
    }
    false
}

/// Whether a token lies in a stamp.
fn lies_in(token: &Token, stamp: &[u8]) -> bool
    ensures { IsFalse result → ¬ LiesInStamp token.now.chunk token.now.text stamp.now }
{
    let chunk = token.chunk.as_slice();
    if stands_in(stamp, chunk) {
        return true;
    }
    lies_across(stamp, chunk) && stands_in(stamp, token.text.as_slice())
}

/// The bit of a token where it lies in a stamp.
fn stamp_mark(token: &Token, stamp: &[u8]) -> u8
    ensures { LiesInStamp token.now.chunk token.now.text stamp.now → result ≡ token.now.bit }
{
    if lies_in(token, stamp) { token.bit } else { 0 }
}

/// The bits of the tokens that lie in a stamp.
fn stamp_marks(tokens: &[Token], stamp: &[u8]) -> u8
    ensures { StampMarks tokens.now stamp.now result }
{
    let mut bits = 0;
    for token in tokens {
        bits |= stamp_mark(token, stamp);
    }
    bits
}

/// The bits of the tokens that may stand in a stamp of the pattern.
fn pattern_bits(tokens: &[Token], pattern: u8) -> u8
    ensures { (moment : ℤ) (s : List ℕ) → Prints pattern moment s → StampMarks tokens.now s result }
{
    let mut bits = 0;
    for token in tokens {
        bits |= stamp_bit(token, pattern);
    }
    bits
}

/// The bits of the tokens that may stand in stamps, by the numbers of the patterns.
pub(crate) fn mark_stamps(alloc: Global, tokens: &[Token]) -> Result<Vec<u8>, AllocError>
    ensures { IfOk result (λ stamps. AreStamps tokens.now stamps.items) }
{
    patterns_print_whole_moments();
    let mut stamps = Vec::new(alloc);
    stamps.push(stamp_marks(tokens, &[]))?;
    for pattern in 1..PATTERNS {
        stamps.push(pattern_bits(tokens, pattern))?;
    }
    Ok(stamps)
}

/// The bits of the tokens that stand in a row's stamp, of those that its pattern may bring.
#[inline(never)]
pub(crate) fn stamp_bits(
    tokens: &[Token],
    may: u8,
    pattern: u8,
    moment: i64,
    printer: &mut StampPrinter,
) -> u8
    ensures { (s : List ℕ) → (HasStampText pattern moment s → StampMarks tokens.now s may)
        → HasStampText pattern moment s → StampMarks tokens.now s result }
{
    moment_tells_text();
    patterns_print_whole_moments();
    let mut text = [0; 32];
    match printer.print_front(pattern, moment, &mut text) {
        Some(len) => stamp_marks(tokens, &text[..len]),
        None => may,
    }
}

/// Whether a token may lie in a stamp of the pattern between two moments.
fn may_lie_between(token: &Token, pattern: u8, least: i64, greatest: i64) -> bool
    ensures { IsFalse result → (moment : ℤ) (s : List ℕ) → least ≤ℤ moment → moment ≤ℤ greatest
        → Prints pattern moment s → ¬ LiesInStamp token.now.chunk token.now.text s }
{
    let chunk = token.chunk.as_slice();
    if may_hold_between(pattern, chunk, least, greatest) {
        return true;
    }
    may_lie_across(pattern, chunk)
        && may_hold_between(pattern, token.text.as_slice(), least, greatest)
}

/// The bit of a token that may lie in a stamp of the pattern between two moments.
fn bit_between(token: &Token, pattern: u8, least: i64, greatest: i64) -> u8
    ensures { (moment : ℤ) (s : List ℕ) → least ≤ℤ moment → moment ≤ℤ greatest
        → Prints pattern moment s → LiesInStamp token.now.chunk token.now.text s
        → result ≡ token.now.bit }
{
    if may_lie_between(token, pattern, least, greatest) {
        token.bit
    } else {
        0
    }
}

/// The bits of the tokens that may lie in a stamp of the pattern between two moments.
pub(crate) fn span_tokens(tokens: &[Token], pattern: u8, least: i64, greatest: i64) -> u8
    ensures { (moment : ℤ) (s : List ℕ) → least ≤ℤ moment → moment ≤ℤ greatest
        → Prints pattern moment s → StampMarks tokens.now s result }
{
    let mut bits = 0;
    for token in tokens {
        bits |= bit_between(token, pattern, least, greatest);
    }
    bits
}

/// The bits of the tokens that may lie in a stamp of the pattern in a segment with this head, of
/// those that the pattern may bring.
fn pattern_within(tokens: &[Token], may: u8, pattern: u8, head: &Head) -> u8
    ensures { (moment : ℤ) (s : List ℕ) → IsWithin head.now moment → Prints pattern moment s
        → StampMarks tokens.now s may → StampMarks tokens.now s result }
{
    if may == 0 {
        return 0;
    }
    span_tokens(tokens, pattern, head.least, head.greatest)
}

/// The bits of the tokens that may stand in the stamps of a segment with this head, by what the
/// stamps of each pattern may bring.
pub(crate) fn bits_within(tokens: &[Token], stamps: &[u8], head: &Head) -> u8
    ensures { AreStamps tokens.now stamps.now → (pattern : ℕ) (moment : ℤ) (s : List ℕ)
        → IsWithin head.now moment → Prints pattern moment s → StampMarks tokens.now s result }
{
    patterns_print_whole_moments();
    let mut bits = 0;
    for pattern in 1..PATTERNS {
        let may = mark_at(stamps, u64::from(pattern));
        bits |= pattern_within(tokens, may, pattern, head);
    }
    bits
}
