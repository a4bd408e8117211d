//! Delimiters and runs of other bytes, found by windows.
ghost use Rattle.std.specs.Prelude.{◌≡◌, ◌+◌, ◌<◌, ◌≤◌, ◌||◌, ◌&&◌, nat_le, length, IfSome, IsNone, IsTrue, slice_index};
ghost use Rattle.token_rules.specs.StepsOfWindows.{IsRun, Shows};
ghost use Rattle.token_rules.specs.Tokens.{OnlyDelimiters, is_token_byte};

use crate::classes::{self, DIGIT, HEXADECIMAL, LETTER};
use crate::tokens::run_from;
use crate::window::{SIZE, Window, all_bits, any_bit, clear_from, over, set_from};

/// A run of bytes that are no delimiters: where it ends, and what its bytes are.
#[derive(Clone, Copy)]
pub(crate) struct ShownRun {
    /// The place after its last byte.
    pub(crate) end: usize,
    /// Whether one is a digit.
    pub(crate) has_digit: bool,
    /// Whether one is a letter.
    pub(crate) has_letter: bool,
    /// Whether each is a hexadecimal digit.
    pub(crate) is_hexadecimal: bool,
}

impl ShownRun {
    /// Whether it is a variable where it has so many bytes.
    #[inline(always)]
    pub(crate) fn is_variable(self, length: usize, after_equals: bool) -> bool
        ensures { result ≡ (self.has_digit || (after_equals && self.has_letter)
            || (nat_le 2 length && self.is_hexadecimal)) }
    {
        self.has_digit || (after_equals && self.has_letter) || (length >= 2 && self.is_hexadecimal)
    }
}

// Moves the window to the place, where it does not show it.
#[inline(always)]
fn show(body: &[u8], window: &mut Window, at: usize)
    requires shows { Shows body.now window.old }
    requires inside { at < length body.now }
    ensures shows { Shows body.now window.new }
    ensures has { (window.new.at ≤ at) × (at < window.new.at + 64) }
{
    if window.at > at || at - window.at >= SIZE {
        *window = over(body, at);
    }
}

// The first place from `at` on that is no delimiter, of those that the window shows. The body is
// for the contract alone.
#[inline(always)]
fn first_shown(body: &[u8], window: &Window, at: usize) -> Option<usize>
    requires shows { Shows body.now window.now }
    requires has { (window.now.at ≤ at) × (at < window.now.at + 64) }
    ensures range { IfSome result (λ k. (at ≤ k) × (k < length body.now)) }
    ensures skipped { IfSome result (λ k. OnlyDelimiters body.now at k) }
    ensures stop { IfSome result (λ k. IsTrue (is_token_byte (slice_index body.now k))) }
    ensures none { IsNone result → OnlyDelimiters body.now at (window.now.at + 64) }
{
    let clear = clear_from(window.tokens, at - window.at);
    if clear < SIZE {
        return Some(at + clear);
    }
    None
}

/// The first place from `from` on that is no delimiter, or the end.
#[inline]
pub(crate) fn skip(body: &[u8], window: &mut Window, from: usize) -> usize
    requires shows { Shows body.now window.old }
    requires in_range { from ≤ length body.now }
    ensures shows { Shows body.now window.new }
    ensures range { (from ≤ result) × (result ≤ length body.now) }
    ensures skipped { OnlyDelimiters body.now from result }
    ensures stop { result < length body.now → IsTrue (is_token_byte (slice_index body.now result)) }
{
    let mut at = from;
    while at < body.len() {
        show(body, window, at);
        if let Some(next) = first_shown(body, window, at) {
            return next;
        }
        at = body.len().min(window.at + SIZE);
    }
    at
}

// The run from a place on, where the window shows a byte behind it or the end of the text. The body
// is for the contract alone.
#[inline(always)]
fn shown_run(body: &[u8], window: &Window, start: usize) -> Option<ShownRun>
    requires shows { Shows body.now window.now }
    requires has { (window.now.at ≤ start) × (start < window.now.at + 64) }
    requires inside { start ≤ length body.now }
    ensures { IfSome result
        (λ r. IsRun body.now start r.end r.has_digit r.has_letter r.is_hexadecimal) }
{
    let from = start - window.at;
    let count = set_from(window.tokens, from);
    if from + count < SIZE {
        return Some(ShownRun {
            end: start + count,
            has_digit: any_bit(window.digits, from, count),
            has_letter: any_bit(window.letters, from, count),
            is_hexadecimal: all_bits(window.hexadecimals, from, count),
        });
    }
    None
}

// A run byte by byte, for one that no window shows whole.
#[cold]
fn long_run(body: &[u8], start: usize) -> ShownRun
    requires { start ≤ length body.now }
    ensures { IsRun body.now start result.end result.has_digit result.has_letter
        result.is_hexadecimal }
{
    let run = run_from(body, start);
    ShownRun {
        end: run.end,
        has_digit: classes::meets(run.any, DIGIT),
        has_letter: classes::meets(run.any, LETTER),
        is_hexadecimal: classes::meets(run.all, HEXADECIMAL),
    }
}

/// The run from a place on.
#[inline]
pub(crate) fn read_run(body: &[u8], window: &mut Window, start: usize) -> ShownRun
    requires shows { Shows body.now window.old }
    requires inside { start < length body.now }
    ensures shows { Shows body.now window.new }
    ensures run { IsRun body.now start result.end result.has_digit result.has_letter
        result.is_hexadecimal }
{
    show(body, window, start);
    if let Some(run) = shown_run(body, window, start) {
        return run;
    }
    // It goes on behind the window. The one from its start on shows more of it.
    *window = over(body, start);
    match shown_run(body, window, start) {
        Some(run) => run,
        None => long_run(body, start),
    }
}
