//! The tokens of a text.
ghost use Rattle.std.specs.Prelude.{◌≡◌, ◌<◌, ◌≤◌, ◌↔◌, ◌||◌, ◌&&◌, length, IsTrue, IfSome, IsNone, slice_index, slice_range, nat_le};
ghost use Rattle.token_rules.specs.Classes.{HasClasses, meets};
ghost use Rattle.token_rules.specs.Tokens.{IsDelimiter, IsOutside, IsToken, IsVariable, IsVariableAt, OnlyDelimiters, is_token_byte};

use crate::classes::{self, DIGIT, HEXADECIMAL, LETTER};

/// A token of a text: its bytes are those from `start` up to `end`.
#[derive(Clone, Copy, Debug, PartialEq, Eq)]
pub struct Token {
    /// The place of its first byte.
    pub start: usize,
    /// The place after its last byte.
    pub end: usize,
    /// Whether it is a variable, by the rule of [`is_var`].
    pub variable: bool,
}

// A run of bytes that are no delimiters: its end, the classes that some byte of it has, and the
// hexadecimal bit where each byte has it.
#[derive(Clone, Copy)]
pub(crate) struct Run {
    pub(crate) end: usize,
    pub(crate) any: u8,
    pub(crate) all: u8,
}

// The first place from `from` on that is no delimiter, or the end.
#[inline]
fn skip_delimiters(body: &[u8], from: usize) -> usize
    requires { from ≤ length body.now }
    ensures range { (from ≤ result) × (result ≤ length body.now) }
    ensures skipped { OnlyDelimiters body.now from result }
    ensures stop { result < length body.now → IsTrue (is_token_byte (slice_index body.now result)) }
{
    let mut at = from;
    while at < body.len() && classes::is_delim(body[at]) {
        at += 1;
    }
    at
}

// The run of bytes from `start` on that are no delimiters.
#[inline]
pub(crate) fn run_from(body: &[u8], start: usize) -> Run
    requires { start ≤ length body.now }
    ensures range { (start ≤ result.end) × (result.end ≤ length body.now) }
    ensures unbroken { (k : _) → start ≤ k → k < result.end
        → IsTrue (is_token_byte (slice_index body.now k)) }
    ensures stop { result.end < length body.now → IsDelimiter (slice_index body.now result.end) }
    ensures classes { HasClasses (slice_range body.now start result.end) result.any result.all }
{
    let mut end = start;
    let mut any = 0;
    let mut all = HEXADECIMAL;
    while end < body.len() && !classes::is_delim(body[end]) {
        let class = classes::of(body[end]);
        any |= class;
        all &= class;
        end += 1;
    }
    Run { end, any, all }
}

// Whether a token of this length and these classes is a variable.
#[inline]
fn tells_variable(any: u8, all: u8, length: usize, after_equals: bool) -> bool
    ensures { result
        ≡ (meets any 2 || (after_equals && meets any 4) || (nat_le 2 length && meets all 8)) }
{
    let has_digit = classes::meets(any, DIGIT);
    let has_letter = classes::meets(any, LETTER);
    let is_hexadecimal = classes::meets(all, HEXADECIMAL);
    has_digit || (after_equals && has_letter) || (length >= 2 && is_hexadecimal)
}

/// Whether a token that stands directly after the byte `prev`, or begins the text, is a variable:
/// it holds a digit, or it holds a letter and `prev` is `=`, or it has two or more bytes and all
/// are hexadecimal digits of either case.
pub fn is_var(prev: Option<u8>, token: &[u8]) -> bool
    requires not_empty { 0 < length token.now }
    requires no_delimiter { (k : _) → k < length token.now
        → ¬ IsDelimiter (slice_index token.now k) }
    ensures { IsTrue result ↔ IsVariable prev token.now }
{
    let run = run_from(token, 0);
    tells_variable(run.any, run.all, token.len(), prev == Some(b'='))
}

/// The first token from the place `from` on, which must not stand inside a token; `None` exactly
/// where only delimiters are left.
pub fn next_token(body: &[u8], from: usize) -> Option<Token>
    requires in_range { from ≤ length body.now }
    requires outside { IsOutside body.now from }
    ensures first { IfSome result (λ t. (from ≤ t.start) × OnlyDelimiters body.now from t.start) }
    ensures token { IfSome result (λ t. IsToken body.now t.start t.end) }
    ensures variable { IfSome result
        (λ t. IsTrue t.variable ↔ IsVariableAt body.now t.start t.end) }
    ensures none { IsNone result ↔ OnlyDelimiters body.now from (length body.now) }
{
    let start = skip_delimiters(body, from);
    if start == body.len() {
        return None;
    }
    let run = run_from(body, start);
    let after_equals = start > 0 && body[start - 1] == b'=';
    let variable = tells_variable(run.any, run.all, run.end - start, after_equals);
    Some(Token {
        start,
        end: run.end,
        variable,
    })
}
