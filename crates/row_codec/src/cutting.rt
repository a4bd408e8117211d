//! Whether the parts of a row are cut as a body's are.
ghost use Rattle.std.specs.Prelude.{◌≡◌, ◌<◌, ◌≤◌, ◌↔◌, ◌++◌, ℕ, List, None, length, IfNone, IfSome, IsTrue};
ghost use Rattle.logtype_text.specs.declared.symbols.Symbol.{Symbol};
ghost use Rattle.logtype_text.specs.TypeText.{text_of_symbol};
ghost use Rattle.row_codec.specs.StepsCut.{AreTokenBytes, IsCutAt, IsCutText, IsHeldToken, IsHeldWord, IsTokenByte, StopsText, TellsBreaks};

use crate::Names;
use crate::fitting::dictionary_word;
use logtype_text::{Kind, Symbol, first_symbol};
use token_rules::{is_delim, is_var};
use var_codec::{Coded, decimal_ok, decimal_text, encode, whole_text};

// A place in a row: the text of its log type and its words from there on, and the byte directly
// before it where that is a constant delimiter.
#[derive(Clone, Copy)]
pub(crate) struct Place<'a> {
    rest: &'a [u8],
    words: &'a [u64],
    prev: Option<u8>,
}

// Whether the parts that a text and words stand for are those of the body that they join to.
pub(crate) fn body_is_cut<N: Names>(text: &[u8], words: &[u64], names: &N) -> bool
    ensures { IsTrue result ↔ IsCutText (N.words names.now) None text.now words.now }
{
    let mut at = Place {
        rest: text,
        words,
        prev: None,
    };
    while !at.rest.is_empty() {
        let Some(next) = past_part(at, names) else {
            return false;
        };
        at = next;
    }
    at.words.is_empty()
}

// The place behind a delimiter, a token of constants or a variable; `None` where what is there is
// not cut by the rule of tokens.
fn past_part<'a, N: Names>(at: Place<'a>, names: &N) -> Option<Place<'a>>
    requires { 0 < length at.rest.now }
    ensures some { IfSome result (λ next. IsCutAt (N.words names.now) at.entry
        ↔ IsCutAt (N.words names.now) next) }
    ensures none { IfNone result (¬ IsCutAt (N.words names.now) at.entry) }
    ensures shorter { IfSome result (λ next. length next.rest.now < length at.entry.rest.now) }
{
    match first_symbol(at.rest) {
        Some((Symbol::Byte(byte), after)) => {
            if !is_delim(byte) {
                return past_constants(at);
            }
            Some(Place {
                rest: after,
                words: at.words,
                prev: Some(byte),
            })
        }
        Some((Symbol::Slot(kind), after)) => past_variable(at, kind, after, names),
        None => None,
    }
}

// The place behind a variable.
fn past_variable<'a, N: Names>(
    at: Place<'a>,
    kind: Kind,
    after: &'a [u8],
    names: &N,
) -> Option<Place<'a>>
    requires { at.rest.now ≡ text_of_symbol (Symbol.Slot kind) ++ after.now }
    ensures some { IfSome result (λ next. IsCutAt (N.words names.now) at.entry
        ↔ IsCutAt (N.words names.now) next) }
    ensures none { IfNone result (¬ IsCutAt (N.words names.now) at.entry) }
    ensures shorter { IfSome result (λ next. length next.rest.now < length at.entry.rest.now) }
{
    let Place {
        rest: _,
        words,
        prev,
    } = at;
    let [word, left @ ..] = words else {
        return None;
    };
    if !breaks(after) {
        return None;
    }
    if !holds_word(kind, *word, prev, names) {
        return None;
    }
    Some(Place {
        rest: after,
        words: left,
        prev: None,
    })
}

// The place behind a token of constants.
fn past_constants(at: Place<'_>) -> Option<Place<'_>>
    requires { (after : List ℕ) × IsTokenByte at.rest.now after }
    ensures some { (words : List (List ℕ))
        → IfSome result (λ next. IsCutAt words at.entry ↔ IsCutAt words next) }
    ensures none { (words : List (List ℕ)) → IfNone result (¬ IsCutAt words at.entry) }
    ensures shorter { IfSome result (λ next. length next.rest.now < length at.entry.rest.now) }
{
    let Place { rest, words, prev } = at;
    let after = past_token_bytes(rest);
    let token = &rest[..rest.len() - after.len()];
    if is_var(prev, token) {
        return None;
    }
    if !breaks(after) {
        return None;
    }
    Some(Place {
        rest: after,
        words,
        prev: None,
    })
}

// Whether a token before this text ends there: a delimiter follows, or nothing.
fn breaks(text: &[u8]) -> bool
    ensures { TellsBreaks text.now result }
{
    match first_symbol(text) {
        Some((Symbol::Byte(byte), _)) => is_delim(byte),
        Some((Symbol::Slot(_), _)) => false,
        None => true,
    }
}

// The text behind the constant bytes of a token at its front.
fn past_token_bytes(text: &[u8]) -> &[u8]
    ensures bytes { AreTokenBytes text.now result.now }
    ensures stops { StopsText result.now }
    ensures within { length result.now ≤ length text.now }
{
    let mut rest = text;
    while let Some(after) = past_token_byte(rest) {
        rest = after;
    }
    rest
}

// The text behind a constant byte of a token, if one is first.
fn past_token_byte(text: &[u8]) -> Option<&[u8]>
    ensures some { IfSome result (λ after. IsTokenByte text.now after.now) }
    ensures none { IfNone result (StopsText text.now) }
{
    match first_symbol(text) {
        Some((Symbol::Byte(byte), after)) => { if is_delim(byte) { None } else { Some(after) } }
        Some((Symbol::Slot(_), _)) => None,
        None => None,
    }
}

// Whether the text of a variable of this kind with this word is a token that is such a variable.
fn holds_word<N: Names>(kind: Kind, word: u64, prev: Option<u8>, names: &N) -> bool
    ensures { IsTrue result ↔ IsHeldWord (N.words names.now) prev kind word }
{
    let mut digits = [0; 20];
    match kind {
        Kind::Whole => {
            let len = whole_text(word.cast_signed(), &mut digits);
            holds_token(prev, &digits[..len])
        }
        Kind::Decimal => {
            if !decimal_ok(word) {
                return false;
            }
            let len = decimal_text(word, &mut digits);
            holds_token(prev, &digits[..len])
        }
        Kind::Word => match dictionary_word(word, names) {
            Some(text) => encode(text) == Coded::Word && holds_token(prev, text),
            None => false,
        },
    }
}

// Whether bytes are a token that is a variable.
fn holds_token(prev: Option<u8>, bytes: &[u8]) -> bool
    ensures { IsTrue result ↔ IsHeldToken prev bytes.now }
{
    if bytes.is_empty() || bytes.iter().any(|byte| is_delim(*byte)) {
        return false;
    }
    is_var(prev, bytes)
}
