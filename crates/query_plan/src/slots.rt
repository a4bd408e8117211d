//! Where a text may stand in the messages of a log type.
ghost use Rattle.std.specs.Prelude.{◌≡◌, ◌↔◌, ◌<◌, ◌≤◌, ◌∷◌, ℕ, List, length, IsTrue, IsFalse};
ghost use Rattle.std.specs.Prelude.{IfSome, MatchOption, slice_index};
ghost use Rattle.logtype_text.specs.declared.symbols.Symbol.{Symbol};
ghost use Rattle.logtype_text.specs.TypeText.{type_text};
ghost use Rattle.query_plan.specs.Slots.{MayBegin, MayStand, after_token};
ghost use Rattle.query_plan.specs.StepsStanding.{BeginsAt, IsMissed, IsMissedBehind, IsPassed};
ghost use Rattle.query_plan.specs.StepsStanding.{IsPlainDelimiter, IsReached, StandsAt};

use logtype_text::{Symbol, first_symbol, needs_escape, plain_front};
use memchr::memchr;
use token_rules::is_delim;

/// How far a search looks for the next start at once.
const WINDOW: usize = 64;

/// What is left of a text behind the bytes of a token at its front.
fn after_token(text: &[u8]) -> &[u8]
    ensures { result.now ≡ after_token text.now }
{
    let mut rest = text;
    while let Some((first, behind)) = rest.split_first() {
        if is_delim(*first) {
            break;
        }
        rest = behind;
    }
    rest
}

/// What is left, behind a symbol, of a text that begins with it; `None` where the text begins with
/// another one. The text is given as its first byte and those behind.
fn past_symbol(first: u8, behind: &[u8], symbol: Symbol) -> Option<&[u8]>
    ensures { MatchOption result
        ((symbols : List Symbol) → ¬ MayBegin (first ∷ behind.now) (symbol ∷ symbols))
        (λ left. (symbols : List Symbol)
        → MayBegin (first ∷ behind.now) (symbol ∷ symbols) ↔ MayBegin left.now symbols) }
{
    match symbol {
        Symbol::Byte(byte) => {
            if byte != first {
                return None;
            }
            Some(behind)
        }
        Symbol::Slot(_) => {
            if is_delim(first) {
                return None;
            }
            Some(after_token(behind))
        }
    }
}

/// Whether a text may begin with the first symbol of a log type, which is given by its text: a
/// constant byte stands for itself, and a variable for the bytes of one token. Takes no memory.
pub fn may_begin(text: &[u8], log_type: &[u8]) -> bool
    ensures { (symbols : List Symbol) → log_type.now ≡ type_text symbols
        → IsTrue result ↔ MayBegin text.now symbols }
{
    let mut left = text;
    let mut rest = log_type;
    while let Some((first, behind)) = left.split_first() {
        let Some((symbol, after)) = first_symbol(rest) else {
            return false;
        };
        let Some(others) = past_symbol(*first, behind, symbol) else {
            return false;
        };
        left = others;
        rest = after;
    }
    true
}

/// The place of a delimiter that log types store as it is. A space is taken where there is no other
/// one, since log types have many.
fn plain_delimiter(text: &[u8]) -> Option<usize>
    ensures { IfSome result (λ at. (at < length text.now)
        × IsPlainDelimiter (slice_index text.now at)) }
{
    for (at, byte) in text.iter().enumerate() {
        if *byte != b' ' && is_delim(*byte) && !needs_escape(*byte) {
            return Some(at);
        }
    }
    memchr(b' ', text)
}

/// Whether a text may begin at some place of a log type that holds this byte.
fn begins_at(byte: u8, text: &[u8], log_type: &[u8]) -> bool
    ensures found { IsTrue result → (at : ℕ) × StandsAt byte log_type.now at
        × BeginsAt text.now log_type.now at }
    ensures missed { IsFalse result → (at : ℕ) → IsMissed byte text.now log_type.now at }
{
    let mut from = 0;
    while let Some(ahead) = memchr(byte, &log_type[from..]) {
        let at = from + ahead;
        if may_begin(text, &log_type[at..]) {
            return true;
        }
        from = at + 1;
    }
    false
}

/// How many bytes at the front of a log type are passed over in a search for a text with this first
/// byte: each is a constant byte, and another one.
fn next_start(first: u8, log_type: &[u8]) -> usize
    ensures within { result ≤ length log_type.now }
    ensures passed { IsPassed first log_type.now result }
{
    let window = &log_type[..log_type.len().min(WINDOW)];
    let plain = &window[..plain_front(window)];
    memchr(first, plain).unwrap_or(plain.len())
}

/// Whether a text may begin with some symbol of a log type. Tried are the symbols with the first byte
/// of the text, and where that is no delimiter the slots.
fn begins_somewhere(text: &[u8], log_type: &[u8]) -> bool
    ensures { (symbols : List Symbol) → log_type.now ≡ type_text symbols
        → IsTrue result ↔ MayStand text.now symbols }
{
    let Some((first, _behind)) = text.split_first() else {
        return true;
    };
    if is_delim(*first) && !needs_escape(*first) {
        return begins_at(*first, text, log_type);
    }
    let mut rest = log_type;
    while let Some((_symbol, after)) = first_symbol(rest) {
        if may_begin(text, rest) {
            return true;
        }
        rest = &after[next_start(*first, after)..];
    }
    may_begin(text, rest)
}

/// Whether the byte before a place of a log type ends a symbol that the byte before a text may be of:
/// that constant byte, or a slot. Some other bytes are taken for slots.
fn is_reached(before: u8, log_type: &[u8], at: usize) -> bool
    requires { at ≤ length log_type.now }
    ensures { IsReached before log_type.now at → IsTrue result }
{
    if at == 0 {
        return false;
    }
    let last = log_type[at - 1];
    last == before || needs_escape(last)
}

/// Whether a text may begin at some place of a log type that holds this byte, and the byte before the
/// text be of the symbol before that.
fn begins_behind(before: u8, byte: u8, text: &[u8], log_type: &[u8]) -> bool
    ensures { IsFalse result → (at : ℕ) → IsMissedBehind before byte text.now log_type.now at }
{
    let mut from = 0;
    while let Some(ahead) = memchr(byte, &log_type[from..]) {
        let at = from + ahead;
        if is_reached(before, log_type, at) && may_begin(text, &log_type[at..]) {
            return true;
        }
        from = at + 1;
    }
    false
}

/// Whether a delimiter within a text is a constant byte of a log type with what stands behind it, and
/// may have before it what the text has. Where not, the text may stand nowhere.
fn has_delimiter(text: &[u8], log_type: &[u8]) -> bool
    ensures { (symbols : List Symbol) → log_type.now ≡ type_text symbols
        → MayStand text.now symbols → IsTrue result }
{
    let Some(at) = plain_delimiter(text) else {
        return true;
    };
    at == 0 || begins_behind(text[at - 1], text[at], &text[at..], log_type)
}

/// Whether a text may stand in messages of a log type, which is given by its text: with some symbol
/// first, or within a variable. Where it may not, no body of the log type has the text, by
/// [`texts_stand`](crate::texts_stand). Takes no memory.
///
/// A delimiter of the text is a constant byte of the log type, and most log types have it nowhere
/// between what stands before and behind it.
pub fn may_stand(text: &[u8], log_type: &[u8]) -> bool
    ensures { (symbols : List Symbol) → log_type.now ≡ type_text symbols
        → IsTrue result ↔ MayStand text.now symbols }
{
    has_delimiter(text, log_type) && begins_somewhere(text, log_type)
}
