//! Runs of constant bytes in the text of a log type.
ghost use Rattle.std.specs.Prelude.{◌≡◌, ◌≢◌, ◌↔◌, ◌++◌, ℕ, List, All, false, IfNone, IfSome, IsFalse, IsTrue};
ghost use Rattle.logtype_text.specs.TypeText.{is_escaped, text_of_symbol};
ghost use Rattle.barren_segments.specs.Runs.{BeginsRun, HoldsRun, IsRunEnd, ends_run};

use logtype_text::{Symbol, first_symbol, needs_escape};
use memchr::memmem::find;
use token_rules::is_delim;

/// Whether no run goes on over a symbol.
fn ends_run(symbol: Symbol) -> bool
    ensures { result ≡ ends_run symbol }
{
    match symbol {
        Symbol::Byte(byte) => is_delim(byte),
        Symbol::Slot(_) => true,
    }
}

/// Whether no further byte of a run comes first.
fn is_run_end(text: &[u8]) -> bool
    ensures { IsTrue result ↔ IsRunEnd text.now }
{
    match first_symbol(text) {
        Some((symbol, _)) => ends_run(symbol),
        None => true,
    }
}

/// What follows a constant byte at the front of a text; `None` where no such byte stands there.
fn past_byte(text: &[u8], byte: u8) -> Option<&[u8]>
    ensures some { IfSome result (λ after. text.now
        ≡ text_of_symbol (Symbol.Byte byte) ++ after.now) }
    ensures none { IfNone result ((after : List ℕ)
        → text.now ≢ text_of_symbol (Symbol.Byte byte) ++ after) }
{
    let (symbol, after) = first_symbol(text)?;
    match symbol {
        Symbol::Byte(first) if first == byte => Some(after),
        _ => None,
    }
}

/// Whether the run at the front of a text is the word.
fn begins_run(text: &[u8], word: &[u8]) -> bool
    ensures { IsTrue result ↔ BeginsRun text.now word.now }
{
    let mut rest = text;
    let mut left = word;
    while let Some((first, behind)) = left.split_first() {
        let Some(after) = past_byte(rest, *first) else {
            return false;
        };
        rest = after;
        left = behind;
    }
    is_run_end(rest)
}

/// Whether a run may begin at the front of a text, and the one there is the word.
fn begins_here(may_begin: bool, text: &[u8], word: &[u8]) -> bool
    ensures { IsTrue result ↔ (IsTrue may_begin × BeginsRun text.now word.now) }
{
    may_begin && begins_run(text, word)
}

/// Whether no byte of a word needs a `\` before it in the text of a log type.
fn is_stored_plain(word: &[u8]) -> bool
    ensures { IsTrue result → All (λ b. is_escaped b ≡ false) word.now }
{
    for byte in word {
        if needs_escape(*byte) {
            return false;
        }
    }
    true
}

/// Whether the bytes of a word stand in a text, or some of them need a `\` there. Where not, the word
/// is no run of the text.
fn may_hold(text: &[u8], word: &[u8]) -> bool
    ensures { IsFalse result → ¬ HoldsRun text.now word.now }
{
    if !is_stored_plain(word) {
        return true;
    }
    match find(text, word) {
        Some(_at) => true,
        None => false,
    }
}

/// Whether the word, which is a token, is a run of a text, symbol by symbol.
fn is_run(text: &[u8], word: &[u8]) -> bool
    ensures { IsTrue result ↔ HoldsRun text.now word.now }
{
    let mut rest = text;
    let mut may_begin = true;
    loop {
        if begins_here(may_begin, rest, word) {
            return true;
        }
        let Some((symbol, after)) = first_symbol(rest) else {
            return false;
        };
        may_begin = ends_run(symbol);
        rest = after;
    }
}

/// Whether the word, which is a token, is a run of a text. Takes no memory.
///
/// Most texts do not have its bytes, and are not read symbol by symbol.
pub(crate) fn holds_run(text: &[u8], word: &[u8]) -> bool
    ensures { IsTrue result ↔ HoldsRun text.now word.now }
{
    may_hold(text, word) && is_run(text, word)
}
