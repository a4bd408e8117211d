//! Whether the words of a row may stand in the slots of its log type.
ghost use Rattle.std.specs.Prelude.{◌≡◌, ◌↔◌, MatchOption, IsTrue, Some, slice_get};
ghost use Rattle.logtype_text.specs.Parts.{HasKind};
ghost use Rattle.row_codec.specs.StepsBody.{HasNoText};
ghost use Rattle.row_codec.specs.StepsCut.{IsHeldToken, IsHeldWord};
ghost use Rattle.archive_core.specs.Slots.{AreHeld};

use crate::slots::Slot;
use logtype_text::Kind;
use row_codec::Names;
use token_rules::{is_delim, is_var};
use var_codec::{Coded, decimal_ok, encode};

// The text of a dictionary word by the word of a row.
#[inline]
fn dictionary_word<N: Names>(word: u64, names: &N) -> Option<&[u8]>
    ensures { MatchOption result (HasNoText (N.words names.now) word)
        (λ text. slice_get (N.words names.now) word ≡ Some text.now) }
{
    match u32::try_from(word) {
        Ok(number) => names.word_text(number),
        Err(_) => {
            // A number of 32 bits reaches every word, as this look-up tells.
            let _last = names.word_text(u32::MAX);
            None
        }
    }
}

// Whether bytes are a token that is a variable behind this byte.
#[inline]
fn is_held_token(prev: Option<u8>, bytes: &[u8]) -> bool
    ensures { IsTrue result ↔ IsHeldToken prev bytes.now }
{
    if bytes.is_empty() || bytes.iter().any(|byte| is_delim(*byte)) {
        return false;
    }
    is_var(prev, bytes)
}

// Whether a text that is no number's may stand in a slot for words behind this byte.
#[inline]
fn is_held_text(prev: Option<u8>, text: &[u8]) -> bool
    ensures { IsTrue result ↔ (IsHeldToken prev text.now × HasKind text.now Kind.Word) }
{
    encode(text) == Coded::Word && is_held_token(prev, text)
}

// Whether a word may stand in a slot. Each number is printed as a token that is a variable.
#[inline]
fn holds_word<N: Names>(slot: Slot, word: u64, names: &N) -> bool
    ensures { IsTrue result ↔ IsHeldWord (N.words names.now) slot.prev slot.kind word }
{
    match slot.kind {
        Kind::Whole => true,
        Kind::Decimal => decimal_ok(word),
        Kind::Word => match dictionary_word(word, names) {
            Some(text) => is_held_text(slot.prev, text),
            None => false,
        },
    }
}

/// Whether there is a word for each slot, which may stand there.
pub(crate) fn are_held<N: Names>(slots: &[Slot], words: &[u64], names: &N) -> bool
    ensures { IsTrue result ↔ AreHeld (N.words names.now) slots.now words.now }
{
    let mut left = words;
    for slot in slots {
        let [word, behind @ ..] = left else {
            return false;
        };
        if !holds_word(*slot, *word, names) {
            return false;
        }
        left = behind;
    }
    left.is_empty()
}
