//! Whether a row can be written.
ghost use Rattle.std.specs.Prelude.{◌≡◌, ◌≤◌, ◌↔◌, ◌++◌, ℕ, List, length, IfNone, IfSome, IsTrue, MatchOption, Some, slice_get};
ghost use Rattle.column_store.specs.Row.{row_of};
ghost use Rattle.logtype_text.specs.TypeText.{text_of_symbol};
ghost use Rattle.row_codec.specs.Means.{HasSpelling};
ghost use Rattle.row_codec.specs.StepsBody.{HasBody, HasNoText, HasStampWriting, HasWriting};

use crate::Names;
use column_store::RowRef;
use logtype_text::{Kind, Symbol, first_symbol, plain_front};
use time_patterns::stamp_ok;
use var_codec::decimal_ok;

/// Whether a row can be written: its pattern prints its moment, its numbers have texts, and its
/// words fit the slots of its log type. Takes no memory.
///
/// This asks less than that the row is the encoding of what it is written as.
pub fn row_fits<N: Names>(row: RowRef<'_>, names: &N) -> bool
    ensures { IsTrue result
        ↔ HasSpelling (row_of row.entry) (N.types names.now) (N.words names.now) }
{
    if !stamp_fits(row.pattern, row.moment) {
        return false;
    }
    match names.type_text(row.log_type) {
        Some(text) => words_fit(text, row.words, names),
        None => false,
    }
}

// Whether the pattern prints the moment, or there is no stamp.
pub(crate) fn stamp_fits(pattern: u8, moment: i64) -> bool
    ensures { IsTrue result ↔ HasStampWriting pattern moment }
{
    if pattern == 0 {
        return moment == 0;
    }
    stamp_ok(pattern, moment)
}

// Whether the words fit the slots of a log type's text, and it is one.
fn words_fit<N: Names>(text: &[u8], words: &[u64], names: &N) -> bool
    ensures { IsTrue result ↔ HasBody (N.words names.now) text.now words.now }
{
    let mut rest = past_plain(text);
    let mut left = words;
    while let Some((symbol, after)) = first_symbol(rest) {
        let Some(others) = past_word(symbol, left, names) else {
            return false;
        };
        left = others;
        rest = past_plain(after);
    }
    rest.is_empty() && left.is_empty()
}

// A text behind the constants at its front that stand there as they are.
#[inline]
fn past_plain(text: &[u8]) -> &[u8]
    ensures same { (words : List (List ℕ)) (row : List ℕ)
        → HasBody words text.now row ↔ HasBody words result.now row }
    ensures shorter { length result.now ≤ length text.now }
{
    &text[plain_front(text)..]
}

// The words behind that of a symbol, if it has one; `None` where it is a slot, and no word that
// fits it is there.
#[inline]
fn past_word<'a, N: Names>(symbol: Symbol, words: &'a [u64], names: &N) -> Option<&'a [u64]>
    ensures some { IfSome result (λ left. (after : List ℕ)
        → HasBody (N.words names.now) (text_of_symbol symbol ++ after) words.now
        ↔ HasBody (N.words names.now) after left.now) }
    ensures none { IfNone result ((after : List ℕ)
        → ¬ HasBody (N.words names.now) (text_of_symbol symbol ++ after) words.now) }
{
    match symbol {
        Symbol::Byte(_) => Some(words),
        Symbol::Slot(kind) => {
            let [word, left @ ..] = words else {
                return None;
            };
            if word_fits(kind, *word, names) {
                Some(left)
            } else {
                None
            }
        }
    }
}

// Whether a word of a slot of this kind has a text.
#[inline]
fn word_fits<N: Names>(kind: Kind, word: u64, names: &N) -> bool
    ensures { IsTrue result ↔ HasWriting (N.words names.now) kind word }
{
    match kind {
        Kind::Whole => true,
        Kind::Decimal => decimal_ok(word),
        Kind::Word => dictionary_word(word, names).is_some(),
    }
}

// The text of a dictionary word by the word of a row.
#[inline]
pub(crate) fn dictionary_word<N: Names>(word: u64, names: &N) -> Option<&[u8]>
    ensures { MatchOption result (HasNoText (N.words names.now) word)
        (λ text. slice_get (N.words names.now) word ≡ Some text.now) }
{
    match u32::try_from(word) {
        Ok(number) => names.word_text(number),
        Err(_) => {
            // A number of 32 bits reaches every word, as this look-up tells.
            let _last = names.word_text(u32::MAX);
            None
        }
    }
}
