//! What a row is written as, read from its front a byte at a time.
ghost use Rattle.std.specs.Prelude.{◌≡◌, ℕ, List, [], ◌∷◌, ◌+◌, ◌<◌, ◌≤◌, ◌++◌, IfNone, IfSome, IsSome, MatchOption, Some, ⊤, slice_get, slice_range, take};
ghost use Rattle.std.specs.Fmt.{signed_decimal};
ghost use Rattle.std.specs.Int.{cast_signed, w64};
ghost use Rattle.column_store.specs.Row.{row_of};
ghost use Rattle.row_codec.specs.Means.{HasSpelling, HasStampText, IsSpelling};
ghost use Rattle.row_codec.specs.StepsBody.{HasNoText, HasStampWriting};
ghost use Rattle.subquery_filter.specs.StepsLetters.{left_of, shown, text_at};

use column_store::RowRef;
use logtype_text::{Kind, Symbol, first_symbol};
use query_plan::Letters;
use row_codec::Names;
use std::alloc::AllocError;
use time_patterns::print_stamp;
use var_codec::{decimal_ok, decimal_text, whole_text};

/// How many bytes a stamp may have.
const STAMP_LEN: usize = 32;

/// What is left of a row's text: printed bytes, then those of a word, then what the rest of the log
/// type's text is written as with the words that are left.
pub(crate) struct RowLetters<'a, N> {
    printed: [u8; STAMP_LEN],
    at: usize,
    end: usize,
    word: &'a [u8],
    text: &'a [u8],
    words: &'a [u64],
    names: &'a N,
}

impl<N> Clone for RowLetters<'_, N> {
    ghost is_clone = { λ x y. y ≡ x };

    ghost is_infallible = { λ _. ⊤ };

    fn clone(&self) -> Result<Self, AllocError> {
        Ok(*self)
    }
}

impl<N> Copy for RowLetters<'_, N> {}

/// The text of a row from its start.
pub(crate) fn row_letters<'a, N: Names>(row: RowRef<'a>, names: &'a N) -> RowLetters<'a, N>
    requires { HasSpelling (row_of row) (N.types names.now) (N.words names.now) }
    ensures { IsSpelling (row_of row.entry) (N.types names.now) (N.words names.now)
        (left_of result.printed result.at result.end result.word.now (N.words result.names.now)
        result.text.now result.words.now) }
{
    let mut printed = [0; STAMP_LEN];
    let end = put_stamp(row.pattern, row.moment, &mut printed);
    let Some(text) = names.type_text(row.log_type) else {
        unreachable!();
    };
    RowLetters {
        printed,
        at: 0,
        end,
        word: &[],
        text,
        words: row.words,
        names,
    }
}

/// Prints a stamp, nothing where there is none, and gives the count of its bytes.
fn put_stamp(pattern: u8, moment: i64, out: &mut [u8; STAMP_LEN]) -> usize
    requires { HasStampWriting pattern moment }
    ensures within { result ≤ 32 }
    ensures text { HasStampText pattern moment (take result out.new) }
{
    if pattern == 0 {
        return 0;
    }
    print_stamp(pattern, moment, out)
}

/// Prints a whole number by its word at the front, and gives the count of its bytes.
fn put_whole(word: u64, out: &mut [u8; STAMP_LEN]) -> usize
    ensures within { result ≤ 20 }
    ensures text { take result out.new ≡ signed_decimal (cast_signed w64 word) }
{
    let mut digits = [0; 20];
    let len = whole_text(word.cast_signed(), &mut digits);
    out[..20].copy_from_slice(&digits);
    len
}

/// Prints a decimal by its word at the front, and gives the count of its bytes: none where no
/// decimal has this word.
fn put_decimal(word: u64, out: &mut [u8; STAMP_LEN]) -> usize
    ensures within { result ≤ 20 }
    ensures text { (words : List (List ℕ)) → take result out.new ≡ shown words Kind.Decimal word }
{
    if !decimal_ok(word) {
        return 0;
    }
    let mut digits = [0; 20];
    let len = decimal_text(word, &mut digits);
    out[..20].copy_from_slice(&digits);
    len
}

/// The text of a dictionary word by the word of a row.
fn dictionary_word<N: Names>(word: u64, names: &N) -> Option<&[u8]>
    ensures { MatchOption result (HasNoText (N.words names.now) word)
        (λ text. slice_get (N.words names.now) word ≡ Some text.now) }
{
    match u32::try_from(word) {
        Ok(number) => names.word_text(number),
        Err(_) => {
            // A number of 32 bits reaches every word, as this look-up tells.
            let _last = names.word_text(u32::MAX);
            None
        }
    }
}

/// The text of a dictionary word by the word of a row, empty where there is none.
fn word_text<N: Names>(word: u64, names: &N) -> &[u8]
    ensures { result.now ≡ text_at (N.words names.now) word }
{
    match dictionary_word(word, names) {
        Some(text) => text,
        None => &[],
    }
}

impl<N: Names> RowLetters<'_, N> {
    /// Puts the text of a variable in front, where nothing is left of the one before.
    fn show(&mut self, kind: Kind, word: u64)
        requires { self.old.word.now ≡ [] }
        ensures shown { slice_range self.new.printed self.new.at self.new.end ++ self.new.word.now
            ≡ shown (N.words self.old.names.now) kind word }
        ensures text { self.new.text ≡ self.old.text }
        ensures words { self.new.words ≡ self.old.words }
        ensures names { self.new.names ≡ self.old.names }
    {
        self.at = 0;
        match kind {
            Kind::Whole => self.end = put_whole(word, &mut self.printed),
            Kind::Decimal => self.end = put_decimal(word, &mut self.printed),
            Kind::Word => {
                self.end = 0;
                self.word = word_text(word, self.names);
            }
        }
    }
}

/// The byte at a place before an end.
fn byte_at(printed: &[u8; STAMP_LEN], at: usize, end: usize) -> Option<u8>
    ensures within { IsSome result → at < end }
    ensures some { IfSome result (λ b. slice_range printed.now at end
        ≡ b ∷ slice_range printed.now (at + 1) end) }
    ensures none { IfNone result (slice_range printed.now at end ≡ []) }
{
    if at < end && at < STAMP_LEN {
        Some(printed[at])
    } else {
        None
    }
}

impl<N: Names> Letters for RowLetters<'_, N> {
    ghost rest = { λ l. left_of l.printed l.at l.end l.word.now (N.words l.names.now)
        l.text.now l.words.now };

    fn letter(&mut self) -> Option<u8> {
        loop {
            if let Some(byte) = byte_at(&self.printed, self.at, self.end) {
                self.at += 1;
                return Some(byte);
            }
            if let Some((first, behind)) = self.word.split_first() {
                self.word = behind;
                return Some(*first);
            }
            let (symbol, after) = first_symbol(self.text)?;
            match symbol {
                Symbol::Byte(byte) => {
                    self.text = after;
                    return Some(byte);
                }
                Symbol::Slot(kind) => {
                    let (word, left) = self.words.split_first()?;
                    self.text = after;
                    self.words = left;
                    self.show(kind, *word);
                }
            }
        }
    }
}
