//! The numbers of dictionary words that rows have.
ghost use Rattle.std.specs.Prelude.{◌≡◌, ℕ, ◌<◌, ◌≤◌, ◌^◌, ◌++◌, [], ◌∷◌, false, slice_index_or, List, All, IfNone, IfOk, IfSome, IsFalse, IsTrue, length, map};
ghost use Rattle.std.specs.List.{flat_map};
ghost use Rattle.column_store.specs.Row.{variable_count};
ghost use Rattle.row_codec.specs.Numbers.{kinds_from, numbers_of_row, word_numbers};
ghost use Rattle.archive_meaning.specs.Spelled.{words_named};
ghost use Rattle.archive_core.specs.LogTypes.{AreKnown};
ghost use Rattle.archive_core.specs.Numbers.{IsWide, TakesWord, with_kind};
ghost use Rattle.archive_core.specs.Slots.{slots_of};

use crate::log_types::LogType;
use crate::rows::Rows;
use crate::slots::Slot;
use logtype_text::Kind;
use plain_list::NumberList;
use segment_format::set_of;
use std::alloc::{AllocError, Global};

// The kind of the slot that a byte of a log type's text is, if it is one, and whether it escapes the next
// byte; `escaped` tells that it is escaped itself.
#[inline]
fn read_kind(escaped: bool, byte: u8) -> (bool, Option<Kind>)
    ensures { (text : List ℕ)
        → kinds_from escaped (byte ∷ text) ≡ with_kind result.1 (kinds_from result.0 text) }
{
    if escaped {
        return (false, None);
    }
    match byte {
        b'\\' => (true, None),
        0x11 => (false, Some(Kind::Whole)),
        0x12 => (false, Some(Kind::Word)),
        0x13 => (false, Some(Kind::Decimal)),
        _ => (false, None),
    }
}

// Takes the word of a slot, and adds it where it is a number of the dictionary; `None` where that has more
// than 32 bits.
#[inline]
fn take_word<'a>(
    kind: Kind,
    words: &'a [u64],
    out: &mut Vec<u32>,
) -> Result<Option<&'a [u64]>, AllocError>
    ensures taken { IfOk result (λ r.
        IfSome r (λ left. TakesWord kind words.now left.now out.old.items out.new.items)) }
    ensures wide { IfOk result (λ r. IfNone r (IsWide kind words.now)) }
{
    let [word, left @ ..] = words else {
        return Ok(Some(words));
    };
    if kind != Kind::Word {
        return Ok(Some(left));
    }
    let Ok(number) = u32::try_from(*word) else {
        return Ok(None);
    };
    out.push(number)?;
    Ok(Some(left))
}

/// Adds the numbers of dictionary words that stand in the slots of a text, from left to right; false
/// where one has more than 32 bits.
pub fn push_numbers(text: &[u8], words: &[u64], out: &mut Vec<u32>) -> Result<bool, AllocError>
    ensures yes { IfOk result (λ fit. IsTrue fit
        → out.new.items ≡ out.old.items ++ word_numbers (kinds_from false text.now) words.now) }
    ensures none { IfOk result (λ fit. IsFalse fit
        → ¬ All (λ n. n < 2 ^ 32) (word_numbers (kinds_from false text.now) words.now)) }
{
    let mut escaped = false;
    let mut left = words;
    for byte in text {
        let (next, slot) = read_kind(escaped, *byte);
        escaped = next;
        let Some(kind) = slot else {
            continue;
        };
        let Some(behind) = take_word(kind, left, out)? else {
            return Ok(false);
        };
        left = behind;
    }
    Ok(true)
}

// Adds the numbers of dictionary words that stand in these slots, from left to right; false where one
// has more than 32 bits.
fn push_slots(slots: &[Slot], words: &[u64], out: &mut Vec<u32>) -> Result<bool, AllocError>
    ensures yes { IfOk result (λ fit. IsTrue fit → out.new.items
        ≡ out.old.items ++ word_numbers (map (λ s. s.kind) slots.now) words.now) }
    ensures none { IfOk result (λ fit. IsFalse fit
        → ¬ All (λ n. n < 2 ^ 32) (word_numbers (map (λ s. s.kind) slots.now) words.now)) }
{
    let mut left = words;
    for slot in slots {
        let Some(behind) = take_word(slot.kind, left, out)? else {
            return Ok(false);
        };
        left = behind;
    }
    Ok(true)
}

// The slots of a log type, of which there are none where no log type has this number.
fn slots_at(known: &[LogType], number: u32) -> &[Slot]
    ensures { (texts : List (List ℕ)) → AreKnown texts known.now
        → result.now ≡ slots_of (slice_index_or texts number []) }
{
    match known.get(number as usize) {
        Some(log_type) => log_type.slots.as_slice(),
        None => &[],
    }
}

// Adds the numbers of dictionary words of all rows; false where one has more than 32 bits.
fn push_all<R: Rows>(known: &[LogType], rows: &R, out: &mut Vec<u32>) -> Result<bool, AllocError>
    requires { length out.old.items ≡ 0 }
    ensures yes { IfOk result (λ fit. IsTrue fit → (texts : List (List ℕ))
        → AreKnown texts known.now
        → out.new.items ≡ flat_map (numbers_of_row texts) (R.rows rows.now)) }
    ensures none { IfOk result (λ fit. IsFalse fit → (texts : List (List ℕ))
        → AreKnown texts known.now
        → ¬ All (λ n. n < 2 ^ 32) (flat_map (numbers_of_row texts) (R.rows rows.now))) }
{
    for place in 0..rows.count() {
        let row = rows.at(place);
        if !push_slots(slots_at(known, row.log_type), row.words, out)? {
            return Ok(false);
        }
    }
    Ok(true)
}

/// The numbers of dictionary words that the rows have, sorted, each once; `None` where one has more than
/// 32 bits, as no row has that is the encoding of a message.
pub(crate) fn words_of<R: Rows>(
    alloc: Global,
    known: &[LogType],
    rows: &R,
) -> Result<Option<NumberList>, AllocError>
    ensures some { IfOk result (λ found. IfSome found (λ numbers. (texts : List (List ℕ))
        → AreKnown texts known.now → numbers ≡ words_named texts (R.rows rows.now))) }
    ensures few { IfOk result (λ found. IfSome found (λ numbers. (texts : List (List ℕ))
        → AreKnown texts known.now → length numbers ≤ variable_count (R.rows rows.now))) }
    ensures none { IfOk result (λ found. IfNone found ((texts : List (List ℕ))
        → AreKnown texts known.now
        → ¬ All (λ n. n < 2 ^ 32) (flat_map (numbers_of_row texts) (R.rows rows.now)))) }
{
    let mut numbers = Vec::new(alloc);
    if !push_all(known, rows, &mut numbers)? {
        return Ok(None);
    }
    Ok(Some(NumberList::new(set_of(alloc, numbers.as_slice())?)))
}
