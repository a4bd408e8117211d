//! Numbers of which it is told without a look that they are held.
ghost use Rattle.std.specs.Prelude.{◌≡◌, ◌<◌, ℕ, All, IsTrue, false, length};
ghost use Rattle.logtype_text.specs.declared.symbols.Kind.TheVariants.{Word};
ghost use Rattle.row_codec.specs.Numbers.{kinds_from, word_numbers};
ghost use Rattle.word_places.specs.Held.{AreHeld, AreNumbered, IsHeld, lends};
ghost use Rattle.word_places.specs.StepsHeld.{AreReadTo, HasHeld, IsBeside};

use crate::held::HeldRecord;
use crate::holding::is_held;
use crate::order::place_at;
use crate::slots::read_kind;
use logtype_text::Kind;

/// Numbers of words whose records may not have been read: from the first of them up to the end,
/// which is not among them.
#[derive(Clone, Copy, Debug)]
pub(crate) struct Gap {
    first: u64,
    end: u64,
}

// The numbers that no record at the front has, which were all read.
fn gap_behind(records: &[HeldRecord], front: usize) -> Gap
    requires numbered { AreNumbered 0 records.now }
    requires read { AreReadTo front records.now }
    ensures { (number : ℕ) → IsBeside result number → number < length (lends records.now)
        → IsHeld records.now number }
{
    if front >= records.len() {
        return Gap { first: 0, end: 0 };
    }
    let next = place_at(records, front);
    let last = place_at(records, records.len() - 1);
    Gap {
        first: u64::from(next.first),
        end: u64::from(last.first) + u64::from(last.count),
    }
}

// Whether a number is none of a gap.
#[inline]
fn is_beside(gap: Gap, number: u64) -> bool
    ensures { IsTrue result → IsBeside gap number }
{
    number < gap.first || gap.end <= number
}

// Whether it is known of a number that it is held, if some word has it. One of the gap has its
// record looked at.
#[inline]
fn is_known(records: &[HeldRecord], hints: &[u32], gap: Gap, number: u64) -> bool
    requires numbered { AreNumbered 0 records.now }
    requires beside { (n : ℕ) → IsBeside gap n → HasHeld records.now n }
    ensures { IsTrue result → HasHeld records.now number }
{
    if is_beside(gap, number) {
        return true;
    }
    match u32::try_from(number) {
        Ok(number) => is_held(records, hints, number),
        Err(_) => false,
    }
}

/// Whether it is known of each of these numbers that it is held, if some word has it: it stands
/// before the first record that was not read, is past the last word, or is one of a record that was
/// read.
#[inline]
pub(crate) fn are_held(records: &[HeldRecord], hints: &[u32], front: usize, numbers: &[u64]) -> bool
    requires numbered { AreNumbered 0 records.now }
    requires read { AreReadTo front records.now }
    ensures { IsTrue result → All (HasHeld records.now) numbers.now }
{
    let gap = gap_behind(records, front);
    for number in numbers {
        if !is_known(records, hints, gap, *number) {
            return false;
        }
    }
    true
}

// Whether it is known that the word in a slot of this kind is held, where the kind has words of the
// dictionary.
#[inline]
fn is_slot_known(records: &[HeldRecord], hints: &[u32], gap: Gap, kind: Kind, word: u64) -> bool
    requires numbered { AreNumbered 0 records.now }
    requires beside { (n : ℕ) → IsBeside gap n → HasHeld records.now n }
    ensures { IsTrue result → kind ≡ Word → HasHeld records.now word }
{
    kind != Kind::Word || is_known(records, hints, gap, word)
}

/// Whether it is known that the words in the slots of a log type's text are held.
// A function of its own, since most rows are told by their numbers alone.
#[inline(never)]
pub(crate) fn are_slots_held(
    records: &[HeldRecord],
    hints: &[u32],
    front: usize,
    text: &[u8],
    words: &[u64],
) -> bool
    requires numbered { AreNumbered 0 records.now }
    requires read { AreReadTo front records.now }
    ensures { IsTrue result
        → AreHeld records.now (word_numbers (kinds_from false text.now) words.now) }
{
    let gap = gap_behind(records, front);
    let mut escaped = false;
    let mut left = words;
    for byte in text {
        let (next, slot) = read_kind(escaped, *byte);
        escaped = next;
        let Some(kind) = slot else {
            continue;
        };
        let [word, behind @ ..] = left else {
            return true;
        };
        if !is_slot_known(records, hints, gap, kind, *word) {
            return false;
        }
        left = behind;
    }
    true
}
