//! Where the record of a number may be looked for first.
ghost use Rattle.std.specs.Prelude.{◌≡◌, ◌≤◌, IfSome, IsNone, IsTrue, Some, length, slice_get};
ghost use Rattle.word_places.specs.Held.{AreNumbered, HasNumber, lends};
ghost use Rattle.word_places.specs.declared.held.HeldRecord.{HeldRecord};

use crate::held::HeldRecord;
use crate::order::{place_at, record_of};
use crate::place::WordsPlace;
use std::alloc::{AllocError, Global};

/// So many numbers have one hint: two to this power.
const SHIFT: u32 = 12;

/// So many numbers, but one.
const BLOCK: u64 = 4095;

/// How many blocks begin before the end of a record.
fn blocks_to(place: WordsPlace) -> u64 {
    (u64::from(place.first) + u64::from(place.count) + BLOCK) >> SHIFT
}

/// Where the first number of each block of numbers stands: the place of its record. These are
/// hints, and nothing rests on them.
pub(crate) fn hints_of(alloc: Global, places: &[WordsPlace]) -> Result<Vec<u32>, AllocError> {
    let mut hints = Vec::new(alloc);
    let mut at: u32 = 0;
    for place in places {
        for _ in hints.len() as u64..blocks_to(*place) {
            hints.push(at)?;
        }
        at = at.saturating_add(1);
    }
    Ok(hints)
}

/// Whether there is a record at a place that has a number.
#[inline]
fn has_number(records: &[HeldRecord], at: usize, number: u32) -> bool
    ensures { IsTrue result → (r : HeldRecord) × (slice_get records.now at ≡ Some r)
        × HasNumber r number }
{
    if at >= records.len() {
        return false;
    }
    let place = place_at(records, at);
    place.first <= number && number - place.first < place.count
}

/// The hint of a number, where there is one.
#[inline]
fn hint_at(hints: &[u32], number: u32) -> usize {
    match hints.get((number >> SHIFT) as usize) {
        Some(at) => *at as usize,
        None => 0,
    }
}

/// The place of the record that has a number; `None` where no word has it. It is that of the hint
/// or the one behind it, or else is found by halving.
#[inline]
pub(crate) fn record_near(records: &[HeldRecord], hints: &[u32], number: u32) -> Option<usize>
    requires { AreNumbered 0 records.now }
    ensures some { IfSome result (λ at. (r : HeldRecord) × (slice_get records.now at ≡ Some r)
        × HasNumber r number) }
    ensures none { IsNone result → length (lends records.now) ≤ number }
{
    let at = hint_at(hints, number);
    if has_number(records, at, number) {
        return Some(at);
    }
    if at < records.len() && has_number(records, at + 1, number) {
        return Some(at + 1);
    }
    record_of(records, number)
}
