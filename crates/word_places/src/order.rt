//! Finding the record of a number.
ghost use Rattle.std.specs.Prelude.{◌≡◌, ◌≤◌, ◌<◌, ◌-◌, length, IfSome, IsNone, slice_get, Some};
ghost use Rattle.word_places.specs.Held.{AreNumbered, HasNumber, lends};
ghost use Rattle.word_places.specs.StepsHeld.{StartsBy, StartsPast};
ghost use Rattle.word_places.specs.declared.held.HeldRecord.{HeldRecord};

use crate::held::HeldRecord;
use crate::place::WordsPlace;

// The place of the record that has a number; `None` where no word has it.
pub(crate) fn record_of(records: &[HeldRecord], number: u32) -> Option<usize>
    requires { AreNumbered 0 records.now }
    ensures some { IfSome result (λ at. (r : HeldRecord) × (slice_get records.now at ≡ Some r)
        × HasNumber r number) }
    ensures none { IsNone result → length (lends records.now) ≤ number }
{
    let behind = records_up_to(records, number);
    if behind == 0 {
        return None;
    }
    let at = behind - 1;
    let place = place_at(records, at);
    if number - place.first < place.count {
        Some(at)
    } else {
        None
    }
}

// A record.
pub(crate) fn record_at(records: &[HeldRecord], at: usize) -> &HeldRecord
    requires { at < length records.now }
    ensures { slice_get records.now at ≡ Some result.now }
{
    &records[at]
}

// The place of a record.
pub(crate) fn place_at(records: &[HeldRecord], at: usize) -> WordsPlace
    requires { at < length records.now }
    ensures { (r : HeldRecord) × (slice_get records.now at ≡ Some r) × (result ≡ r.place) }
{
    records[at].place
}

// How many records have a first number that is not above a number: found by halving.
fn records_up_to(records: &[HeldRecord], number: u32) -> usize
    ensures within { result ≤ length records.now }
    ensures low { 0 < result → StartsBy records.now (result - 1) number }
    ensures high { StartsPast records.now result number }
{
    let mut low = 0;
    let mut high = records.len();
    while low < high {
        let middle = low + (high - low) / 2;
        if place_at(records, middle).first <= number {
            low = middle + 1;
        } else {
            high = middle;
        }
    }
    low
}
