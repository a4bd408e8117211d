//! Words by their numbers, as far as they were read.
ghost use Rattle.std.specs.Prelude.{◌≡◌, ◌≤◌, ◌+◌, ◌-◌, ◌^◌, length, MatchOption, slice_get, Some};
ghost use Rattle.plain_list.specs.Texts.{IsNew};
ghost use Rattle.word_places.specs.Held.{AreNumbered, HasNumber, lent, lends};

use crate::held::HeldRecord;
use crate::hints::record_near;
use crate::order::record_at;

// The word with a number, or an empty text where its record was not read.
pub(crate) fn text_in<'r>(records: &'r [HeldRecord], hints: &[u32], number: u32) -> Option<&'r [u8]>
    requires { AreNumbered 0 records.now }
    ensures { MatchOption result (length (lends records.now) ≤ number)
        (λ text. slice_get (lends records.now) number ≡ Some text.now) }
{
    let at = record_near(records, hints, number)?;
    text_at(record_at(records, at), number)
}

// The word of a record with one of its numbers, or an empty text where it was not read.
fn text_at(held: &HeldRecord, number: u32) -> Option<&[u8]>
    requires { HasNumber held.now number }
    ensures { MatchOption result (length (lent held.now) ≤ number - held.now.place.first)
        (λ text. slice_get (lent held.now) (number - held.now.place.first) ≡ Some text.now) }
{
    let place = number - held.place.first;
    match &held.words {
        Some(words) => words.text_of(place as usize),
        None => Some(&[]),
    }
}

// The number of a word with this text, of all that are lent.
pub(crate) fn number_in(records: &[HeldRecord], text: &[u8]) -> Option<u32>
    requires { AreNumbered 0 records.now }
    ensures { MatchOption result (IsNew (lends records.now) text.now)
        (λ number. slice_get (lends records.now) number ≡ Some text.now) }
{
    for at in 0..records.len() {
        if let Some(number) = number_at(record_at(records, at), text) {
            return Some(number);
        }
    }
    None
}

// The number of a word of a record with this text, of those that are lent.
fn number_at(held: &HeldRecord, text: &[u8]) -> Option<u32>
    requires { held.now.place.first + length (lent held.now) ≤ 2 ^ 32 }
    ensures { MatchOption result (IsNew (lent held.now) text.now)
        (λ number. (held.now.place.first ≤ number)
        × (slice_get (lent held.now) (number - held.now.place.first) ≡ Some text.now)) }
{
    let place = place_in(held, text)?;
    Some(held.place.first + place as u32)
}

// The place in a record of a word with this text, of those that are lent.
fn place_in(held: &HeldRecord, text: &[u8]) -> Option<usize>
    ensures { MatchOption result (IsNew (lent held.now) text.now)
        (λ at. slice_get (lent held.now) at ≡ Some text.now) }
{
    match &held.words {
        Some(words) => words.place_of(text),
        None if text.is_empty() && held.place.count > 0 => Some(0),
        None => None,
    }
}
