//! Reading the words that are wanted, each with its record.
ghost use Rattle.std.specs.Prelude.{◌≡◌, ◌<◌, length, OnOk, IsErrOf, IfSome, IsNone, IsTrue, slice_get, Some, None};
ghost use Rattle.log_seams.specs.Disk.{Rests};
ghost use Rattle.log_seams.specs.Outside.{CountsOf};
ghost use Rattle.column_store.specs.Row.{row_of};
ghost use Rattle.row_codec.specs.Numbers.{numbers_of_row};
ghost use Rattle.word_places.specs.Held.{AreHeld, AreNumbered, Grow, HasNumber, IsHeld, KeepsTypes, RightTold, lends, places_of};
ghost use Rattle.word_places.specs.Local.{Agree};
ghost use Rattle.word_places.specs.StepsHeld.{AreReadTo, Puts, TellsRead};
ghost use Rattle.word_places.specs.Places.{OfWords};
ghost use Rattle.word_places.specs.declared.held.HeldRecord.{HeldRecord};
ghost use Rattle.word_places.specs.Reads.{ReadsOneOf, ReadsWords};

use crate::held::{HeldRecord, HeldWords};
use crate::hints::record_near;
use crate::order::{place_at, record_of};
use crate::reading::read_record;
use crate::refusal::HoldRefusal;
use crate::sharing::SharedWords;
use crate::slots::hold_slots;
use column_store::RowRef;
use log_seams::Disk;
use std::alloc::Global;

impl HeldWords {
    /// Reads the record that has a word's number, where it was not read yet. A number that no word
    /// has asks nothing.
    pub fn hold<D: Disk>(&mut self, disk: &mut D, number: u32) -> Result<(), HoldRefusal>
        // what stays
        ensures rests { Rests (D.state disk.old) (D.state disk.new) }
        ensures reads { ReadsOneOf (places_of self.old.records)
            (D.state disk.old) (D.state disk.new) }
        ensures same { KeepsTypes self.old self.new }

        // what grows
        ensures grow { Grow self.old.records self.new.records }
        ensures right { RightTold (D.state disk.old).seen self.old.records
            → RightTold (D.state disk.old).seen self.new.records }

        // by the answer, and causes
        ensures held { OnOk result (number < length (lends self.old.records)
            → IsHeld self.new.records number) }
        ensures damaged { IsErrOf result HoldRefusal.Damaged
            → OfWords (D.state disk.old).seen (places_of self.old.records) (λ _. ⊥) }
        ensures counts { CountsOf HoldRefusal.DiskFault
            (D.state disk.old).faults (D.state disk.new).faults result }
    {
        let answer = hold_in(self.alloc, &mut self.records, disk, number);
        self.front = read_front(self.records.as_slice(), self.front);
        answer
    }

    /// Reads the records of all words of a row that are not read yet. Where each record that was
    /// read before is that of the disk's bytes, the words that are lent then agree with those of
    /// the archive at the row's numbers.
    // Seldom called where `has_row` is asked first, so it is kept out of its callers' loops.
    #[inline(never)]
    pub fn hold_row<D: Disk>(&mut self, disk: &mut D, row: RowRef<'_>) -> Result<(), HoldRefusal>
        // what stays
        ensures rests { Rests (D.state disk.old) (D.state disk.new) }
        ensures reads { ReadsWords (places_of self.old.records)
            (D.state disk.old) (D.state disk.new) }
        ensures same { KeepsTypes self.old self.new }

        // what grows
        ensures grow { Grow self.old.records self.new.records }
        ensures right { RightTold (D.state disk.old).seen self.old.records
            → RightTold (D.state disk.old).seen self.new.records }

        // by the answer, and causes
        ensures held { OnOk result
            (AreHeld self.new.records (numbers_of_row self.old.types (row_of row.entry))) }
        ensures agree { OnOk result (RightTold (D.state disk.old).seen self.old.records
            → OfWords (D.state disk.old).seen (places_of self.old.records)
            (λ words. Agree (numbers_of_row self.old.types (row_of row.entry)) words
            (lends self.new.records))) }
        ensures damaged { IsErrOf result HoldRefusal.Damaged
            → OfWords (D.state disk.old).seen (places_of self.old.records) (λ _. ⊥) }
        ensures counts { CountsOf HoldRefusal.DiskFault
            (D.state disk.old).faults (D.state disk.new).faults result }
    {
        let slots = self.common.slots_at(row.log_type);
        let answer = hold_slots(self.alloc, &mut self.records, disk, slots, row.words);
        self.front = read_front(self.records.as_slice(), self.front);
        answer
    }
}

/// Reads the record that has a number, where it was not read yet.
pub(crate) fn hold_in<D: Disk>(
    alloc: Global,
    records: &mut Vec<HeldRecord>,
    disk: &mut D,
    number: u32,
) -> Result<(), HoldRefusal>
    requires { AreNumbered 0 records.old.items }

    // what stays
    ensures rests { Rests (D.state disk.old) (D.state disk.new) }
    ensures reads { ReadsOneOf (places_of records.old.items)
        (D.state disk.old) (D.state disk.new) }
    ensures numbered { AreNumbered 0 records.new.items }

    // what grows
    ensures grow { Grow records.old.items records.new.items }
    ensures right { RightTold (D.state disk.old).seen records.old.items
        → RightTold (D.state disk.old).seen records.new.items }

    // by the answer, and causes
    ensures held { OnOk result (number < length (lends records.old.items)
        → IsHeld records.new.items number) }
    ensures damaged { IsErrOf result HoldRefusal.Damaged
        → OfWords (D.state disk.old).seen (places_of records.old.items) (λ _. ⊥) }
    ensures counts { CountsOf HoldRefusal.DiskFault
        (D.state disk.old).faults (D.state disk.new).faults result }
{
    let Some(at) = wanted(records.as_slice(), number) else {
        return Ok(());
    };
    let place = place_at(records.as_slice(), at);
    let words = read_record(alloc, disk, place)?;
    put(records, at, words);
    Ok(())
}

// The place of the record that has a number, where it was not read yet.
fn wanted(records: &[HeldRecord], number: u32) -> Option<usize>
    requires { AreNumbered 0 records.now }
    ensures some { IfSome result (λ at. (r : HeldRecord) × (slice_get records.now at ≡ Some r)
        × HasNumber r number × (r.words ≡ None)) }
    ensures none { IsNone result → number < length (lends records.now)
        → IsHeld records.now number }
{
    let at = record_of(records, number)?;
    if is_read(records, at) {
        return None;
    }
    Some(at)
}

/// Whether the record that has a number is known to be read.
#[inline]
pub(crate) fn is_held(records: &[HeldRecord], hints: &[u32], number: u32) -> bool
    requires { AreNumbered 0 records.now }
    ensures { IsTrue result → IsHeld records.now number }
{
    match record_near(records, hints, number) {
        Some(at) => is_read(records, at),
        None => false,
    }
}

/// How many records at the front were read, where it is known of so many.
pub(crate) fn read_front(records: &[HeldRecord], known: usize) -> usize
    requires { AreReadTo known records.now }
    ensures { AreReadTo result records.now }
{
    for at in known..records.len() {
        if !is_read(records, at) {
            return at;
        }
    }
    records.len()
}

// Whether a record was read.
fn is_read(records: &[HeldRecord], at: usize) -> bool
    requires { at < length records.now }
    ensures { TellsRead records.now at result }
{
    records[at].words.is_some()
}

// Puts the words of a record that was not read.
fn put(records: &mut Vec<HeldRecord>, at: usize, words: SharedWords)
    requires { at < length records.old.items }
    ensures { Puts records.old.items at words records.new.items }
{
    records[at].words = Some(words);
}
