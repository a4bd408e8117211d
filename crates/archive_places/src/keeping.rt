//! What an opening by places keeps of the records.
ghost use Rattle.std.specs.Prelude.{◌≡◌, ℕ, IfOk, IsTrue, IsFalse, IsErrOf, IsNone};
ghost use Rattle.log_seams.specs.Outside.{CountsOf};
ghost use Rattle.disk_journal.specs.Calls.{StaysAt};
ghost use Rattle.disk_journal.specs.Journal.{state_of};
ghost use Rattle.archive_open.specs.Shown.{Looks};
ghost use Rattle.archive_open.specs.Walk.{KeepsTold, NoneTold, ReadsOf, StandsWhole};
ghost use Rattle.archive_places.specs.StepsPlaced.{AreInRun, IsOver, PlacesOf, kind_of, listing, place_by, placing_of, with_texts};

use crate::front::{FIXED_LEN, read_front};
use crate::opening::Opening;
use crate::segments::add_segment;
use archive_open::{ArchiveRefusal, KeepsRecords, add_names};
use disk_journal::{Journal, RecordPlace};
use log_seams::Disk;
use record_format::{FILES_KIND, SEGMENT_KIND, TYPES_KIND, WORDS_KIND, texts_front};
use row_codec::Which;
use std::alloc::{AllocError, Global};

/// How many bytes stand before the texts of a record of log types or of words.
const TEXTS_FRONT: u64 = 8;

// Adds the place of log types or of words, where they go on with the numbers and there is room for
// them.
fn add_texts(
    opening: &mut Opening,
    kind: Which,
    place: RecordPlace,
    first: u32,
    count: u32,
) -> Result<bool, AllocError>
    ensures added { IfOk result (λ yes. IsTrue yes → placing_of opening.new
        ≡ with_texts kind (place_by place first count) (placing_of opening.old)) }
    ensures sound { IfOk result (λ yes. IsTrue yes
        → AreInRun (placing_of opening.old) → AreInRun (placing_of opening.new)) }
    ensures refused { IfOk result (λ yes. IsFalse yes
        → first ≡ (listing kind (placing_of opening.old)).count
        → IsOver (listing kind (placing_of opening.old)) count) }
{
    match kind {
        Which::Types => opening.types.add(place, first, count),
        Which::Words => opening.words.add(place, first, count),
    }
}

// Keeps where a record of log types or of words stands, of which the first eight bytes alone are
// loaded, and tells whether it may follow.
fn keep_texts<D: Disk>(
    alloc: Global,
    journal: &mut Journal<'_, D>,
    opening: &mut Opening,
    kind: Which,
    place: RecordPlace,
) -> Result<bool, ArchiveRefusal>
    requires whole { StandsWhole place (D.state journal.old.disk.now).seen }
    requires kind { place.kind ≡ kind_of kind }

    // what stays
    ensures looks { Looks (state_of journal.old) (state_of journal.new) }
    ensures stays { StaysAt (state_of journal.old) (state_of journal.new) }
    ensures ranges { ReadsOf place (D.state journal.old.disk.now).seen
        (D.state journal.old.disk.now).ranges (D.state journal.new.disk.now).ranges }

    // by the answer
    ensures kept { IfOk result (λ yes. IsTrue yes
        → KeepsTold place (D.state journal.old.disk.now).seen
        (PlacesOf (placing_of opening.old)) (PlacesOf (placing_of opening.new))) }
    ensures sound { IfOk result (λ yes. IsTrue yes
        → AreInRun (placing_of opening.old) → AreInRun (placing_of opening.new)) }
    ensures refused { IfOk result (λ yes. IsFalse yes
        → NoneTold place (D.state journal.old.disk.now).seen
        (PlacesOf (placing_of opening.old))) }

    // causes
    ensures damaged { (at : ℕ) → IsErrOf result (ArchiveRefusal.Damaged at)
        → IsNone (D.state journal.old.disk.now).seen }
    ensures counts { CountsOf ArchiveRefusal.DiskFault
        (D.state journal.old.disk.now).faults (D.state journal.new.disk.now).faults result }
{
    if place.length < TEXTS_FRONT {
        return Ok(false);
    }
    let bytes = journal.load(alloc, place.payload, TEXTS_FRONT)?;
    let Some(front) = texts_front(bytes.as_slice()) else {
        unreachable!();
    };
    Ok(add_texts(opening, kind, place, front.first, front.count)?)
}

// Keeps a segment, of whose head the fixed part alone is loaded, and tells whether it may follow.
fn keep_segment<D: Disk>(
    alloc: Global,
    journal: &mut Journal<'_, D>,
    opening: &mut Opening,
    place: RecordPlace,
) -> Result<bool, ArchiveRefusal>
    requires whole { StandsWhole place (D.state journal.old.disk.now).seen }
    requires kind { place.kind ≡ SEGMENT_KIND }

    // what stays
    ensures looks { Looks (state_of journal.old) (state_of journal.new) }
    ensures stays { StaysAt (state_of journal.old) (state_of journal.new) }
    ensures ranges { ReadsOf place (D.state journal.old.disk.now).seen
        (D.state journal.old.disk.now).ranges (D.state journal.new.disk.now).ranges }

    // by the answer
    ensures kept { IfOk result (λ yes. IsTrue yes
        → KeepsTold place (D.state journal.old.disk.now).seen
        (PlacesOf (placing_of opening.old)) (PlacesOf (placing_of opening.new))) }
    ensures sound { IfOk result (λ yes. IsTrue yes
        → AreInRun (placing_of opening.old) → AreInRun (placing_of opening.new)) }
    ensures refused { IfOk result (λ yes. IsFalse yes
        → NoneTold place (D.state journal.old.disk.now).seen
        (PlacesOf (placing_of opening.old))) }

    // causes
    ensures damaged { (at : ℕ) → IsErrOf result (ArchiveRefusal.Damaged at)
        → IsNone (D.state journal.old.disk.now).seen }
    ensures counts { CountsOf ArchiveRefusal.DiskFault
        (D.state journal.old.disk.now).faults (D.state journal.new.disk.now).faults result }
{
    if place.length < FIXED_LEN {
        return Ok(false);
    }
    let bytes = journal.load(alloc, place.payload, FIXED_LEN)?;
    let Some(front) = read_front(place, bytes.as_slice()) else {
        return Ok(false);
    };
    if front.head_len() > place.length {
        return Ok(false);
    }
    Ok(add_segment(&mut opening.files, &mut opening.segments, front)?)
}

// Keeps the names that a record has, which is loaded, and tells whether it may follow.
fn keep_names<D: Disk>(
    alloc: Global,
    journal: &mut Journal<'_, D>,
    opening: &mut Opening,
    place: RecordPlace,
) -> Result<bool, ArchiveRefusal>
    requires whole { StandsWhole place (D.state journal.old.disk.now).seen }
    requires kind { place.kind ≡ FILES_KIND }

    // what stays
    ensures looks { Looks (state_of journal.old) (state_of journal.new) }
    ensures stays { StaysAt (state_of journal.old) (state_of journal.new) }
    ensures ranges { ReadsOf place (D.state journal.old.disk.now).seen
        (D.state journal.old.disk.now).ranges (D.state journal.new.disk.now).ranges }

    // by the answer
    ensures kept { IfOk result (λ yes. IsTrue yes
        → KeepsTold place (D.state journal.old.disk.now).seen
        (PlacesOf (placing_of opening.old)) (PlacesOf (placing_of opening.new))) }
    ensures sound { IfOk result (λ yes. IsTrue yes
        → AreInRun (placing_of opening.old) → AreInRun (placing_of opening.new)) }
    ensures refused { IfOk result (λ yes. IsFalse yes
        → NoneTold place (D.state journal.old.disk.now).seen
        (PlacesOf (placing_of opening.old))) }

    // causes
    ensures damaged { (at : ℕ) → IsErrOf result (ArchiveRefusal.Damaged at)
        → IsNone (D.state journal.old.disk.now).seen }
    ensures counts { CountsOf ArchiveRefusal.DiskFault
        (D.state journal.old.disk.now).faults (D.state journal.new.disk.now).faults result }
{
    let payload = journal.load(alloc, place.payload, place.length)?;
    Ok(add_names(alloc, &mut opening.files, payload.as_slice())?)
}

impl KeepsRecords for Opening {
    ghost kept = { λ o. PlacesOf (placing_of o) };

    ghost sound = { λ o. AreInRun (placing_of o) };

    fn keep<D: Disk>(
        &mut self,
        alloc: Global,
        journal: &mut Journal<'_, D>,
        place: RecordPlace,
    ) -> Result<bool, ArchiveRefusal> {
        match place.kind {
            FILES_KIND => keep_names(alloc, journal, self, place),
            TYPES_KIND => keep_texts(alloc, journal, self, Which::Types, place),
            WORDS_KIND => keep_texts(alloc, journal, self, Which::Words, place),
            SEGMENT_KIND => keep_segment(alloc, journal, self, place),
            _ => Ok(false),
        }
    }
}
