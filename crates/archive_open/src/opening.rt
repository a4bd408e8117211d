//! What an opening of whole texts and heads keeps of the records.
ghost use Rattle.std.specs.Prelude.{◌≡◌, ◌≢◌, ◌<◌, ◌⊎◌, ℕ, IfOk, IsTrue, IsFalse, IsErrOf, IsNone};
ghost use Rattle.log_seams.specs.Outside.{CountsOf};
ghost use Rattle.disk_journal.specs.Calls.{StaysAt};
ghost use Rattle.disk_journal.specs.Journal.{state_of};
ghost use Rattle.archive_open.specs.Shown.{Looks};
ghost use Rattle.archive_open.specs.StepsBuilt.{built_of};
ghost use Rattle.archive_open.specs.StepsNext.{Builds, BuildsNext, BuildsTold};
ghost use Rattle.archive_open.specs.Walk.{NoneNext, NoneTold, ReadsOf, StandsWhole};

use crate::grown::{Grown, add_listed};
use crate::keeps::KeepsTexts;
use crate::records::KeepsRecords;
use crate::refusal::ArchiveRefusal;
use crate::segments::{SegmentPlace, add_segment, load_head};
use disk_journal::{Journal, RecordPlace};
use log_seams::Disk;
use record_format::{FILES_KIND, SEGMENT_KIND, TYPES_KIND, WORDS_KIND};
use std::alloc::{AllocError, Global};

/// What was built of the records so far.
#[derive(Drop)]
pub(crate) struct Opening<K: KeepsTexts> {
    /// The texts and the files.
    pub(crate) grown: Grown<K>,
    /// The segments in the order of their records.
    pub(crate) segments: Vec<SegmentPlace>,
}

// Keeps what a record that is no segment has, and tells whether it may follow.
fn keep_listed<K: KeepsTexts + Drop>(
    alloc: Global,
    opening: &mut Opening<K>,
    kind: u8,
    payload: &[u8],
) -> Result<bool, AllocError>
    requires { kind ≢ SEGMENT_KIND }
    ensures kept { IfOk result (λ yes. IsTrue yes → (at : ℕ)
        → BuildsNext at kind payload.now
        (built_of K.kept opening.old) (built_of K.kept opening.new)) }
    ensures refused { IfOk result (λ yes. IsFalse yes → (at : ℕ)
        → NoneNext at kind payload.now (Builds (built_of K.kept opening.old))) }
{
    add_listed(alloc, &mut opening.grown, kind, payload)
}

// Keeps the place and the head of a segment, and tells whether it may follow.
fn keep_segment<D: Disk, K: KeepsTexts + Drop>(
    alloc: Global,
    journal: &mut Journal<'_, D>,
    opening: &mut Opening<K>,
    place: RecordPlace,
) -> Result<bool, ArchiveRefusal>
    requires whole { StandsWhole place (D.state journal.old.disk.now).seen }
    requires kind { place.kind ≡ SEGMENT_KIND }

    // what stays
    ensures looks { Looks (state_of journal.old) (state_of journal.new) }
    ensures stays { StaysAt (state_of journal.old) (state_of journal.new) }
    ensures ranges { ReadsOf place (D.state journal.old.disk.now).seen
        (D.state journal.old.disk.now).ranges (D.state journal.new.disk.now).ranges }

    // by the answer, and causes
    ensures kept { IfOk result (λ yes. IsTrue yes
        → BuildsTold place (D.state journal.old.disk.now).seen
        (built_of K.kept opening.old) (built_of K.kept opening.new)) }
    ensures refused { IfOk result (λ yes. IsFalse yes
        → NoneTold place (D.state journal.old.disk.now).seen
        (Builds (built_of K.kept opening.old))) }
    ensures damaged { (at : ℕ) → IsErrOf result (ArchiveRefusal.Damaged at)
        → IsNone (D.state journal.old.disk.now).seen }
    ensures counts { CountsOf ArchiveRefusal.DiskFault
        (D.state journal.old.disk.now).faults (D.state journal.new.disk.now).faults result }
{
    let Some(head) = load_head(alloc, journal, place)? else {
        return Ok(false);
    };
    let segment = SegmentPlace {
        at: place.at,
        payload: place.payload,
        length: place.length,
        head,
    };
    Ok(add_segment(&mut opening.grown.files, &mut opening.segments, segment)?)
}

// Whether a record of this kind is no segment, and is of some entry.
fn is_listed(kind: u8) -> bool
    ensures { IsFalse result → kind ≢ SEGMENT_KIND → (kind < FILES_KIND) ⊎ (SEGMENT_KIND < kind) }
{
    kind == FILES_KIND || kind == TYPES_KIND || kind == WORDS_KIND
}

// Keeps what a record that is no segment has, which is loaded, and tells whether it may follow.
fn keep_loaded<D: Disk, K: KeepsTexts + Drop>(
    alloc: Global,
    journal: &mut Journal<'_, D>,
    opening: &mut Opening<K>,
    place: RecordPlace,
) -> Result<bool, ArchiveRefusal>
    requires whole { StandsWhole place (D.state journal.old.disk.now).seen }
    requires kind { place.kind ≢ SEGMENT_KIND }

    // what stays
    ensures looks { Looks (state_of journal.old) (state_of journal.new) }
    ensures stays { StaysAt (state_of journal.old) (state_of journal.new) }
    ensures ranges { ReadsOf place (D.state journal.old.disk.now).seen
        (D.state journal.old.disk.now).ranges (D.state journal.new.disk.now).ranges }

    // by the answer, and causes
    ensures kept { IfOk result (λ yes. IsTrue yes
        → BuildsTold place (D.state journal.old.disk.now).seen
        (built_of K.kept opening.old) (built_of K.kept opening.new)) }
    ensures refused { IfOk result (λ yes. IsFalse yes
        → NoneTold place (D.state journal.old.disk.now).seen
        (Builds (built_of K.kept opening.old))) }
    ensures damaged { (at : ℕ) → IsErrOf result (ArchiveRefusal.Damaged at)
        → IsNone (D.state journal.old.disk.now).seen }
    ensures counts { CountsOf ArchiveRefusal.DiskFault
        (D.state journal.old.disk.now).faults (D.state journal.new.disk.now).faults result }
{
    if !is_listed(place.kind) {
        return Ok(false);
    }
    let payload = journal.load(alloc, place.payload, place.length)?;
    Ok(keep_listed(alloc, opening, place.kind, payload.as_slice())?)
}

impl<K: KeepsTexts + Drop> KeepsRecords for Opening<K> {
    ghost kept = { λ o. Builds (built_of K.kept o) };

    ghost sound = { λ _. Unit {0} };

    fn keep<D: Disk>(
        &mut self,
        alloc: Global,
        journal: &mut Journal<'_, D>,
        place: RecordPlace,
    ) -> Result<bool, ArchiveRefusal> {
        if place.kind == SEGMENT_KIND {
            keep_segment(alloc, journal, self, place)
        } else {
            keep_loaded(alloc, journal, self, place)
        }
    }
}
