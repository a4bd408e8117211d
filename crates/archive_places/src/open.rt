//! Opening an archive by places.
ghost use Rattle.std.specs.Prelude.{ℕ, IfOk, IsErrOf};
ghost use Rattle.log_seams.specs.Disk.{KeepsBytes};
ghost use Rattle.log_seams.specs.Outside.{CountsOf};
ghost use Rattle.disk_journal.specs.Journal.{state_of};
ghost use Rattle.disk_journal.specs.State.{BeginsWith, IsAtFirst};
ghost use Rattle.archive_open.specs.Shown.{Looks, RefusedAt, Spares};
ghost use Rattle.archive_places.specs.Opened.{ArePlacesOrdered, EndsAtGate, OpensPlaces};

use crate::front::FrontList;
use crate::opening::{Opening, TextPlaces};
use crate::places::{PlaceList, Places};
use crate::segments::sort;
use archive_open::{ArchiveRefusal, FileList, keep_all};
use disk_journal::{Journal, start};
use log_seams::Disk;
use std::alloc::Global;

// Opens the archive of a journal before its first record, as `open_places` does that of a disk.
fn open_journal<D: Disk>(
    alloc: Global,
    journal: &mut Journal<'_, D>,
) -> Result<Places, ArchiveRefusal>
    requires first { IsAtFirst (state_of journal.old) }
    requires begins { BeginsWith journal.old.header (D.state journal.old.disk.now) }

    // what stays
    ensures looks { Looks (state_of journal.old) (state_of journal.new) }
    ensures ranges { Spares (D.state journal.old.disk.now).seen
        (D.state journal.old.disk.now).ranges (D.state journal.new.disk.now).ranges }

    // by the answer, and causes
    ensures opened { IfOk result (λ places.
        OpensPlaces (D.state journal.old.disk.now).seen places) }
    ensures order { IfOk result ArePlacesOrdered }
    ensures last { IfOk result (λ places.
        EndsAtGate (D.state journal.old.disk.now).seen places) }
    ensures damaged { (at : ℕ) → IsErrOf result (ArchiveRefusal.Damaged at)
        → RefusedAt at (D.state journal.old.disk.now).seen }
    ensures counts { CountsOf ArchiveRefusal.DiskFault
        (D.state journal.old.disk.now).faults (D.state journal.new.disk.now).faults result }
{
    let header = *journal.header();
    let mut opening = Opening {
        types: TextPlaces::new(alloc, header.types_limit),
        words: TextPlaces::new(alloc, header.words_limit),
        files: Vec::new(alloc),
        segments: Vec::new(alloc),
    };
    keep_all(alloc, journal, &mut opening)?;
    sort(&mut opening.segments);
    Ok(Places {
        header,
        types: PlaceList::new(opening.types.places),
        types_count: opening.types.count,
        words: PlaceList::new(opening.words.places),
        files: FileList::new(opening.files),
        segments: FrontList::new(opening.segments),
        entries: journal.count(),
        end: journal.end(),
    })
}

/// Opens the archive of a disk by places. Where its bytes stand for an archive, what is found is
/// that archive's; where they stand for none, the answer may be `Damaged`, with a gate that is not
/// before the first damage. Of a record of log types or of words 8 bytes are read, of a segment 45,
/// and no more of them is noticed: damage in a text is found when the texts are read.
///
/// # Errors
///
/// `DiskFault`, where the disk's count of faults rose, `Damaged`, or `OutOfMemory`.
pub fn open_places<D: Disk>(alloc: Global, disk: &mut D) -> Result<Places, ArchiveRefusal>
    // what stays
    ensures keeps { KeepsBytes (D.state disk.old) (D.state disk.new) }
    ensures ranges { Spares (D.state disk.old).seen
        (D.state disk.old).ranges (D.state disk.new).ranges }

    // by the answer, and causes
    ensures opened { IfOk result (λ places. OpensPlaces (D.state disk.old).seen places) }
    ensures order { IfOk result ArePlacesOrdered }
    ensures last { IfOk result (λ places. EndsAtGate (D.state disk.old).seen places) }
    ensures damaged { (at : ℕ) → IsErrOf result (ArchiveRefusal.Damaged at)
        → RefusedAt at (D.state disk.old).seen }
    ensures counts { CountsOf ArchiveRefusal.DiskFault
        (D.state disk.old).faults (D.state disk.new).faults result }
{
    let header = start(disk)?;
    let mut journal = Journal::begin(disk, header);
    open_journal(alloc, &mut journal)
}
