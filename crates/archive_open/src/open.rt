//! Opening an archive.
ghost use Rattle.std.specs.Prelude.{◌≡◌, ℕ, IfOk, IsErrOf, OnOk};
ghost use Rattle.log_seams.specs.Disk.{KeepsBytes};
ghost use Rattle.log_seams.specs.Outside.{CountsOf};
ghost use Rattle.disk_journal.specs.Journal.{state_of};
ghost use Rattle.disk_journal.specs.State.{BeginsWith, IsAtEnd, IsAtFirst};
ghost use Rattle.archive_open.specs.Archive.{shown};
ghost use Rattle.archive_open.specs.Shown.{HasLastGate, Looks, Opens, RefusedAt, Spares};

use crate::archive::Archive;
use crate::files::FileList;
use crate::grown::Grown;
use crate::keeps::KeepsTexts;
use crate::opening::Opening;
use crate::refusal::ArchiveRefusal;
use crate::segments::{SegmentList, sort};
use crate::walk::keep_all;
use disk_journal::{Journal, start};
use log_seams::Disk;
use std::alloc::Global;

/// Opens the archive of a journal before its first record, as [`open_archive`] does that of a disk, and
/// leaves the journal at its end, where records can be appended.
pub fn open_for_append<D: Disk, K: KeepsTexts + Drop>(
    alloc: Global,
    journal: &mut Journal<'_, D>,
) -> Result<Archive<K>, ArchiveRefusal>
    requires first { IsAtFirst (state_of journal.old) }
    requires begins { BeginsWith journal.old.header (D.state journal.old.disk.now) }

    // what stays
    ensures looks { Looks (state_of journal.old) (state_of journal.new) }
    ensures ranges { Spares (D.state journal.old.disk.now).seen
        (D.state journal.old.disk.now).ranges (D.state journal.new.disk.now).ranges }

    // by the answer, and causes
    ensures opened { IfOk result (λ archive.
        Opens (D.state journal.old.disk.now).seen (shown K.kept archive)) }
    ensures header { IfOk result (λ archive.
        (shown K.kept archive).header ≡ journal.old.header) }
    ensures last { IfOk result (λ archive.
        HasLastGate (D.state journal.old.disk.now).seen (shown K.kept archive)) }
    ensures entries { IfOk result (λ archive.
        (shown K.kept archive).entries ≡ journal.new.count) }
    ensures at_end { OnOk result (IsAtEnd (state_of journal.new)) }
    ensures damaged { (at : ℕ) → IsErrOf result (ArchiveRefusal.Damaged at)
        → RefusedAt at (D.state journal.old.disk.now).seen }
    ensures counts { CountsOf ArchiveRefusal.DiskFault
        (D.state journal.old.disk.now).faults (D.state journal.new.disk.now).faults result }
{
    let header = *journal.header();
    let mut opening = Opening {
        grown: Grown {
            names: K::begin(alloc, &header),
            files: Vec::new(alloc),
        },
        segments: Vec::new(alloc),
    };
    keep_all(alloc, journal, &mut opening)?;
    sort(&mut opening.segments);
    Ok(Archive {
        header,
        names: opening.grown.names,
        files: FileList::new(opening.grown.files),
        segments: SegmentList::new(opening.segments),
        entries: journal.count(),
        end: journal.end(),
    })
}

/// Opens the archive of a disk. Where its bytes stand for an archive, what is found is that
/// archive's; where they stand for none, the answer may be `Damaged`, with a gate that is not before
/// the first damage. Damage in the columns of segments is not noticed, since none of their bytes is
/// read.
///
/// The texts are kept as `K` keeps them: [`Books`](archive_core::Books) name further ones, and
/// [`PlainBooks`](crate::PlainBooks) serve reading.
///
/// # Errors
///
/// `DiskFault`, where the disk's count of faults rose, `Damaged`, or `OutOfMemory`.
pub fn open_archive<D: Disk, K: KeepsTexts + Drop>(
    alloc: Global,
    disk: &mut D,
) -> Result<Archive<K>, ArchiveRefusal>
    // what stays
    ensures keeps { KeepsBytes (D.state disk.old) (D.state disk.new) }
    ensures ranges { Spares (D.state disk.old).seen
        (D.state disk.old).ranges (D.state disk.new).ranges }

    // by the answer, and causes
    ensures opened { IfOk result (λ archive.
        Opens (D.state disk.old).seen (shown K.kept archive)) }
    ensures last { IfOk result (λ archive.
        HasLastGate (D.state disk.old).seen (shown K.kept archive)) }
    ensures damaged { (at : ℕ) → IsErrOf result (ArchiveRefusal.Damaged at)
        → RefusedAt at (D.state disk.old).seen }
    ensures counts { CountsOf ArchiveRefusal.DiskFault
        (D.state disk.old).faults (D.state disk.new).faults result }
{
    let header = start(disk)?;
    let mut journal = Journal::begin(disk, header);
    open_for_append(alloc, &mut journal)
}
