//! The walk along the records of a journal.
ghost use Rattle.std.specs.Prelude.{◌≡◌, ℕ, [], IfOk, OnOk, IsTrue, IsFalse, IsErrOf};
ghost use Rattle.log_seams.specs.Outside.{CountsOf};
ghost use Rattle.disk_journal.specs.Journal.{state_of};
ghost use Rattle.disk_journal.specs.State.{BeginsWith, IsAtFirst};
ghost use Rattle.archive_open.specs.Shown.{Looks, RefusedAt, Spares};
ghost use Rattle.archive_open.specs.StepsNext.{GoesOnTo, GoesWith};
ghost use Rattle.archive_open.specs.Walk.{EndsWith};

use crate::records::KeepsRecords;
use crate::refusal::ArchiveRefusal;
use disk_journal::Journal;
use log_seams::Disk;
use std::alloc::Global;

// Keeps what the next record has; false at the closed gate.
fn keep_next<D: Disk, K: KeepsRecords>(
    alloc: Global,
    journal: &mut Journal<'_, D>,
    keeping: &mut K,
) -> Result<bool, ArchiveRefusal>
    requires { GoesWith (K.kept keeping.old) (state_of journal.old) }

    // what stays
    ensures looks { Looks (state_of journal.old) (state_of journal.new) }
    ensures ranges { Spares (D.state journal.old.disk.now).seen
        (D.state journal.old.disk.now).ranges (D.state journal.new.disk.now).ranges }
    ensures sound { OnOk result (K.sound keeping.old → K.sound keeping.new) }

    // by the answer, and causes
    ensures on { IfOk result (λ yes. IsTrue yes
        → GoesOnTo (state_of journal.old) (K.kept keeping.new) (state_of journal.new)) }
    ensures ended { IfOk result (λ yes. IsFalse yes
        → EndsWith (K.kept keeping.new) (state_of journal.new)) }
    ensures damaged { (at : ℕ) → IsErrOf result (ArchiveRefusal.Damaged at)
        → RefusedAt at (D.state journal.old.disk.now).seen }
    ensures counts { CountsOf ArchiveRefusal.DiskFault
        (D.state journal.old.disk.now).faults (D.state journal.new.disk.now).faults result }
{
    let Some(place) = journal.next_place()? else {
        return Ok(false);
    };
    if !keeping.keep(alloc, journal, place)? {
        return Err(ArchiveRefusal::Damaged { at: place.at });
    }
    Ok(true)
}

// The place of the gate that the walk has come to.
fn gate_of<D: Disk>(journal: &Journal<'_, D>) -> u64
    ensures { result ≡ journal.now.place }
{
    journal.place
}

/// Keeps what all records of a journal have, from the first on, and leaves the journal at its closed
/// gate.
///
/// # Errors
///
/// `DiskFault`, where the disk's count of faults rose; `Damaged`, where a gate is missing, a record is
/// not whole, or one may not follow; or `OutOfMemory`.
pub fn keep_all<D: Disk, K: KeepsRecords>(
    alloc: Global,
    journal: &mut Journal<'_, D>,
    keeping: &mut K,
) -> Result<(), ArchiveRefusal>
    requires first { IsAtFirst (state_of journal.old) }
    requires begins { BeginsWith journal.old.header (D.state journal.old.disk.now) }
    requires none { K.kept keeping.old journal.old.header [] }
    requires sound { K.sound keeping.old }

    // what stays
    ensures looks { Looks (state_of journal.old) (state_of journal.new) }
    ensures ranges { Spares (D.state journal.old.disk.now).seen
        (D.state journal.old.disk.now).ranges (D.state journal.new.disk.now).ranges }

    // by the answer, and causes
    ensures ended { OnOk result (EndsWith (K.kept keeping.new) (state_of journal.new)) }
    ensures sound { OnOk result (K.sound keeping.new) }
    ensures damaged { (at : ℕ) → IsErrOf result (ArchiveRefusal.Damaged at)
        → RefusedAt at (D.state journal.old.disk.now).seen }
    ensures counts { CountsOf ArchiveRefusal.DiskFault
        (D.state journal.old.disk.now).faults (D.state journal.new.disk.now).faults result }
{
    for _ in 0..u64::MAX {
        if !keep_next(alloc, journal, keeping)? {
            return Ok(());
        }
    }
    let _above_the_count = gate_of(journal);
    unreachable!()
}
