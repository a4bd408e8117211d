//! Naming files.
ghost use Rattle.std.specs.Prelude.{◌≡◌, ◌⊎◌, ℕ, IfOk, OnOk, OnErr, IsErrOf};
ghost use Rattle.log_seams.specs.Outside.{CountsOf};
ghost use Rattle.disk_journal.specs.State.{IsAtEnd};
ghost use Rattle.disk_journal.specs.Journal.{state_of};
ghost use Rattle.disk_journal.specs.Calls.{GoesOn, IsPast, LeavesBeforeOrAfter, StaysAt};
ghost use Rattle.archive_meaning.specs.Sums.{AddsNames};
ghost use Rattle.ingest_meaning.specs.Room.{files_record, files_size};
ghost use Rattle.disk_seal.specs.Registered.{HasRegistered, IsFullFor};

use disk_journal::{AppendRefusal, Journal, frame};
use ingest_meaning::RegisterRefusal;
use log_seams::Disk;
use plain_list::TextList;
use record_format::{FILES_KIND, write_files};
use std::alloc::Global;

/// Appends the names of further files to a journal at its end, and answers the number of the first of them,
/// which is how many names the archive `held`. `ArchiveFull` exactly where the record goes past the limit
/// of length; the disk is left alone then.
pub fn register<D: Disk>(
    alloc: Global,
    journal: &mut Journal<'_, D>,
    held: u32,
    names: &TextList,
) -> Result<u32, RegisterRefusal>
    requires at_end { IsAtEnd (state_of journal.old) }
    requires names { AddsNames held names.now }

    // what stays
    ensures goes_on { GoesOn (state_of journal.old) (state_of journal.new) }
    ensures moments { LeavesBeforeOrAfter (files_record names.now)
        (state_of journal.old) (state_of journal.new) }

    // by the answer
    ensures number { IfOk result (λ first. first ≡ held) }
    ensures registered { OnOk result (HasRegistered held names.now
        (state_of journal.old) (state_of journal.new)) }
    ensures stays { OnErr result (StaysAt (state_of journal.old) (state_of journal.new)) }

    // causes
    ensures full { (end need : ℕ) → IsErrOf result (RegisterRefusal.ArchiveFull end need)
        → IsFullFor names.now end need (state_of journal.old)
        × (journal.new.disk ≡ journal.old.disk) }
    ensures alone { IsPast (files_size names.now) (state_of journal.old)
        ⊎ IsErrOf result RegisterRefusal.OutOfMemory
        → journal.new.disk ≡ journal.old.disk }
    ensures counts { CountsOf RegisterRefusal.DiskFault
        (D.state journal.old.disk.now).faults (D.state journal.new.disk.now).faults result }
{
    let payload = write_files(alloc, names)?;
    let text = frame(alloc, FILES_KIND, payload.as_slice())?;
    match journal.append(text.as_slice()) {
        Ok(()) => Ok(held),
        Err(AppendRefusal::ArchiveFull { end, need }) => {
            Err(RegisterRefusal::ArchiveFull { end, need })
        }
        Err(AppendRefusal::DiskFault) => Err(RegisterRefusal::DiskFault),
    }
}
