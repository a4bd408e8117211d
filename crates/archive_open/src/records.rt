//! What is kept of the records of an archive.
ghost use Rattle.std.specs.Prelude.{ℕ, List, IfOk, IsTrue, IsFalse, IsErrOf, IsNone};
ghost use Rattle.log_seams.specs.Outside.{CountsOf};
ghost use Rattle.record_format.specs.declared.header.Header.{Header};
ghost use Rattle.disk_journal.specs.Calls.{StaysAt};
ghost use Rattle.disk_journal.specs.Journal.{state_of};
ghost use Rattle.archive_meaning.specs.declared.entry.JournalEntry.{JournalEntry};
ghost use Rattle.archive_open.specs.Shown.{Looks};
ghost use Rattle.archive_open.specs.Walk.{KeepsTold, NoneTold, ReadsOf, StandsWhole};

use crate::refusal::ArchiveRefusal;
use disk_journal::{Journal, RecordPlace};
use log_seams::Disk;
use std::alloc::Global;

/// What is kept of the records of an archive, which come one by one in their order.
pub trait KeepsRecords {
    /// It is what is kept of a journal with this header and these entries.
    ghost kept: { Self → Header → List JournalEntry → Type 0 };

    /// What holds of it besides, whatever the disk tells.
    ghost sound: { Self → Type 0 };

    /// Keeps what a record has, and tells whether it may follow.
    ///
    /// # Errors
    ///
    /// `DiskFault`, where the disk's count of faults rose; `Damaged`, where a disk that does not tell
    /// its bytes gave fewer of them; or `OutOfMemory`.
    fn keep<D: Disk>(
        &mut self,
        alloc: Global,
        journal: &mut Journal<'_, D>,
        place: RecordPlace,
    ) -> Result<bool, ArchiveRefusal>
        requires { StandsWhole place (D.state journal.old.disk.now).seen }

        // what stays
        ensures looks { Looks (state_of journal.old) (state_of journal.new) }
        ensures stays { StaysAt (state_of journal.old) (state_of journal.new) }
        ensures ranges { ReadsOf place (D.state journal.old.disk.now).seen
            (D.state journal.old.disk.now).ranges (D.state journal.new.disk.now).ranges }

        // by the answer
        ensures kept { IfOk result (λ yes. IsTrue yes → KeepsTold place
            (D.state journal.old.disk.now).seen (kept self.old) (kept self.new)) }
        ensures sound { IfOk result (λ yes. IsTrue yes → sound self.old → sound self.new) }
        ensures refused { IfOk result (λ yes. IsFalse yes
            → NoneTold place (D.state journal.old.disk.now).seen (kept self.old)) }

        // causes
        ensures damaged { (at : ℕ) → IsErrOf result (ArchiveRefusal.Damaged at)
            → IsNone (D.state journal.old.disk.now).seen }
        ensures counts { CountsOf ArchiveRefusal.DiskFault
            (D.state journal.old.disk.now).faults (D.state journal.new.disk.now).faults result };
}
