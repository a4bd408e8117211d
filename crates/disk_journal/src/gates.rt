//! What stands at any gate of a journal at its end.
ghost use Rattle.std.specs.Prelude.{ℕ, IfOk, IfSome, IfNone, IsErrOf};
ghost use Rattle.log_seams.specs.Outside.{CountsOf};
ghost use Rattle.disk_journal.specs.State.{IsAtEnd};
ghost use Rattle.disk_journal.specs.Journal.{state_of};
ghost use Rattle.disk_journal.specs.Calls.{OnlyReads, StaysAt};
ghost use Rattle.disk_journal.specs.Gates.{IsGate, HasFound, IsLast, HasNoGate};

use crate::walk::look;
use crate::{FRONT_LEN, Journal, RecordPlace, WalkRefusal};
use log_seams::Disk;

impl<'d, D: Disk> Journal<'d, D> {
    /// The record behind the gate at the place `at`, of a journal at its end to which no append has
    /// failed; `None` exactly at the closed gate. Where the disk tells its bytes, `at` has to be a
    /// gate's place, and `Damaged` is not answered. The journal stays at its end. Reads no byte of
    /// a payload. Takes no memory.
    pub fn place_at(&mut self, at: u64) -> Result<Option<RecordPlace>, WalkRefusal>
        requires at_end { IsAtEnd (state_of self.old) }
        requires gate { (k : ℕ) × IsGate k at (state_of self.old) }

        // what stays
        ensures reads { OnlyReads at FRONT_LEN (state_of self.old) (state_of self.new) }
        ensures stays { StaysAt (state_of self.old) (state_of self.new) }
        ensures at_end { IsAtEnd (state_of self.new) }

        // by the answer
        ensures found { IfOk result (λ next. IfSome next (λ p.
            HasFound at p (state_of self.old))) }
        ensures last { IfOk result (λ next. IfNone next (IsLast at (state_of self.old))) }

        // causes
        ensures damaged { (place : ℕ) → IsErrOf result (WalkRefusal.Damaged place)
            → HasNoGate place at (state_of self.old) }
        ensures counts { CountsOf WalkRefusal.DiskFault
            (D.state self.old.disk.now).faults (D.state self.new.disk.now).faults result }
    {
        look(self.disk, at)
    }
}
