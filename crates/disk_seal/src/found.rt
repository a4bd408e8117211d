//! What stands behind a gate of a store's journal.
ghost use Rattle.std.specs.Prelude.{◌≡◌, ℕ, IfOk, IfSome, IfNone, OnOk, IsErrOf};
ghost use Rattle.log_seams.specs.Outside.{CountsOf};
ghost use Rattle.disk_journal.specs.Journal.{state_of};
ghost use Rattle.disk_journal.specs.State.{IsAtEnd};
ghost use Rattle.disk_journal.specs.Gates.{IsGate, IsLast, HasNoGate};
ghost use Rattle.disk_seal.specs.View.{state_by};
ghost use Rattle.disk_seal.specs.Adding.{Stays};
ghost use Rattle.disk_seal.specs.StepsFound.{Rereads, IsFoundIn};
ghost use Rattle.disk_seal.specs.Found.{IsGateOf, FindsNext, IsLastOf, IsUntold};
ghost use Rattle.disk_seal.specs.Found.{HasLooked, RunsOn, HasFailed};

use crate::store::Store;
use disk_journal::{Journal, LoadRefusal, RecordPlace, WalkRefusal};
use log_seams::Disk;
use plain_list::Text;
use std::alloc::Global;
use thiserror::Error;

/// A record of a journal: where it stands, and its payload.
#[derive(Drop)]
pub struct Found {
    /// Where it stands.
    pub place: RecordPlace,
    /// All bytes of its payload.
    pub payload: Text,
}

/// Why no record was found.
#[derive(Clone, Copy, Debug, PartialEq, Eq, Error)]
pub enum FoundRefusal {
    /// A call of the disk failed, now or earlier, and the store is stopped. `opened` is the disk's
    /// count of faults when the store was opened, and `now` that at the fault: above `opened`, or
    /// the last value of a u64.
    #[error("the disk failed, {opened} faults at the opening and {now} now")]
    DiskFault { opened: u64, now: u64 },
    /// No gate with a whole record was read at the place `at`.
    #[error("damaged at {at}")]
    Damaged { at: u64 },
    /// There was no memory for the payload.
    #[error("out of memory")]
    OutOfMemory,
}

/// The record behind the gate at the place `at`, with its payload; `None` exactly at the closed
/// gate. `Damaged` with `at` where no whole record is read, as over no disk that tells its bytes.
/// Takes memory for the payload alone.
fn found_at<'d, D: Disk>(
    journal: &mut Journal<'d, D>,
    alloc: Global,
    at: u64,
) -> Result<Option<Found>, LoadRefusal>
    requires at_end { IsAtEnd (state_of journal.old) }
    requires gate { (k : ℕ) × IsGate k at (state_of journal.old) }

    // what stays
    ensures rereads { Rereads (state_of journal.old) (state_of journal.new) }

    // by the answer
    ensures found { IfOk result (λ next. IfSome next (λ f.
        IsFoundIn at f (state_of journal.old))) }
    ensures last { IfOk result (λ next. IfNone next (IsLast at (state_of journal.old))) }

    // causes
    ensures damaged { (place : ℕ) → IsErrOf result (LoadRefusal.Damaged place)
        → HasNoGate place at (state_of journal.old) }
    ensures counts { CountsOf LoadRefusal.DiskFault
        (D.state journal.old.disk.now).faults (D.state journal.new.disk.now).faults result }
{
    let place = match journal.place_at(at) {
        Ok(Some(place)) => place,
        Ok(None) => return Ok(None),
        Err(WalkRefusal::DiskFault) => return Err(LoadRefusal::DiskFault),
        Err(WalkRefusal::Damaged { at }) => return Err(LoadRefusal::Damaged { at }),
    };
    match journal.load(alloc, place.payload, place.length) {
        Ok(payload) => Ok(Some(Found { place, payload })),
        Err(LoadRefusal::DiskFault) => Err(LoadRefusal::DiskFault),
        Err(LoadRefusal::Damaged { .. }) => Err(LoadRefusal::Damaged { at }),
        Err(LoadRefusal::OutOfMemory) => Err(LoadRefusal::OutOfMemory),
    }
}

impl<'d, 'b, D: Disk> Store<'d, 'b, D> {
    /// How many records its journal has.
    pub fn records(&self) -> u64
        ensures { result ≡ self.now.count }
    {
        self.journal.count
    }

    /// The record behind the gate at the place `at`, with its payload; `None` exactly at the closed
    /// gate, for which no call is made. Where the disk tells its bytes, `at` has to be a gate's
    /// place. A fault stops the store as one in a commit does, and a store that is stopped answers
    /// its fault and makes no call. Takes memory for the payload alone.
    pub fn next_after(&mut self, alloc: Global, at: u64) -> Result<Option<Found>, FoundRefusal>
        requires gate { IsGateOf at (state_by D.state self.old) }

        // what stays
        ensures stays { Stays self.old self.new }
        ensures looked { HasLooked D.state self.old self.new }
        ensures runs { OnOk result (RunsOn D.state self.old self.new) }

        // by the answer
        ensures found { IfOk result (λ next. IfSome next (λ f.
            FindsNext at f (state_by D.state self.old))) }
        ensures last { IfOk result (λ next. IfNone next
            (IsLastOf at (state_by D.state self.old))) }

        // causes
        ensures fault { (opened now : ℕ) → IsErrOf result (FoundRefusal.DiskFault opened now)
            → HasFailed D.state (record { opened = opened; now = now }) self.old self.new }
        ensures damaged { (place : ℕ) → IsErrOf result (FoundRefusal.Damaged place)
            → IsUntold place at (state_by D.state self.old)
            × RunsOn D.state self.old self.new }
        ensures memory { IsErrOf result FoundRefusal.OutOfMemory
            → RunsOn D.state self.old self.new }
    {
        if let Some(now) = self.stopped {
            return Err(FoundRefusal::DiskFault {
                opened: self.faults,
                now,
            });
        }
        if at == self.journal.place {
            return Ok(None);
        }
        match found_at(&mut self.journal, alloc, at) {
            Ok(next) => Ok(next),
            Err(LoadRefusal::DiskFault) => {
                let now = self.journal.faults();
                self.stopped = Some(now);
                Err(FoundRefusal::DiskFault {
                    opened: self.faults,
                    now,
                })
            }
            Err(LoadRefusal::Damaged { at }) => Err(FoundRefusal::Damaged { at }),
            Err(LoadRefusal::OutOfMemory) => Err(FoundRefusal::OutOfMemory),
        }
    }
}
