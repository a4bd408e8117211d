//! A look at a gate of the journal, in a turn of a pass.
ghost use Rattle.std.specs.Prelude.{◌≡◌, ℕ, length, IfOk, IfSome, IfNone, IsErrOf};
ghost use Rattle.step_count.specs.Opens.{OpensFor};
ghost use Rattle.turn_lock.specs.Words.{seen, IsReady};
ghost use Rattle.disk_seal.specs.Fixed.{KeeperPass};
ghost use Rattle.disk_seal.specs.Prepare.{HasSeenOpening};
ghost use Rattle.disk_seal.specs.Looked.{journal_length, WhereTold, MayLook, HasTurned};
ghost use Rattle.disk_seal.specs.Looked.{HasNext, HasNone, HasHalted, TellsNothing};

use crate::found::{Found, FoundRefusal};
use crate::store::Store;
use log_seams::Disk;
use std::alloc::Global;
use std::marker::Brand;
use std::sync::Wait;
use std::sync::ledger::{Blank, Ledger};
use step_count::Steps;
use turn_lock::Pass;

/// What one look tells.
#[derive(Drop)]
pub struct Look {
    /// How many records the journal has.
    pub records: u64,
    /// The record behind the gate; `None` at the closed gate.
    pub next: Option<Found>,
}

/// What looks at the gates of a journal that others append to: a pass over its store. Its type names
/// lifetimes, which a method of a trait cannot take as an argument; so who follows the journal is
/// generic in this.
pub trait Looks<D: Disk> {
    // The pass.
    ghost pass: { Self → KeeperPass D };

    /// Takes a turn, looks at the gate at the place `at`, as
    /// [`next_after`](crate::Store::next_after) does, and ends the turn, whatever the answer. Where
    /// the disk tells its bytes, `at` has to be the place of a gate behind entries that the pass has
    /// seen.
    fn look<R: Wait>(&mut self, rt: &R, alloc: Global, at: u64) -> Result<Look, FoundRefusal>
        requires ready { IsReady (pass self.old) }
        requires opening { HasSeenOpening (pass self.old) }
        requires gate { MayLook D.state at (pass self.old) }
        ensures turned { HasTurned (pass self.old) (pass self.new) }

        // by the answer
        ensures records { IfOk result (λ l.
            l.records ≡ journal_length (seen (pass self.new))) }
        ensures counted { IfOk result (λ l.
            WhereTold D.state (pass self.new) (λ _ es. l.records ≡ length es)) }
        ensures next { IfOk result (λ l. IfSome l.next (λ f.
            HasNext D.state at f (pass self.new))) }
        ensures none { IfOk result (λ l. IfNone l.next
            (HasNone D.state at (pass self.new))) }

        // causes
        ensures fault { (opened now : ℕ) → IsErrOf result (FoundRefusal.DiskFault opened now)
            → HasHalted D.state (record { opened = opened; now = now }) (pass self.new) }
        ensures damaged { (place : ℕ) → IsErrOf result (FoundRefusal.Damaged place)
            → TellsNothing D.state place at (pass self.new) };
}

/// Looks for the record at a place by a pass, with a counter of its turns that nobody reads.
fn look_with<'d, 'b, D: Disk, R: Wait, L: Ledger>(
    pass: &mut Pass<'_, Store<'d, 'b, D>>,
    rt: &R,
    alloc: Global,
    at: u64,
    blank: Blank,
) -> Result<Look, FoundRefusal>
    requires ready { IsReady pass.old }
    requires opening { HasSeenOpening pass.old }
    requires gate { MayLook D.state at pass.old }
    requires blank { OpensFor blank L.name L.parts }
    ensures turned { HasTurned pass.old pass.new }

    // by the answer
    ensures records { IfOk result (λ l. l.records ≡ journal_length (seen pass.new)) }
    ensures counted { IfOk result (λ l.
        WhereTold D.state pass.new (λ _ es. l.records ≡ length es)) }
    ensures next { IfOk result (λ l. IfSome l.next (λ f. HasNext D.state at f pass.new)) }
    ensures none { IfOk result (λ l. IfNone l.next (HasNone D.state at pass.new)) }

    // causes
    ensures fault { (opened now : ℕ) → IsErrOf result (FoundRefusal.DiskFault opened now)
        → HasHalted D.state (record { opened = opened; now = now }) pass.new }
    ensures damaged { (place : ℕ) → IsErrOf result (FoundRefusal.Damaged place)
        → TellsNothing D.state place at pass.new }
{
    let mut turns: Steps<L> = Steps::new(blank);
    let mut turn = pass.take(rt, &mut turns);
    turn.value.facts();
    let records = turn.value.records();
    let answer = turn.value.next_after(alloc, at);
    turn.put(pass);
    match answer {
        Ok(next) => Ok(Look { records, next }),
        Err(refusal) => Err(refusal),
    }
}

impl<'l, 'd, 'b, D: Disk> Looks<D> for Pass<'l, Store<'d, 'b, D>> {
    ghost pass = { λ p. p };

    fn look<R: Wait>(&mut self, rt: &R, alloc: Global, at: u64) -> Result<Look, FoundRefusal> {
        look_with::<D, R, Brand>(self, rt, alloc, at, Blank::new(1))
    }
}
