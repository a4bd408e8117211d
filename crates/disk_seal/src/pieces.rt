//! Several records, one behind the other, and a turn that ends with them.
ghost use Rattle.std.specs.Prelude.{◌≡◌, ◌≢◌, ◌+◌, None, IfOk, IfErr, OnOk, OnErr};
ghost use Rattle.log_seams.specs.Outside.{Counts};
ghost use Rattle.disk_seal.specs.View.{state_by};
ghost use Rattle.disk_seal.specs.Adding.{front_of, Stays, LeavesFirst};
ghost use Rattle.disk_seal.specs.Pieces.{CanFollow, added_by, size_of, AddsAll, AddsSome};
ghost use Rattle.disk_seal.specs.Prepare.{IsFaultOf};
ghost use Rattle.disk_seal.specs.Sealing.{told_as, IsHalted, HasFault, HasGrown, HasGrownSome};
ghost use Rattle.disk_seal.specs.Sealing.{MayPut, HasPutBack, IsDurable, IsFaultIn};

use crate::faults::DiskFault;
use crate::store::Store;
use log_seams::{Disk, Failed};
use plain_list::Text;
use turn_lock::{Pass, Turn};

/// A record to be appended: its framed bytes, and how many texts of each book it saves.
#[derive(Drop)]
pub(crate) struct Piece {
    pub text: Text,
    pub types: u32,
    pub words: u32,
}

impl<'d, 'b, D: Disk> Store<'d, 'b, D> {
    /// Appends records, each of which may follow those before it. After a fault the store is stopped, and
    /// has those that were acknowledged. Takes no memory.
    pub(crate) fn add_each(&mut self, pieces: &[Piece]) -> Result<(), Failed>
        requires runs { self.old.stopped ≡ None }
        requires can { CanFollow pieces.now (front_of (state_by D.state self.old)) }

        // what stays
        ensures stays { Stays self.old self.new }
        ensures moments { LeavesFirst (added_by pieces.now)
            (state_by D.state self.old) (state_by D.state self.new) }

        // by the answer
        ensures added { OnOk result (AddsAll (size_of pieces.now) (added_by pieces.now)
            (state_by D.state self.old) (state_by D.state self.new)) }
        ensures stopped { OnErr result (AddsSome (added_by pieces.now)
            (state_by D.state self.old) (state_by D.state self.new)) }

        // causes
        ensures counts { Counts
            (D.state self.old.disk).faults (D.state self.new.disk).faults result }
    {
        self.facts();
        let Some((first, rest)) = pieces.split_first() else {
            return Ok(());
        };
        self.add(&first.text, first.types, first.words)?;
        self.add_each(rest)
    }

    /// Appends records, and answers the journal's end behind them. A store that was stopped answers its
    /// fault and calls nothing. Takes no memory.
    pub(crate) fn append_pieces(&mut self, pieces: &[Piece]) -> Result<u64, DiskFault>
        requires { self.old.stopped ≡ None
            → CanFollow pieces.now (front_of (state_by D.state self.old)) }

        // what stays
        ensures stays { Stays self.old self.new }
        ensures moments { self.old.stopped ≡ None → LeavesFirst (added_by pieces.now)
            (state_by D.state self.old) (state_by D.state self.new) }
        ensures rests { self.old.stopped ≢ None → self.new ≡ self.old }

        // by the answer
        ensures added { OnOk result (AddsAll (size_of pieces.now) (added_by pieces.now)
            (state_by D.state self.old) (state_by D.state self.new)) }
        ensures end { IfOk result (λ end. end ≡ self.new.place + 1) }
        ensures runs { OnOk result (self.old.stopped ≡ None) }
        ensures halted { OnErr result (IsHalted (added_by pieces.now)
            (state_by D.state self.old) (state_by D.state self.new)) }
        ensures fault { IfErr result (λ f. HasFault f (state_by D.state self.new)) }
    {
        if let Some(now) = self.stopped {
            return Err(DiskFault {
                opened: self.faults,
                now,
            });
        }
        if self.add_each(pieces).is_err() {
            return Err(DiskFault {
                opened: self.faults,
                now: self.journal.faults(),
            });
        }
        Ok(self.journal.end())
    }
}

/// Appends records in a turn, which it ends whatever the answer.
pub(crate) fn put_pieces<'d, 'b, D: Disk>(
    turn: Turn<Store<'d, 'b, D>>,
    pass: &mut Pass<'_, Store<'d, 'b, D>>,
    pieces: &[Piece],
) -> Result<u64, DiskFault>
    requires { MayPut D.state turn.value pieces.now pass.old }

    // by the answer
    ensures added { OnOk result (HasGrown
        (told_as (state_by D.state turn.entry.value) (added_by pieces.now)) pass.old pass.new) }
    ensures end { IfOk result (λ end. end ≡ turn.entry.value.place + size_of pieces.now + 1) }
    ensures runs { OnOk result (turn.entry.value.stopped ≡ None) }
    ensures halted { IfErr result (λ f. HasGrownSome f.now (added_by pieces.now)
        (state_by D.state turn.entry.value) pass.old pass.new) }
    ensures fault { IfErr result (λ f. IsFaultOf D.state f pass.old) }

    // the store that was put back
    ensures moments { HasPutBack D.state turn.entry.value (added_by pieces.now) pass.new }
    ensures durable { OnOk result
        (IsDurable D.state turn.entry.value (added_by pieces.now) pass.new) }
    ensures counted { IfErr result (λ f. IsFaultIn D.state f pass.new) }
{
    let mut turn = turn;
    turn.value.facts();
    let answer = turn.value.append_pieces(pieces);
    turn.value.facts();
    turn.put(pass);
    answer
}
