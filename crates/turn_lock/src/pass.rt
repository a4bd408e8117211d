//! A pass, which takes turns with the value of its lock.
ghost use Rattle.std.specs.Prelude.{◌≢◌, None};
ghost use Rattle.turn_lock.specs.Seats.{SitsAt, IsWorker};

use crate::board::{Board, Place};
use crate::grows::Grows;
use crate::note::Note;
use crate::plays::Copied;
use crate::steps::{draw, join, wait};
use crate::turn::Turn;
use std::sync::Wait;
use std::sync::ledger::Ledger;
use step_count::Steps;

/// It takes turns with the value of its lock, one at a time.
#[derive(Drop)]
pub struct Pass<'l, V: Grows> {
    pub(crate) board: &'l Board<V>,
    pub(crate) seat: Place<V>,
    pub(crate) number: u64,
    ghost same: { SitsAt board.now.table_id seat.table_id },
    ghost worker: { IsWorker seat.me number },
    ghost known: { seat.me.0.about ≢ None },
}

impl<'l, V: Grows> Pass<'l, V> {
    ghost use Rattle.std.specs.Prelude.{◌≡◌, ◌+◌};
    ghost use mathlib.Core.List.{IsPrefix};
    ghost use Rattle.turn_lock.specs.History.{HasLearned, IsPlacesOf};
    ghost use Rattle.turn_lock.specs.Words.{lock_of, number_of, seen, own_list, about};
    ghost use Rattle.turn_lock.specs.Words.{IsReady, HasTurn, IsStill, StaysAs, HasFixed, OthersMay};
    ghost use Rattle.turn_lock.specs.Words.{lock_noted, noted, IsNoteOf};

    /// The number that the maker gave it.
    pub fn number(&self) -> u64
        ensures { result ≡ number_of self.now }
    {
        self.number
    }

    /// A copy of what the pass has seen, and of what it knows of the lock.
    pub fn note(&mut self) -> Note<'l, V>
        ensures stays { StaysAs self.old self.new }
        ensures note { IsNoteOf self.old result }
    {
        let board = self.board;
        let seat = board.split_seat::<Copied>(&mut self.seat);
        Note { board, seat }
    }

    /// Learns a note of the same lock, between two turns. One of the two lists begins the other,
    /// and the pass has then seen the longer.
    pub fn join(&mut self, note: Note<'_, V>)
        requires lock { lock_noted note ≡ lock_of self.old }
        requires ready { IsReady self.old }
        ensures still { IsStill self.old self.new }
        ensures ready { IsReady self.new }
        ensures learned { HasLearned (seen self.old) (noted note.entry) (seen self.new) }
        ensures own { own_list self.new ≡ own_list self.old }
    {
        let Note { board: _, seat } = note;
        join(self.board, &mut self.seat, seat);
    }

    /// Waits for a turn, which it counts, and takes the value. The pass has then seen all of the
    /// value's entries, and the turn ends by `Turn::put`. No other call gives a turn. Once
    /// 2^64 - 1 tickets of the lock were drawn, it waits for good.
    pub fn take<R: Wait, L: Ledger>(&mut self, rt: &R, turns: &mut Steps<L>) -> Turn<V>
        requires ready { IsReady self.old }

        // the pass
        ensures still { IsStill self.old self.new }
        ensures turn { HasTurn self.new }
        ensures seen { IsPrefix (seen self.old) (seen self.new) }
        ensures own { own_list self.new ≡ own_list self.old }

        // the value
        ensures entries { V.entries result.value ≡ seen self.new }
        ensures fixed { HasFixed V.fixed (about self.old) result.value }
        ensures others { OthersMay V.may_add self.old (seen self.new) }

        // the count of turns
        ensures turns { turns.new ≡ turns.old + 1 }
    {
        turns.tick();
        let ticket = draw(self.board, rt, &mut self.seat);
        wait(self.board, rt, &mut self.seat, ticket);
        let held = self.board.exchange(&mut self.seat, 0, None);
        let Some(value) = held else { unreachable!() };
        Turn { value }
    }

    /// A law, as the contract of a call that does nothing: what the pass's own list has at a place
    /// is the entry that the pass has seen there.
    pub fn owns_what_it_saw(&self)
        ensures places { IsPlacesOf (own_list self.now) (seen self.now) }
    {}
}
