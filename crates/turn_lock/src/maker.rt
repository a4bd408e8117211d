//! The maker of a lock's passes.
ghost use Rattle.std.specs.Prelude.{◌≢◌, None};
ghost use Rattle.turn_lock.specs.Seats.{IsFree, IsMaker};

use crate::board::{NUMBERS, Place};
use crate::grows::Grows;
use crate::lock::TurnLock;
use crate::pass::Pass;
use crate::plays::{Deal, Number};
use crate::steps::join;

/// It makes the passes of one lock, and takes them back.
#[derive(Drop)]
pub struct Maker<V: Grows> {
    pub(crate) seat: Place<V>,
    pub(crate) made: u64,
    ghost free: { IsFree seat.me },
    ghost maker: { IsMaker seat.me made },
    ghost known: { seat.me.0.about ≢ None },
}

impl<V: Grows> Maker<V> {
    ghost use Rattle.std.specs.Prelude.{◌≡◌, ℕ, ◌+◌, ◌<◌, ◌∷◌};
    ghost use Rattle.turn_lock.specs.History.{Has, HasLearned, IsPlacesOf};
    ghost use Rattle.turn_lock.specs.Words.{lock_of, number_of, seen, own_list, IsReady, id_of};
    ghost use Rattle.turn_lock.specs.Words.{lock_by, made_by, seen_by, ended_by, own_by, about_by};
    ghost use Rattle.turn_lock.specs.Words.{IsStillBy, IsFreshOf, HasOneOwnerEach};

    /// How many passes it made.
    pub fn made(&self) -> u64
        ensures { result ≡ made_by self.now }
    {
        self.made
    }

    /// A pass of the lock that the maker came with. Passes are numbered from the lock's first
    /// number on, up to 2^32 of them.
    pub fn pass<'l>(&mut self, lock: &'l TurnLock<V>) -> Pass<'l, V>
        requires lock { lock_by self.old ≡ id_of lock.now }
        requires room { made_by self.old < 4294967296 }
        ensures still { IsStillBy self.old self.new }
        ensures made { made_by self.new ≡ made_by self.old + 1 }
        ensures pass { IsFreshOf self.old result }
    {
        let board = &lock.table.shared;
        let number = board.fetch_add::<Number>(&mut self.seat, NUMBERS, 1);
        let seat = board.split_seat::<Deal>(&mut self.seat);
        self.made += 1;
        Pass {
            board,
            seat,
            number,
        }
    }

    /// Ends a pass of the same lock, between two turns. The maker keeps its number and what it
    /// added.
    pub fn join(&mut self, pass: Pass<'_, V>)
        requires lock { lock_of pass ≡ lock_by self.old }
        requires ready { IsReady pass }

        // what stays
        ensures lock { lock_by self.new ≡ lock_by self.old }
        ensures about { about_by self.new ≡ about_by self.old }
        ensures made { made_by self.new ≡ made_by self.old }
        ensures own { (n : ℕ) → Has (ended_by self.old) n → own_by self.new n ≡ own_by self.old n }

        // what the maker has of the pass
        ensures ended { ended_by self.new ≡ number_of pass.entry ∷ ended_by self.old }
        ensures learned { HasLearned (seen_by self.old) (seen pass.entry) (seen_by self.new) }
        ensures taken { own_by self.new (number_of pass.entry) ≡ own_list pass.entry }
    {
        let Pass {
            board,
            seat,
            number: _,
        } = pass;
        join(board, &mut self.seat, seat);
    }

    /// A law, as the contract of a call that does nothing. Each place has one owner: two numbers
    /// whose own lists have the same place are one number. What an own list has at a place is the
    /// entry that the maker has seen there.
    pub fn one_owner(&self)
        ensures owner { HasOneOwnerEach self.now }
        ensures places { (n : ℕ) → IsPlacesOf (own_by self.now n) (seen_by self.now) }
    {}
}
