//! Who follows a journal beside those that append to it.
ghost use Rattle.std.specs.Prelude.{true, false};
ghost use Rattle.disk_seal.specs.Beside.{Follower, MayFollowOn, HasFollowed, IsThrough};

use crate::looks::Looks;
use log_seams::Disk;
use std::sync::Wait;
use std::sync::atomic::AtomicBool;

/// What follows the journal of a store while others append to it, by a pass of its own. It begins
/// behind some first entries of the journal and handles those behind, in their order.
pub trait Beside<D: Disk> {
    /// What of it stays the same. No value of it need be made.
    type Fixed;

    // What is known of it.
    ghost known: { Self → Follower Self.Fixed };

    /// Follows while others append. May return at any time; once `stop` is set nothing more is
    /// appended.
    fn follow<P: Looks<D>, R: Wait>(&mut self, pass: &mut P, rt: &R, stop: &AtomicBool)
        requires may { MayFollowOn D.state (known self.old) (P.pass pass.old) }
        ensures followed { HasFollowed D.state (known self.old) (known self.new)
            (P.pass pass.old) (P.pass pass.new) };

    /// Handles what is left, once nothing more is appended.
    fn drain<P: Looks<D>, R: Wait>(&mut self, pass: &mut P, rt: &R)
        requires may { MayFollowOn D.state (known self.old) (P.pass pass.old) }
        ensures followed { HasFollowed D.state (known self.old) (known self.new)
            (P.pass pass.old) (P.pass pass.new) }
        ensures through { IsThrough (known self.new) (P.pass pass.new) };
}

/// It follows nothing.
#[derive(Drop)]
pub struct Alone {}

impl<D: Disk> Beside<D> for Alone {
    type Fixed = ();

    ghost known = { λ _. record {
      first = 0;
      handled = 0;
      refused = true;
      halted = false;
      fixed = tt;
      stands = λ _ _ _. Unit {0};
    } };

    fn follow<P: Looks<D>, R: Wait>(&mut self, _pass: &mut P, _rt: &R, _stop: &AtomicBool) {}

    fn drain<P: Looks<D>, R: Wait>(&mut self, _pass: &mut P, _rt: &R) {}
}
