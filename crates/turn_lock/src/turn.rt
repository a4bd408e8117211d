//! A turn, and its end.
use crate::board::SERVING;
use crate::grows::Grows;
use crate::pass::Pass;
use crate::plays::Serve;
use crate::steps::publish;
use std::marker::Brand;

/// The value, in the hands of the pass that has the turn. End the turn by `put`: a turn is not
/// dropped silently, and a pass whose turn is not put is ready for no other.
pub struct Turn<V> {
    pub value: V,
}

impl<V: Grows> Turn<V> {
    ghost use Rattle.std.specs.Prelude.{◌≡◌};
    ghost use Rattle.turn_lock.specs.Words.{seen, about, IsReady, HasTurn, IsStill};
    ghost use Rattle.turn_lock.specs.Words.{HasFixed, Adds, OwnsMore};

    /// Gives the value back and ends the turn of the pass that took it. The list has to begin with
    /// what it held at the take; the pass may add the rest, and owns it from then on.
    pub fn put(self, pass: &mut Pass<'_, V>)
        requires turn { HasTurn pass.old }
        requires adds { Adds V.may_add pass.old (V.entries self.value) }
        requires fixed { HasFixed V.fixed (about pass.old) self.value }
        ensures still { IsStill pass.old pass.new }
        ensures ready { IsReady pass.new }
        ensures seen { seen pass.new ≡ V.entries self.value }
        ensures own { OwnsMore pass.old pass.new (V.entries self.value) }
    {
        let Turn { value } = self;
        publish::<V, Brand>(pass.board, &mut pass.seat, &value);
        let left = pass.board.exchange(&mut pass.seat, 0, Some(value));
        let None = left else { unreachable!() };
        pass.board.fetch_add::<Serve>(&mut pass.seat, SERVING, 1);
    }
}
