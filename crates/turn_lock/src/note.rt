//! What a pass hands to another.
ghost use Rattle.std.specs.Prelude.{◌≢◌, None};
ghost use Rattle.turn_lock.specs.Seats.{SitsAt, IsFree, IsReader};

use crate::board::{Board, Place};
use crate::grows::Grows;

/// What a pass had seen, for another pass to learn. It knows of the lock what its pass knows.
#[derive(Drop)]
pub struct Note<'l, V: Grows> {
    pub(crate) board: &'l Board<V>,
    pub(crate) seat: Place<V>,
    ghost same: { SitsAt board.now.table_id seat.table_id },
    ghost reader: { IsReader seat.me },
    ghost free: { IsFree seat.me },
    ghost known: { seat.me.0.about ≢ None },
}
