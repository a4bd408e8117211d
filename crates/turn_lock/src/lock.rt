//! The lock, its beginning and its end.
ghost use Rattle.turn_lock.specs.Seats.{IsTable};

use crate::board::{Law, Opening, View};
use crate::grows::Grows;
use crate::maker::Maker;
use atomic_table::{Refused, Table};
use std::alloc::{AllocFailed, Global};
use std::snapshot::Snapshot;

/// A lock over a value whose entries only grow. Passes take turns with the value.
#[derive(Drop)]
pub struct TurnLock<V: Grows> {
    pub(crate) table: Table<Option<V>, View<V::Entry, V::Fixed>, Opening<V>, Law<V>, Global>,
    ghost sizes: { IsTable table.shared.table_id },
}

/// There was no memory for a lock. The value comes back.
#[derive(Drop)]
pub struct LockRefused<V> {
    pub value: V,
}

impl<V: Grows> TurnLock<V> {
    ghost use Rattle.std.specs.Prelude.{◌≡◌, ◌<◌, IfOk, IfErr};
    ghost use Rattle.turn_lock.specs.Words.{id_of, lock_by, seen_by, about_by, IsOpening};
    ghost use Rattle.turn_lock.specs.Words.{HasFixed, HasJoinedAll, IsAllOwned};

    /// A lock over the value, and the maker of its passes, which are numbered from `first` on. It
    /// is refused for want of memory alone.
    pub fn new(
        alloc: Global,
        value: V,
        first: u64,
    ) -> Result<(TurnLock<V>, Maker<V>), LockRefused<V>>
        requires { first < 4294967296 }
        ensures lock { IfOk result (λ r. lock_by r.1 ≡ id_of r.0) }
        ensures maker { IfOk result (λ r. IsOpening r.1 first (V.entries value) (V.fixed value)) }
        ensures err { IfErr result (λ r. r.value ≡ value) }
    {
        let about = Opening {
            first,
            at: Snapshot::of(&value),
        };
        let count = value.count();
        let mut slots = Vec::new(alloc);
        if let Err(failed) = slots.push(Some(value)) {
            let AllocFailed { value } = failed;
            slots.destroy_empty();
            let Some(value) = value else { unreachable!() };
            return Err(LockRefused { value });
        }
        match Table::new(alloc, &[0, 0, count, first], slots, &about) {
            Ok((table, seat)) => Ok((TurnLock { table }, Maker { seat, made: 0 })),
            Err(Refused { mut slots }) => {
                let Some(Some(value)) = slots.pop() else {
                    unreachable!()
                };
                slots.destroy_empty();
                Err(LockRefused { value })
            }
        }
    }

    /// Ends the lock, once its maker joined every pass that it made. The value has every entry, and
    /// each that a pass added is in that pass's own list, which the maker knows.
    pub fn close(self, maker: Maker<V>) -> V
        requires lock { lock_by maker ≡ id_of self }
        requires ended { HasJoinedAll maker }
        ensures entries { V.entries result ≡ seen_by maker }
        ensures fixed { HasFixed V.fixed (about_by maker) result }
        ensures owned { IsAllOwned V.may_add maker }
    {
        let TurnLock { table } = self;
        let Maker { seat, made: _ } = maker;
        let mut closed = table.close_with(seat);
        let held = closed.take(0);
        closed.free();
        let Some(value) = held else { unreachable!() };
        value
    }
}
