//! What of a store stays the same under its lock. No value of it is made.

use record_format::Header;
use std::collections::LinkedList;
use std::marker::Model;

/// A lock, as contracts tell it from others.
pub struct LockId {
    words: u64,
    slots: u64,
    views_name: u64,
    atom: u64,
    block: u64,
    offset: u64,
    slot_names: LinkedList<u64>,
}

impl Model for LockId {
    ghost use Rattle.atomic_table.specs.Seated.{TableId, table_id_coded};

    ghost Value = { TableId };

    ghost coded = { table_id_coded };

    ghost view = { λ l. record {
      words = l.words;
      slots = l.slots;
      views_name = l.views_name;
      atom = l.atom;
      block = l.block;
      offset = l.offset;
      slot_names = l.slot_names;
    } };
}

/// What of a store stays the same: the borrow of its disk, that disk as it was at the opening, the
/// header, the count of records at the opening, and the locks that its two passes are of.
pub struct StoreFixed<D> {
    /// The name of the borrow.
    pub name: u64,
    /// The disk as it was at the opening.
    pub opened: D,
    /// The header of the archive.
    pub header: Header,
    /// How many records the journal had at the opening.
    pub first: u64,
    /// The lock of the log types.
    pub types: LockId,
    /// The lock of the words.
    pub words: LockId,
}
