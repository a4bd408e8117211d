//! The table under the lock: its words, its one slot, and what each seat at it knows. Word 0 is the
//! ticket that is drawn next, word 1 the ticket that is served, word 2 the count of entries, word 3
//! the number that the next pass gets.
use crate::grows::Grows;
use atomic_table::{Seat, Shared, TableRule};
use std::collections::LinkedList;
use std::marker::PhantomData;
use std::snapshot::Snapshot;

pub(crate) const TICKET: usize = 0;

pub(crate) const SERVING: usize = 1;

pub(crate) const LENGTH: usize = 2;

pub(crate) const NUMBERS: usize = 3;

/// What every pass and note knows of its lock: the number of the first pass, the count of entries
/// at the opening, and the fixed part. No value of it is made.
pub(crate) struct About<F> {
    pub first: u64,
    pub start: u64,
    pub fixed: F,
}

/// What a seat at the table knows. Each entry stands with the number of the pass that added it. No
/// value of it is made.
pub(crate) struct View<E, F> {
    pub ticket: Option<u64>,
    /// The seat has the turn.
    pub inside: bool,
    pub seen: LinkedList<(E, Option<u64>)>,
    /// What a seat that was joined had seen, until the next look.
    pub also: LinkedList<(E, Option<u64>)>,
    /// The number of a pass, or of the pass that the maker is about to make.
    pub number: Option<u64>,
    /// The number of a pass that was joined, until the next look.
    pub gone: Option<u64>,
    /// The numbers of the passes that the maker joined.
    pub ended: LinkedList<u64>,
    /// How many passes the maker made.
    pub made: Option<u64>,
    pub about: Option<About<F>>,
}

/// What the table is told when it is made: the first number, and the value.
#[derive(Drop)]
pub(crate) struct Opening<V> {
    pub first: u64,
    pub at: Snapshot<V>,
}

/// The rule of the table.
pub(crate) struct Law<V> {
    of: PhantomData<V>,
}

impl<V: Grows> TableRule<Option<V>, View<V::Entry, V::Fixed>, Opening<V>> for Law<V> {
    ghost use Rattle.turn_lock.specs.Grown.{KeepsRule, base_of, starting};

    ghost holds = { λ key s. KeepsRule V.entries V.fixed V.may_add key s };

    ghost first = { λ key. starting V.entries (base_of V.entries V.fixed key) key.at.value };
}

pub(crate) type Board<V> = Shared<
    Option<V>,
    View<<V as Grows>::Entry, <V as Grows>::Fixed>,
    Opening<V>,
    Law<V>,
>;

pub(crate) type Place<V> = Seat<Option<V>, View<<V as Grows>::Entry, <V as Grows>::Fixed>>;
