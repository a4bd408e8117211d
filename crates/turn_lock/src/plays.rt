//! What each step on the table tells.
ghost use Rattle.std.specs.Prelude.{List, [], None};
ghost use Rattle.turn_lock.specs.StepPlays.{drew, looked, published, served, learned, numbered};
ghost use Rattle.turn_lock.specs.StepPlays.{unnumbered, fresh, joined, spent};

use crate::board::View;
use crate::grows::Grows;
use atomic_table::{Join, Play, Split};
use std::marker::{Brand, PhantomData};

/// A ticket is drawn, or the draw was lost to another seat.
pub(crate) struct Draw;

impl<V: Grows> Play<Option<V>, View<V::Entry, V::Fixed>> for Draw {
    ghost then = { drew };
}

/// A look at the ticket that is served, by a seat in line. The turn begins where it is its own.
pub(crate) struct Look<V> {
    of: PhantomData<V>,
}

impl<V: Grows> Play<Option<V>, View<V::Entry, V::Fixed>> for Look<V> {
    ghost then = { looked V.entries V.fixed V.may_add };
}

/// The entries of the value that is in the caller's hands, for the proof alone.
pub(crate) trait Tells<E> {
    ghost told: { List E };
}

impl<E> Tells<E> for Brand {
    ghost told = { [] };
}

/// The length of the history becomes that of the value's list.
pub(crate) struct Publish<V, J> {
    of: PhantomData<(V, J)>,
}

impl<V: Grows, J: Tells<V::Entry>> Play<Option<V>, View<V::Entry, V::Fixed>> for Publish<V, J> {
    ghost then = { published J.told };
}

/// The turn ends, and the next ticket is served.
pub(crate) struct Serve;

impl<V: Grows> Play<Option<V>, View<V::Entry, V::Fixed>> for Serve {
    ghost then = { served };
}

/// A look by a seat that took in another's list: which of the two begins the other.
pub(crate) struct Learn;

impl<V: Grows> Play<Option<V>, View<V::Entry, V::Fixed>> for Learn {
    ghost then = { learned };
}

/// The maker gets the number of its next pass.
pub(crate) struct Number;

impl<V: Grows> Play<Option<V>, View<V::Entry, V::Fixed>> for Number {
    ghost then = { numbered };
}

/// The maker gives its number to a new seat.
pub(crate) struct Deal;

impl<E, F> Split<View<E, F>> for Deal {
    ghost left = { unnumbered };

    ghost right = { λ v. fresh v.number v };
}

/// A new seat that only reads.
pub(crate) struct Copied;

impl<E, F> Split<View<E, F>> for Copied {
    ghost left = { λ v. v };

    ghost right = { λ v. fresh None v };
}

/// A seat takes in another, and keeps both lists until it looks.
pub(crate) struct Both;

impl<E, F> Join<View<E, F>> for Both {
    ghost both = { joined };

    ghost spent = { spent };
}
