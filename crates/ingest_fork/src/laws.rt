//! Laws of the passes of a lock, as the contracts of calls that do nothing.
ghost use Rattle.ingest_fork.specs.Passes.{AllAreJoined};
ghost use Rattle.ingest_fork.specs.Picked.{EachWasAdded, PickedAreOwn};

use turn_lock::{Grows, Maker};

/// A maker that joined the passes of [`fill`](crate::fill) by [`join_all`](crate::join_all), and
/// before them those that it had made before, joined every pass that it made.
pub fn all_are_joined<V: Grows>(maker: &Maker<V>)
    ensures { AllAreJoined maker.now }
{}

/// Once the lock is closed: each entry past the opening was added by one of the passes that were
/// joined last, where those joined before added nothing.
pub fn each_was_added<V: Grows>(maker: &Maker<V>)
    ensures { EachWasAdded V.may_add maker.now }
{}

/// Once the lock is closed: what is picked of the entries past the opening, where one number alone
/// may add it, is what is picked of that number's own list, in the same order.
pub fn picked_are_own<V: Grows, B>(maker: &Maker<V>)
    ensures { PickedAreOwn B V.may_add maker.now }
{}
