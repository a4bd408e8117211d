//! Counters of turns, one for each lock.
use std::sync::ledger::Ledger;
use step_count::Steps;

/// How many turns were taken: with the book of log types, with that of words, and with the store.
#[derive(Drop)]
pub struct Turns<A: Ledger, B: Ledger, C: Ledger> {
    /// The turns with the log types.
    pub types: Steps<A>,
    /// The turns with the words.
    pub words: Steps<B>,
    /// The turns with the store.
    pub store: Steps<C>,
}
