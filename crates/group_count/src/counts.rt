//! What was counted so far.

/// What was counted so far.
#[derive(Drop)]
pub(crate) struct Counts<T> {
    /// The rows of the messages that were found.
    pub(crate) table: T,
    /// How many messages were found.
    pub(crate) matched: u64,
    /// How many messages were expanded.
    pub(crate) expanded: u64,
}

/// What a lane has counted.
#[derive(Drop)]
pub(crate) struct Told<T> {
    pub(crate) counts: Counts<T>,
    /// How many segments were opened.
    pub(crate) opened: u64,
}

/// What is ticked for all lanes, behind the last of them.
#[derive(Clone, Copy)]
pub(crate) struct LaneSums {
    /// How many segments were opened.
    pub(crate) opened: u64,
    /// How many messages were expanded.
    pub(crate) expanded: u64,
}
