//! What a search counts.

/// How many messages were found, and how many were expanded.
#[derive(Clone, Copy, Debug, PartialEq, Eq)]
pub struct Counts {
    /// How many messages the pattern matches, in the range.
    pub matched: u64,
    /// How many messages were expanded: those in the range that the widened pattern matches.
    pub expanded: u64,
}

/// What the search of a lane's segments counted.
#[derive(Clone, Copy)]
pub(crate) struct LaneCounts {
    pub(crate) counts: Counts,
    /// How many segments were opened.
    pub(crate) opened: u64,
}
