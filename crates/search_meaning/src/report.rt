//! What a search tells of its work, and what a count tells of it.

/// The counts of a search.
#[derive(Clone, Copy, Debug, PartialEq, Eq)]
pub struct Report {
    /// How many messages were found, and printed.
    pub matched: u64,
    /// How many messages were expanded: those in the range that the widened pattern matches.
    pub expanded: u64,
    /// How many segments were opened: those that are not barren.
    pub opened: u64,
    /// How many segments the archive has.
    pub segments: u64,
}

/// The counts of a count's work.
#[derive(Clone, Copy, Debug, PartialEq, Eq)]
pub struct GroupReport {
    /// How many messages were found, and counted.
    pub matched: u64,
    /// How many messages were expanded: none where the pattern is plain, and else those in the range
    /// that the widened pattern matches.
    pub expanded: u64,
    /// How many segments were opened: those that are not barren.
    pub opened: u64,
    /// How many segments the archive has.
    pub segments: u64,
}
