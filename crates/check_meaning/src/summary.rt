//! The counts of a check.

/// What a legal archive has.
#[derive(Clone, Copy, Debug, PartialEq, Eq)]
pub struct Summary {
    /// How many records its journal has.
    pub entries: u64,
    /// How many files.
    pub files: u64,
    /// How many messages all files have.
    pub messages: u64,
}
