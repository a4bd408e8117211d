//! The entries of a journal as values.

use column_store::RowList;
use plain_list::{ListOf, TextList};

/// A part of a file: consecutive messages as rows.
#[derive(Debug, Drop)]
pub struct SegmentEntry {
    /// The number of its file.
    pub file: u32,
    /// How many messages of its file come before it.
    pub first: u64,
    /// Whether it is the last one of its file.
    pub last: bool,
    /// Whether the last line of its file had its newline. Set only where `last` is.
    pub ended: bool,
    /// The rows of its messages, in order.
    pub rows: RowList,
}

/// What a record of the journal adds to the archive.
#[derive(Debug, Drop)]
pub enum JournalEntry {
    /// Names of further files, which are numbered in order.
    Files(TextList),
    /// Texts of log types, with the numbers from `first` on.
    Types {
        /// The number of the first text.
        first: u32,
        /// The texts in the order of their numbers.
        texts: TextList,
    },
    /// Words of variables, with the numbers from `first` on.
    Words {
        /// The number of the first text.
        first: u32,
        /// The texts in the order of their numbers.
        texts: TextList,
    },
    /// A part of a file.
    Segment(SegmentEntry),
}

/// A list of entries.
pub type EntryList = ListOf<JournalEntry>;
