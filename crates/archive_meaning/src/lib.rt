//! What the records of an archive mean: the entries of its journal as values, when a list of them is
//! legal, what it holds, and which bytes stand for it.
//!
//! The definitions stand in `specs/`, and the laws on them are contracts of functions that do nothing.
#![tactic(auto)]

mod entry;
pub mod laws;
mod sums;

pub use entry::{EntryList, JournalEntry, SegmentEntry};
pub use sums::FileSum;

/// How many names one record of files may have.
pub const MAX_NAMES: usize = 512;

/// How many bytes the name of a file may have.
pub const MAX_NAME_LEN: usize = 4096;

/// How many files an archive may have.
pub const MAX_FILES: usize = 1_048_576;

/// How many rows a segment may have.
pub const MAX_ROWS: usize = 65_536;

/// How many messages a file may have.
pub const MAX_MESSAGES: u64 = 4_294_967_294;
