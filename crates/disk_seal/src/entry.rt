//! The entries of a store.

use archive_meaning::JournalEntry;

/// An entry of a store's list.
#[derive(Debug, Drop)]
pub enum StoreEntry {
    /// An entry of its journal.
    Entry(JournalEntry),
    /// An entry of a journal whose disk does not tell its bytes.
    Blank,
    /// The mark of a store that a fault of its disk has stopped, with the disk's count of faults then.
    /// Nothing follows it.
    Stopped(u64),
}
