//! The state of an archive that workers fill.

use archive_meaning::EntryList;
use column_store::RowList;
use plain_list::{ListOf, TextList};

/// What a worker has in hand.
#[derive(Debug, Drop)]
pub struct Hand {
    /// The worker, which is the file of its number.
    pub worker: u32,
    /// The rows that are not in the journal yet.
    pub rows: RowList,
}

/// A list of hands.
pub type HandList = ListOf<Hand>;

/// The state: the texts of both dictionaries, how many of each are saved, the journal, and what workers
/// have in hand.
#[derive(Debug, Drop)]
pub struct Core {
    /// The texts of log types.
    pub types: TextList,
    /// The words of variables.
    pub words: TextList,
    /// How many log types are in the journal.
    pub saved_types: u32,
    /// How many words are in the journal.
    pub saved_words: u32,
    /// The entries that were appended.
    pub journal: EntryList,
    /// The workers that had something in hand, with what they have now.
    pub hands: HandList,
}
