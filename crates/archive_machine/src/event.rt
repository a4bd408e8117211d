//! What workers do to an archive.

use plain_list::{ListOf, Text};
use row_codec::Which;

/// One step of a worker, or of the archive itself. A worker is the file of its number.
#[derive(Debug, Drop)]
pub enum Event {
    /// A worker names a text of a dictionary.
    Name {
        /// The worker.
        worker: u32,
        /// The dictionary.
        book: Which,
        /// The text.
        text: Text,
    },
    /// A worker adds a message behind those that it has in hand.
    Add {
        /// The worker.
        worker: u32,
        /// The message.
        message: Text,
    },
    /// The texts of a dictionary that are not saved yet go to the journal.
    Save {
        /// The dictionary.
        book: Which,
    },
    /// What a worker has in hand goes to the journal as a segment; with nothing in hand its file ends.
    Seal {
        /// The worker.
        worker: u32,
    },
}

/// A list of events.
pub type EventList = ListOf<Event>;
