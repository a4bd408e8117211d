//! A segment on its way.

use column_store::Columns;
use plain_list::NumberList;

/// The next part of a file: rows, which go behind the messages that the file has.
#[derive(Drop)]
pub struct Draft {
    /// The number of the file.
    pub file: u32,
    /// How many messages the file has before these.
    pub first: u64,
    /// Whether these are its last.
    pub last: bool,
    /// Whether the last line of the file had its newline. Set only where `last` is.
    pub ended: bool,
    /// The rows.
    pub columns: Columns,
    /// The numbers of the words that the rows name, sorted, each once.
    pub words: NumberList,
}
