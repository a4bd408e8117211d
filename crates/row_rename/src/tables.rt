//! What is known of the dictionaries of two archives.
ghost use Rattle.std.specs.Prelude.{ℕ, List};
ghost use Rattle.row_rename.specs.Tables.{AreTables};

use crate::log_types::LogTypes;
use crate::table::Table;
use std::alloc::Global;

/// From the numbers of one archive to those of another: log types and words. They are filled as
/// numbers are met, so each text is named once, and what no row names is never named.
#[derive(Debug, Drop)]
pub struct Tables {
    // Takes what the log types need.
    pub(crate) alloc: Global,
    pub(crate) log_types: LogTypes,
    pub(crate) words: Table,
}

impl Tables {
    /// Tables without numbers, which hold of any two archives. Takes no memory.
    pub fn new(alloc: Global) -> Tables
        ensures { (types words new_types new_words : List (List ℕ))
            → AreTables types words new_types new_words result }
    {
        Tables {
            alloc,
            log_types: LogTypes::new(alloc),
            words: Table::new(alloc),
        }
    }
}
