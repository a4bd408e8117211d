//! A message as numbers.

ghost use Rattle.std.specs.Prelude.{◌≡◌};
ghost use Rattle.column_store.specs.Row.{row_of};

use plain_list::{ListOf, WordList};

/// A message as numbers. A message without stamp has the pattern 0 and the moment 0.
#[derive(Debug, Drop)]
pub struct Row {
    /// The number of the time pattern that the stamp is printed by, from 1; 0 without stamp.
    pub pattern: u8,
    /// The moment of the stamp, in the unit of its pattern.
    pub moment: i64,
    /// The number of the log type, which tells the constant bytes and the kinds of the variables.
    pub log_type: u32,
    /// The words of the variables from left to right.
    pub words: WordList,
}

/// A row whose words are lent.
#[derive(Clone, Copy, Debug)]
pub struct RowRef<'a> {
    /// The number of the time pattern; 0 without stamp.
    pub pattern: u8,
    /// The moment of the stamp, in the unit of its pattern.
    pub moment: i64,
    /// The number of the log type.
    pub log_type: u32,
    /// The words of the variables from left to right.
    pub words: &'a [u64],
}

impl Row {
    /// The row with its words lent.
    pub fn lend(&self) -> RowRef<'_>
        ensures { row_of result ≡ self.now }
    {
        RowRef {
            pattern: self.pattern,
            moment: self.moment,
            log_type: self.log_type,
            words: self.words.as_slice(),
        }
    }
}

/// A list of rows. Contracts see a list of the rows' fields.
pub type RowList = ListOf<Row>;
