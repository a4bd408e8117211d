//! A row with the numbers of another archive.
ghost use Rattle.std.specs.Prelude.{◌≡◌, []};
ghost use Rattle.column_store.specs.Row.{row_of};
ghost use Rattle.row_rename.specs.Renamed.{row_in, used_in};

use column_store::RowRef;
use std::alloc::Global;

/// A row with the numbers of another archive, and the dictionary numbers of all such rows. It is filled
/// again for each row, so that one costs no allocation once the buffers have grown.
#[derive(Debug, Drop)]
pub struct RenamedRow {
    pub(crate) pattern: u8,
    pub(crate) moment: i64,
    pub(crate) log_type: u32,
    pub(crate) words: Vec<u64>,
    // The dictionary numbers of the rows so far, from left to right.
    pub(crate) used: Vec<u32>,
    // The numbers that were found last.
    pub(crate) found: Vec<u32>,
}

impl RenamedRow {
    /// A row without words, and no numbers. Takes no memory.
    pub fn new(alloc: Global) -> RenamedRow
        ensures { used_in result ≡ [] }
    {
        RenamedRow {
            pattern: 0,
            moment: 0,
            log_type: 0,
            words: Vec::new(alloc),
            used: Vec::new(alloc),
            found: Vec::new(alloc),
        }
    }

    /// The row that was renamed last.
    pub fn row(&self) -> RowRef<'_>
        ensures { row_of result ≡ row_in self.now }
    {
        RowRef {
            pattern: self.pattern,
            moment: self.moment,
            log_type: self.log_type,
            words: self.words.as_slice(),
        }
    }

    /// The dictionary numbers of the rows that were renamed since these were last forgotten, row by
    /// row, each row's from left to right.
    pub fn used(&self) -> &[u32]
        ensures { result.now ≡ used_in self.now }
    {
        self.used.as_slice()
    }

    /// Forgets the dictionary numbers.
    pub fn forget_used(&mut self)
        ensures row { row_in self.new ≡ row_in self.old }
        ensures used { used_in self.new ≡ [] }
    {
        self.used.clear();
    }
}
