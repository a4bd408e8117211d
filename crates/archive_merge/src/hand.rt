//! The next segment of a file that is taken over.
ghost use Rattle.std.specs.Prelude.{◌≡◌, ◌+◌, ◌<◌, ◌^◌, ◌↔◌, IsTrue};
ghost use Rattle.column_store.specs.Row.{variable_count};
ghost use Rattle.archive_meaning.specs.Sums.{no_messages};
ghost use Rattle.archive_merge.specs.InHand.{IsEmpty, sum_in};

use archive_meaning::FileSum;
use column_store::Columns;
use disk_seal::Draft;
use plain_list::NumberList;
use row_rename::RenamedRow;
use std::alloc::Global;

/// The rows of a segment with the numbers of the first archive, as the draft of its next segment. The
/// buffers are filled again, so that a row costs no allocation once they have grown.
#[derive(Drop)]
pub struct Hand {
    /// The next segment of the file, but for its words.
    pub draft: Draft,
    /// The row that was renamed last, and the numbers of dictionary words that the rows have.
    pub renamed: RenamedRow,
    /// Whether the last message of the file so far may be a last line without newline.
    pub open_end: bool,
}

impl Hand {
    /// The first segment of a file, without rows. Takes no memory.
    pub fn new(alloc: Global, file: u32) -> Hand
        ensures file { result.draft.file ≡ file }
        ensures empty { IsEmpty result }
        ensures sum { sum_in result ≡ no_messages }
    {
        Hand {
            draft: Draft {
                file,
                first: 0,
                last: false,
                ended: false,
                columns: Columns::new(alloc),
                words: NumberList::new(Vec::new(alloc)),
            },
            renamed: RenamedRow::new(alloc),
            open_end: false,
        }
    }

    /// The sum of the file's segments before this one.
    pub(crate) fn sum(&self) -> FileSum
        ensures { result ≡ sum_in self.now }
    {
        FileSum {
            messages: self.draft.first,
            whole: self.draft.last,
            open_end: self.open_end,
        }
    }

    /// Whether so many variables more can be counted in 32 bits.
    #[inline]
    pub(crate) fn has_room(&self, variables: usize) -> bool
        ensures { IsTrue result
            ↔ (variable_count self.now.draft.columns.rows + variables < 2 ^ 32) }
    {
        variables <= (u32::MAX - self.draft.columns.variables()) as usize
    }
}
