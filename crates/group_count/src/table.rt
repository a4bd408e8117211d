//! Tables in which rows are counted.
ghost use Rattle.std.specs.Prelude.{ℕ, ◌↔◌, ◌≤◌, ◌++◌, ◌∷◌, [], List, IsTrue, OnOk, IsErrOf};
ghost use Rattle.log_seams.specs.Outside.{CountsOf};
ghost use Rattle.column_store.specs.Row.{row_of};
ghost use Rattle.column_store.specs.declared.row.Row.{Row};
ghost use Rattle.segment_pages.specs.Paged.{HoldsNoneTold, OfRows, ReadsColumns};
ghost use Rattle.group_count.specs.Laws.{minutes_of, numbers_of};
ghost use Rattle.group_count.specs.StepsCounted.{IsLike};
ghost use Rattle.group_count.specs.Tables.{AreMinutes, AreTypes};

use crate::columns::{ColumnRoom, count_minutes, count_types};
use crate::minutes::MinuteTable;
use crate::types::TypeTable;
use column_store::RowRef;
use log_seams::Disk;
use search_walk::SearchRefusal;
use segment_pages::SegmentPages;
use std::alloc::{AllocError, Global};

/// What rows are counted in, one after the other, by what they have in common.
pub(crate) trait RowTable: Drop {
    // These rows were counted, of an archive of which a table knows one number: that of minutes its
    // version, and that of log types how many of these it has.
    ghost counted: { Self → ℕ → List Row → Type 0 };

    /// Counts a row.
    fn count_row(&mut self, row: RowRef<'_>) -> Result<(), AllocError>
        ensures { OnOk result ((known : ℕ) (before : List Row) → counted self.old known before
            → counted self.new known (before ++ row_of row.entry ∷ [])) };

    /// Counts all rows that are left of a segment, by the columns that it looks at.
    fn count_left<D: Disk>(
        &mut self,
        pages: &SegmentPages,
        disk: &mut D,
        room: &mut ColumnRoom,
    ) -> Result<(), SearchRefusal>
        // what stays
        ensures reads { ReadsColumns pages.now (D.state disk.old) (D.state disk.new) }

        // by the answer, and causes
        ensures counted { OnOk result (OfRows (D.state disk.old).seen pages.now
            (λ rows. (known : ℕ) (before : List Row) → counted self.old known before
            → counted self.new known (before ++ rows))) }
        ensures damaged { IsErrOf result SearchRefusal.Damaged
            → HoldsNoneTold (D.state disk.old).seen pages.now }
        ensures counts { CountsOf SearchRefusal.DiskFault
            (D.state disk.old).faults (D.state disk.new).faults result }
        ensures sink { ¬ IsErrOf result SearchRefusal.SinkFault };

    /// A table of the same kind, in which nothing was counted. Takes no memory.
    fn like(&self, alloc: Global) -> Self
        ensures { IsLike counted self.now result };

    /// Counts what was counted in another table of the same kind, behind what was counted here.
    fn join(&mut self, other: &Self) -> Result<(), AllocError>
        ensures { OnOk result ((known : ℕ) (before rows : List Row)
            → counted self.old known before → counted other.now known rows
            → counted self.new known (before ++ rows)) };
}

impl RowTable for TypeTable {
    ghost counted = { λ t types rows. AreTypes types t (numbers_of rows) };

    #[inline]
    fn count_row(&mut self, row: RowRef<'_>) -> Result<(), AllocError> {
        self.count(row.log_type)
    }

    fn count_left<D: Disk>(
        &mut self,
        pages: &SegmentPages,
        disk: &mut D,
        room: &mut ColumnRoom,
    ) -> Result<(), SearchRefusal> {
        count_types(self, pages, disk, room)
    }

    fn like(&self, alloc: Global) -> TypeTable {
        TypeTable::new(alloc, self.limit())
    }

    fn join(&mut self, other: &TypeTable) -> Result<(), AllocError> {
        self.take_in(other)
    }
}

impl RowTable for MinuteTable {
    ghost counted = { λ t version rows. (IsTrue t.micro ↔ (3 ≤ version))
        × AreMinutes t (minutes_of t.micro rows) };

    #[inline]
    fn count_row(&mut self, row: RowRef<'_>) -> Result<(), AllocError> {
        self.count(row.pattern, row.moment)
    }

    fn count_left<D: Disk>(
        &mut self,
        pages: &SegmentPages,
        disk: &mut D,
        room: &mut ColumnRoom,
    ) -> Result<(), SearchRefusal> {
        count_minutes(self, pages, disk, room)
    }

    fn like(&self, alloc: Global) -> MinuteTable {
        MinuteTable::new(alloc, self.is_micro())
    }

    fn join(&mut self, other: &MinuteTable) -> Result<(), AllocError> {
        self.take_in(other)
    }
}
