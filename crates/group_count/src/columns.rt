//! Rows that are counted by some of their columns.
ghost use Rattle.std.specs.Prelude.{◌≡◌, ℕ, ℤ, ◌<◌, ◌≤◌, ◌+◌, ◌-◌, ◌++◌, List, Option, OnOk, IsErrOf};
ghost use Rattle.log_seams.specs.Outside.{CountsOf};
ghost use Rattle.segment_pages.specs.Paged.{HoldsNoneTold, OfRows, ReadsColumns, part, types_in};
ghost use Rattle.group_count.specs.Laws.{minutes_of};
ghost use Rattle.group_count.specs.Tables.{AreMinutes, HoldTypes};

use crate::minutes::MinuteTable;
use crate::types::TypeTable;
use log_seams::Disk;
use search_walk::SearchRefusal;
use segment_pages::SegmentPages;
use std::alloc::Global;

/// How many rows are read at once: 64 KiB of log types. It is free to tune.
const RUN_ROWS: u32 = 16_384;

/// What columns are read into. Each run of rows takes the place of the one before it.
#[derive(Drop)]
pub(crate) struct ColumnRoom {
    /// What the reads take place in.
    bytes: Vec<u8>,
    patterns: Vec<u8>,
    moments: Vec<i64>,
    types: Vec<u32>,
}

impl ColumnRoom {
    /// Room without columns. Takes no memory.
    pub(crate) fn new(alloc: Global) -> ColumnRoom {
        ColumnRoom {
            bytes: Vec::new(alloc),
            patterns: Vec::new(alloc),
            moments: Vec::new(alloc),
            types: Vec::new(alloc),
        }
    }
}

/// Counts the log types of all rows that are left of a segment.
pub(crate) fn count_types<D: Disk>(
    table: &mut TypeTable,
    pages: &SegmentPages,
    disk: &mut D,
    room: &mut ColumnRoom,
) -> Result<(), SearchRefusal>
    // what stays
    ensures reads { ReadsColumns pages.now (D.state disk.old) (D.state disk.new) }
    ensures limit { table.new.limit ≡ table.old.limit }

    // by the answer, and causes
    ensures counted { OnOk result (OfRows (D.state disk.old).seen pages.now
        (λ rows. (numbers : List ℕ) → HoldTypes table.old numbers
        → HoldTypes table.new (numbers ++ types_in rows))) }
    ensures damaged { IsErrOf result SearchRefusal.Damaged
        → HoldsNoneTold (D.state disk.old).seen pages.now }
    ensures counts { CountsOf SearchRefusal.DiskFault
        (D.state disk.old).faults (D.state disk.new).faults result }
    ensures sink { ¬ IsErrOf result SearchRefusal.SinkFault }
{
    let rows = pages.rows_left();
    for run in 0..rows.div_ceil(RUN_ROWS) {
        let skipped = RUN_ROWS * run;
        let count = RUN_ROWS.min(rows - skipped);
        pages.read_types(disk, skipped, count, &mut room.bytes, &mut room.types)?;
        table.count_all(room.types.as_slice())?;
    }
    Ok(())
}

/// Reads the patterns and moments of so many of the rows that are left, behind the first ones, and
/// counts their minutes.
fn count_run<D: Disk>(
    table: &mut MinuteTable,
    pages: &SegmentPages,
    disk: &mut D,
    skipped: u32,
    count: u32,
    room: &mut ColumnRoom,
) -> Result<(), SearchRefusal>
    requires some { 0 < count }
    requires within { skipped + count ≤ pages.now.pages.rows - pages.now.pages.row }

    // what stays
    ensures reads { ReadsColumns pages.now (D.state disk.old) (D.state disk.new) }
    ensures micro { table.new.micro ≡ table.old.micro }

    // by the answer, and causes
    ensures counted { OnOk result (OfRows (D.state disk.old).seen pages.now
        (λ rows. (keys : List (Option ℤ)) → AreMinutes table.old keys → AreMinutes table.new
        (keys ++ part skipped count (minutes_of table.old.micro rows)))) }
    ensures damaged { IsErrOf result SearchRefusal.Damaged
        → HoldsNoneTold (D.state disk.old).seen pages.now }
    ensures counts { CountsOf SearchRefusal.DiskFault
        (D.state disk.old).faults (D.state disk.new).faults result }
    ensures sink { ¬ IsErrOf result SearchRefusal.SinkFault }
{
    pages.read_patterns(disk, skipped, count, &mut room.bytes, &mut room.patterns)?;
    pages.read_moments(disk, skipped, count, &mut room.bytes, &mut room.moments)?;
    table.count_stamps(room.patterns.as_slice(), room.moments.as_slice())?;
    Ok(())
}

/// Counts the minutes of all rows that are left of a segment.
pub(crate) fn count_minutes<D: Disk>(
    table: &mut MinuteTable,
    pages: &SegmentPages,
    disk: &mut D,
    room: &mut ColumnRoom,
) -> Result<(), SearchRefusal>
    // what stays
    ensures reads { ReadsColumns pages.now (D.state disk.old) (D.state disk.new) }
    ensures micro { table.new.micro ≡ table.old.micro }

    // by the answer, and causes
    ensures counted { OnOk result (OfRows (D.state disk.old).seen pages.now
        (λ rows. (keys : List (Option ℤ)) → AreMinutes table.old keys
        → AreMinutes table.new (keys ++ minutes_of table.old.micro rows))) }
    ensures damaged { IsErrOf result SearchRefusal.Damaged
        → HoldsNoneTold (D.state disk.old).seen pages.now }
    ensures counts { CountsOf SearchRefusal.DiskFault
        (D.state disk.old).faults (D.state disk.new).faults result }
    ensures sink { ¬ IsErrOf result SearchRefusal.SinkFault }
{
    let rows = pages.rows_left();
    for run in 0..rows.div_ceil(RUN_ROWS) {
        let skipped = RUN_ROWS * run;
        let count = RUN_ROWS.min(rows - skipped);
        count_run(table, pages, disk, skipped, count, room)?;
    }
    Ok(())
}
