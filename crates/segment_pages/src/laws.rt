//! Laws of what bytes hold, each the contract of a function that does nothing.
ghost use Rattle.segment_pages.specs.Laws.{LeftAreCounted, NoneAreLeft, SegmentsAreHeld};

use archive_meaning::laws::{bytes_stand_for_one, entries_read_back};
use segment_format::segments_read_back;

/// Where the bytes of a disk stand for a journal, they hold the rows of each of its segments.
pub fn segments_are_held()
    ensures { SegmentsAreHeld }
{
    bytes_stand_for_one();
    entries_read_back();
    segments_read_back();
}

/// Behind the last page no rows are left.
pub fn none_are_left()
    ensures { NoneAreLeft }
{}

/// So many rows are left as the pages before have not had.
pub fn left_are_counted()
    ensures { LeftAreCounted }
{}
