//! A segment that goes on with its file.
ghost use Rattle.std.specs.Prelude.{◌≡◌, ◌+◌, ◌<◌, ◌≤◌, ◌↔◌, true, false, IsTrue};
ghost use Rattle.archive_meaning.specs.declared.TheConstants.{MAX_ROWS, MAX_MESSAGES};
ghost use Rattle.archive_core.specs.Part.{MayFollow};

use crate::rows::Rows;
use archive_meaning::{FileSum, MAX_MESSAGES, MAX_ROWS};

/// Which part of its file a segment is.
#[derive(Clone, Copy, Debug)]
pub struct Part {
    /// The number of the file.
    pub file: u32,
    /// How many messages of the file come before the segment.
    pub first: u64,
    /// Whether it is the last segment of the file.
    pub last: bool,
    /// Whether the last line of the file had its newline. Set only where `last` is.
    pub ended: bool,
}

// Whether a segment with so many rows is neither empty before its file's end nor ended before it.
fn is_marked_well(part: Part, count: usize) -> bool
    ensures some { IsTrue result → part.last ≡ false → 0 < count }
    ensures ended { IsTrue result → part.ended ≡ true → part.last ≡ true }
    ensures marked { (part.last ≡ false → 0 < count) → (part.ended ≡ true → part.last ≡ true)
        → IsTrue result }
{
    if part.last {
        return true;
    }
    count > 0 && !part.ended
}

// Whether so many messages may come behind those of a file.
fn has_room(sum: FileSum, part: Part, count: usize) -> bool
    ensures { IsTrue result
        ↔ ((part.first ≡ sum.messages) × (sum.whole ≡ false) × (part.first + count ≤ MAX_MESSAGES)
        × (count ≤ MAX_ROWS)) }
{
    part.first == sum.messages
        && !sum.whole
        && count <= MAX_ROWS
        && part.first <= MAX_MESSAGES
        && count as u64 <= MAX_MESSAGES - part.first
}

/// Whether a file of this sum may go on with a segment of these rows, whatever their messages are.
pub fn may_follow<R: Rows>(sum: FileSum, part: Part, rows: &R) -> bool
    ensures { IsTrue result ↔ MayFollow sum part (R.rows rows.now) }
{
    let count = rows.count();
    has_room(sum, part, count) && is_marked_well(part, count) && rows.are_few()
}

/// Whether a file may end as its segment says, where `open_end` tells whether its last message may be a
/// last line without newline.
pub fn ends_well(part: Part, open_end: bool) -> bool
    ensures { IsTrue result ↔ (part.last ≡ true → part.ended ≡ false → open_end ≡ true) }
{
    if !part.last {
        return true;
    }
    if part.ended {
        return true;
    }
    open_end
}
