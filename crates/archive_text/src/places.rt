//! The segments of a file, and where its last line ends.
ghost use Rattle.std.specs.Prelude.{◌≡◌, ◌&&◌, not};
ghost use Rattle.std.specs.List.{filter};
ghost use Rattle.std.specs.List.Sorted.{IsNonDecreasingBy};
ghost use Rattle.archive_open.specs.OfFile.{is_of};

use archive_open::{FileEntry, SegmentPlace};

/// The segments of the file of a number, of all in the order of files. Takes no memory.
pub(crate) fn segments_of(all: &[SegmentPlace], number: u32) -> &[SegmentPlace]
    ensures { IsNonDecreasingBy (λ p. p.head.file) all.now
        → result.now ≡ filter (is_of number) all.now }
{
    let first = all.partition_point(|place| place.head.file < number);
    let behind = &all[first..];
    let count = behind.partition_point(|place| place.head.file <= number);
    &behind[..count]
}

/// Whether the last line of a file had no newline. A part has one behind each message.
pub(crate) fn ends_open(file: &FileEntry) -> bool
    ensures { result ≡ (file.now.whole && not file.now.ended) }
{
    file.whole && !file.ended
}
