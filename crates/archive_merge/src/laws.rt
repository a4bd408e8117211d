//! Laws of an archive that was opened, each the contract of a function that does nothing.
ghost use Rattle.archive_merge.specs.Laws.{FilesAreRuns, FilesRise, SegmentsAreTheirs, SegmentsGoOn, TextsAreFair};

use segment_pages::segments_are_held;

/// Where the bytes of a disk stand for a journal, the segments of a file in its archive go on one
/// behind the other, to what the journal holds of the file; they are the journal's, and sorted by file;
/// and the texts are those that dictionaries may hold.
pub fn segments_go_on()
    ensures runs { SegmentsGoOn }
    ensures theirs { SegmentsAreTheirs }
    ensures rise { FilesRise }
    ensures files { FilesAreRuns }
    ensures fair { TextsAreFair }
{
    segments_are_held();
}
