//! What a source tells of the text of a file.
ghost use Rattle.std.specs.Prelude.{◌≡◌};
ghost use Rattle.archive_text.specs.Told.{HasText, file_parts};
ghost use Rattle.archive_text.specs.OneText.{has_prop};

use archive_open::SegmentPlace;
use log_seams::Disk;
use row_codec::Names;
use std::snapshot::Snapshot;

/// What the text of a file is written from, and, for contracts alone, that text where the disk
/// tells its bytes.
#[derive(Drop)]
pub(crate) struct ToldText<'a, D: Disk, N: Names> {
    pub(crate) names: &'a N,
    pub(crate) places: &'a [SegmentPlace],
    pub(crate) open_end: bool,
    /// The disk as it was.
    pub(crate) disk: Snapshot<D>,
    ghost has: { HasText
        (file_parts (N.types names.now) (N.words names.now) places.now open_end)
        (D.state disk.value).seen } by { has_prop
            (file_parts (N.types names.now) (N.words names.now) places.now open_end)
            (D.state disk.value).seen },
}

impl<'a, D: Disk, N: Names> ToldText<'a, D, N> {
    /// What is told of the segments at these places. Takes no memory, and makes no call of the
    /// disk.
    pub(crate) fn new(
        names: &'a N,
        places: &'a [SegmentPlace],
        open_end: bool,
        disk: &D,
    ) -> ToldText<'a, D, N>
        ensures names { result.names.now ≡ names.now }
        ensures places { result.places.now ≡ places.now }
        ensures open_end { result.open_end ≡ open_end }
        ensures disk { result.disk.value ≡ disk.now }
    {
        ToldText {
            names,
            places,
            open_end,
            disk: Snapshot::of(disk),
        }
    }
}
