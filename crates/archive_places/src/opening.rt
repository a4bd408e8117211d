//! What an opening by places has kept so far.
ghost use Rattle.std.specs.Prelude.{◌≤◌, ◌<◌, ◌^◌};

use crate::front::SegmentFront;
use archive_open::FileEntry;
use word_places::WordsPlace;

/// Where the records of log types, or those of words, stand that were passed so far.
// Its calls are in a file of their own: a ghost field imports what its file names.
#[derive(Drop)]
pub(crate) struct TextPlaces {
    /// Where they stand.
    pub(crate) places: Vec<WordsPlace>,
    /// How many texts they have.
    pub(crate) count: u32,
    /// How many texts there may be.
    pub(crate) limit: u32,
    ghost within: { count ≤ limit },
    ghost few: { limit < 2 ^ 32 },
}

/// What was kept of the records so far.
#[derive(Drop)]
pub(crate) struct Opening {
    /// Where the records of log types stand.
    pub(crate) types: TextPlaces,
    /// Where those of words stand.
    pub(crate) words: TextPlaces,
    /// The files.
    pub(crate) files: Vec<FileEntry>,
    /// The segments in the order of their records.
    pub(crate) segments: Vec<SegmentFront>,
}
