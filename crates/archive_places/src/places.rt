//! An archive that is opened by places.

use crate::front::FrontList;
use archive_open::FileList;
use plain_list::ListOf;
use record_format::Header;
use word_places::WordsPlace;

/// Places of records of log types or of words, in the order of their numbers.
pub type PlaceList = ListOf<WordsPlace>;

/// What [`open_places`](crate::open_places) found: the names of files, and where the rest stands.
#[derive(Drop)]
pub struct Places {
    /// The header.
    pub header: Header,
    /// Where the records of log types stand, in the order of their numbers.
    pub types: PlaceList,
    /// How many log types these have.
    pub types_count: u32,
    /// Where the records of words stand, in the order of their numbers.
    pub words: PlaceList,
    /// The files, each at its number.
    pub files: FileList,
    /// The segments, sorted by file and first message.
    pub segments: FrontList,
    /// How many records the archive has.
    pub entries: u64,
    /// How many bytes the archive has, up to and with the closed gate.
    pub end: u64,
}
