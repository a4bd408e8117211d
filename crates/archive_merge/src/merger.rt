//! What moves one file after the other.
ghost use Rattle.std.specs.Prelude.{IsSome};

use crate::cause::MergeCause;
use crate::taker::Taker;
use archive_open::SegmentPlace;
use dict_lock::CachedPass;
use log_seams::Disk;
use row_codec::Names;

/// The passes of the two books of the first archive, with the texts that they named.
#[derive(Drop)]
pub struct BookPasses<'b> {
    /// Over the log types.
    pub types: CachedPass<'b>,
    /// Over the words.
    pub words: CachedPass<'b>,
}

/// The second archive, and what serves to read it.
#[derive(Drop)]
pub struct Second<'s, M: Names, E: Disk> {
    /// Its texts.
    pub names: &'s M,
    /// Its segments, sorted by file and first message.
    pub segments: &'s [SegmentPlace],
    /// Its disk.
    pub disk: &'s mut E,
    /// What takes its rows over.
    pub taker: Taker,
}

/// Which file was not moved whole, and why.
#[derive(Clone, Copy, Debug, PartialEq, Eq)]
pub struct Stopped {
    /// The number of the file in the first archive.
    pub file: u32,
    /// Why.
    pub cause: MergeCause,
}

/// It moves one file after the other, until one of them is stopped. What it named for one file it
/// knows for the next.
#[derive(Drop)]
pub struct Merger<'s, 'b, M: Names, E: Disk> {
    // The number that the first file of the second archive has in the first one.
    pub(crate) first: u32,
    pub(crate) second: Second<'s, M, E>,
    // None while it moves a file.
    pub(crate) passes: Option<BookPasses<'b>>,
    pub(crate) stop: Option<Stopped>,
    ghost full: { IsSome passes },
}
