//! The kinds of an archive's records, as the first byte of each tells them.

/// A record of names of files.
pub const FILES_KIND: u8 = 1;

/// A record of log types.
pub const TYPES_KIND: u8 = 2;

/// A record of words.
pub const WORDS_KIND: u8 = 3;

/// A record of a segment.
pub const SEGMENT_KIND: u8 = 4;
