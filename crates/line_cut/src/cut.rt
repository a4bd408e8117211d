//! The answers of a cutter.

use plain_list::Text;
use thiserror::Error;

/// Why no further line is given.
#[derive(Clone, Copy, Debug, PartialEq, Eq, Error)]
pub enum Cut {
    /// A read failed; the count of faults of the source rose.
    #[error("read failed")]
    ReadFault,
    /// The line with this number, from 1, has more bytes without its newline than the limit.
    #[error("line {line} is too long")]
    LineTooLong { line: u64 },
    /// A further line begins after as many as the limit.
    #[error("too many lines")]
    TooManyLines,
    /// There was no memory for a line.
    #[error("out of memory")]
    OutOfMemory,
}

/// How far a cutter is.
#[derive(Clone, Copy, Debug, PartialEq, Eq)]
pub enum Progress {
    /// Its next line was not looked for.
    Open,
    /// The end was met.
    Ended,
    /// It refused, and answers the same from then on.
    Refused(Cut),
}

/// What is known of a line beside its bytes.
#[derive(Clone, Copy, Debug, PartialEq, Eq)]
pub struct Mark {
    /// Whether a newline followed it. Only the last line can be without.
    pub ended: bool,
}

/// One line of a source.
#[derive(Debug, Drop)]
pub struct Piece {
    /// Its bytes, without the newline.
    pub line: Text,
    /// Whether a newline followed it. Only the last line can be without.
    pub ended: bool,
}

/// There was no memory for a cutter; this is its source.
#[derive(Debug, Drop)]
pub struct CutterRefused<S> {
    pub source: S,
}
