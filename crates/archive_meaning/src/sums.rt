//! What is kept of a file in place of its messages.

/// The sum of a file's segments.
#[derive(Clone, Copy, Debug, PartialEq, Eq)]
pub struct FileSum {
    /// How many messages the file has so far.
    pub messages: u64,
    /// Whether its last segment is there.
    pub whole: bool,
    /// Whether its last message may be a last line without newline: it is there, it is not empty, and
    /// its last byte is no newline.
    pub open_end: bool,
}
