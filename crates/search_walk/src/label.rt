//! What stands before a message in its line.

/// The name of a message's file, and its number in the file.
#[derive(Clone, Copy, Debug)]
pub struct Label<'a> {
    pub name: &'a [u8],
    /// From 1.
    pub number: u64,
}
