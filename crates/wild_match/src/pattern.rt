//! The items of a pattern, and the pattern as their list.

use plain_list::ListOf;

/// One part of a pattern.
#[derive(Clone, Copy, Debug, PartialEq, Eq)]
pub enum Item {
    /// The byte itself.
    Byte(u8),
    /// Any one byte.
    One,
    /// Any bytes, none too.
    Many,
}

/// A list of items.
pub type Pattern = ListOf<Item>;
