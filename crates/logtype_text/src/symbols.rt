//! What a log type is made of.
use plain_list::ListOf;

/// How a variable is coded.
#[derive(Clone, Copy, Debug, PartialEq, Eq)]
pub enum Kind {
    /// A whole number of 64 signed bits.
    Whole,
    /// A text of the dictionary.
    Word,
    /// A number with a point.
    Decimal,
}

/// A symbol of a log type.
#[derive(Clone, Copy, Debug, PartialEq, Eq)]
pub enum Symbol {
    /// A byte of constant text.
    Byte(u8),
    /// The place of a variable.
    Slot(Kind),
}

/// The symbols of a log type, in order. Contracts see the list.
pub type Symbols = ListOf<Symbol>;
