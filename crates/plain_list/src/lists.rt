//! The lists that the store's crates hand to each other. Contracts see each as a plain list.

use crate::ListOf;

/// A list of bytes. Any bytes are allowed.
pub type Text = ListOf<u8>;

/// A list of texts.
pub type TextList = ListOf<Text>;

/// A list of the 64-bit words that variables are stored as.
pub type WordList = ListOf<u64>;

/// A list of numbers of 32 bits, such as those that a dictionary gives to its texts.
pub type NumberList = ListOf<u32>;
