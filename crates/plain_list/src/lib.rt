//! One list type over `Vec` that contracts see as a plain list.
//!
//! The store's crates hand lists to each other under the names that stand here, each an alias: a text
//! is `ListOf<u8>`, a list of texts is `ListOf<Text>`.
#![tactic(auto)]

ghost use Rattle.std.specs.Prelude.{◌≡◌, length};

mod lists;

pub use lists::{NumberList, Text, TextList, WordList};
use std::marker::Model;

/// A list of values. Contracts see the list itself, and each value in it as its own model.
#[derive(Debug, Drop)]
pub struct ListOf<T> {
    values: Vec<T>,
}

impl<T> Model for ListOf<T> {
    ghost use Rattle.std.specs.Prelude.{List};

    ghost Value = { List T };

    ghost view = { λ l. l.values.items };
}

impl<T> ListOf<T> {
    /// The list of these values, in the memory that they stand in.
    pub fn new(values: Vec<T>) -> ListOf<T>
        ensures { result ≡ values.items }
    {
        ListOf { values }
    }

    /// The values in order, lent as a slice.
    pub fn as_slice(&self) -> &[T]
        ensures { result.now ≡ self.now }
    {
        self.values.as_slice()
    }

    /// How many values there are.
    pub fn len(&self) -> usize
        ensures { result ≡ length self.now }
    {
        self.values.len()
    }

    /// The values in order, as a vector whose memory can be used again.
    pub fn into_vec(self) -> Vec<T>
        ensures { result.items ≡ self }
    {
        self.values
    }
}
