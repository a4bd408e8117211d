//! Dictionaries: lists of texts, in which a text is found by its number and a number by its text.
//!
//! The texts of a list lie one after the other in one buffer, cut at their ends. [`Texts`] is that
//! buffer alone, for reading. [`Book`] has an index over it: its texts are distinct, and it has a
//! limit of how many there may be.
#![tactic(auto)]

mod book;
mod chains;
mod grows;
mod index;
mod refusals;
mod search;
mod text_slice;
mod texts;

pub use book::Book;
pub use chains::NO_NUMBER;
pub use grows::WORDS_FIRST;
pub use refusals::{BookRefusal, IndexRefusal};
pub use text_slice::TextSlice;
pub use texts::{MAX_TEXTS, Texts};
