//! The words of the command line: which command they ask for, with its options and its words.
//!
//! The words are read by `clap` as one program with one level of commands. What is a number is read
//! behind it: in decimal, without a needless zero, with a sign only where it is below zero.
#![tactic(auto)]

mod command;
mod form;
mod found;
mod number;
mod read;
mod spelled;

pub use command::{
    BenchWords, Command, CountKey, CountWords, IngestWords, SearchWords, WordsRefusal,
};
pub use read::read_words;
pub use spelled::spellings;
