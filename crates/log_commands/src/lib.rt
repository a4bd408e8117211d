//! The commands that print the messages of a log: `show` and `scan`.
#![tactic(auto)]

mod found_text;
mod log;
mod message_text;
mod print;
mod shown_text;

pub use print::{scan, show};
