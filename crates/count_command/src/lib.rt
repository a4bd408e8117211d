//! The command `count`: how many messages of an archive match a pattern, by log type or by minute.
#![tactic(auto)]

mod count;
mod text;

pub use count::count_messages;
