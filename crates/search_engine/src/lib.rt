//! Searching an archive: the lines of all messages that a pattern matches, in order.
#![tactic(auto)]

mod beside;
mod counts;
mod gathering;
mod lane;
mod lanes;
mod laws;
mod page_batch;
mod page_slot;
mod page_taking;
mod parts;
mod printing;
mod refusal;
mod searching;
mod text_sink;
mod turns;

pub use laws::{exact_expands_printed, one_is_found};
pub use search_meaning::Report;
pub use search_walk::SearchRefusal;
pub use searching::search;
