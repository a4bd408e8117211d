//! Dictionaries that threads share.
#![tactic(auto)]

mod cache;
mod cached;
mod naming;
mod shared;
mod texts;

pub use cached::CachedPass;
pub use shared::{SharedBook, intern, unsaved};
pub use texts::{LineSpans, TextSlice};
