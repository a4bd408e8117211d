//! Wildcard patterns over bytes: reading one from a text, and matching it against a whole message.
//!
//! A pattern is a list of items. A byte matches itself, [`Item::One`] any one byte, and
//! [`Item::Many`] any bytes, none too. [`matches`] takes no memory; [`Matcher`] is made once for a
//! pattern and is the faster of the two where many messages are matched.
#![tactic(auto)]

mod fixed;
pub mod laws;
mod matcher;
mod pattern;
mod read;
mod runs;
mod widening;

pub use fixed::matches;
pub use matcher::Matcher;
pub use pattern::{Item, Pattern};
pub use read::{PatternRefusal, read_pattern};
pub use widening::widen;
