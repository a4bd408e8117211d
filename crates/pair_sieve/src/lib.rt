//! Tells of most rows, before any is written, that a pattern matches none of their messages.
//!
//! Two bytes that stand beside each other in a pattern stand so in each message that it matches. Which
//! log types and which words can supply them is looked up once for each text.
#![tactic(auto)]

mod marks;
mod pair;
mod sieve;

pub use pair::Pair;
pub use sieve::PairSieve;
