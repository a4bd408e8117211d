//! What is added to the journal of an archive, as events of its machine.
#![tactic(auto)]

mod laws;

pub use laws::{ingests_by_events, merges_by_events};
