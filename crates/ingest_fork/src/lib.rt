//! Fork and join over consecutive pieces of a list of jobs, and what holds of the passes of a turn
//! lock that the workers used.
#![tactic(auto)]

mod beside;
mod laws;
mod passes;
mod works;

pub use beside::{Follows, by_workers_beside};
pub use laws::{all_are_joined, each_was_added, picked_are_own};
pub use passes::{fill, join_all};
pub use works::{MAX_WORKERS, Works, by_workers, by_workers_of, in_turn};
