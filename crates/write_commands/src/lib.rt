//! The command `ingest`, and what the other commands that write an archive share with it.
#![tactic(auto)]

mod ingest;
mod laws;
mod names;
mod register;

pub use ingest::{NewLogs, add_lent, add_over, ingest_files};
pub use laws::{rests_end_their_log, unopened_give_nothing};
pub use names::refuse_names;
