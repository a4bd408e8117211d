//! What a search of an archive finds, as definitions that the crates above share: which messages, which
//! segments are opened for them, their groups, and what a reader finds that follows a journal. Also the
//! values that tell of it.
#![tactic(auto)]

mod groups;
mod report;

pub use groups::{Group, GroupBy, GroupList, Grouped};
pub use report::{GroupReport, Report};
