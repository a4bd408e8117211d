//! The logs of a list of names, as sources of bytes: a log that cannot be opened has its place among
//! them, as a source that fails at each read.
#![tactic(auto)]

mod logs;
mod source;

pub use logs::{close_logs, open_logs};
pub use source::LogSource;
