//! The command `ingest --watch`: logs become the files of an archive, and meanwhile the messages of each
//! segment that was sealed are printed, those that a pattern matches.
#![tactic(auto)]

mod adding;
mod extended;
mod lines;
mod reader;
mod watch;

pub use watch::watch_files;
