//! The command `bench`: an archive of four generated logs, and its summary.
#![tactic(auto)]

mod bench_archive;
mod summary;

pub use bench_archive::bench;
