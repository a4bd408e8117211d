//! The lines that tell of an archive's files, as `files` and `ingest` print them.
#![tactic(auto)]

mod directory;

pub use directory::{Listed, print_directory};
