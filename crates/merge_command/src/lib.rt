//! The command `merge`: the files of a second archive behind those of the archive.
#![tactic(auto)]

mod lines;
mod merge;
mod over;
mod refused;

pub use merge::merge_archives;
