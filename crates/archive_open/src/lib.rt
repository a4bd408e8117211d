//! Opening an archive for reading.
//!
//! What is opened are the texts of both dictionaries, the files, and for each segment its place and
//! its head. The columns of segments are not read.
#![tactic(auto)]

mod archive;
mod files;
mod grown;
mod keeps;
mod open;
mod opening;
mod plain;
mod records;
mod refusal;
mod segments;
mod walk;

pub use archive::Archive;
pub use files::{FileEntry, FileList};
pub use grown::{Grown, add_head, add_listed, add_names};
pub use keeps::KeepsTexts;
pub use open::{open_archive, open_for_append};
pub use plain::{PlainBook, PlainBooks};
pub use records::KeepsRecords;
pub use refusal::ArchiveRefusal;
pub use segments::{SegmentList, SegmentPlace};
pub use walk::keep_all;
