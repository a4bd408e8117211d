//! The rows of a segment by pages, read from a disk.
//!
//! Of a segment that is not needed no byte is read, and of one that is needed a page at a time: its
//! five pieces are read into one buffer, which is used for all pages.
#![tactic(auto)]

mod columns;
mod heads;
mod laws;
mod loading;
mod pages;
mod refusal;

pub use laws::{left_are_counted, none_are_left, segments_are_held};
pub use pages::SegmentPages;
pub use refusal::PageRefusal;
