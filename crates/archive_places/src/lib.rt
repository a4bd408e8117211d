//! Opening an archive by places: its log types, its words and the lists of its heads are left on
//! the disk.
//!
//! What is kept of each record is what its front says: of log types and of words where they stand
//! and their numbers, of a segment the fixed part of its head. Names of files are kept whole.
#![tactic(auto)]

mod front;
mod heads;
mod keeping;
mod laws;
mod open;
mod opening;
mod places;
mod segments;
mod texts;

pub use front::{FrontList, SegmentFront};
pub use heads::{load_segment, load_types};
pub use laws::{heads_stand, types_stand, words_stand};
pub use open::open_places;
pub use places::{PlaceList, Places};
