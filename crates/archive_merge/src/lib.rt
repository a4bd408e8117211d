//! The files of a second archive behind those of a first.
//!
//! Rows of the second archive are tested as those of any archive are, get the numbers of the first
//! one, and are sealed there as they were sealed in the second. No message is cut anew.
#![tactic(auto)]

mod behind;
mod cause;
mod file;
mod hand;
mod laws;
mod locks;
mod merger;
mod merger_work;
mod merging;
mod moving;
mod next;
mod refusal;
mod rows;
mod sealing;
mod segment;
mod stop;
mod taker;

pub use behind::{MoveRefused, Moved, move_behind};
pub use cause::MergeCause;
pub use file::{Merged, move_file};
pub use hand::Hand;
pub use laws::segments_go_on;
pub use locks::move_files;
pub use merger::{BookPasses, Merger, Second, Stopped};
pub use merging::{MergeEnd, ToMerge, merge};
pub use moving::move_segment;
pub use refusal::MergeRefusal;
pub use rows::take_page;
pub use segment::take_segment;
pub use stop::Stop;
pub use taker::Taker;
