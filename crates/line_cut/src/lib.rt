//! Cuts the bytes of a source into its lines, or into messages that are groups of lines, one at a
//! time and in bounded memory.
#![tactic(auto)]

pub mod cut;
pub mod cutter;
mod find_end;
pub mod heads;
mod join;
pub mod joiner;
pub mod laws;
mod look;
mod message;
mod next_line;
mod window;

pub use cut::{Cut, CutterRefused, Mark, Piece, Progress};
pub use cutter::{Cutter, MAX_LINE_LEN};
pub use heads::Heads;
pub use joiner::Joiner;
