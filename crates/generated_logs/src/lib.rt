//! Logs that are made from a number, for measuring: four of them, each line made where it is read.
#![tactic(auto)]

mod laws;
mod line;
mod shelf;
mod source;
mod text;

pub use laws::logs_have_lines;
pub use shelf::GeneratedShelf;
pub use source::GeneratedSource;
