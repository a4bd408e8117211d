//! A reader of an archive that follows its journal while others append to it, and prints the messages
//! of each sealed segment that a pattern matches.
#![tactic(auto)]

mod fixed;
mod looking;
mod part;
mod progress;
mod reader;
mod refusal;

pub use fixed::LiveFixed;
pub use reader::LiveReader;
pub use refusal::LiveRefusal;
