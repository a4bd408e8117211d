//! Whether the bytes of a disk are a legal archive, and else where they are damaged first.
#![tactic(auto)]

mod checking;
mod segment;
mod take;

pub use check_meaning::{CheckRefusal, Summary};
pub use checking::check;
