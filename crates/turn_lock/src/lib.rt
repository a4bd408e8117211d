//! A lock over a value whose entries only grow. Passes take turns with the value, and each knows
//! which entries it has seen and which it added.
#![tactic(auto)]

mod board;
mod grows;
mod lock;
mod maker;
mod note;
mod pass;
mod plays;
mod steps;
mod turn;

pub use grows::Grows;
pub use lock::{LockRefused, TurnLock};
pub use maker::Maker;
pub use note::Note;
pub use pass::Pass;
pub use turn::Turn;
