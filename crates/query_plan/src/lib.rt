//! What a search pattern can mean against messages that are stored as constant bytes and variables.
#![tactic(auto)]

mod laws;
mod letters;
mod needed;
mod pieces;
mod plain;
mod planning;
mod skeleton;
mod slots;
mod symbols;

pub use laws::{
    chunks_are_brought, constants_suffice, needs_are_brought, readings_are_exact, texts_stand,
    tokens_are_brought, wide_is_wider,
};
pub use letters::{Letters, matches_letters};
pub use pieces::{MAX_OPEN_TOKENS, Piece};
pub use plain::is_plain;
pub use planning::Plan;
pub use skeleton::is_foreign;
pub use slots::{may_begin, may_stand};
pub use symbols::{VarSymbol, VarSymbols};
