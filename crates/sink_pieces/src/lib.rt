//! Bytes on their way to a sink: whole texts, and many small ones gathered into pieces.
#![tactic(auto)]

mod pieces;
mod refusal;

pub use pieces::{PIECE, flush, flush_piece, write_all};
pub use refusal::PrintRefusal;
