//! Messages as rows, and back to the same bytes.
//!
//! A message is a stamp, or none, and a body. A row has the stamp's pattern and moment, the number of
//! the body's log type and a word for each of its variables. What is stored of a message is its row:
//! the texts that it names stand in two dictionaries, that of log types and that of words.
#![tactic(auto)]

mod canonical;
mod cutting;
mod encoder;
mod expanding;
mod fitting;
mod laws;
mod laying;
mod layouts;
mod message;
mod namer;
mod names;
mod opening;
mod runs;
mod stores;
mod writer;

pub use canonical::row_ok;
pub use encoder::Encoder;
pub use expanding::{expand, expand_onto, write_fitting, write_onto};
pub use fitting::row_fits;
pub use laws::{canonical_stays, means_one, one_row};
pub use layouts::Layouts;
use logtype_text::MAX_WORD_LEN;
pub use message::{Encoded, encode_message};
pub use namer::{NameRefusal, Namer, Which};
pub use names::Names;
pub use writer::RowWriter;

/// The most bytes that a message may have.
pub const MAX_MESSAGE_LEN: usize = MAX_WORD_LEN;
