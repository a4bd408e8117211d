//! Log types: a body split into its constant bytes and its variables, and the text that a log type
//! is stored as.
//!
//! The symbols of a body are its constant bytes and a slot for each variable, which holds the
//! variable's kind; the spans say where in the body the variables stand, and the codes as what words
//! they are stored. Two bodies have the same log type where their symbols are the same.
#![tactic(auto)]

mod encoding;
mod laws;
mod plain;
mod spans;
mod splitting;
mod symbols;
mod text;

pub use encoding::encode_body;
pub use laws::{one_list_of_parts, one_type_text, parts_are_cut};
pub use plain::plain_front;
pub use spans::{CodedList, Span, Spans, Split};
pub use splitting::split;
pub use symbols::{Kind, Symbol, Symbols};
pub use text::{TextRefusal, first_symbol, from_text, needs_escape, text_ok, to_text};

/// The most bytes that the text of a log type may have: each byte of the longest body with a `\`.
pub const MAX_TYPE_LEN: usize = 2 * MAX_WORD_LEN;

/// The most bytes that a word of a dictionary may have: those of the longest message.
pub const MAX_WORD_LEN: usize = 1_048_576;
