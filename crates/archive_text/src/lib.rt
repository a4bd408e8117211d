//! The text of one file of an archive, written out a page of rows at a time: as a source, or into a
//! sink.
#![tactic(auto)]

mod cause;
mod decoding;
mod file_text;
mod giving;
mod laws;
mod lines;
mod page;
mod places;
mod refusal;
mod stored_text;
mod told_text;
mod walk;

pub use cause::TextCause;
pub use decoding::decode;
pub use file_text::{ClosedText, FileText};
pub use laws::one_text;
pub use refusal::DecodeRefusal;
pub use stored_text::StoredText;
pub use walk::TextRoom;
