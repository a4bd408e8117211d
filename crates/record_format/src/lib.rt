//! The header of an archive and its small records, as bytes and back.
//!
//! Each value has one spelling, and no bytes spell two values. A reader answers a value exactly
//! where the bytes are its spelling, all of them; a writer gives the spelling.
#![tactic(auto)]

mod files;
mod header;
mod kinds;
mod laws;
mod list;
mod refusal;
mod texts;

pub use files::{read_files, write_files};
pub use header::{
    HEADER_LEN, Header, LAST_VERSION, MAX_ARCHIVE_LEN, MAX_TYPES, MAX_WORDS, MIN_ARCHIVE_LEN,
    read_header, write_header,
};
pub use kinds::{FILES_KIND, SEGMENT_KIND, TYPES_KIND, WORDS_KIND};
pub use laws::{files_are_unique, headers_are_unique, texts_are_unique};
pub use list::{next_text, room_for};
pub use refusal::FormatRefusal;
pub use texts::{Texts, TextsFront, read_texts, texts_front, write_texts};
