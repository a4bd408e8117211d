//! The commands that only read an archive: `files`, `check`, `decode` and `search`.
#![tactic(auto)]

mod check_archive;
mod decode;
mod list_files;
mod search;

pub use check_archive::check;
pub use decode::decode_file;
pub use list_files::files;
pub use search::search_messages;
