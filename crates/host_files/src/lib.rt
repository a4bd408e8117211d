//! The system's files and streams behind the traits of `log_seams`.
#![tactic(auto)]

mod disk_file;
mod faults;
mod file_id;
mod file_part;
mod locked_file;
mod log_file;
mod offsets;
mod place;
mod stream;

pub use disk_file::DiskFile;
pub use file_id::FileId;
pub use file_part::FilePart;
pub use log_file::{Input, LogFile, LogFiles};
pub use place::{FilePath, OffsetFile, Place};
pub use stream::{Output, Standard, Stream};
