//! The files of an archive as the jobs of an ingest into another one.
#![tactic(auto)]

mod file_jobs;
mod file_opener;
mod file_source;
mod lent;
mod stored_file;

pub use file_jobs::jobs_of;
pub use file_opener::FileOpener;
pub use file_source::FileSource;
pub use lent::Lent;
pub use stored_file::StoredFile;
