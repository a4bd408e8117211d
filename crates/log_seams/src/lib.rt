//! What is outside of the store, as traits whose contracts say what each call does.
#![tactic(auto)]

mod calls;
mod closed_logs;
mod disk;
mod mem_disk;
mod mem_part;
mod mem_shelf;
mod mem_sink;
mod mem_source;
mod refusals;
mod returned;
mod shared_disk;
mod shelf;
mod sink;
mod source;

pub use disk::Disk;
pub use mem_disk::{MemDisk, Pending};
pub use mem_part::MemPart;
pub use mem_shelf::{MemFile, MemShelf, ShelfSource};
pub use mem_sink::MemSink;
pub use mem_source::{MemSource, PlainSource};
pub use refusals::{Failed, OpenRefused};
pub use shared_disk::{SharedDisk, add_faults};
pub use shelf::Shelf;
pub use sink::Sink;
pub use source::Source;
