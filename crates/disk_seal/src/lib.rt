//! Sealing: the segments of an archive, and the texts that they name, behind the keeper's lock.
#![tactic(auto)]

mod add;
mod beside;
mod collect;
mod draft;
mod entry;
mod faults;
mod files;
mod fixed;
mod found;
mod framing;
mod looks;
mod namer;
mod opened;
mod pieces;
mod plan;
mod prepared;
mod store;
mod turns;

pub use beside::{Alone, Beside};
pub use draft::Draft;
pub use entry::StoreEntry;
pub use faults::DiskFault;
pub use files::register;
pub use fixed::{LockId, StoreFixed};
pub use found::{Found, FoundRefusal};
pub use ingest_meaning::RegisterRefusal;
pub use looks::{Look, Looks};
pub use namer::{CachedPasses, LockNamer, Notes, Passes};
pub use opened::Opened;
pub use plan::PrepareRefusal;
pub use prepared::{Prepared, Receipt, prepare};
pub use store::{Keeper, Store, StorePasses};
pub use turns::Turns;
