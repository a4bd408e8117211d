//! Why files got no numbers.
ghost use Rattle.std.specs.Prelude.{◌≡◌};
ghost use Rattle.ingest_meaning.specs.declared.refusal.RegisterRefusal.TheVariants.{OutOfMemory};

use std::alloc::AllocError;
use thiserror::Error;

/// Why files got no numbers.
#[derive(Clone, Copy, Debug, PartialEq, Eq, Error)]
pub enum RegisterRefusal {
    /// There was no memory.
    #[error("out of memory")]
    OutOfMemory,
    /// The record does not fit the archive's limit of length: its end is `end`, and the record needs `need`
    /// bytes.
    #[error("full at {end}, which {need} bytes more do not fit")]
    ArchiveFull { end: u64, need: u64 },
    /// A call of the disk failed: its count of faults rose. Nothing more is to be appended to the journal.
    #[error("the disk failed")]
    DiskFault,
}

impl From<AllocError> for RegisterRefusal {
    ghost from_gives = { λ _ e. e ≡ OutOfMemory };

    fn from(_: AllocError) -> Self {
        RegisterRefusal::OutOfMemory
    }
}
