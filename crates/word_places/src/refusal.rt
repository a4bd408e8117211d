//! Why words were not read.
ghost use Rattle.std.specs.Prelude.{◌≡◌};
ghost use Rattle.word_places.specs.declared.refusal.HoldRefusal.TheVariants.{DiskFault, OutOfMemory};

use log_seams::Failed;
use std::alloc::AllocError;
use thiserror::Error;

/// Why words were not read.
#[derive(Clone, Copy, Debug, PartialEq, Eq, Error)]
pub enum HoldRefusal {
    /// A call of the disk failed: its count of faults rose.
    #[error("the disk failed")]
    DiskFault,
    /// The disk ends within the record, or its payload spells no words with these numbers.
    #[error("damaged")]
    Damaged,
    /// There was no memory.
    #[error("out of memory")]
    OutOfMemory,
}

impl From<Failed> for HoldRefusal {
    ghost from_gives = { λ _ e. e ≡ DiskFault };

    fn from(_: Failed) -> Self {
        HoldRefusal::DiskFault
    }
}

impl From<AllocError> for HoldRefusal {
    ghost from_gives = { λ _ e. e ≡ OutOfMemory };

    fn from(_: AllocError) -> Self {
        HoldRefusal::OutOfMemory
    }
}
