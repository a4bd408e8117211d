//! Why an archive was not opened.
ghost use Rattle.std.specs.Prelude.{◌≡◌};
ghost use Rattle.archive_open.specs.declared.refusal.ArchiveRefusal.TheVariants.{OutOfMemory};
ghost use Rattle.archive_open.specs.Refused.{from_load, from_start, from_walk};

use disk_journal::{LoadRefusal, StartRefusal, WalkRefusal};
use std::alloc::AllocError;
use thiserror::Error;

/// Why an archive was not opened.
#[derive(Clone, Copy, Debug, PartialEq, Eq, Error)]
pub enum ArchiveRefusal {
    /// A call of the disk failed: its count of faults rose.
    #[error("the disk failed")]
    DiskFault,
    /// The bytes are no archive; `at` is a gate that is not before the first damage, or 0 where
    /// they begin with no header.
    #[error("damaged at {at}")]
    Damaged { at: u64 },
    /// There was no memory.
    #[error("out of memory")]
    OutOfMemory,
}

impl From<StartRefusal> for ArchiveRefusal {
    ghost from_gives = { λ r e. e ≡ from_start r };

    fn from(refusal: StartRefusal) -> Self {
        match refusal {
            StartRefusal::DiskFault => ArchiveRefusal::DiskFault,
            StartRefusal::Damaged { at } => ArchiveRefusal::Damaged { at },
        }
    }
}

impl From<WalkRefusal> for ArchiveRefusal {
    ghost from_gives = { λ r e. e ≡ from_walk r };

    fn from(refusal: WalkRefusal) -> Self {
        match refusal {
            WalkRefusal::DiskFault => ArchiveRefusal::DiskFault,
            WalkRefusal::Damaged { at } => ArchiveRefusal::Damaged { at },
        }
    }
}

impl From<LoadRefusal> for ArchiveRefusal {
    ghost from_gives = { λ r e. e ≡ from_load r };

    fn from(refusal: LoadRefusal) -> Self {
        match refusal {
            LoadRefusal::DiskFault => ArchiveRefusal::DiskFault,
            LoadRefusal::Damaged { at } => ArchiveRefusal::Damaged { at },
            LoadRefusal::OutOfMemory => ArchiveRefusal::OutOfMemory,
        }
    }
}

impl From<AllocError> for ArchiveRefusal {
    ghost from_gives = { λ _ e. e ≡ OutOfMemory };

    fn from(_: AllocError) -> Self {
        ArchiveRefusal::OutOfMemory
    }
}
