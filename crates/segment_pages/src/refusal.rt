//! Why a page was not read.
ghost use Rattle.std.specs.Prelude.{◌≡◌};
ghost use Rattle.segment_pages.specs.declared.refusal.PageRefusal.TheVariants.{DiskFault, OutOfMemory};
ghost use Rattle.segment_pages.specs.Refused.{from_format};

use log_seams::Failed;
use segment_format::FormatRefusal;
use std::alloc::AllocError;
use thiserror::Error;

/// Why a page was not read.
#[derive(Clone, Copy, Debug, PartialEq, Eq, Error)]
pub enum PageRefusal {
    /// A call of the disk failed: its count of faults rose.
    #[error("the disk failed")]
    DiskFault,
    /// The disk ends within the segment, or the page's counts do not fit the segment's head.
    #[error("damaged")]
    Damaged,
    /// There was no memory.
    #[error("out of memory")]
    OutOfMemory,
}

impl From<Failed> for PageRefusal {
    ghost from_gives = { λ _ e. e ≡ DiskFault };

    fn from(_: Failed) -> Self {
        PageRefusal::DiskFault
    }
}

impl From<AllocError> for PageRefusal {
    ghost from_gives = { λ _ e. e ≡ OutOfMemory };

    fn from(_: AllocError) -> Self {
        PageRefusal::OutOfMemory
    }
}

impl From<FormatRefusal> for PageRefusal {
    ghost from_gives = { λ r e. e ≡ from_format r };

    fn from(refusal: FormatRefusal) -> Self {
        match refusal {
            FormatRefusal::Malformed => PageRefusal::Damaged,
            FormatRefusal::OutOfMemory => PageRefusal::OutOfMemory,
        }
    }
}
