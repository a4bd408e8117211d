//! Why a search has stopped.
ghost use Rattle.std.specs.Prelude.{◌≡◌};
ghost use Rattle.search_walk.specs.declared.refusal.SearchRefusal.TheVariants.{OutOfMemory, SinkFault};
ghost use Rattle.search_walk.specs.Refused.{from_hold, from_page};

use log_seams::Failed;
use segment_pages::PageRefusal;
use std::alloc::AllocError;
use thiserror::Error;
use word_places::HoldRefusal;

/// Why a search has stopped.
#[derive(Clone, Copy, Debug, PartialEq, Eq, Error)]
pub enum SearchRefusal {
    /// A call of the disk failed: its count of faults rose.
    #[error("the disk failed")]
    DiskFault,
    /// A write to the output failed: its count of faults rose.
    #[error("the output failed")]
    SinkFault,
    /// The bytes of the disk are no archive.
    #[error("damaged")]
    Damaged,
    /// There was no memory.
    #[error("out of memory")]
    OutOfMemory,
}

impl From<AllocError> for SearchRefusal {
    ghost from_gives = { λ _ e. e ≡ OutOfMemory };

    fn from(_: AllocError) -> Self {
        SearchRefusal::OutOfMemory
    }
}

impl From<Failed> for SearchRefusal {
    ghost from_gives = { λ _ e. e ≡ SinkFault };

    fn from(_: Failed) -> Self {
        SearchRefusal::SinkFault
    }
}

impl From<PageRefusal> for SearchRefusal {
    ghost from_gives = { λ r e. e ≡ from_page r };

    fn from(refusal: PageRefusal) -> Self {
        match refusal {
            PageRefusal::DiskFault => SearchRefusal::DiskFault,
            PageRefusal::Damaged => SearchRefusal::Damaged,
            PageRefusal::OutOfMemory => SearchRefusal::OutOfMemory,
        }
    }
}

impl From<HoldRefusal> for SearchRefusal {
    ghost from_gives = { λ r e. e ≡ from_hold r };

    fn from(refusal: HoldRefusal) -> Self {
        match refusal {
            HoldRefusal::DiskFault => SearchRefusal::DiskFault,
            HoldRefusal::Damaged => SearchRefusal::Damaged,
            HoldRefusal::OutOfMemory => SearchRefusal::OutOfMemory,
        }
    }
}
