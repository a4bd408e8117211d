//! Why a segment of the second archive was not taken over.
ghost use Rattle.std.specs.Prelude.{◌≡◌};
ghost use Rattle.archive_merge.specs.Stops.{stop_by, stop_by_page};
ghost use Rattle.archive_merge.specs.declared.stop.Stop.TheVariants.{OutOfMemory};

use row_codec::Which;
use row_rename::RenameRefusal;
use segment_pages::PageRefusal;
use std::alloc::{AllocError, AllocFailed};
use thiserror::Error;

/// Why rows of the second archive were not taken over.
#[derive(Clone, Copy, Debug, PartialEq, Eq, Error)]
pub enum Stop {
    /// A text is new, and the first archive's dictionary has as many texts as it may.
    #[error("a dictionary is full at {count}")]
    Full {
        /// The dictionary.
        book: Which,
        /// How many texts it has, which is its limit.
        count: u32,
    },
    /// The second archive's rows are not those of a legal archive.
    #[error("the second archive is damaged")]
    SecondDamaged,
    /// A call of the second archive's disk failed: its count of faults rose.
    #[error("the second archive's disk failed")]
    SecondFault,
    /// Memory ran out.
    #[error("out of memory")]
    OutOfMemory,
}

impl From<RenameRefusal> for Stop {
    ghost from_gives = { λ refusal e. e ≡ stop_by refusal };

    fn from(refusal: RenameRefusal) -> Stop {
        match refusal {
            RenameRefusal::Full { book, count } => Stop::Full { book, count },
            RenameRefusal::Damaged => Stop::SecondDamaged,
            RenameRefusal::OutOfMemory => Stop::OutOfMemory,
        }
    }
}

impl From<PageRefusal> for Stop {
    ghost from_gives = { λ refusal e. e ≡ stop_by_page refusal };

    fn from(refusal: PageRefusal) -> Stop {
        match refusal {
            PageRefusal::DiskFault => Stop::SecondFault,
            PageRefusal::Damaged => Stop::SecondDamaged,
            PageRefusal::OutOfMemory => Stop::OutOfMemory,
        }
    }
}

impl From<AllocError> for Stop {
    ghost from_gives = { λ _ e. e ≡ OutOfMemory };

    fn from(_error: AllocError) -> Stop {
        Stop::OutOfMemory
    }
}

impl<T: Drop> From<AllocFailed<T>> for Stop {
    ghost from_gives = { λ _ e. e ≡ OutOfMemory };

    fn from(_error: AllocFailed<T>) -> Stop {
        Stop::OutOfMemory
    }
}
