//! What came of a job.
ghost use Rattle.std.specs.Prelude.{◌≡◌};
ghost use Rattle.ingest_workers.specs.declared.outcome.Cause.TheVariants.{OutOfMemory};

use row_codec::Which;
use std::alloc::AllocError;
use thiserror::Error;

/// Why not all messages of a file were sealed.
#[derive(Clone, Copy, Debug, PartialEq, Eq, Error)]
pub enum Cause {
    /// A read of the source failed; its count of faults rose.
    #[error("read failed")]
    ReadFault,
    /// The line with this number, from 1, is longer than a line may be.
    #[error("line {line} is too long")]
    LineTooLong {
        line: u64,
    },
    /// A further message begins behind as many as a file may have.
    #[error("too many lines")]
    TooManyLines,
    /// A text of a message is new, and its dictionary has as many texts as it may.
    #[error("a dictionary is full at {count}")]
    Full {
        /// The dictionary.
        book: Which,
        /// How many texts it has.
        count: u32,
    },
    /// A call of the archive's disk failed, now or earlier, and the store is stopped.
    #[error("the disk failed, {opened} faults at the opening and {now} now")]
    DiskFault {
        /// The disk's count of faults when the store was opened.
        opened: u64,
        /// The count at the fault that stopped the store.
        now: u64,
    },
    /// There was no memory.
    #[error("out of memory")]
    OutOfMemory,
    /// A segment with the texts before it does not fit the archive's limit of length.
    #[error("the archive is full: it ends at {end}, and {need} bytes more were needed")]
    ArchiveFull {
        /// The archive's end.
        end: u64,
        /// How many bytes the records need.
        need: u64,
    },
}

impl From<AllocError> for Cause {
    ghost from_gives = { λ _ e. e ≡ OutOfMemory };

    fn from(_error: AllocError) -> Cause {
        Cause::OutOfMemory
    }
}

/// What came of a job.
#[derive(Clone, Copy, Debug, PartialEq, Eq)]
pub struct Outcome {
    /// How many messages of the file the disk has, durably.
    pub messages: u64,
    /// Whether these are all messages of the source, and the file is marked whole; a part is not.
    pub whole: bool,
    /// Why they are not all; of a source that was not opened no cause is told.
    pub cause: Option<Cause>,
}
