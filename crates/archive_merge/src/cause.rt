//! Why not all files were taken over.
ghost use Rattle.std.specs.Prelude.{◌≡◌};
ghost use Rattle.archive_merge.specs.Causes.{IsOfSealing, cause_by, cause_of_sealing};

use crate::stop::Stop;
use ingest_workers::Cause;
use row_codec::Which;
use thiserror::Error;

/// Why not all messages of the second archive were sealed in the first.
#[derive(Clone, Copy, Debug, PartialEq, Eq, Error)]
pub enum MergeCause {
    /// A text is new, and the first archive's dictionary has as many texts as it may.
    #[error("a dictionary is full at {count}")]
    Full {
        /// The dictionary.
        book: Which,
        /// How many texts it has, which is its limit.
        count: u32,
    },
    /// A segment with the texts before it does not fit the first archive's limit of length.
    #[error("the archive is full: it ends at {end}, and {need} bytes more were needed")]
    ArchiveFull {
        /// The archive's end.
        end: u64,
        /// How many bytes the records need.
        need: u64,
    },
    /// A call of the first archive's disk failed, now or earlier, and the store is stopped.
    #[error("the disk failed, {opened} faults at the opening and {now} now")]
    FirstFault {
        /// The disk's count of faults when the store was opened.
        opened: u64,
        /// The count at the fault that stopped the store.
        now: u64,
    },
    /// A call of the second archive's disk failed: its count of faults rose.
    #[error("the second archive's disk failed")]
    SecondFault,
    /// The second archive's bytes stand for no legal archive.
    #[error("the second archive is damaged")]
    SecondDamaged,
    /// Memory ran out.
    #[error("out of memory")]
    OutOfMemory,
}

impl From<Stop> for MergeCause {
    ghost from_gives = { λ stop e. e ≡ cause_by stop };

    fn from(stop: Stop) -> MergeCause {
        match stop {
            Stop::Full { book, count } => MergeCause::Full { book, count },
            Stop::SecondDamaged => MergeCause::SecondDamaged,
            Stop::SecondFault => MergeCause::SecondFault,
            Stop::OutOfMemory => MergeCause::OutOfMemory,
        }
    }
}

/// Why a segment was not sealed.
pub(crate) fn of_sealing(cause: Cause) -> MergeCause
    requires { IsOfSealing cause }
    ensures { result ≡ cause_of_sealing cause }
{
    match cause {
        Cause::ArchiveFull { end, need } => MergeCause::ArchiveFull { end, need },
        Cause::DiskFault { opened, now } => MergeCause::FirstFault { opened, now },
        Cause::OutOfMemory => MergeCause::OutOfMemory,
        Cause::ReadFault => unreachable!(),
        Cause::LineTooLong { .. } => unreachable!(),
        Cause::TooManyLines => unreachable!(),
        Cause::Full { .. } => unreachable!(),
    }
}
