//! Why a reader reads no further.
ghost use Rattle.std.specs.Prelude.{◌≡◌};
ghost use Rattle.live_search.specs.declared.refusal.LiveRefusal.TheVariants.{OutOfMemory};
ghost use Rattle.live_search.specs.Refused.{from_print, from_found};

use disk_seal::FoundRefusal;
use sink_pieces::PrintRefusal;
use std::alloc::AllocError;
use thiserror::Error;

/// Why a reader reads no further.
#[derive(Clone, Copy, Debug, PartialEq, Eq, Error)]
pub enum LiveRefusal {
    /// A call of the disk failed, and nothing more is appended.
    #[error("the disk failed")]
    DiskFault,
    /// The output cannot be written: its count of faults rose.
    #[error("the output failed")]
    SinkFault,
    /// At the place `at` no record of the journal was found, or one that is no entry that may follow.
    /// Never comes over a disk that tells its bytes.
    #[error("damaged at {at}")]
    Damaged { at: u64 },
    /// There was no memory.
    #[error("out of memory")]
    OutOfMemory,
}

impl From<AllocError> for LiveRefusal {
    ghost from_gives = { λ _ e. e ≡ OutOfMemory };

    fn from(_error: AllocError) -> Self {
        LiveRefusal::OutOfMemory
    }
}

impl From<PrintRefusal> for LiveRefusal {
    ghost from_gives = { λ r e. e ≡ from_print r };

    fn from(refusal: PrintRefusal) -> Self {
        match refusal {
            PrintRefusal::SinkFault => LiveRefusal::SinkFault,
            PrintRefusal::OutOfMemory => LiveRefusal::OutOfMemory,
        }
    }
}

/// The refusal of a look at the journal.
pub(crate) fn of_found(refusal: FoundRefusal) -> LiveRefusal
    ensures { result ≡ from_found refusal }
{
    match refusal {
        FoundRefusal::DiskFault { .. } => LiveRefusal::DiskFault,
        FoundRefusal::Damaged { at } => LiveRefusal::Damaged { at },
        FoundRefusal::OutOfMemory => LiveRefusal::OutOfMemory,
    }
}
