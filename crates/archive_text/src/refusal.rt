//! Why the text of a file was not written into a sink.
ghost use Rattle.std.specs.Prelude.{◌≡◌};
ghost use Rattle.archive_text.specs.declared.refusal.DecodeRefusal.TheVariants.{OutOfMemory, SinkFault};
ghost use Rattle.archive_text.specs.Sent.{of_page};

use log_seams::Failed;
use segment_pages::PageRefusal;
use std::alloc::AllocError;
use thiserror::Error;

/// Why the text of a file was not written into a sink.
#[derive(Clone, Copy, Debug, PartialEq, Eq, Error)]
pub enum DecodeRefusal {
    /// A call of the disk failed: its count of faults rose.
    #[error("the disk failed")]
    DiskFault,
    /// The bytes are no archive.
    #[error("damaged")]
    Damaged,
    /// The sink cannot be written: its count of faults rose.
    #[error("the output failed")]
    SinkFault,
    /// There was no memory.
    #[error("out of memory")]
    OutOfMemory,
}

impl From<AllocError> for DecodeRefusal {
    ghost from_gives = { λ _ e. e ≡ OutOfMemory };

    fn from(_error: AllocError) -> Self {
        DecodeRefusal::OutOfMemory
    }
}

/// A write that failed.
impl From<Failed> for DecodeRefusal {
    ghost from_gives = { λ _ e. e ≡ SinkFault };

    fn from(_: Failed) -> Self {
        DecodeRefusal::SinkFault
    }
}

impl From<PageRefusal> for DecodeRefusal {
    ghost from_gives = { λ r e. e ≡ of_page r };

    fn from(refusal: PageRefusal) -> Self {
        match refusal {
            PageRefusal::DiskFault => DecodeRefusal::DiskFault,
            PageRefusal::Damaged => DecodeRefusal::Damaged,
            PageRefusal::OutOfMemory => DecodeRefusal::OutOfMemory,
        }
    }
}
