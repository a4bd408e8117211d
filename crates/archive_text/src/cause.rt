//! Why the text of a file cannot be had.
ghost use Rattle.std.specs.Prelude.{◌≡◌};
ghost use Rattle.archive_text.specs.declared.cause.TextCause.TheVariants.{OutOfMemory};
ghost use Rattle.archive_text.specs.Caused.{from_page};

use segment_pages::PageRefusal;
use std::alloc::AllocError;
use thiserror::Error;

/// Why the text of a file cannot be had.
#[derive(Clone, Copy, Debug, PartialEq, Eq, Error)]
pub enum TextCause {
    /// A call of the disk failed: its count of faults rose.
    #[error("the disk failed")]
    DiskFault,
    /// The bytes are no archive.
    #[error("damaged")]
    Damaged,
    /// There was no memory.
    #[error("out of memory")]
    OutOfMemory,
    /// It was not to be read.
    #[error("not to be read")]
    Refused,
}

impl From<AllocError> for TextCause {
    ghost from_gives = { λ _ e. e ≡ OutOfMemory };

    fn from(_error: AllocError) -> Self {
        TextCause::OutOfMemory
    }
}

impl From<PageRefusal> for TextCause {
    ghost from_gives = { λ r e. e ≡ from_page r };

    fn from(refusal: PageRefusal) -> Self {
        match refusal {
            PageRefusal::DiskFault => TextCause::DiskFault,
            PageRefusal::Damaged => TextCause::Damaged,
            PageRefusal::OutOfMemory => TextCause::OutOfMemory,
        }
    }
}
