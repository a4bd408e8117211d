//! The refusals of what is outside.
ghost use Rattle.std.specs.Prelude.{◌≡◌};
ghost use Rattle.log_seams.specs.declared.refusals.OpenRefused.TheVariants.{OutOfMemory};

use std::alloc::{AllocError, AllocFailed};
use thiserror::Error;

/// A call of a source, a sink or a disk failed. Its count of faults rose.
#[derive(Clone, Copy, Debug, PartialEq, Eq, Error)]
#[error("the call failed")]
pub struct Failed;

/// Why a log was not opened.
#[derive(Clone, Copy, Debug, PartialEq, Eq, Error)]
pub enum OpenRefused {
    /// It cannot be opened: the count of faults in opening its name rose.
    #[error("cannot open")]
    Failed,
    /// There was no memory.
    #[error("out of memory")]
    OutOfMemory,
}

impl From<AllocError> for OpenRefused {
    ghost from_gives = { λ _ e. e ≡ OutOfMemory };

    fn from(_: AllocError) -> Self {
        OpenRefused::OutOfMemory
    }
}

impl<T: Drop> From<AllocFailed<T>> for OpenRefused {
    ghost from_gives = { λ _ e. e ≡ OutOfMemory };

    fn from(_: AllocFailed<T>) -> Self {
        OpenRefused::OutOfMemory
    }
}
