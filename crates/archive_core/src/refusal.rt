//! Why an entry was not admitted.
ghost use Rattle.std.specs.Prelude.{◌≡◌};
ghost use Rattle.archive_core.specs.declared.refusal.JudgeRefusal.TheVariants.{OutOfMemory};

use std::alloc::AllocError;
use thiserror::Error;

/// Why a judge did not admit an entry.
#[derive(Clone, Copy, Debug, PartialEq, Eq, Error)]
pub enum JudgeRefusal {
    /// The journal with this entry is not legal.
    #[error("not legal")]
    Illegal,
    /// There was no memory to decide.
    #[error("out of memory")]
    OutOfMemory,
}

impl From<AllocError> for JudgeRefusal {
    ghost from_gives = { λ _ e. e ≡ OutOfMemory };

    fn from(_: AllocError) -> Self {
        JudgeRefusal::OutOfMemory
    }
}
