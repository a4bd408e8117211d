//! Why a record could not be read.

ghost use Rattle.std.specs.Prelude.{◌≡◌};
ghost use Rattle.record_format.specs.declared.refusal.FormatRefusal.TheVariants.{OutOfMemory};

use std::alloc::AllocError;
use thiserror::Error;

/// Why bytes could not be read as a record.
#[derive(Clone, Copy, Debug, PartialEq, Eq, Error)]
pub enum FormatRefusal {
    /// The bytes spell no value: a field passes their end, or bytes stand after the last field.
    #[error("malformed")]
    Malformed,
    /// There was no memory for the value.
    #[error("out of memory")]
    OutOfMemory,
}

impl From<AllocError> for FormatRefusal {
    ghost from_gives = { λ _ e. e ≡ OutOfMemory };

    fn from(_: AllocError) -> Self {
        FormatRefusal::OutOfMemory
    }
}
