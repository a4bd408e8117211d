//! Why a text was not sent whole.
ghost use Rattle.std.specs.Prelude.{◌≡◌};
ghost use Rattle.sink_pieces.specs.declared.refusal.PrintRefusal.TheVariants.{OutOfMemory, SinkFault};

use log_seams::Failed;
use std::alloc::AllocError;
use thiserror::Error;

/// Why a text was not sent whole, whose pieces are gathered in memory.
#[derive(Clone, Copy, Debug, PartialEq, Eq, Error)]
pub enum PrintRefusal {
    /// The sink cannot be written: its count of faults rose.
    #[error("the output failed")]
    SinkFault,
    /// There was no memory.
    #[error("out of memory")]
    OutOfMemory,
}

impl From<Failed> for PrintRefusal {
    ghost from_gives = { λ _ e. e ≡ SinkFault };

    fn from(_: Failed) -> Self {
        PrintRefusal::SinkFault
    }
}

impl From<AllocError> for PrintRefusal {
    ghost from_gives = { λ _ e. e ≡ OutOfMemory };

    fn from(_: AllocError) -> Self {
        PrintRefusal::OutOfMemory
    }
}
