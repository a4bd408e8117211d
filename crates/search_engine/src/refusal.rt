//! Why rows were not printed, and segments not searched.
ghost use Rattle.std.specs.Prelude.{◌≡◌};
ghost use Rattle.search_engine.specs.declared.refusal.PrintRefusal.TheVariants.{OutOfMemory as NoMemory};
ghost use Rattle.search_engine.specs.Refused.{from_print, from_text};

use search_walk::SearchRefusal;
use std::alloc::AllocError;
use thiserror::Error;

/// Why rows were not printed.
#[derive(Clone, Copy, Debug, PartialEq, Eq, Error)]
pub(crate) enum PrintRefusal {
    /// A row cannot be written, as none of an archive.
    #[error("damaged")]
    Damaged,
    /// There was no memory.
    #[error("out of memory")]
    OutOfMemory,
}

impl From<AllocError> for PrintRefusal {
    ghost from_gives = { λ _ e. e ≡ NoMemory };

    fn from(_: AllocError) -> Self {
        PrintRefusal::OutOfMemory
    }
}

impl From<PrintRefusal> for SearchRefusal {
    ghost from_gives = { λ r e. e ≡ from_print r };

    fn from(refusal: PrintRefusal) -> Self {
        match refusal {
            PrintRefusal::Damaged => SearchRefusal::Damaged,
            PrintRefusal::OutOfMemory => SearchRefusal::OutOfMemory,
        }
    }
}

/// The refusal of a search into a text: one that cannot grow is want of memory.
pub(crate) fn in_text(refusal: SearchRefusal) -> SearchRefusal
    ensures { result ≡ from_text refusal }
{
    match refusal {
        SearchRefusal::SinkFault => SearchRefusal::OutOfMemory,
        other => other,
    }
}
