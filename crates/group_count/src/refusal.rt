//! Why rows were not counted, or a table gave no groups.
ghost use Rattle.std.specs.Prelude.{◌≡◌};
ghost use Rattle.group_count.specs.declared.refusal.TableRefusal.TheVariants.{OutOfMemory};
ghost use Rattle.group_count.specs.Refused.{from_table};

use search_walk::SearchRefusal;
use std::alloc::{AllocError, AllocFailed};
use thiserror::Error;

/// Why rows were not counted, or a table gave no groups.
#[derive(Clone, Copy, Debug, PartialEq, Eq, Error)]
pub enum TableRefusal {
    /// A row is none of an archive, or a number that was counted has no text.
    #[error("damaged")]
    Damaged,
    /// Memory ran out.
    #[error("out of memory")]
    OutOfMemory,
}

impl From<AllocError> for TableRefusal {
    ghost from_gives = { λ _ e. e ≡ OutOfMemory };

    fn from(_error: AllocError) -> TableRefusal {
        TableRefusal::OutOfMemory
    }
}

impl<T: Drop> From<AllocFailed<T>> for TableRefusal {
    ghost from_gives = { λ _ e. e ≡ OutOfMemory };

    fn from(_error: AllocFailed<T>) -> TableRefusal {
        TableRefusal::OutOfMemory
    }
}

impl From<TableRefusal> for SearchRefusal {
    ghost from_gives = { λ r e. e ≡ from_table r };

    fn from(refusal: TableRefusal) -> Self {
        match refusal {
            TableRefusal::Damaged => SearchRefusal::Damaged,
            TableRefusal::OutOfMemory => SearchRefusal::OutOfMemory,
        }
    }
}
