//! Why a row was not renamed.
ghost use Rattle.std.specs.Prelude.{◌≡◌};
ghost use Rattle.row_rename.specs.Causes.{refused_by};
ghost use Rattle.row_rename.specs.declared.refusal.RenameRefusal.TheVariants.{OutOfMemory};

use row_codec::{NameRefusal, Which};
use std::alloc::{AllocError, AllocFailed};
use thiserror::Error;

/// Why a row was not renamed.
#[derive(Clone, Copy, Debug, PartialEq, Eq, Error)]
pub enum RenameRefusal {
    /// A text of the row is new, and the dictionary has as many texts as it may.
    #[error("a dictionary is full at {count}")]
    Full {
        /// The dictionary.
        book: Which,
        /// How many texts it has, which is its limit.
        count: u32,
    },
    /// A number of the row has no text that a dictionary may hold, or the row has not one word for each
    /// slot of its log type.
    #[error("the row's numbers stand for no texts")]
    Damaged,
    /// Memory ran out.
    #[error("out of memory")]
    OutOfMemory,
}

impl From<NameRefusal> for RenameRefusal {
    ghost from_gives = { λ refusal e. e ≡ refused_by refusal };

    fn from(refusal: NameRefusal) -> RenameRefusal {
        match refusal {
            NameRefusal::Full { book, count } => RenameRefusal::Full { book, count },
            NameRefusal::OutOfMemory => RenameRefusal::OutOfMemory,
        }
    }
}

impl From<AllocError> for RenameRefusal {
    ghost from_gives = { λ _ e. e ≡ OutOfMemory };

    fn from(_error: AllocError) -> RenameRefusal {
        RenameRefusal::OutOfMemory
    }
}

impl<T: Drop> From<AllocFailed<T>> for RenameRefusal {
    ghost from_gives = { λ _ e. e ≡ OutOfMemory };

    fn from(_error: AllocFailed<T>) -> RenameRefusal {
        RenameRefusal::OutOfMemory
    }
}
