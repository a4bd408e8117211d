//! Why a call on a book refused, one enum for each call.
ghost use Rattle.std.specs.Prelude.{◌≡◌};
ghost use Rattle.dict_core.specs.declared.refusals.BookRefusal.TheVariants.{OutOfMemory as no_memory};
ghost use Rattle.dict_core.specs.declared.refusals.IndexRefusal.TheVariants.{OutOfMemory as no_memory_for_index};

use std::alloc::AllocError;
use thiserror::Error;

/// Why a text was not named.
#[derive(Clone, Copy, Debug, PartialEq, Eq, Error)]
pub enum BookRefusal {
    /// The text is not in the book, and `count` texts, its limit, are.
    #[error("full at {count}")]
    Full { count: u32 },
    /// There was no memory.
    #[error("out of memory")]
    OutOfMemory,
}

/// Why no book was made of some texts.
#[derive(Clone, Copy, Debug, PartialEq, Eq, Error)]
pub enum IndexRefusal {
    /// The text at `number` stands at a lower number too.
    #[error("text {number} again")]
    Repeated { number: u32 },
    /// There was no memory.
    #[error("out of memory")]
    OutOfMemory,
}

impl From<AllocError> for BookRefusal {
    ghost from_gives = { λ _ e. e ≡ no_memory };

    fn from(_: AllocError) -> Self {
        BookRefusal::OutOfMemory
    }
}

impl From<AllocError> for IndexRefusal {
    ghost from_gives = { λ _ e. e ≡ no_memory_for_index };

    fn from(_: AllocError) -> Self {
        IndexRefusal::OutOfMemory
    }
}
