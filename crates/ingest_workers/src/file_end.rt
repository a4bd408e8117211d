//! Why no further message of a file is taken.
ghost use Rattle.std.specs.Prelude.{◌≡◌};
ghost use Rattle.ingest_workers.specs.declared.outcome.Cause.TheVariants.{OutOfMemory};
ghost use Rattle.ingest_workers.specs.declared.file_end.FileEnd.TheVariants.{Lost};
ghost use Rattle.ingest_workers.specs.FileEnd.{stop_by};

use crate::outcome::Cause;
use row_codec::NameRefusal;
use std::alloc::{AllocError, AllocFailed};

/// Why no further message of a file is taken.
#[derive(Clone, Copy, Debug)]
pub(crate) enum FileEnd {
    /// The open segment is still to be sealed.
    Part(Cause),
    /// Nothing more of the file is sealed.
    Lost(Cause),
}

impl From<AllocError> for FileEnd {
    ghost from_gives = { λ _ e. e ≡ Lost OutOfMemory };

    fn from(_error: AllocError) -> FileEnd {
        FileEnd::Lost(Cause::OutOfMemory)
    }
}

impl<T: Drop> From<AllocFailed<T>> for FileEnd {
    ghost from_gives = { λ _ e. e ≡ Lost OutOfMemory };

    fn from(_error: AllocFailed<T>) -> FileEnd {
        FileEnd::Lost(Cause::OutOfMemory)
    }
}

impl From<NameRefusal> for FileEnd {
    ghost from_gives = { λ refusal e. e ≡ stop_by refusal };

    fn from(refusal: NameRefusal) -> FileEnd {
        match refusal {
            NameRefusal::Full { book, count } => FileEnd::Part(Cause::Full { book, count }),
            NameRefusal::OutOfMemory => FileEnd::Lost(Cause::OutOfMemory),
        }
    }
}
