//! Why a call on a journal refused, one enum for each call.
ghost use Rattle.std.specs.Prelude.{◌≡◌};
ghost use Rattle.disk_journal.specs.declared.refusals.CreateRefusal.TheVariants.{DiskFault as create_fault};
ghost use Rattle.disk_journal.specs.declared.refusals.StartRefusal.TheVariants.{DiskFault as start_fault};
ghost use Rattle.disk_journal.specs.declared.refusals.WalkRefusal.TheVariants.{DiskFault as walk_fault};
ghost use Rattle.disk_journal.specs.declared.refusals.LoadRefusal.TheVariants.{DiskFault as load_fault, OutOfMemory as out_of_memory};
ghost use Rattle.disk_journal.specs.declared.refusals.AppendRefusal.TheVariants.{DiskFault as append_fault};

use log_seams::Failed;
use std::alloc::AllocError;
use thiserror::Error;

/// Why no empty journal was made.
#[derive(Clone, Copy, Debug, PartialEq, Eq, Error)]
pub enum CreateRefusal {
    /// A call of the disk failed: its count of faults rose.
    #[error("the disk failed")]
    DiskFault,
    /// The disk has `len` bytes, which is more than none.
    #[error("not empty, {len} bytes")]
    NotEmpty { len: u64 },
}

/// Why a journal was not opened.
#[derive(Clone, Copy, Debug, PartialEq, Eq, Error)]
pub enum StartRefusal {
    /// A call of the disk failed: its count of faults rose.
    #[error("the disk failed")]
    DiskFault,
    /// The first 32 bytes are no header; `at` is 0.
    #[error("damaged at {at}")]
    Damaged { at: u64 },
}

/// Why a walk along the records did not go on.
#[derive(Clone, Copy, Debug, PartialEq, Eq, Error)]
pub enum WalkRefusal {
    /// A call of the disk failed: its count of faults rose.
    #[error("the disk failed")]
    DiskFault,
    /// There is no gate at the place `at`, or an open one without a whole record behind it.
    #[error("damaged at {at}")]
    Damaged { at: u64 },
}

/// Why bytes of a payload were not loaded.
#[derive(Clone, Copy, Debug, PartialEq, Eq, Error)]
pub enum LoadRefusal {
    /// A call of the disk failed: its count of faults rose.
    #[error("the disk failed")]
    DiskFault,
    /// The disk gave fewer bytes than stood there; `at` is the place asked for.
    #[error("damaged at {at}")]
    Damaged { at: u64 },
    /// There was no memory.
    #[error("out of memory")]
    OutOfMemory,
}

/// Why a record was not appended.
#[derive(Clone, Copy, Debug, PartialEq, Eq, Error)]
pub enum AppendRefusal {
    /// A call of the disk failed: its count of faults rose.
    #[error("the disk failed")]
    DiskFault,
    /// The journal ends at `end` and the record needs `need` bytes, which is more than its limit.
    #[error("full at {end}, {need} more needed")]
    ArchiveFull { end: u64, need: u64 },
}

impl From<Failed> for CreateRefusal {
    ghost from_gives = { λ _ e. e ≡ create_fault };

    fn from(_: Failed) -> Self {
        CreateRefusal::DiskFault
    }
}

impl From<Failed> for StartRefusal {
    ghost from_gives = { λ _ e. e ≡ start_fault };

    fn from(_: Failed) -> Self {
        StartRefusal::DiskFault
    }
}

impl From<Failed> for WalkRefusal {
    ghost from_gives = { λ _ e. e ≡ walk_fault };

    fn from(_: Failed) -> Self {
        WalkRefusal::DiskFault
    }
}

impl From<Failed> for LoadRefusal {
    ghost from_gives = { λ _ e. e ≡ load_fault };

    fn from(_: Failed) -> Self {
        LoadRefusal::DiskFault
    }
}

impl From<Failed> for AppendRefusal {
    ghost from_gives = { λ _ e. e ≡ append_fault };

    fn from(_: Failed) -> Self {
        AppendRefusal::DiskFault
    }
}

impl From<AllocError> for LoadRefusal {
    ghost from_gives = { λ _ e. e ≡ out_of_memory };

    fn from(_: AllocError) -> Self {
        LoadRefusal::OutOfMemory
    }
}
