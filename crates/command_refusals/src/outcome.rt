//! How the commands of each kind end, and which of their refusals a refusal of the crates below is.
ghost use Rattle.std.specs.Prelude.{◌≡◌};
ghost use Rattle.command_refusals.specs.declared.outcome.AddRefusal.TheVariants.{OutOfMemory as AddOutOfMemory};
ghost use Rattle.command_refusals.specs.declared.outcome.MergeRefusal.TheVariants.{OutOfMemory as MergeOutOfMemory};
ghost use Rattle.command_refusals.specs.declared.outcome.ReadRefusal.TheVariants.{OutOfMemory, SinkFault};
ghost use Rattle.command_refusals.specs.declared.outcome.UpgradeRefusal.TheVariants.{OutOfMemory as UpgradeOutOfMemory};
ghost use Rattle.command_refusals.specs.Outcome.{add_from_archive, add_from_register, add_from_start, file_from_archive, from_archive, from_check, from_print, merge_from_archive, merge_from_register, merge_from_second, merge_from_start, upgrade_from_archive, upgrade_from_create, upgrade_from_register};

use archive_open::ArchiveRefusal;
use check_meaning::CheckRefusal;
use disk_journal::{CreateRefusal, StartRefusal};
use ingest_meaning::RegisterRefusal;
use log_seams::Failed;
use row_codec::Which;
use sink_pieces::PrintRefusal;
use std::alloc::AllocError;

/// Why not all messages of a log were printed.
#[derive(Clone, Copy, Debug, PartialEq, Eq)]
pub enum LogRefusal {
    /// The log cannot be opened.
    OpenFault,
    /// A read of the log failed.
    ReadFault,
    /// The line of that number is too long.
    LineTooLong { line: u64 },
    /// A line begins after the last allowed message.
    TooManyLines,
    /// The output cannot be written.
    SinkFault,
    /// There was no memory.
    OutOfMemory,
}

/// Why a command that reads an archive did not print its text.
#[derive(Clone, Copy, Debug, PartialEq, Eq)]
pub enum ReadRefusal {
    /// A call on the archive's disk failed.
    DiskFault,
    /// The disk's bytes are no archive, by what stands at this place.
    Damaged { at: u64 },
    /// The output cannot be written.
    SinkFault,
    /// There was no memory.
    OutOfMemory,
}

impl From<ArchiveRefusal> for ReadRefusal {
    ghost from_gives = { λ r e. e ≡ from_archive r };

    fn from(refusal: ArchiveRefusal) -> Self {
        match refusal {
            ArchiveRefusal::DiskFault => ReadRefusal::DiskFault,
            ArchiveRefusal::Damaged { at } => ReadRefusal::Damaged { at },
            ArchiveRefusal::OutOfMemory => ReadRefusal::OutOfMemory,
        }
    }
}

impl From<CheckRefusal> for ReadRefusal {
    ghost from_gives = { λ r e. e ≡ from_check r };

    fn from(refusal: CheckRefusal) -> Self {
        match refusal {
            CheckRefusal::DiskFault => ReadRefusal::DiskFault,
            CheckRefusal::Damaged { at } => ReadRefusal::Damaged { at },
            CheckRefusal::OutOfMemory => ReadRefusal::OutOfMemory,
        }
    }
}

impl From<AllocError> for ReadRefusal {
    ghost from_gives = { λ _ e. e ≡ OutOfMemory };

    fn from(_: AllocError) -> Self {
        ReadRefusal::OutOfMemory
    }
}

impl From<Failed> for ReadRefusal {
    ghost from_gives = { λ _ e. e ≡ SinkFault };

    fn from(_: Failed) -> Self {
        ReadRefusal::SinkFault
    }
}

impl From<PrintRefusal> for ReadRefusal {
    ghost from_gives = { λ r e. e ≡ from_print r };

    fn from(refusal: PrintRefusal) -> Self {
        match refusal {
            PrintRefusal::SinkFault => ReadRefusal::SinkFault,
            PrintRefusal::OutOfMemory => ReadRefusal::OutOfMemory,
        }
    }
}

/// Why the bytes of a file were not printed.
#[derive(Clone, Copy, Debug, PartialEq, Eq)]
pub enum FileRefusal {
    /// A call on the archive's disk failed.
    DiskFault,
    /// The disk's bytes are no archive, by what stands at this place.
    Damaged { at: u64 },
    /// The archive has no file of that number.
    NoSuchFile { number: u64, count: u64 },
    /// The output cannot be written.
    SinkFault,
    /// There was no memory.
    OutOfMemory,
}

impl From<ArchiveRefusal> for FileRefusal {
    ghost from_gives = { λ r e. e ≡ file_from_archive r };

    fn from(refusal: ArchiveRefusal) -> Self {
        match refusal {
            ArchiveRefusal::DiskFault => FileRefusal::DiskFault,
            ArchiveRefusal::Damaged { at } => FileRefusal::Damaged { at },
            ArchiveRefusal::OutOfMemory => FileRefusal::OutOfMemory,
        }
    }
}

/// Why no file was added to an archive.
#[derive(Clone, Copy, Debug, PartialEq, Eq)]
pub enum AddRefusal {
    /// The name at `index`, the first such, is too long.
    NameTooLong { index: usize },
    /// `more` names are too many by themselves, and `held` is 0, or with the `held` names of the archive.
    TooManyFiles { held: u64, more: u64 },
    /// The names do not fit the archive's limit of length: it ends at `end`, and they need `need` bytes.
    ArchiveFull { end: u64, need: u64 },
    /// A call on the archive's disk failed.
    DiskFault,
    /// The disk's bytes are no archive, by what stands at this place.
    Damaged { at: u64 },
    /// There was no memory.
    OutOfMemory,
}

impl From<AllocError> for AddRefusal {
    ghost from_gives = { λ _ e. e ≡ AddOutOfMemory };

    fn from(_: AllocError) -> Self {
        AddRefusal::OutOfMemory
    }
}

impl From<StartRefusal> for AddRefusal {
    ghost from_gives = { λ r e. e ≡ add_from_start r };

    fn from(refusal: StartRefusal) -> Self {
        match refusal {
            StartRefusal::DiskFault => AddRefusal::DiskFault,
            StartRefusal::Damaged { at } => AddRefusal::Damaged { at },
        }
    }
}

impl From<ArchiveRefusal> for AddRefusal {
    ghost from_gives = { λ r e. e ≡ add_from_archive r };

    fn from(refusal: ArchiveRefusal) -> Self {
        match refusal {
            ArchiveRefusal::DiskFault => AddRefusal::DiskFault,
            ArchiveRefusal::Damaged { at } => AddRefusal::Damaged { at },
            ArchiveRefusal::OutOfMemory => AddRefusal::OutOfMemory,
        }
    }
}

impl From<RegisterRefusal> for AddRefusal {
    ghost from_gives = { λ r e. e ≡ add_from_register r };

    fn from(refusal: RegisterRefusal) -> Self {
        match refusal {
            RegisterRefusal::OutOfMemory => AddRefusal::OutOfMemory,
            RegisterRefusal::ArchiveFull { end, need } => AddRefusal::ArchiveFull { end, need },
            RegisterRefusal::DiskFault => AddRefusal::DiskFault,
        }
    }
}

/// Why the archive has not all of a file that was to be taken in.
#[derive(Clone, Copy, Debug, PartialEq, Eq)]
pub enum PartCause {
    /// The log cannot be opened.
    OpenFault,
    /// A read of the log failed.
    ReadFault,
    /// The line of that number is too long.
    LineTooLong { line: u64 },
    /// A line begins after the last allowed message.
    TooManyLines,
    /// A text is new, and the dictionary has `count` texts, which is its limit.
    Full { book: Which, count: u32 },
    /// Records do not fit the archive's limit of length: it ends at `end`, and they need `need` bytes.
    ArchiveFull { end: u64, need: u64 },
    /// A call on the archive's disk failed.
    DiskFault,
    /// There was no memory.
    OutOfMemory,
}

/// Why not all files of a second archive were added to an archive.
#[derive(Clone, Copy, Debug, PartialEq, Eq)]
pub enum MergeRefusal {
    /// A call on the disk of one of the archives failed.
    DiskFault,
    /// The disk's bytes are no archive, by what stands at this place.
    Damaged { at: u64 },
    /// The second disk's bytes are no archive, by what stands at this place.
    SecondDamaged { at: u64 },
    /// The two archives are of different versions.
    VersionDiffers { first: u32, second: u32 },
    /// `more` names are too many with the `held` names of the archive.
    TooManyFiles { held: u64, more: u64 },
    /// Names do not fit the archive's limit of length: it ends at `end`, and they need `need` bytes.
    ArchiveFull { end: u64, need: u64 },
    /// Of a file: a text is new, and the dictionary has `count` texts, which is its limit.
    Full { book: Which, count: u32 },
    /// Of a file: records do not fit the archive's limit of length.
    SegmentFull { end: u64, need: u64 },
    /// There was no memory.
    OutOfMemory,
}

impl From<AllocError> for MergeRefusal {
    ghost from_gives = { λ _ e. e ≡ MergeOutOfMemory };

    fn from(_: AllocError) -> Self {
        MergeRefusal::OutOfMemory
    }
}

impl From<StartRefusal> for MergeRefusal {
    ghost from_gives = { λ r e. e ≡ merge_from_start r };

    fn from(refusal: StartRefusal) -> Self {
        match refusal {
            StartRefusal::DiskFault => MergeRefusal::DiskFault,
            StartRefusal::Damaged { at } => MergeRefusal::Damaged { at },
        }
    }
}

impl From<ArchiveRefusal> for MergeRefusal {
    ghost from_gives = { λ r e. e ≡ merge_from_archive r };

    fn from(refusal: ArchiveRefusal) -> Self {
        match refusal {
            ArchiveRefusal::DiskFault => MergeRefusal::DiskFault,
            ArchiveRefusal::Damaged { at } => MergeRefusal::Damaged { at },
            ArchiveRefusal::OutOfMemory => MergeRefusal::OutOfMemory,
        }
    }
}

impl From<RegisterRefusal> for MergeRefusal {
    ghost from_gives = { λ r e. e ≡ merge_from_register r };

    fn from(refusal: RegisterRefusal) -> Self {
        match refusal {
            RegisterRefusal::OutOfMemory => MergeRefusal::OutOfMemory,
            RegisterRefusal::ArchiveFull { end, need } => MergeRefusal::ArchiveFull { end, need },
            RegisterRefusal::DiskFault => MergeRefusal::DiskFault,
        }
    }
}

/// The refusal of a merge where the second archive was not opened.
pub fn of_second(refusal: ArchiveRefusal) -> MergeRefusal
    ensures { result ≡ merge_from_second refusal }
{
    match refusal {
        ArchiveRefusal::DiskFault => MergeRefusal::DiskFault,
        ArchiveRefusal::Damaged { at } => MergeRefusal::SecondDamaged { at },
        ArchiveRefusal::OutOfMemory => MergeRefusal::OutOfMemory,
    }
}

/// Why an archive was not upgraded, or not all of it.
#[derive(Clone, Copy, Debug, PartialEq, Eq)]
pub enum UpgradeRefusal {
    /// A call on the archive's disk failed.
    DiskFault,
    /// The disk's bytes are no archive, by what stands at this place.
    Damaged { at: u64 },
    /// The archive is of the newest version already.
    AlreadyNewest { version: u32 },
    /// A call on the second disk failed.
    SecondFault,
    /// The second disk has `len` bytes.
    NotEmpty { len: u64 },
    /// Names do not fit the limit of length: the new archive ends at `end`, and they need `need` bytes.
    ArchiveFull { end: u64, need: u64 },
    /// There was no memory.
    OutOfMemory,
}

impl From<AllocError> for UpgradeRefusal {
    ghost from_gives = { λ _ e. e ≡ UpgradeOutOfMemory };

    fn from(_: AllocError) -> Self {
        UpgradeRefusal::OutOfMemory
    }
}

// of the archive that is upgraded
impl From<ArchiveRefusal> for UpgradeRefusal {
    ghost from_gives = { λ r e. e ≡ upgrade_from_archive r };

    fn from(refusal: ArchiveRefusal) -> Self {
        match refusal {
            ArchiveRefusal::DiskFault => UpgradeRefusal::DiskFault,
            ArchiveRefusal::Damaged { at } => UpgradeRefusal::Damaged { at },
            ArchiveRefusal::OutOfMemory => UpgradeRefusal::OutOfMemory,
        }
    }
}

// of the new archive, as is the next one
impl From<CreateRefusal> for UpgradeRefusal {
    ghost from_gives = { λ r e. e ≡ upgrade_from_create r };

    fn from(refusal: CreateRefusal) -> Self {
        match refusal {
            CreateRefusal::DiskFault => UpgradeRefusal::SecondFault,
            CreateRefusal::NotEmpty { len } => UpgradeRefusal::NotEmpty { len },
        }
    }
}

impl From<RegisterRefusal> for UpgradeRefusal {
    ghost from_gives = { λ r e. e ≡ upgrade_from_register r };

    fn from(refusal: RegisterRefusal) -> Self {
        match refusal {
            RegisterRefusal::OutOfMemory => UpgradeRefusal::OutOfMemory,
            RegisterRefusal::ArchiveFull { end, need } => UpgradeRefusal::ArchiveFull { end, need },
            RegisterRefusal::DiskFault => UpgradeRefusal::SecondFault,
        }
    }
}
