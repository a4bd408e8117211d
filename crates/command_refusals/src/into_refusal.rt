//! The printed refusal for each refusal of a command and of what it calls. Here alone one becomes the
//! other.
ghost use Rattle.std.specs.Prelude.{◌≡◌, option_map};
ghost use Rattle.command_refusals.specs.Outcome.{answer_of, of_add, of_create, of_file, from_print, of_log, of_part, of_pattern, of_read, of_upgrade, of_words};

use crate::outcome::{AddRefusal, FileRefusal, LogRefusal, PartCause, ReadRefusal, UpgradeRefusal};
use crate::refusal::Refusal;
use command_words::WordsRefusal;
use disk_journal::CreateRefusal;
use sink_pieces::PrintRefusal;
use wild_match::PatternRefusal;

/// The refusal of a command that prints a log.
pub fn refusal_of_log(outcome: Result<(), LogRefusal>) -> Option<Refusal>
    ensures { result ≡ option_map of_log (answer_of outcome) }
{
    match outcome {
        Ok(()) => None,
        Err(LogRefusal::OpenFault) => Some(Refusal::OpenFault),
        Err(LogRefusal::ReadFault) => Some(Refusal::ReadFault),
        Err(LogRefusal::LineTooLong { line }) => Some(Refusal::LineTooLong { line }),
        Err(LogRefusal::TooManyLines) => Some(Refusal::TooManyLines),
        Err(LogRefusal::SinkFault) => Some(Refusal::SinkFault),
        Err(LogRefusal::OutOfMemory) => Some(Refusal::OutOfMemory),
    }
}

/// The refusal of a command that reads an archive.
pub fn refusal_of_read(outcome: Result<(), ReadRefusal>) -> Option<Refusal>
    ensures { result ≡ option_map of_read (answer_of outcome) }
{
    match outcome {
        Ok(()) => None,
        Err(ReadRefusal::DiskFault) => Some(Refusal::DiskFault),
        Err(ReadRefusal::Damaged { at }) => Some(Refusal::Damaged { at }),
        Err(ReadRefusal::SinkFault) => Some(Refusal::SinkFault),
        Err(ReadRefusal::OutOfMemory) => Some(Refusal::OutOfMemory),
    }
}

/// The refusal of the command that prints a file.
pub fn refusal_of_file(outcome: Result<(), FileRefusal>) -> Option<Refusal>
    ensures { result ≡ option_map of_file (answer_of outcome) }
{
    match outcome {
        Ok(()) => None,
        Err(FileRefusal::DiskFault) => Some(Refusal::DiskFault),
        Err(FileRefusal::Damaged { at }) => Some(Refusal::Damaged { at }),
        Err(FileRefusal::NoSuchFile { number, count }) => {
            Some(Refusal::NoSuchFile { number, count })
        }
        Err(FileRefusal::SinkFault) => Some(Refusal::SinkFault),
        Err(FileRefusal::OutOfMemory) => Some(Refusal::OutOfMemory),
    }
}

/// The refusal of the making of an archive.
pub fn refusal_of_create(outcome: Result<(), CreateRefusal>) -> Option<Refusal>
    ensures { result ≡ option_map of_create (answer_of outcome) }
{
    match outcome {
        Ok(()) => None,
        Err(CreateRefusal::DiskFault) => Some(Refusal::DiskFault),
        Err(CreateRefusal::NotEmpty { len }) => Some(Refusal::NotEmpty { len }),
    }
}

/// The refusal of words.
pub fn refusal_of_words(refusal: WordsRefusal) -> Refusal
    ensures { result ≡ of_words refusal }
{
    match refusal {
        WordsRefusal::Usage => Refusal::Usage,
        WordsRefusal::OutOfMemory => Refusal::OutOfMemory,
    }
}

/// The refusal of a pattern.
pub fn refusal_of_pattern(refusal: PatternRefusal) -> Refusal
    ensures { result ≡ of_pattern refusal }
{
    match refusal {
        PatternRefusal::BadPattern { at } => Refusal::BadPattern { at },
        PatternRefusal::OutOfMemory => Refusal::OutOfMemory,
    }
}

/// The refusal of a printing.
pub fn refusal_of_print(refusal: PrintRefusal) -> Refusal
    ensures { result ≡ of_read (from_print refusal) }
{
    match refusal {
        PrintRefusal::SinkFault => Refusal::SinkFault,
        PrintRefusal::OutOfMemory => Refusal::OutOfMemory,
    }
}

/// The refusal of the adding of files to an archive.
pub fn refusal_of_add(refusal: AddRefusal) -> Refusal
    ensures { result ≡ of_add refusal }
{
    match refusal {
        AddRefusal::NameTooLong { index } => Refusal::NameTooLong { index },
        AddRefusal::TooManyFiles { held, more } => Refusal::TooManyFiles { held, more },
        AddRefusal::ArchiveFull { end, need } => Refusal::ArchiveFull { end, need },
        AddRefusal::DiskFault => Refusal::DiskFault,
        AddRefusal::Damaged { at } => Refusal::Damaged { at },
        AddRefusal::OutOfMemory => Refusal::OutOfMemory,
    }
}

/// The refusal of a file that is not whole.
pub fn refusal_of_part(cause: PartCause) -> Refusal
    ensures { result ≡ of_part cause }
{
    match cause {
        PartCause::OpenFault => Refusal::OpenFault,
        PartCause::ReadFault => Refusal::ReadFault,
        PartCause::LineTooLong { line } => Refusal::LineTooLong { line },
        PartCause::TooManyLines => Refusal::TooManyLines,
        PartCause::Full { book, count } => Refusal::Full { book, count },
        PartCause::ArchiveFull { end, need } => Refusal::ArchiveFull { end, need },
        PartCause::DiskFault => Refusal::DiskFault,
        PartCause::OutOfMemory => Refusal::OutOfMemory,
    }
}

/// The refusal of an upgrade.
pub fn refusal_of_upgrade(refusal: UpgradeRefusal) -> Refusal
    ensures { result ≡ of_upgrade refusal }
{
    match refusal {
        UpgradeRefusal::DiskFault | UpgradeRefusal::SecondFault => Refusal::DiskFault,
        UpgradeRefusal::Damaged { at } => Refusal::Damaged { at },
        UpgradeRefusal::AlreadyNewest { version } => Refusal::AlreadyNewest { version },
        UpgradeRefusal::NotEmpty { len } => Refusal::NotEmpty { len },
        UpgradeRefusal::ArchiveFull { end, need } => Refusal::ArchiveFull { end, need },
        UpgradeRefusal::OutOfMemory => Refusal::OutOfMemory,
    }
}
