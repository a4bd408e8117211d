//! Whether the archive and the second one are opened to be written: by the words, before anything of
//! them is read.
ghost use Rattle.std.specs.Prelude.{◌↔◌, map, string_bytes, IfOk, IsFalse, IsTrue};
ghost use Rattle.command_answers.specs.Words.{AskNoWriting, AskNoWritingSecond, MayWrite, MayWriteSecond};
ghost use Rattle.command_words.specs.Asked.{asked_by};

use command_words::{Command, WordsRefusal, read_words};
use std::alloc::{AllocError, Global};

/// Whether a command may write the archive.
fn may_write(command: &Command<'_>) -> bool
    ensures { IsTrue result ↔ MayWrite (asked_by command.now) }
{
    match command {
        Command::Create { .. } | Command::Ingest { .. } | Command::Merge | Command::Bench { .. } =>
            true,
        Command::Show { .. }
        | Command::Scan { .. }
        | Command::Files
        | Command::Check
        | Command::Decode { .. }
        | Command::Search { .. }
        | Command::Count { .. }
        | Command::Upgrade => false,
    }
}

/// Whether a command may write the second archive.
fn may_write_second(command: &Command<'_>) -> bool
    ensures { IsTrue result ↔ MayWriteSecond (asked_by command.now) }
{
    match command {
        Command::Upgrade => true,
        Command::Show { .. }
        | Command::Scan { .. }
        | Command::Create { .. }
        | Command::Ingest { .. }
        | Command::Files
        | Command::Check
        | Command::Decode { .. }
        | Command::Search { .. }
        | Command::Count { .. }
        | Command::Merge
        | Command::Bench { .. } => false,
    }
}

/// Which of the two archives a command may write.
#[derive(Clone, Copy, Debug)]
pub(crate) struct Writing {
    /// Whether it may write the archive.
    pub(crate) archive: bool,
    /// Whether it may write the second one.
    pub(crate) second: bool,
}

/// Which archives the command may write that the words ask for. They are read as the command's call
/// reads them; words that are no command write nothing.
pub(crate) fn ask_to_write(alloc: Global, words: &[String]) -> Result<Writing, AllocError>
    // the archive
    ensures no { IfOk result (λ w. IsFalse w.archive
        → AskNoWriting (map string_bytes words.now)) }
    ensures yes { IfOk result (λ w. IsTrue w.archive
        → ¬ AskNoWriting (map string_bytes words.now)) }

    // the second one
    ensures not_second { IfOk result (λ w. IsFalse w.second
        → AskNoWritingSecond (map string_bytes words.now)) }
    ensures second { IfOk result (λ w. IsTrue w.second
        → ¬ AskNoWritingSecond (map string_bytes words.now)) }
{
    match read_words(alloc, words) {
        Ok(command) => Ok(Writing {
            archive: may_write(&command),
            second: may_write_second(&command),
        }),
        Err(WordsRefusal::Usage) => Ok(Writing {
            archive: false,
            second: false,
        }),
        Err(WordsRefusal::OutOfMemory) => Err(AllocError),
    }
}
