//! The commands with their words, and why words ask for none.
ghost use Rattle.std.specs.Prelude.{◌≡◌};
ghost use Rattle.command_words.specs.declared.command.WordsRefusal.TheVariants.{OutOfMemory};

use record_format::Header;
use std::alloc::{AllocError, AllocFailed};
use thiserror::Error;

/// A command with its words.
#[derive(Debug, Drop)]
pub enum Command<'a> {
    /// `show FILE`
    Show { file: &'a str },
    /// `scan PATTERN FILE`
    Scan { pattern: &'a str, file: &'a str },
    /// `create [--format V] [--types N] [--words N] [--bytes N]`, as the header of the archive
    Create { header: Header },
    /// `ingest [--workers W] [--segment R] [--watch PATTERN] FILE...`
    Ingest { asked: IngestWords<'a> },
    /// `files`
    Files,
    /// `check`
    Check,
    /// `decode N`
    Decode { number: u32 },
    /// `search [--from MS] [--to MS] [--stats] [--workers W] PATTERN`
    Search { asked: SearchWords<'a> },
    /// `count --by KEY [--from MS] [--to MS] [--stats] [--workers W] PATTERN`
    Count { asked: CountWords<'a> },
    /// `merge`
    Merge,
    /// `upgrade`
    Upgrade,
    /// `bench NUMBER LINES WORKERS`
    Bench { asked: BenchWords },
}

/// What the words of `ingest` ask for.
#[derive(Debug, Drop)]
pub struct IngestWords<'a> {
    /// How many workers there are: 1 to 64.
    pub workers: u32,
    /// How many rows a segment has at most: 1 to 65,536.
    pub segment: u32,
    /// The pattern of the messages that are printed as they are sealed, where it is given.
    pub watch: Option<&'a str>,
    /// The names of the logs: one at least.
    pub files: Vec<&'a str>,
}

/// What the words of `search` ask for.
#[derive(Clone, Copy, Debug)]
pub struct SearchWords<'a> {
    /// The first moment of the range, where it is given.
    pub from: Option<i64>,
    /// The last moment of the range, where it is given.
    pub to: Option<i64>,
    /// Whether the counts are printed too.
    pub stats: bool,
    /// How many workers there are: 1 to 64.
    pub workers: u32,
    /// The pattern.
    pub pattern: &'a str,
}

/// What messages are counted by.
#[derive(Clone, Copy, Debug, PartialEq, Eq)]
pub enum CountKey {
    /// `type`: their log type.
    LogType,
    /// `minute`: the minute of their stamp.
    Minute,
}

/// What the words of `count` ask for.
#[derive(Clone, Copy, Debug)]
pub struct CountWords<'a> {
    /// What messages are counted by.
    pub by: CountKey,
    /// The first moment of the range, where it is given.
    pub from: Option<i64>,
    /// The last moment of the range, where it is given.
    pub to: Option<i64>,
    /// Whether the counts of the search are printed too.
    pub stats: bool,
    /// How many workers there are: 1 to 64.
    pub workers: u32,
    /// The pattern.
    pub pattern: &'a str,
}

/// What the words of `bench` ask for.
#[derive(Clone, Copy, Debug)]
pub struct BenchWords {
    /// The number that the logs are made from.
    pub number: u32,
    /// How many lines each log has: 1 to 1,000,000.
    pub lines: u32,
    /// How many workers there are: 1 to 64.
    pub workers: u32,
}

/// Why words ask for no command.
#[derive(Clone, Copy, Debug, PartialEq, Eq, Error)]
pub enum WordsRefusal {
    /// They are not of the form of a command, or a number is not written as numbers are, or is
    /// outside its range.
    #[error("the words are those of no command")]
    Usage,
    /// There was no memory.
    #[error("out of memory")]
    OutOfMemory,
}

impl From<AllocError> for WordsRefusal {
    ghost from_gives = { λ _ e. e ≡ OutOfMemory };

    fn from(_error: AllocError) -> WordsRefusal {
        WordsRefusal::OutOfMemory
    }
}

impl<T: Drop> From<AllocFailed<T>> for WordsRefusal {
    ghost from_gives = { λ _ e. e ≡ OutOfMemory };

    fn from(_error: AllocFailed<T>) -> WordsRefusal {
        WordsRefusal::OutOfMemory
    }
}
