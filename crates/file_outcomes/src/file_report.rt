//! What came of the files that were to be taken into an archive.
ghost use Rattle.std.specs.Prelude.{◌≡◌, ◌+◌, ◌^◌, ◌≤◌, List, length, option_map};
ghost use Rattle.std.specs.List.{flat_map};
ghost use Rattle.command_refusals.specs.Refusal.{Says};
ghost use Rattle.file_outcomes.specs.Jobs.{of_cause};
ghost use Rattle.file_outcomes.specs.Taken.{AreToldAs, OverSinks, error_of, graver, line_of_taken, status_of_taken};
ghost use Rattle.command_answers.specs.Ingested.{FileOutcome, PrintsCame};
ghost use Rattle.command_answers.specs.Taken.{file_status};

use command_refusals::{PartCause, refusal_of_part, refusal_of_print, report, report_file};
use file_lines::{Listed, print_directory};
use ingest_workers::Cause;
use log_seams::Sink;
use std::alloc::Global;

/// What came of a file that was to be taken in.
#[derive(Clone, Copy, Debug)]
pub struct FileReport<'a> {
    /// Its name.
    pub name: &'a [u8],
    /// Whether its log was opened.
    pub opened: bool,
    /// How many messages of it the archive has.
    pub messages: u64,
    /// Whether these are all.
    pub whole: bool,
    /// Why they are not.
    pub refusal: Option<PartCause>,
}

impl Listed for FileReport<'_> {
    ghost listed = { line_of_taken };

    fn name(&self) -> &[u8] {
        self.name
    }

    fn messages(&self) -> u64 {
        self.messages
    }

    fn is_whole(&self) -> bool {
        self.whole
    }
}

/// Why not all messages of a file were taken in, by the cause of its job.
fn part_cause(cause: Cause) -> PartCause
    ensures { result ≡ of_cause cause }
{
    match cause {
        Cause::ReadFault => PartCause::ReadFault,
        Cause::LineTooLong { line } => PartCause::LineTooLong { line },
        Cause::TooManyLines => PartCause::TooManyLines,
        Cause::Full { book, count } => PartCause::Full { book, count },
        Cause::DiskFault { .. } => PartCause::DiskFault,
        Cause::OutOfMemory => PartCause::OutOfMemory,
        Cause::ArchiveFull { end, need } => PartCause::ArchiveFull { end, need },
    }
}

/// The same, if the job has a cause.
pub fn refusal_of_cause(cause: Option<Cause>) -> Option<PartCause>
    ensures { result ≡ option_map of_cause cause }
{
    Some(part_cause(cause?))
}

/// The graver of two statuses of files: a disk that failed before want of memory, and this before a log
/// that is not whole.
fn graver(one: u8, other: u8) -> u8
    ensures { result ≡ graver one other }
{
    match (one, other) {
        (5, _) | (_, 5) => 5,
        (9, _) | (_, 9) => 9,
        (4, _) | (_, 4) => 4,
        _ => 0,
    }
}

/// Writes the line of a file where it is not whole, and answers its status.
fn report_one<K: Sink>(err: &mut K, file: &FileReport<'_>) -> u8
    ensures status { result ≡ file_status file.now.refusal }
    ensures said { Says
        (K.written err.old) (K.written err.new) (K.faults err.old) (K.faults err.new)
        (error_of file.now) }
    ensures later { K.faults err.old ≤ K.faults err.new }
{
    match file.refusal {
        None => 0,
        Some(cause) => report_file(err, file.name, refusal_of_part(cause)),
    }
}

/// Writes a line for each file that is not whole, in their order, and answers the gravest status of all.
pub fn report_taken<K: Sink>(err: &mut K, files: &[FileReport<'_>]) -> u8
    ensures status { result ≡ status_of_taken files.now }
    ensures said { Says
        (K.written err.old) (K.written err.new) (K.faults err.old) (K.faults err.new)
        (flat_map error_of files.now) }
    ensures later { K.faults err.old ≤ K.faults err.new }
{
    let mut status = 0;
    for file in files {
        status = graver(status, report_one(err, file));
    }
    status
}

/// Prints a line for each file, numbered on from `first`, and writes one for each that is not whole.
/// Answers the gravest status. Where the output fails, or there is no memory for its lines, this alone
/// is told.
pub fn print_taken<K: Sink>(
    alloc: Global,
    first: u64,
    files: &[FileReport<'_>],
    out: &mut K,
    err: &mut K,
) -> u8
    requires { first + length files.now ≤ 2 ^ 64 }
    ensures prints { (came : List FileOutcome) → AreToldAs came files.now
        → OverSinks K.written K.faults out.old out.new err.old err.new (λ seen.
        PrintsCame came first seen result) }
    ensures out { K.faults out.old ≤ K.faults out.new }
    ensures err { K.faults err.old ≤ K.faults err.new }
{
    match print_directory(alloc, first, files, out) {
        Ok(()) => report_taken(err, files),
        Err(refusal) => report(err, "", refusal_of_print(refusal)),
    }
}
