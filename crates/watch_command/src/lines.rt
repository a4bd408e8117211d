//! What is told of the new files behind what a reader printed.
ghost use Rattle.std.specs.Prelude.{◌≡◌, ◌≢◌, ◌∷◌, [], ◌≤◌, ◌+◌, ◌^◌, ℕ, List, Option, Some, Ok, OnErr, OnOk, length, map};
ghost use Rattle.log_seams.specs.Outside.{CountsOf};
ghost use Rattle.sink_pieces.specs.Output.{Grew, GrewByFront};
ghost use Rattle.file_lines.specs.Directory.{directory_from};
ghost use Rattle.command_refusals.specs.Outcome.{answer_of};
ghost use Rattle.command_refusals.specs.Outside.{AroundSinks};
ghost use Rattle.command_answers.specs.Taken.{gravest_of_call};
ghost use Rattle.write_commands.specs.IngestPrints.{came_of};
ghost use Rattle.file_outcomes.specs.Taken.{line_of_taken};
ghost use Rattle.watch_command.specs.StepsWatched.{PrintsRest};

use crate::adding::Watched;
use command_refusals::{ReadRefusal, answer, refusal_of_print, refusal_of_read, report};
use file_lines::print_directory;
use file_outcomes::{FileReport, report_taken};
use log_seams::Sink;
use sink_pieces::PrintRefusal;
use std::alloc::Global;

/// The graver of two statuses: that of a failed output, of a failed disk, of a damaged archive, of want
/// of memory, of a log that is not whole.
fn graver_of_call(one: u8, other: u8) -> u8
    ensures { result ≡ gravest_of_call (one ∷ other ∷ []) }
{
    match (one, other) {
        (7, _) | (_, 7) => 7,
        (5, _) | (_, 5) => 5,
        (6, _) | (_, 6) => 6,
        (9, _) | (_, 9) => 9,
        (4, _) | (_, 4) => 4,
        _ => 0,
    }
}

/// Prints the lines of the new files, unless a write of the reader failed.
fn print_files<K: Sink>(
    alloc: Global,
    watched: Watched,
    files: &[FileReport<'_>],
    out: &mut K,
) -> Result<(), PrintRefusal>
    requires { watched.first + length files.now ≤ 2 ^ 64 }

    // where a write of the reader failed
    ensures silent { answer_of watched.reader ≡ Some ReadRefusal.SinkFault
        → (result ≡ Ok tt) × (out.new ≡ out.old) }

    // else
    ensures done { answer_of watched.reader ≢ Some ReadRefusal.SinkFault
        → OnOk result (Grew (K.written out.old) (K.written out.new)
        (directory_from watched.first (map line_of_taken files.now))) }
    ensures front { OnErr result (GrewByFront (K.written out.old) (K.written out.new)
        (directory_from watched.first (map line_of_taken files.now))) }
    ensures counts { CountsOf PrintRefusal.SinkFault (K.faults out.old) (K.faults out.new) result }
{
    if let Err(ReadRefusal::SinkFault) = watched.reader {
        return Ok(());
    }
    print_directory(alloc, u64::from(watched.first), files, out)
}

/// Prints the lines of the new files, and tells how the reader ended and which of them are not whole.
pub(crate) fn print_rest<K: Sink>(
    alloc: Global,
    watched: Watched,
    files: &[FileReport<'_>],
    out: &mut K,
    err: &mut K,
) -> u8
    requires { watched.first + length files.now ≤ 2 ^ 64 }
    ensures prints { (logs : List ℕ → Option (List ℕ))
        → AroundSinks K.written K.faults out.old out.new err.old err.new (λ seen.
        PrintsRest (answer_of watched.reader) (map (came_of logs) files.now) watched.first
        seen result) }
    ensures out { K.faults out.old ≤ K.faults out.new }
    ensures err { K.faults err.old ≤ K.faults err.new }
{
    let printed = print_files(alloc, watched, files, out);
    let status = answer(refusal_of_read(watched.reader), "", err);
    let other = match printed {
        Ok(()) => report_taken(err, files),
        Err(refusal) => report(err, "", refusal_of_print(refusal)),
    };
    graver_of_call(status, other)
}
