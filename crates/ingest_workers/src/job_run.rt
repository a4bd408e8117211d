//! One worker's work on one file.
ghost use Rattle.std.specs.Prelude.{◌≡◌, ◌≤◌, [], false, true, is_some, not};
ghost use Rattle.turn_lock.specs.Words.{number_of};
ghost use Rattle.ingest_workers.specs.Causes.{log_of};
ghost use Rattle.ingest_meaning.specs.Given.{IsAmongFirst};
ghost use Rattle.ingest_workers.specs.Full.{books_by};
ghost use Rattle.ingest_workers.specs.Journal.{HasSoFar};
ghost use Rattle.ingest_workers.specs.JobDone.{CameToAll, HasSourceBack, IsDone, in_source};
ghost use Rattle.ingest_workers.specs.MaySeal.{IsWorker};
ghost use Rattle.ingest_workers.specs.Namer.{IsNamerOf, types_pass, words_pass};
ghost use Rattle.ingest_workers.specs.Met.{WasMetBy};
ghost use Rattle.ingest_workers.specs.Naming.{HasNamed};
ghost use Rattle.ingest_workers.specs.Outcome.{met_by};
ghost use Rattle.ingest_workers.specs.Taking.{KeepsSource};
ghost use Rattle.ingest_workers.specs.Turns.{TakesFewOf};
ghost use Rattle.ingest_workers.specs.Worker.{IsNewJob};

use crate::finish_file::finish_file;
use crate::job::Job;
use crate::messages::add_messages;
use crate::open_segment::OpenSegment;
use crate::outcome::{Cause, Outcome};
use disk_seal::{LockNamer, Store};
use log_seams::{Disk, Source};
use message_reader::{CutterRefused, MessageReader};
use std::alloc::Global;
use std::sync::Wait;
use std::sync::ledger::Ledger;
use turn_lock::Pass;

/// Takes the messages of a source as those of a file, which is new in the archive, and hands the
/// source back. `part` tells whether the file is not to be marked whole.
fn take_source<'d, 'b, S: Source, D: Disk, R: Wait, A: Ledger, B: Ledger, C: Ledger>(
    rt: &R,
    alloc: Global,
    rows: u32,
    file: u32,
    part: bool,
    source: S,
    namer: &mut LockNamer<'_, '_, R, A, B, C>,
    keeper: &mut Pass<'_, Store<'d, 'b, D>>,
) -> (S, Outcome)
    requires rows { (1 ≤ rows) × (rows ≤ 65536) }
    requires version { (1 ≤ namer.old.version) × (namer.old.version ≤ 3) }
    requires worker { IsWorker keeper.old namer.old }
    requires file { file ≡ number_of keeper.old }
    requires so_far { HasSoFar D.state keeper.old [] }

    // what stays, and what the namer has named
    ensures source { KeepsSource S.name S.faults source result.0 }
    ensures names { HasNamed
        (IsAmongFirst namer.old.version (S.left source) (met_by rows result.1))
        namer.old namer.new }

    // the answer
    ensures turns { TakesFewOf D.state rows (S.left source) result.1
        keeper.old keeper.new namer.old namer.new }
    ensures cause { part ≡ false → is_some result.1.cause ≡ not result.1.whole }
    ensures part { part ≡ true → result.1.whole ≡ false }
    ensures came { CameToAll D.state rows namer.old.version
        (books_by (types_pass namer.new) (words_pass namer.new))
        (log_of S.left S.faults source result.0) keeper.old keeper.new result.1 }
{
    let mut reader = match MessageReader::new(alloc, namer.version(), source) {
        Ok(reader) => reader,
        Err(CutterRefused { source }) => {
            let outcome = Outcome {
                messages: 0,
                whole: false,
                cause: Some(Cause::OutOfMemory),
            };
            return (source, outcome);
        }
    };
    let mut segment = OpenSegment::new(alloc, file);
    let stop = add_messages(rt, alloc, rows, &mut reader, &mut segment, namer, keeper);
    let outcome = finish_file(rt, alloc, rows, part, stop, &mut segment, namer, keeper);
    (reader.into_source(), outcome)
}

/// Does a job: the messages of its source become those of its file, in segments of at most `rows`
/// rows, and the texts that they name are named by the worker's namer.
///
/// `keeper` is the pass over the store that has the file's number. What came of it is the job's
/// outcome, and the job has its source back, read as far as it was. The file of a part is not
/// marked whole. Of a source that was not opened nothing is read, and the outcome stays as it was.
pub fn run_job<'d, 'b, S: Source, D: Disk, R: Wait, A: Ledger, B: Ledger, C: Ledger>(
    job: &mut Job<S>,
    rt: &R,
    alloc: Global,
    rows: u32,
    namer: &mut LockNamer<'_, '_, R, A, B, C>,
    keeper: &mut Pass<'_, Store<'d, 'b, D>>,
)
    requires rows { (1 ≤ rows) × (rows ≤ 65536) }
    requires version { (1 ≤ namer.old.version) × (namer.old.version ≤ 3) }
    requires namer { IsNamerOf keeper.old namer.old }
    requires new { IsNewJob D.state job.old keeper.old }

    // what stays, and what the namer has named
    ensures source { HasSourceBack S.name S.faults job.old job.new }
    ensures names { HasNamed (WasMetBy S.left rows namer.old.version job.old job.new.outcome)
        namer.old namer.new }

    // how many turns it took
    ensures turns { TakesFewOf D.state rows (in_source S.left job.old.source) job.new.outcome
        keeper.old keeper.new namer.old namer.new }

    // what came of it
    ensures done { IsDone D.state S.left S.name S.faults rows namer.old.version
        (books_by (types_pass namer.new) (words_pass namer.new)) job.old keeper.old
        job.new keeper.new }
{
    if !job.is_open {
        return;
    }
    let Some(source) = job.source.take() else {
        unreachable!()
    };
    let (source, outcome) = take_source(
        rt,
        alloc,
        rows,
        job.file,
        job.is_part,
        source,
        namer,
        keeper,
    );
    job.outcome = outcome;
    let left = job.source.replace(source);
    let None = left else { unreachable!() };
}
