//! The command `bench`: an archive of the generated logs, and its summary.
ghost use Rattle.std.specs.Prelude.{◌≡◌, ◌≤◌, ◌⊎◌, ℕ, List, map, All, IfSome, IsFalse, IsTrue, None, Option};
ghost use Rattle.std.specs.List.{sum_by};
ghost use Rattle.log_seams.specs.Disk.{KeepsBytes};
ghost use Rattle.generated_logs.specs.Logs.{content_of};
ghost use Rattle.log_sources.specs.Sources.{str_bytes};
ghost use Rattle.ingest_fork.specs.declared.works.TheConstants.{MAX_WORKERS};
ghost use Rattle.command_answers.specs.Answers.{AnswersBench};
ghost use Rattle.bench_command.specs.StepsBench.{EndsLogs};
ghost use Rattle.command_answers.specs.Benched.{SumsUp, TellsParts, generated_names};
ghost use Rattle.command_refusals.specs.Outside.{AroundSinks};
ghost use Rattle.command_refusals.specs.GoesOn.{DiskGoesOn};
ghost use Rattle.command_refusals.specs.Reading.{IsArchive};
ghost use Rattle.write_commands.specs.IngestPrints.{came_of};
ghost use Rattle.file_outcomes.specs.declared.file_report.FileReport.{FileReport};

use crate::summary::summarize;
use command_refusals::{Refusal, refusal_of_add, refusal_of_create, refusal_of_read, report};
use command_words::BenchWords;
use disk_journal::create;
use file_outcomes::{FileReport, report_taken};
use generated_logs::GeneratedShelf;
use log_seams::{SharedDisk, Sink};
use logtype_text::one_list_of_parts;
use record_format::{Header, MAX_ARCHIVE_LEN, MAX_WORDS};
use std::alloc::Global;
use std::marker::Brand;
use std::sync::Wait;
use std::thread::Threads;
use write_commands::{NewLogs, add_lent, refuse_names};

/// The limits of the archive: those of `create` without options.
const LIMITS: Header = Header {
    version: 1,
    types_limit: 16_777_216,
    words_limit: MAX_WORDS,
    length_limit: MAX_ARCHIVE_LEN,
};

/// How many rows a segment has at most.
const SEGMENT: u32 = 65_536;

/// The names of the four logs.
fn log_names() -> [&'static str; 4]
    ensures { map str_bytes result ≡ generated_names }
{
    ["gen0", "gen1", "gen2", "gen3"]
}

/// Whether nothing was refused of any of the files.
fn all_whole(files: &[FileReport<'_>]) -> bool
    ensures yes { IsTrue result → All (λ (f : FileReport). f.refusal ≡ None) files.now }
    ensures no { IsFalse result → ¬ All (λ (f : FileReport). f.refusal ≡ None) files.now }
{
    files.iter().all(|file| file.refusal.is_none())
}

/// How many messages the archive has of all files.
fn messages_of(files: &[FileReport<'_>]) -> u128
    ensures { result ≡ sum_by (λ (f : FileReport). f.messages) files.now }
{
    let mut sum: u128 = 0;
    for file in files {
        sum += u128::from(file.messages);
    }
    sum
}

/// Tells what came of the logs: those that are not whole, or the summary of the archive.
fn sum_up<R: Threads + Sync, D: SharedDisk, K: Sink>(
    rt: &R,
    alloc: Global,
    files: &[FileReport<'_>],
    disk: &mut D,
    out: &mut K,
    err: &mut K,
) -> u8
    ensures told { (logs : List ℕ → Option (List ℕ))
        → AroundSinks K.written K.faults out.old out.new err.old err.new (λ seen.
        TellsParts (map (came_of logs) files.now) seen result
        ⊎ SumsUp (map (came_of logs) files.now) seen
        (D.Disk.state disk.old) (D.Disk.state disk.new) result) }
    ensures keeps { KeepsBytes (D.Disk.state disk.old) (D.Disk.state disk.new) }
    ensures disk { (D.Disk.state disk.old).faults ≤ (D.Disk.state disk.new).faults }
    ensures out { K.faults out.old ≤ K.faults out.new }
    ensures err { K.faults err.old ≤ K.faults err.new }
{
    if !all_whole(files) {
        return report_taken(err, files);
    }
    let outcome = summarize(rt, alloc, messages_of(files), disk, out);
    match refusal_of_read(outcome) {
        None => 0,
        Some(refusal) => report(err, "", refusal),
    }
}

/// Takes the four logs into the archive of a disk, and tells what came of them.
fn add_logs<R: Threads + Wait + Sync, D: SharedDisk + Send, K: Sink>(
    rt: &R,
    alloc: Global,
    asked: BenchWords,
    disk: &mut D,
    out: &mut K,
    err: &mut K,
) -> u8
    requires lines { asked.lines ≤ 1000000 }
    requires workers { (1 ≤ asked.workers) × (asked.workers ≤ MAX_WORKERS) }
    requires archive { IfSome (D.Disk.state disk.old).seen IsArchive }
    ensures ends { AroundSinks K.written K.faults out.old out.new err.old err.new (λ seen.
        EndsLogs (content_of asked.number asked.lines) asked.workers seen
        (D.Disk.state disk.old) (D.Disk.state disk.new) result) }
    ensures goes_on { DiskGoesOn (D.Disk.state disk.old) (D.Disk.state disk.new) }
    ensures out { K.faults out.old ≤ K.faults out.new }
    ensures err { K.faults err.old ≤ K.faults err.new }
{
    let names = log_names();
    if let Some(refusal) = refuse_names(&names) {
        return report(err, "", refusal_of_add(refusal));
    }
    let Ok(mut taken) = Vec::with_capacity(alloc, names.len()) else {
        return report(err, "", Refusal::OutOfMemory);
    };
    let logs = NewLogs {
        workers: asked.workers,
        segment: SEGMENT,
        files: &names,
    };
    let mut shelf = GeneratedShelf::new(asked.number, asked.lines);
    match add_lent::<R, GeneratedShelf, D, Brand>(rt, alloc, logs, &mut shelf, disk, &mut taken) {
        Ok(_) => sum_up(rt, alloc, taken.as_slice(), disk, out, err),
        Err(refusal) => report(err, "", refusal_of_add(refusal)),
    }
}

/// Makes an archive with the default limits on an empty disk, takes the four generated logs into it,
/// and prints how many messages there are, how many of them a pattern matches, and how many segments
/// there are. Where a log is not whole, its line goes to `err` and nothing is printed.
pub fn bench<R: Threads + Wait + Sync, D: SharedDisk + Send, K: Sink>(
    rt: &R,
    alloc: Global,
    asked: BenchWords,
    disk: &mut D,
    out: &mut K,
    err: &mut K,
) -> u8
    requires lines { asked.lines ≤ 1000000 }
    requires workers { (1 ≤ asked.workers) × (asked.workers ≤ MAX_WORKERS) }
    ensures answers { AroundSinks K.written K.faults out.old out.new err.old err.new (λ seen.
        AnswersBench asked.number asked.lines asked.workers seen
        (D.Disk.state disk.old) (D.Disk.state disk.new) result) }

    // whatever the answer
    ensures goes_on { DiskGoesOn (D.Disk.state disk.old) (D.Disk.state disk.new) }
    ensures out { K.faults out.old ≤ K.faults out.new }
    ensures err { K.faults err.old ≤ K.faults err.new }
{
    one_list_of_parts();
    let outcome = create(disk, &LIMITS);
    match refusal_of_create(outcome) {
        None => add_logs(rt, alloc, asked, disk, out, err),
        Some(refusal) => report(err, "", refusal),
    }
}
