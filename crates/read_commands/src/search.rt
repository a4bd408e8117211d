//! The command `search`: the messages of an archive that a pattern matches.
ghost use Rattle.std.specs.Prelude.{◌≡◌, ◌≤◌, ℕ, is_ok, IfOk, IsErrOf, OnErr, OnOk};
ghost use Rattle.log_seams.specs.Disk.{KeepsBytes};
ghost use Rattle.log_seams.specs.Outside.{CountsOf};
ghost use Rattle.sink_pieces.specs.Output.{Grew, GrewByFront};
ghost use Rattle.step_count.specs.Opens.{OpensFor};
ghost use Rattle.query_plan.specs.Laws.{IsSearched};
ghost use Rattle.archive_open.specs.Shown.{RefusedAt};
ghost use Rattle.search_meaning.specs.Journal.{asked};
ghost use Rattle.command_refusals.specs.GoesOn.{DiskGoesOn};
ghost use Rattle.command_refusals.specs.Outside.{AroundSinks};
ghost use Rattle.command_answers.specs.Answers.{AnswersPattern};
ghost use Rattle.command_answers.specs.Searching.{PrintsFound, SparesBarren, found_counts};

use archive_places::open_places;
use column_store::Range;
use command_refusals::{ReadRefusal, answer, refusal_of_pattern, refusal_of_read, report};
use command_words::SearchWords;
use log_seams::{SharedDisk, Sink};
use query_plan::wide_is_wider;
use search_engine::{Report, search};
use search_refusals::of_search;
use sink_pieces::write_all;
use std::alloc::{AllocError, Global};
use std::marker::Brand;
use std::sync::ledger::{Blank, Ledger};
use std::thread::Threads;
use step_count::Steps;
use wild_match::{Pattern, read_pattern};

/// The line of the counts.
fn found_line(alloc: Global, report: &Report) -> Result<Vec<u8>, AllocError>
    ensures { IfOk result (λ line. line.items ≡ found_counts report.now) }
{
    let mut line = Vec::new(alloc);
    let mut digits = itoa::Buffer::new();
    line.extend_from_slice(b"matched ")?;
    line.extend_from_slice(digits.format(report.matched).as_bytes())?;
    line.extend_from_slice(b" expanded ")?;
    line.extend_from_slice(digits.format(report.expanded).as_bytes())?;
    line.extend_from_slice(b" opened ")?;
    line.extend_from_slice(digits.format(report.opened).as_bytes())?;
    line.extend_from_slice(b" segments ")?;
    line.extend_from_slice(digits.format(report.segments).as_bytes())?;
    line.push(b'\n')?;
    Ok(line)
}

/// Prints the line of the counts.
fn print_counts<K: Sink>(alloc: Global, report: &Report, out: &mut K) -> Result<(), ReadRefusal>
    // by the answer
    ensures ok { OnOk result
        (Grew (K.written out.old) (K.written out.new) (found_counts report.now)) }
    ensures err { OnErr result
        (GrewByFront (K.written out.old) (K.written out.new) (found_counts report.now)) }

    // causes
    ensures disk { ¬ IsErrOf result ReadRefusal.DiskFault }
    ensures damaged { (at : ℕ) → ¬ IsErrOf result (ReadRefusal.Damaged at) }
    ensures sink { CountsOf ReadRefusal.SinkFault (K.faults out.old) (K.faults out.new) result }
{
    let line = found_line(alloc, report)?;
    write_all(out, line.as_slice())?;
    Ok(())
}

/// What is searched for, and how.
#[derive(Clone, Copy)]
struct Wanted<'a> {
    /// How many workers there are. With any number the search prints the same.
    workers: u32,
    /// What the messages are to match.
    pattern: &'a Pattern,
    /// Of which time they are to be.
    range: &'a Range,
    /// Whether the line of the counts follows.
    stats: bool,
}

/// The search, with counters that nobody reads.
fn search_with<R: Threads + Sync, D: SharedDisk, K: Sink, L: Ledger, M: Ledger>(
    rt: &R,
    alloc: Global,
    wanted: Wanted<'_>,
    disk: &mut D,
    out: &mut K,
    opened: Blank,
    expanded: Blank,
) -> Result<(), ReadRefusal>
    requires opened { OpensFor opened L.name L.parts }
    requires expanded { OpensFor expanded M.name M.parts }
    requires searched { IsSearched wanted.pattern.now }

    // what stays
    ensures keeps { KeepsBytes (D.Disk.state disk.old) (D.Disk.state disk.new) }
    ensures reads { SparesBarren (asked wanted.entry.pattern.now wanted.entry.range.now)
        (D.Disk.state disk.old).seen (D.Disk.state disk.old).ranges (D.Disk.state disk.new).ranges }

    // by the answer
    ensures prints { PrintsFound (is_ok result)
        (asked wanted.entry.pattern.now wanted.entry.range.now) wanted.entry.stats
        (D.Disk.state disk.old).seen (K.written out.old) (K.written out.new) }

    // causes
    ensures damaged { (at : ℕ) → IsErrOf result (ReadRefusal.Damaged at)
        → RefusedAt at (D.Disk.state disk.old).seen }
    ensures disk { CountsOf ReadRefusal.DiskFault
        (D.Disk.state disk.old).faults (D.Disk.state disk.new).faults result }
    ensures sink { CountsOf ReadRefusal.SinkFault (K.faults out.old) (K.faults out.new) result }
{
    let places = open_places(alloc, disk)?;
    let last = places.end.saturating_sub(1);
    let mut opened: Steps<L> = Steps::new(opened);
    let mut expanded: Steps<M> = Steps::new(expanded);
    let answer = search(
        rt,
        wanted.workers,
        alloc,
        places,
        disk,
        wanted.pattern,
        wanted.range,
        out,
        &mut opened,
        &mut expanded,
    );
    let report = match answer {
        Ok(report) => report,
        // The search tells no place. The first damage is not behind the last gate.
        Err(refusal) => return Err(of_search(refusal, last)),
    };
    if wanted.stats {
        print_counts(alloc, &report, out)?;
    }
    Ok(())
}

/// Opens the archive of a disk, and prints the messages that are wanted.
fn search_archive<R: Threads + Sync, D: SharedDisk, K: Sink>(
    rt: &R,
    alloc: Global,
    wanted: Wanted<'_>,
    disk: &mut D,
    out: &mut K,
) -> Result<(), ReadRefusal>
    requires searched { IsSearched wanted.pattern.now }

    // what stays
    ensures keeps { KeepsBytes (D.Disk.state disk.old) (D.Disk.state disk.new) }
    ensures reads { SparesBarren (asked wanted.entry.pattern.now wanted.entry.range.now)
        (D.Disk.state disk.old).seen (D.Disk.state disk.old).ranges (D.Disk.state disk.new).ranges }

    // by the answer
    ensures prints { PrintsFound (is_ok result)
        (asked wanted.entry.pattern.now wanted.entry.range.now) wanted.entry.stats
        (D.Disk.state disk.old).seen (K.written out.old) (K.written out.new) }

    // causes
    ensures damaged { (at : ℕ) → IsErrOf result (ReadRefusal.Damaged at)
        → RefusedAt at (D.Disk.state disk.old).seen }
    ensures disk { CountsOf ReadRefusal.DiskFault
        (D.Disk.state disk.old).faults (D.Disk.state disk.new).faults result }
    ensures sink { CountsOf ReadRefusal.SinkFault (K.faults out.old) (K.faults out.new) result }
{
    search_with::<R, D, K, Brand, Brand>(rt, alloc, wanted, disk, out, Blank::new(1), Blank::new(1))
}

/// Prints the messages of the archive that the pattern of a text matches in a range.
pub fn search_messages<R: Threads + Sync, D: SharedDisk, K: Sink>(
    rt: &R,
    alloc: Global,
    asked: &SearchWords<'_>,
    disk: &mut D,
    out: &mut K,
    err: &mut K,
) -> u8
    ensures answers { AroundSinks K.written K.faults out.old out.new err.old err.new (λ seen.
        AnswersPattern asked.now.from asked.now.to asked.now.stats asked.now.pattern.now seen
        (D.Disk.state disk.old) (D.Disk.state disk.new) result) }
    ensures keeps { KeepsBytes (D.Disk.state disk.old) (D.Disk.state disk.new) }
    ensures goes_on { DiskGoesOn (D.Disk.state disk.old) (D.Disk.state disk.new) }
    ensures out { K.faults out.old ≤ K.faults out.new }
    ensures err { K.faults err.old ≤ K.faults err.new }
{
    match read_pattern(alloc, asked.pattern.as_bytes()) {
        Ok(pattern) => {
            wide_is_wider();
            let range = Range {
                from: asked.from,
                to: asked.to,
            };
            let wanted = Wanted {
                workers: asked.workers,
                pattern: &pattern,
                range: &range,
                stats: asked.stats,
            };
            let outcome = search_archive(rt, alloc, wanted, disk, out);
            answer(refusal_of_read(outcome), "", err)
        }
        Err(refusal) => report(err, "", refusal_of_pattern(refusal)),
    }
}
