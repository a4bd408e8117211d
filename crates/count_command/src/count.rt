//! Counting the messages of an archive, and printing the groups.
ghost use Rattle.std.specs.Prelude.{◌≤◌, ℕ, is_ok, IfOk, IsErrOf};
ghost use Rattle.log_seams.specs.Disk.{KeepsBytes};
ghost use Rattle.log_seams.specs.Outside.{CountsOf};
ghost use Rattle.step_count.specs.Opens.{OpensFor};
ghost use Rattle.query_plan.specs.Laws.{IsSearched};
ghost use Rattle.archive_open.specs.Shown.{RefusedAt};
ghost use Rattle.search_meaning.specs.Journal.{OfJournal, asked};
ghost use Rattle.command_refusals.specs.GoesOn.{DiskGoesOn};
ghost use Rattle.command_refusals.specs.Outside.{AroundSinks};
ghost use Rattle.command_answers.specs.Answers.{AnswersCount};
ghost use Rattle.command_answers.specs.Grouping.{IsCounted, PrintsGroups};
ghost use Rattle.command_answers.specs.Searching.{SparesBarren};

use crate::text::{group_by, text_of};
use archive_places::open_places;
use column_store::Range;
use command_refusals::{ReadRefusal, answer, refusal_of_pattern, refusal_of_read, report};
use command_words::CountWords;
use group_count::{GroupQuery, Grouped, Workers, group};
use log_seams::{SharedDisk, Sink};
use query_plan::wide_is_wider;
use search_refusals::of_search;
use sink_pieces::write_all;
use std::alloc::Global;
use std::marker::Brand;
use std::sync::ledger::{Blank, Ledger};
use std::thread::Threads;
use step_count::Steps;
use wild_match::read_pattern;

// The groups, with counters that nobody reads.
fn group_with<R: Threads + Sync, D: SharedDisk, L: Ledger, M: Ledger>(
    workers: Workers<'_, R>,
    alloc: Global,
    wanted: GroupQuery<'_>,
    disk: &mut D,
    opened: Blank,
    expanded: Blank,
) -> Result<Grouped, ReadRefusal>
    requires opened { OpensFor opened L.name L.parts }
    requires expanded { OpensFor expanded M.name M.parts }
    requires searched { IsSearched wanted.pattern.now }

    // what stays
    ensures keeps { KeepsBytes (D.Disk.state disk.old) (D.Disk.state disk.new) }
    ensures reads { SparesBarren (asked wanted.entry.pattern.now wanted.entry.range.now)
        (D.Disk.state disk.old).seen (D.Disk.state disk.old).ranges (D.Disk.state disk.new).ranges }

    // by the answer
    ensures counted { IfOk result (λ g. OfJournal (D.Disk.state disk.old).seen (λ h es held.
        IsCounted h es held (asked wanted.entry.pattern.now wanted.entry.range.now)
        wanted.entry.by g)) }

    // causes
    ensures damaged { (at : ℕ) → IsErrOf result (ReadRefusal.Damaged at)
        → RefusedAt at (D.Disk.state disk.old).seen }
    ensures disk { CountsOf ReadRefusal.DiskFault
        (D.Disk.state disk.old).faults (D.Disk.state disk.new).faults result }
    ensures sink { ¬ IsErrOf result ReadRefusal.SinkFault }
{
    let places = open_places(alloc, disk)?;
    let last = places.end.saturating_sub(1);
    let mut opened: Steps<L> = Steps::new(opened);
    let mut expanded: Steps<M> = Steps::new(expanded);
    let answer = group(
        workers,
        alloc,
        places,
        disk,
        wanted,
        &mut opened,
        &mut expanded,
    );
    match answer {
        Ok(grouped) => Ok(grouped),
        // The count tells no place. The first damage is not behind the last gate.
        Err(refusal) => Err(of_search(refusal, last)),
    }
}

/// Opens the archive of a disk, and counts the messages that a pattern matches in a range.
fn group_archive<R: Threads + Sync, D: SharedDisk>(
    workers: Workers<'_, R>,
    alloc: Global,
    wanted: GroupQuery<'_>,
    disk: &mut D,
) -> Result<Grouped, ReadRefusal>
    requires searched { IsSearched wanted.pattern.now }

    // what stays
    ensures keeps { KeepsBytes (D.Disk.state disk.old) (D.Disk.state disk.new) }
    ensures reads { SparesBarren (asked wanted.entry.pattern.now wanted.entry.range.now)
        (D.Disk.state disk.old).seen (D.Disk.state disk.old).ranges (D.Disk.state disk.new).ranges }

    // by the answer
    ensures counted { IfOk result (λ g. OfJournal (D.Disk.state disk.old).seen (λ h es held.
        IsCounted h es held (asked wanted.entry.pattern.now wanted.entry.range.now)
        wanted.entry.by g)) }

    // causes
    ensures damaged { (at : ℕ) → IsErrOf result (ReadRefusal.Damaged at)
        → RefusedAt at (D.Disk.state disk.old).seen }
    ensures disk { CountsOf ReadRefusal.DiskFault
        (D.Disk.state disk.old).faults (D.Disk.state disk.new).faults result }
    ensures sink { ¬ IsErrOf result ReadRefusal.SinkFault }
{
    group_with::<R, D, Brand, Brand>(workers, alloc, wanted, disk, Blank::new(1), Blank::new(1))
}

/// Counts the messages that a pattern matches in a range, and prints the groups. With `stats` the
/// line of the counts follows.
fn print_groups<R: Threads + Sync, D: SharedDisk, K: Sink>(
    workers: Workers<'_, R>,
    alloc: Global,
    wanted: GroupQuery<'_>,
    stats: bool,
    disk: &mut D,
    out: &mut K,
) -> Result<(), ReadRefusal>
    requires searched { IsSearched wanted.pattern.now }

    // what stays
    ensures keeps { KeepsBytes (D.Disk.state disk.old) (D.Disk.state disk.new) }
    ensures reads { SparesBarren (asked wanted.entry.pattern.now wanted.entry.range.now)
        (D.Disk.state disk.old).seen (D.Disk.state disk.old).ranges (D.Disk.state disk.new).ranges }

    // by the answer
    ensures prints { PrintsGroups (is_ok result)
        (asked wanted.entry.pattern.now wanted.entry.range.now) wanted.entry.by stats
        (D.Disk.state disk.old).seen (K.written out.old) (K.written out.new) }

    // causes
    ensures damaged { (at : ℕ) → IsErrOf result (ReadRefusal.Damaged at)
        → RefusedAt at (D.Disk.state disk.old).seen }
    ensures disk { CountsOf ReadRefusal.DiskFault
        (D.Disk.state disk.old).faults (D.Disk.state disk.new).faults result }
    ensures sink { CountsOf ReadRefusal.SinkFault (K.faults out.old) (K.faults out.new) result }
{
    let grouped = group_archive(workers, alloc, wanted, disk)?;
    let text = text_of(alloc, wanted.by, stats, &grouped)?;
    write_all(out, text.as_slice())?;
    Ok(())
}

/// Prints how many messages of the archive the pattern of a text matches in a range, by log type or
/// by minute. With any number of workers it prints the same.
///
/// The output takes nothing before all is counted.
pub fn count_messages<R: Threads + Sync, D: SharedDisk, K: Sink>(
    rt: &R,
    alloc: Global,
    asked: &CountWords<'_>,
    disk: &mut D,
    out: &mut K,
    err: &mut K,
) -> u8
    ensures answers { AroundSinks K.written K.faults out.old out.new err.old err.new (λ seen.
        AnswersCount asked.now.by asked.now.from asked.now.to asked.now.stats
        asked.now.pattern.now seen (D.Disk.state disk.old) (D.Disk.state disk.new) result) }
    ensures keeps { KeepsBytes (D.Disk.state disk.old) (D.Disk.state disk.new) }
    ensures goes_on { DiskGoesOn (D.Disk.state disk.old) (D.Disk.state disk.new) }
    ensures out { K.faults out.old ≤ K.faults out.new }
    ensures err { K.faults err.old ≤ K.faults err.new }
{
    match read_pattern(alloc, asked.pattern.as_bytes()) {
        Ok(pattern) => {
            wide_is_wider();
            let range = Range {
                from: asked.from,
                to: asked.to,
            };
            let by = group_by(asked.by);
            let wanted = GroupQuery {
                pattern: &pattern,
                range: &range,
                by,
            };
            let workers = Workers {
                rt,
                count: asked.workers,
            };
            let outcome = print_groups(workers, alloc, wanted, asked.stats, disk, out);
            answer(refusal_of_read(outcome), "", err)
        }
        Err(refusal) => report(err, "", refusal_of_pattern(refusal)),
    }
}
