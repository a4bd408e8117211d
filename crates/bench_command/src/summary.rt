//! The summary of an archive: how many messages it has, how many of them are found, and how many
//! segments there are.
ghost use Rattle.std.specs.Prelude.{◌≡◌, ℕ, None, is_ok, IfErr, IfOk, IsErrOf};
ghost use Rattle.log_seams.specs.Disk.{KeepsBytes};
ghost use Rattle.log_seams.specs.Outside.{CountsOf};
ghost use Rattle.step_count.specs.Opens.{OpensFor};
ghost use Rattle.wild_match.specs.Reading.{IsSearchPattern};
ghost use Rattle.archive_open.specs.Shown.{RefusedAt};
ghost use Rattle.search_meaning.specs.Journal.{OfJournal};
ghost use Rattle.command_answers.specs.Benched.{AreCounted, PrintsSummary, sought, summary};

use archive_places::open_places;
use column_store::Range;
use command_refusals::ReadRefusal;
use log_seams::{Failed, SharedDisk, Sink};
use query_plan::wide_is_wider;
use search_engine::{Report, search};
use search_refusals::of_search;
use sink_pieces::write_all;
use std::alloc::{AllocError, Global};
use std::marker::Brand;
use std::sync::ledger::{Blank, Ledger};
use std::thread::Threads;
use step_count::Steps;
use wild_match::{Pattern, PatternRefusal, read_pattern};

/// A sink that drops all that it takes, and never fails.
#[derive(Clone, Copy, Debug)]
struct Dropping;

impl Sink for Dropping {
    ghost written = { λ _. None };

    ghost faults = { λ _. 0 };

    fn write(&mut self, bytes: &[u8]) -> Result<usize, Failed> {
        Ok(bytes.len())
    }
}

/// The pattern of what is searched for.
fn read_sought(alloc: Global) -> Result<Pattern, ReadRefusal>
    ensures ok { IfOk result (IsSearchPattern sought) }
    ensures err { IfErr result (λ r. r ≡ ReadRefusal.OutOfMemory) }
{
    match read_pattern(alloc, b"task_*3 took") {
        Ok(pattern) => Ok(pattern),
        Err(PatternRefusal::OutOfMemory) => Err(ReadRefusal::OutOfMemory),
        // its last byte is no backslash
        Err(PatternRefusal::BadPattern { .. }) => unreachable!(),
    }
}

// The search, with counters that nobody reads.
fn count_with<R: Threads + Sync, D: SharedDisk, L: Ledger, M: Ledger>(
    rt: &R,
    alloc: Global,
    disk: &mut D,
    opened: Blank,
    expanded: Blank,
) -> Result<Report, ReadRefusal>
    requires opened { OpensFor opened L.name L.parts }
    requires expanded { OpensFor expanded M.name M.parts }
    ensures keeps { KeepsBytes (D.Disk.state disk.old) (D.Disk.state disk.new) }
    ensures counted { IfOk result (λ r. OfJournal (D.Disk.state disk.old).seen
        (λ h es held. AreCounted h es held r.matched r.segments)) }

    // causes
    ensures damaged { (at : ℕ) → IsErrOf result (ReadRefusal.Damaged at)
        → RefusedAt at (D.Disk.state disk.old).seen }
    ensures disk { CountsOf ReadRefusal.DiskFault
        (D.Disk.state disk.old).faults (D.Disk.state disk.new).faults result }
    ensures sink { ¬ IsErrOf result ReadRefusal.SinkFault }
{
    let pattern = read_sought(alloc)?;
    wide_is_wider();
    let range = Range {
        from: None,
        to: None,
    };
    let places = open_places(alloc, disk)?;
    let last = places.end.saturating_sub(1);
    let mut opened: Steps<L> = Steps::new(opened);
    let mut expanded: Steps<M> = Steps::new(expanded);
    let answer = search(
        rt,
        1,
        alloc,
        places,
        disk,
        &pattern,
        &range,
        &mut Dropping,
        &mut opened,
        &mut expanded,
    );
    match answer {
        Ok(report) => Ok(report),
        Err(refusal) => Err(of_search(refusal, last)),
    }
}

/// Opens the archive of a disk, and counts the messages that are found, and the segments.
fn count<R: Threads + Sync, D: SharedDisk>(
    rt: &R,
    alloc: Global,
    disk: &mut D,
) -> Result<Report, ReadRefusal>
    ensures keeps { KeepsBytes (D.Disk.state disk.old) (D.Disk.state disk.new) }
    ensures counted { IfOk result (λ r. OfJournal (D.Disk.state disk.old).seen
        (λ h es held. AreCounted h es held r.matched r.segments)) }

    // causes
    ensures damaged { (at : ℕ) → IsErrOf result (ReadRefusal.Damaged at)
        → RefusedAt at (D.Disk.state disk.old).seen }
    ensures disk { CountsOf ReadRefusal.DiskFault
        (D.Disk.state disk.old).faults (D.Disk.state disk.new).faults result }
    ensures sink { ¬ IsErrOf result ReadRefusal.SinkFault }
{
    count_with::<R, D, Brand, Brand>(rt, alloc, disk, Blank::new(1), Blank::new(1))
}

/// The line of the summary.
fn summary_line(alloc: Global, messages: u128, report: &Report) -> Result<Vec<u8>, AllocError>
    ensures { IfOk result
        (λ line. line.items ≡ summary messages report.now.matched report.now.segments) }
{
    let mut line = Vec::new(alloc);
    let mut digits = itoa::Buffer::new();
    line.extend_from_slice(b"messages ")?;
    line.extend_from_slice(digits.format(messages).as_bytes())?;
    line.extend_from_slice(b" matched ")?;
    line.extend_from_slice(digits.format(report.matched).as_bytes())?;
    line.extend_from_slice(b" segments ")?;
    line.extend_from_slice(digits.format(report.segments).as_bytes())?;
    line.push(b'\n')?;
    Ok(line)
}

/// Opens the archive of a disk, and prints its summary, with so many messages.
pub(crate) fn summarize<R: Threads + Sync, D: SharedDisk, K: Sink>(
    rt: &R,
    alloc: Global,
    messages: u128,
    disk: &mut D,
    out: &mut K,
) -> Result<(), ReadRefusal>
    ensures keeps { KeepsBytes (D.Disk.state disk.old) (D.Disk.state disk.new) }
    ensures prints { PrintsSummary (is_ok result) messages
        (D.Disk.state disk.old).seen (K.written out.old) (K.written out.new) }

    // causes
    ensures damaged { (at : ℕ) → IsErrOf result (ReadRefusal.Damaged at)
        → RefusedAt at (D.Disk.state disk.old).seen }
    ensures disk { CountsOf ReadRefusal.DiskFault
        (D.Disk.state disk.old).faults (D.Disk.state disk.new).faults result }
    ensures sink { CountsOf ReadRefusal.SinkFault (K.faults out.old) (K.faults out.new) result }
{
    let report = count(rt, alloc, disk)?;
    let line = summary_line(alloc, messages, &report)?;
    write_all(out, line.as_slice())?;
    Ok(())
}
