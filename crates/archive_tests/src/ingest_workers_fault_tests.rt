//! Two logs over a disk of which one call after the other fails.
use crate::worn::{WornDisk, begun, records};
use dict_core::Book;
use ingest_workers::{Cause, Job, Outcome, ingest};
use log_seams::PlainSource;
use plain_list::Text;
use std::alloc::Global;
use std::sync::Wait;
use std::thread::Threads;

/// What comes of a log of three lines on the empty disk; None where there is no archive to take it.
fn ingested<R: Threads + Wait + Sync>(
    rt: &R,
    alloc: Global,
    log: Text,
    disk: &mut WornDisk,
) -> Option<Outcome> {
    let journal = begun(disk)?;
    let mut jobs = [Job::new(0, PlainSource::new(log))];
    let (types, words) = (Book::new(alloc, 10), Book::new(alloc, 10));
    match ingest(rt, alloc, &mut jobs, 1, 2, journal, types, words) {
        Ok(_) => Some(jobs[0].outcome()),
        Err(_) => None,
    }
}

/// What comes of the log where the call with this number fails, and how many records there are then.
fn with_bad_call<R: Threads + Wait + Sync>(
    rt: &R,
    alloc: Global,
    bad: u64,
    stays: bool,
) -> Option<(Option<Outcome>, Option<u64>)> {
    let mut disk = WornDisk::new(alloc, &[], bad, stays).ok()?;
    let log = Text::new(b"a 1\nb 2\nc 3\n".to_vec(alloc).ok()?);
    let outcome = ingested(rt, alloc, log, &mut disk);
    Some((outcome, records(&mut disk)))
}

/// What comes of the log where the call with this number fails: three calls make the archive and four
/// open it. Each of the two segments is two records, the texts of its log types and the rows, of four
/// calls each.
fn comes_of(bad: u64) -> Option<Outcome> {
    let (messages, cause) = match bad {
        0..7 => return None,
        7..15 => (0, Some(Cause::DiskFault { opened: 0, now: 1 })),
        15..23 => (2, Some(Cause::DiskFault { opened: 0, now: 1 })),
        _ => (3, None),
    };
    Some(Outcome {
        messages,
        whole: cause.is_none(),
        cause,
    })
}

/// Whether that comes of the log, and at least the records are there that it was told of.
fn is_told<R: Threads + Wait + Sync>(rt: &R, alloc: Global, bad: u64, stays: bool) -> bool {
    let Some((outcome, records)) = with_bad_call(rt, alloc, bad, stays) else {
        return false;
    };
    let sealed = match &outcome {
        Some(outcome) => outcome.messages.div_ceil(2).saturating_mul(2),
        None => 0,
    };
    let found = records.unwrap_or(0);
    outcome == comes_of(bad) && sealed <= found && found - sealed <= 2
}

#[test]
fn a_log_over_a_disk_whose_calls_fail(rt: HostRuntime) {
    for bad in 0..24 {
        assert!(rt; is_told(&rt, rt.alloc(), bad, false), "{bad}");
        assert!(rt; is_told(&rt, rt.alloc(), bad, true), "{bad}");
    }
}
