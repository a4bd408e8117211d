//! Two workers that have to run beside each other, and a reader that has to run beside a worker.
ghost use Rattle.std.specs.Prelude.{None, Some};

use crate::machine::{SOUND, no_disk, untold};
use crate::outside::{NEVER, answer, disk};
use crate::wanted::Told;
use log_seams::{Failed, MemDisk, MemSink, OpenRefused, Shelf, Sink, Source};
use std::alloc::{AllocError, Global};
use std::sync::Wait;
use std::sync::atomic::{AtomicU64, Ordering};
use std::thread::Threads;

/// An archive without files, as `create` makes it.
static EMPTY: [u8; 33] = [
    0x43, 0x4C, 0x50, 0x41, 0x52, 0x43, 0x48, 0x0A, 0x01, 0x00, 0x00, 0x00, 0x00, 0x00, 0x00, 0x01,
    0x00, 0x00, 0x00, 0x80, 0x00, 0x00, 0x00, 0x00, 0x00, 0x00, 0x00, 0x00, 0x00, 0x01, 0x00, 0x00,
    0x00,
];

/// The words of a command line.
pub(crate) fn list_of(alloc: Global, words: &[&str]) -> Result<Vec<String>, AllocError> {
    let mut list = Vec::new(alloc);
    for word in words {
        list.push(String::from_str(alloc, word)?)?;
    }
    Ok(list)
}

/// How often a log asks for what it waits for, before it fails.
const TURNS: u64 = 1_000_000_000;

/// How many logs wait for each other.
const LOGS: u64 = 2;

/// The bytes of each log.
const LINE: &[u8] = b"7 x7\n";

/// A log whose first read waits until each of the logs was read. It tells nothing.
#[derive(Drop)]
struct MeetingLog<'a> {
    /// How many of the logs were read.
    begun: &'a AtomicU64,
    /// What is left of its bytes.
    left: &'static [u8],
    waited: bool,
    faults: u64,
}

/// Whether a count came to so much before the turns ran out.
fn comes_to(count: &AtomicU64, wanted: u64) -> bool {
    for _ in 0..TURNS {
        if count.load(Ordering::SeqCst) >= wanted {
            return true;
        }
    }
    false
}

impl Source for MeetingLog<'_> {
    ghost left = { λ _. None };

    ghost name = { λ _. None };

    ghost faults = { λ s. s.faults };

    fn read(&mut self, buf: &mut [u8]) -> Result<usize, Failed> {
        if !self.waited {
            self.waited = true;
            self.begun.fetch_add(1, Ordering::SeqCst);
            if !comes_to(self.begun, LOGS) {
                self.faults = self.faults.saturating_add(1);
                return Err(Failed);
            }
        }
        let count = self.left.len().min(buf.len());
        buf[..count].copy_from_slice(&self.left[..count]);
        self.left = &self.left[count..];
        Ok(count)
    }
}

/// A shelf that has such a log under each name.
#[derive(Drop)]
struct MeetingShelf<'a> {
    begun: &'a AtomicU64,
    faults: u64,
}

impl<'a> Shelf for MeetingShelf<'a> {
    type Src = MeetingLog<'a>;

    ghost content = { λ _ _. None };

    ghost unread = { λ _ _. None };

    ghost open_faults = { λ _ _. 0 };

    ghost read_faults = { λ s _. s.faults };

    fn open_log(&mut self, _name: &str) -> Result<MeetingLog<'a>, OpenRefused> {
        Ok(MeetingLog {
            begun: self.begun,
            left: LINE,
            waited: false,
            faults: 0,
        })
    }

    fn close_log(&mut self, src: MeetingLog<'a>) {
        self.faults = self.faults.saturating_add(src.faults);
    }
}

/// Whether two workers take in both logs.
fn are_met<R: Threads + Wait + Sync>(
    rt: &R,
    alloc: Global,
    words: &[String],
    archive: &mut MemDisk,
    second: &mut MemDisk,
    told: &mut Told,
) -> bool {
    let begun = AtomicU64::new(0);
    let mut logs = MeetingShelf {
        begun: &begun,
        faults: 0,
    };
    told.status = answer(
        rt,
        alloc,
        words,
        &mut logs,
        archive,
        second,
        &mut told.out,
        &mut told.err,
    );
    told.is(0, b"0 1 whole a.log\n1 1 whole b.log\n", b"")
}

fn are_met_anew<R: Threads + Wait + Sync>(rt: &R, alloc: Global) -> Result<bool, AllocError> {
    let words = list_of(alloc, &["ingest", "--workers", "2", "a.log", "b.log"])?;
    let mut archive = disk(alloc, &EMPTY, NEVER)?;
    let mut second = no_disk(alloc)?;
    let mut told = untold(alloc, &SOUND)?;
    Ok(are_met(
        rt,
        alloc,
        words.as_slice(),
        &mut archive,
        &mut second,
        &mut told,
    ))
}

#[test]
fn two_workers_read_two_logs_beside_each_other(rt: HostRuntime) {
    let met = are_met_anew(&rt, rt.alloc()).unwrap_or(false);
    assert!(rt; met);
}

/// The bytes of a log of which a message is printed while it is read.
const WATCHED: &[u8] = b"hit\nend\n";

/// How many of them the first read gives: the second line without its end.
const FIRST: usize = 7;

/// What is printed of the first line.
const HIT: &[u8] = b"a.log:1:hit\n";

/// A log whose reads behind the first wait until the message of its first line was printed. It tells
/// nothing.
#[derive(Drop)]
struct WaitingLog<'a> {
    /// How many bytes were printed.
    printed: &'a AtomicU64,
    /// What is left of its bytes.
    left: &'static [u8],
    begun: bool,
    faults: u64,
}

impl Source for WaitingLog<'_> {
    ghost left = { λ _. None };

    ghost name = { λ _. None };

    ghost faults = { λ s. s.faults };

    fn read(&mut self, buf: &mut [u8]) -> Result<usize, Failed> {
        let most = if self.begun { buf.len() } else { FIRST };
        if self.begun && !comes_to(self.printed, HIT.len() as u64) {
            self.faults = self.faults.saturating_add(1);
            return Err(Failed);
        }
        self.begun = true;
        let count = self.left.len().min(buf.len()).min(most);
        buf[..count].copy_from_slice(&self.left[..count]);
        self.left = &self.left[count..];
        Ok(count)
    }
}

/// A shelf that has such a log under each name.
#[derive(Drop)]
struct WaitingShelf<'a> {
    printed: &'a AtomicU64,
    faults: u64,
}

impl<'a> Shelf for WaitingShelf<'a> {
    type Src = WaitingLog<'a>;

    ghost content = { λ _ _. None };

    ghost unread = { λ _ _. None };

    ghost open_faults = { λ _ _. 0 };

    ghost read_faults = { λ s _. s.faults };

    fn open_log(&mut self, _name: &str) -> Result<WaitingLog<'a>, OpenRefused> {
        Ok(WaitingLog {
            printed: self.printed,
            left: WATCHED,
            begun: false,
            faults: 0,
        })
    }

    fn close_log(&mut self, src: WaitingLog<'a>) {
        self.faults = self.faults.saturating_add(src.faults);
    }
}

/// A sink that counts what it takes, or does not.
#[derive(Drop)]
struct CountingSink<'a> {
    sink: MemSink,
    /// How many bytes those took that count.
    taken: &'a AtomicU64,
    counts: bool,
}

impl Sink for CountingSink<'_> {
    ghost written = { λ s. Some s.sink.written };

    ghost faults = { λ s. s.sink.faults };

    fn write(&mut self, bytes: &[u8]) -> Result<usize, Failed> {
        match self.sink.write(bytes) {
            Ok(count) => {
                if self.counts {
                    self.taken.fetch_add(count as u64, Ordering::SeqCst);
                }
                Ok(count)
            }
            Err(failed) => Err(failed),
        }
    }
}

/// Such a sink with room for all that the test prints.
fn counting<'a>(
    alloc: Global,
    taken: &'a AtomicU64,
    counts: bool,
) -> Result<CountingSink<'a>, AllocError> {
    Ok(CountingSink {
        sink: MemSink::new(alloc, 4096, Vec::new(alloc))?,
        taken,
        counts,
    })
}

/// Whether the words take the log in and print both of its lines.
fn is_printed<R: Threads + Wait + Sync>(
    rt: &R,
    alloc: Global,
    words: &[String],
    archive: &mut MemDisk,
    second: &mut MemDisk,
) -> Result<bool, AllocError> {
    let printed = AtomicU64::new(0);
    // with a count for each it would not be known how long the two are lent
    let mut out = counting(alloc, &printed, true)?;
    let mut err = counting(alloc, &printed, false)?;
    let mut logs = WaitingShelf {
        printed: &printed,
        faults: 0,
    };
    let status = answer(
        rt, alloc, words, &mut logs, archive, second, &mut out, &mut err,
    );
    Ok(
        status == 0
            && out.sink.bytes() == b"a.log:1:hit\n0 2 whole a.log\n".as_slice()
            && err.sink.bytes().is_empty(),
    )
}

fn is_printed_anew<R: Threads + Wait + Sync>(rt: &R, alloc: Global) -> Result<bool, AllocError> {
    let words = list_of(
        alloc,
        &["ingest", "--segment", "1", "--watch", "hit", "a.log"],
    )?;
    let mut archive = disk(alloc, &EMPTY, NEVER)?;
    let mut second = disk(alloc, &[], NEVER)?;
    is_printed(rt, alloc, words.as_slice(), &mut archive, &mut second)
}

// The log is not read to its end before the line of its first message was printed.
#[test]
fn a_message_is_printed_while_its_log_is_read(rt: HostRuntime) {
    let well = is_printed_anew(&rt, rt.alloc()).unwrap_or(false);
    assert!(rt; well);
}
