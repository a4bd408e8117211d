//! What is outside of a call, in memory, and the call.
ghost use Rattle.std.specs.Prelude.{None};

use clp_commands::run;
use log_seams::{Failed, MemDisk, MemFile, MemShelf, MemSink, SharedDisk, Shelf, Sink};
use plain_list::Text;
use std::alloc::{AllocError, Global};
use std::sync::Wait;
use std::thread::Threads;

/// The number of a call that is never made.
pub(crate) const NEVER: u64 = u64::MAX;

/// A disk with these bytes and room for those of most archives here, whose call of this number fails.
pub(crate) fn disk(alloc: Global, bytes: &[u8], fault: u64) -> Result<MemDisk, AllocError> {
    disk_within(alloc, bytes, fault, 1 << 16, 1000)
}

/// A disk with these bytes and room for so many bytes and calls, whose call of this number fails.
pub(crate) fn disk_within(
    alloc: Global,
    bytes: &[u8],
    fault: u64,
    room: usize,
    calls: usize,
) -> Result<MemDisk, AllocError> {
    let text = Text::new(bytes.to_vec(alloc)?);
    MemDisk::new(alloc, text, room, calls, vec![in alloc; fault; 1]?)
}

/// A log: its name, its bytes, and the number of its read that fails.
#[derive(Drop)]
pub(crate) struct Log {
    name: Vec<u8>,
    bytes: Vec<u8>,
    fault: u64,
}

/// The place of the log with this name.
fn place_of(logs: &[Log], name: &[u8]) -> Option<usize> {
    for (place, log) in logs.iter().enumerate() {
        if log.name.as_slice() == name {
            return Some(place);
        }
    }
    None
}

/// Puts a log among the others, in the place of the one that had its name.
pub(crate) fn put_log(
    alloc: Global,
    logs: &mut Vec<Log>,
    name: &[u8],
    bytes: &[u8],
    fault: u64,
) -> Result<(), AllocError> {
    let log = Log {
        name: name.to_vec(alloc)?,
        bytes: bytes.to_vec(alloc)?,
        fault,
    };
    let place = place_of(logs.as_slice(), name);
    if let Some(old) = place.and_then(|place| logs.get_mut(place)) {
        *old = log;
        return Ok(());
    }
    Ok(logs.push(log)?)
}

/// The text of these bytes; of bytes that are none, a question mark.
pub(crate) fn string_of(alloc: Global, bytes: &[u8]) -> Result<String, AllocError> {
    String::from_str(alloc, str::from_utf8(bytes).unwrap_or("?"))
}

/// A log as it stands on a shelf.
fn file_of(alloc: Global, log: &Log) -> Result<MemFile, AllocError> {
    Ok(MemFile {
        name: string_of(alloc, log.name.as_slice())?,
        bytes: Text::new(log.bytes.as_slice().to_vec(alloc)?),
        read_fails: vec![in alloc; log.fault; 1]?,
    })
}

/// A shelf with these logs, whose opening of this number fails.
pub(crate) fn shelf(alloc: Global, logs: &[Log], fault: u64) -> Result<MemShelf, AllocError> {
    let mut files = Vec::new(alloc);
    for log in logs {
        files.push(file_of(alloc, log)?)?;
    }
    Ok(MemShelf::new(alloc, files, vec![in alloc; fault; 1]?))
}

/// What an output takes: how many bytes in all, how many at most of each write, and the number of the
/// write that fails.
#[derive(Clone, Copy)]
pub(crate) struct Limits {
    pub(crate) room: usize,
    pub(crate) most: usize,
    pub(crate) fault: u64,
}

/// A sink that may take less than all of a write. It tells nothing.
#[derive(Drop)]
pub(crate) struct Paper {
    sink: MemSink,
    most: usize,
}

impl Paper {
    /// An empty one.
    pub(crate) fn new(alloc: Global, limits: Limits) -> Result<Paper, AllocError> {
        let sink = MemSink::new(alloc, limits.room, vec![in alloc; limits.fault; 1]?)?;
        Ok(Paper {
            sink,
            most: limits.most,
        })
    }

    /// What was written.
    pub(crate) fn bytes(&self) -> &[u8] {
        self.sink.bytes()
    }
}

impl Sink for Paper {
    ghost written = { λ _. None };

    ghost faults = { λ s. s.sink.faults };

    fn write(&mut self, bytes: &[u8]) -> Result<usize, Failed> {
        let count = bytes.len().min(self.most.max(1));
        self.sink.write(&bytes[..count])
    }
}

/// What `run` answers where no archive is known that the disk holds.
pub(crate) fn answer<R: Threads + Wait + Sync, H: Shelf, D: SharedDisk + Send, K: Sink + Send>(
    rt: &R,
    alloc: Global,
    words: &[String],
    logs: &mut H,
    archive: &mut D,
    second: &mut D,
    out: &mut K,
    err: &mut K,
) -> u8
where
    H::Src: Send,
{
    run(rt, alloc, words, logs, archive, second, out, err)
}
