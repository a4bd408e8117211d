//! Calls on a disk, each with what it is to answer, as the rows of a test's table.
use log_seams::{Disk, Failed};

/// A call on a disk, and what it is to answer.
pub(crate) enum DiskCall {
    /// How many bytes there are.
    Len(Result<u64, Failed>),
    /// A read at a place into eight bytes that are 0: how many it gives, and the eight bytes behind it.
    Read(u64, Result<usize, Failed>, &'static [u8; 8]),
    /// A write at a place.
    Write(u64, &'static [u8], Result<(), Failed>),
    Sync(Result<(), Failed>),
    /// How many calls failed.
    Faults(u64),
}

fn reads<D: Disk>(disk: &mut D, at: u64, count: Result<usize, Failed>, bytes: &[u8; 8]) -> bool {
    let mut buf = [0; 8];
    disk.read(at, &mut buf) == count && buf == *bytes
}

/// No table has a write past these bounds.
fn writes<D: Disk>(disk: &mut D, at: u64, bytes: &[u8], answer: Result<(), Failed>) -> bool {
    at < 1000 && bytes.len() < 1000 && disk.write(at, bytes) == answer
}

/// Whether the call answers so.
fn answers<D: Disk>(disk: &mut D, call: &DiskCall) -> bool {
    match call {
        DiskCall::Len(answer) => disk.len() == *answer,
        DiskCall::Read(at, count, bytes) => reads(disk, *at, *count, bytes),
        DiskCall::Write(at, bytes, answer) => writes(disk, *at, bytes, *answer),
        DiskCall::Sync(answer) => disk.sync() == *answer,
        DiskCall::Faults(count) => disk.faults() == *count,
    }
}

/// Whether the calls, one after the other, answer so.
pub(crate) fn all_answer<D: Disk>(disk: &mut D, calls: &[DiskCall]) -> bool {
    for call in calls {
        if !answers(disk, call) {
            return false;
        }
    }
    true
}
