//! The adapters over files and streams whose calls are interrupted, and give or take a part.
ghost use Rattle.std.specs.Prelude.{◌≤◌, length};

use crate::halting::{Halting, HaltingPlace};
use crate::telling::holds;
use host_files::{DiskFile, LogFile, Stream};
use log_seams::{Disk, Failed, Sink, Source};
use std::alloc::{AllocError, Global};
use std::cell::Cell;
use std::io::ErrorKind;
use std::test::Fail;

/// Bytes of which neighbours differ.
fn sample(alloc: Global) -> Result<Vec<u8>, AllocError> {
    let mut bytes = Vec::new(alloc);
    for number in 0..1000u64 {
        bytes.push((number % 251) as u8)?;
    }
    Ok(bytes)
}

/// Reads a log to its end, and answers how many reads failed.
fn read_all<S: Source>(log: &mut S, got: &mut Vec<u8>) -> Result<u64, AllocError> {
    let mut buf = [0; 64];
    let mut faults = 0u64;
    for _ in 0..1000u64 {
        match log.read(&mut buf) {
            Ok(0) => break,
            Ok(count) => got.extend_from_slice(&buf[..count])?,
            Err(Failed) => faults = faults.wrapping_add(1),
        }
    }
    Ok(faults)
}

/// Whether a log whose call of this number fails is read whole, and so many reads fail.
fn is_read_whole(alloc: Global, fails: u64, faults: u64) -> Result<bool, AllocError> {
    let trace = Cell::new(0);
    let mut got = Vec::new(alloc);
    let mut log = LogFile::new(Halting::new(sample(alloc)?, fails, &trace));
    let failed = read_all(&mut log, &mut got)?;
    Ok(failed == faults && got.as_slice() == sample(alloc)?.as_slice())
}

fn each_is_read_whole(alloc: Global) -> Result<bool, AllocError> {
    Ok(is_read_whole(alloc, u64::MAX, 0)? && is_read_whole(alloc, 7, 1)?)
}

#[test]
fn a_log_is_read_whole(rt: HostRuntime) -> Result<(), Fail> {
    holds(each_is_read_whole(rt.alloc()))
}

/// Writes the bytes in pieces, and answers how many writes failed.
fn write_pieces<K: Sink>(stream: &mut K, bytes: &[u8]) -> u64 {
    let mut faults = 0u64;
    let mut rest = bytes;
    for _ in 0..1000u64 {
        let piece = &rest[..rest.len().min(100)];
        if piece.is_empty() {
            break;
        }
        match stream.write(piece) {
            Ok(taken) => (_, rest) = rest.split_at(taken),
            Err(Failed) => faults = faults.wrapping_add(1),
        }
    }
    faults
}

/// Whether a stream takes the bytes, where its call of the number 4 fails.
fn takes_all(alloc: Global, bytes: &[u8]) -> bool {
    let trace = Cell::new(0);
    let mut stream = Stream::new(Halting::new(Vec::new(alloc), 4, &trace));
    write_pieces(&mut stream, bytes) == 1 && stream.to().bytes.as_slice() == bytes
}

fn takes_sample(alloc: Global) -> Result<bool, AllocError> {
    Ok(takes_all(alloc, sample(alloc)?.as_slice()))
}

#[test]
fn a_stream_takes_all(rt: HostRuntime) -> Result<(), Fail> {
    holds(takes_sample(rt.alloc()))
}

/// A disk over a file whose calls are interrupted and give or take a part.
type Interrupted<'t> = DiskFile<HaltingPlace<'t>, Halting<'t>>;

/// Whether the disk is empty at first, takes the two halves of 1,000 bytes, and answers two syncs so.
fn takes(disk: &mut Interrupted<'_>, front: &[u8], back: &[u8], synced: Result<(), Failed>) -> bool
    requires { (length front.now ≤ 1000) × (length back.now ≤ 1000) }
{
    disk.sync() == Ok(())
        && disk.read(0, &mut [7; 9]) == Ok(0)
        && disk.write(0, front) == Ok(())
        && disk.write(500, back) == Ok(())
        && disk.sync() == synced
        && disk.sync() == synced
}

/// Whether the disk has these 1,000 bytes.
fn gives_back(disk: &mut Interrupted<'_>, bytes: &[u8]) -> bool {
    let mut buf = [7; 1001];
    let mut end = [7; 5];
    disk.len() == Ok(1000)
        && disk.read(0, &mut buf) == Ok(1000)
        && buf.starts_with(bytes)
        && disk.read(995, &mut end) == Ok(5)
        && bytes.ends_with(&end)
}

/// Whether a file is written, read and synced by these calls, where the sync of its folder answers so.
fn is_kept(alloc: Global, synced: Result<(), Failed>, calls: u64) -> Result<bool, AllocError> {
    let trace = Cell::new(0);
    let bytes = sample(alloc)?;
    if bytes.len() != 1000 {
        return Ok(false);
    }
    let (front, back) = bytes.as_slice().split_at(500);
    let mut place = HaltingPlace::empty(alloc, &trace);
    place.folder_fails = synced.is_err();
    let mut disk = DiskFile::to_write(place);
    let well = takes(&mut disk, front, back, synced) && trace.get() == calls;
    Ok(well && gives_back(&mut disk, bytes.as_slice()))
}

fn each_is_kept(alloc: Global) -> Result<bool, AllocError> {
    Ok(
        is_kept(alloc, Ok(()), 1_486_777_777_232)?
            && is_kept(alloc, Err(Failed), 14_867_777_772_323)?,
    )
}

// Made, locked, its name looked at, its length asked, and written in two calls of three parts; then the file and its folder
// are synced; the folder again where it failed.
#[test]
fn a_file_is_written_read_and_synced(rt: HostRuntime) -> Result<(), Fail> {
    holds(each_is_kept(rt.alloc()))
}

/// What a disk answers to a length, a read of one byte, a write and a sync.
fn answers<D: Disk>(disk: &mut D) -> [bool; 4] {
    [
        disk.len().is_ok(),
        disk.read(0, &mut [0; 1]).is_ok(),
        disk.write(0, b"b").is_ok(),
        disk.sync().is_ok(),
    ]
}

/// A place at which a file of one byte stands.
fn place_of_one<'t>(alloc: Global, trace: &'t Cell<u64>, lock_taken: bool) -> HaltingPlace<'t> {
    let mut place = HaltingPlace::empty(alloc, trace);
    place.is_there = true;
    place.bytes = b"a";
    place.lock_taken = lock_taken;
    place
}

/// Whether a disk that may be written answers each call so, by these calls, where another may have the lock
/// or the name.
fn writes(alloc: Global, lock_taken: bool, is_moved: bool, calls: u64) -> bool {
    let trace = Cell::new(0);
    let mut place = place_of_one(alloc, &trace, lock_taken);
    place.is_moved = is_moved;
    let mut disk = DiskFile::to_write(place);
    let is_held = !lock_taken && !is_moved;
    let well = disk.locked_id().is_some() == is_held && answers(&mut disk) == [is_held; 4];
    well && trace.get() == calls
}

// One that has no lock makes no call behind the one for the lock, and one that lost its name none behind the
// look at the name.
#[test]
fn the_lock_comes_before_all_else(rt: HostRuntime) {
    assert!(rt; writes(rt.alloc(), false, false, 48_655_723));
    assert!(rt; writes(rt.alloc(), true, false, 4));
    assert!(rt; writes(rt.alloc(), false, true, 48));
}

/// Whether a disk that is read alone answers a sync so where that of its file fails with this, and asks
/// neither for a lock nor for a sync of the folder.
fn reads(alloc: Global, sync_fails: Option<ErrorKind>, synced: bool) -> bool {
    let trace = Cell::new(0);
    let mut place = place_of_one(alloc, &trace, true);
    place.sync_fails = sync_fails;
    let mut disk = DiskFile::to_read(place);
    let is_locked = disk.locked_id().is_some();
    !is_locked && answers(&mut disk) == [true, true, false, synced] && trace.get() == 86_552
}

// A file that has no sync is read as others are; one whose sync fails is not.
#[test]
fn what_is_read_alone_is_not_locked(rt: HostRuntime) {
    assert!(rt; reads(rt.alloc(), None, true));
    assert!(rt; reads(rt.alloc(), Some(ErrorKind::InvalidInput), true));
    assert!(rt; reads(rt.alloc(), Some(ErrorKind::ReadOnlyFilesystem), true));
    assert!(rt; reads(rt.alloc(), Some(ErrorKind::Other), false));
}

/// Whether a file that is made is not written, by these calls: between making and locking it another took
/// the lock, or wrote a byte and is gone.
fn yields_to(alloc: Global, lock_taken: bool, calls: u64) -> bool {
    let trace = Cell::new(0);
    let mut place = HaltingPlace::empty(alloc, &trace);
    place.lock_taken = lock_taken;
    if !lock_taken {
        place.bytes = b"a";
    }
    let mut disk = DiskFile::to_write(place);
    let failed = disk.len() == Ok(0) && disk.write(0, b"b") == Err(Failed);
    failed && trace.get() == calls && disk.faults() == 1
}

#[test]
fn of_two_that_make_a_file_one_does(rt: HostRuntime) {
    assert!(rt; yields_to(rt.alloc(), true, 14));
    assert!(rt; yields_to(rt.alloc(), false, 1486));
}
