//! Disks over real files, in the system's folder for files that do not stay.
use crate::disk_calls::{DiskCall, all_answer};
use crate::disk_parts::{PartCalls, parts_answer};
use host_files::{DiskFile, FilePath, LogFiles};
use log_seams::{Disk, Failed, SharedDisk, Shelf};
use std::fs::File;
use std::path::PathBuf;
use std::test::Fail;
use std::{env, fs, io, process};

/// A disk over the file at a path.
type PathDisk<'p> = DiskFile<FilePath<'p, HostRuntime>, File>;

/// A disk over the file at a path, which may be written.
fn written_at<'p>(rt: &'p HostRuntime, path: &'p str) -> PathDisk<'p> {
    DiskFile::to_write(FilePath { rt, path })
}

/// A disk over the file at a path, which is read alone.
fn read_at<'p>(rt: &'p HostRuntime, path: &'p str) -> PathDisk<'p> {
    DiskFile::to_read(FilePath { rt, path })
}

/// A path of this process's own.
fn own_path(rt: &HostRuntime, name: &str) -> io::Result<PathBuf> {
    let name = format!(in rt.alloc(); "clpa-{}-{name}", process::id(rt.process()))?;
    Ok(env::temp_dir(rt)?.join(rt.alloc(), name.as_str())?)
}

/// The disk is empty, reads so, and is synced with no file made.
const ABSENT: &[DiskCall] = &[
    DiskCall::Len(Ok(0)),
    DiskCall::Read(0, Ok(0), &[0; 8]),
    DiskCall::Sync(Ok(())),
];

/// The disk takes `abcdghijk` in two writes over each other.
const TAKES_NINE: &[DiskCall] = &[
    DiskCall::Write(0, b"abcdef", Ok(())),
    DiskCall::Write(4, b"ghijk", Ok(())),
    DiskCall::Sync(Ok(())),
    DiskCall::Sync(Ok(())),
    DiskCall::Len(Ok(9)),
    DiskCall::Read(5, Ok(4), b"hijk\0\0\0\0"),
];

/// Another that only reads has those bytes, none past them, and writes nothing.
const GIVES_NINE: &[DiskCall] = &[
    DiskCall::Read(9, Ok(0), &[0; 8]),
    DiskCall::Read((1 << 63) - 9, Ok(0), &[0; 8]),
    DiskCall::Read((1 << 63) - 4, Ok(0), &[0; 8]),
    DiskCall::Read(1 << 63, Ok(0), &[0; 8]),
    DiskCall::Read(u64::MAX, Ok(0), &[0; 8]),
    DiskCall::Read(0, Ok(8), b"abcdghij"),
    DiskCall::Write(9, b"lm", Err(Failed)),
    DiskCall::Faults(1),
];

/// Two bytes more are taken, and found by the other.
const TAKES_MORE: &[DiskCall] = &[DiskCall::Write(9, b"lm", Ok(())), DiskCall::Faults(0)];

const HAS_MORE: &[DiskCall] = &[DiskCall::Len(Ok(11))];

/// Whether what is written at a path that has no file is read there.
fn is_kept(rt: &HostRuntime, path: &str) -> bool {
    let mut disk = written_at(rt, path);
    let mut again = read_at(rt, path);
    all_answer(&mut disk, TAKES_NINE)
        && all_answer(&mut again, GIVES_NINE)
        && all_answer(&mut disk, TAKES_MORE)
        && all_answer(&mut again, HAS_MORE)
}

/// Whether a new disk that may write the file at a path answers so.
fn written_answers(rt: &HostRuntime, path: &str, calls: &[DiskCall]) -> bool {
    all_answer(&mut written_at(rt, path), calls)
}

/// Whether a new disk that only reads the file at a path answers so.
fn read_answers(rt: &HostRuntime, path: &str, calls: &[DiskCall]) -> bool {
    all_answer(&mut read_at(rt, path), calls)
}

/// Fails where what a test asks does not hold.
fn holds(answer: io::Result<bool>) -> Result<(), Fail> {
    if answer? {
        Ok(())
    } else {
        Err(Fail::from("it does not hold"))
    }
}

/// Whether a disk over no file is empty and makes none, and what it is written then is read.
fn is_made(rt: &HostRuntime, path: &str) -> io::Result<bool> {
    let absent = written_answers(rt, path, ABSENT);
    let made = fs::exists(rt, path)?;
    let kept = is_kept(rt, path);
    fs::remove_file(rt, path)?;
    Ok(absent && !made && kept)
}

fn own_is_made(rt: &HostRuntime) -> io::Result<bool> {
    is_made(rt, own_path(rt, "written")?.as_str())
}

#[test]
fn what_was_written_is_read(rt: HostRuntime) -> Result<(), Fail> {
    holds(own_is_made(&rt))
}

/// In a folder that is not there the write alone fails.
const NO_FOLDER: &[DiskCall] = &[
    DiskCall::Len(Ok(0)),
    DiskCall::Read(0, Ok(0), &[0; 8]),
    DiskCall::Write(0, b"a", Err(Failed)),
    DiskCall::Sync(Ok(())),
    DiskCall::Faults(1),
];

fn has_no_folder(rt: &HostRuntime) -> io::Result<bool> {
    let path = own_path(rt, "no-folder/a.clp")?;
    Ok(written_answers(rt, path.as_str(), NO_FOLDER))
}

#[test]
fn each_call_that_failed_is_counted(rt: HostRuntime) -> Result<(), Fail> {
    holds(has_no_folder(&rt))
}

const FULL: &[DiskCall] = &[
    DiskCall::Write(0, b"a", Err(Failed)),
    DiskCall::Sync(Err(Failed)),
];

/// Of what is no file each call fails.
const NO_FILE: &[DiskCall] = &[
    DiskCall::Len(Err(Failed)),
    DiskCall::Read(0, Err(Failed), &[0; 8]),
    DiskCall::Write(0, b"a", Err(Failed)),
    DiskCall::Sync(Err(Failed)),
    DiskCall::Faults(4),
];

#[test]
fn each_call_that_failed_on_a_device_is_counted(rt: HostRuntime) {
    let full = written_answers(&rt, "/dev/full", FULL);
    assert!(rt; full && read_answers(&rt, "/dev", NO_FILE));
}

/// The file is read, and is not written.
const READ_ONLY: &[DiskCall] = &[
    DiskCall::Read(0, Ok(8), b"Linux ve"),
    DiskCall::Write(0, b"a", Err(Failed)),
    DiskCall::Faults(1),
];

/// The file has no sync either, which one that only reads does without.
const NO_SYNC: &[DiskCall] = &[
    DiskCall::Read(0, Ok(8), b"Linux ve"),
    DiskCall::Sync(Ok(())),
    DiskCall::Faults(0),
];

#[test]
fn a_file_that_can_only_be_read(rt: HostRuntime) {
    assert!(rt; written_answers(&rt, "/proc/version", READ_ONLY));
    assert!(rt; read_answers(&rt, "/proc/version", NO_SYNC));
}

/// One that writes a file of two bytes while another has its lock.
const LOCKED: &[DiskCall] = &[
    DiskCall::Len(Err(Failed)),
    DiskCall::Write(0, b"c", Err(Failed)),
];

/// One that writes a file of two bytes once its lock is free.
const FREE: &[DiskCall] = &[DiskCall::Len(Ok(2)), DiskCall::Write(0, b"c", Ok(()))];

const TWO_BYTES: &[DiskCall] = &[DiskCall::Read(0, Ok(2), b"ab\0\0\0\0\0\0")];

const TAKES_TWO: &[DiskCall] = &[DiskCall::Write(0, b"ab", Ok(()))];

/// One that found nothing there writes nothing.
const TOO_LATE: &[DiskCall] = &[DiskCall::Write(0, b"d", Err(Failed))];

/// Whether the file at a path, which has two bytes, is to be read and not to be written.
fn is_only_read(rt: &HostRuntime, path: &str) -> bool {
    written_answers(rt, path, LOCKED) && read_answers(rt, path, TWO_BYTES)
}

/// Whether one that wrote the file at a path first has its lock, by a link too, as long as it is there;
/// one that found nothing there before never has.
fn has_lock(rt: &HostRuntime, late: &mut PathDisk<'_>, path: &str, link: &str) -> io::Result<bool> {
    let mut first = written_at(rt, path);
    let wrote = all_answer(&mut first, TAKES_TWO) && all_answer(late, TOO_LATE);
    fs::hard_link(rt, path, link)?;
    Ok(wrote && is_only_read(rt, path) && is_only_read(rt, link))
}

/// Whether the file is free again by both its names.
fn is_free(rt: &HostRuntime, late: &mut PathDisk<'_>, path: &str, link: &str) -> bool {
    all_answer(late, TOO_LATE) && written_answers(rt, link, FREE) && written_answers(rt, path, FREE)
}

/// Whether the file is locked and then free again, for one that found nothing at its path before.
fn is_locked_once(rt: &HostRuntime, path: &str, link: &str) -> io::Result<bool> {
    let mut late = written_at(rt, path);
    let locked = has_lock(rt, &mut late, path, link)?;
    Ok(locked && is_free(rt, &mut late, path, link))
}

/// Whether the file is locked and then free again. Both its names are removed then.
fn is_locked(rt: &HostRuntime, path: &str, link: &str) -> io::Result<bool> {
    let well = is_locked_once(rt, path, link)?;
    fs::remove_file(rt, path)?;
    fs::remove_file(rt, link)?;
    Ok(well)
}

fn own_is_locked(rt: &HostRuntime) -> io::Result<bool> {
    let path = own_path(rt, "locked")?;
    is_locked(rt, path.as_str(), own_path(rt, "link")?.as_str())
}

#[test]
fn one_at_a_time_writes_a_file(rt: HostRuntime) -> Result<(), Fail> {
    holds(own_is_locked(&rt))
}

/// Whether the shelf beside a disk that may be written has no log of the disk's own file, has another
/// file's, and none that is not there.
fn keeps_apart(rt: &HostRuntime, path: &str, other: &str) -> bool {
    let disk = written_at(rt, path);
    let mut logs = LogFiles::new(rt, disk.locked_id());
    logs.open_log(path).is_err() && logs.open_log(other).is_ok() && logs.open_log("gone").is_err()
}

/// Whether the shelf beside a disk that is read alone has a log of its file.
fn shares(rt: &HostRuntime, path: &str) -> bool {
    let mut logs = LogFiles::new(rt, read_at(rt, path).locked_id());
    logs.open_log(path).is_ok()
}

/// Whether of two files that are made the one that is written is no log.
fn is_no_log(rt: &HostRuntime, path: &str, other: &str) -> io::Result<bool> {
    fs::write(rt, path, b"a")?;
    fs::write(rt, other, b"a")?;
    let well = keeps_apart(rt, path, other) && shares(rt, path);
    fs::remove_file(rt, path)?;
    fs::remove_file(rt, other)?;
    Ok(well)
}

fn own_is_no_log(rt: &HostRuntime) -> io::Result<bool> {
    let path = own_path(rt, "own")?;
    is_no_log(rt, path.as_str(), own_path(rt, "other")?.as_str())
}

#[test]
fn what_is_written_is_no_log(rt: HostRuntime) -> Result<(), Fail> {
    holds(own_is_no_log(&rt))
}

/// Whether two parts of a new disk that may write the file at a path, and the disk, answer so.
fn written_lends(rt: &HostRuntime, path: &str, calls: &PartCalls) -> bool {
    parts_answer(&mut written_at(rt, path), calls)
}

/// Whether two parts of a new disk that only reads the file at a path, and the disk, answer so.
fn read_lends(rt: &HostRuntime, path: &str, calls: &PartCalls) -> bool {
    parts_answer(&mut read_at(rt, path), calls)
}

/// Whether it is so by both disks.
fn both_lend(rt: &HostRuntime, path: &str, calls: &PartCalls) -> bool {
    written_lends(rt, path, calls) && read_lends(rt, path, calls)
}

/// Whether it is so of a file of nine bytes, which is removed then.
fn nine_lends(rt: &HostRuntime, path: &str, calls: &PartCalls) -> io::Result<bool> {
    fs::write(rt, path, b"abcdghijk")?;
    let well = both_lend(rt, path, calls);
    fs::remove_file(rt, path)?;
    Ok(well)
}

fn own_nine_lends(rt: &HostRuntime, name: &str, calls: &PartCalls) -> io::Result<bool> {
    nine_lends(rt, own_path(rt, name)?.as_str(), calls)
}

/// The parts read the nine bytes beside each other and beside the disk.
const READS_NINE: &PartCalls = &PartCalls {
    first: &[
        DiskCall::Len(Ok(9)),
        DiskCall::Read(0, Ok(8), b"abcdghij"),
        DiskCall::Read(9, Ok(0), &[0; 8]),
        DiskCall::Read(u64::MAX, Ok(0), &[0; 8]),
        DiskCall::Faults(0),
    ],
    meanwhile: &[DiskCall::Read(4, Ok(5), b"ghijk\0\0\0")],
    last: &[
        DiskCall::Read(5, Ok(4), b"hijk\0\0\0\0"),
        DiskCall::Len(Ok(9)),
        DiskCall::Faults(0),
    ],
    last_comes_first: false,
    one_back: &[DiskCall::Read(8, Ok(1), b"k\0\0\0\0\0\0\0")],
    both_back: &[DiskCall::Read(0, Ok(8), b"abcdghij"), DiskCall::Faults(0)],
};

#[test]
fn parts_read_what_the_file_holds(rt: HostRuntime) -> Result<(), Fail> {
    holds(own_nine_lends(&rt, "parts-read", READS_NINE))
}

/// Each write and each sync of a part fails, and is a fault of the disk once the part came back.
const WRITES_NONE: &PartCalls = &PartCalls {
    first: &[DiskCall::Write(9, b"l", Err(Failed)), DiskCall::Faults(1)],
    meanwhile: &[DiskCall::Faults(0)],
    last: &[
        DiskCall::Write(0, b"l", Err(Failed)),
        DiskCall::Sync(Err(Failed)),
        DiskCall::Faults(2),
    ],
    last_comes_first: true,
    one_back: &[DiskCall::Faults(2)],
    both_back: &[
        DiskCall::Faults(3),
        DiskCall::Len(Ok(9)),
        DiskCall::Read(0, Ok(8), b"abcdghij"),
    ],
};

#[test]
fn parts_do_not_write_the_file(rt: HostRuntime) -> Result<(), Fail> {
    holds(own_nine_lends(&rt, "parts-write", WRITES_NONE))
}

/// The parts are empty, and are written no more than those of a file.
const LENDS_EMPTY: &PartCalls = &PartCalls {
    first: &[
        DiskCall::Len(Ok(0)),
        DiskCall::Read(0, Ok(0), &[0; 8]),
        DiskCall::Faults(0),
    ],
    meanwhile: &[DiskCall::Len(Ok(0))],
    last: &[DiskCall::Write(0, b"a", Err(Failed))],
    last_comes_first: false,
    one_back: &[DiskCall::Faults(0)],
    both_back: &[DiskCall::Faults(1)],
};

/// Whether parts of no file are empty, and make none.
fn own_is_absent(rt: &HostRuntime) -> io::Result<bool> {
    let path = own_path(rt, "parts-absent")?;
    let well = both_lend(rt, path.as_str(), LENDS_EMPTY);
    Ok(well && !fs::exists(rt, path.as_str())?)
}

#[test]
fn parts_of_no_file_read_nothing(rt: HostRuntime) -> Result<(), Fail> {
    holds(own_is_absent(&rt))
}

/// Whether a new disk that only reads what is at a path lends no part, which is no fault.
fn lends_none(rt: &HostRuntime, path: &str) -> bool {
    let mut disk = read_at(rt, path);
    disk.part().is_none() && disk.faults() == 0
}

#[test]
fn a_disk_that_is_not_opened_lends_no_part(rt: HostRuntime) {
    assert!(rt; lends_none(&rt, "/dev"));
}

/// Whether the file at a path, which has two bytes, stays locked when a part of its disk came back.
fn stays_locked(rt: &HostRuntime, path: &str) -> bool {
    let mut disk = written_at(rt, path);
    let Some(part) = disk.part() else {
        return false;
    };
    disk.take_back(part);
    is_only_read(rt, path)
}

/// Whether the file at a path, which is made and removed, is so, and is free when the disk is let go.
fn is_freed(rt: &HostRuntime, path: &str) -> io::Result<bool> {
    fs::write(rt, path, b"ab")?;
    let well = stays_locked(rt, path) && written_answers(rt, path, FREE);
    fs::remove_file(rt, path)?;
    Ok(well)
}

fn own_is_freed(rt: &HostRuntime) -> io::Result<bool> {
    is_freed(rt, own_path(rt, "parts-locked")?.as_str())
}

#[test]
fn a_part_that_came_back_leaves_the_lock(rt: HostRuntime) -> Result<(), Fail> {
    holds(own_is_freed(&rt))
}
