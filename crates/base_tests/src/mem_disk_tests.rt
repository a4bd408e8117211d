//! A disk in memory at work: what a crash leaves by each kind, and which calls fail.
ghost use Rattle.std.specs.Prelude.{◌≤◌};
ghost use Rattle.log_seams.specs.MemDisk.{calls_of};

use crate::disk_calls::{DiskCall, all_answer};
use crate::telling::holds;
use log_seams::{Failed, MemDisk, Pending};
use plain_list::Text;
use std::alloc::{AllocError, Global};
use std::test::Fail;

/// A disk with room for eight bytes, what is called, and what is left.
struct Run {
    /// The bytes at first.
    bytes: &'static [u8],
    /// How many calls there may be.
    most: usize,
    /// The numbers of the calls that fail.
    fails: &'static [u64],
    calls: &'static [DiskCall],
    /// The bytes at the end.
    after: &'static [u8],
    /// How many calls there were.
    made: usize,
    /// What a crash of a kind, after so many calls, leaves.
    left: &'static [(usize, Pending, &'static [u8])],
}

// Whether each of these crashes leaves these bytes.
fn all_leave(
    disk: &MemDisk,
    made: usize,
    left: &[(usize, Pending, &[u8])],
) -> Result<bool, AllocError>
    requires { made ≤ calls_of disk.now }
{
    for (after, pending, want) in left {
        if *after > made || disk.stopped(*after, *pending)?.bytes() != *want {
            return Ok(false);
        }
    }
    Ok(true)
}

// Whether the disk reads as these bytes.
fn has(disk: &MemDisk, bytes: &[u8]) -> bool {
    disk.bytes() == bytes
}

// Whether all that a run tells holds of the disk.
fn is_run(disk: &mut MemDisk, run: &Run) -> Result<bool, AllocError> {
    let well = has(disk, run.bytes) && all_answer(disk, run.calls) && has(disk, run.after);
    if !well || disk.calls() != run.made {
        return Ok(false);
    }
    all_leave(disk, run.made, run.left)
}

// The same of a new disk.
fn runs(alloc: Global, run: &Run) -> Result<bool, AllocError> {
    let bytes = Text::new(run.bytes.to_vec(alloc)?);
    let mut disk = MemDisk::new(alloc, bytes, 8, run.most, run.fails.to_vec(alloc)?)?;
    is_run(&mut disk, run)
}

// An unsynced write over the last two of the bytes 1 to 4, and past them.
const UNSYNCED: &Run = &Run {
    bytes: &[1, 2, 3, 4],
    most: 9,
    fails: &[],
    calls: &[DiskCall::Write(2, &[9, 8, 7, 6], Ok(()))],
    after: &[1, 2, 9, 8, 7, 6],
    made: 1,
    left: &[
        (0, Pending::All, &[1, 2, 3, 4]),
        (0, Pending::Nothing, &[1, 2, 3, 4]),
        (0, Pending::FirstHalf, &[1, 2, 3, 4]),
        (0, Pending::Ones, &[1, 2, 3, 4]),
        (1, Pending::All, &[1, 2, 9, 8, 7, 6]),
        (1, Pending::Nothing, &[1, 2, 3, 4]),
        (1, Pending::FirstHalf, &[1, 2, 9, 8]),
        (1, Pending::Ones, &[1, 2, 1, 1, 1, 1]),
    ],
};

#[test]
fn a_crash_before_the_sync_leaves_what_each_kind_says(rt: HostRuntime) -> Result<(), Fail> {
    holds(runs(rt.alloc(), UNSYNCED))
}

// The same write with its sync.
const SYNCED: &Run = &Run {
    bytes: &[1, 2, 3, 4],
    most: 9,
    fails: &[],
    calls: &[
        DiskCall::Write(2, &[9, 8, 7, 6], Ok(())),
        DiskCall::Sync(Ok(())),
    ],
    after: &[1, 2, 9, 8, 7, 6],
    made: 2,
    left: &[
        (2, Pending::All, &[1, 2, 9, 8, 7, 6]),
        (2, Pending::Nothing, &[1, 2, 9, 8, 7, 6]),
        (2, Pending::FirstHalf, &[1, 2, 9, 8, 7, 6]),
        (2, Pending::Ones, &[1, 2, 9, 8, 7, 6]),
    ],
};

#[test]
fn a_crash_behind_the_sync_leaves_all(rt: HostRuntime) -> Result<(), Fail> {
    holds(runs(rt.alloc(), SYNCED))
}

// Two unsynced writes, of two bytes and of one.
const TWO_UNSYNCED: &Run = &Run {
    bytes: &[],
    most: 9,
    fails: &[],
    calls: &[
        DiskCall::Write(0, &[5, 6], Ok(())),
        DiskCall::Write(2, &[7], Ok(())),
    ],
    after: &[5, 6, 7],
    made: 2,
    left: &[
        (2, Pending::Nothing, &[]),
        (2, Pending::FirstHalf, &[5]),
        (2, Pending::Ones, &[1, 1, 1]),
    ],
};

#[test]
fn a_write_behind_a_lost_one_is_lost(rt: HostRuntime) -> Result<(), Fail> {
    holds(runs(rt.alloc(), TWO_UNSYNCED))
}

// Calls on a disk of the byte 3 that fail by the list, past its room, and past its fifth. The write that
// failed may have reached the disk.
const FAILING: &Run = &Run {
    bytes: &[3],
    most: 5,
    fails: &[1],
    calls: &[
        DiskCall::Len(Ok(1)),
        DiskCall::Write(1, &[4], Err(Failed)),
        DiskCall::Write(1, &[0, 0, 0, 0, 0, 0, 0, 0], Err(Failed)),
        DiskCall::Read(0, Ok(1), &[3, 0, 0, 0, 0, 0, 0, 0]),
        DiskCall::Sync(Ok(())),
        DiskCall::Faults(2),
        DiskCall::Len(Err(Failed)),
        DiskCall::Faults(3),
    ],
    after: &[3],
    made: 5,
    left: &[(2, Pending::All, &[3, 4])],
};

#[test]
fn calls_fail_by_the_list_past_the_room_and_past_the_last(rt: HostRuntime) -> Result<(), Fail> {
    holds(runs(rt.alloc(), FAILING))
}

// A disk of nine bytes with less room keeps them all, and is written no further than that.
const LONG: &Run = &Run {
    bytes: &[3, 3, 3, 3, 3, 3, 3, 3, 3],
    most: 9,
    fails: &[],
    calls: &[
        DiskCall::Write(8, &[4], Err(Failed)),
        DiskCall::Len(Ok(9)),
        DiskCall::Write(7, &[4], Ok(())),
    ],
    after: &[3, 3, 3, 3, 3, 3, 3, 4, 3],
    made: 3,
    left: &[],
};

#[test]
fn a_disk_may_begin_longer_than_its_room(rt: HostRuntime) -> Result<(), Fail> {
    holds(runs(rt.alloc(), LONG))
}

// Writes behind the end, and at it.
const BEHIND: &Run = &Run {
    bytes: &[3],
    most: 9,
    fails: &[],
    calls: &[
        DiskCall::Write(2, &[4], Err(Failed)),
        DiskCall::Len(Ok(1)),
        DiskCall::Read(0, Ok(1), &[3, 0, 0, 0, 0, 0, 0, 0]),
        DiskCall::Faults(1),
        DiskCall::Write(1, &[4], Ok(())),
    ],
    after: &[3, 4],
    made: 4,
    left: &[],
};

#[test]
fn a_write_behind_the_end_fails(rt: HostRuntime) -> Result<(), Fail> {
    holds(runs(rt.alloc(), BEHIND))
}
