//! Parts of a disk in memory: what they read, which of their calls fail, and what comes back with them.
use crate::disk_calls::DiskCall;
use crate::disk_parts::{PartCalls, parts_answer};
use crate::telling::holds;
use log_seams::{Failed, MemDisk};
use plain_list::Text;
use std::alloc::{AllocError, Global};
use std::test::Fail;

/// A disk with room for eight bytes that lends two parts, and what is called.
struct Lent {
    /// The bytes at first.
    bytes: &'static [u8],
    /// How many calls there may be.
    most: usize,
    /// The numbers of the calls of each part that fail.
    fails: &'static [u64],
    calls: PartCalls,
    /// The bytes at the end.
    after: &'static [u8],
    /// How many calls of the disk there were.
    made: usize,
}

// A new disk, whose parts fail so.
fn new_disk(alloc: Global, lent: &Lent) -> Result<MemDisk, AllocError> {
    let fails = lent.fails.to_vec(alloc)?;
    let bytes = Text::new(lent.bytes.to_vec(alloc)?);
    let mut disk = MemDisk::new(alloc, bytes, 8, lent.most, Vec::new(alloc))?;
    disk.fail_parts(fails);
    Ok(disk)
}

// Whether the disk reads as the bytes, after so many calls.
fn is_left(disk: &MemDisk, bytes: &[u8], made: usize) -> bool {
    disk.bytes() == bytes && disk.calls() == made
}

// Whether all that a row tells holds of the disk.
fn is_lent(disk: &mut MemDisk, lent: &Lent) -> bool {
    parts_answer(disk, &lent.calls) && is_left(disk, lent.after, lent.made)
}

// The same of a new disk.
fn lends(alloc: Global, lent: &Lent) -> Result<bool, AllocError> {
    let mut disk = new_disk(alloc, lent)?;
    Ok(is_lent(&mut disk, lent))
}

// The parts read the bytes that the disk held when it lent them. What they read is no call of the disk.
const READING: &Lent = &Lent {
    bytes: &[1, 2, 3, 4],
    most: 9,
    fails: &[],
    calls: PartCalls {
        first: &[
            DiskCall::Len(Ok(4)),
            DiskCall::Read(0, Ok(4), &[1, 2, 3, 4, 0, 0, 0, 0]),
            DiskCall::Read(3, Ok(1), &[4, 0, 0, 0, 0, 0, 0, 0]),
            DiskCall::Read(4, Ok(0), &[0; 8]),
            DiskCall::Read(u64::MAX, Ok(0), &[0; 8]),
            DiskCall::Faults(0),
        ],
        meanwhile: &[DiskCall::Write(3, &[5, 6], Ok(()))],
        last: &[
            DiskCall::Len(Ok(4)),
            DiskCall::Read(0, Ok(4), &[1, 2, 3, 4, 0, 0, 0, 0]),
            DiskCall::Faults(0),
        ],
        last_comes_first: false,
        one_back: &[DiskCall::Len(Ok(5)), DiskCall::Faults(0)],
        both_back: &[
            DiskCall::Read(0, Ok(5), &[1, 2, 3, 5, 6, 0, 0, 0]),
            DiskCall::Faults(0),
        ],
    },
    after: &[1, 2, 3, 5, 6],
    made: 3,
};

#[test]
fn a_part_reads_what_the_disk_held(rt: HostRuntime) -> Result<(), Fail> {
    holds(lends(rt.alloc(), READING))
}

// Each write and each sync of a part fails, is a fault of the part, and of the disk once the part came back.
const WRITING: &Lent = &Lent {
    bytes: &[1, 2],
    most: 9,
    fails: &[],
    calls: PartCalls {
        first: &[DiskCall::Write(0, &[7], Err(Failed)), DiskCall::Faults(1)],
        meanwhile: &[DiskCall::Faults(0)],
        last: &[
            DiskCall::Write(2, &[7], Err(Failed)),
            DiskCall::Sync(Err(Failed)),
            DiskCall::Faults(2),
            DiskCall::Read(0, Ok(2), &[1, 2, 0, 0, 0, 0, 0, 0]),
        ],
        last_comes_first: false,
        one_back: &[DiskCall::Faults(1)],
        both_back: &[DiskCall::Faults(3)],
    },
    after: &[1, 2],
    made: 0,
};

#[test]
fn a_part_is_not_written(rt: HostRuntime) -> Result<(), Fail> {
    holds(lends(rt.alloc(), WRITING))
}

// The part that was lent last comes back first, with its two faults.
const ANOTHER_ORDER: &Lent = &Lent {
    bytes: &[1, 2],
    most: 9,
    fails: &[],
    calls: PartCalls {
        first: &[
            DiskCall::Read(1, Ok(1), &[2, 0, 0, 0, 0, 0, 0, 0]),
            DiskCall::Sync(Err(Failed)),
        ],
        meanwhile: &[DiskCall::Write(9, &[7], Err(Failed))],
        last: &[
            DiskCall::Sync(Err(Failed)),
            DiskCall::Sync(Err(Failed)),
            DiskCall::Read(0, Ok(2), &[1, 2, 0, 0, 0, 0, 0, 0]),
        ],
        last_comes_first: true,
        one_back: &[DiskCall::Faults(3), DiskCall::Len(Ok(2))],
        both_back: &[DiskCall::Faults(4), DiskCall::Sync(Ok(()))],
    },
    after: &[1, 2],
    made: 3,
};

#[test]
fn parts_come_back_in_another_order(rt: HostRuntime) -> Result<(), Fail> {
    holds(lends(rt.alloc(), ANOTHER_ORDER))
}

// Each part counts its own reads and fails at the second. The disk fails at none.
const FAILING: &Lent = &Lent {
    bytes: &[3],
    most: 9,
    fails: &[1],
    calls: PartCalls {
        first: &[
            DiskCall::Read(0, Ok(1), &[3, 0, 0, 0, 0, 0, 0, 0]),
            DiskCall::Read(0, Err(Failed), &[0; 8]),
            DiskCall::Read(0, Ok(1), &[3, 0, 0, 0, 0, 0, 0, 0]),
            DiskCall::Faults(1),
        ],
        meanwhile: &[DiskCall::Len(Ok(1)), DiskCall::Len(Ok(1))],
        last: &[
            DiskCall::Len(Ok(1)),
            DiskCall::Len(Err(Failed)),
            DiskCall::Len(Ok(1)),
            DiskCall::Faults(1),
        ],
        last_comes_first: false,
        one_back: &[DiskCall::Faults(1)],
        both_back: &[DiskCall::Faults(2)],
    },
    after: &[3],
    made: 2,
};

#[test]
fn parts_fail_by_their_list(rt: HostRuntime) -> Result<(), Fail> {
    holds(lends(rt.alloc(), FAILING))
}

// A part has room for as many reads as the disk for calls. Its length needs no room.
const FULL: &Lent = &Lent {
    bytes: &[3],
    most: 2,
    fails: &[],
    calls: PartCalls {
        first: &[
            DiskCall::Read(0, Ok(1), &[3, 0, 0, 0, 0, 0, 0, 0]),
            DiskCall::Read(1, Ok(0), &[0; 8]),
            DiskCall::Read(0, Err(Failed), &[0; 8]),
            DiskCall::Len(Ok(1)),
            DiskCall::Faults(1),
        ],
        meanwhile: &[DiskCall::Len(Ok(1)), DiskCall::Len(Ok(1))],
        last: &[
            DiskCall::Read(0, Ok(1), &[3, 0, 0, 0, 0, 0, 0, 0]),
            DiskCall::Faults(0),
        ],
        last_comes_first: true,
        one_back: &[DiskCall::Faults(0), DiskCall::Len(Err(Failed))],
        both_back: &[DiskCall::Faults(2)],
    },
    after: &[3],
    made: 2,
};

#[test]
fn a_part_has_room_for_as_many_reads_as_the_disk_for_calls(rt: HostRuntime) -> Result<(), Fail> {
    holds(lends(rt.alloc(), FULL))
}
