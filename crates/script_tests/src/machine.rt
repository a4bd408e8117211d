//! What stands between the lines of a script.
use crate::outside::{Limits, Log, NEVER, Paper, disk, disk_within};
use crate::rounds::Round;
use crate::texts::{Named, at, number_of};
use crate::wanted::Told;
use log_seams::MemDisk;
use std::alloc::{AllocError, Global};

/// What the next call meets: what the two outputs take, and the number of the opening that fails.
#[derive(Clone, Copy)]
pub(crate) struct Next {
    pub(crate) out: Limits,
    pub(crate) err: Limits,
    pub(crate) opening: u64,
}

/// Outputs that take all that the scripts print, and openings that do not fail.
pub(crate) const SOUND: Next = Next {
    out: Limits {
        room: 1 << 20,
        most: usize::MAX,
        fault: NEVER,
    },
    err: Limits {
        room: 4096,
        most: usize::MAX,
        fault: NEVER,
    },
    opening: NEVER,
};

/// Where a script is: its next line, the loops that are being played, and the lines to go back to.
#[derive(Drop)]
pub(crate) struct Place {
    pub(crate) line: usize,
    pub(crate) rounds: Vec<Round>,
    pub(crate) backs: Vec<usize>,
    /// Whether one of the alternatives held.
    pub(crate) is_met: bool,
}

/// What stands between the lines of a script.
#[derive(Drop)]
pub(crate) struct Machine {
    pub(crate) alloc: Global,
    pub(crate) texts: Vec<Named>,
    pub(crate) numbers: Vec<u64>,
    pub(crate) logs: Vec<Log>,
    /// Words behind those of the next call.
    pub(crate) words: Vec<Vec<u8>>,
    pub(crate) next: Next,
    /// The archive's disk, that of the second archive, and one that was put aside.
    pub(crate) archive: MemDisk,
    pub(crate) second: MemDisk,
    pub(crate) aside: MemDisk,
    pub(crate) told: Told,
    pub(crate) place: Place,
}

/// What a call answered and wrote that was not made yet.
pub(crate) fn untold(alloc: Global, next: &Next) -> Result<Told, AllocError> {
    Ok(Told {
        status: 0,
        out: Paper::new(alloc, next.out)?,
        err: Paper::new(alloc, next.err)?,
    })
}

/// A disk that takes nothing: that of an archive which is not there.
pub(crate) fn no_disk(alloc: Global) -> Result<MemDisk, AllocError> {
    disk_within(alloc, &[], NEVER, 0, 0)
}

impl Machine {
    /// One with an empty disk for the archive, none for the second one, and no log.
    pub(crate) fn new(alloc: Global) -> Result<Machine, AllocError> {
        Ok(Machine {
            alloc,
            texts: Vec::new(alloc),
            numbers: vec![in alloc; 0; 26]?,
            logs: Vec::new(alloc),
            words: Vec::new(alloc),
            next: SOUND,
            archive: disk(alloc, &[], NEVER)?,
            second: no_disk(alloc)?,
            aside: no_disk(alloc)?,
            told: untold(alloc, &SOUND)?,
            place: Place {
                line: 0,
                rounds: Vec::new(alloc),
                backs: Vec::new(alloc),
                is_met: false,
            },
        })
    }

    /// The number that the value at a place stands for.
    pub(crate) fn number(&self, values: &[Vec<u8>], place: usize) -> u64 {
        number_of(self.numbers.as_slice(), at(values, place))
    }

    /// The number that the value at a place stands for, and another where there is no such value.
    pub(crate) fn number_or(&self, values: &[Vec<u8>], place: usize, other: u64) -> u64 {
        if place < values.len() {
            return self.number(values, place);
        }
        other
    }
}
