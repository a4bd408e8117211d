//! The parts that a disk in memory lends.
ghost use Rattle.std.specs.Prelude.{◌≤◌, vec_capacity, IfOk};
ghost use Rattle.log_seams.specs.Parts.{IsPart};
ghost use Rattle.log_seams.specs.MemDisk.{disk_state};

use crate::calls::Calls;
use crate::mem_disk::{MemDisk, copy_from};
use crate::returned::Returned;
use crate::{Disk, Failed, SharedDisk, add_faults};
use std::alloc::AllocError;
use std::mem;

/// A part of a disk in memory: a copy of its bytes. Its calls take no memory: it has room for as many
/// reads as the disk has for calls, and fails at those behind. Each write and each sync of it fails.
#[derive(Drop)]
pub struct MemPart {
    bytes: Vec<u8>,
    ranges: Vec<(u64, usize)>,
    room: usize,
    calls: Calls,
    faults: u64,
    node: Box<Returned>,
    ghost fits: { room ≤ vec_capacity ranges },
}

impl MemPart {
    ghost use Rattle.log_seams.specs.MemPart.{part_state, HasFailed};

    // A part of what the disk holds.
    fn of(disk: &MemDisk) -> Result<MemPart, AllocError>
        ensures { IfOk result (λ p. IsPart (disk_state disk.now) (part_state p)) }
    {
        let alloc = disk.alloc;
        Ok(MemPart {
            bytes: disk.bytes.to_vec(alloc)?,
            ranges: Vec::with_capacity(alloc, disk.call_limit)?,
            room: disk.call_limit,
            calls: Calls::new(disk.part_fails.to_vec(alloc)?),
            faults: 0,
            node: Box::new(alloc, Returned::Nothing)?,
        })
    }

    // Counts a fault.
    fn fail(&mut self) -> Failed
        ensures { HasFailed self.old self.new }
    {
        self.faults = self.faults.saturating_add(1);
        Failed
    }
}

impl Disk for MemPart {
    ghost use Rattle.std.specs.Prelude.{refl};
    ghost use Rattle.log_seams.specs.MemPart.{part_state};

    ghost state = { part_state };

    fn len(&mut self) -> Result<u64, Failed> {
        if self.calls.next_fails() {
            return Err(self.fail());
        }
        Ok(self.bytes.len() as u64)
    }

    fn read(&mut self, at: u64, buf: &mut [u8]) -> Result<usize, Failed> {
        if self.calls.next_fails() {
            return Err(self.fail());
        }
        if self.ranges.len() >= self.room {
            return Err(self.fail());
        }
        let count = copy_from(&self.bytes, at, buf);
        self.ranges.push_reserved((at, count));
        Ok(count)
    }

    fn write(&mut self, at: u64, bytes: &[u8]) -> Result<(), Failed> {
        let (_, _) = (at, bytes);
        Err(self.fail())
    }

    fn sync(&mut self) -> Result<(), Failed> {
        Err(self.fail())
    }

    fn faults(&self) -> u64 {
        self.faults
    }

    ghost lawful = { λ p. record {
      reads_as = refl;
      counts_now = λ t c le now. now;
      only_now = λ c left. left;
      wider = λ s t c le left. left;
    } };
}

impl SharedDisk for MemDisk {
    type Part = MemPart;

    fn part(&mut self) -> Option<MemPart> {
        MemPart::of(self).ok()
    }

    fn take_back(&mut self, part: MemPart) {
        let MemPart {
            ranges,
            faults,
            mut node,
            ..
        } = part;
        *node = mem::replace(&mut self.returned, Returned::Nothing);
        self.returned = Returned::Part {
            calls: self.calls.len(),
            ranges,
            before: node,
        };
        self.faults = add_faults(self.faults, faults);
    }
}
