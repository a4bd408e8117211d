//! A disk that tells the ranges that were read, and not its bytes, and gives fewer than are asked for.
ghost use Rattle.std.specs.Prelude.{◌≡◌, None, Some, false, is_ok};
ghost use Rattle.log_seams.specs.Outside.{Counts};

use crate::holds;
use disk_journal::{Journal, LoadRefusal, RecordPlace};
use log_seams::{Disk, Failed};
use plain_list::Text;
use std::alloc::{AllocError, Global};
use std::test::Fail;
use test_archives::WORKED;

/// Bytes that are not told, and that cannot be written. A read gives at most `most` of them.
#[derive(Drop)]
struct ShortDisk {
    bytes: Text,
    most: usize,
    /// The ranges read; a read for which it has no room fails.
    ranges: Vec<(u64, u64)>,
    faults: u64,
}

impl ShortDisk {
    fn fail<T>(&mut self) -> Result<T, Failed>
        ensures failed { is_ok result ≡ false }
        ensures ranges { self.new.ranges ≡ self.old.ranges }
        ensures counts { Counts self.old.faults self.new.faults result }
    {
        self.faults = self.faults.saturating_add(1);
        Err(Failed)
    }
}

impl Disk for ShortDisk {
    ghost state = { λ d. record {
      seen = None;
      images = λ _. Unit {0};
      clock = 0;
      since = λ _ _. Unit {0};
      ranges = Some d.ranges.items;
      faults = d.faults;
    } };

    fn len(&mut self) -> Result<u64, Failed> {
        Ok(self.bytes.as_slice().len() as u64)
    }

    fn read(&mut self, at: u64, buf: &mut [u8]) -> Result<usize, Failed> {
        if self.ranges.len() == self.ranges.capacity() {
            return self.fail();
        }
        let bytes = self.bytes.as_slice();
        let rest = &bytes[bytes.len().min(at as usize)..];
        let count = rest.len().min(buf.len()).min(self.most);
        buf[..count].copy_from_slice(&rest[..count]);
        self.ranges.push_reserved((at, count as u64));
        Ok(count)
    }

    fn write(&mut self, _at: u64, _bytes: &[u8]) -> Result<(), Failed> {
        self.fail()
    }

    fn sync(&mut self) -> Result<(), Failed> {
        Ok(())
    }

    fn faults(&self) -> u64 {
        self.faults
    }

    ghost lawful = { λ _. record {
      reads_as = tt;
      counts_now = λ _ _ _ _. tt;
      only_now = λ _ _. tt;
      wider = λ _ _ _ _ _. tt;
    } };
}

fn short_disk(alloc: Global) -> Result<ShortDisk, AllocError> {
    Ok(ShortDisk {
        bytes: Text::new(WORKED.to_vec(alloc)?),
        most: 32,
        ranges: Vec::with_capacity(alloc, 4)?,
        faults: 0,
    })
}

// Loads the record's payload from a disk that gives at most so many bytes.
fn load_most(
    alloc: Global,
    journal: &mut Journal<'_, ShortDisk>,
    most: usize,
    place: &RecordPlace,
) -> Result<Text, LoadRefusal> {
    journal.disk.most = most;
    journal.load(alloc, place.payload, place.length)
}

// Whether the first record's payload of 13 bytes is damaged where 7 are given, and there where all are.
fn are_loaded(alloc: Global, journal: &mut Journal<'_, ShortDisk>) -> Result<bool, Fail> {
    let first = journal.next_place()?.ok_or("no record")?;
    let refused = load_most(alloc, journal, 7, &first).err();
    let loaded = load_most(alloc, journal, 13, &first)?;
    let damaged = Some(LoadRefusal::Damaged { at: 42 });
    Ok(refused == damaged && loaded.as_slice() == &WORKED[42..55])
}

// The same of a disk, and by these reads.
fn are_read(alloc: Global) -> Result<bool, Fail> {
    let mut short = short_disk(alloc)?;
    let loaded = are_loaded(alloc, &mut Journal::open_journal(&mut short)?)?;
    Ok(loaded && short.ranges.as_slice() == [(0, 32), (32, 10), (42, 7), (42, 13)].as_slice())
}

// Seven bytes of a payload of 13 are no payload.
#[test]
fn a_payload_that_is_cut_short_is_damaged(rt: HostRuntime) -> Result<(), Fail> {
    holds(are_read(rt.alloc()))
}
