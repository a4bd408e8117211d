//! A disk in memory that tells nothing, whose calls wear out, and journals over it.
ghost use Rattle.std.specs.Prelude.{◌≡◌, None, false, is_ok, IfSome};
ghost use Rattle.log_seams.specs.Outside.{Counts};
ghost use Rattle.disk_journal.specs.Journal.{state_of};
ghost use Rattle.disk_seal.specs.Opening.{MayOpen};

use disk_journal::{Journal, create};
use log_seams::{Disk, Failed};
use record_format::Header;
use std::alloc::{AllocError, Global};

/// How many bytes such a disk takes.
const ROOM: usize = 8000;

/// A disk that tells nothing. Its call with the number `bad`, from 0, fails, and where it `stays` broken
/// each one behind it.
#[derive(Drop)]
pub(crate) struct WornDisk {
    bytes: Vec<u8>,
    /// How many of its bytes were written.
    length: usize,
    calls: u64,
    bad: u64,
    stays: bool,
    faults: u64,
}

impl WornDisk {
    /// A disk with these bytes, whose call with the number `bad` fails, and where it `stays` broken each one
    /// behind it.
    pub(crate) fn new(
        alloc: Global,
        bytes: &[u8],
        bad: u64,
        stays: bool,
    ) -> Result<WornDisk, AllocError> {
        let mut room = vec![in alloc; 0; ROOM]?;
        let length = bytes.len().min(ROOM);
        room[..length].copy_from_slice(&bytes[..length]);
        Ok(WornDisk {
            bytes: room,
            length,
            calls: 0,
            bad,
            stays,
            faults: 0,
        })
    }

    /// Whether the disk has these bytes and then those, and none behind.
    pub(crate) fn holds(&self, bytes: &[u8], behind: &[u8]) -> bool {
        let end = self.bytes.len().min(self.length);
        match self.bytes[..end].strip_prefix(bytes) {
            Some(rest) => rest == behind,
            None => false,
        }
    }

    fn fail<T>(&mut self) -> Result<T, Failed>
        ensures failed { is_ok result ≡ false }
        ensures counts { Counts self.old.faults self.new.faults result }
    {
        self.faults = self.faults.saturating_add(1);
        Err(Failed)
    }

    /// Whether the next call does its work.
    fn works(&mut self) -> bool
        ensures { self.new.faults ≡ self.old.faults }
    {
        let number = self.calls;
        self.calls = number.saturating_add(1);
        number < self.bad || (number > self.bad && !self.stays)
    }

    /// Writes over what stands at a place.
    fn put(&mut self, at: u64, bytes: &[u8]) -> Result<(), Failed>
        ensures { Counts self.old.faults self.new.faults result }
    {
        if !self.works() {
            return self.fail();
        }
        let start = self.bytes.len().min(at as usize);
        let room = &mut self.bytes[start..];
        if room.len() < bytes.len() {
            return self.fail();
        }
        room[..bytes.len()].copy_from_slice(bytes);
        self.length = self.length.max(start + bytes.len());
        Ok(())
    }
}

impl Disk for WornDisk {
    ghost state = { λ d. record {
      seen = None;
      images = λ _. Unit {0};
      clock = 0;
      since = λ _ _. Unit {0};
      ranges = None;
      faults = d.faults;
    } };

    fn len(&mut self) -> Result<u64, Failed> {
        if !self.works() {
            return self.fail();
        }
        Ok(self.length as u64)
    }

    fn read(&mut self, at: u64, buf: &mut [u8]) -> Result<usize, Failed> {
        if !self.works() {
            return self.fail();
        }
        let end = self.bytes.len().min(self.length);
        let rest = &self.bytes[end.min(at as usize)..end];
        let count = rest.len().min(buf.len());
        buf[..count].copy_from_slice(&rest[..count]);
        Ok(count)
    }

    fn write(&mut self, at: u64, bytes: &[u8]) -> Result<(), Failed> {
        self.put(at, bytes)
    }

    fn sync(&mut self) -> Result<(), Failed> {
        if !self.works() {
            return self.fail();
        }
        Ok(())
    }

    fn faults(&self) -> u64 {
        self.faults
    }

    ghost lawful = { λ _. record {
      reads_as = tt;
      counts_now = λ _ _ _ _. tt;
      only_now = λ _ _. tt;
      wider = λ _ _ _ _ _. tt;
    } };
}

/// The journal of a disk, at its end.
pub(crate) fn at_end(disk: &mut WornDisk) -> Option<Journal<'_, WornDisk>>
    ensures { IfSome result (λ journal. MayOpen (state_of journal)) }
{
    let Ok(mut journal) = Journal::open_journal(disk) else {
        return None;
    };
    for _step in 0..20u8 {
        match journal.next_place() {
            Ok(Some(_)) => {}
            Ok(None) => return Some(journal),
            Err(_) => return None,
        }
    }
    None
}

/// The journal of an archive that is made on a disk, which is empty; None where there is none.
pub(crate) fn begun(disk: &mut WornDisk) -> Option<Journal<'_, WornDisk>>
    ensures { IfSome result (λ journal. MayOpen (state_of journal)) }
{
    let header = Header {
        version: 1,
        types_limit: 10,
        words_limit: 10,
        length_limit: 8000,
    };
    create(disk, &header).ok()?;
    at_end(disk)
}

/// How many records a disk has that works again; None where it has no archive.
pub(crate) fn records(disk: &mut WornDisk) -> Option<u64> {
    disk.bad = u64::MAX;
    Some(at_end(disk)?.count())
}
