//! A disk in memory that tells nothing, and a journal over it.
ghost use Rattle.std.specs.Prelude.{◌≡◌, ◌+◌, ◌^◌, ◌≤◌, false, None, length, is_ok, IfSome};
ghost use Rattle.log_seams.specs.Outside.{Counts};
ghost use Rattle.disk_journal.specs.Journal.{state_of};
ghost use Rattle.disk_seal.specs.Opening.{MayOpen};

use disk_journal::Journal;
use log_seams::{Disk, Failed, MemDisk};

/// A disk in memory that tells nothing.
#[derive(Drop)]
pub(crate) struct QuietDisk {
    pub disk: MemDisk,
    pub faults: u64,
}

impl QuietDisk {
    /// Counts a fault.
    fn fail<T>(&mut self) -> Result<T, Failed>
        ensures failed { is_ok result ≡ false }
        ensures counts { Counts self.old.faults self.new.faults result }
    {
        self.faults = self.faults.saturating_add(1);
        Err(Failed)
    }

    /// Writes at a place that is not past the end.
    fn put(&mut self, at: u64, bytes: &[u8]) -> Result<(), Failed>
        requires { at + length bytes.now ≤ 2 ^ 62 }
        ensures { Counts self.old.faults self.new.faults result }
    {
        if at > self.disk.bytes().len() as u64 {
            return self.fail();
        }
        match self.disk.write(at, bytes) {
            Ok(()) => Ok(()),
            Err(_) => self.fail(),
        }
    }
}

impl Disk for QuietDisk {
    ghost state = { λ d. record {
      seen = None;
      images = λ _. Unit {0};
      clock = 0;
      since = λ _ _. Unit {0};
      ranges = None;
      faults = d.faults;
    } };

    fn len(&mut self) -> Result<u64, Failed> {
        match self.disk.len() {
            Ok(length) => Ok(length),
            Err(_) => self.fail(),
        }
    }

    fn read(&mut self, at: u64, buf: &mut [u8]) -> Result<usize, Failed> {
        match self.disk.read(at, buf) {
            Ok(count) => Ok(count.min(buf.len())),
            Err(_) => self.fail(),
        }
    }

    fn write(&mut self, at: u64, bytes: &[u8]) -> Result<(), Failed> {
        self.put(at, bytes)
    }

    fn sync(&mut self) -> Result<(), Failed> {
        match self.disk.sync() {
            Ok(()) => Ok(()),
            Err(_) => self.fail(),
        }
    }

    fn faults(&self) -> u64 {
        self.faults
    }

    ghost lawful = { λ _. record {
      reads_as = tt;
      counts_now = λ _ _ _ _. tt;
      only_now = λ _ _. tt;
      wider = λ _ _ _ _ _. tt;
    } };
}

/// The journal of a disk, at its end.
pub(crate) fn at_end(disk: &mut QuietDisk) -> Option<Journal<'_, QuietDisk>>
    ensures { IfSome result (λ j. MayOpen (state_of j)) }
{
    let Ok(mut journal) = Journal::open_journal(disk) else {
        return None;
    };
    for _step in 0..9u8 {
        match journal.next_place() {
            Ok(Some(_)) => {}
            Ok(None) => return Some(journal),
            Err(_) => return None,
        }
    }
    None
}
