//! A file, a log and a stream for the tests, whose calls are interrupted and give or take a part of
//! what they are asked for.
ghost use Rattle.std.specs.Prelude.{◌≤◌, None, length, true, IfOk};

use host_files::{FileId, Input, OffsetFile, Output, Place};
use std::alloc::Global;
use std::cell::Cell;
use std::io::{self, ErrorKind};

/// Bytes of which the first call of each three is interrupted, the second gives or takes one, and the
/// third as many as there is room for. The call of one number fails.
#[derive(Drop)]
pub(crate) struct Halting<'t> {
    pub(crate) bytes: Vec<u8>,
    /// How many bytes of it were read.
    pub(crate) done: usize,
    pub(crate) calls: u64,
    pub(crate) fails: u64,
    /// Which file it is.
    pub(crate) number: u64,
    /// Whether another has its lock.
    pub(crate) lock_taken: bool,
    /// What a sync of it fails with.
    pub(crate) sync_fails: Option<ErrorKind>,
    /// What was called, one digit a call: 2 for a sync of the file, 4 for taking its lock, 5 for a read, 6
    /// for its length, 7 for a write.
    pub(crate) trace: &'t Cell<u64>,
}

/// Adds a digit to what was called.
fn note(trace: &Cell<u64>, digit: u64) {
    trace.set(trace.get().wrapping_mul(10).wrapping_add(digit));
}

impl<'t> Halting<'t> {
    /// A file with these bytes.
    pub(crate) fn new(bytes: Vec<u8>, fails: u64, trace: &'t Cell<u64>) -> Halting<'t> {
        Halting {
            bytes,
            done: 0,
            calls: 0,
            fails,
            number: 1,
            lock_taken: false,
            sync_fails: None,
            trace,
        }
    }

    /// How many of so many bytes the next call gives or takes.
    fn share(&mut self, most: usize) -> io::Result<usize>
        ensures { IfOk result (λ n. n ≤ most) }
    {
        let call = self.calls;
        self.calls = call.wrapping_add(1);
        if call == self.fails {
            return Err(ErrorKind::Other.into());
        }
        match call % 3 {
            0 => Err(ErrorKind::Interrupted.into()),
            1 => Ok(most.min(1)),
            _ => Ok(most),
        }
    }

    /// Copies bytes from an offset on to the front of the buffer.
    fn give(&mut self, buf: &mut [u8], offset: usize) -> io::Result<usize>
        ensures { IfOk result (λ n. n ≤ length buf.old) }
    {
        let count = self.share(buf.len())?;
        let Some(there) = self.bytes.as_slice().get(offset..) else {
            return Ok(0);
        };
        let count = count.min(there.len());
        buf[..count].copy_from_slice(&there[..count]);
        Ok(count)
    }
}

impl Input for Halting<'_> {
    ghost left = { λ _. None };

    fn read_some(&mut self, buf: &mut [u8]) -> io::Result<usize> {
        let count = self.give(buf, self.done)?;
        self.done = self.done.saturating_add(count);
        Ok(count)
    }
}

impl Output for Halting<'_> {
    ghost taken = { λ _. None };

    fn write_some(&mut self, bytes: &[u8]) -> io::Result<usize> {
        let count = self.share(bytes.len())?;
        self.bytes.extend_from_slice(&bytes[..count])?;
        Ok(count)
    }
}

impl OffsetFile for Halting<'_> {
    ghost content = { λ _. None };

    ghost is_locked = { λ _. true };

    fn id(&mut self) -> io::Result<FileId> {
        Ok(FileId {
            device: 0,
            number: self.number,
        })
    }

    fn take_lock(&mut self) -> io::Result<()> {
        note(self.trace, 4);
        if self.lock_taken {
            return Err(ErrorKind::WouldBlock.into());
        }
        Ok(())
    }

    fn again(&self) -> io::Result<Self> {
        let mut again = Halting::new(self.bytes.clone()?, self.fails, self.trace);
        again.number = self.number;
        again.lock_taken = self.lock_taken;
        Ok(again)
    }

    fn len(&mut self) -> io::Result<u64> {
        note(self.trace, 6);
        Ok(self.bytes.len() as u64)
    }

    fn read_some(&mut self, buf: &mut [u8], offset: u64) -> io::Result<usize> {
        note(self.trace, 5);
        self.give(buf, offset as usize)
    }

    fn write_some(&mut self, bytes: &[u8], offset: u64) -> io::Result<usize> {
        note(self.trace, 7);
        let count = self.share(bytes.len())?;
        self.bytes.truncate(offset as usize);
        self.bytes.extend_from_slice(&bytes[..count])?;
        Ok(count)
    }

    fn sync(&mut self) -> io::Result<()> {
        note(self.trace, 2);
        match self.sync_fails {
            Some(kind) => Err(kind.into()),
            None => Ok(()),
        }
    }

    ghost bounded = { λ _. tt };
}

/// A place for one file.
#[derive(Drop)]
pub(crate) struct HaltingPlace<'t> {
    pub(crate) alloc: Global,
    /// Whether a file stands there.
    pub(crate) is_there: bool,
    /// The bytes of the file: of one that is made, those that another wrote before it was locked.
    pub(crate) bytes: &'t [u8],
    /// Whether another has the lock of the file.
    pub(crate) lock_taken: bool,
    /// Whether another file has the name of the one that was opened, once it is locked.
    pub(crate) is_moved: bool,
    /// What a sync of the file fails with.
    pub(crate) sync_fails: Option<ErrorKind>,
    /// Whether a sync of the folder fails.
    pub(crate) folder_fails: bool,
    /// What was called, one digit a call: 1 for making the file, 3 for a sync of the folder, 8 for opening
    /// the file to read it alone.
    pub(crate) trace: &'t Cell<u64>,
}

impl<'t> HaltingPlace<'t> {
    /// A place at which nothing stands.
    pub(crate) fn empty(alloc: Global, trace: &'t Cell<u64>) -> HaltingPlace<'t> {
        HaltingPlace {
            alloc,
            is_there: false,
            bytes: &[],
            lock_taken: false,
            is_moved: false,
            sync_fails: None,
            folder_fails: false,
            trace,
        }
    }

    fn file(&self) -> io::Result<Halting<'t>> {
        let bytes = Vec::from_slice(self.alloc, self.bytes)?;
        let mut file = Halting::new(bytes, u64::MAX, self.trace);
        file.lock_taken = self.lock_taken;
        file.sync_fails = self.sync_fails;
        Ok(file)
    }
}

impl<'t> Place for HaltingPlace<'t> {
    type File = Halting<'t>;

    fn open(&self) -> io::Result<Option<Halting<'t>>> {
        if self.is_there {
            return Ok(Some(self.file()?));
        }
        Ok(None)
    }

    fn open_to_read(&self) -> io::Result<Option<Halting<'t>>> {
        note(self.trace, 8);
        let mut file = self.file()?;
        if self.is_moved {
            file.number = 2;
        }
        Ok(Some(file))
    }

    fn make(&self) -> io::Result<Halting<'t>> {
        note(self.trace, 1);
        self.file()
    }

    fn sync_folder(&self) -> io::Result<()> {
        note(self.trace, 3);
        if self.folder_fails {
            return Err(ErrorKind::Other.into());
        }
        Ok(())
    }
}
