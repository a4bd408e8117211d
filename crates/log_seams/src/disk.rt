//! A disk: a row of bytes that is read and written by calls which may fail, and of which a crash may
//! leave less than a read gives.
//!
//! Between two syncs each written range, and what lies past the old end, may hold any bytes after a
//! crash; all other bytes stay. After a sync that succeeds a crash leaves what a read gives. A call
//! that failed raised the disk's count of faults; a write or a sync that failed leaves the same
//! freedom over its range.
ghost use Rattle.std.specs.Prelude.{◌≡◌, ◌+◌, ◌^◌, ◌≤◌, length};
ghost use Rattle.log_seams.specs.Disk.{DiskState, IsLawful, HasLength, HasRead, HasWritten, HasSynced};

use crate::Failed;

/// A row of bytes behind calls that may fail. Places and lengths are counts of bytes from 0.
pub trait Disk {
    /// What the disk tells of its bytes, of what a crash leaves, of time, of the ranges read and of
    /// its faults.
    ghost state: { Self → DiskState };

    /// The count of bytes. Fails only where the count of faults rose. Changes no byte and no image.
    fn len(&mut self) -> Result<u64, Failed>
        ensures { HasLength result (state self.old) (state self.new) };

    /// Reads from the place `at` into the front of `buf`: as many bytes as stand there, at most the
    /// length of `buf`. Answers how many. Fails only where the count of faults rose. Changes no byte
    /// and no image of the disk.
    fn read(&mut self, at: u64, buf: &mut [u8]) -> Result<usize, Failed>
        ensures { HasRead at buf.old buf.new result (state self.old) (state self.new) };

    /// Writes over what stands at the place `at`, and past the end. A write that would begin behind the
    /// end may fail. Until a sync succeeds a crash may leave any bytes in the range. Fails only where the
    /// count of faults rose.
    fn write(&mut self, at: u64, bytes: &[u8]) -> Result<(), Failed>
        requires end { at + length bytes.now ≤ 2 ^ 62 }
        ensures { HasWritten at bytes.now result (state self.old) (state self.new) };

    /// After it a crash leaves what a read gives. Fails only where the count of faults rose. Changes
    /// no byte.
    fn sync(&mut self) -> Result<(), Failed>
        ensures { HasSynced result (state self.old) (state self.new) };

    /// How often a call has failed. It never falls, and stops at the last value of a u64. It is no
    /// call on the device: it cannot fail and changes nothing.
    fn faults(&self) -> u64
        ensures { result ≡ (state self.now).faults };

    /// What holds of each state.
    ghost lawful: { (d : Self) → IsLawful (state d) };
}

impl<D: Disk> Disk for &mut D {
    ghost state = { λ d. D.state d.now };

    fn len(&mut self) -> Result<u64, Failed> {
        (**self).len()
    }

    fn read(&mut self, at: u64, buf: &mut [u8]) -> Result<usize, Failed> {
        (**self).read(at, buf)
    }

    fn write(&mut self, at: u64, bytes: &[u8]) -> Result<(), Failed> {
        (**self).write(at, bytes)
    }

    fn sync(&mut self) -> Result<(), Failed> {
        (**self).sync()
    }

    fn faults(&self) -> u64 {
        (**self).faults()
    }

    ghost lawful = { λ d. D.lawful d.now };
}
