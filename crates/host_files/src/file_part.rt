//! A part of a disk's file, which one thread reads by itself.
ghost use Rattle.std.specs.Prelude.{◌≡◌, ◌≤◌, length, IfOk};
ghost use Rattle.host_files.specs.Untold.{untold};

use crate::disk_file::not_held;
use crate::faults::counted;
use crate::offsets::read_full;
use crate::place::OffsetFile;
use log_seams::{Disk, Failed};
use std::io;

/// A part of the file of a disk: a handle of its own, which only reads. It tells no content, and counts
/// one fault for each call that failed. Each write and each sync fails.
#[derive(Drop)]
pub struct FilePart<F: OffsetFile> {
    /// The file, where one is there.
    file: Option<F>,
    faults: u64,
}

impl<F: OffsetFile> FilePart<F> {
    /// A part that read nothing yet.
    pub(crate) fn new(file: Option<F>) -> FilePart<F>
        ensures { result.faults ≡ 0 }
    {
        FilePart { file, faults: 0 }
    }
}

/// The count of the bytes of a file, if one is there.
fn len_of<F: OffsetFile>(file: &mut Option<F>) -> io::Result<u64> {
    match file {
        Some(file) => file.len(),
        None => Ok(0),
    }
}

/// Reads from an offset into the front of the buffer, until it is full or the file ends.
fn read_of<F: OffsetFile>(file: &mut Option<F>, at: u64, buf: &mut [u8]) -> io::Result<usize>
    ensures { IfOk result (λ n. n ≤ length buf.old) }
{
    match file {
        Some(file) => read_full(file, at, buf),
        None => Ok(0),
    }
}

impl<F: OffsetFile> Disk for FilePart<F> {
    ghost state = { λ p. untold p.faults };

    fn len(&mut self) -> Result<u64, Failed> {
        counted(&mut self.faults, len_of(&mut self.file))
    }

    fn read(&mut self, at: u64, buf: &mut [u8]) -> Result<usize, Failed> {
        counted(&mut self.faults, read_of(&mut self.file, at, buf))
    }

    fn write(&mut self, at: u64, bytes: &[u8]) -> Result<(), Failed> {
        let (_, _) = (at, bytes);
        counted(&mut self.faults, Err(not_held()))
    }

    fn sync(&mut self) -> Result<(), Failed> {
        counted(&mut self.faults, Err(not_held()))
    }

    fn faults(&self) -> u64 {
        self.faults
    }

    ghost lawful = { λ _. record {
      reads_as = tt;
      counts_now = λ _ _ _ _. tt;
      only_now = λ _ _. tt;
      wider = λ _ _ _ _ _. tt;
    } };
}
