//! A file whose lock is held. Only such a file is written.
ghost use Rattle.std.specs.Prelude.{◌≡◌, ◌≤◌, ◌+◌, ◌^◌, [], true, length, IfOk, IfSome};

use crate::file_id::FileId;
use crate::offsets::{read_full, write_full};
use crate::place::{OffsetFile, Place};
use std::io::{self, ErrorKind};

/// A file whose lock is held as long as this stands.
#[derive(Drop)]
pub(crate) struct LockedFile<F: OffsetFile> {
    file: F,
    id: FileId,
    ghost held: { F.is_locked file ≡ true },
}

/// Whether a place has this file.
fn stands_at<P: Place>(place: &P, id: FileId) -> io::Result<bool> {
    match place.open_to_read()? {
        Some(mut found) => Ok(found.id()? == id),
        None => Ok(false),
    }
}

impl<F: OffsetFile> LockedFile<F> {
    /// Takes the lock of a file that was opened at a place, without waiting for it. Fails where the place
    /// has another file once the lock is held: what is written to one that lost its name is lost with it.
    pub(crate) fn lock<P: Place<File = F>>(place: &P, mut file: F) -> io::Result<Self> {
        let id = file.id()?;
        file.take_lock()?;
        if !stands_at(place, id)? {
            return Err(ErrorKind::WouldBlock.into());
        }
        Ok(LockedFile { file, id })
    }

    /// Makes the file of a place, and takes its lock. Fails where another wrote to it in between.
    pub(crate) fn make<P: Place<File = F>>(place: &P) -> io::Result<Self>
        ensures { IfOk result (λ made. IfSome (F.content made.file) (λ bytes. bytes ≡ [])) }
    {
        let mut made = LockedFile::lock(place, place.make()?)?;
        if made.len()? > 0 {
            return Err(ErrorKind::AlreadyExists.into());
        }
        Ok(made)
    }

    /// Which file it is.
    pub(crate) fn id(&self) -> FileId {
        self.id
    }

    /// Another handle of it, which only reads.
    pub(crate) fn again(&self) -> io::Result<F> {
        self.file.again()
    }

    /// The count of its bytes.
    pub(crate) fn len(&mut self) -> io::Result<u64>
        ensures told { IfOk result
            (λ n. IfSome (F.content self.old.file) (λ bytes. n ≡ length bytes)) }
        ensures content { F.content self.new.file ≡ F.content self.old.file }
    {
        self.file.len()
    }

    /// Reads from an offset into the front of the buffer, until it is full or the file ends.
    pub(crate) fn read(&mut self, at: u64, buf: &mut [u8]) -> io::Result<usize>
        ensures { IfOk result (λ n. n ≤ length buf.old) }
    {
        read_full(&mut self.file, at, buf)
    }

    /// Writes all of `bytes` at an offset.
    pub(crate) fn write(&mut self, at: u64, bytes: &[u8]) -> io::Result<()>
        requires { at + length bytes.now ≤ 2 ^ 62 }
    {
        write_full(&mut self.file, at, bytes)
    }

    /// Makes its bytes durable.
    pub(crate) fn sync(&mut self) -> io::Result<()> {
        self.file.sync()
    }
}
