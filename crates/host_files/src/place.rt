//! Where a disk's file stands: a path, at which it is opened or made, in a folder that is synced.
ghost use Rattle.std.specs.Prelude.{◌≡◌, ◌≢◌, ◌<◌, ◌≤◌, ◌^◌, ◌↔◌, ◌⊎◌, ℕ, Bool, List, Option, length, take, true, None, Ok, Err, Some, IfOk, IfErr, IfSome, OnErr, OnOk, IsTrue, option_map};
ghost use Rattle.std.specs.IoError.{error_kind};
ghost use Rattle.log_seams.specs.Disk.{laid};
ghost use Rattle.host_files.specs.Offset.{GaveSome};

use crate::file_id::FileId;
use std::fs::{self, File, OpenOptions};
use std::io::{self, ErrorKind};
use std::os::fd::AsRawFd;
use std::os::unix::fs::FileExt;
use std::path::Path;
use std::rt::Files;

/// A file that is read and written at offsets.
pub trait OffsetFile: Drop {
    /// Its bytes, where they are told.
    ghost content: { Self → Option (List ℕ) };

    /// Whether its lock is held, which one open file at a time has.
    ghost is_locked: { Self → Bool };

    /// Which file it is.
    fn id(&mut self) -> io::Result<FileId>
        ensures locked { is_locked self.new ≡ is_locked self.old }
        ensures content { content self.new ≡ content self.old };

    /// Takes its lock, without waiting for it. It is held until the file is let go. What others wrote
    /// before is there then.
    fn take_lock(&mut self) -> io::Result<()>
        ensures locked { OnOk result (is_locked self.new ≡ true) };

    /// Another handle of the same file, which reads by itself.
    fn again(&self) -> io::Result<Self>
        ensures { IfOk result (λ f. content f ≡ content self.now) };

    /// The count of its bytes.
    fn len(&mut self) -> io::Result<u64>
        ensures told { IfOk result (λ n. IfSome (content self.old) (λ bytes. n ≡ length bytes)) }
        ensures locked { is_locked self.new ≡ is_locked self.old }
        ensures content { content self.new ≡ content self.old };

    /// Reads some of the bytes from an offset on to the front of `buf`, and answers how many: none
    /// only where none stand there or `buf` is empty.
    fn read_some(&mut self, buf: &mut [u8], offset: u64) -> io::Result<usize>
        ensures within { IfOk result (λ n. n ≤ length buf.old) }
        ensures told { IfOk result (λ n. GaveSome (content self.old) offset n buf.new) }
        ensures locked { is_locked self.new ≡ is_locked self.old }
        ensures content { content self.new ≡ content self.old };

    /// Writes some of the first of `bytes` at an offset, and answers how many. A write that failed or
    /// was interrupted wrote nothing. Only a file whose lock is held is written.
    fn write_some(&mut self, bytes: &[u8], offset: u64) -> io::Result<usize>
        requires lock { is_locked self.old ≡ true }
        ensures locked { is_locked self.new ≡ true }
        ensures within { IfOk result (λ n. n ≤ length bytes.now) }
        ensures written { IfOk result (λ n. content self.new
            ≡ option_map (laid offset (take n bytes.now)) (content self.old)) }
        ensures unwritten { OnErr result (content self.new ≡ content self.old) };

    /// Makes the bytes durable.
    fn sync(&mut self) -> io::Result<()>
        ensures locked { is_locked self.new ≡ is_locked self.old }
        ensures content { content self.new ≡ content self.old };

    /// The system's offsets are of 63 bits.
    ghost bounded: { (f : Self) → IfSome (content f) (λ bytes. length bytes < 2 ^ 63) };
}

impl OffsetFile for File {
    ghost content = { λ _. None };

    ghost is_locked = { λ _. true };

    fn id(&mut self) -> io::Result<FileId> {
        FileId::of(self)
    }

    fn take_lock(&mut self) -> io::Result<()> {
        Ok(self.try_lock()?)
    }

    fn again(&self) -> io::Result<File> {
        self.try_clone()
    }

    fn len(&mut self) -> io::Result<u64> {
        Ok(self.metadata()?.len())
    }

    fn read_some(&mut self, buf: &mut [u8], offset: u64) -> io::Result<usize> {
        self.read_at(buf, offset)
    }

    fn write_some(&mut self, bytes: &[u8], offset: u64) -> io::Result<usize> {
        self.write_at(bytes, offset)
    }

    fn sync(&mut self) -> io::Result<()> {
        self.sync_all()
    }

    ghost bounded = { λ _. tt };
}

/// The place of one file.
pub trait Place {
    /// The file there.
    type File: OffsetFile;

    /// Opens the file to write it, or to read it alone where that is all that it allows; `None` where
    /// nothing stands there.
    fn open(&self) -> io::Result<Option<Self::File>>;

    /// Opens the file to read it alone; `None` where nothing stands there.
    fn open_to_read(&self) -> io::Result<Option<Self::File>>;

    /// Makes the file, where nothing stands yet.
    fn make(&self) -> io::Result<Self::File>;

    /// Makes the file's name durable.
    fn sync_folder(&self) -> io::Result<()>;
}

/// A file that is not there is `None`; each other error stays.
fn if_there(opened: io::Result<File>) -> io::Result<Option<File>>
    ensures opened { IfOk opened (λ file. result ≡ Ok (Some file)) }
    ensures absent { IfErr opened
        (λ e. error_kind e ≡ ErrorKind.NotFound → result ≡ Ok None) }
    ensures failed { IfErr opened (λ e. error_kind e ≢ ErrorKind.NotFound → result ≡ Err e) }
{
    match opened {
        Ok(file) => Ok(Some(file)),
        Err(error) if error.kind() == ErrorKind::NotFound => Ok(None),
        Err(error) => Err(error),
    }
}

/// Whether a file that cannot be opened for writing may still be opened for reading.
fn refuses_writing(error: io::Error) -> bool
    ensures { IsTrue result ↔ ((error_kind error ≡ ErrorKind.PermissionDenied)
        ⊎ (error_kind error ≡ ErrorKind.ReadOnlyFilesystem)) }
{
    let kind = error.kind();
    kind == ErrorKind::PermissionDenied || kind == ErrorKind::ReadOnlyFilesystem
}

/// Opens a file for reading and writing, or for reading alone where that is all that it allows.
fn open_if_there<R: Files<File = File>>(rt: &R, path: &str) -> io::Result<Option<File>> {
    match OpenOptions::new().read(true).write(true).open(rt, path) {
        Err(error) if refuses_writing(error) => if_there(File::open(rt, path)),
        opened => if_there(opened),
    }
}

/// Opens a file for reading alone. A folder is not opened, nor a pipe, which would wait for its writer.
fn open_file<R: Files<File = File>>(rt: &R, path: &str) -> io::Result<File> {
    if !fs::metadata(rt, path)?.is_file() {
        return Err(ErrorKind::InvalidInput.into());
    }
    File::open(rt, path)
}

/// A file whose number is none of the three of the standard streams: what is meant for a stream that
/// was closed must not land in the file.
fn above_streams(file: File) -> io::Result<File> {
    if file.as_raw_fd() > 2 {
        return Ok(file);
    }
    file.try_clone()
}

/// The folder that holds the file.
fn folder_of(path: &str) -> Path<'_> {
    match Path::new(path).parent() {
        Some(folder) if !folder.as_str().is_empty() => folder,
        _ => Path::new("."),
    }
}

/// A path in the file system that the runtime has.
#[derive(Drop)]
pub struct FilePath<'p, R> {
    /// What opens files.
    pub rt: &'p R,
    /// The path.
    pub path: &'p str,
}

impl<R: Files<File = File>> Place for FilePath<'_, R> {
    type File = File;

    fn open(&self) -> io::Result<Option<File>> {
        match open_if_there(self.rt, self.path)? {
            Some(file) => Ok(Some(above_streams(file)?)),
            None => Ok(None),
        }
    }

    fn open_to_read(&self) -> io::Result<Option<File>> {
        match if_there(open_file(self.rt, self.path))? {
            Some(file) => Ok(Some(above_streams(file)?)),
            None => Ok(None),
        }
    }

    fn make(&self) -> io::Result<File> {
        above_streams(File::create_new(self.rt, self.path)?)
    }

    fn sync_folder(&self) -> io::Result<()> {
        File::open(self.rt, folder_of(self.path))?.sync_all()
    }
}
