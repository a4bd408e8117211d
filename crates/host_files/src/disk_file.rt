//! A file as a disk. It tells no content, and counts one fault for each call that failed.
ghost use Rattle.std.specs.Prelude.{◌≡◌, ◌≤◌, ◌+◌, ◌^◌, ◌↔◌, ◌⊎◌, length, IfOk, IsTrue};
ghost use Rattle.std.specs.IoError.{error_kind};
ghost use Rattle.host_files.specs.Untold.{untold};

use crate::faults::{add_faults, counted};
use crate::file_id::FileId;
use crate::file_part::FilePart;
use crate::locked_file::LockedFile;
use crate::offsets::read_full;
use crate::place::{OffsetFile, Place};
use log_seams::{Disk, Failed, SharedDisk};
use std::io::{self, ErrorKind};

/// What is known of the file of a disk.
#[derive(Drop)]
enum Held<F: OffsetFile> {
    /// It is read alone, and opened at the first call that finds it.
    Reading(Option<F>),
    /// It may be written: its lock is held.
    Locked(LockedFile<F>),
    /// It may be written, and nothing stood at its place: the first write makes it.
    Absent,
    /// It was to be written, and could not be opened, or its lock was not to be had.
    Refused,
}

/// The file of a place, with what is known of it.
#[derive(Drop)]
struct PlacedFile<P, F: OffsetFile> {
    place: P,
    held: Held<F>,
    folder_synced: bool,
}

/// Opens and locks the file of a place, where one is there.
fn hold<P: Place>(place: &P) -> io::Result<Held<P::File>> {
    match place.open()? {
        Some(file) => Ok(Held::Locked(LockedFile::lock(place, file)?)),
        None => Ok(Held::Absent),
    }
}

/// The failure of a call that the file was not held for.
pub(crate) fn not_held() -> io::Error {
    ErrorKind::PermissionDenied.into()
}

/// Whether a file was not synced because it has no sync, as one of a file system that is only read.
fn has_no_sync(error: io::Error) -> bool
    ensures { IsTrue result ↔ ((error_kind error ≡ ErrorKind.ReadOnlyFilesystem)
        ⊎ (error_kind error ≡ ErrorKind.InvalidInput)
        ⊎ (error_kind error ≡ ErrorKind.Unsupported)
        ⊎ (error_kind error ≡ ErrorKind.PermissionDenied)) }
{
    let kind = error.kind();
    kind == ErrorKind::ReadOnlyFilesystem
        || kind == ErrorKind::InvalidInput
        || kind == ErrorKind::Unsupported
        || kind == ErrorKind::PermissionDenied
}

/// Syncs a file that is read alone, where it has a sync: nothing was written here that would need one.
fn sync_read<F: OffsetFile>(file: &mut F) -> io::Result<()> {
    match file.sync() {
        Err(error) if has_no_sync(error) => Ok(()),
        answer => answer,
    }
}

impl<P: Place> PlacedFile<P, P::File> {
    /// Opens a file that is read alone, where it is there and not open yet.
    fn find(&mut self) -> io::Result<()> {
        if let Held::Reading(None) = &self.held {
            self.held = Held::Reading(self.place.open_to_read()?);
        }
        Ok(())
    }

    /// Another handle of the file, which only reads, and `None` where no file is there.
    fn again(&mut self) -> io::Result<Option<P::File>> {
        self.find()?;
        match &self.held {
            Held::Reading(Some(file)) => Ok(Some(file.again()?)),
            Held::Locked(locked) => Ok(Some(locked.again()?)),
            Held::Reading(None) | Held::Absent => Ok(None),
            Held::Refused => Err(not_held()),
        }
    }

    fn len(&mut self) -> io::Result<u64> {
        self.find()?;
        match &mut self.held {
            Held::Reading(Some(file)) => file.len(),
            Held::Locked(locked) => locked.len(),
            Held::Reading(None) | Held::Absent => Ok(0),
            Held::Refused => Err(not_held()),
        }
    }

    fn read(&mut self, at: u64, buf: &mut [u8]) -> io::Result<usize>
        ensures { IfOk result (λ n. n ≤ length buf.old) }
    {
        self.find()?;
        match &mut self.held {
            Held::Reading(Some(file)) => read_full(file, at, buf),
            Held::Locked(locked) => locked.read(at, buf),
            Held::Reading(None) | Held::Absent => Ok(0),
            Held::Refused => Err(not_held()),
        }
    }

    fn write(&mut self, at: u64, bytes: &[u8]) -> io::Result<()>
        requires { at + length bytes.now ≤ 2 ^ 62 }
    {
        if let Held::Absent = &self.held {
            self.held = Held::Locked(LockedFile::make(&self.place)?);
        }
        match &mut self.held {
            Held::Locked(locked) => locked.write(at, bytes),
            Held::Reading(_) | Held::Absent | Held::Refused => Err(not_held()),
        }
    }

    /// Of a file that may be written the folder is synced too, once, at the first sync, so that the
    /// file's name is as durable as its bytes. One that is read alone asks nothing of the folder.
    fn sync(&mut self) -> io::Result<()> {
        self.find()?;
        match &mut self.held {
            Held::Reading(Some(file)) => return sync_read(file),
            Held::Locked(locked) => locked.sync()?,
            Held::Reading(None) | Held::Absent => return Ok(()),
            Held::Refused => return Err(not_held()),
        }
        if !self.folder_synced {
            self.place.sync_folder()?;
            self.folder_synced = true;
        }
        Ok(())
    }
}

/// The bytes of the file at a place.
///
/// A place at which nothing stands is a disk without bytes, which can be read and synced.
///
/// A disk that is to be written has the lock of its file from before the first call until it is let go.
/// Where the lock is not to be had, or the place has another file by then, each call fails. Where nothing stands yet the first write makes the
/// file, and fails where another made it meanwhile or a link leads nowhere. A file that can only be read
/// fails at each write.
#[derive(Drop)]
pub struct DiskFile<P, F: OffsetFile> {
    file: PlacedFile<P, F>,
    faults: u64,
}

impl<P: Place> DiskFile<P, P::File> {
    /// A disk that is read alone, takes no lock, and asks nothing of the folder. Its file was not looked
    /// for yet; each write fails.
    pub fn to_read(place: P) -> Self
        ensures { result.faults ≡ 0 }
    {
        DiskFile::new(place, Held::Reading(None))
    }

    /// A disk that may be written. Its file is opened and locked now, where it is there.
    pub fn to_write(place: P) -> Self
        ensures { result.faults ≡ 0 }
    {
        let held = hold(&place).unwrap_or(Held::Refused);
        DiskFile::new(place, held)
    }

    fn new(place: P, held: Held<P::File>) -> Self
        ensures { result.faults ≡ 0 }
    {
        DiskFile {
            file: PlacedFile {
                place,
                held,
                folder_synced: false,
            },
            faults: 0,
        }
    }

    /// Which file it is, where its lock is held.
    pub fn locked_id(&self) -> Option<FileId> {
        match &self.file.held {
            Held::Locked(locked) => Some(locked.id()),
            Held::Reading(_) | Held::Absent | Held::Refused => None,
        }
    }
}

impl<P: Place> Disk for DiskFile<P, P::File> {
    ghost state = { λ d. untold d.faults };

    fn len(&mut self) -> Result<u64, Failed> {
        counted(&mut self.faults, self.file.len())
    }

    fn read(&mut self, at: u64, buf: &mut [u8]) -> Result<usize, Failed> {
        counted(&mut self.faults, self.file.read(at, buf))
    }

    fn write(&mut self, at: u64, bytes: &[u8]) -> Result<(), Failed> {
        counted(&mut self.faults, self.file.write(at, bytes))
    }

    fn sync(&mut self) -> Result<(), Failed> {
        counted(&mut self.faults, self.file.sync())
    }

    fn faults(&self) -> u64 {
        self.faults
    }

    ghost lawful = { λ _. record {
      reads_as = tt;
      counts_now = λ _ _ _ _. tt;
      only_now = λ _ _. tt;
      wider = λ _ _ _ _ _. tt;
    } };
}

impl<P: Place> SharedDisk for DiskFile<P, P::File>
where
    P::File: Send,
{
    type Part = FilePart<P::File>;

    fn part(&mut self) -> Option<FilePart<P::File>> {
        match self.file.again() {
            Ok(file) => Some(FilePart::new(file)),
            Err(_) => None,
        }
    }

    fn take_back(&mut self, part: FilePart<P::File>) {
        add_faults(&mut self.faults, part.faults());
    }
}
