//! Which file of the system a file is, whatever its name.
use std::fs::File;
use std::io;
use std::os::unix::fs::MetadataExt;

/// The number of a file, and that of the device that has it. Two open files of one identity are one
/// file.
#[derive(Clone, Copy, Debug, PartialEq, Eq)]
pub struct FileId {
    /// The number of the device.
    pub device: u64,
    /// The number of the file on it.
    pub number: u64,
}

impl FileId {
    /// The identity of an open file.
    pub(crate) fn of(file: &File) -> io::Result<FileId> {
        let metadata = file.metadata()?;
        Ok(FileId {
            device: metadata.dev(),
            number: metadata.ino(),
        })
    }
}
