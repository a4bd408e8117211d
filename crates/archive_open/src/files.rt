//! The files of an archive.
ghost use Rattle.std.specs.Prelude.{◌≡◌, ◌++◌, map, OnOk};
ghost use Rattle.archive_open.specs.StepsNext.{new_file};

use plain_list::{ListOf, Text, TextList};
use std::alloc::AllocError;

/// What an archive says of a file.
#[derive(Debug, Drop)]
pub struct FileEntry {
    /// Its name.
    pub name: Text,
    /// How many messages the archive has of it.
    pub messages: u64,
    /// Whether its last segment is there.
    pub whole: bool,
    /// Whether the last line of the whole file had its newline.
    pub ended: bool,
}

/// The files of an archive, each at its number.
pub type FileList = ListOf<FileEntry>;

/// Adds files without messages.
pub(crate) fn add_files(files: &mut Vec<FileEntry>, names: TextList) -> Result<(), AllocError>
    ensures { OnOk result (files.new.items ≡ files.old.items ++ map new_file names) }
{
    for name in names.into_vec() {
        files.push(FileEntry {
            name,
            messages: 0,
            whole: false,
            ended: false,
        })?;
    }
    Ok(())
}
