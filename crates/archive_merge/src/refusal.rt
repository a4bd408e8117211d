//! Why not all files of the second archive came behind those of the first.

use crate::cause::MergeCause;
use disk_seal::RegisterRefusal;
use thiserror::Error;

/// Why the files of the second archive are not all there, or not whole.
#[derive(Clone, Copy, Debug, PartialEq, Eq, Error)]
pub enum MergeRefusal {
    /// The second archive has a file with a name that no archive may have. Nothing was done.
    #[error("the second archive is damaged: a name is too long")]
    LongName,
    /// Files got no numbers, and none was begun.
    #[error("the files were not named: {0}")]
    Names(RegisterRefusal),
    /// A file was not moved whole, and no file behind it was begun.
    #[error("file {file} was stopped: {cause}")]
    Stopped {
        /// The number of the file in the first archive.
        file: u32,
        /// Why.
        cause: MergeCause,
    },
    /// There was no memory before the first file was begun.
    #[error("out of memory")]
    OutOfMemory,
}
