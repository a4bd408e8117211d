//! Why an archive does not pass.

use thiserror::Error;

/// Why an archive did not pass its check.
#[derive(Clone, Copy, Debug, PartialEq, Eq, Error)]
pub enum CheckRefusal {
    /// A call of the disk failed: its count of faults rose.
    #[error("the disk failed")]
    DiskFault,
    /// The bytes are no legal archive; the first damage is at this place.
    #[error("damaged at {at}")]
    Damaged {
        /// The place of the gate behind the last good record, or 0 where the header is none.
        at: u64,
    },
    /// There was no memory.
    #[error("out of memory")]
    OutOfMemory,
}
