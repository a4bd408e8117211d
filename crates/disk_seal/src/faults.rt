//! A fault that stopped a store.

use thiserror::Error;

/// A call of the disk failed, now or earlier, and the store is stopped: it takes no more records, and the
/// archive is to be opened again.
#[derive(Clone, Copy, Debug, PartialEq, Eq, Error)]
#[error("the disk failed, {opened} faults at the opening and {now} now")]
pub struct DiskFault {
    /// The disk's count of faults when the store was opened.
    pub opened: u64,
    /// The count at the fault that stopped the store: above `opened`, or the last value of a u64.
    pub now: u64,
}
