//! A journal that is to be gone on with, over a disk that is lent anew.
ghost use Rattle.std.specs.Prelude.{◌-◌, ◌^◌, ◌<◌, ◌≤◌, IsTrue};

use crate::holding::Holding;
use record_format::Header;

/// Where a journal has come to, without its disk.
#[derive(Clone, Copy, Debug)]
pub struct JournalEnd {
    /// The header that the disk begins with.
    pub header: Header,
    /// The place of the gate that it has come to.
    pub place: u64,
    /// How many records were walked past and appended.
    pub count: u64,
    /// Whether the gate at `place` is closed.
    pub closed: bool,
    ghost limit: { header.length_limit ≤ 2 ^ 40 },
    ghost below: { IsTrue closed → place < 2 ^ 64 - 1 },
    ghost counted: { count ≤ place },
}

/// An archive that was opened and may be appended to, without its disk.
#[derive(Drop)]
pub struct OpenedArchive {
    /// Where its journal has come to.
    pub end: JournalEnd,
    /// What it has.
    pub holding: Holding,
}
