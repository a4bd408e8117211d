//! Two parts that a disk lends at once, with what they and the disk are to answer, as the row of a test.
use crate::disk_calls::{DiskCall, all_answer};
use log_seams::SharedDisk;

/// The calls on a disk and on two parts that it lends, and whether the part that was lent last comes back
/// first. The fields stand in the order of the calls.
pub(crate) struct PartCalls {
    /// Of the part that was lent first.
    pub(crate) first: &'static [DiskCall],
    /// Of the disk, while both parts are lent.
    pub(crate) meanwhile: &'static [DiskCall],
    /// Of the part that was lent last.
    pub(crate) last: &'static [DiskCall],
    pub(crate) last_comes_first: bool,
    /// Of the disk, once one part came back.
    pub(crate) one_back: &'static [DiskCall],
    /// Of the disk, once both came back.
    pub(crate) both_back: &'static [DiskCall],
}

/// Whether the disk answers so as these parts come back, this one first.
fn come_back<D: SharedDisk>(
    disk: &mut D,
    part: D::Part,
    later: D::Part,
    calls: &PartCalls,
) -> bool {
    disk.take_back(part);
    let one_back = all_answer(disk, calls.one_back);
    disk.take_back(later);
    one_back && all_answer(disk, calls.both_back)
}

/// Whether these parts and the disk answer so.
fn answer<D: SharedDisk>(
    disk: &mut D,
    mut first: D::Part,
    mut last: D::Part,
    calls: &PartCalls,
) -> bool {
    let lent = all_answer(&mut first, calls.first)
        && all_answer(disk, calls.meanwhile)
        && all_answer(&mut last, calls.last);
    let back = if calls.last_comes_first {
        come_back(disk, last, first, calls)
    } else {
        come_back(disk, first, last, calls)
    };
    lent && back
}

/// Whether two parts of the disk, and the disk, answer so.
pub(crate) fn parts_answer<D: SharedDisk>(disk: &mut D, calls: &PartCalls) -> bool {
    let Some(first) = disk.part() else {
        return false;
    };
    let Some(last) = disk.part() else {
        return false;
    };
    answer(disk, first, last, calls)
}
