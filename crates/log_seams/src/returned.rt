//! What the parts of a disk in memory read, once they came back.

/// The parts that came back, the newest first. The memory for one more is taken when a part is lent.
#[derive(Drop)]
pub enum Returned {
    /// No part came back.
    Nothing,
    /// A part came back when the disk had so many calls recorded. It had read these ranges, each a place
    /// and a count of bytes. The other parts came back before it.
    Part {
        calls: usize,
        ranges: Vec<(u64, usize)>,
        before: Box<Returned>,
    },
}
