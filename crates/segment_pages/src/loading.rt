//! The bytes of a page.
ghost use Rattle.std.specs.Prelude.{◌≡◌, ◌≤◌, ◌+◌, ◌*◌, ◌<◌, ◌^◌, length, take, drop, IfOk, OnOk, IsErrOf, IfSome};
ghost use Rattle.log_seams.specs.Outside.{CountsOf};
ghost use Rattle.segment_format.specs.Pages.{pieces};
ghost use Rattle.segment_pages.specs.Paged.{HoldsNoneTold, ReadsColumns, paged, payload_size};
ghost use Rattle.segment_pages.specs.Reads.{OnlyReadsIn};
ghost use Rattle.segment_pages.specs.StepsLoaded.{EndsBefore, FixedTold, LoadedTold};

use crate::refusal::PageRefusal;
use log_seams::Disk;
use segment_format::{PageAsk, PageReader};
use std::alloc::AllocError;

/// How many bytes a row takes in the columns, without its words.
const ROW_LEN: usize = 17;

/// How many bytes a row takes in the columns before its count.
const COUNTS_AT: usize = 13;

/// Makes a buffer as long as that, where it is not.
pub(crate) fn grow(buffer: &mut Vec<u8>, size: usize) -> Result<(), AllocError>
    ensures long { OnOk result (size ≤ length buffer.new.items) }
    ensures kept { OnOk result
        (take (length buffer.old.items) buffer.new.items ≡ buffer.old.items) }
{
    if buffer.len() < size {
        buffer.resize(size, 0)?;
    }
    Ok(())
}

/// Fills a buffer with the bytes from a place on.
pub(crate) fn fill<D: Disk>(disk: &mut D, at: u64, buffer: &mut [u8]) -> Result<(), PageRefusal>
    // what stays
    ensures reads { OnlyReadsIn at (length buffer.old) (D.state disk.old) (D.state disk.new) }

    // by the answer, and causes
    ensures filled { OnOk result (IfSome (D.state disk.old).seen
        (λ bytes. buffer.new ≡ take (length buffer.old) (drop at bytes))) }
    ensures damaged { IsErrOf result PageRefusal.Damaged
        → EndsBefore (at + length buffer.old) (D.state disk.old).seen }
    ensures counts { CountsOf PageRefusal.DiskFault
        (D.state disk.old).faults (D.state disk.new).faults result }
{
    let count = disk.read(at, buffer)?;
    if count < buffer.len() {
        return Err(PageRefusal::Damaged);
    }
    Ok(())
}

/// Fills a buffer with those pieces of a page whose length its count of rows tells. The payload
/// begins at a place of the disk.
pub(crate) fn fill_fixed<D: Disk>(
    disk: &mut D,
    at: u64,
    ask: &PageAsk,
    buffer: &mut [u8],
) -> Result<(), PageRefusal>
    requires length { length buffer.old ≡ 17 * ask.now.rows }
    requires first { ask.now.patterns + ask.now.rows ≤ ask.now.moments }
    requires second { ask.now.moments + 8 * ask.now.rows ≤ ask.now.types }
    requires third { ask.now.types + 4 * ask.now.rows ≤ ask.now.counts }
    requires end { at + ask.now.counts + 4 * ask.now.rows < 2 ^ 64 }

    // what stays
    ensures reads { (start : _) (size : _) → start ≤ at + ask.now.patterns
        → at + ask.now.counts + 4 * ask.now.rows ≤ start + size
        → OnlyReadsIn start size (D.state disk.old) (D.state disk.new) }

    // by the answer, and causes
    ensures filled { OnOk result (FixedTold (D.state disk.old).seen at ask.now buffer.new) }
    ensures damaged { IsErrOf result PageRefusal.Damaged
        → EndsBefore (at + ask.now.counts + 4 * ask.now.rows) (D.state disk.old).seen }
    ensures counts { CountsOf PageRefusal.DiskFault
        (D.state disk.old).faults (D.state disk.new).faults result }
{
    let rows = ask.rows as usize;
    let (patterns, rest) = buffer.split_at_mut(rows);
    let (moments, rest) = rest.split_at_mut(8 * rows);
    let (types, counts) = rest.split_at_mut(4 * rows);
    fill(disk, at + ask.patterns, patterns)?;
    fill(disk, at + ask.moments, moments)?;
    fill(disk, at + ask.types, types)?;
    fill(disk, at + ask.counts, counts)
}

/// Reads the pieces of the next page into the front of a buffer, and answers how many bytes they have.
pub(crate) fn load<D: Disk>(
    disk: &mut D,
    at: u64,
    pages: &PageReader,
    ask: &PageAsk,
    buffer: &mut Vec<u8>,
) -> Result<usize, PageRefusal>
    requires left { pages.now.row < pages.now.rows }
    requires few { pages.now.variables < 2 ^ 32 }
    requires small { at + payload_size pages.now < 2 ^ 64 }
    requires ask { ask.now ≡ pieces pages.now }

    // what stays
    ensures reads { ReadsColumns (paged at pages.now) (D.state disk.old) (D.state disk.new) }

    // by the answer
    ensures size { IfOk result (λ n. n ≤ length buffer.new.items) }
    ensures loaded { IfOk result (λ n. LoadedTold (D.state disk.old).seen
        (paged at pages.now) (take n buffer.new.items)) }

    // causes
    ensures damaged { IsErrOf result PageRefusal.Damaged
        → HoldsNoneTold (D.state disk.old).seen (paged at pages.now) }
    ensures counts { CountsOf PageRefusal.DiskFault
        (D.state disk.old).faults (D.state disk.new).faults result }
{
    let rows = ask.rows as usize;
    let fixed = ROW_LEN * rows;
    grow(buffer, fixed)?;
    let (bytes, _) = buffer.as_mut_slice().split_at_mut(fixed);
    fill_fixed(disk, at, ask, bytes)?;
    let (_, counts) = bytes.split_at(COUNTS_AT * rows);
    let Some(more) = pages.variable_bytes(counts) else {
        return Err(PageRefusal::Damaged);
    };
    let more = more as usize;
    grow(buffer, fixed + more)?;
    let (_, behind) = buffer.as_mut_slice().split_at_mut(fixed);
    let (words, _) = behind.split_at_mut(more);
    fill(disk, at + ask.variables, words)?;
    Ok(fixed + more)
}
