//! Columns of rows of which not all columns are read.
ghost use Rattle.std.specs.Prelude.{◌≡◌, ◌≤◌, ◌<◌, ◌-◌, ◌*◌, ◌%◌, ◌+◌, ◌^◌, length, take, drop, false, All, IfSome, IsNone, OnOk, IsErrOf};
ghost use Rattle.std.specs.Int.{w64};
ghost use Rattle.std.specs.Int.RustNames.{FitsSigned};
ghost use Rattle.std.specs.List.{flat_map};
ghost use Rattle.log_seams.specs.Outside.{CountsOf};
ghost use Rattle.record_format.specs.Lists.{four_bytes};
ghost use Rattle.segment_format.specs.Layout.{moment_bytes};
ghost use Rattle.segment_format.specs.Pages.{pieces};
ghost use Rattle.segment_pages.specs.Reads.{OnlyReadsIn};
ghost use Rattle.segment_pages.specs.StepsLoaded.{EndsBefore, passing};

use crate::loading::{fill, grow};
use crate::refusal::PageRefusal;
use byteorder::{ByteOrder, LittleEndian};
use log_seams::Disk;
use segment_format::{PageAsk, PageReader};
use std::alloc::AllocError;

/// Each number fits its type. It does nothing.
fn numbers_fit(numbers: &[u32])
    ensures { All (λ n. n < 2 ^ 32) numbers.now }
{
    let _ = numbers;
}

/// Each moment fits its type. It does nothing.
fn moments_fit(moments: &[i64])
    ensures { All (λ m. FitsSigned w64 m) moments.now }
{
    for moment in moments {
        let _value = *moment;
    }
}

/// Makes the vector the numbers of four bytes each that the bytes are.
pub(crate) fn fill_numbers(out: &mut Vec<u32>, bytes: &[u8]) -> Result<(), AllocError>
    requires { length bytes.now % 4 ≡ 0 }
    ensures spelled { OnOk result (bytes.now ≡ flat_map four_bytes out.new.items) }
    ensures length { OnOk result (length bytes.now ≡ 4 * length out.new.items) }
    ensures fit { OnOk result (All (λ n. n < 2 ^ 32) out.new.items) }
{
    out.resize(bytes.len() / 4, 0)?;
    LittleEndian::read_u32_into(bytes, &mut out[..]);
    numbers_fit(out.as_slice());
    Ok(())
}

/// Makes the vector the moments that the bytes are.
pub(crate) fn fill_moments(out: &mut Vec<i64>, bytes: &[u8]) -> Result<(), AllocError>
    requires { length bytes.now % 8 ≡ 0 }
    ensures spelled { OnOk result (bytes.now ≡ flat_map moment_bytes out.new.items) }
    ensures length { OnOk result (length bytes.now ≡ 8 * length out.new.items) }
    ensures fit { OnOk result (All (λ m. FitsSigned w64 m) out.new.items) }
{
    out.resize(bytes.len() / 8, 0)?;
    LittleEndian::read_i64_into(bytes, &mut out[..]);
    moments_fit(out.as_slice());
    Ok(())
}

/// Reads so many bytes from a place on into the front of a buffer.
pub(crate) fn read_part<D: Disk>(
    disk: &mut D,
    at: u64,
    size: usize,
    buffer: &mut Vec<u8>,
) -> Result<(), PageRefusal>
    // what stays
    ensures reads { OnlyReadsIn at size (D.state disk.old) (D.state disk.new) }

    // by the answer, and causes
    ensures long { OnOk result (size ≤ length buffer.new.items) }
    ensures filled { OnOk result (IfSome (D.state disk.old).seen
        (λ bytes. take size buffer.new.items ≡ take size (drop at bytes))) }
    ensures damaged { IsErrOf result PageRefusal.Damaged
        → EndsBefore (at + size) (D.state disk.old).seen }
    ensures counts { CountsOf PageRefusal.DiskFault
        (D.state disk.old).faults (D.state disk.new).faults result }
{
    grow(buffer, size)?;
    let (bytes, _) = buffer.as_mut_slice().split_at_mut(size);
    fill(disk, at, bytes)
}

/// The pieces of the next page. There is none where all rows were passed.
pub(crate) fn ask_of(passed: bool, pages: &PageReader) -> Option<PageAsk>
    ensures some { IfSome result (λ a. a ≡ pieces pages.now) }
    ensures left { IfSome result (λ _. pages.now.row < pages.now.rows) }
    ensures stands { IfSome result (λ _. passed ≡ false) }
    ensures none { IsNone result
        → (passing passed pages.now).rows ≤ (passing passed pages.now).row }
{
    if passed {
        return None;
    }
    pages.ask()
}

/// How many rows are left, by the places of the next page's pieces. The columns follow one another, so
/// these tell how many rows the segment has, and how many of them come before the page.
pub(crate) fn rows_behind(ask: &PageAsk, pages: &PageReader) -> u32
    requires ask { ask.now ≡ pieces pages.now }
    requires left { pages.now.row < pages.now.rows }
    requires few { pages.now.rows < 2 ^ 32 }
    ensures { result ≡ pages.now.rows - pages.now.row }
{
    let _ = pages;
    let rows = (ask.counts - ask.types) / 4;
    let row = (ask.moments - ask.patterns - rows) / 7;
    (rows - row) as u32
}
