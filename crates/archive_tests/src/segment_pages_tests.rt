//! A segment behind ten bytes of a disk, whole, changed and over a disk that fails.
ghost use Rattle.step_count.specs.Opens.{OpensFor};

use column_store::Columns;
use log_seams::MemDisk;
use plain_list::Text;
use segment_format::{Head, read_head};
use segment_pages::{PageRefusal, SegmentPages, none_are_left, segments_are_held};
use std::alloc::{AllocError, Global};
use std::marker::Brand;
use std::sync::ledger::{Blank, Ledger};
use std::test::Fail;
use step_count::Steps;
use test_archives::changed;

/// Where the payload begins on the disk, and how many bytes its head and all of it have.
const AT: usize = 10;

const HEAD_LEN: usize = 61;

const LEN: usize = 103;

/// Rows 258 and 259 of file 1: one with pattern 8, moment -1500, log type 5 and the word 7, and one
/// without stamp of log type 2 without words. The dictionary words are said to be 1 and 9.
static TWO_ROWS: [u8; LEN] = [
    1, 0, 0, 0, 2, 1, 0, 0, 0, 0, 0, 0, 2, 0, 0, 0, 4, 0x24, 0xFA, 0xFF, 0xFF, 0xFF, 0xFF, 0xFF,
    0xFF, 0x24, 0xFA, 0xFF, 0xFF, 0xFF, 0xFF, 0xFF, 0xFF, 2, 0, 0, 0, 2, 0, 0, 0, 1, 0, 0, 0, 2, 0,
    0, 0, 5, 0, 0, 0, 1, 0, 0, 0, 9, 0, 0, 0, 8, 0, 0x24, 0xFA, 0xFF, 0xFF, 0xFF, 0xFF, 0xFF, 0xFF,
    0, 0, 0, 0, 0, 0, 0, 0, 5, 0, 0, 0, 2, 0, 0, 0, 1, 0, 0, 0, 0, 0, 0, 0, 7, 0, 0, 0, 0, 0, 0, 0,
];

/// A disk with the payload behind ten bytes, of which these calls fail.
fn disk(alloc: Global, payload: &[u8], fails: &[u64]) -> Result<MemDisk, AllocError> {
    let mut bytes = vec![in alloc; 3; AT]?;
    bytes.extend_from_slice(payload)?;
    MemDisk::new(alloc, Text::new(bytes), 200, 20, fails.to_vec(alloc)?)
}

/// The one page of a disk, for a caller that counts nothing.
fn page_of<L: Ledger>(
    alloc: Global,
    head: &Head,
    disk: &mut MemDisk,
    blank: Blank,
) -> Result<Columns, PageRefusal>
    requires { OpensFor blank L.name L.parts }
{
    let mut steps: Steps<L> = Steps::new(blank);
    let Some(mut pages) = SegmentPages::open(AT as u64, LEN as u64, head, &mut steps) else {
        return Err(PageRefusal::Damaged);
    };
    let mut buffer = Vec::new(alloc);
    let columns = Columns::new(alloc);
    if !pages.has_next() {
        return Err(PageRefusal::Damaged);
    }
    let page = pages.next_page(disk, &mut buffer, columns)?;
    if pages.has_next() {
        return Err(PageRefusal::Damaged);
    }
    Ok(page)
}

/// Whether a page has these rows.
fn is_page(page: &Columns) -> bool {
    page.moments() == [-1_500, 0].as_slice()
        && page.types() == [5, 2].as_slice()
        && page.words() == [7].as_slice()
}

/// Whether the page of the disk has its rows, and took so many reads.
fn takes_reads(alloc: Global, calls: usize) -> Result<bool, AllocError> {
    let Ok(head) = read_head(alloc, &TWO_ROWS[..HEAD_LEN]) else {
        return Ok(false);
    };
    let mut disk = disk(alloc, &TWO_ROWS, &[])?;
    let Ok(page) = page_of::<Brand>(alloc, &head, &mut disk, Blank::new(1)) else {
        return Ok(false);
    };
    Ok(is_page(&page) && disk.calls() == calls)
}

#[test]
fn a_page_is_read_by_five_reads(rt: HostRuntime) -> Result<(), Fail> {
    let well = takes_reads(rt.alloc(), 5)?;
    assert!(rt; well);
    Ok(())
}

/// How many rows the page of a disk has that is passed, and after how many reads none is left, for a caller
/// that counts nothing.
fn passes<L: Ledger>(
    alloc: Global,
    head: &Head,
    disk: &mut MemDisk,
    blank: Blank,
) -> Result<Option<(u32, usize)>, PageRefusal>
    requires { OpensFor blank L.name L.parts }
{
    let mut steps: Steps<L> = Steps::new(blank);
    let Some(mut pages) = SegmentPages::open(AT as u64, LEN as u64, head, &mut steps) else {
        return Ok(None);
    };
    let mut buffer = Vec::new(alloc);
    if !pages.has_next() || pages.page_rows() != 2 {
        return Ok(None);
    }
    let rows = pages.pass_page(disk, &mut buffer)?;
    Ok((!pages.has_next()).then_some((rows, disk.calls())))
}

/// Whether the page of the disk is passed, after so many reads.
fn passes_by(alloc: Global, calls: usize) -> Result<bool, AllocError> {
    let Ok(head) = read_head(alloc, &TWO_ROWS[..HEAD_LEN]) else {
        return Ok(false);
    };
    let mut disk = disk(alloc, &TWO_ROWS, &[])?;
    let passed = passes::<Brand>(alloc, &head, &mut disk, Blank::new(1));
    Ok(passed == Ok(Some((2, calls))))
}

#[test]
fn a_page_is_passed_by_one_read(rt: HostRuntime) -> Result<(), Fail> {
    let well = passes_by(rt.alloc(), 1)?;
    assert!(rt; well);
    Ok(())
}

/// The log types of all rows of a disk, and after how many reads they are there, for a caller that counts
/// nothing.
fn types_of<L: Ledger>(
    alloc: Global,
    head: &Head,
    disk: &mut MemDisk,
    blank: Blank,
) -> Result<Option<(Vec<u32>, usize)>, PageRefusal>
    requires { OpensFor blank L.name L.parts }
{
    let mut steps: Steps<L> = Steps::new(blank);
    let Some(pages) = SegmentPages::open(AT as u64, LEN as u64, head, &mut steps) else {
        return Ok(None);
    };
    let mut buffer = Vec::new(alloc);
    let mut types = Vec::new(alloc);
    if !pages.has_next() {
        return Ok(None);
    }
    pages.read_all_types(disk, &mut buffer, &mut types)?;
    Ok(Some((types, disk.calls())))
}

/// Whether the log types of all rows of the disk are its own, after so many reads.
fn are_types_by(alloc: Global, calls: usize) -> Result<bool, AllocError> {
    let Ok(head) = read_head(alloc, &TWO_ROWS[..HEAD_LEN]) else {
        return Ok(false);
    };
    let mut disk = disk(alloc, &TWO_ROWS, &[])?;
    let Ok(Some((types, took))) = types_of::<Brand>(alloc, &head, &mut disk, Blank::new(1)) else {
        return Ok(false);
    };
    Ok(types.as_slice() == [5, 2].as_slice() && took == calls)
}

#[test]
fn all_log_types_are_read_by_one_read(rt: HostRuntime) -> Result<(), Fail> {
    let well = are_types_by(rt.alloc(), 1)?;
    assert!(rt; well);
    Ok(())
}

#[test]
fn laws_hold() {
    segments_are_held();
    none_are_left();
}

/// Why the page of a disk with this payload is refused.
fn refusal(
    alloc: Global,
    payload: &[u8],
    fails: &[u64],
) -> Result<Option<PageRefusal>, AllocError> {
    let Ok(head) = read_head(alloc, &TWO_ROWS[..HEAD_LEN]) else {
        return Err(AllocError);
    };
    let mut disk = disk(alloc, payload, fails)?;
    Ok(page_of::<Brand>(alloc, &head, &mut disk, Blank::new(1)).err())
}

#[test]
fn what_is_damaged_is_refused(rt: HostRuntime) -> Result<(), Fail> {
    let short = refusal(rt.alloc(), &TWO_ROWS[..LEN - 1], &[])?;
    let fewer = changed(rt.alloc(), &TWO_ROWS, 87, 0)?;
    let fewer = refusal(rt.alloc(), fewer.as_slice(), &[])?;
    assert!(rt; (short, fewer) == (Some(PageRefusal::Damaged), Some(PageRefusal::Damaged)));
    Ok(())
}

#[test]
fn each_read_may_fail(rt: HostRuntime) -> Result<(), Fail> {
    for call in 0..6 {
        let told = refusal(rt.alloc(), &TWO_ROWS, &[call])?;
        assert!(rt;
            told == (call < 5).then_some(PageRefusal::DiskFault),
            "{call}"
        );
    }
    Ok(())
}
