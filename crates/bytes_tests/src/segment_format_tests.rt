ghost use Rattle.std.specs.Prelude.{◌≤◌, length, IfSome};
ghost use Rattle.step_count.specs.Opens.{OpensFor};
ghost use Rattle.segment_format.specs.Layout.{IsHead};

use crate::telling::holds;
use column_store::{Columns, RowRef};
use plain_list::{NumberList, Text};
use segment_format::*;
use std::alloc::{AllocError, Global};
use std::marker::Brand;
use std::sync::ledger::{Blank, Ledger};
use std::test::Fail;
use step_count::Steps;

/// The one segment of an archive that took in the one line `a`.
static ONE_ROW: [u8; 66] = [
    0, 0, 0, 0, 0, 0, 0, 0, 0, 0, 0, 0, 1, 0, 0, 0, 3, 0, 0, 0, 0, 0, 0, 0, 0, 0, 0, 0, 0, 0, 0, 0,
    0, 1, 0, 0, 0, 0, 0, 0, 0, 0, 0, 0, 0, 0, 0, 0, 0, 0, 0, 0, 0, 0, 0, 0, 0, 0, 0, 0, 0, 0, 0, 0,
    0, 0,
];

/// Rows 258 and 259 of file 1: one with pattern 8, moment -1500, log type 5 and the word 7, and one
/// without stamp of log type 2 without words. The dictionary words are said to be 1 and 9.
static TWO_ROWS: [u8; 103] = [
    1, 0, 0, 0, 2, 1, 0, 0, 0, 0, 0, 0, 2, 0, 0, 0, 4, 0x24, 0xFA, 0xFF, 0xFF, 0xFF, 0xFF, 0xFF,
    0xFF, 0x24, 0xFA, 0xFF, 0xFF, 0xFF, 0xFF, 0xFF, 0xFF, 2, 0, 0, 0, 2, 0, 0, 0, 1, 0, 0, 0, 2, 0,
    0, 0, 5, 0, 0, 0, 1, 0, 0, 0, 9, 0, 0, 0, 8, 0, 0x24, 0xFA, 0xFF, 0xFF, 0xFF, 0xFF, 0xFF, 0xFF,
    0, 0, 0, 0, 0, 0, 0, 0, 5, 0, 0, 0, 2, 0, 0, 0, 1, 0, 0, 0, 0, 0, 0, 0, 7, 0, 0, 0, 0, 0, 0, 0,
];

/// Adds a row of few words to few rows.
fn add(columns: &mut Columns, row: RowRef<'_>) -> Result<(), AllocError>
    requires { length row.words.now ≤ 2 }
{
    if columns.rows() < 10_000 && columns.variables() < 10_000 {
        columns.push(row, 40)?;
    }
    Ok(())
}

/// Adds so many rows without stamp, of log type 0 and without words.
fn add_plain(columns: &mut Columns, count: u32) -> Result<(), AllocError> {
    for _ in 0..count {
        let row = RowRef {
            pattern: 0,
            moment: 0,
            log_type: 0,
            words: &[],
        };
        add(columns, row)?;
    }
    Ok(())
}

fn plain_rows(alloc: Global, count: u32) -> Result<Columns, AllocError> {
    let mut columns = Columns::new(alloc);
    add_plain(&mut columns, count)?;
    Ok(columns)
}

/// The rows of a head, for a caller that counts nothing.
fn columns_of<L: Ledger>(
    alloc: Global,
    head: &Head,
    payload: &[u8],
    blank: Blank,
) -> Result<Columns, FormatRefusal>
    requires blank { OpensFor blank L.name L.parts }
    requires head { IsHead head.now }
{
    let mut steps: Steps<L> = Steps::new(blank);
    read_columns(alloc, head, payload, &mut steps)
}

/// The rows of a head, with a counter that is let go.
fn rows_of(alloc: Global, head: &Head, payload: &[u8]) -> Result<Columns, FormatRefusal>
    requires { IsHead head.now }
{
    columns_of::<Brand>(alloc, head, payload, Blank::new(1))
}

/// The head in front of a payload, and none where none stands there.
fn head_of(alloc: Global, payload: &[u8]) -> Option<Head>
    ensures { IfSome result (λ h. IsHead h) }
{
    let fixed = payload.first_chunk::<FIXED_LEN>()?;
    let len = head_len(fixed)? as usize;
    if payload.len() < len {
        return None;
    }
    read_head(alloc, &payload[..len]).ok()
}

/// How many rows and variables a payload is read as, and none where it is refused.
fn sizes_of(alloc: Global, payload: &[u8]) -> Option<(u32, u32)> {
    let head = head_of(alloc, payload)?;
    let columns = rows_of(alloc, &head, payload).ok()?;
    Some((columns.rows(), columns.variables()))
}

/// The payload of a segment of so many rows without words.
fn plain_payload(alloc: Global, count: u32) -> Result<Text, AllocError> {
    let columns = plain_rows(alloc, count)?;
    let words = NumberList::new(Vec::new(alloc));
    write_segment(alloc, 0, 0, true, true, &columns, &words)
}

/// Whether the head in front of a payload is that of the one row.
fn is_of_one_row(alloc: Global, payload: &[u8]) -> bool {
    match head_of(alloc, payload) {
        Some(head) => {
            (head.rows, head.last, head.ended, head.stamped) == (1, true, true, false)
                && head.types.as_slice() == [0].as_slice()
        }
        None => false,
    }
}

/// Whether one row is written and read as its segment.
fn is_one_row(alloc: Global) -> Result<bool, AllocError> {
    let read = is_of_one_row(alloc, &ONE_ROW) && sizes_of(alloc, &ONE_ROW) == Some((1, 0));
    Ok(plain_payload(alloc, 1)?.as_slice() == ONE_ROW.as_slice() && read)
}

#[test]
fn one_row(rt: HostRuntime) -> Result<(), Fail> {
    holds(is_one_row(rt.alloc()))
}

/// Adds the rows of the segment of two.
fn add_two(columns: &mut Columns) -> Result<(), AllocError> {
    let first = RowRef {
        pattern: 8,
        moment: -1_500,
        log_type: 5,
        words: &[7],
    };
    let second = RowRef {
        pattern: 0,
        moment: 0,
        log_type: 2,
        words: &[],
    };
    add(columns, first)?;
    add(columns, second)
}

fn two_columns(alloc: Global) -> Result<Columns, AllocError> {
    let mut columns = Columns::new(alloc);
    add_two(&mut columns)?;
    Ok(columns)
}

/// The payload of the segment of two.
fn two_payload(alloc: Global) -> Result<Text, AllocError> {
    let words = NumberList::new(vec![in alloc; 1, 9]?);
    let columns = two_columns(alloc)?;
    write_segment(alloc, 1, 258, false, false, &columns, &words)
}

/// Whether two rows are written and read as their segment.
fn are_two_rows(alloc: Global) -> Result<bool, AllocError> {
    let read = sizes_of(alloc, &TWO_ROWS) == Some((2, 1));
    Ok(two_payload(alloc)?.as_slice() == TWO_ROWS.as_slice() && read)
}

#[test]
fn two_rows(rt: HostRuntime) -> Result<(), Fail> {
    holds(are_two_rows(rt.alloc()))
}

#[test]
fn cuts(rt: HostRuntime) -> Result<(), Fail> {
    for end in 0..TWO_ROWS.len() {
        if sizes_of(rt.alloc(), &TWO_ROWS[..end]).is_some() {
            return Err(Fail::new(end));
        }
    }
    Ok(())
}

/// Whether these bytes are neither a head nor a segment.
fn are_neither(alloc: Global, bytes: &[u8]) -> bool {
    sizes_of(alloc, bytes).is_none() && read_head(alloc, bytes).is_err()
}

fn longer_are_neither(alloc: Global) -> Result<bool, AllocError> {
    let mut longer = Vec::from_slice(alloc, &TWO_ROWS)?;
    longer.push(0)?;
    Ok(are_neither(alloc, longer.as_slice()))
}

#[test]
fn a_byte_behind(rt: HostRuntime) -> Result<(), Fail> {
    holds(longer_are_neither(rt.alloc()))
}

/// A byte's place, its new value, and whether rows are read still.
const CHANGED: &[(usize, u8, bool)] = &[
    (0, 2, true),
    (12, 3, false),
    (12, 1, false),
    (16, 2, true),
    (16, 7, true),
    (16, 8, false),
    (16, 0x84, false),
    (33, 3, false),
    (37, 3, false),
    (37, 1, false),
    (41, 2, false),
    (41, 0, false),
    (45, 1, true),
    (45, 5, false),
    (45, 6, false),
    (53, 10, false),
    (61, 255, true),
    (87, 2, false),
    (87, 0, false),
    (91, 1, false),
];

/// Whether rows are read still where the byte at this place is changed.
fn stays_read(alloc: Global, at: usize, byte: u8) -> Result<bool, AllocError> {
    let mut bytes = Vec::from_slice(alloc, &TWO_ROWS)?;
    if let Some(changed) = bytes.get_mut(at) {
        *changed = byte;
    }
    Ok(sizes_of(alloc, bytes.as_slice()).is_some())
}

#[test]
fn changed_bytes(rt: HostRuntime) -> Result<(), Fail> {
    for (at, byte, stays) in CHANGED {
        if stays_read(rt.alloc(), *at, *byte)? != *stays {
            return Err(Fail::from((*at, *byte)));
        }
    }
    Ok(())
}

/// The places of bytes of the head that are no counts: of its file, of a flag, of its least moment, of a
/// log type and of a word.
const OTHER_HEADS: &[usize] = &[0, 16, 17, 45, 53];

/// Whether this head's rows are refused of a payload that has another byte at this place.
fn is_told_apart(alloc: Global, head: &Head, at: usize) -> Result<bool, AllocError>
    requires { IsHead head.now }
{
    let mut bytes = Vec::from_slice(alloc, &TWO_ROWS)?;
    if let Some(changed) = bytes.get_mut(at) {
        *changed ^= 1;
    }
    let read = rows_of(alloc, head, bytes.as_slice());
    Ok(read.err() == Some(FormatRefusal::Malformed))
}

/// Whether this head's rows are read of its own payload, and of none with another head.
fn are_told_apart(alloc: Global, head: &Head) -> Result<bool, AllocError>
    requires { IsHead head.now }
{
    for at in OTHER_HEADS {
        if !is_told_apart(alloc, head, *at)? {
            return Ok(false);
        }
    }
    Ok(rows_of(alloc, head, &TWO_ROWS).is_ok())
}

fn heads_are_told_apart(alloc: Global) -> Result<bool, AllocError> {
    match head_of(alloc, &TWO_ROWS) {
        Some(head) => are_told_apart(alloc, &head),
        None => Ok(false),
    }
}

#[test]
fn another_head(rt: HostRuntime) -> Result<(), Fail> {
    holds(heads_are_told_apart(rt.alloc()))
}

/// A reader of the pages of a head, for a caller that counts nothing.
fn pages_of<L: Ledger>(head: &Head, payload: u64, blank: Blank) -> Option<PageReader>
    requires blank { OpensFor blank L.name L.parts }
    requires head { IsHead head.now }
{
    let mut steps: Steps<L> = Steps::new(blank);
    open_pages(head, payload, &mut steps)
}

/// A reader of the pages of a head, with a counter that is let go.
fn reader_of(head: &Head, payload: u64) -> Option<PageReader>
    requires { IsHead head.now }
{
    pages_of::<Brand>(head, payload, Blank::new(1))
}

/// Adds so many bytes of a payload from a place on, where they stand there.
fn add_piece(out: &mut Vec<u8>, payload: &[u8], at: u64, len: u64) -> Result<(), AllocError> {
    let end = at.saturating_add(len) as usize;
    out.extend_from_slice(payload.get(at as usize..end).unwrap_or(&[]))
}

/// Adds the five pieces of a page, the last of which has so many bytes.
fn add_pieces(
    out: &mut Vec<u8>,
    payload: &[u8],
    ask: PageAsk,
    words: u64,
) -> Result<(), AllocError> {
    let rows = u64::from(ask.rows);
    add_piece(out, payload, ask.patterns, rows)?;
    add_piece(out, payload, ask.moments, 8 * rows)?;
    add_piece(out, payload, ask.types, 4 * rows)?;
    add_piece(out, payload, ask.counts, 4 * rows)?;
    add_piece(out, payload, ask.variables, words)
}

/// Gathers the pieces of the next page out of a payload, and tells whether they are there.
fn gather(bytes: &mut Vec<u8>, pages: &PageReader, payload: &[u8]) -> Result<bool, AllocError> {
    let Some(ask) = pages.ask() else {
        return Ok(false);
    };
    let counts = 4 * u64::from(ask.rows);
    bytes.clear();
    add_piece(bytes, payload, ask.counts, counts)?;
    if bytes.len() as u64 != counts {
        return Ok(false);
    }
    let Some(words) = pages.variable_bytes(bytes.as_slice()) else {
        return Ok(false);
    };
    bytes.clear();
    add_pieces(bytes, payload, ask, words)?;
    Ok(true)
}

/// The next page out of a payload, in the memory of columns, and none where it is refused or the last
/// page was read.
fn page_in(
    alloc: Global,
    pages: &mut PageReader,
    columns: Columns,
    payload: &[u8],
) -> Result<Option<Columns>, AllocError> {
    let mut bytes = Vec::new(alloc);
    let is_there = gather(&mut bytes, pages, payload)?;
    if !is_there || pages.ask().is_none() {
        return Ok(None);
    }
    Ok(pages.fill_page(columns, bytes.as_slice()).ok())
}

/// What is asked for behind the first of its pages.
const LAST: PageAsk = PageAsk {
    rows: 904,
    patterns: 4_145,
    moments: 37_817,
    types: 61_433,
    counts: 81_433,
    variables: 85_049,
};

/// Whether a payload of 5,000 rows has two pages.
fn has_two_pages(
    alloc: Global,
    pages: &mut PageReader,
    payload: &[u8],
) -> Result<bool, AllocError> {
    let Some(first) = page_in(alloc, pages, Columns::new(alloc), payload)? else {
        return Ok(false);
    };
    if first.rows() != PAGE_ROWS || pages.ask() != Some(LAST) {
        return Ok(false);
    }
    let Some(second) = page_in(alloc, pages, first, payload)? else {
        return Ok(false);
    };
    Ok(second.rows() == 904 && pages.ask().is_none())
}

/// Whether the reader of this head, which needs all bytes of the payload, reads two pages of it.
fn are_paged(alloc: Global, head: &Head, payload: &[u8]) -> Result<bool, AllocError>
    requires { IsHead head.now }
{
    let Some(mut pages) = reader_of(head, 85_049) else {
        return Ok(false);
    };
    Ok(has_two_pages(alloc, &mut pages, payload)? && reader_of(head, 85_048).is_none())
}

/// Whether the reader of the payload's own head reads two pages of it.
fn is_paged(alloc: Global, payload: &[u8]) -> Result<bool, AllocError> {
    match head_of(alloc, payload) {
        Some(head) => are_paged(alloc, &head, payload),
        None => Ok(false),
    }
}

fn many_are_paged(alloc: Global) -> Result<bool, AllocError> {
    is_paged(alloc, plain_payload(alloc, 5_000)?.as_slice())
}

#[test]
fn places_of_pages(rt: HostRuntime) -> Result<(), Fail> {
    holds(many_are_paged(rt.alloc()))
}

/// A byte's place, its value, and whether the one page with the counts of words is read then.
const COUNTED: &[(usize, u8, bool)] = &[
    (87, 1, true),
    (87, 0, false),
    (87, 2, false),
    (91, 1, false),
];

/// Whether the page of two rows is read out of these bytes, and is that page.
fn is_page_of(alloc: Global, head: &Head, bytes: &[u8]) -> Result<bool, AllocError>
    requires { IsHead head.now }
{
    let Some(mut pages) = reader_of(head, 103) else {
        return Ok(false);
    };
    match page_in(alloc, &mut pages, Columns::new(alloc), bytes)? {
        Some(page) => {
            Ok(page.moments() == [-1_500, 0].as_slice() && page.words() == [7].as_slice())
        }
        None => Ok(false),
    }
}

/// Whether the page of two rows is still read where the byte at this place is changed.
fn is_page(alloc: Global, head: &Head, at: usize, byte: u8) -> Result<bool, AllocError>
    requires { IsHead head.now }
{
    let mut bytes = Vec::from_slice(alloc, &TWO_ROWS)?;
    if let Some(changed) = bytes.get_mut(at) {
        *changed = byte;
    }
    is_page_of(alloc, head, bytes.as_slice())
}

/// Whether each of the changes keeps the page or not, as told.
fn are_pages(alloc: Global, head: &Head) -> Result<bool, AllocError>
    requires { IsHead head.now }
{
    for &(at, byte, stays) in COUNTED {
        if is_page(alloc, head, at, byte)? != stays {
            return Ok(false);
        }
    }
    Ok(true)
}

fn two_are_pages(alloc: Global) -> Result<bool, AllocError> {
    match head_of(alloc, &TWO_ROWS) {
        Some(head) => are_pages(alloc, &head),
        None => Ok(false),
    }
}

#[test]
fn pages_with_words(rt: HostRuntime) -> Result<(), Fail> {
    holds(two_are_pages(rt.alloc()))
}

/// Whether the reader has one page, of one row.
fn has_one_page(alloc: Global, pages: &mut PageReader) -> bool {
    if pages.ask().is_none() {
        return false;
    }
    match pages.next_page(alloc, &ONE_ROW[49..]) {
        Ok(page) => page.rows() == 1 && pages.ask().is_none(),
        Err(_) => false,
    }
}

/// Whether the one row is one page.
fn is_one_page(alloc: Global) -> bool {
    let Some(head) = head_of(alloc, &ONE_ROW) else {
        return false;
    };
    match reader_of(&head, 66) {
        Some(mut pages) => has_one_page(alloc, &mut pages),
        None => false,
    }
}

#[test]
fn one_page(rt: HostRuntime) {
    assert!(rt; is_one_page(rt.alloc()));
}

#[test]
fn laws_hold() {
    heads_are_unique();
    columns_are_unique();
    segments_are_unique();
    segments_read_back();
    pages_are_the_columns();
}

/// Numbers, and their sorted set. The first rows are marked, as the greatest number is below sixteen
/// times their count; the others are sorted.
const SETS: &[(&[u32], &[u32])] = &[
    (&[], &[]),
    (&[0], &[0]),
    (&[15], &[15]),
    (&[7, 7, 7], &[7]),
    (&[31, 5], &[5, 31]),
    (&[3, 1, 2, 1, 3, 0], &[0, 1, 2, 3]),
    (&[40, 47, 0, 46, 47], &[0, 40, 46, 47]),
    (&[16], &[16]),
    (&[32, 5], &[5, 32]),
    (&[4_294_967_295, 0, 4_294_967_295], &[0, 4_294_967_295]),
];

/// Whether this is the set of the numbers.
fn is_set(alloc: Global, numbers: &[u32], set: &[u32]) -> bool {
    match set_of(alloc, numbers) {
        Ok(found) => found.as_slice() == set,
        Err(_) => false,
    }
}

#[test]
fn sorted_sets(rt: HostRuntime) -> Result<(), Fail> {
    for (numbers, set) in SETS {
        if !is_set(rt.alloc(), *numbers, *set) {
            return Err(Fail::new(set.len()));
        }
    }
    Ok(())
}
