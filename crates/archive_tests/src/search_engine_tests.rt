//! Searches of small archives, which were written by another program.
ghost use Rattle.step_count.specs.Opens.{OpensFor};

use archive_places::open_places;
use column_store::Range;
use log_seams::{Disk, MemDisk, MemSink};
use plain_list::Text;
use query_plan::wide_is_wider;
use search_engine::{Report, SearchRefusal, exact_expands_printed, one_is_found, search};
use std::alloc::{AllocError, Global};
use std::marker::Brand;
use std::sync::ledger::{Blank, Ledger};
use std::test::Fail;
use std::thread::Threads;
use step_count::Steps;
use test_archives::{LETTERS, NUMBERS, ROWS, STAMPS, WORKED, changed};
use wild_match::read_pattern;

/// What a search printed and answered, how many calls of the disk it made, and how many failed.
#[derive(Drop)]
struct Outcome {
    printed: MemSink,
    answer: Result<Report, SearchRefusal>,
    calls: u64,
    faults: u64,
}

/// A disk with these bytes, which is read alone.
fn disk_of(alloc: Global, bytes: &[u8]) -> Result<MemDisk, AllocError> {
    let bytes = Text::new(bytes.to_vec(alloc)?);
    MemDisk::new(alloc, bytes, 0, 1_000, Vec::new(alloc))
}

/// Searches an archive into an output with so much room, for a caller that counts nothing. Each part of
/// the disk fails at its call of this number.
fn search_with<R: Threads + Sync, L: Ledger, M: Ledger>(
    rt: &R,
    workers: u32,
    alloc: Global,
    bytes: &[u8],
    text: &[u8],
    range: Range,
    room: usize,
    fails: u64,
    one: Blank,
    two: Blank,
) -> Result<Outcome, AllocError>
    requires one { OpensFor one L.name L.parts }
    requires two { OpensFor two M.name M.parts }
{
    wide_is_wider();
    let Ok(pattern) = read_pattern(alloc, text) else {
        return Err(AllocError);
    };
    let mut out = MemSink::new(alloc, room, Vec::new(alloc))?;
    let mut disk = disk_of(alloc, bytes)?;
    disk.fail_parts(vec![in alloc; fails; 1]?);
    let opening = open_places(alloc, &mut disk);
    let Ok(places) = opening else {
        return Err(AllocError);
    };
    let before = disk.calls() as u64;
    let mut opened: Steps<L> = Steps::new(one);
    let mut expanded: Steps<M> = Steps::new(two);
    let answer = search(
        rt,
        workers,
        alloc,
        places,
        &mut disk,
        &pattern,
        &range,
        &mut out,
        &mut opened,
        &mut expanded,
    );
    Ok(Outcome {
        printed: out,
        answer,
        calls: (disk.calls() as u64).wrapping_sub(before),
        faults: disk.faults(),
    })
}

fn searched_failing<R: Threads + Sync>(
    rt: &R,
    workers: u32,
    alloc: Global,
    bytes: &[u8],
    text: &[u8],
    range: Range,
    room: usize,
    fails: u64,
) -> Result<Outcome, AllocError> {
    search_with::<R, Brand, Brand>(
        rt,
        workers,
        alloc,
        bytes,
        text,
        range,
        room,
        fails,
        Blank::new(1),
        Blank::new(1),
    )
}

/// Searches over a disk whose parts do not fail.
fn searched<R: Threads + Sync>(
    rt: &R,
    workers: u32,
    alloc: Global,
    bytes: &[u8],
    text: &[u8],
    range: Range,
    room: usize,
) -> Result<Outcome, AllocError> {
    searched_failing(rt, workers, alloc, bytes, text, range, room, u64::MAX)
}

const ALL: Range = Range {
    from: None,
    to: None,
};

/// What a search counts.
type Counts = (u64, u64, u64, u64);

/// Whether a search counts that.
fn counts_are(answer: &Result<Report, SearchRefusal>, counts: Counts) -> bool {
    match answer {
        Ok(report) => {
            report.matched == counts.0
                && report.expanded == counts.1
                && report.opened == counts.2
                && report.segments == counts.3
        }
        Err(_) => false,
    }
}

/// Whether a search prints that, and counts that: found, expanded, opened, all segments.
fn finds<R: Threads + Sync>(
    rt: &R,
    workers: u32,
    alloc: Global,
    bytes: &[u8],
    text: &[u8],
    range: Range,
    printed: &[u8],
    counts: Counts,
) -> Result<bool, AllocError> {
    let outcome = searched(rt, workers, alloc, bytes, text, range, 1_000)?;
    Ok(outcome.printed.bytes() == printed && counts_are(&outcome.answer, counts))
}

/// A pattern over the numbers, what is printed, and what is counted.
const OF_NUMBERS: &[(&[u8], &[u8], Counts)] = &[
    (
        b"12*34",
        b"a.log:1:12534\na.log:2:12 34\na.log:3:a12*34\n",
        (3, 3, 1, 1),
    ),
    (b"12\\*34", b"a.log:3:a12*34\n", (1, 1, 1, 1)),
    (
        b"",
        b"a.log:1:12534\na.log:2:12 34\na.log:3:a12*34\n",
        (3, 3, 1, 1),
    ),
    (b"y", b"", (0, 0, 1, 1)),
];

#[test]
fn patterns_over_numbers(rt: HostRuntime) -> Result<(), Fail> {
    for &(text, printed, counts) in OF_NUMBERS {
        let well = finds(&rt, 1, rt.alloc(), &NUMBERS, text, ALL, printed, counts)?;
        assert!(rt; well, "{text:?}");
    }
    Ok(())
}

const ONE: &[u8] = b"t.log:1:2023-11-14 22:13:20,000 INFO start\n";

const TWO: &[u8] = b"t.log:2:2023-11-14 22:13:21,500 INFO stop\n";

/// A pattern over stamps, the bounds of a range, what is printed, and what is counted.
const OF_STAMPS: &[(&[u8], Option<i64>, Option<i64>, &[u8], Counts)] = &[
    (
        b"INFO",
        Some(1_700_000_001_500),
        Some(1_700_000_001_500),
        TWO,
        (1, 1, 1, 1),
    ),
    (
        b"",
        Some(1_700_000_000_000),
        Some(1_700_000_000_000),
        ONE,
        (1, 1, 1, 1),
    ),
    (b"INFO", Some(1_700_000_002_000), None, b"", (0, 0, 0, 1)),
    (b"INFO", Some(-5), Some(5), b"", (0, 0, 0, 1)),
    (b"e", None, None, b"t.log:3:  no stamp here\n", (1, 1, 1, 1)),
    (b"20,000 INFO", None, None, ONE, (1, 1, 1, 1)),
    (b"20?000 INFO", None, None, ONE, (1, 1, 1, 1)),
];

#[test]
fn stamps_and_ranges(rt: HostRuntime) -> Result<(), Fail> {
    for &(text, from, to, printed, counts) in OF_STAMPS {
        let range = Range { from, to };
        let well = finds(&rt, 1, rt.alloc(), &STAMPS, text, range, printed, counts)?;
        assert!(rt; well, "{text:?}");
    }
    Ok(())
}

/// Patterns of more open tokens than are planned, what is printed, and what is counted.
const OF_LETTERS: &[(&[u8], &[u8], Counts)] = &[
    (b"a*b*c*d*e", b"f.log:1:a b c d e\n", (1, 2, 1, 1)),
    (
        b"a*b*c*d",
        b"f.log:1:a b c d e\nf.log:2:a b c d x\n",
        (2, 2, 1, 1),
    ),
];

#[test]
fn more_open_tokens_than_planned(rt: HostRuntime) -> Result<(), Fail> {
    for &(text, printed, counts) in OF_LETTERS {
        let well = finds(&rt, 1, rt.alloc(), &LETTERS, text, ALL, printed, counts)?;
        assert!(rt; well, "{text:?}");
    }
    Ok(())
}

/// A pattern over rows, what is printed, what is counted, and how many calls of the disk there are. One
/// reads the record of log types. Three segments have rows, and the head of each is read by one call. Where
/// the pattern has a token, each of the three records of words is read by one. The column of log types of a
/// segment is read by one, its page then by five, and the record of the word that its row has by one more.
const OF_ROWS: &[(&[u8], &[u8], Counts, u64)] = &[
    (b" task_2 ", b"a.log:2:run task_2 x\n", (1, 1, 1, 4), 14),
    (b" task_9 ", b"", (0, 0, 0, 4), 7),
    (b"run;x", b"", (0, 0, 3, 4), 7),
];

/// Whether a search of the rows prints that, counts that, and calls the disk so often.
fn reads_so_much<R: Threads + Sync>(
    rt: &R,
    alloc: Global,
    text: &[u8],
    printed: &[u8],
    counts: Counts,
    calls: u64,
) -> Result<bool, AllocError> {
    let outcome = searched(rt, 1, alloc, &ROWS, text, ALL, 1_000)?;
    let told = counts_are(&outcome.answer, counts) && outcome.calls == calls;
    Ok(told && outcome.printed.bytes() == printed)
}

#[test]
fn columns_that_cannot_match_stay_unread(rt: HostRuntime) -> Result<(), Fail> {
    for &(text, printed, counts, calls) in OF_ROWS {
        let well = reads_so_much(&rt, rt.alloc(), text, printed, counts, calls)?;
        assert!(rt; well, "{text:?}");
    }
    Ok(())
}

#[test]
fn laws_hold() {
    exact_expands_printed();
    one_is_found();
}

/// Whether with so many workers a search into so little room prints a front of this, and tells why.
fn stops<R: Threads + Sync>(
    rt: &R,
    workers: u32,
    alloc: Global,
    room: usize,
    front: &[u8],
) -> Result<bool, AllocError> {
    let outcome = searched(rt, workers, alloc, &NUMBERS, b"12*34", ALL, room)?;
    let is_front = front.starts_with(outcome.printed.bytes());
    Ok(is_front && outcome.answer == Err(SearchRefusal::SinkFault))
}

#[test]
fn an_output_that_fails_has_a_front(rt: HostRuntime) -> Result<(), Fail> {
    let well = stops(&rt, 1, rt.alloc(), 20, b"a.log:1:12534\na.log:2:12 34\n")?;
    assert!(rt; well);
    Ok(())
}

const ALL_ROWS: &[u8] = b"a.log:1:run task_1 x\na.log:2:run task_2 x\na.log:3:run task_3 x\n";

#[test]
fn any_number_of_workers_prints_the_same(rt: HostRuntime) -> Result<(), Fail> {
    for &workers in &[0u32, 1, 2, 5] {
        let well = finds(
            &rt,
            workers,
            rt.alloc(),
            &ROWS,
            b"run task_",
            ALL,
            ALL_ROWS,
            (3, 3, 3, 4),
        )?;
        assert!(rt; well, "{workers}");
    }
    Ok(())
}

/// Whether a search by so many workers is right whose parts of the disk fail at their call of this
/// number: it tells the fault and prints a front, or no part makes so many calls and it prints all.
fn is_right_with_fault<R: Threads + Sync>(
    rt: &R,
    workers: u32,
    alloc: Global,
    call: u64,
) -> Result<bool, AllocError> {
    let outcome = searched_failing(rt, workers, alloc, &ROWS, b"run task_", ALL, 1_000, call)?;
    let printed = outcome.printed.bytes();
    if outcome.answer == Err(SearchRefusal::DiskFault) {
        return Ok(outcome.faults > 0 && ALL_ROWS.starts_with(printed));
    }
    Ok(outcome.answer.is_ok() && outcome.faults == 0 && printed == ALL_ROWS && call > 0)
}

/// At how many of its first calls each part may fail, for a search by so many workers to be right.
fn right_with_faults<R: Threads + Sync>(
    rt: &R,
    workers: u32,
    alloc: Global,
) -> Result<u64, AllocError> {
    let mut right: u64 = 0;
    for call in 0..20 {
        if is_right_with_fault(rt, workers, alloc, call)? {
            right = right.saturating_add(1);
        }
    }
    Ok(right)
}

#[test]
fn a_part_of_the_disk_that_fails_is_told(rt: HostRuntime) -> Result<(), Fail> {
    for &workers in &[2u32, 3, 5] {
        let right = right_with_faults(&rt, workers, rt.alloc())?;
        assert!(rt; right == 20, "{workers} {right}");
    }
    Ok(())
}

/// Whether with so many workers a search of damaged rows prints that, and tells the damage.
fn is_damaged<R: Threads + Sync>(
    rt: &R,
    workers: u32,
    alloc: Global,
    bytes: &[u8],
    printed: &[u8],
) -> Result<bool, AllocError> {
    let outcome = searched(rt, workers, alloc, bytes, b"run task_", ALL, 1_000)?;
    let told = outcome.answer == Err(SearchRefusal::Damaged);
    Ok(told && outcome.printed.bytes() == printed)
}

/// How many workers there are, a place whose byte is 9, and what is printed then. In the third segment,
/// where the count of the variables is wrong, its page cannot be read; where there is no such log type,
/// the row cannot be written. The lines of the pages before are sent in both cases. Where the text of the
/// log type has another length, its record spells no texts, and nothing is searched.
const DAMAGES: &[(u32, usize, &[u8])] = &[
    (1, 73, b""),
    (2, 73, b""),
    (1, 421, b"a.log:1:run task_1 x\na.log:2:run task_2 x\n"),
    (2, 421, b"a.log:1:run task_1 x\na.log:2:run task_2 x\n"),
    (5, 421, b"a.log:1:run task_1 x\na.log:2:run task_2 x\n"),
    (1, 417, b"a.log:1:run task_1 x\na.log:2:run task_2 x\n"),
    (2, 417, b"a.log:1:run task_1 x\na.log:2:run task_2 x\n"),
    (5, 417, b"a.log:1:run task_1 x\na.log:2:run task_2 x\n"),
];

#[test]
fn damage_is_told_by_any_number_of_workers(rt: HostRuntime) -> Result<(), Fail> {
    for &(workers, at, printed) in DAMAGES {
        let bytes = changed(rt.alloc(), &ROWS, at, 9)?;
        let well = is_damaged(&rt, workers, rt.alloc(), bytes.as_slice(), printed)?;
        assert!(rt; well, "{workers} {at}");
    }
    Ok(())
}

/// An archive with zeros behind it up to this length, and with these bytes at places. Its segment then has
/// so many rows more, each like the first.
fn grown(
    alloc: Global,
    archive: &[u8],
    length: usize,
    changes: &[(usize, u8)],
) -> Result<Vec<u8>, AllocError> {
    let mut bytes = archive.to_vec(alloc)?;
    bytes.resize(length, 0)?;
    for &(at, byte) in changes {
        if let Some(place) = bytes.get_mut(at) {
            *place = byte;
        }
    }
    Ok(bytes)
}

/// A pattern, what is printed of `NUMBERS` where the head's words do not rise, and whether that is
/// told: their list is read only where some word brings a token of the pattern.
const OF_WORDS: &[(&[u8], &[u8], bool)] = &[
    (b"53", b"a.log:1:12534\n", false),
    (b"12*34", b"", true),
];

#[test]
fn words_that_tell_nothing_stay_unread(rt: HostRuntime) -> Result<(), Fail> {
    for &(text, printed, told) in OF_WORDS {
        // The last number of the list of log types is made the first one of the list of words.
        let bytes = grown(rt.alloc(), &NUMBERS, NUMBERS.len(), &[(160, 2), (164, 2)])?;
        let outcome = searched(&rt, 1, rt.alloc(), bytes.as_slice(), text, ALL, 1_000)?;
        let damaged = outcome.answer == Err(SearchRefusal::Damaged);
        assert!(rt;
            damaged == told && outcome.printed.bytes() == printed,
            "{text:?}"
        );
    }
    Ok(())
}

/// Whether with so many workers a search of 40,000 rows, which are ten pages, prints and answers what it
/// does with one, where a byte is this one.
fn is_as_with_one<R: Threads + Sync>(
    rt: &R,
    workers: u32,
    alloc: Global,
    at: usize,
    byte: u8,
) -> Result<bool, AllocError> {
    let changes = [
        (80, 0x71),
        (81, 0x60),
        (82, 0x0A),
        (100, 0x40),
        (101, 0x9C),
        (at, byte),
    ];
    let bytes = grown(alloc, &WORKED, 680_138, &changes)?;
    let one = searched(rt, 1, alloc, bytes.as_slice(), b"a", ALL, 1_000_000)?;
    let many = searched(rt, workers, alloc, bytes.as_slice(), b"a", ALL, 1_000_000)?;
    Ok(
        !one.printed.bytes().is_empty()
            && many.printed.bytes() == one.printed.bytes()
            && many.answer == one.answer,
    )
}

/// How many workers there are, and a place of the archive with its byte: the one that it has; a count
/// of variables in the last page, which then cannot be read; and a log type there that is none.
const OF_PAGES: &[(u32, usize, u8)] = &[(2, 0, 67), (3, 0, 67), (2, 668_137, 9), (2, 508_137, 9)];

#[test]
fn many_pages_print_what_one_worker_prints(rt: HostRuntime) -> Result<(), Fail> {
    for &(workers, at, byte) in OF_PAGES {
        let well = is_as_with_one(&rt, workers, rt.alloc(), at, byte)?;
        assert!(rt; well, "{workers} {at}");
    }
    Ok(())
}

/// The archive of four segments with a name of so many bytes for its file.
fn named(alloc: Global, len: u32) -> Result<Vec<u8>, AllocError> {
    let mut bytes = ROWS[..34].to_vec(alloc)?;
    bytes.extend_from_slice(&u64::from(len).saturating_add(8).to_le_bytes())?;
    bytes.extend_from_slice(&[1, 0, 0, 0])?;
    bytes.extend_from_slice(&len.to_le_bytes())?;
    bytes.extend_from_slice(vec![in alloc; b'n'; len as usize]?.as_slice())?;
    bytes.extend_from_slice(&ROWS[55..])?;
    Ok(bytes)
}

/// Whether a search by five workers of a file with such a name prints and answers what one worker does, and
/// whether it made as many calls of the disk, which is then not searched by parts.
fn is_one_for_name<R: Threads + Sync>(
    rt: &R,
    alloc: Global,
    len: u32,
) -> Result<(bool, bool), AllocError> {
    let bytes = named(alloc, len)?;
    let one = searched(rt, 1, alloc, bytes.as_slice(), b"run task_", ALL, 20_000)?;
    let many = searched(rt, 5, alloc, bytes.as_slice(), b"run task_", ALL, 20_000)?;
    let same = many.printed.bytes() == one.printed.bytes() && many.answer == one.answer;
    Ok((same && one.answer.is_ok(), many.calls == one.calls))
}

/// Lengths of a name, and whether one worker searches its file alone.
const NAMES: &[(u32, bool)] = &[(5, false), (512, false), (513, true), (4_096, true)];

#[test]
fn long_names_leave_one_worker(rt: HostRuntime) -> Result<(), Fail> {
    for &(len, alone) in NAMES {
        let (same, one) = is_one_for_name(&rt, rt.alloc(), len)?;
        assert!(rt; same && one == alone, "{len}");
    }
    Ok(())
}

/// Whether with so many workers a search of 100,000 rows, which are 25 pages, has made so many calls of
/// the disk when its output fails at the first piece.
fn calls_until_printed<R: Threads + Sync>(
    rt: &R,
    workers: u32,
    alloc: Global,
    calls: u64,
) -> Result<bool, AllocError> {
    let changes = [
        (80, 0xD1),
        (81, 0xF0),
        (82, 0x19),
        (100, 0xA0),
        (101, 0x86),
        (102, 0x01),
    ];
    let bytes = grown(alloc, &WORKED, 1_700_138, &changes)?;
    let outcome = searched(rt, workers, alloc, bytes.as_slice(), b"a", ALL, 1_000)?;
    Ok(outcome.answer == Err(SearchRefusal::SinkFault) && outcome.calls == calls)
}

#[test]
fn a_page_is_printed_before_the_next_is_read(rt: HostRuntime) -> Result<(), Fail> {
    // One call reads the record of log types, one the head, and five the page. No archive has so many rows
    // in a segment, so their log types are not read.
    assert!(rt; calls_until_printed(&rt, 1, rt.alloc(), 7)?);
    Ok(())
}

/// `LETTERS` with 5,000 rows, which are two pages: all are its first message but the one at a row, which is
/// its second. A byte is this one.
fn two_pages(alloc: Global, row: usize, at: usize, byte: u8) -> Result<Vec<u8>, AllocError> {
    let changes = [
        (26, 0x10),
        (101, 0x3D),
        (102, 0x4C),
        (103, 0x01),
        (121, 0x88),
        (122, 0x13),
        (184, 0),
        (row.saturating_mul(4).saturating_add(45_162), 1),
        (at, byte),
    ];
    grown(alloc, &LETTERS, 85_163, &changes)
}

/// How many workers there are, the row of the second message, a pattern, how many messages are found, and how
/// many calls of the disk there are. One reads the record of log types, one the head, and one the log types of
/// the segment. A page whose log types have no `x` is passed by one more, and by none where the last 4,096 rows
/// have none. A page that is taken is read by five.
const OF_TYPES: &[(u32, usize, &[u8], u64, u64)] = &[
    (1, 4_999, b"x", 1, 9),
    (2, 4_999, b"x", 1, 9),
    (1, 0, b"x", 1, 8),
    (1, 903, b"x", 1, 8),
    (1, 4_095, b"x", 1, 9),
    (1, 4_096, b"x", 1, 9),
    (1, 4_999, b"a", 5_000, 13),
    (1, 4_999, b"y", 0, 2),
];

/// Whether with so many workers a search of the bytes finds so many messages in one segment, and calls the
/// disk so often.
fn finds_by_calls<R: Threads + Sync>(
    rt: &R,
    workers: u32,
    alloc: Global,
    bytes: &[u8],
    text: &[u8],
    found: u64,
    calls: u64,
) -> Result<bool, AllocError> {
    let outcome = searched(rt, workers, alloc, bytes, text, ALL, 1_000_000)?;
    Ok(counts_are(&outcome.answer, (found, found, 1, 1)) && outcome.calls == calls)
}

#[test]
fn a_page_that_its_log_types_rule_out_is_passed(rt: HostRuntime) -> Result<(), Fail> {
    for &(workers, row, text, found, calls) in OF_TYPES {
        let bytes = two_pages(rt.alloc(), row, 0, 67)?;
        let bytes = bytes.as_slice();
        let well = finds_by_calls(&rt, workers, rt.alloc(), bytes, text, found, calls)?;
        assert!(rt; well, "{workers} {row} {text:?}");
    }
    Ok(())
}

#[test]
fn of_a_segment_that_its_log_types_rule_out_nothing_else_is_read(
    rt: HostRuntime,
) -> Result<(), Fail> {
    // The head lists the log type with `x`, and no row has it. One call reads the record of log types, one
    // the head, and one the log types of the segment.
    let bytes = two_pages(rt.alloc(), 4_999, 65_158, 0)?;
    let well = finds_by_calls(&rt, 1, rt.alloc(), bytes.as_slice(), b"x", 0, 3)?;
    assert!(rt; well);
    Ok(())
}

/// A place of the first page whose byte is 200, a pattern, and whether the damage is told. A count that says
/// too many variables is met where the page is passed, which then is taken. A stamp that no pattern has is
/// met only where its row is written.
const OF_PASSED: &[(usize, &[u8], bool)] = &[
    (65_162, b"x", true),
    (65_162, b"a", true),
    (162, b"x", false),
    (162, b"a", true),
];

#[test]
fn damage_in_a_page_that_is_passed(rt: HostRuntime) -> Result<(), Fail> {
    for &(at, text, told) in OF_PASSED {
        let bytes = two_pages(rt.alloc(), 4_999, at, 200)?;
        let outcome = searched(&rt, 1, rt.alloc(), bytes.as_slice(), text, ALL, 1_000_000)?;
        let damaged = outcome.answer == Err(SearchRefusal::Damaged);
        assert!(rt; damaged == told, "{at} {text:?}");
    }
    Ok(())
}
