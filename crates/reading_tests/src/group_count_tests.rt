//! Counts of the messages of small archives.
ghost use Rattle.step_count.specs.Opens.{OpensFor};

use archive_places::open_places;
use column_store::Range;
use group_count::printed::{put_minutes, put_types};
use group_count::{GroupBy, GroupQuery, GroupReport, Grouped, SearchRefusal, Workers, group};
use log_seams::MemDisk;
use plain_list::Text;
use query_plan::wide_is_wider;
use std::alloc::{AllocError, Global};
use std::marker::Brand;
use std::sync::ledger::{Blank, Ledger};
use std::test::Fail;
use std::thread::Threads;
use step_count::Steps;
use test_archives::{LETTERS, NUMBERS, ROWS, STAMPS};
use wild_match::read_pattern;

/// What is counted: found, expanded, opened, all segments.
type Work = (u64, u64, u64, u64);

/// What is counted: how many workers there are, which calls of the disk fail, and at which of its calls
/// each part of the disk fails.
#[derive(Clone, Copy)]
struct Way<'a> {
    workers: u32,
    fails: &'a [u64],
    part_fails: u64,
}

/// So many workers over a disk that does not fail.
fn by_workers(workers: u32) -> Way<'static> {
    Way {
        workers,
        fails: &[],
        part_fails: u64::MAX,
    }
}

/// Counts the messages of an archive over a disk of which these calls fail.
fn group_with<R: Threads + Sync, L: Ledger, M: Ledger>(
    rt: &R,
    way: Way<'_>,
    alloc: Global,
    bytes: &[u8],
    text: &[u8],
    range: Range,
    by: GroupBy,
    one: Blank,
    two: Blank,
) -> Result<Result<Grouped, SearchRefusal>, AllocError>
    requires one { OpensFor one L.name L.parts }
    requires two { OpensFor two M.name M.parts }
{
    wide_is_wider();
    let Ok(pattern) = read_pattern(alloc, text) else {
        return Err(AllocError);
    };
    let bytes = Text::new(bytes.to_vec(alloc)?);
    let mut disk = MemDisk::new(alloc, bytes, 0, 64, way.fails.to_vec(alloc)?)?;
    disk.fail_parts(vec![in alloc; way.part_fails; 1]?);
    let Ok(places) = open_places(alloc, &mut disk) else {
        return Err(AllocError);
    };
    let mut opened: Steps<L> = Steps::new(one);
    let mut expanded: Steps<M> = Steps::new(two);
    let workers = Workers {
        rt,
        count: way.workers,
    };
    let wanted = GroupQuery {
        pattern: &pattern,
        range: &range,
        by,
    };
    Ok(group(
        workers,
        alloc,
        places,
        &mut disk,
        wanted,
        &mut opened,
        &mut expanded,
    ))
}

/// Counts the messages of an archive over a disk of which these calls fail, and lets the counters go.
fn group_of<R: Threads + Sync>(
    rt: &R,
    way: Way<'_>,
    alloc: Global,
    bytes: &[u8],
    text: &[u8],
    range: Range,
    by: GroupBy,
) -> Result<Result<Grouped, SearchRefusal>, AllocError> {
    group_with::<R, Brand, Brand>(
        rt,
        way,
        alloc,
        bytes,
        text,
        range,
        by,
        Blank::new(1),
        Blank::new(1),
    )
}

/// Whether a report has these counts.
fn works(report: &GroupReport, work: Work) -> bool {
    report.matched == work.0
        && report.expanded == work.1
        && report.opened == work.2
        && report.segments == work.3
}

/// Whether this is printed, with these counts.
fn tells(
    alloc: Global,
    by: GroupBy,
    grouped: &Grouped,
    printed: &[u8],
    work: Work,
) -> Result<bool, AllocError> {
    let mut out = Vec::new(alloc);
    match by {
        GroupBy::Shape => put_types(&mut out, &grouped.groups)?,
        GroupBy::Minute => put_minutes(&mut out, &grouped.groups, grouped.without)?,
    }
    Ok(out.as_slice() == printed && works(&grouped.report, work))
}

/// Whether a count prints that, with these counts.
fn groups<R: Threads + Sync>(
    rt: &R,
    workers: u32,
    alloc: Global,
    bytes: &[u8],
    text: &[u8],
    range: Range,
    by: GroupBy,
    printed: &[u8],
    work: Work,
) -> Result<bool, AllocError> {
    match group_of(rt, by_workers(workers), alloc, bytes, text, range, by)? {
        Ok(grouped) => tells(alloc, by, &grouped, printed, work),
        Err(_) => Ok(false),
    }
}

/// Whether a count by type is refused so, where a byte is another one or a call of the disk fails.
fn is_refused<R: Threads + Sync>(
    rt: &R,
    way: Way<'_>,
    alloc: Global,
    at: usize,
    byte: u8,
    text: &[u8],
    refusal: SearchRefusal,
) -> Result<bool, AllocError> {
    let mut bytes = ROWS.to_vec(alloc)?;
    if let Some(place) = bytes.get_mut(at) {
        *place = byte;
    }
    match group_of(rt, way, alloc, bytes.as_slice(), text, ALL, GroupBy::Shape)? {
        Ok(_) => Ok(false),
        Err(told) => Ok(told == refusal),
    }
}

const ALL: Range = Range {
    from: None,
    to: None,
};

/// The archive of a row.
#[derive(Clone, Copy, Debug)]
enum Of {
    Numbers,
    Stamps,
    Rows,
    Letters,
}

/// Its bytes.
fn bytes_of(of: Of) -> &'static [u8] {
    match of {
        Of::Numbers => &NUMBERS,
        Of::Stamps => &STAMPS,
        Of::Rows => &ROWS,
        Of::Letters => &LETTERS,
    }
}

const BY_TYPE: &[(Of, &[u8], &[u8], Work)] = &[
    (
        Of::Numbers,
        b"12*34",
        b"1 {i}\n1 {i} {i}\n1 {w}*{i}\n",
        (3, 0, 1, 1),
    ),
    (Of::Numbers, b"12\\*34", b"1 {w}*{i}\n", (1, 0, 1, 1)),
    (
        Of::Numbers,
        b"",
        b"1 {i}\n1 {i} {i}\n1 {w}*{i}\n",
        (3, 0, 1, 1),
    ),
    (Of::Numbers, b"y", b"", (0, 0, 1, 1)),
    (Of::Letters, b"a*b*c*d*e", b"1 a b c d e\n", (1, 2, 1, 1)),
    (
        Of::Letters,
        b"a*b*c*d",
        b"1 a b c d e\n1 a b c d x\n",
        (2, 0, 1, 1),
    ),
    (
        Of::Letters,
        b"a**b",
        b"1 a b c d e\n1 a b c d x\n",
        (2, 0, 1, 1),
    ),
    (
        Of::Letters,
        b"a?b",
        b"1 a b c d e\n1 a b c d x\n",
        (2, 2, 1, 1),
    ),
    (Of::Letters, b"d?e", b"1 a b c d e\n", (1, 1, 1, 1)),
    (Of::Rows, b"", b"3 run {w} x\n", (3, 0, 3, 4)),
    (Of::Rows, b" task_2 ", b"1 run {w} x\n", (1, 0, 1, 4)),
    (Of::Rows, b"ask_2", b"1 run {w} x\n", (1, 0, 3, 4)),
    (Of::Rows, b"n*ask_2 ", b"1 run {w} x\n", (1, 0, 3, 4)),
    (Of::Rows, b"task?2", b"1 run {w} x\n", (1, 1, 3, 4)),
    (Of::Rows, b"run;x", b"", (0, 0, 3, 4)),
    (Of::Stamps, b"20?000 INFO", b"1  INFO start\n", (1, 1, 1, 1)),
    (Of::Stamps, b"20,000 INFO", b"1  INFO start\n", (1, 0, 1, 1)),
];

#[test]
fn by_type(rt: HostRuntime) -> Result<(), Fail> {
    for &(of, text, printed, work) in BY_TYPE {
        let bytes = bytes_of(of);
        let by = GroupBy::Shape;
        let well = groups(&rt, 1, rt.alloc(), bytes, text, ALL, by, printed, work)?;
        assert!(rt; well, "{text:?}");
    }
    Ok(())
}

/// By how many of these numbers of workers the rows are counted so, by type and by minute.
fn counted_alike<R: Threads + Sync>(
    rt: &R,
    alloc: Global,
    text: &[u8],
    types: &[u8],
    minutes: &[u8],
    work: Work,
) -> Result<usize, AllocError> {
    for (place, &workers) in [0u32, 1, 2, 3, 5].iter().enumerate() {
        let shape = GroupBy::Shape;
        let minute = GroupBy::Minute;
        if !groups(rt, workers, alloc, &ROWS, text, ALL, shape, types, work)?
            || !groups(rt, workers, alloc, &ROWS, text, ALL, minute, minutes, work)?
        {
            return Ok(place);
        }
    }
    Ok(5)
}

/// A pattern, and what is counted of the rows, which stand in four segments.
const BY_WORKERS: &[(&[u8], &[u8], &[u8], Work)] = &[
    (b"", b"3 run {w} x\n", b"none 3\n", (3, 0, 3, 4)),
    (b"run task_", b"3 run {w} x\n", b"none 3\n", (3, 0, 3, 4)),
    (b"ask_2", b"1 run {w} x\n", b"none 1\n", (1, 0, 3, 4)),
    (b"task?2", b"1 run {w} x\n", b"none 1\n", (1, 1, 3, 4)),
    (b"run?task_", b"3 run {w} x\n", b"none 3\n", (3, 3, 3, 4)),
    (b"run;x", b"", b"", (0, 0, 3, 4)),
];

#[test]
fn any_number_of_workers_counts_the_same(rt: HostRuntime) -> Result<(), Fail> {
    for &(text, types, minutes, work) in BY_WORKERS {
        let alike = counted_alike(&rt, rt.alloc(), text, types, minutes, work)?;
        assert!(rt; alike == 5, "{text:?} {alike}");
    }
    Ok(())
}

/// Whether a count by so many workers is right whose parts of the disk fail at their call of this
/// number: it is refused for that, or no part has such a call.
fn is_right_with_fault<R: Threads + Sync>(
    rt: &R,
    workers: u32,
    alloc: Global,
    part_fails: u64,
) -> Result<bool, AllocError> {
    let way = Way {
        workers,
        fails: &[],
        part_fails,
    };
    let range = ALL;
    let text = b"run?task_";
    match group_of(rt, way, alloc, &ROWS, text, range, GroupBy::Shape)? {
        Ok(grouped) => {
            let printed = b"3 run {w} x\n";
            tells(alloc, GroupBy::Shape, &grouped, printed, (3, 3, 3, 4))
        }
        Err(refusal) => Ok(refusal == SearchRefusal::DiskFault),
    }
}

/// At how many of its first calls each part may fail, for a count by so many workers to be right.
fn right_with_faults<R: Threads + Sync>(
    rt: &R,
    workers: u32,
    alloc: Global,
) -> Result<u64, AllocError> {
    for call in 0..20 {
        if !is_right_with_fault(rt, workers, alloc, call)? {
            return Ok(call);
        }
    }
    Ok(20)
}

#[test]
fn faults_of_parts_are_told(rt: HostRuntime) -> Result<(), Fail> {
    for &workers in &[2u32, 3, 5] {
        let right = right_with_faults(&rt, workers, rt.alloc())?;
        assert!(rt; right == 20, "{workers} {right}");
    }
    Ok(())
}

/// By how many of these numbers of workers the damage of a byte is told.
fn told_by<R: Threads + Sync>(
    rt: &R,
    alloc: Global,
    at: usize,
    text: &[u8],
) -> Result<usize, AllocError> {
    for (place, &workers) in [1u32, 2, 3, 5].iter().enumerate() {
        let refusal = SearchRefusal::Damaged;
        let way = by_workers(workers);
        if !is_refused(rt, way, alloc, at, 9, text, refusal)? {
            return Ok(place);
        }
    }
    Ok(4)
}

/// Places of the rows with the log type of the one row of a segment.
const DAMAGED: &[usize] = &[417];

#[test]
fn damage_is_told_by_any_number_of_workers(rt: HostRuntime) -> Result<(), Fail> {
    for &at in DAMAGED {
        let all = told_by(&rt, rt.alloc(), at, b"")?;
        let some = told_by(&rt, rt.alloc(), at, b"run")?;
        assert!(rt; all == 4 && some == 4, "{at} {all} {some}");
    }
    Ok(())
}

const BY_MINUTE: &[(&[u8], Option<i64>, Option<i64>, &[u8], Work)] = &[
    (b"", None, None, b"1699999980000 2\nnone 1\n", (3, 0, 1, 1)),
    (b"", Some(0), None, b"1699999980000 2\n", (2, 0, 1, 1)),
    (b"?INFO", None, None, b"1699999980000 2\n", (2, 2, 1, 1)),
    (
        b"INFO",
        Some(1_700_000_001_500),
        Some(1_700_000_001_500),
        b"1699999980000 1\n",
        (1, 0, 1, 1),
    ),
    (b"INFO", Some(1_700_000_002_000), None, b"", (0, 0, 0, 1)),
    (b"e", None, None, b"none 1\n", (1, 0, 1, 1)),
];

#[test]
fn by_minute(rt: HostRuntime) -> Result<(), Fail> {
    for &(text, from, to, printed, work) in BY_MINUTE {
        let range = Range { from, to };
        let well = groups(
            &rt,
            1,
            rt.alloc(),
            &STAMPS,
            text,
            range,
            GroupBy::Minute,
            printed,
            work,
        )?;
        assert!(rt; well, "{text:?} {from:?}");
    }
    Ok(())
}

/// A place of the rows with its byte, a call of the disk that fails, what is counted, and how that is
/// refused. Byte 73 has the length of the log type's text. Byte 417 has the log type of the third row, and
/// byte 421 how many variables it has, which a count of all messages does not read.
const REFUSED: &[(usize, u8, u64, &[u8], SearchRefusal)] = &[
    (73, 9, 99, b"", SearchRefusal::Damaged),
    (73, 9, 99, b"run", SearchRefusal::Damaged),
    (417, 9, 99, b"", SearchRefusal::Damaged),
    (417, 9, 99, b"run", SearchRefusal::Damaged),
    (421, 9, 99, b"run", SearchRefusal::Damaged),
    (0, 67, 32, b"", SearchRefusal::DiskFault),
    (0, 67, 32, b"run", SearchRefusal::DiskFault),
];

#[test]
fn damage_and_faults_are_told(rt: HostRuntime) -> Result<(), Fail> {
    for &(at, byte, call, text, refusal) in REFUSED {
        let way = Way {
            workers: 1,
            fails: &[call],
            part_fails: u64::MAX,
        };
        let well = is_refused(&rt, way, rt.alloc(), at, byte, text, refusal)?;
        assert!(rt; well, "{at} {call} {text:?}");
    }
    Ok(())
}
