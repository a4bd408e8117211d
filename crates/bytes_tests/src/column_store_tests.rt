ghost use Rattle.std.specs.Prelude.{◌≤◌, length};

use crate::telling::holds;
use column_store::{Arrays, Columns, Range, Row, RowList, RowRef, one_list_of_rows};
use plain_list::WordList;
use std::alloc::{AllocError, Global};
use std::test::Fail;

/// From, to, pattern and moment of a message, and whether it lies within.
const BOUNDED: &[(Option<i64>, Option<i64>, u8, i64, bool)] = &[
    (None, None, 0, 0, true),
    (None, None, 1, -5, true),
    (Some(-5), None, 0, 0, false),
    (None, Some(5), 0, 0, false),
    (Some(-5), None, 1, -5, true),
    (Some(-5), None, 1, -6, false),
    (None, Some(5), 26, 5, true),
    (None, Some(5), 26, 6, false),
    (Some(3), Some(4), 8, 4, true),
    (Some(4), Some(3), 8, 4, false),
];

#[test]
fn ranges_with_and_without_bounds(rt: HostRuntime) {
    for &(from, to, pattern, moment, within) in BOUNDED {
        let range = Range { from, to };
        assert!(rt;
            range.holds(pattern, moment) == within,
            "{range:?} at {pattern}, {moment}"
        );
    }
}

/// Adds a row of few words to few rows.
fn add(columns: &mut Columns, row: RowRef<'_>, bytes: u64) -> Result<(), AllocError>
    requires words { length row.words.now ≤ 2 }
    requires bytes { bytes ≤ 1048576 }
{
    if columns.rows() < 100 && columns.variables() < 100 {
        columns.push(row, bytes)?;
    }
    Ok(())
}

/// Stamp, log type and words of three rows: without words, with two, with one.
const THREE: &[(u8, i64, u32, &[u64])] = &[
    (0, 0, 7, &[]),
    (8, -1_500, 0, &[u64::MAX, 2]),
    (26, i64::MAX, u32::MAX, &[3]),
];

/// Adds the three rows.
fn add_three(columns: &mut Columns) -> Result<(), AllocError> {
    for &(pattern, moment, log_type, words) in THREE {
        let row = RowRef {
            pattern,
            moment,
            log_type,
            words,
        };
        if words.len() <= 2 {
            add(columns, row, 40)?;
        }
    }
    Ok(())
}

fn three_rows(alloc: Global) -> Result<Columns, AllocError> {
    let mut columns = Columns::new(alloc);
    add_three(&mut columns)?;
    Ok(columns)
}

/// Whether the row in the middle of the three has its fields.
fn is_middle(row: RowRef<'_>) -> bool {
    row.pattern == 8
        && row.moment == -1_500
        && row.log_type == 0
        && row.words == [u64::MAX, 2].as_slice()
}

/// Whether the arrays of columns are those of the three rows.
fn has_arrays(columns: &Columns) -> bool {
    columns.patterns() == [0, 8, 26].as_slice()
        && columns.moments() == [0, -1_500, i64::MAX].as_slice()
        && columns.types() == [7, 0, u32::MAX].as_slice()
        && columns.ends() == [0, 2, 3].as_slice()
        && columns.words() == [u64::MAX, 2, 3].as_slice()
}

/// Whether the columns are the three rows.
fn are_three(columns: &Columns) -> bool {
    columns.rows() == 3
        && columns.variables() == 3
        && has_arrays(columns)
        && is_middle(columns.row(1))
        && columns.row(2).words == [3].as_slice()
}

/// Whether the columns are the three rows, and none once they are cleared.
fn are_read(columns: &mut Columns) -> bool {
    let well = are_three(columns);
    columns.rows_fit();
    columns.clear();
    well && columns.rows() == 0
}

fn three_are_read(alloc: Global) -> Result<bool, AllocError> {
    let mut columns = three_rows(alloc)?;
    Ok(are_read(&mut columns))
}

#[test]
fn rows_are_pushed_and_read(rt: HostRuntime) -> Result<(), Fail> {
    holds(three_are_read(rt.alloc()))
}

fn three_are_full(alloc: Global) -> Result<bool, AllocError> {
    let columns = three_rows(alloc)?;
    Ok(!columns.full(4) && columns.full(3))
}

#[test]
fn columns_are_full_by_rows(rt: HostRuntime) -> Result<(), Fail> {
    holds(three_are_full(rt.alloc()))
}

/// Whether columns are full once they have 16 messages of 1,048,576 bytes, and not before.
fn are_full_by_bytes(columns: &mut Columns) -> Result<bool, AllocError> {
    let row = RowRef {
        pattern: 1,
        moment: 2,
        log_type: 3,
        words: &[4, 5],
    };
    for _ in 0..16 {
        if columns.full(17) {
            return Ok(false);
        }
        add(columns, row, 1_048_576)?;
    }
    Ok(columns.full(17))
}

fn new_are_full_by_bytes(alloc: Global) -> Result<bool, AllocError> {
    let mut columns = Columns::new(alloc);
    are_full_by_bytes(&mut columns)
}

#[test]
fn columns_are_full_by_bytes(rt: HostRuntime) -> Result<(), Fail> {
    holds(new_are_full_by_bytes(rt.alloc()))
}

/// A row with two words.
fn kept_row(alloc: Global) -> Result<Row, AllocError> {
    Ok(Row {
        pattern: 1,
        moment: 2,
        log_type: 3,
        words: WordList::new(vec![in alloc; 4, 5]?),
    })
}

fn is_kept(alloc: Global) -> Result<bool, AllocError> {
    let kept = kept_row(alloc)?;
    let lent = kept.lend().words == [4, 5].as_slice();
    Ok(lent && RowList::new(vec![in alloc; kept]?).len() == 1)
}

#[test]
fn rows_are_kept(rt: HostRuntime) -> Result<(), Fail> {
    holds(is_kept(rt.alloc()))
}

/// How many rows each array has, the counts, how many words, and whether rows have such arrays.
const ARRAYS: &[(usize, usize, usize, &[u32], usize, bool)] = &[
    (0, 0, 0, &[], 0, true),
    (2, 2, 2, &[1, 2], 3, true),
    (2, 2, 2, &[1, 2], 2, false),
    (2, 2, 2, &[1, 2], 4, false),
    (3, 2, 2, &[1, 2], 3, false),
    (2, 1, 2, &[1, 2], 3, false),
    (2, 2, 3, &[1, 2], 3, false),
    (2, 2, 2, &[u32::MAX, 1], 0, false),
];

/// Gives arrays these lengths, and these counts.
fn resize(
    arrays: &mut Arrays,
    lengths: (usize, usize, usize, usize),
    counts: &[u32],
) -> Result<(), AllocError> {
    let (patterns, moments, types, words) = lengths;
    arrays.patterns.resize(patterns, 1)?;
    arrays.moments.resize(moments, 5)?;
    arrays.types.resize(types, 9)?;
    arrays.words.resize(words, 6)?;
    arrays.counts.extend_from_slice(counts)
}

/// Whether rows have arrays of these lengths, with these counts.
fn make_rows(
    alloc: Global,
    lengths: (usize, usize, usize, usize),
    counts: &[u32],
) -> Result<bool, AllocError> {
    let mut arrays = Arrays::new(alloc);
    resize(&mut arrays, lengths, counts)?;
    Ok(Columns::from_arrays(arrays).is_some())
}

#[test]
fn arrays_that_make_rows(rt: HostRuntime) -> Result<(), Fail> {
    for &(patterns, moments, types, counts, words, is) in ARRAYS {
        let lengths = (patterns, moments, types, words);
        if make_rows(rt.alloc(), lengths, counts)? != is {
            return Err(Fail::from(lengths));
        }
    }
    Ok(())
}

/// Whether the arrays are of three rows, the last of which has one word.
fn are_of_three(arrays: Arrays) -> bool {
    match Columns::from_arrays(arrays) {
        Some(columns) => columns.rows() == 3 && columns.row(2).words == [3].as_slice(),
        None => false,
    }
}

fn three_come_back(alloc: Global) -> Result<bool, AllocError> {
    let arrays = three_rows(alloc)?.into_arrays();
    let counted = arrays.counts.as_slice() == [0, 2, 1].as_slice();
    Ok(are_of_three(arrays) && counted)
}

#[test]
fn arrays_of_rows_and_back(rt: HostRuntime) -> Result<(), Fail> {
    one_list_of_rows();
    holds(three_come_back(rt.alloc()))
}
