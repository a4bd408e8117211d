//! Which rows of a segment are passed over for a pattern, and which lines are printed of it.

use crate::books::Books;
use crate::texts::{small_of, text_of};
use column_store::{Arrays, Columns, RowRef};
use log_seams::MemSink;
use pair_sieve::PairSieve;
use printed_lines::print_segment;
use row_codec::{MAX_MESSAGE_LEN, encode_message};
use std::alloc::{AllocError, Global};
use wild_match::{Pattern, read_pattern};

/// The messages of a segment. Their words are `job`, `ab`, `x7y` and `e-1.5e`.
static MESSAGES: &str = r"k=job done;
job k=ab;
a\b
2023-11-14 22:13:20 Tub
took 12 s
id x7y
(5)
e-1.5e";

/// Adds a row to those of a segment.
fn add_row(arrays: &mut Arrays, row: RowRef<'_>) -> Result<(), AllocError> {
    let Ok(count) = u32::try_from(row.words.len()) else {
        return Err(AllocError);
    };
    arrays.patterns.push(row.pattern)?;
    arrays.moments.push(row.moment)?;
    arrays.types.push(row.log_type)?;
    arrays.counts.push(count)?;
    arrays.words.extend_from_slice(row.words)?;
    Ok(())
}

/// Adds the row of a message, and has the sieve look at its texts. None where it has no row.
fn add_message(
    alloc: Global,
    books: &mut Books,
    sieve: &mut PairSieve,
    arrays: &mut Arrays,
    line: &[u8],
) -> Result<(), AllocError> {
    if line.len() > MAX_MESSAGE_LEN {
        return Err(AllocError);
    }
    match encode_message(alloc, line, books) {
        Ok(encoded) => add_row(arrays, encoded.row.lend())?,
        Err(_) => return Err(AllocError),
    }
    sieve.look(&*books)
}

/// The rows of the messages. The sieve looks at the texts of each before the next one comes.
fn add_messages(
    alloc: Global,
    books: &mut Books,
    sieve: &mut PairSieve,
    arrays: &mut Arrays,
) -> Result<(), AllocError> {
    for line in MESSAGES.lines() {
        add_message(alloc, books, sieve, arrays, line.as_bytes())?;
    }
    Ok(())
}

/// Whether a row is passed over where there are no texts.
fn is_passed(
    alloc: Global,
    none: &Books,
    row: RowRef<'_>,
    pattern: &Pattern,
    sieve: &PairSieve,
) -> Result<bool, AllocError> {
    let mut arrays = Arrays::new(alloc);
    add_row(&mut arrays, row)?;
    let Some(rows) = Columns::from_arrays(arrays) else {
        return Ok(false);
    };
    let _count = rows.rows();
    let mut out = MemSink::new(alloc, 1000, Vec::new(alloc))?;
    match print_segment(alloc, none, b"f", 1, &rows, pattern, sieve, &mut out) {
        Ok(fits) => Ok(fits),
        Err(_) => Err(AllocError),
    }
}

/// How many rows are passed over, by what prints them: without a text a row that is not passed over
/// cannot be written.
fn passed(
    alloc: Global,
    none: &Books,
    rows: &Columns,
    pattern: &Pattern,
    sieve: &PairSieve,
) -> Result<u32, AllocError> {
    let mut count = 0;
    for place in 0..rows.rows() {
        if is_passed(alloc, none, rows.row(place), pattern, sieve)? {
            count += 1;
        }
    }
    Ok(count)
}

/// Whether these lines are printed.
fn are_printed(
    alloc: Global,
    books: &Books,
    rows: &Columns,
    pattern: &Pattern,
    sieve: &PairSieve,
    lines: &[u8],
) -> Result<bool, AllocError> {
    let _count = rows.rows();
    let mut out = MemSink::new(alloc, 1000, Vec::new(alloc))?;
    match print_segment(alloc, books, b"f", 1, rows, pattern, sieve, &mut out) {
        Ok(fits) => Ok(fits && out.bytes() == lines),
        Err(_) => Err(AllocError),
    }
}

/// Whether so many rows are passed over and these lines are printed, over books that are given, the
/// second ones without a text.
fn holds(
    alloc: Global,
    books: &mut Books,
    none: &Books,
    text: &[u8],
    over: u32,
    lines: &[u8],
) -> Result<bool, AllocError> {
    let Ok(pattern) = read_pattern(alloc, text) else {
        return Ok(false);
    };
    let mut sieve = PairSieve::new(alloc, &pattern);
    let mut arrays = Arrays::new(alloc);
    add_messages(alloc, books, &mut sieve, &mut arrays)?;
    let Some(rows) = Columns::from_arrays(arrays) else {
        return Ok(false);
    };
    Ok(
        passed(alloc, none, &rows, &pattern, &sieve)? == over
            && are_printed(alloc, &*books, &rows, &pattern, &sieve, lines)?,
    )
}

fn holds_beside_none(
    alloc: Global,
    books: &mut Books,
    text: &[u8],
    over: u32,
    lines: &[u8],
) -> Result<bool, AllocError> {
    let none = Books::new(alloc, 1, 100);
    holds(alloc, books, &none, text, over, lines)
}

fn holds_over_new(alloc: Global, text: &[u8], over: u32, lines: &[u8]) -> Result<bool, AllocError> {
    let mut books = Books::new(alloc, 1, 100);
    holds_beside_none(alloc, &mut books, text, over, lines)
}

/// Whether of the segment so many rows are passed over for a pattern, and these lines are printed.
pub(crate) fn is_printed(
    alloc: Global,
    pattern: &str,
    over: &str,
    lines: &str,
) -> Result<bool, AllocError> {
    let pattern = text_of(alloc, pattern)?;
    let lines = text_of(alloc, lines)?;
    let over = small_of(over);
    holds_over_new(alloc, pattern.as_slice(), over, lines.as_slice())
}
