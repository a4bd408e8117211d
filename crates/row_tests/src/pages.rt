//! What is asked of the rows of a page.
use crate::filters::name_of;
use crate::texts::{number_of, row_of, small_of, stamp_of};
use column_store::RowRef;
use std::alloc::{AllocError, Global};
use subquery_filter::{Filter, Verdict};

/// The words of the rows of a page, which are written `ROW=TOLD`, in one list.
fn words_of_page(alloc: Global, page: &[&str]) -> Result<Vec<u64>, AllocError> {
    let mut words = Vec::new(alloc);
    for line in page {
        let (row, _) = line.split_once('=').unwrap_or((line, ""));
        let row = row_of(alloc, row)?;
        words.extend_from_slice(row.words.as_slice())?;
    }
    Ok(words)
}

/// What is told of a row: it is `passed`, rejected by the words of its page, or `asked` and
/// rejected, or `stays`. The first row that needs a word is asked: nothing is known of the page's
/// words before. A row that is passed has to be rejected by itself, or is `wrong`.
fn told_of(
    filter: &Filter,
    row: RowRef<'_>,
    words: &[u64],
    start: usize,
    hit: &mut usize,
) -> &'static str {
    let end = start.saturating_add(row.words.len());
    let known = filter.rejects_row(row.log_type, words, start, end, hit);
    match (known, filter.verdict(row) == Verdict::Rejected) {
        (true, true) => "passed",
        (true, false) => "wrong",
        (false, true) => "asked",
        (false, false) => "stays",
    }
}

/// How many words the next row of a page has; None where it is not told as is wanted.
fn next_row(
    alloc: Global,
    filter: &Filter,
    line: &str,
    words: &[u64],
    start: usize,
    hit: &mut usize,
) -> Result<Option<usize>, AllocError> {
    let (row, want) = line.split_once('=').unwrap_or((line, ""));
    let row = row_of(alloc, row)?;
    let told = told_of(filter, row.lend(), words, start, hit);
    Ok((told == want).then_some(row.words.as_slice().len()))
}

/// Whether all rows of a page are told so by the words of the page.
fn rows_are(
    alloc: Global,
    filter: &Filter,
    page: &[&str],
    words: &[u64],
) -> Result<bool, AllocError> {
    let mut start: usize = 0;
    let mut hit = 0;
    for line in page {
        match next_row(alloc, filter, line, words, start, &mut hit)? {
            Some(count) => start = start.saturating_add(count),
            None => return Ok(false),
        }
    }
    Ok(start == words.len())
}

/// Whether all rows of a page are told so by the words of the page.
pub(crate) fn page_is(alloc: Global, filter: &Filter, page: &[&str]) -> Result<bool, AllocError> {
    let words = words_of_page(alloc, page)?;
    rows_are(alloc, filter, page, words.as_slice())
}

/// The words of a page of rows with one word each: so many rows with the first one, one with the
/// second, and one with the third.
fn words_behind(
    alloc: Global,
    rows: usize,
    words: (u64, u64, u64),
) -> Result<Vec<u64>, AllocError> {
    let mut all = Vec::new(alloc);
    all.resize(rows, words.0)?;
    all.extend_from_slice(&[words.1, words.2])?;
    Ok(all)
}

/// Whether the page's only row with the word that counts, which stands at a place, stays, and all
/// others are passed but the first.
fn stays_at(filter: &Filter, log_type: u32, words: &[u64], rows: usize) -> bool {
    let mut hit = 0;
    for place in 0..words.len() {
        let end = place.saturating_add(1);
        let known = filter.rejects_row(log_type, words, place, end, &mut hit);
        if known != (place != 0 && place != rows) {
            return false;
        }
    }
    true
}

/// Whether it stays behind each number of rows below this one.
pub(crate) fn stays_anywhere(
    alloc: Global,
    filter: &Filter,
    below: &str,
    log_type: &str,
    words: (&str, &str, &str),
) -> Result<bool, AllocError> {
    let words = (number_of(words.0), number_of(words.1), number_of(words.2));
    for rows in 0..number_of(below) as usize {
        let page = words_behind(alloc, rows, words)?;
        if !stays_at(filter, small_of(log_type), page.as_slice(), rows) {
            return Ok(false);
        }
    }
    Ok(true)
}

/// The patterns and moments of the rows of a page, which are written `PATTERN:MOMENT=VERDICT`.
fn stamps_of(alloc: Global, page: &[&str]) -> Result<(Vec<u8>, Vec<i64>), AllocError> {
    let mut patterns = Vec::new(alloc);
    let mut moments = Vec::new(alloc);
    for line in page {
        let (stamp, _) = line.split_once('=').unwrap_or((line, ""));
        let (pattern, moment) = stamp_of(stamp);
        patterns.push(pattern)?;
        moments.push(moment)?;
    }
    Ok((patterns, moments))
}

/// Whether the verdicts on the rows of a page, which have one log type and the same words, are
/// these.
fn verdicts_are(
    filter: &Filter,
    patterns: &[u8],
    moments: &[i64],
    row: RowRef<'_>,
    page: &[&str],
) -> bool {
    let mut tests = filter.begin_page(patterns, moments);
    for line in page {
        let (stamp, want) = line.split_once('=').unwrap_or((line, ""));
        let (pattern, moment) = stamp_of(stamp);
        let row = RowRef {
            pattern,
            moment,
            ..row
        };
        if name_of(filter.verdict_in(row, &mut tests)) != want {
            return false;
        }
    }
    true
}

/// Whether the verdicts on the rows of a page, which have the log type and the words of one row,
/// are as told.
pub(crate) fn stamped_page_is(
    alloc: Global,
    filter: &Filter,
    row: &str,
    page: &[&str],
) -> Result<bool, AllocError> {
    let row = row_of(alloc, row)?;
    let (patterns, moments) = stamps_of(alloc, page)?;
    Ok(verdicts_are(
        filter,
        patterns.as_slice(),
        moments.as_slice(),
        row.lend(),
        page,
    ))
}
