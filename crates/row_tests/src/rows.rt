//! What is asked of rows and of log types.
use crate::books::Books;
use crate::filters::{filter_of, marked_again, name_of};
use crate::texts::{answer_of, list_of, number_of, numbers_of, row_of, small_of, text_of};
use column_store::RowRef;
use plain_list::WordList;
use query_plan::Plan;
use row_codec::row_fits;
use std::alloc::{AllocError, Global};
use subquery_filter::{Filter, Verdict, accepts, verdict_of};

/// Whether a row is accepted; `unwritten` where it cannot be written.
fn accepted(plan: &Plan, row: RowRef<'_>, books: &Books) -> &'static str {
    if row_fits(row, books) {
        answer_of(accepts(plan, row, books))
    } else {
        "unwritten"
    }
}

/// Whether a row is accepted as told.
pub(crate) fn is_accepted(
    alloc: Global,
    books: &Books,
    plan: &Plan,
    row: &str,
    want: &str,
) -> Result<bool, AllocError> {
    let row = row_of(alloc, row)?;
    Ok(accepted(plan, row.lend(), books) == want)
}

/// Whether that is the verdict on a log type.
pub(crate) fn is_of_type(
    alloc: Global,
    plan: &Plan,
    log_type: &str,
    want: &str,
) -> Result<bool, AllocError> {
    let text = text_of(alloc, log_type)?;
    Ok(name_of(verdict_of(plan, text.as_slice())) == want)
}

/// Whether a row that is rejected by the words of a page, which has no other row, is rejected by
/// itself.
fn agrees(filter: &Filter, row: RowRef<'_>, verdict: Verdict) -> bool {
    let mut hit = 0;
    let known = filter.rejects_row(row.log_type, row.words, 0, row.words.len(), &mut hit);
    !known || verdict == Verdict::Rejected
}

/// Whether the filter tells a row so, and leaves it out only where it is not accepted.
fn is_told(filter: &Filter, plan: &Plan, books: &Books, row: RowRef<'_>, want: &str) -> bool {
    let verdict = filter.verdict(row);
    let left_out = verdict == Verdict::Rejected && accepted(plan, row, books) != "no";
    name_of(verdict) == want && !left_out && agrees(filter, row, verdict)
}

/// Whether the filter tells a row so.
pub(crate) fn row_is(
    alloc: Global,
    books: &Books,
    plan: &Plan,
    filter: &Filter,
    row: &str,
    want: &str,
) -> Result<bool, AllocError> {
    let row = row_of(alloc, row)?;
    Ok(is_told(filter, plan, books, row.lend(), want))
}

/// Whether that is the verdict on a row by a filter whose words are marked by these numbers.
pub(crate) fn marks_hold(
    alloc: Global,
    books: &Books,
    plan: &Plan,
    numbers: &str,
    row: &str,
    want: &str,
) -> Result<bool, AllocError> {
    let row = row_of(alloc, row)?;
    let list = list_of(alloc, numbers)?;
    let filter = filter_of(alloc, books, plan, Some(&[list]))?;
    Ok(name_of(filter.verdict(row.lend())) == want)
}

/// Whether that is the verdict on a row by a filter whose words are marked where none was marked
/// before, and each row is tried until the log types are asked again.
pub(crate) fn marks_again(
    alloc: Global,
    books: &Books,
    plan: &Plan,
    numbers: &str,
    row: &str,
    want: &str,
) -> Result<bool, AllocError> {
    let row = row_of(alloc, row)?;
    let list = list_of(alloc, numbers)?;
    match marked_again(alloc, books, plan, &[list], row.lend())? {
        Some(filter) => Ok(name_of(filter.verdict(row.lend())) == want),
        None => Ok(false),
    }
}

/// These words, so many times.
fn repeated(alloc: Global, words: &str, times: &str) -> Result<WordList, AllocError> {
    let words = numbers_of(alloc, words)?;
    let mut all = Vec::new(alloc);
    for _ in 0..number_of(times) {
        all.extend_from_slice(words.as_slice())?;
    }
    Ok(WordList::new(all))
}

/// Whether rows with these words, so many times, are told so: one of the first log type, and one of
/// the last.
pub(crate) fn wide_are(
    alloc: Global,
    books: &Books,
    plan: &Plan,
    filter: &Filter,
    asked: (&str, &str, &str),
    want: (&str, &str),
) -> Result<bool, AllocError> {
    let (last, words, times) = asked;
    let words = repeated(alloc, words, times)?;
    let first = RowRef {
        pattern: 0,
        moment: 0,
        log_type: 0,
        words: words.as_slice(),
    };
    let last = RowRef {
        log_type: small_of(last),
        ..first
    };
    Ok(is_told(filter, plan, books, first, want.0) && is_told(filter, plan, books, last, want.1))
}
