//! What is asked of segments.
use crate::books::Books;
use crate::filters::{asked_types, name_of};
use crate::texts::{answer_of, bound_of, list_of, moment_of, row_of, small_of};
use column_store::Range;
use query_plan::Plan;
use row_codec::Names;
use segment_format::Head;
use std::alloc::{AllocError, Global};
use subquery_filter::{Filter, barren, barren_by, is_outside};

/// The head of a segment of one file, which lists these log types and words. Its stamps, if it has
/// any, are between two moments.
fn head_of(
    alloc: Global,
    rows: u32,
    between: Option<(i64, i64)>,
    types: &str,
    words: &str,
) -> Result<Head, AllocError> {
    let (least, greatest) = between.unwrap_or((0, 0));
    let types = list_of(alloc, types)?;
    let words = list_of(alloc, words)?;
    Ok(Head {
        file: 0,
        first: 0,
        rows,
        last: false,
        ended: false,
        stamped: between.is_some(),
        least,
        greatest,
        types,
        words,
        variables: rows,
    })
}

/// Whether a segment is barren, and as barren by what its log types were told and by the number of
/// the needed word that was found before, where the plan has one needed word. `apart` where these
/// two differ.
fn barren_told(
    alloc: Global,
    head: &Head,
    plan: &Plan,
    books: &Books,
) -> Result<&'static str, AllocError> {
    let range = Range {
        from: None,
        to: None,
    };
    let told = barren(head, plan, &range, books);
    let needed = plan.needed().as_slice();
    if needed.len() == 1 {
        let Some(asked) = asked_types(alloc, books, plan)? else {
            return Ok("apart");
        };
        let constants = asked.constants.as_slice();
        let number = books.word_number(needed[0].as_slice());
        if barren_by(head, plan, &range, constants, &[number]) != told {
            return Ok("apart");
        }
    }
    Ok(answer_of(told))
}

/// Whether a segment of so many rows is barren as told.
pub(crate) fn is_barren(
    alloc: Global,
    books: &Books,
    plan: &Plan,
    head: (&str, &str, &str),
    want: &str,
) -> Result<bool, AllocError> {
    let (rows, types, words) = head;
    let head = Head {
        least: 10,
        greatest: 40,
        ..head_of(alloc, small_of(rows), None, types, words)?
    };
    Ok(barren_told(alloc, &head, plan, books)? == want)
}

/// Whether a segment is barren in a range, and left out for it.
fn is_left_out(head: &Head, plan: &Plan, books: &Books, range: &Range) -> bool {
    barren(head, plan, range, books)
        && is_outside(head.rows, head.stamped, head.least, head.greatest, range)
}

/// Whether a segment of one row, with a stamp between the moments 10 and 40 or without, is left out
/// of a range as told.
pub(crate) fn is_out(
    alloc: Global,
    books: &Books,
    plan: &Plan,
    asked: (&str, &str, &str),
    want: &str,
) -> Result<bool, AllocError> {
    let (stamped, from, to) = asked;
    let head = Head {
        least: 10,
        greatest: 40,
        stamped: stamped == "stamped",
        ..head_of(alloc, 1, None, "0", "-")?
    };
    let range = Range {
        from: bound_of(from),
        to: bound_of(to),
    };
    Ok(answer_of(is_left_out(&head, plan, books, &range)) == want)
}

/// Whether the log types of a head alone leave a segment a match where all of the head does; and
/// they tell as much where no word brings a token.
fn agrees_by_types(filter: &Filter, head: &Head, may: bool) -> bool {
    let by_types = filter.may_match_types(head);
    by_types == may || (by_types && !filter.spares_words())
}

/// Whether the filter leaves a segment of one row a match. `apart` where the log types alone tell
/// something else.
fn may_match(filter: &Filter, head: &Head) -> &'static str {
    let may = filter.may_match(head);
    if agrees_by_types(filter, head, may) {
        answer_of(may)
    } else {
        "apart"
    }
}

/// Whether the filter leaves a segment of one row a match as told.
pub(crate) fn may_be(
    alloc: Global,
    filter: &Filter,
    between: Option<(i64, i64)>,
    lists: (&str, &str),
    want: &str,
) -> Result<bool, AllocError> {
    let head = head_of(alloc, 1, between, lists.0, lists.1)?;
    Ok(may_match(filter, &head) == want)
}

/// The moments between which a segment's stamps are; none where it has no stamps.
pub(crate) fn between(stamped: &str, least: &str, greatest: &str) -> Option<(i64, i64)> {
    if stamped == "stamped" {
        return Some((moment_of(least), moment_of(greatest)));
    }
    None
}

/// Whether the filter tells a row so, and a segment that has the row and lists these words.
pub(crate) fn both_are(
    alloc: Global,
    filter: &Filter,
    asked: (&str, &str),
    want: &str,
    may: &str,
) -> Result<bool, AllocError> {
    let row = row_of(alloc, asked.0)?;
    let (log_type, _) = asked.0.split_once(':').unwrap_or((asked.0, ""));
    Ok(
        name_of(filter.verdict(row.lend())) == want
            && may_be(alloc, filter, Some((10, 40)), (log_type, asked.1), may)?,
    )
}
