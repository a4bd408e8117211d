//! Plans and filters: what makes them for all tests.
use crate::books::Books;
use crate::texts::text_of;
use column_store::RowRef;
use plain_list::NumberList;
use query_plan::Plan;
use row_codec::Names;
use std::alloc::{AllocError, Global};
use subquery_filter::{AskedTypes, Asking, Filter, Verdict};
use wild_match::read_pattern;

/// The plan of a pattern.
pub(crate) fn plan_of(alloc: Global, pattern: &str) -> Result<Plan, AllocError> {
    let text = text_of(alloc, pattern)?;
    match read_pattern(alloc, text.as_slice()) {
        Ok(pattern) => Plan::new(alloc, &pattern),
        Err(_) => Err(AllocError),
    }
}

/// A plan's filter: all words and all log types of the books are asked. Where lists are given,
/// words are marked by these numbers, and no word is looked at.
pub(crate) fn filter_of(
    alloc: Global,
    books: &Books,
    plan: &Plan,
    lists: Option<&[NumberList]>,
) -> Result<Filter, AllocError> {
    match lists {
        None => Filter::new(alloc, plan, books),
        Some(lists) => {
            let filter = Filter::begin(alloc, plan)?.mark(alloc, lists)?;
            filter.ask(alloc, plan, books)
        }
    }
}

/// A filter whose words are marked anew by these numbers. None where a row is told anything before
/// the log types are asked again.
pub(crate) fn marked_again(
    alloc: Global,
    books: &Books,
    plan: &Plan,
    lists: &[NumberList],
    row: RowRef<'_>,
) -> Result<Option<Filter>, AllocError> {
    let before = filter_of(alloc, books, plan, Some(&[]))?;
    let marked = before.mark(alloc, lists)?;
    if marked.verdict(row) != Verdict::Tried {
        return Ok(None);
    }
    Ok(Some(marked.ask(alloc, plan, books)?))
}

/// What a plan's filter, whose words are not marked, is told of the log types of the books, one
/// behind the other. None where it does not reject all rows of one that is not left.
pub(crate) fn asked_types(
    alloc: Global,
    books: &Books,
    plan: &Plan,
) -> Result<Option<AskedTypes>, AllocError> {
    let mut asking = Asking::begin(alloc, plan, Filter::begin(alloc, plan)?)?;
    let mut out = Vec::new(alloc);
    for number in 0..u32::MAX {
        let Some(text) = books.type_text(number) else {
            break;
        };
        if !asking.add(text)? {
            out.push(number)?;
        }
    }
    let asked = asking.finish()?;
    let rejected = asked.filter.rejects_all(out.as_slice());
    Ok(if rejected { Some(asked) } else { None })
}

/// How many texts are looked for in words.
pub(crate) fn needles(alloc: Global, plan: &Plan) -> Result<u64, AllocError> {
    let filter = Filter::begin(alloc, plan)?;
    Ok(filter.needles().len() as u64)
}

/// A verdict, as scripts name it.
pub(crate) fn name_of(verdict: Verdict) -> &'static str {
    match verdict {
        Verdict::Tried => "tried",
        Verdict::Rejected => "rejected",
        Verdict::Certain => "certain",
    }
}
