//! By what it is told which messages are found.
ghost use Rattle.std.specs.Prelude.{◌≡◌, IfOk, IsTrue, false, is_some};
ghost use Rattle.search_meaning.specs.Journal.{asked};
ghost use Rattle.group_count.specs.StepsServed.{IsWay};
ghost use Rattle.group_count.specs.StepsWay.{AreMany};

use column_store::Range;
use query_plan::is_plain;
use std::alloc::{AllocError, Global};
use wild_match::{Item, Pattern};

/// By what it is told which messages are found.
#[derive(Clone, Copy, Debug, PartialEq, Eq)]
pub(crate) struct Way {
    /// Whether the pattern is plain, so that no message is expanded.
    pub(crate) plain: bool,
    /// Whether each message is found, whatever it is.
    pub(crate) all: bool,
}

/// Whether each item stands for any bytes. Where there are some, they match any text.
fn are_many(items: &[Item]) -> bool
    ensures { IsTrue result → AreMany items.now }
{
    let mut rest = items;
    while let Some((first, behind)) = rest.split_first() {
        if *first != Item::Many {
            return false;
        }
        rest = behind;
    }
    true
}

/// Whether no bound is given.
fn has_no_bound(range: &Range) -> bool
    ensures { IsTrue result → (is_some range.now.from ≡ false) × (is_some range.now.to ≡ false) }
{
    range.from.is_none() && range.to.is_none()
}

/// By what it is told which messages a pattern and a range find.
pub(crate) fn way_of(alloc: Global, pattern: &Pattern, range: &Range) -> Result<Way, AllocError>
    ensures { IfOk result (IsWay (asked pattern.now range.now)) }
{
    let plain = is_plain(alloc, pattern)?;
    if !plain {
        return Ok(Way { plain, all: false });
    }
    if !has_no_bound(range) {
        return Ok(Way { plain, all: false });
    }
    let items = pattern.as_slice();
    if items.is_empty() {
        return Ok(Way { plain, all: false });
    }
    let all = are_many(items);
    Ok(Way { plain, all })
}
