//! Patterns that the pattern which a search is planned over says all of.
ghost use Rattle.std.specs.Prelude.{◌↔◌, IfOk, IsTrue};
ghost use Rattle.query_plan.specs.Laws.{IsPlain, NoOne};

use crate::needed::open_count;
use crate::pieces::{MAX_OPEN_TOKENS, cut};
use std::alloc::{AllocError, Global};
use wild_match::{Item, Pattern};

/// Whether no item is a `?`.
fn has_no_one(items: &[Item]) -> bool
    ensures { IsTrue result ↔ NoOne items.now }
{
    let mut rest = items;
    while let Some((first, behind)) = rest.split_first() {
        if let Item::One = first {
            return false;
        }
        rest = behind;
    }
    true
}

/// Whether a pattern has no `?` and at most [`MAX_OPEN_TOKENS`] open tokens. The pattern that a search
/// is planned over then matches what the pattern matches, so a plan decides alone which messages are
/// found, and none has to be written out.
pub fn is_plain(alloc: Global, pattern: &Pattern) -> Result<bool, AllocError>
    ensures { IfOk result (λ plain. IsTrue plain ↔ IsPlain pattern.now) }
{
    let items = pattern.as_slice();
    if !has_no_one(items) {
        return Ok(false);
    }
    let pieces = cut(alloc, items)?;
    Ok(open_count(pieces.as_slice()) <= MAX_OPEN_TOKENS)
}
