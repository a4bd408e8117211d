//! A pattern without [`Item::One`] that matches no less.
ghost use Rattle.std.specs.Prelude.{◌≡◌, ℕ, List, IfOk};
ghost use Rattle.wild_match.specs.Matches.{Match};
ghost use Rattle.wild_match.specs.Widened.{widened_item, widened};

use crate::pattern::{Item, Pattern};
use std::alloc::{AllocError, Global};

/// The item, but that [`Item::One`] becomes [`Item::Many`].
fn widen_item(item: Item) -> Item
    ensures { result ≡ widened_item item }
{
    match item {
        Item::Byte(byte) => Item::Byte(byte),
        Item::One | Item::Many => Item::Many,
    }
}

/// The pattern with [`Item::Many`] in place of each [`Item::One`]. It matches each message that the
/// pattern matches.
pub fn widen(alloc: Global, pattern: &Pattern) -> Result<Pattern, AllocError>
    ensures items { IfOk result (λ wide. wide ≡ widened pattern.now) }
    ensures wider { (message : List ℕ) → Match pattern.now message
        → IfOk result (λ wide. Match wide message) }
{
    let mut items = Vec::with_capacity(alloc, pattern.as_slice().len())?;
    for item in pattern.as_slice() {
        items.push(widen_item(*item))?;
    }
    Ok(Pattern::new(items))
}
