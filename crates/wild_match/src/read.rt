//! The text of a pattern.
ghost use Rattle.std.specs.Prelude.{◌≡◌, ◌≢◌, ◌⊎◌, ℕ, List, [], ◌∷◌, IfOk, Ok, Err};
ghost use Rattle.wild_match.specs.Reading.{IsLoneBackslash, IsSearchPattern, Spells};
ghost use Rattle.wild_match.specs.declared.pattern.Item.{Item};
ghost use Rattle.wild_match.specs.declared.read.PatternRefusal.TheVariants.{BadPattern, OutOfMemory};

use crate::pattern::{Item, Pattern};
use std::alloc::{AllocError, AllocFailed, Global};
use thiserror::Error;

/// Why a text is no pattern.
#[derive(Clone, Copy, Debug, Drop, Error, PartialEq, Eq)]
pub enum PatternRefusal {
    /// The text ends in a `\` that escapes nothing, which stands at `at`, counted from 0.
    #[error("lone backslash at {at}")]
    BadPattern { at: usize },
    /// The memory of the pattern was refused.
    #[error("out of memory")]
    OutOfMemory,
}

impl From<AllocError> for PatternRefusal {
    ghost from_gives = { λ _ e. e ≡ OutOfMemory };

    fn from(_e: AllocError) -> PatternRefusal {
        PatternRefusal::OutOfMemory
    }
}

impl<T: Drop> From<AllocFailed<T>> for PatternRefusal {
    ghost from_gives = { λ _ e. e ≡ OutOfMemory };

    fn from(_e: AllocFailed<T>) -> PatternRefusal {
        PatternRefusal::OutOfMemory
    }
}

/// What a byte spells where no `\` escapes it.
fn item_of(byte: u8) -> Item
    requires { byte ≢ 92 }
    ensures { Spells (byte ∷ []) (result ∷ []) }
{
    match byte {
        b'*' => Item::Many,
        b'?' => Item::One,
        _ => Item::Byte(byte),
    }
}

/// Reads the text of a pattern: `*` stands for any bytes, `?` for any one byte, and `\` takes the
/// next byte literally. The pattern is searched for anywhere in a message, so the answer has
/// [`Item::Many`] before these items and behind them.
///
/// # Errors
///
/// [`PatternRefusal::BadPattern`] exactly where the text ends in a `\` that escapes nothing, or
/// [`PatternRefusal::OutOfMemory`].
pub fn read_pattern(alloc: Global, text: &[u8]) -> Result<Pattern, PatternRefusal>
    ensures items { IfOk result (IsSearchPattern text.now) }
    ensures good { (pattern : List Item) → IsSearchPattern text.now pattern
        → (result ≡ Ok pattern) ⊎ (result ≡ Err OutOfMemory) }
    ensures bad { (at : ℕ) → result ≡ Err (BadPattern at) → IsLoneBackslash text.now at }
    ensures lone { (at : ℕ) → IsLoneBackslash text.now at
        → (result ≡ Err (BadPattern at)) ⊎ (result ≡ Err OutOfMemory) }
{
    let mut items = Vec::from_slice(alloc, &[Item::Many])?;
    let mut escaped = false;
    for byte in text {
        if escaped {
            items.push(Item::Byte(*byte))?;
            escaped = false;
        } else if *byte == b'\\' {
            escaped = true;
        } else {
            items.push(item_of(*byte))?;
        }
    }
    if escaped {
        return Err(PatternRefusal::BadPattern { at: text.len() - 1 });
    }
    items.push(Item::Many)?;
    Ok(Pattern::new(items))
}
