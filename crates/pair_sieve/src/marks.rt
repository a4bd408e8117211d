//! Flags that tell which texts have a pair, or can supply it.
ghost use Rattle.std.specs.Prelude.{◌≤◌, length, IsFalse, OnOk};
ghost use Rattle.pair_sieve.specs.Pairs.{Supplies, HasPair};
ghost use Rattle.pair_sieve.specs.Sieve.{Marks};

use crate::pair::Pair;
use row_codec::Names;
use std::alloc::AllocError;

/// So many texts a number of 32 bits reaches.
const REACHED: u64 = 1 << 32;

/// Whether a text has the pair.
fn has_pair(pair: Pair, text: &[u8]) -> bool
    ensures { IsFalse result → ¬ HasPair pair.before pair.after text.now }
{
    let mut before = false;
    for byte in text {
        if before && *byte == pair.after {
            return true;
        }
        before = *byte == pair.before;
    }
    false
}

/// Whether a word can supply the pair to a text that it stands in: it has the pair, or begins with the
/// second byte, or ends with the first.
fn can_supply(pair: Pair, word: &[u8]) -> bool
    ensures { IsFalse result → ¬ Supplies pair.before pair.after word.now }
{
    let mut before = true;
    for byte in word {
        if before && *byte == pair.after {
            return true;
        }
        before = *byte == pair.before;
    }
    before
}

/// Goes on with the flags of the texts of log types up to the last text.
pub(crate) fn mark_types<N: Names>(
    pair: Pair,
    names: &N,
    flags: &mut Vec<bool>,
) -> Result<(), AllocError>
    ensures { Marks (HasPair pair.before pair.after) (N.types names.now) flags.old.items
        → Marks (HasPair pair.before pair.after) (N.types names.now) flags.new.items }
{
    for number in flags.len() as u64..REACHED {
        let Some(text) = names.type_text(number as u32) else {
            return Ok(());
        };
        flags.push(has_pair(pair, text))?;
    }
    Ok(())
}

/// Goes on with the flags of words up to the last word.
pub(crate) fn mark_words<N: Names>(
    pair: Pair,
    names: &N,
    flags: &mut Vec<bool>,
) -> Result<(), AllocError>
    ensures marks { Marks (Supplies pair.before pair.after) (N.words names.now) flags.old.items
        → Marks (Supplies pair.before pair.after) (N.words names.now) flags.new.items }
    ensures all { OnOk result (length (N.words names.now) ≤ length flags.new.items) }
{
    for number in flags.len() as u64..REACHED {
        let Some(word) = names.word_text(number as u32) else {
            return Ok(());
        };
        flags.push(can_supply(pair, word))?;
    }
    // This look-up tells that there are no more words.
    let _last = names.word_text(u32::MAX);
    Ok(())
}
