//! The sieve.
ghost use Rattle.std.specs.Prelude.{◌≡◌, ℕ, List, OnOk, IsFalse, slice_get};
ghost use Rattle.column_store.specs.Row.{row_of};
ghost use Rattle.wild_match.specs.declared.pattern.Item.{Item};
ghost use Rattle.pair_sieve.specs.Sieve.{HasNoMatch, Knows, Tells};

use crate::marks::{mark_types, mark_words};
use crate::pair::{Pair, rarest_pair};
use column_store::RowRef;
use row_codec::Names;
use std::alloc::{AllocError, Global};
use std::marker::Model;
use wild_match::Pattern;

/// What tells of rows that a pattern matches none of their messages: two bytes that the pattern has
/// beside each other, and for each text of an archive's dictionaries whether it can supply them.
///
/// Each look goes on behind the texts that were looked at before.
#[derive(Drop)]
pub struct PairSieve {
    // None where the pattern has no two bytes that serve; then no row is told of.
    pair: Option<Pair>,
    // For each text of a log type whether it has the pair.
    types: Vec<bool>,
    // For each word whether it can supply the pair.
    words: Vec<bool>,
}

impl Model for PairSieve {
    ghost use Rattle.pair_sieve.specs.Sieve.{SieveView};

    ghost Value = { SieveView };

    ghost view = { λ s. record { pair = s.pair; types = s.types.items; words = s.words.items } };
}

/// The flag at a place, if one is there.
fn flag_at(flags: &[bool], place: u64) -> Option<bool>
    ensures { result ≡ slice_get flags.now place }
{
    if place < flags.len() as u64 {
        Some(flags[place as usize])
    } else {
        None
    }
}

impl PairSieve {
    /// A sieve for a pattern, which has looked at no text. Takes no memory.
    pub fn new(alloc: Global, pattern: &Pattern) -> PairSieve
        ensures { (types words : List (List ℕ)) → Tells pattern.now types words result }
    {
        PairSieve {
            pair: rarest_pair(pattern.as_slice()),
            types: Vec::new(alloc),
            words: Vec::new(alloc),
        }
    }

    /// Looks at the texts that it has not looked at. Without memory at some of them.
    pub fn look<N: Names>(&mut self, names: &N) -> Result<(), AllocError>
        ensures tells { (pattern : List Item)
            → Tells pattern (N.types names.now) (N.words names.now) self.old
            → Tells pattern (N.types names.now) (N.words names.now) self.new }
        ensures knows { OnOk result ((pattern : List Item)
            → Tells pattern (N.types names.now) (N.words names.now) self.old
            → Knows pattern (N.types names.now) (N.words names.now) self.new) }
    {
        let Some(pair) = self.pair else {
            return Ok(());
        };
        mark_types(pair, names, &mut self.types)?;
        mark_words(pair, names, &mut self.words)
    }

    /// Whether the pattern may match a message that the row is the encoding of.
    pub fn may_match(&self, row: RowRef<'_>) -> bool
        ensures { IsFalse result → HasNoMatch self.now (row_of row.entry) }
    {
        if self.pair.is_none() {
            return true;
        }
        if flag_at(&self.types, u64::from(row.log_type)) != Some(false) {
            return true;
        }
        for word in row.words {
            if flag_at(&self.words, *word) == Some(true) {
                return true;
            }
        }
        false
    }
}
