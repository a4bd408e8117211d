//! What is told of whole numbers by their words, before their digits are looked at.
ghost use Rattle.std.specs.Prelude.{◌≡◌, ◌<◌, ◌^◌, ℕ, List, IfOk, Some, length, slice_get};
ghost use Rattle.std.specs.Fmt.{decimal, signed_decimal};
ghost use Rattle.std.specs.Int.{cast_signed, w64};
ghost use Rattle.subquery_filter.specs.Filter.{AreSmall, IsBound, IsLeast, MarksOpen, TellsSmall};
ghost use Rattle.subquery_filter.specs.StepsFilter.{NoneBelow};
ghost use Rattle.subquery_filter.specs.declared.token.Token.{Token};

use crate::number_text::is_open_whole;
use crate::numbers::{are_plain, has_open};
use crate::slots::{MOST_SLOTS, Slot, has_kind};
use crate::token::Token;
use crate::tokens::open_marks;
use logtype_text::Kind;
use std::alloc::{AllocError, Global};
use var_codec::whole_text;

/// How many whole numbers have their marks in a table.
const SMALL: u64 = 65_536;

/// The least whole number of nineteen digits. The words of those below it are their values.
const LONG: u64 = 1_000_000_000_000_000_000;

/// Below this a bound tells too little: too many words are not below it, whatever they stand for.
const LEAST_BOUND: u64 = 1_000_000;

/// What is told of numbers by their words. Of closed variables nothing is.
#[derive(Debug, Drop)]
pub(crate) struct SmallNumbers {
    /// No token stands in a whole number whose word is below this.
    pub(crate) least: u64,
    /// Nor in any number whose word is below this, a decimal or a whole one. It is 0 where that is
    /// not told.
    pub(crate) bound: u64,
    /// The bits of the first numbers, where they are asked.
    pub(crate) marks: Vec<u8>,
}

/// The least whole number with so many digits, or a lower one. One digit gives no bound, since 0
/// has one.
fn least_with(digits: usize) -> u64
    ensures { (n : ℕ) → n < result → (n < 10 ^ 18) × (length (decimal n) < digits) }
{
    if digits < 2 {
        return 0;
    }
    if digits > 18 {
        return LONG;
    }
    10u64.pow(digits as u32 - 1)
}

/// A bound below which no whole number has the token.
fn least_for(token: &Token) -> u64
    ensures { NoneBelow token.now result }
{
    let text = token.text.as_slice();
    if !is_open_whole(token.closed, text) {
        return LONG;
    }
    least_with(text.len())
}

/// A bound below which no whole number has one of the tokens.
fn least_of(tokens: &[Token]) -> u64
    ensures { IsLeast tokens.now result }
{
    let mut least = LONG;
    for token in tokens {
        least = least.min(least_for(token));
    }
    least
}

/// A bound of the words of all numbers, by that of whole numbers. The digits of a decimal read as
/// one number are no more than its word, but tell only of tokens that begin with no zero and have
/// no point.
fn bound_of(tokens: &[Token], least: u64) -> u64
    ensures { IsLeast tokens.now least → IsBound tokens.now result }
{
    if least < LEAST_BOUND || !has_open(tokens) || !are_plain(tokens) {
        return 0;
    }
    least
}

/// Whether words tell of numbers below a bound that no token is a part of them.
pub(crate) fn has_bound(tokens: &[Token]) -> bool {
    bound_of(tokens, least_of(tokens)) > 0
}

/// The bits of the tokens, but for closed variables, that stand in the text of a whole number.
#[inline(never)]
pub(crate) fn whole_marks(tokens: &[Token], word: u64) -> u8
    ensures { MarksOpen tokens.now (signed_decimal (cast_signed w64 word)) result }
{
    let mut digits = [0; 20];
    let len = whole_text(word.cast_signed(), &mut digits);
    open_marks(tokens, &digits[..len])
}

/// The bits of the tokens, but for closed variables, that stand in the text of a whole number. None
/// does below a bound.
fn marks_from(tokens: &[Token], least: u64, word: u64) -> u8
    ensures { IsLeast tokens.now least
        → MarksOpen tokens.now (signed_decimal (cast_signed w64 word)) result }
{
    if word < least {
        return 0;
    }
    whole_marks(tokens, word)
}

/// The marks of the whole numbers whose words are small.
fn mark_small(alloc: Global, tokens: &[Token], least: u64) -> Result<Vec<u8>, AllocError>
    ensures { IfOk result (λ small. IsLeast tokens.now least → AreSmall tokens.now small.items) }
{
    let mut small = Vec::new(alloc);
    for word in 0..SMALL {
        small.push(marks_from(tokens, least, word))?;
    }
    Ok(small)
}

/// What is told of whole numbers by these tokens. The table is made only where a slot of a whole
/// number is listed or may be left out, and some token may stand in a number of it.
pub(crate) fn small_needed(
    alloc: Global,
    slots: &[Slot],
    tokens: &[Token],
) -> Result<SmallNumbers, AllocError>
    ensures { IfOk result (λ small. TellsSmall tokens.now small) }
{
    let least = least_of(tokens);
    let bound = bound_of(tokens, least);
    let needed = slots.len() >= MOST_SLOTS || has_kind(slots, Kind::Whole);
    if least >= SMALL || !needed {
        let marks = Vec::new(alloc);
        return Ok(SmallNumbers {
            least,
            bound,
            marks,
        });
    }
    let marks = mark_small(alloc, tokens, least)?;
    Ok(SmallNumbers {
        least,
        bound,
        marks,
    })
}

/// The marks at a place of the table.
#[inline]
fn small_at(small: &[u8], place: usize) -> Option<u8>
    ensures { result ≡ slice_get small.now place }
{
    small.get(place).copied()
}

impl SmallNumbers {
    /// Nothing is told.
    pub(crate) fn none(alloc: Global) -> SmallNumbers
        ensures { (tokens : List Token) → TellsSmall tokens result }
    {
        SmallNumbers {
            least: 0,
            bound: 0,
            marks: Vec::new(alloc),
        }
    }

    /// The bits of the tokens, but for closed variables, that stand in the whole number with this
    /// word, where these are told.
    #[inline]
    pub(crate) fn bits_of(&self, word: u64) -> Option<u8>
        ensures { (tokens : List Token) (bits : ℕ) → TellsSmall tokens self.now
            → result ≡ Some bits
            → MarksOpen tokens (signed_decimal (cast_signed w64 word)) bits }
    {
        if word < self.least {
            return Some(0);
        }
        small_at(self.marks.as_slice(), word as usize)
    }
}
