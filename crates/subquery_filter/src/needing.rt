//! Rows that are told by the words of their page: a row of most log types is rejected where none of
//! its variables counts, whatever its slots are.
ghost use Rattle.std.specs.Prelude.{◌≡◌, ◌≢◌, ◌<◌, ◌≤◌, ◌+◌, ℕ, List, All, IfOk, IfSome, IsFalse, IsTrue, None, Some, length, slice_get, slice_index_or, slice_range};
ghost use Rattle.std.specs.Int.{cast_signed, w64};
ghost use Rattle.column_store.specs.Row.{row_of};
ghost use Rattle.column_store.specs.declared.row.Row.{Row};
ghost use Rattle.subquery_filter.specs.Filter.{AreNeeds, AreOpenBits, CountsNot, IsNeed, IsNoCode, IsOpenNumber, IsOpenWord, NoneCounts, Rejects};
ghost use Rattle.subquery_filter.specs.Page.{AreStampBits};
ghost use Rattle.subquery_filter.specs.StepsFilter.{HasEach, LacksHits};
ghost use Rattle.subquery_filter.specs.declared.verdicts.Verdict.{Verdict};

use crate::bits::has;
use crate::filter::Filter;
use crate::laws::{rows_bring_chunks, rows_bring_runs, verdicts_hold};
use crate::marks::WordMarks;
use crate::shared::StampBits;
use crate::slots::TypeTest;
use crate::token::Token;
use crate::verdicts::Verdict;
use column_store::RowRef;
use std::alloc::{AllocError, Global};
use var_codec::{Coded, one_word};

/// How many words are looked at before it is asked whether one of them counts.
const BLOCK: usize = 16;

/// What a row of a log type needs, so that it may be matched.
#[derive(Clone, Copy, Debug)]
pub(crate) enum Need {
    /// None is matched.
    Never,
    /// A variable that counts: its word is marked, a closed variable is stored as it is, or it may
    /// be that of a number which an open token is a part of.
    Hit,
    /// Each row is asked.
    Open,
}

/// The bit of a token that is no closed variable, and may stand in the text of a number.
#[inline]
fn open_bit(token: &Token) -> u8
    ensures { IsOpenNumber token.now → result ≡ token.now.bit }
{
    if token.numeric { token.bit } else { 0 }
}

/// The bits of the tokens that are no closed variables, and may stand in the texts of numbers.
pub(crate) fn open_bits(tokens: &[Token]) -> u8
    ensures { AreOpenBits tokens.now result }
{
    let mut bits = 0;
    for token in tokens {
        bits |= open_bit(token);
    }
    bits
}

/// The bits of the tokens that are closed variables, or may not stand in the texts of numbers.
pub(crate) fn firm_bits(tokens: &[Token]) -> u8 {
    let mut bits = 0;
    for token in tokens {
        if !token.numeric {
            bits |= token.bit;
        }
    }
    bits
}

/// The marks of all of these words.
// Of each caller its own, since these loops are most of what a search by words does.
#[inline(always)]
fn marks_of(marks: &WordMarks, block: &[u64]) -> u8
    ensures { HasEach marks.now block.now result }
{
    if marks.is_empty() {
        return 0;
    }
    let mut bits = 0;
    for word in block {
        bits |= marks.at(*word);
    }
    bits
}

/// Whether one of these words is a whole number's.
fn has_whole(block: &[u64], number: i64) -> bool
    ensures { IsFalse result → All (λ w. number ≢ cast_signed w64 w) block.now }
{
    for word in block {
        if number == word.cast_signed() {
            return true;
        }
    }
    false
}

/// Whether this word is among these.
fn has_word(block: &[u64], code: u64) -> bool
    ensures { IsFalse result → All (λ w. code ≢ w) block.now }
{
    for word in block {
        if code == *word {
            return true;
        }
    }
    false
}

/// Whether a token is a closed variable that is stored as one of these words.
#[inline]
fn is_stored(token: &Token, block: &[u64]) -> bool
    ensures { IsFalse result → All (IsNoCode token.now) block.now }
{
    match token.closed {
        Some(Coded::Whole(number)) => has_whole(block, number),
        Some(Coded::Decimal(code)) => has_word(block, code),
        Some(Coded::Word) | None => false,
    }
}

/// Whether some token is.
// Of each caller its own, since these loops are most of what a search by words does.
#[inline(always)]
fn are_stored(tokens: &[Token], block: &[u64]) -> bool
    ensures { IsFalse result → All (λ k. All (IsNoCode k) block.now) tokens.now }
{
    for token in tokens {
        if is_stored(token, block) {
            return true;
        }
    }
    false
}

/// Whether one of these words is not below a bound.
#[inline]
fn has_large(block: &[u64], bound: u64) -> bool
    ensures { IsFalse result → All (λ w. w < bound) block.now }
{
    for word in block {
        if *word >= bound {
            return true;
        }
    }
    false
}

/// The next place of a word that is not below a bound.
#[inline]
fn next_large(words: &[u64], from: usize, bound: u64) -> usize
    ensures { (k : ℕ) → from ≤ k → k < result → k < length words.now
        → slice_index_or words.now k 0 < bound }
{
    for place in from..words.len() {
        if words[place] >= bound {
            return place;
        }
    }
    words.len()
}

/// Whether a token is a closed variable.
#[inline]
fn is_closed(token: &Token) -> bool
    ensures { IsFalse result → token.now.closed ≡ None }
{
    token.closed.is_some()
}

/// Whether some token is a closed variable.
#[inline]
fn has_closed(tokens: &[Token]) -> bool
    ensures { IsFalse result → All (λ k. k.closed ≡ None) tokens.now }
{
    for token in tokens {
        if is_closed(token) {
            return true;
        }
    }
    false
}

/// So many words from a place on, where there are so many.
#[inline]
fn block_at(words: &[u64], at: usize, size: usize) -> Option<&[u64]>
    ensures { IfSome result (λ b. (at + size ≤ length words.now)
        × (b.now ≡ slice_range words.now at (at + size))) }
{
    if words.len() < at || words.len() - at < size {
        return None;
    }
    Some(&words[at..at + size])
}

impl Filter {
    /// What is known of the log type at a place, if there is one.
    fn test_got(&self, place: usize) -> Option<TypeTest>
        ensures { result ≡ slice_get self.now.tests.items place }
    {
        self.tests.get(place).copied()
    }

    /// The bits of the open tokens that numbers may bring, where their words do not tell which do.
    fn untold_bits(&self) -> u8
        ensures { self.now.small.bound ≡ 0 → AreOpenBits self.now.tokens.items result }
    {
        let bound = self.small.bound;
        if bound > 0 {
            return 0;
        }
        open_bits(self.tokens.as_slice())
    }

    /// What a row of the log type at a place needs, by the bits that tokens may bring by numbers
    /// that are no closed variables.
    fn type_need(&self, place: usize, verdict: Verdict, bits: u8) -> Need
        ensures { (self.now.small.bound ≡ 0 → AreOpenBits self.now.tokens.items bits)
            → (verdicts : List Verdict) → slice_get verdicts place ≡ Some verdict
            → IsNeed self.now.tokens.items self.now.tests.items self.now.stamped
            self.now.wanted self.now.small.bound verdicts place result }
    {
        if verdict == Verdict::Rejected {
            return Need::Never;
        }
        let Some(test) = self.test_got(place) else {
            return Need::Open;
        };
        if test.verdict == Verdict::Tried && !has(test.has | self.stamped | bits, self.wanted) {
            return Need::Hit;
        }
        Need::Open
    }

    /// What the rows of all log types need, by the verdicts on these.
    pub(crate) fn type_needs(
        &self,
        alloc: Global,
        verdicts: &[Verdict],
    ) -> Result<Vec<Need>, AllocError>
        ensures { IfOk result (λ needs. AreNeeds self.now verdicts.now needs.items) }
    {
        let bits = self.untold_bits();
        let mut needs = Vec::new(alloc);
        for place in 0..verdicts.len() {
            needs.push(self.type_need(place, verdicts[place], bits))?;
        }
        Ok(needs)
    }

    /// Whether an open token may be a part of a number with one of these words, where that is told.
    #[inline]
    fn may_be_part(&self, block: &[u64]) -> bool
        ensures { IsFalse result → 0 < self.now.small.bound
            → All (λ w. w < self.now.small.bound) block.now }
    {
        let bound = self.small.bound;
        bound > 0 && has_large(block, bound)
    }

    /// Whether one of these words counts.
    #[inline]
    fn some_counts(&self, block: &[u64]) -> bool
        ensures { IsFalse result → All (CountsNot self.now) block.now }
    {
        if self.may_be_part(block) {
            return true;
        }
        marks_of(&self.marks, block) != 0 || are_stored(self.tokens.as_slice(), block)
    }

    /// Whether none of these words has a mark beyond those of tokens that numbers may bring, and no
    /// closed variable is stored as one.
    #[inline]
    fn are_open(&self, words: &[u64]) -> bool
        ensures { IsTrue result → All (IsOpenWord self.now) words.now }
    {
        has(self.numeric, marks_of(&self.marks, words))
            && !are_stored(self.tokens.as_slice(), words)
    }

    /// Whether a row of a log type does not bring all tokens, as its words tell without a look at its
    /// slots: what numbers may bring by chance, and its stamp, do not suffice.
    #[inline]
    pub(crate) fn lacks_hits(&self, test: &TypeTest, row: RowRef<'_>, may: StampBits) -> bool
        ensures { IsTrue result → AreStampBits self.now row.entry.pattern row.entry.moment may
            → LacksHits self.now test.now (row_of row.entry) }
    {
        if has(test.has | self.numeric | may.tokens, self.wanted) {
            return false;
        }
        self.are_open(row.words)
    }

    /// Whether no word counts that is below the bound of numbers: none is marked, and no token is a
    /// closed variable.
    #[inline]
    fn is_by_bound(&self) -> bool
        ensures { IsTrue result → (word : ℕ) → word < self.now.small.bound
            → CountsNot self.now word }
    {
        if !self.marks.is_empty() || has_closed(self.tokens.as_slice()) {
            return false;
        }
        self.small.bound > 0
    }

    /// A place up to which no word counts from another one on, as blocks of so many words tell.
    #[inline]
    fn past(&self, words: &[u64], from: usize, size: usize) -> usize
        ensures { NoneCounts self.now words.now from result }
    {
        let mut at = from;
        for _step in 0..words.len() {
            let Some(block) = block_at(words, at, size) else {
                return at;
            };
            if self.some_counts(block) {
                return at;
            }
            at += size;
        }
        at
    }

    /// The next place of a word that counts. Words before it are asked by blocks, or one by one by
    /// the bound alone.
    // A function of its own, so that its loop has the registers.
    #[inline(never)]
    fn next_counted(&self, words: &[u64], from: usize) -> usize
        ensures { NoneCounts self.now words.now from result }
    {
        if self.is_by_bound() {
            return next_large(words, from, self.small.bound);
        }
        let near = self.past(words, from, BLOCK);
        self.past(words, near, 1)
    }

    /// The next place of a word that counts, where it is known up to which place none does.
    #[inline]
    fn next_hit(&self, words: &[u64], start: usize, hit: usize) -> usize
        ensures { NoneCounts self.now words.now start hit
            → NoneCounts self.now words.now start result }
    {
        if hit < start {
            return self.next_counted(words, start);
        }
        hit
    }

    /// What a row of the log type with this number needs.
    #[inline]
    fn need_at(&self, number: u32) -> Need
        ensures { (verdicts : List Verdict) → AreNeeds self.now verdicts self.now.needs.items
            → IsNeed self.now.tokens.items self.now.tests.items self.now.stamped
            self.now.wanted self.now.small.bound verdicts number result }
    {
        match self.needs.get(number as usize) {
            Some(need) => *need,
            None => Need::Open,
        }
    }

    /// Whether it is known that a row is rejected, of which only its log type is looked at, and
    /// those of its words that count: these stand among all words of its page from one place up to
    /// another. None of these counts from the first place up to `hit`, which goes on to the next
    /// one that does. Takes no memory.
    ///
    /// Where a row stays, `verdict_in` tells more of it.
    #[inline]
    pub fn rejects_row(
        &self,
        log_type: u32,
        words: &[u64],
        start: usize,
        end: usize,
        hit: &mut usize,
    ) -> bool
        ensures rejected { IsTrue result → NoneCounts self.now words.now start hit.old
            → (row : Row) → row.log_type ≡ log_type → row.words ≡ slice_range words.now start end
            → Rejects self.now row }
        ensures kept { NoneCounts self.now words.now start hit.old
            → NoneCounts self.now words.now start hit.new }
    {
        verdicts_hold();
        rows_bring_runs();
        rows_bring_chunks();
        one_word();
        match self.need_at(log_type) {
            Need::Never => true,
            Need::Open => false,
            Need::Hit => {
                *hit = self.next_hit(words, start, *hit);
                *hit >= end
            }
        }
    }
}
