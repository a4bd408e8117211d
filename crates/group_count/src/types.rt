//! Messages counted by the number of their log type.
ghost use Rattle.std.specs.Prelude.{◌≡◌, ◌≢◌, ◌+◌, ℕ, ◌<◌, ◌≤◌, ◌^◌, ◌++◌, List, [], ◌∷◌, pos, length, slice_index_or, All, IfOk, IsErrOf, IsOk, OnOk};
ghost use Rattle.group_count.specs.Tables.{AreCounts, AreGroupsBy, AreTypes, HoldTypes, LackTexts};

use crate::refusal::TableRefusal;
use crate::text_tally::{groups_of, tally_texts};
use search_meaning::GroupList;
use std::alloc::{AllocError, Global};
use std::collections::BTreeMap;
use std::marker::Model;
use word_places::TypeTexts;

/// How many messages of each log type were counted.
#[derive(Debug, Drop)]
pub struct TypeTable {
    /// How many log types there are.
    limit: u32,
    /// For each number of a log type how many there are, up to the greatest of these that came.
    counts: Vec<u64>,
    /// Whether a number came that is none of a log type.
    beyond: bool,
}

impl Model for TypeTable {
    ghost use Rattle.std.specs.Prelude.{◌≤◌, ◌^◌, length};
    ghost use Rattle.group_count.specs.Tables.{TypeState};

    ghost Value = { TypeState };

    ghost view = { λ t. record { limit = t.limit; counts = t.counts.items; beyond = t.beyond } };

    ghost invariant = { λ t. length t.counts.items ≤ 2 ^ 32 };
}

/// Lets the counts reach a place.
fn reach(counts: &mut Vec<u64>, place: usize) -> Result<(), AllocError>
    requires { place < 2 ^ 32 }
    ensures room { OnOk result (place < length counts.new.items) }
    ensures few { length counts.old.items ≤ 2 ^ 32 → length counts.new.items ≤ 2 ^ 32 }
    ensures same { OnOk result ((t : ℕ)
        → slice_index_or counts.new.items t 0 ≡ slice_index_or counts.old.items t 0) }
{
    if place >= counts.len() {
        counts.resize(place + 1, 0)?;
    }
    Ok(())
}

/// Counts a number at its place.
#[inline]
fn count_at(counts: &mut Vec<u64>, place: usize) -> Result<(), AllocError>
    requires { place < 2 ^ 32 }
    ensures few { length counts.old.items ≤ 2 ^ 32 → length counts.new.items ≤ 2 ^ 32 }
    ensures counted { OnOk result ((numbers : List ℕ) → AreCounts counts.old.items numbers
        → AreCounts counts.new.items (numbers ++ place ∷ [])) }
{
    reach(counts, place)?;
    counts[place] = counts[place].saturating_add(1);
    Ok(())
}

/// Counts so many at a place.
fn add_at(counts: &mut Vec<u64>, place: usize, more: u64) -> Result<(), AllocError>
    requires { place < 2 ^ 32 }
    ensures few { length counts.old.items ≤ 2 ^ 32 → length counts.new.items ≤ 2 ^ 32 }
    ensures own { OnOk result (slice_index_or counts.old.items place 0 + more < 2 ^ 64
        → slice_index_or counts.new.items place 0
        ≡ slice_index_or counts.old.items place 0 + more) }
    ensures others { OnOk result ((t : ℕ) → t ≢ place
        → slice_index_or counts.new.items t 0 ≡ slice_index_or counts.old.items t 0) }
{
    reach(counts, place)?;
    counts[place] = counts[place].saturating_add(more);
    Ok(())
}

/// Counts as many at each place as there stand.
fn add_counts(counts: &mut Vec<u64>, more: &[u64]) -> Result<(), AllocError>
    requires { length more.now ≤ 2 ^ 32 }
    ensures few { length counts.old.items ≤ 2 ^ 32 → length counts.new.items ≤ 2 ^ 32 }
    ensures added { OnOk result ((before numbers : List ℕ) → AreCounts counts.old.items before
        → AreCounts more.now numbers → AreCounts counts.new.items (before ++ numbers)) }
{
    for place in 0..more.len() {
        add_at(counts, place, more[place])?;
    }
    Ok(())
}

impl TypeTable {
    /// A table of so many log types, in which nothing was counted. Takes no memory.
    pub fn new(alloc: Global, limit: u32) -> TypeTable
        ensures { AreTypes limit result [] }
    {
        TypeTable {
            limit,
            counts: Vec::new(alloc),
            beyond: false,
        }
    }

    /// Counts a message of the log type with this number. A number that is none of a log type is
    /// only marked, and takes no memory: the rows of a damaged archive may have any.
    #[inline]
    pub fn count(&mut self, number: u32) -> Result<(), AllocError>
        ensures limit { self.new.limit ≡ self.old.limit }
        ensures counted { OnOk result ((numbers : List ℕ) → HoldTypes self.old numbers
            → HoldTypes self.new (numbers ++ number ∷ [])) }
        ensures beyond { self.old.limit ≤ number → IsOk result }
    {
        if number >= self.limit {
            self.beyond = true;
            return Ok(());
        }
        count_at(&mut self.counts, number as usize)
    }

    /// Counts a message of the log type with each of these numbers.
    pub fn count_all(&mut self, numbers: &[u32]) -> Result<(), AllocError>
        ensures limit { self.new.limit ≡ self.old.limit }
        ensures counted { OnOk result ((before : List ℕ) → HoldTypes self.old before
            → HoldTypes self.new (before ++ numbers.now)) }
    {
        for number in numbers {
            self.count(*number)?;
        }
        Ok(())
    }

    /// How many log types there are.
    pub(crate) fn limit(&self) -> u32
        ensures { result ≡ self.now.limit }
    {
        self.limit
    }

    /// Counts what was counted in another table of as many log types.
    pub(crate) fn take_in(&mut self, other: &TypeTable) -> Result<(), AllocError>
        ensures limit { self.new.limit ≡ self.old.limit }
        ensures counted { OnOk result ((before numbers : List ℕ)
            → other.now.limit ≡ self.old.limit → HoldTypes self.old before
            → HoldTypes other.now numbers → HoldTypes self.new (before ++ numbers)) }
    {
        add_counts(&mut self.counts, other.counts.as_slice())?;
        self.beyond = self.beyond || other.beyond;
        Ok(())
    }

    /// The groups of what was counted, by the texts of the log types. Numbers with one text are one
    /// group. There are none where a number that is none of a log type was counted.
    pub fn groups(&self, alloc: Global, types: &TypeTexts) -> Result<GroupList, TableRefusal>
        ensures groups { IfOk result (AreGroupsBy types.now.texts self.now) }
        ensures numbered { IfOk result (λ _. (numbers : List ℕ)
            → AreTypes (length types.now.texts) self.now numbers
            → All (λ n. n < length types.now.texts) numbers) }
        ensures moments { IfOk result (λ groups. All (λ g. g.moment ≡ pos 0) groups) }
        ensures damaged { IsErrOf result TableRefusal.Damaged
            → LackTexts types.now.texts self.now }
    {
        if self.beyond {
            return Err(TableRefusal::Damaged);
        }
        let mut tally = BTreeMap::new(alloc);
        tally_texts(self.counts.as_slice(), types, &mut tally)?;
        Ok(groups_of(alloc, &tally)?)
    }
}
