//! Words that several shares have: each share reads on by itself, and is taken in again.
ghost use Rattle.std.specs.Prelude.{◌≡◌, ◌≤◌, ◌<◌, ℕ, List, IfOk, MatchOption, Option, Some, length, set, slice_get};
ghost use Rattle.plain_list.specs.Texts.{IsNew};
ghost use Rattle.word_places.specs.Held.{AreNumbered, Grow, IsHeld, KeepsTypes, RightTold, places_of, unread};
ghost use Rattle.word_places.specs.Shared.{taken_each, with_words};
ghost use Rattle.word_places.specs.declared.held.HeldRecord.{HeldRecord};

use crate::held::{HeldRecord, HeldWords};
use crate::holding::read_front;
use crate::record::RecordWords;
use std::alloc::{AllocError, Global};
use std::marker::Model;
use std::sync::Arc;

/// The words of one record, which may have several owners. Contracts see the list of the words.
#[derive(Drop)]
pub struct SharedWords {
    words: Arc<RecordWords>,
}

impl Model for SharedWords {
    ghost use Rattle.std.specs.Prelude.{List, ℕ};

    ghost Value = { List (List ℕ) };

    ghost view = { λ s. s.words.value };
}

impl SharedWords {
    /// Words that have one owner.
    pub fn new(alloc: Global, words: RecordWords) -> Result<SharedWords, AllocError>
        ensures { IfOk result (λ shared. shared ≡ words) }
    {
        Ok(SharedWords {
            words: Arc::new(alloc, words)?,
        })
    }

    /// The same words for one owner more. Copies none of them.
    pub fn again(&self) -> Result<SharedWords, AllocError>
        ensures { IfOk result (λ shared. shared ≡ self.now) }
    {
        Ok(SharedWords {
            words: Arc::try_clone(&self.words)?,
        })
    }

    /// The word at a place of the record, or `None` past the last one. Takes no memory.
    #[inline]
    pub fn text_of(&self, at: usize) -> Option<&[u8]>
        ensures { MatchOption result (length self.now ≤ at)
            (λ text. slice_get self.now at ≡ Some text.now) }
    {
        self.words.text_of(at)
    }

    /// A place in the record where the word with this text stands, or `None` where there is none.
    /// Takes no memory.
    pub fn place_of(&self, text: &[u8]) -> Option<usize>
        ensures { MatchOption result (IsNew self.now text.now)
            (λ at. slice_get self.now at ≡ Some text.now) }
    {
        self.words.place_of(text)
    }
}

impl HeldRecord {
    // The same record for one owner more.
    fn again(&self) -> Result<HeldRecord, AllocError>
        ensures { IfOk result (λ r. r ≡ self.now) }
    {
        let words = match &self.words {
            Some(words) => Some(words.again()?),
            None => None,
        };
        Ok(HeldRecord {
            place: self.place,
            words,
        })
    }
}

impl HeldWords {
    /// A share: it begins with all records that were read so far, and reads on by itself. It takes
    /// room for the list of its records; their texts and the log types are shared.
    pub fn share(&self) -> Result<HeldWords, AllocError>
        ensures { IfOk result (λ share. share ≡ self.now) }
    {
        let records = share_each(self.alloc, self.records.as_slice())?;
        Ok(HeldWords {
            alloc: self.alloc,
            common: Arc::try_clone(&self.common)?,
            version: self.version,
            records,
            front: self.front,
        })
    }

    /// Takes a share in again: each record that it has read and that is not held here, is held from
    /// now on. So what serves a reader goes on to do so, where both did.
    pub fn take_in(&mut self, other: HeldWords)
        requires same { places_of other.records ≡ places_of self.old.records }

        // what stays
        ensures same { KeepsTypes self.old self.new }
        ensures places { places_of self.new.records ≡ places_of self.old.records }
        ensures numbered { AreNumbered 0 self.new.records }
        ensures grow { Grow self.old.records self.new.records }

        // what is taken in
        ensures taken { self.new.records ≡ taken_each self.old.records other.records }
        ensures held { (number : ℕ) → IsHeld other.records number
            → IsHeld self.new.records number }
        ensures right { (told : Option (List ℕ)) → RightTold told self.old.records
            → RightTold told other.records → RightTold told self.new.records }
    {
        let HeldWords { records, .. } = other;
        take_each(&mut self.records, records);
        self.front = read_front(self.records.as_slice(), self.front);
    }
}

// Each record for one owner more.
fn share_each(alloc: Global, records: &[HeldRecord]) -> Result<Vec<HeldRecord>, AllocError>
    ensures { IfOk result (λ list. list.items ≡ records.now) }
{
    let mut list = Vec::with_capacity(alloc, records.len())?;
    for record in records {
        list.push_reserved(record.again()?);
    }
    Ok(list)
}

// Takes the words out of a record.
fn take_words(others: &mut Vec<HeldRecord>, at: usize) -> Option<SharedWords>
    requires { at < length others.old.items }
    ensures words { (r : HeldRecord) → slice_get others.old.items at ≡ Some r
        → result ≡ r.words }
    ensures left { (r : HeldRecord) → slice_get others.old.items at ≡ Some r
        → others.new.items ≡ set others.old.items at (unread r.place) }
{
    others[at].words.take()
}

// Puts words into a record, where it has none.
fn put_missing(records: &mut Vec<HeldRecord>, at: usize, words: Option<SharedWords>)
    requires { at < length records.old.items }
    ensures { (r : HeldRecord) → slice_get records.old.items at ≡ Some r
        → records.new.items ≡ set records.old.items at (with_words r words) }
{
    if records[at].words.is_none() {
        records[at].words = words;
    }
}

// Takes in the words of each record, where there are none.
fn take_each(records: &mut Vec<HeldRecord>, mut others: Vec<HeldRecord>)
    requires { length others.items ≡ length records.old.items }
    ensures { records.new.items ≡ taken_each records.old.items others.items }
{
    for at in 0..records.len() {
        let words = take_words(&mut others, at);
        put_missing(records, at, words);
    }
}
