//! Texts with the numbers that they were given.
ghost use Rattle.std.specs.Prelude.{◌≡◌, ◌≢◌, ◌<◌, ◌≤◌, ℕ, [], length, slice_get, vec_capacity, Some, IfSome, IfNone, OnOk};
ghost use Rattle.plain_list.specs.Texts.{IsNew};
ghost use Rattle.dict_core.specs.Lookups.{Fits, IsNumberOf};
ghost use Rattle.dict_lock.specs.Cache.{GrowsBy, Remembers, Keeps, StaysSeen};
ghost use Rattle.dict_lock.specs.StepsOfNaming.{IsHeldAs, HasNoMark};

use dict_core::{Book, MAX_TEXTS, NO_NUMBER, TextSlice};
use std::alloc::{AllocError, Global};
use std::marker::Model;

/// Texts that were named, each with its number in the shared book.
#[derive(Drop)]
pub(crate) struct Cache {
    /// The texts, in the order in which they came.
    known: Book,
    /// The number of each of them in the shared book.
    numbers: Vec<u32>,
}

impl Model for Cache {
    ghost use Rattle.std.specs.Prelude.{◌≡◌, length};
    ghost use Rattle.dict_lock.specs.Cache.{CacheState};

    ghost Value = { CacheState };

    ghost view = { λ c. record { texts = c.known.texts; numbers = c.numbers.items } };

    ghost invariant = { λ c. length c.numbers.items ≡ length c.known.texts };
}

impl Cache {
    /// A cache that holds nothing. Takes no memory.
    pub(crate) fn new(alloc: Global) -> Cache
        ensures texts { result.texts ≡ [] }
        ensures numbers { result.numbers ≡ [] }
    {
        Cache {
            known: Book::new(alloc, MAX_TEXTS),
            numbers: Vec::new(alloc),
        }
    }

    /// The number of a text, or `None` where the cache does not hold it. Takes no memory.
    pub(crate) fn number_of(&self, text: &[u8]) -> Option<u32>
        ensures some { IfSome result (λ n. Remembers self.now text.now n) }
        ensures none { IfNone result (IsNew self.now.texts text.now) }
    {
        let place = self.known.number_of(text)?;
        Some(self.numbers[place as usize])
    }

    /// The place of each of these texts, and a mark for one that the cache does not hold. Takes no
    /// memory: `places` has room.
    pub(crate) fn places_of<T: TextSlice>(&self, texts: &T, places: &mut Vec<u32>)
        requires empty { places.old.items ≡ [] }
        requires room { length (T.texts texts.now) ≤ vec_capacity places.old }
        ensures { Fits (IsNumberOf self.now.texts) places.new.items (T.texts texts.now) }
    {
        self.known.numbers_of(texts, places);
    }

    /// The number at a place. A mark stays.
    fn number_at(&self, place: u32) -> u32
        requires { place ≢ NO_NUMBER → place < length self.now.texts }
        ensures held { place ≢ NO_NUMBER → slice_get self.now.numbers place ≡ Some result }
        ensures mark { place ≡ NO_NUMBER → result ≡ NO_NUMBER }
    {
        if place == NO_NUMBER {
            return NO_NUMBER;
        }
        self.numbers[place as usize]
    }

    /// The number of each of these texts, in place of its place. Marks stay.
    pub(crate) fn numbers_at<T: TextSlice>(&self, texts: &T, numbers: &mut Vec<u32>)
        requires { Fits (IsNumberOf self.now.texts) numbers.old.items (T.texts texts.now) }
        ensures { Fits (IsHeldAs (HasNoMark numbers.old.items) self.now) numbers.new.items
            (T.texts texts.now) }
    {
        for next in 0..texts.count() {
            numbers[next] = self.number_at(numbers[next]);
        }
    }

    /// Holds a text with its number from now on. A text that it holds keeps its number.
    pub(crate) fn keep(&mut self, text: &[u8], number: u32) -> Result<(), AllocError>
        ensures kept { Keeps self.old self.new }
        ensures held { OnOk result ((n : ℕ) × Remembers self.new text.now n) }
        ensures seen { StaysSeen self.old self.new text.now number }
        ensures grows { GrowsBy self.old self.new text.now }
    {
        self.numbers.reserve(1)?;
        // A cache is never full: it has no more texts than the shared book.
        let Ok(place) = self.known.intern(text) else {
            return Err(AllocError);
        };
        if place as usize == self.numbers.len() {
            self.numbers.push_reserved(number);
        }
        Ok(())
    }
}
