//! The index of a book: from a text's hash to the texts that have it.
ghost use Rattle.std.specs.Prelude.{◌≡◌, ℕ, ◌+◌, ◌-◌, ◌<◌, ◌≤◌, [], ◌∷◌, ◌++◌, length, take, map, slice_get, slice_index, vec_len, vec_capacity, Some, IfOk, IfErr, OnOk, OnErr, IsErrOf};
ghost use Rattle.indexmap.specs.IndexMap.{spare, IsUnchanged};
ghost use Rattle.dict_core.specs.Books.{StandsTwice};
ghost use Rattle.plain_list.specs.Texts.{AreDistinct, IsNew};
ghost use Rattle.dict_core.specs.Chains.{hash_by, place_at, Puts, IsChained};
ghost use Rattle.dict_core.specs.declared.refusals.IndexRefusal.TheVariants.{Repeated};

use crate::chains::find;
use crate::refusals::IndexRefusal;
use crate::texts::Texts;
use indexmap::IndexMap;
use std::alloc::{AllocError, Global};
use std::hash::Hasher;

/// Chains of the texts that have the same hash.
///
/// A place is a text's number plus one, and 0 is no place. Each hash leads to the place of the
/// newest text that has it, and each text to the place of the one before it with its hash.
#[derive(Drop)]
pub(crate) struct Index<H> {
    /// Copied for each text; it was fed nothing.
    pub(crate) hasher: H,
    /// From a hash to the place of the newest text with it.
    pub(crate) newest: IndexMap<u64, u32>,
    /// For each text the place of the one before it with its hash.
    pub(crate) befores: Vec<u32>,
}

impl<H: Hasher + Copy> Index<H> {
    /// An index over no texts.
    pub(crate) fn new(alloc: Global, hasher: H) -> Index<H>
        ensures newest { result.newest.entries ≡ [] }
        ensures befores { result.befores.items ≡ [] }
        ensures hasher { result.hasher ≡ hasher }
    {
        Index {
            hasher,
            newest: IndexMap::new(alloc),
            befores: Vec::new(alloc),
        }
    }

    /// The hash of a text.
    pub(crate) fn hash(&self, text: &[u8]) -> u64
        ensures { result ≡ hash_by H.write H.finish self.now.hasher text.now }
    {
        let mut hasher = self.hasher;
        hasher.write(text);
        hasher.finish()
    }

    /// The place of the newest text with this hash.
    pub(crate) fn newest(&self, hash: u64) -> u32
        ensures { result ≡ place_at self.now.newest hash }
    {
        self.newest.get(&hash).copied().unwrap_or(0)
    }

    /// The number among `known` of a text, whose hash this is, or else the place of the newest text
    /// with this hash.
    ///
    /// The text at the index of the hash's entry is tried first. As long as no two texts have one
    /// hash, and none was taken out, it is the one, and its bytes are read without a wait for what
    /// the entry holds.
    pub(crate) fn find_in(&self, known: &Texts, hash: u64, text: &[u8]) -> Result<u32, u32>
        requires chained { let hash_of = hash_by H.write H.finish self.now.hasher in
            IsChained (map hash_of known.now) self.now.befores.items (place_at self.now.newest) }
        requires hashed { hash ≡ hash_by H.write H.finish self.now.hasher text.now }
        ensures some { IfOk result (λ n. slice_get known.now n ≡ Some text.now) }
        ensures newest { IfErr result (λ place. place ≡ place_at self.now.newest hash) }
        ensures none { OnErr result (IsNew known.now text.now) }
    {
        let Some((index, _hash, newest)) = self.newest.get_full(&hash) else {
            return Err(0);
        };
        if index < known.len() as usize && known.at(index as u32) == text {
            return Ok(index as u32);
        }
        match find(known, self.befores.as_slice(), *newest, text) {
            Some(number) => Ok(number),
            None => Err(*newest),
        }
    }

    /// Takes room for so many texts more.
    pub(crate) fn make_room(&mut self, more: usize) -> Result<(), AllocError>
        ensures hasher { self.new.hasher ≡ self.old.hasher }
        ensures newest { IsUnchanged self.old.newest self.new.newest }
        ensures befores { self.new.befores.items ≡ self.old.befores.items }
        ensures map { OnOk result (more ≤ spare self.new.newest) }
        ensures room { OnOk result
            (vec_len self.new.befores + more ≤ vec_capacity self.new.befores) }
    {
        self.newest.reserve(more)?;
        self.befores.reserve(more)
    }

    /// Links the next text, whose hash this is, and before which `before` is the place of the newest.
    pub(crate) fn link(&mut self, hash: u64, before: u32)
        requires map { 0 < spare self.old.newest }
        requires room { vec_len self.old.befores < vec_capacity self.old.befores }
        requires few { length self.old.befores.items < 4294967295 }
        ensures hasher { self.new.hasher ≡ self.old.hasher }
        ensures newest { Puts self.old.newest self.new.newest hash
            (length self.old.befores.items + 1) }
        ensures befores { self.new.befores.items ≡ self.old.befores.items ++ before ∷ [] }
        ensures spare { spare self.old.newest ≤ spare self.new.newest + 1 }
        ensures capacity { vec_capacity self.new.befores ≡ vec_capacity self.old.befores }
    {
        let place = self.befores.len() as u32 + 1;
        let Ok(_) = self.newest.insert(hash, place) else {
            unreachable!()
        };
        self.befores.push_reserved(before);
    }

    /// Takes the last text, whose hash this is, out of its chain. Takes no memory: the hash stays in
    /// the map, if need be without a place.
    pub(crate) fn unlink(&mut self, hash: u64)
        requires some { 0 < length self.old.befores.items }
        requires last { place_at self.old.newest hash ≡ length self.old.befores.items }
        ensures hasher { self.new.hasher ≡ self.old.hasher }
        ensures newest { let befores = self.old.befores.items in
            Puts self.old.newest self.new.newest hash (slice_index befores (length befores - 1)) }
        ensures befores { let befores = self.old.befores.items in
            self.new.befores.items ≡ take (length befores - 1) befores }
    {
        let Some(before) = self.befores.pop() else {
            unreachable!()
        };
        let Ok(_) = self.newest.insert(hash, before) else {
            unreachable!()
        };
    }

    /// Links all of the texts, and finds whether they are distinct.
    pub(crate) fn link_all(&mut self, texts: &Texts) -> Result<(), IndexRefusal>
        requires newest { self.old.newest.entries ≡ [] }
        requires befores { self.old.befores.items ≡ [] }
        ensures hasher { self.new.hasher ≡ self.old.hasher }
        ensures chained { let hash = hash_by H.write H.finish self.old.hasher in
            OnOk result (IsChained (map hash texts.now) self.new.befores.items
            (place_at self.new.newest)) }
        ensures distinct { OnOk result (AreDistinct texts.now) }
        ensures repeated { (n : ℕ) → IsErrOf result (Repeated n) → StandsTwice texts.now n }
    {
        let count = texts.len();
        self.make_room(count as usize)?;
        for number in 0..count {
            let text = texts.at(number);
            let hash = self.hash(text);
            let newest = self.newest(hash);
            if let Some(_lower) = find(texts, self.befores.as_slice(), newest, text) {
                return Err(IndexRefusal::Repeated { number });
            }
            self.link(hash, newest);
        }
        Ok(())
    }
}
