//! Distinct texts, each with a number.
ghost use Rattle.std.specs.Prelude.{◌≡◌, ℕ, ◌-◌, ◌<◌, ◌≤◌, [], take, drop, length, slice_get, vec_capacity, Some, IfSome, IfNone, IfOk, OnOk, OnErr, IsErrOf};
ghost use Rattle.dict_core.specs.Books.{Names, StandsTwice};
ghost use Rattle.plain_list.specs.Texts.{AreDistinct, IsNew};
ghost use Rattle.dict_core.specs.Lookups.{Fits, IsNumberOf};
ghost use Rattle.dict_core.specs.declared.refusals.BookRefusal.TheVariants.{Full};
ghost use Rattle.dict_core.specs.declared.refusals.IndexRefusal.TheVariants.{Repeated};

use crate::chains::NO_NUMBER;
use crate::index::Index;
use crate::refusals::{BookRefusal, IndexRefusal};
use crate::text_slice::TextSlice;
use crate::texts::{MAX_TEXTS, Texts};
use plain_list::TextList;
use std::alloc::{AllocError, Global};
use std::hash::{FoldHasher, Hasher};
use std::marker::Model;

/// A list of distinct texts with a limit.
///
/// A text's number is its place in the list, from 0. Contracts see the texts and the limit.
#[derive(Drop)]
pub struct Book {
    alloc: Global,
    texts: Texts,
    index: Index<FoldHasher>,
    limit: u32,
}

impl Model for Book {
    ghost use Rattle.dict_core.specs.Books.{BookState};
    ghost use Rattle.dict_core.specs.Chains.{IsBook, hash_by, place_at};

    ghost Value = { BookState };

    ghost view = { λ b. record { texts = b.texts; limit = b.limit } };

    ghost invariant = { λ b.
        let hash = hash_by ⟦<FoldHasher as Hasher>⟧.write ⟦<FoldHasher as Hasher>⟧.finish
        b.index.hasher in
        IsBook hash b.texts b.index.befores.items (place_at b.index.newest) b.limit };
}

impl Book {
    /// A book without texts. Takes no memory.
    pub fn new(alloc: Global, limit: u32) -> Book
        requires least { 1 ≤ limit }
        requires most { limit ≤ MAX_TEXTS }
        ensures texts { result.texts ≡ [] }
        ensures limit { result.limit ≡ limit }
    {
        Book {
            alloc,
            texts: Texts::new(alloc),
            index: Index::new(alloc, FoldHasher::default()),
            limit,
        }
    }

    /// A book of these texts, with an index that is made in one pass over them.
    ///
    /// # Errors
    ///
    /// [`IndexRefusal::Repeated`] where a text stands among them twice, or
    /// [`IndexRefusal::OutOfMemory`].
    pub fn from_texts(alloc: Global, texts: Texts, limit: u32) -> Result<Book, IndexRefusal>
        requires least { 1 ≤ limit }
        requires most { limit ≤ MAX_TEXTS }
        requires within { length texts ≤ limit }
        ensures ok { IfOk result (λ book. (book.texts ≡ texts) × (book.limit ≡ limit)) }
        ensures distinct { OnOk result (AreDistinct texts) }
        ensures repeated { (number : ℕ) → IsErrOf result (Repeated number)
            → StandsTwice texts number }
    {
        let mut index = Index::new(alloc, FoldHasher::default());
        index.link_all(&texts)?;
        Ok(Book {
            alloc,
            texts,
            index,
            limit,
        })
    }

    /// The count of texts.
    pub fn len(&self) -> u32
        ensures count { result ≡ length self.now.texts }
        ensures limit { length self.now.texts ≤ self.now.limit }
        ensures distinct { AreDistinct self.now.texts }
    {
        let _limit = self.limit;
        self.texts.len()
    }

    /// The number of a text, or `None` where it is not in the book. Takes no memory.
    pub fn number_of(&self, text: &[u8]) -> Option<u32>
        ensures some { IfSome result (λ n. slice_get self.now.texts n ≡ Some text.now) }
        ensures none { IfNone result (IsNew self.now.texts text.now) }
    {
        let hash = self.index.hash(text);
        self.index.find_in(&self.texts, hash, text).ok()
    }

    /// The same, and [`NO_NUMBER`] where it is not in the book.
    fn number_or_none(&self, text: &[u8]) -> u32
        ensures { IsNumberOf self.now.texts result text.now }
    {
        let _limit = self.limit;
        self.number_of(text).unwrap_or(NO_NUMBER)
    }

    /// The number of each of these texts, and [`NO_NUMBER`] for one that is not in the book. Takes
    /// no memory: `numbers` has room.
    ///
    /// [`NO_NUMBER`]: crate::NO_NUMBER
    pub fn numbers_of<T: TextSlice>(&self, texts: &T, numbers: &mut Vec<u32>)
        requires empty { numbers.old.items ≡ [] }
        requires room { length (T.texts texts.now) ≤ vec_capacity numbers.old }
        ensures { Fits (IsNumberOf self.now.texts) numbers.new.items (T.texts texts.now) }
    {
        for next in 0..texts.count() {
            numbers.push_reserved(self.number_or_none(texts.at(next)));
        }
    }

    /// The text at a number, or `None` where there are fewer texts. Takes no memory.
    pub fn text_of(&self, number: u32) -> Option<&[u8]>
        ensures some { IfSome result (λ text. slice_get self.now.texts number ≡ Some text.now) }
        ensures none { IfNone result (length self.now.texts ≤ number) }
    {
        self.texts.text_of(number)
    }

    /// The number of a text, which is added last where it is new. A refusal changes nothing.
    ///
    /// # Errors
    ///
    /// [`BookRefusal::Full`] exactly where the text is new and the limit is reached, or
    /// [`BookRefusal::OutOfMemory`].
    pub fn intern(&mut self, text: &[u8]) -> Result<u32, BookRefusal>
        ensures ok { IfOk result (λ n. Names self.old self.new text.now n) }
        ensures err { OnErr result (self.new ≡ self.old) }

        // It is full exactly where the text is new and the limit is reached.
        ensures full { (count : ℕ) → IsErrOf result (Full count)
            → IsNew self.old.texts text.now × (count ≡ self.old.limit)
            × (length self.old.texts ≡ self.old.limit) }
        ensures at_limit { IsNew self.old.texts text.now → length self.old.texts ≡ self.old.limit
            → IsErrOf result (Full self.old.limit) }
    {
        let hash = self.index.hash(text);
        let newest = match self.index.find_in(&self.texts, hash, text) {
            Ok(number) => return Ok(number),
            Err(newest) => newest,
        };
        let count = self.texts.len();
        if count >= self.limit {
            return Err(BookRefusal::Full { count });
        }
        self.index.make_room(1)?;
        self.texts.push(text)?;
        self.index.link(hash, newest);
        Ok(count)
    }

    /// Takes the last text away. Takes no memory.
    fn pop(&mut self)
        requires { 0 < length self.old.texts }
        ensures texts { self.new.texts ≡ take (length self.old.texts - 1) self.old.texts }
        ensures limit { self.new.limit ≡ self.old.limit }
    {
        let last = self.texts.len() - 1;
        let hash = self.index.hash(self.texts.at(last));
        self.index.unlink(hash);
        self.texts.pop();
    }

    /// Keeps the first texts, as many as this, and takes those behind them away. Takes no memory.
    pub fn truncate(&mut self, count: u32)
        ensures texts { self.new.texts ≡ take count self.old.texts }
        ensures limit { self.new.limit ≡ self.old.limit }
    {
        while self.len() > count {
            self.pop();
        }
    }

    /// The texts from this number on.
    pub fn copy_from(&self, number: u32) -> Result<TextList, AllocError>
        requires { number ≤ length self.now.texts }
        ensures { IfOk result (λ texts. texts ≡ drop number self.now.texts) }
    {
        self.texts.copy_from(self.alloc, number)
    }
}
