//! A pass that remembers the numbers that it was given.
ghost use Rattle.std.specs.Prelude.{◌≡◌, OnOk};
ghost use Rattle.plain_list.specs.Texts.{AreDistinct};
ghost use Rattle.dict_lock.specs.Cache.{IsEven, IsSeen};
ghost use Rattle.turn_lock.specs.Words.{seen, IsReady};

use crate::cache::Cache;
use crate::naming::{look_up, name_in_turn};
use crate::texts::{OneText, TextSlice};
use dict_core::{Book, BookRefusal};
use plain_list::NumberList;
use std::alloc::{AllocError, Global};
use std::sync::Wait;
use std::sync::ledger::Ledger;
use step_count::Steps;
use turn_lock::{Note, Pass};

/// A pass over a shared book, between its turns, and the texts that it named with their numbers.
/// What is held still names its text, since the pass has seen it there.
#[derive(Drop)]
pub struct CachedPass<'l> {
    alloc: Global,
    pass: Pass<'l, Book>,
    cache: Cache,
    /// The numbers that the cache has of the texts that are being named, in memory that is used
    /// again.
    found: Vec<u32>,
    ghost ready: { IsReady pass },
    ghost remembered: { IsSeen cache (seen pass) },
    ghost distinct: { AreDistinct cache.texts },
    ghost even: { IsEven cache },
}

/// Makes a vector these numbers.
fn copy_into(copy: &mut Vec<u32>, numbers: &[u32]) -> Result<(), AllocError>
    ensures { OnOk result (copy.new.items ≡ numbers.now) }
{
    copy.clear();
    copy.extend_from_slice(numbers)?;
    Ok(())
}

impl<'l> CachedPass<'l> {
    ghost use Rattle.std.specs.Prelude.{◌≡◌, ℕ, ◌∷◌, [], slice_get, Some, All};
    ghost use Rattle.std.specs.Prelude.{IfSome, IfNone, IfOk, OnOk, IsOk, IsErrOf};
    ghost use Rattle.turn_lock.specs.History.{HasLearned};
    ghost use Rattle.turn_lock.specs.Words.{lock_of, number_of, own_list, seen, IsReady, StaysAs, IsNoteOf, lock_noted, noted};
    ghost use Rattle.dict_core.specs.Fair.{IsFair};
    ghost use Rattle.dict_core.specs.declared.refusals.BookRefusal.TheVariants.{Full};
    ghost use Rattle.dict_lock.specs.Cache.{Remembers, HoldsAll, Keeps};
    ghost use Rattle.dict_lock.specs.Shared.{GoesOn};
    ghost use Rattle.dict_lock.specs.Naming.{AreNumbers, Learns, NamesMore, MeetsLimit, TakesOneTurn};
    ghost use Rattle.dict_lock.specs.Cached.{pass_in, cache_of};

    /// The pass with a cache that holds nothing yet. Takes no memory.
    pub fn new(alloc: Global, pass: Pass<'l, Book>) -> CachedPass<'l>
        requires { IsReady pass }
        ensures pass { pass_in result ≡ pass.entry }
        ensures cache { (cache_of result).texts ≡ [] }
    {
        CachedPass {
            alloc,
            pass,
            cache: Cache::new(alloc),
            found: Vec::new(alloc),
        }
    }

    /// The number of a text, exactly where the cache holds it. Takes no memory and no turn.
    pub fn knows(&self, text: &[u8]) -> Option<u32>
        ensures held { IfSome result (Remembers (cache_of self.now) text.now) }
        ensures seen { IfSome result (λ n. slice_get (seen (pass_in self.now)) n ≡ Some text.now) }
        ensures none { IfNone result ((n : ℕ) → ¬ Remembers (cache_of self.now) text.now n) }
    {
        self.cache.number_of(text)
    }

    /// A copy of what the pass has seen.
    pub fn note(&mut self) -> Note<'l, Book>
        ensures pass { StaysAs (pass_in self.old) (pass_in self.new) }
        ensures cache { cache_of self.new ≡ cache_of self.old }
        ensures note { IsNoteOf (pass_in self.old) result }
    {
        self.pass.note()
    }

    /// Learns a note of the same book.
    pub fn join(&mut self, note: Note<'_, Book>)
        requires { lock_noted note ≡ lock_of (pass_in self.old) }
        ensures pass { GoesOn (pass_in self.old) (pass_in self.new) }
        ensures learned { HasLearned (seen (pass_in self.old)) (noted note.entry)
            (seen (pass_in self.new)) }
        ensures own { own_list (pass_in self.new) ≡ own_list (pass_in self.old) }
        ensures cache { cache_of self.new ≡ cache_of self.old }
    {
        self.pass.join(note);
    }

    /// The pass alone.
    pub fn into_pass(self) -> Pass<'l, Book>
        ensures pass { result ≡ pass_in self.entry }
        ensures ready { IsReady result }
    {
        self.pass
    }

    /// The numbers of some texts, in place of what `numbers` held. It takes no turn where the cache
    /// holds them all, and else one, in which those that it does not hold are named in order. After
    /// a refusal what `numbers` holds is left open.
    ///
    /// # Errors
    ///
    /// [`BookRefusal::Full`] where the book does not have one of the texts and its limit is reached,
    /// or [`BookRefusal::OutOfMemory`]. What was named before stays named.
    pub fn name_into<T: TextSlice, R: Wait, L: Ledger>(
        &mut self,
        rt: &R,
        texts: &T,
        numbers: &mut Vec<u32>,
        turns: &mut Steps<L>,
    ) -> Result<(), BookRefusal>
        requires { All (IsFair (number_of (pass_in self.old))) (T.texts texts.now) }

        // whatever the answer
        ensures pass { NamesMore (pass_in self.old) (pass_in self.new) (T.texts texts.now) }
        ensures cache { Keeps (cache_of self.old) (cache_of self.new) }
        ensures turns { TakesOneTurn (HoldsAll (cache_of self.old) (T.texts texts.now))
            (IsOk result) turns.old turns.new }
        ensures learned { Learns (IsOk result) (cache_of self.old) (cache_of self.new)
            (T.texts texts.now) turns.old turns.new }

        // by the answer
        ensures named { OnOk result (AreNumbers (seen (pass_in self.new)) numbers.new.items
            (T.texts texts.now)) }
        ensures held { OnOk result (HoldsAll (cache_of self.new) (T.texts texts.now)) }
        ensures full { (count : ℕ) → IsErrOf result (Full count)
            → MeetsLimit (pass_in self.new) (cache_of self.new) (T.texts texts.now) count }
    {
        numbers.clear();
        numbers.reserve(texts.count())?;
        if look_up(&self.cache, texts, numbers) {
            return Ok(());
        }
        copy_into(&mut self.found, numbers.as_slice())?;
        name_in_turn(
            &mut self.pass,
            &mut self.cache,
            rt,
            texts,
            self.found.as_slice(),
            numbers,
            turns,
        )
    }

    /// The same in a list of its own.
    pub fn name_all<T: TextSlice, R: Wait, L: Ledger>(
        &mut self,
        rt: &R,
        texts: &T,
        turns: &mut Steps<L>,
    ) -> Result<NumberList, BookRefusal>
        requires { All (IsFair (number_of (pass_in self.old))) (T.texts texts.now) }

        // whatever the answer
        ensures pass { NamesMore (pass_in self.old) (pass_in self.new) (T.texts texts.now) }
        ensures cache { Keeps (cache_of self.old) (cache_of self.new) }
        ensures turns { TakesOneTurn (HoldsAll (cache_of self.old) (T.texts texts.now))
            (IsOk result) turns.old turns.new }
        ensures learned { Learns (IsOk result) (cache_of self.old) (cache_of self.new)
            (T.texts texts.now) turns.old turns.new }

        // by the answer
        ensures named { IfOk result (λ ns. AreNumbers (seen (pass_in self.new)) ns
            (T.texts texts.now)) }
        ensures held { OnOk result (HoldsAll (cache_of self.new) (T.texts texts.now)) }
        ensures full { (count : ℕ) → IsErrOf result (Full count)
            → MeetsLimit (pass_in self.new) (cache_of self.new) (T.texts texts.now) count }
    {
        let mut numbers = Vec::new(self.alloc);
        match self.name_into(rt, texts, &mut numbers, turns) {
            Ok(()) => Ok(NumberList::new(numbers)),
            Err(refusal) => Err(refusal),
        }
    }

    /// The number of one text, without a turn where the cache holds it.
    pub fn name<R: Wait, L: Ledger>(
        &mut self,
        rt: &R,
        text: &[u8],
        turns: &mut Steps<L>,
    ) -> Result<u32, BookRefusal>
        requires { IsFair (number_of (pass_in self.old)) text.now }

        // whatever the answer
        ensures pass { NamesMore (pass_in self.old) (pass_in self.new) (text.now ∷ []) }
        ensures cache { Keeps (cache_of self.old) (cache_of self.new) }
        ensures turns { TakesOneTurn (HoldsAll (cache_of self.old) (text.now ∷ [])) (IsOk result)
            turns.old turns.new }
        ensures learned { Learns (IsOk result) (cache_of self.old) (cache_of self.new)
            (text.now ∷ []) turns.old turns.new }

        // by the answer
        ensures named { IfOk result (λ n. slice_get (seen (pass_in self.new)) n ≡ Some text.now) }
        ensures held { OnOk result (HoldsAll (cache_of self.new) (text.now ∷ [])) }
        ensures full { (count : ℕ) → IsErrOf result (Full count)
            → MeetsLimit (pass_in self.new) (cache_of self.new) (text.now ∷ []) count }
    {
        if let Some(number) = self.cache.number_of(text) {
            return Ok(number);
        }
        match self.name_all(rt, &OneText { text }, turns) {
            Ok(numbers) => Ok(numbers.as_slice()[0]),
            Err(refusal) => Err(refusal),
        }
    }
}
