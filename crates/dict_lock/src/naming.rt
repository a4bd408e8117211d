//! Naming texts: those that the cache holds without a turn, the others in one turn.
ghost use Rattle.std.specs.Prelude.{◌≡◌, ◌≢◌, ◌+◌, ◌≤◌, ℕ, List, [], length, vec_capacity, slice_get, Some, IfOk, OnOk, OnErr, MatchBool, IsErrOf, All};
ghost use Rattle.turn_lock.specs.Words.{seen, number_of, IsReady};
ghost use Rattle.dict_core.specs.Books.{Names};
ghost use Rattle.plain_list.specs.Texts.{IsNew};
ghost use Rattle.dict_core.specs.Fair.{IsFair};
ghost use Rattle.dict_core.specs.declared.refusals.BookRefusal.TheVariants.{Full};
ghost use Rattle.dict_lock.specs.Cache.{GrowsBy, Remembers, HoldsAll, HoldsFront, Keeps, IsSeen, StaysSeen};
ghost use Rattle.dict_lock.specs.Naming.{AreNumbers, NamesMore, MeetsLimit};
ghost use Rattle.dict_lock.specs.StepsOfNaming.{HasNoMark, IsMarked, FoundAll, Grows, KnowsMore, NamesFront, AddsAmong, IsRefusedAt, IsRefusedTo};

use crate::cache::Cache;
use crate::texts::TextSlice;
use dict_core::{Book, BookRefusal, NO_NUMBER};
use std::alloc::AllocError;
use std::sync::Wait;
use std::sync::ledger::Ledger;
use step_count::Steps;
use turn_lock::Pass;

/// The mark of a text that the cache does not hold. No text has this number: a book has fewer.
pub(crate) const UNKNOWN: u32 = NO_NUMBER;

/// Whether none of the numbers is a mark.
fn has_no_mark(numbers: &[u32]) -> bool
    ensures { MatchBool result (HasNoMark numbers.now)
        ((k : ℕ) × (slice_get numbers.now k ≡ Some UNKNOWN)) }
{
    !numbers.contains(&UNKNOWN)
}

/// The numbers of the texts that the cache holds, and a mark for each of the others. Whether it
/// holds them all.
///
/// Their places in the cache are looked up first, and then the numbers at those.
pub(crate) fn look_up<T: TextSlice>(cache: &Cache, texts: &T, numbers: &mut Vec<u32>) -> bool
    requires empty { numbers.old.items ≡ [] }
    requires room { length (T.texts texts.now) ≤ vec_capacity numbers.old }
    ensures marked { IsMarked (Remembers cache.now) numbers.new.items (T.texts texts.now) }
    ensures all { MatchBool result (FoundAll cache.now numbers.new.items (T.texts texts.now))
        (¬ HoldsAll cache.now (T.texts texts.now)) }
{
    cache.places_of(texts, numbers);
    let all = has_no_mark(numbers.as_slice());
    cache.numbers_at(texts, numbers);
    all
}

/// The number of a text in the book, where it is not the known one.
fn name_one(book: &mut Book, known: u32, text: &[u8]) -> Result<u32, BookRefusal>
    requires { known ≢ UNKNOWN → slice_get book.old.texts known ≡ Some text.now }
    ensures ok { IfOk result (λ n. Names book.old book.new text.now n) }
    ensures err { OnErr result (book.new ≡ book.old) }
    ensures full { (count : ℕ) → IsErrOf result (Full count)
        → IsNew book.old.texts text.now × (count ≡ book.old.limit)
        × (length book.old.texts ≡ book.old.limit) }
{
    if known != UNKNOWN {
        return Ok(known);
    }
    book.intern(text)
}

/// Names the texts that are marked, in order. At a refusal the numbers end before the text that was
/// refused.
fn name_each<T: TextSlice>(
    book: &mut Book,
    texts: &T,
    numbers: &mut Vec<u32>,
) -> Result<(), BookRefusal>
    requires { IsMarked (λ text n. slice_get book.old.texts n ≡ Some text) numbers.old.items
        (T.texts texts.now) }
    ensures added { AddsAmong book.old book.new (T.texts texts.now) }
    ensures named { NamesFront book.new.texts numbers.new.items (T.texts texts.now) }
    ensures ok { OnOk result (length numbers.new.items ≡ length (T.texts texts.now)) }
    ensures full { (count : ℕ) → IsErrOf result (Full count)
        → IsRefusedAt book.new (T.texts texts.now) (length numbers.new.items) count }
{
    for place in 0..texts.count() {
        match name_one(book, numbers[place], texts.at(place)) {
            Ok(number) => numbers[place] = number,
            Err(refusal) => {
                numbers.truncate(place);
                return Err(refusal);
            }
        }
    }
    Ok(())
}

/// Names the texts that are marked in one turn.
fn name_marked<T: TextSlice, R: Wait, L: Ledger>(
    pass: &mut Pass<'_, Book>,
    rt: &R,
    texts: &T,
    numbers: &mut Vec<u32>,
    turns: &mut Steps<L>,
) -> Result<(), BookRefusal>
    requires ready { IsReady pass.old }
    requires fair { All (IsFair (number_of pass.old)) (T.texts texts.now) }
    requires marked { IsMarked (λ text n. slice_get (seen pass.old) n ≡ Some text) numbers.old.items
        (T.texts texts.now) }
    ensures pass { NamesMore pass.old pass.new (T.texts texts.now) }
    ensures turns { turns.new ≡ turns.old + 1 }
    ensures named { NamesFront (seen pass.new) numbers.new.items (T.texts texts.now) }
    ensures ok { OnOk result (length numbers.new.items ≡ length (T.texts texts.now)) }
    ensures full { (count : ℕ) → IsErrOf result (Full count)
        → IsRefusedTo pass.new (T.texts texts.now) (length numbers.new.items) count }
{
    let mut turn = pass.take(rt, turns);
    let named = name_each(&mut turn.value, texts, numbers);
    turn.put(pass);
    named
}

/// Holds a text with its number from now on. One that was found in the cache is held already.
fn keep_new(cache: &mut Cache, found: u32, text: &[u8], number: u32) -> Result<(), AllocError>
    requires { found ≢ UNKNOWN → Remembers cache.old text.now found }
    ensures kept { Keeps cache.old cache.new }
    ensures held { OnOk result ((n : ℕ) × Remembers cache.new text.now n) }
    ensures seen { StaysSeen cache.old cache.new text.now number }
    ensures grows { GrowsBy cache.old cache.new text.now }
{
    if found != UNKNOWN {
        return Ok(());
    }
    cache.keep(text, number)
}

/// Holds the first of the texts from now on, as many as there are numbers. `found` are the numbers
/// that the cache has, with a mark for each text that it does not hold: only those are new to it.
fn remember<T: TextSlice>(
    cache: &mut Cache,
    texts: &T,
    found: &[u32],
    numbers: &[u32],
) -> Result<(), AllocError>
    requires found { IsMarked (Remembers cache.old) found.now (T.texts texts.now) }
    requires front { length numbers.now ≤ length (T.texts texts.now) }
    ensures kept { Keeps cache.old cache.new }
    ensures grows { Grows cache.old cache.new (T.texts texts.now) }
    ensures seen { (seen : List (List ℕ)) → IsSeen cache.old seen
        → NamesFront seen numbers.now (T.texts texts.now) → IsSeen cache.new seen }
    ensures held { OnOk result (HoldsFront cache.new (T.texts texts.now) (length numbers.now)) }
{
    for place in 0..numbers.len() {
        keep_new(cache, found[place], texts.at(place), numbers[place])?;
    }
    Ok(())
}

/// Names the texts that are marked in one turn, and holds all that were named from then on. `found`
/// are the numbers with their marks, which `numbers` has too.
pub(crate) fn name_in_turn<T: TextSlice, R: Wait, L: Ledger>(
    pass: &mut Pass<'_, Book>,
    cache: &mut Cache,
    rt: &R,
    texts: &T,
    found: &[u32],
    numbers: &mut Vec<u32>,
    turns: &mut Steps<L>,
) -> Result<(), BookRefusal>
    requires ready { IsReady pass.old }
    requires fair { All (IsFair (number_of pass.old)) (T.texts texts.now) }
    requires cache { IsSeen cache.old (seen pass.old) }
    requires marked { IsMarked (Remembers cache.old) numbers.old.items (T.texts texts.now) }
    requires found { found.now ≡ numbers.old.items }

    // whatever the answer
    ensures pass { NamesMore pass.old pass.new (T.texts texts.now) }
    ensures knows { KnowsMore cache.old cache.new (T.texts texts.now) }
    ensures cache { IsSeen cache.new (seen pass.new) }
    ensures turns { turns.new ≡ turns.old + 1 }

    // by the answer
    ensures named { OnOk result (AreNumbers (seen pass.new) numbers.new.items (T.texts texts.now)) }
    ensures held { OnOk result (HoldsAll cache.new (T.texts texts.now)) }
    ensures full { (count : ℕ) → IsErrOf result (Full count)
        → MeetsLimit pass.new cache.new (T.texts texts.now) count }
{
    let named = name_marked(pass, rt, texts, numbers, turns);
    if remember(cache, texts, found, numbers.as_slice()).is_err() {
        return Err(BookRefusal::OutOfMemory);
    }
    named
}
