//! A namer over the passes of two shared books.
ghost use Rattle.std.specs.Prelude.{◌≡◌, ◌<◌, ℕ, IsErrOf};
ghost use Rattle.turn_lock.specs.Words.{number_of};
ghost use Rattle.dict_core.specs.declared.grows.TheConstants.{WORDS_FIRST};
ghost use Rattle.dict_core.specs.declared.refusals.BookRefusal.TheVariants.{Full as book_full};
ghost use Rattle.row_codec.specs.declared.namer.NameRefusal.TheVariants.{Full as name_full};
ghost use Rattle.dict_lock.specs.Cached.{pass_in};

use crate::turns::Turns;
use dict_core::{Book, BookRefusal};
use dict_lock::{CachedPass, LineSpans};
use logtype_text::Span;
use plain_list::{NumberList, TextList};
use row_codec::{NameRefusal, Namer, Which};
use std::alloc::Global;
use std::sync::Wait;
use std::sync::ledger::Ledger;
use turn_lock::{Note, Pass};

/// What a namer's passes have seen, for other passes of the two books to learn.
#[derive(Drop)]
pub struct Notes<'l> {
    /// Of the log types.
    pub types: Note<'l, Book>,
    /// Of the words.
    pub words: Note<'l, Book>,
}

/// A namer's two passes and its counters, at its end.
#[derive(Drop)]
pub struct Passes<'l, A: Ledger, B: Ledger, C: Ledger> {
    /// The pass over the log types.
    pub types: Pass<'l, Book>,
    /// The pass over the words.
    pub words: Pass<'l, Book>,
    /// How many turns were taken.
    pub turns: Turns<A, B, C>,
}

/// A namer's two passes with the texts that they named, and its counters, at its end.
#[derive(Drop)]
pub struct CachedPasses<'l, A: Ledger, B: Ledger, C: Ledger> {
    /// The pass over the log types.
    pub types: CachedPass<'l>,
    /// The pass over the words.
    pub words: CachedPass<'l>,
    /// How many turns were taken.
    pub turns: Turns<A, B, C>,
}

/// It names texts in two shared books, and remembers the numbers that it was given.
#[derive(Drop)]
pub struct LockNamer<'r, 'l, R: Wait, A: Ledger, B: Ledger, C: Ledger> {
    rt: &'r R,
    version: u32,
    types: CachedPass<'l>,
    words: CachedPass<'l>,
    /// How many turns were taken.
    pub turns: Turns<A, B, C>,
    ghost adds_types: { number_of (pass_in types) < WORDS_FIRST },
    ghost adds_words: { WORDS_FIRST < number_of (pass_in words) },
}

// What a namer answers where a book refused a text.
fn refused(book: Which, refusal: BookRefusal) -> NameRefusal
    ensures { (of : _) (count : ℕ) → result ≡ name_full of count
        → (of ≡ book) × (refusal ≡ book_full count) }
{
    match refusal {
        BookRefusal::Full { count } => NameRefusal::Full { book, count },
        BookRefusal::OutOfMemory => NameRefusal::OutOfMemory,
    }
}

impl<'r, 'l, R: Wait, A: Ledger, B: Ledger, C: Ledger> LockNamer<'r, 'l, R, A, B, C> {
    ghost use Rattle.std.specs.Prelude.{◌≡◌, ◌<◌, []};
    ghost use Rattle.turn_lock.specs.History.{HasLearned};
    ghost use Rattle.turn_lock.specs.Words.{lock_of, number_of, own_list, seen, IsReady, StaysAs, IsNoteOf, lock_noted, noted};
    ghost use Rattle.dict_core.specs.declared.grows.TheConstants.{WORDS_FIRST};
    ghost use Rattle.dict_lock.specs.Shared.{GoesOn};
    ghost use Rattle.dict_lock.specs.Cached.{pass_in, cache_of};

    /// A namer for an archive of this version, over a pass that may add log types and one that may add
    /// words. Takes no memory.
    pub fn new(
        rt: &'r R,
        alloc: Global,
        version: u32,
        types: Pass<'l, Book>,
        words: Pass<'l, Book>,
        turns: Turns<A, B, C>,
    ) -> LockNamer<'r, 'l, R, A, B, C>
        requires types { IsReady types × (number_of types < WORDS_FIRST) }
        requires words { IsReady words × (WORDS_FIRST < number_of words) }
        ensures version { result.version ≡ version }
        ensures types { pass_in result.types ≡ types.entry }
        ensures words { pass_in result.words ≡ words.entry }
        ensures caches { ((cache_of result.types).texts ≡ [])
            × ((cache_of result.words).texts ≡ []) }
        ensures turns { result.turns ≡ turns }
    {
        LockNamer {
            rt,
            version,
            types: CachedPass::new(alloc, types),
            words: CachedPass::new(alloc, words),
            turns,
        }
    }

    /// A namer over passes that have named texts already, which it remembers. Takes no memory.
    pub fn with_caches(
        rt: &'r R,
        version: u32,
        types: CachedPass<'l>,
        words: CachedPass<'l>,
        turns: Turns<A, B, C>,
    ) -> LockNamer<'r, 'l, R, A, B, C>
        requires types { number_of (pass_in types) < WORDS_FIRST }
        requires words { WORDS_FIRST < number_of (pass_in words) }
        ensures version { result.version ≡ version }
        ensures types { result.types ≡ types.entry }
        ensures words { result.words ≡ words.entry }
        ensures turns { result.turns ≡ turns }
    {
        LockNamer {
            rt,
            version,
            types,
            words,
            turns,
        }
    }

    /// The version that it was made for.
    pub fn version(&self) -> u32
        ensures { result ≡ self.now.version }
    {
        self.version
    }

    /// Copies of what its passes have seen.
    pub fn notes(&mut self) -> Notes<'l>
        // what stays
        ensures version { self.new.version ≡ self.old.version }
        ensures types { StaysAs (pass_in self.old.types) (pass_in self.new.types) }
        ensures words { StaysAs (pass_in self.old.words) (pass_in self.new.words) }
        ensures caches { (cache_of self.new.types ≡ cache_of self.old.types)
            × (cache_of self.new.words ≡ cache_of self.old.words) }
        ensures turns { self.new.turns ≡ self.old.turns }

        // the answer
        ensures noted { IsNoteOf (pass_in self.old.types) result.types
            × IsNoteOf (pass_in self.old.words) result.words }
    {
        let types = self.types.note();
        let words = self.words.note();
        Notes { types, words }
    }

    /// Learns notes of the same two books.
    pub fn join(&mut self, notes: Notes<'_>)
        requires types { lock_noted notes.types ≡ lock_of (pass_in self.old.types) }
        requires words { lock_noted notes.words ≡ lock_of (pass_in self.old.words) }

        // what stays
        ensures version { self.new.version ≡ self.old.version }
        ensures own { (own_list (pass_in self.new.types) ≡ own_list (pass_in self.old.types))
            × (own_list (pass_in self.new.words) ≡ own_list (pass_in self.old.words)) }
        ensures caches { (cache_of self.new.types ≡ cache_of self.old.types)
            × (cache_of self.new.words ≡ cache_of self.old.words) }
        ensures turns { self.new.turns ≡ self.old.turns }

        // what is seen
        ensures types { GoesOn (pass_in self.old.types) (pass_in self.new.types)
            × HasLearned (seen (pass_in self.old.types)) (noted notes.entry.types)
            (seen (pass_in self.new.types)) }
        ensures words { GoesOn (pass_in self.old.words) (pass_in self.new.words)
            × HasLearned (seen (pass_in self.old.words)) (noted notes.entry.words)
            (seen (pass_in self.new.words)) }
    {
        let Notes { types, words } = notes;
        self.types.join(types);
        self.words.join(words);
    }

    /// Its passes with the texts that they named, and its counters.
    pub fn into_caches(self) -> CachedPasses<'l, A, B, C>
        ensures types { result.types ≡ self.entry.types }
        ensures words { result.words ≡ self.entry.words }
        ensures turns { result.turns ≡ self.entry.turns }
    {
        let LockNamer {
            rt: _,
            version: _,
            types,
            words,
            turns,
        } = self;
        CachedPasses {
            types,
            words,
            turns,
        }
    }

    /// Its passes and counters.
    pub fn into_passes(self) -> Passes<'l, A, B, C>
        ensures types { result.types ≡ pass_in self.entry.types }
        ensures words { result.words ≡ pass_in self.entry.words }
        ensures turns { result.turns ≡ self.entry.turns }
        ensures ready { IsReady result.types × IsReady result.words }
    {
        let LockNamer {
            rt: _,
            version: _,
            types,
            words,
            turns,
        } = self;
        Passes {
            types: types.into_pass(),
            words: words.into_pass(),
            turns,
        }
    }
}

impl<R: Wait, A: Ledger, B: Ledger, C: Ledger> Namer for LockNamer<'_, '_, R, A, B, C> {
    ghost use Rattle.std.specs.Prelude.{◌≡◌, ℕ, [], ◌∷◌, All, IfOk, IsErrOf, OnOk, Some, slice_get};
    ghost use Rattle.std.specs.List.{Contains};
    ghost use Rattle.logtype_text.specs.Encoded.{AreWithin, texts_at};
    ghost use Rattle.logtype_text.specs.Fair.{IsFairType, IsFairWord};
    ghost use Rattle.turn_lock.specs.Words.{seen};
    ghost use Rattle.row_codec.specs.declared.namer.Which.TheVariants.{Types, Words};
    ghost use Rattle.row_codec.specs.Naming.{AreNumbers, HasGrown, MetLimit, refusal_of};
    ghost use Rattle.dict_lock.specs.Shared.{GoesOn};
    ghost use Rattle.dict_lock.specs.Cached.{pass_in};
    ghost use Rattle.disk_seal.specs.Known.{known_of};
    ghost use Rattle.disk_seal.specs.Naming.{NamesIn};

    ghost types = { λ n. known_of (pass_in n.types) };

    ghost words = { λ n. known_of (pass_in n.words) };

    ghost version = { λ n. n.version };

    ghost naming = { NamesIn };

    fn micro(&self) -> bool {
        self.version >= 3
    }

    fn name_type(&mut self, text: &[u8]) -> Result<u32, NameRefusal>
        requires { IsFairType text.now }
        ensures others { (self.new.version ≡ self.old.version)
            × (pass_in self.new.words ≡ pass_in self.old.words) }
        ensures grown { HasGrown (λ t. t ≡ text.now) (known_of (pass_in self.old.types))
            (known_of (pass_in self.new.types)) }
        ensures named { IfOk result (λ n.
            slice_get (seen (pass_in self.new.types)) n ≡ Some text.now) }
        ensures full { (book : _) (count : ℕ) → IsErrOf result (name_full book count)
            → (book ≡ Types) × MetLimit (known_of (pass_in self.new.types)) (text.now ∷ []) count
            × ((known_of (pass_in self.new.types)).added
            ≡ (known_of (pass_in self.old.types)).added) }
        ensures still { GoesOn (pass_in self.old.types) (pass_in self.new.types) }
        ensures naming { NamesIn Types (text.now ∷ []) (refusal_of result) self.old self.new }
    {
        match self.types.name(self.rt, text, &mut self.turns.types) {
            Ok(number) => Ok(number),
            Err(refusal) => Err(refused(Which::Types, refusal)),
        }
    }

    fn name_words(&mut self, texts: &TextList) -> Result<NumberList, NameRefusal>
        requires { All IsFairWord texts.now }
        ensures others { (self.new.version ≡ self.old.version)
            × (pass_in self.new.types ≡ pass_in self.old.types) }
        ensures grown { HasGrown (Contains texts.now) (known_of (pass_in self.old.words))
            (known_of (pass_in self.new.words)) }
        ensures named { IfOk result (λ ns.
            AreNumbers (seen (pass_in self.new.words)) ns texts.now) }
        ensures full { (book : _) (count : ℕ) → IsErrOf result (name_full book count)
            → (book ≡ Words) × MetLimit (known_of (pass_in self.new.words)) texts.now count }
        ensures still { GoesOn (pass_in self.old.words) (pass_in self.new.words) }
        ensures naming { NamesIn Words texts.now (refusal_of result) self.old self.new }
    {
        match self.words.name_all(self.rt, texts, &mut self.turns.words) {
            Ok(numbers) => Ok(numbers),
            Err(refusal) => Err(refused(Which::Words, refusal)),
        }
    }

    fn name_spans(
        &mut self,
        line: &[u8],
        spans: &[Span],
        numbers: &mut Vec<u32>,
    ) -> Result<(), NameRefusal>
        requires within { AreWithin line.now spans.now }
        requires fair { All IsFairWord (texts_at line.now spans.now) }
        ensures others { (self.new.version ≡ self.old.version)
            × (pass_in self.new.types ≡ pass_in self.old.types) }
        ensures grown { HasGrown (Contains (texts_at line.now spans.now))
            (known_of (pass_in self.old.words)) (known_of (pass_in self.new.words)) }
        ensures named { OnOk result (AreNumbers (seen (pass_in self.new.words)) numbers.new.items
            (texts_at line.now spans.now)) }
        ensures full { (book : _) (count : ℕ) → IsErrOf result (name_full book count)
            → (book ≡ Words) × MetLimit (known_of (pass_in self.new.words))
            (texts_at line.now spans.now) count }
        ensures still { GoesOn (pass_in self.old.words) (pass_in self.new.words) }
        ensures naming { NamesIn Words (texts_at line.now spans.now) (refusal_of result)
            self.old self.new }
    {
        let texts = LineSpans::new(line, spans);
        match self
            .words
            .name_into(self.rt, &texts, numbers, &mut self.turns.words)
        {
            Ok(()) => Ok(()),
            Err(refusal) => Err(refused(Which::Words, refusal)),
        }
    }
}
