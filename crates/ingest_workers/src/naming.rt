//! A namer whose passes stay what they are.
ghost use Rattle.std.specs.Prelude.{◌≡◌, ◌≤◌, ◌↔◌, ◌∷◌, [], ℕ, All, List, Option, Some, length, IfOk, IsErrOf, IsTrue, OnOk, slice_get};
ghost use Rattle.std.specs.List.{Contains};
ghost use Rattle.logtype_text.specs.Encoded.{AreWithin, texts_at};
ghost use Rattle.logtype_text.specs.Fair.{IsFairType, IsFairWord};
ghost use Rattle.turn_lock.specs.Words.{about, lock_of, number_of, seen};
ghost use Rattle.dict_lock.specs.Shared.{BookPass, GoesOn};
ghost use Rattle.row_codec.specs.declared.TheConstants.{MAX_MESSAGE_LEN};
ghost use Rattle.row_codec.specs.declared.namer.NameRefusal.TheVariants.{Full as name_full};
ghost use Rattle.row_codec.specs.declared.namer.NameRefusal.{NameRefusal};
ghost use Rattle.row_codec.specs.declared.namer.Which.{Which};
ghost use Rattle.row_codec.specs.declared.namer.Which.TheVariants.{Types, Words};
ghost use Rattle.row_codec.specs.Naming.{AreNumbers, HasGrown, MetLimit, refusal_of};
ghost use Rattle.disk_seal.specs.Known.{known_of};
ghost use Rattle.ingest_workers.specs.Adding.{AddsMessage, BothStill, KnowsMore};
ghost use Rattle.ingest_workers.specs.Full.{books_by};
ghost use Rattle.ingest_workers.specs.OpenSegment.{HasRoom};
ghost use Rattle.ingest_workers.specs.NamerKeys.{HasKey, PassKey, no_key};
ghost use Rattle.ingest_workers.specs.Turns.{MayAsk, stop_in};

use crate::file_end::FileEnd;
use crate::open_segment::OpenSegment;
use disk_seal::LockNamer;
use logtype_text::Span;
use plain_list::{NumberList, TextList};
use row_codec::{NameRefusal, Namer};
use std::marker::{Brand, PhantomData};
use std::sync::Wait;
use std::sync::ledger::Ledger;

/// A namer over a pass of each of two shared books, which tells that naming leaves the passes what
/// they are.
pub(crate) trait PassNamer {
    /// The pass over the log types.
    ghost types: { Self → BookPass };

    /// The pass over the words.
    ghost words: { Self → BookPass };

    /// The archive's version.
    ghost version: { Self → ℕ };

    /// As that of [`Namer`].
    ghost naming: { Which → List (List ℕ) → Option NameRefusal → Self → Self → Type 0 };

    /// As [`Namer::micro`].
    fn is_micro(&self) -> bool
        ensures { IsTrue result ↔ (3 ≤ version self.now) };

    /// As [`Namer::name_type`].
    fn number_type(&mut self, text: &[u8]) -> Result<u32, NameRefusal>
        requires { IsFairType text.now }
        ensures others { (version self.new ≡ version self.old) × (words self.new ≡ words self.old) }
        ensures grown { HasGrown (λ t. t ≡ text.now) (known_of (types self.old))
            (known_of (types self.new)) }
        ensures still { GoesOn (types self.old) (types self.new) }
        ensures naming { naming Types (text.now ∷ []) (refusal_of result) self.old self.new }
        ensures named { IfOk result (λ n. slice_get (seen (types self.new)) n ≡ Some text.now) }
        ensures full { (book : _) (count : ℕ) → IsErrOf result (name_full book count)
            → (book ≡ Types) × MetLimit (known_of (types self.new)) (text.now ∷ []) count
            × ((known_of (types self.new)).added ≡ (known_of (types self.old)).added) };

    /// As [`Namer::name_words`].
    fn number_words(&mut self, texts: &TextList) -> Result<NumberList, NameRefusal>
        requires { All IsFairWord texts.now }
        ensures others { (version self.new ≡ version self.old) × (types self.new ≡ types self.old) }
        ensures grown { HasGrown (Contains texts.now) (known_of (words self.old))
            (known_of (words self.new)) }
        ensures still { GoesOn (words self.old) (words self.new) }
        ensures naming { naming Words texts.now (refusal_of result) self.old self.new }
        ensures named { IfOk result (λ ns. AreNumbers (seen (words self.new)) ns texts.now) }
        ensures full { (book : _) (count : ℕ) → IsErrOf result (name_full book count)
            → (book ≡ Words) × MetLimit (known_of (words self.new)) texts.now count };

    /// As [`Namer::name_spans`].
    fn number_spans(
        &mut self,
        line: &[u8],
        spans: &[Span],
        numbers: &mut Vec<u32>,
    ) -> Result<(), NameRefusal>
        requires within { AreWithin line.now spans.now }
        requires fair { All IsFairWord (texts_at line.now spans.now) }
        ensures others { (version self.new ≡ version self.old) × (types self.new ≡ types self.old) }
        ensures grown { HasGrown (Contains (texts_at line.now spans.now))
            (known_of (words self.old))
            (known_of (words self.new)) }
        ensures still { GoesOn (words self.old) (words self.new) }
        ensures naming { naming Words (texts_at line.now spans.now) (refusal_of result)
            self.old self.new }
        ensures named { OnOk result (AreNumbers (seen (words self.new)) numbers.new.items
            (texts_at line.now spans.now)) }
        ensures full { (book : _) (count : ℕ) → IsErrOf result (name_full book count)
            → (book ≡ Words)
            × MetLimit (known_of (words self.new)) (texts_at line.now spans.now) count };
}

impl<R: Wait, A: Ledger, B: Ledger, C: Ledger> PassNamer for LockNamer<'_, '_, R, A, B, C> {
    ghost use Rattle.dict_lock.specs.Cached.{pass_in};
    ghost use Rattle.disk_seal.specs.Naming.{NamesIn};

    ghost types = { λ n. pass_in n.types };

    ghost words = { λ n. pass_in n.words };

    ghost version = { λ n. n.version };

    ghost naming = { NamesIn };

    fn is_micro(&self) -> bool {
        self.micro()
    }

    fn number_type(&mut self, text: &[u8]) -> Result<u32, NameRefusal> {
        self.name_type(text)
    }

    fn number_words(&mut self, texts: &TextList) -> Result<NumberList, NameRefusal> {
        self.name_words(texts)
    }

    fn number_spans(
        &mut self,
        line: &[u8],
        spans: &[Span],
        numbers: &mut Vec<u32>,
    ) -> Result<(), NameRefusal> {
        self.name_spans(line, spans, numbers)
    }
}

/// Which namer was lent and what of its passes stays, for contracts alone.
pub(crate) trait NamerKeys {
    ghost name: { ℕ };

    ghost types: { PassKey };

    ghost words: { PassKey };
}

impl NamerKeys for Brand {
    ghost name = { 0 };

    ghost types = { no_key };

    ghost words = { no_key };
}

/// A namer that is lent, whose passes stay those of the keys: a call that is generic in its namer
/// tells nothing of the passes behind it, and this type does.
#[derive(Drop)]
struct FixedNamer<'n, N: PassNamer, K: NamerKeys> {
    namer: &'n mut N,
    of: PhantomData<K>,
    ghost same: { namer.ghost_name ≡ K.name },
    ghost types: { lock_of (N.types namer.now) ≡ K.types.lock },
    ghost words: { lock_of (N.words namer.now) ≡ K.words.lock },
    ghost types_number: { number_of (N.types namer.now) ≡ K.types.number },
    ghost words_number: { number_of (N.words namer.now) ≡ K.words.number },
    ghost types_about: { about (N.types namer.now) ≡ K.types.about },
    ghost words_about: { about (N.words namer.now) ≡ K.words.about },
}

impl<N: PassNamer, K: NamerKeys> Namer for FixedNamer<'_, N, K> {
    ghost use Rattle.disk_seal.specs.Known.{known_of};

    ghost types = { λ k. known_of (N.types k.namer.now) };

    ghost words = { λ k. known_of (N.words k.namer.now) };

    ghost version = { λ k. N.version k.namer.now };

    ghost naming = { λ book texts refusal k l.
        N.naming book texts refusal k.namer.now l.namer.now };

    fn micro(&self) -> bool {
        self.namer.is_micro()
    }

    fn name_type(&mut self, text: &[u8]) -> Result<u32, NameRefusal> {
        self.namer.number_type(text)
    }

    fn name_words(&mut self, texts: &TextList) -> Result<NumberList, NameRefusal> {
        self.namer.number_words(texts)
    }

    fn name_spans(
        &mut self,
        line: &[u8],
        spans: &[Span],
        numbers: &mut Vec<u32>,
    ) -> Result<(), NameRefusal> {
        self.namer.number_spans(line, spans, numbers)
    }
}

/// A namer that is lent, and so given back as it was lent: a bare reference that goes through a
/// function loses its name in contracts.
#[derive(Drop)]
struct LentNamer<'n, N> {
    namer: &'n mut N,
}

/// The namer, with its passes as they are.
fn keep<'n, N: PassNamer, K: NamerKeys>(lent: LentNamer<'n, N>) -> FixedNamer<'n, N, K>
    requires name { lent.namer.ghost_name ≡ K.name }
    requires types { HasKey K.types (N.types lent.namer.now) }
    requires words { HasKey K.words (N.words lent.namer.now) }
    ensures name { result.namer.ghost_name ≡ lent.entry.namer.ghost_name }
    ensures now { result.namer.now ≡ lent.entry.namer.now }
{
    let LentNamer { namer } = lent;
    FixedNamer {
        namer,
        of: PhantomData,
    }
}

/// Adds a message to the open segment by a namer that is lent at these keys.
fn add_by_keys<'n, N: PassNamer, K: NamerKeys>(
    segment: &mut OpenSegment,
    line: &[u8],
    lent: LentNamer<'n, N>,
) -> (Result<(), FileEnd>, LentNamer<'n, N>)
    requires name { lent.namer.ghost_name ≡ K.name }
    requires keys { HasKey K.types (N.types lent.namer.now)
        × HasKey K.words (N.words lent.namer.now) }
    requires short { length line.now ≤ MAX_MESSAGE_LEN }
    requires room { HasRoom segment.old }

    // what stays of the namer, and what it has learned
    ensures back { result.1.namer.ghost_name ≡ lent.entry.namer.ghost_name }
    ensures version { N.version result.1.namer.now ≡ N.version lent.entry.namer.now }
    ensures passes { BothStill (N.types lent.entry.namer.now) (N.types result.1.namer.now)
        (N.words lent.entry.namer.now) (N.words result.1.namer.now) }
    ensures known { KnowsMore (N.version lent.entry.namer.now) line.now
        (books_by (N.types lent.entry.namer.now) (N.words lent.entry.namer.now))
        (books_by (N.types result.1.namer.now) (N.words result.1.namer.now)) }
    ensures asked { MayAsk N.naming (N.version lent.entry.namer.now) line.now (stop_in result.0)
        lent.entry.namer.now result.1.namer.now }

    // what came of the segment
    ensures added { AddsMessage (N.version lent.entry.namer.now) line.now
        (books_by (N.types lent.entry.namer.now) (N.words lent.entry.namer.now))
        (books_by (N.types result.1.namer.now) (N.words result.1.namer.now))
        segment.old segment.new result.0 }
{
    let mut kept = keep::<N, K>(lent);
    let answer = segment.add(line, &mut kept);
    let FixedNamer { namer, of: _ } = kept;
    (answer, LentNamer { namer })
}

/// Adds a message to the open segment by a worker's namer, whose passes stay what they are.
///
/// # Errors
///
/// Those of [`OpenSegment::add`].
pub(crate) fn add_message<N: PassNamer>(
    segment: &mut OpenSegment,
    line: &[u8],
    namer: &mut N,
) -> Result<(), FileEnd>
    requires short { length line.now ≤ MAX_MESSAGE_LEN }
    requires room { HasRoom segment.old }

    // what stays of the namer, and what it has learned
    ensures version { N.version namer.new ≡ N.version namer.old }
    ensures passes { BothStill (N.types namer.old) (N.types namer.new)
        (N.words namer.old) (N.words namer.new) }
    ensures known { KnowsMore (N.version namer.old) line.now
        (books_by (N.types namer.old) (N.words namer.old))
        (books_by (N.types namer.new) (N.words namer.new)) }
    ensures asked { MayAsk N.naming (N.version namer.old) line.now (stop_in result)
        namer.old namer.new }

    // what came of the segment
    ensures added { AddsMessage (N.version namer.old) line.now
        (books_by (N.types namer.old) (N.words namer.old))
        (books_by (N.types namer.new) (N.words namer.new)) segment.old segment.new result }
{
    let (answer, lent) = add_by_keys::<N, Brand>(segment, line, LentNamer { namer });
    let LentNamer { namer: _back } = lent;
    answer
}
