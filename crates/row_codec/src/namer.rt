//! Giving texts their numbers.
ghost use Rattle.std.specs.Prelude.{◌≡◌, ℕ, ◌≤◌, ◌↔◌, List, [], ◌∷◌, All, IfOk, IsErrOf, IsTrue, OnOk, Option, Some, slice_get};
ghost use Rattle.std.specs.List.{Contains};
ghost use Rattle.logtype_text.specs.Encoded.{AreWithin, texts_at};
ghost use Rattle.logtype_text.specs.Fair.{IsFairType, IsFairWord};
ghost use Rattle.row_codec.specs.declared.namer.NameRefusal.{NameRefusal};
ghost use Rattle.row_codec.specs.declared.namer.NameRefusal.TheVariants.{OutOfMemory};
ghost use Rattle.row_codec.specs.declared.namer.Which.{Which};
ghost use Rattle.row_codec.specs.declared.namer.Which.TheVariants.{Types, Words};
ghost use Rattle.row_codec.specs.Naming.{AreNumbers, HasGrown, Known, MetLimit, refusal_of};

use logtype_text::Span;
use plain_list::{NumberList, TextList};
use std::alloc::{AllocError, AllocFailed};
use thiserror::Error;

/// One of an archive's two dictionaries.
#[derive(Clone, Copy, Debug, PartialEq, Eq)]
pub enum Which {
    /// The texts of log types.
    Types,
    /// The words of variables.
    Words,
}

/// Why a text got no number.
#[derive(Clone, Copy, Debug, PartialEq, Eq, Error)]
pub enum NameRefusal {
    /// The text is new, and the dictionary has as many texts as it may.
    #[error("a dictionary is full at {count}")]
    Full {
        /// The dictionary.
        book: Which,
        /// How many texts it has, which is its limit.
        count: u32,
    },
    /// Memory ran out.
    #[error("out of memory")]
    OutOfMemory,
}

impl From<AllocError> for NameRefusal {
    ghost from_gives = { λ _ e. e ≡ OutOfMemory };

    fn from(_error: AllocError) -> NameRefusal {
        NameRefusal::OutOfMemory
    }
}

impl<T: Drop> From<AllocFailed<T>> for NameRefusal {
    ghost from_gives = { λ _ e. e ≡ OutOfMemory };

    fn from(_error: AllocFailed<T>) -> NameRefusal {
        NameRefusal::OutOfMemory
    }
}

/// What gives texts their numbers in the two dictionaries of an archive.
///
/// Others may add texts too: a namer knows the texts of a dictionary up to some number, and those
/// keep their numbers.
pub trait Namer {
    /// What is known of the log types.
    ghost types: { Self → Known };

    /// What is known of the words.
    ghost words: { Self → Known };

    /// The archive's version.
    ghost version: { Self → ℕ };

    /// What else it does to the namer that these texts of a dictionary are named, or that one of
    /// them is refused.
    ghost naming: { Which → List (List ℕ) → Option NameRefusal → Self → Self → Type 0 };

    /// Whether moments count microseconds: in version 3.
    fn micro(&self) -> bool
        ensures { IsTrue result ↔ (3 ≤ version self.now) };

    /// The number of a log type, which is added where it is new.
    fn name_type(&mut self, text: &[u8]) -> Result<u32, NameRefusal>
        requires { IsFairType text.now }

        // What stays and what grows.
        ensures others { (version self.new ≡ version self.old) × (words self.new ≡ words self.old) }
        ensures grown { HasGrown (λ t. t ≡ text.now) (types self.old) (types self.new) }
        ensures naming { naming Types (text.now ∷ []) (refusal_of result) self.old self.new }

        // The answers.
        ensures named { IfOk result (λ n. slice_get (types self.new).texts n ≡ Some text.now) }
        ensures full { (book : _) (count : ℕ) → IsErrOf result (NameRefusal.Full book count)
            → (book ≡ Types) × MetLimit (types self.new) (text.now ∷ []) count
            × ((types self.new).added ≡ (types self.old).added) };

    /// The numbers of words, from left to right, each of which is added where it is new. Those before
    /// one that is refused stay named.
    fn name_words(&mut self, texts: &TextList) -> Result<NumberList, NameRefusal>
        requires { All IsFairWord texts.now }

        // What stays and what grows.
        ensures others { (version self.new ≡ version self.old) × (types self.new ≡ types self.old) }
        ensures grown { HasGrown (Contains texts.now) (words self.old) (words self.new) }
        ensures naming { naming Words texts.now (refusal_of result) self.old self.new }

        // The answers.
        ensures named { IfOk result (λ ns. AreNumbers (words self.new).texts ns texts.now) }
        ensures full { (book : _) (count : ℕ) → IsErrOf result (NameRefusal.Full book count)
            → (book ≡ Words) × MetLimit (words self.new) texts.now count };

    /// The same for words that stand at these places of a line. Their numbers take the place of what
    /// `numbers` held; after a refusal what it holds is left open.
    fn name_spans(
        &mut self,
        line: &[u8],
        spans: &[Span],
        numbers: &mut Vec<u32>,
    ) -> Result<(), NameRefusal>
        requires within { AreWithin line.now spans.now }
        requires fair { All IsFairWord (texts_at line.now spans.now) }

        // What stays and what grows.
        ensures others { (version self.new ≡ version self.old) × (types self.new ≡ types self.old) }
        ensures grown { HasGrown (Contains (texts_at line.now spans.now))
            (words self.old) (words self.new) }
        ensures naming { naming Words (texts_at line.now spans.now) (refusal_of result)
            self.old self.new }

        // The answers.
        ensures named { OnOk result (AreNumbers (words self.new).texts numbers.new.items
            (texts_at line.now spans.now)) }
        ensures full { (book : _) (count : ℕ) → IsErrOf result (NameRefusal.Full book count)
            → (book ≡ Words) × MetLimit (words self.new) (texts_at line.now spans.now) count };
}
