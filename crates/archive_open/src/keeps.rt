//! How the texts of an archive are kept while it is read.
ghost use Rattle.std.specs.Prelude.{◌≡◌, [], ◌∷◌, ◌++◌, length, IfOk, IsTrue, IsFalse, refl};
ghost use Rattle.record_format.specs.Header.{IsHeader};
ghost use Rattle.archive_open.specs.Kept.{Kept, MayHold, limit_of, none_of, texts_of, with_texts};

use archive_core::Books;
use dict_core::{Book, BookRefusal};
use record_format::Header;
use row_codec::{Names, Which};
use std::alloc::{AllocError, Global};

/// The texts of an archive's two dictionaries, which come one by one in the order of their numbers.
pub trait KeepsTexts: Names {
    /// The texts.
    ghost kept: { Self → Kept };

    /// No texts of an archive with this header. Takes no memory.
    fn begin(alloc: Global, header: &Header) -> Self
        requires { IsHeader header.now }
        ensures { kept result ≡ none_of header.now };

    /// How many texts a dictionary has.
    fn count(&self, kind: Which) -> u32
        ensures { result ≡ length (texts_of kind (kept self.now)) };

    /// Adds a text to a dictionary, and tells whether it may have it.
    fn add(&mut self, kind: Which, text: &[u8]) -> Result<bool, AllocError>
        ensures added { IfOk result (λ yes. IsTrue yes
            → kept self.new ≡ with_texts kind (text.now ∷ []) (kept self.old)) }
        ensures refused { IfOk result (λ yes. IsFalse yes
            → ¬ MayHold (limit_of kind (kept self.old))
            (texts_of kind (kept self.old) ++ text.now ∷ [])) };

    /// They are what the numbers of rows stand for.
    ghost named: { (k : Self) → (Self.types k ≡ (kept k).types) × (Self.words k ≡ (kept k).words)
        × (Self.version k ≡ (kept k).version) };
}

// Adds a text that is new, where there is room.
fn add_to(book: &mut Book, text: &[u8]) -> Result<bool, AllocError>
    ensures limit { book.new.limit ≡ book.old.limit }
    ensures added { IfOk result (λ yes. IsTrue yes
        → book.new.texts ≡ book.old.texts ++ text.now ∷ []) }
    ensures refused { IfOk result (λ yes. IsFalse yes
        → ¬ MayHold book.old.limit (book.old.texts ++ text.now ∷ [])) }
{
    let count = book.len();
    match book.intern(text) {
        Ok(number) => Ok(number == count),
        Err(BookRefusal::Full { .. }) => Ok(false),
        Err(BookRefusal::OutOfMemory) => Err(AllocError),
    }
}

impl KeepsTexts for Books {
    ghost kept = { λ b. record {
      types = b.types.texts;
      words = b.words.texts;
      types_limit = b.types.limit;
      words_limit = b.words.limit;
      version = b.version;
    } };

    fn begin(alloc: Global, header: &Header) -> Self {
        Books {
            types: Book::new(alloc, header.types_limit),
            words: Book::new(alloc, header.words_limit),
            version: header.version,
        }
    }

    fn count(&self, kind: Which) -> u32 {
        match kind {
            Which::Types => self.types.len(),
            Which::Words => self.words.len(),
        }
    }

    fn add(&mut self, kind: Which, text: &[u8]) -> Result<bool, AllocError> {
        match kind {
            Which::Types => add_to(&mut self.types, text),
            Which::Words => add_to(&mut self.words, text),
        }
    }

    ghost named = { λ k. (refl, refl, refl) };
}
