//! Two books as the dictionaries of an archive.
ghost use Rattle.std.specs.Prelude.{◌≡◌, ◌≤◌, ℕ, IfOk, IsErrOf, OnErr, length};
ghost use Rattle.dict_core.specs.Books.{Names as Named};
ghost use Rattle.plain_list.specs.Texts.{IsNew};
ghost use Rattle.row_tests.specs.StepsBooks.{known_of};

use dict_core::{Book, BookRefusal};
use logtype_text::Span;
use plain_list::{NumberList, TextList};
use row_codec::{NameRefusal, Namer, Names, Which};
use std::alloc::Global;

/// The dictionaries of an archive of some version.
#[derive(Drop)]
pub(crate) struct Books {
    types: Book,
    words: Book,
    version: u8,
}

impl Books {
    /// Books without texts, each of which may have so many.
    pub(crate) fn new(alloc: Global, version: u8, limit: u32) -> Books
        requires least { 1 ≤ limit }
        requires most { limit ≤ 2147483648 }
    {
        Books {
            types: Book::new(alloc, limit),
            words: Book::new(alloc, limit),
            version,
        }
    }

    /// Adds a log type.
    pub(crate) fn add_type(&mut self, text: &[u8]) -> Result<u32, BookRefusal> {
        self.types.intern(text)
    }

    /// Adds a word.
    pub(crate) fn add_word(&mut self, text: &[u8]) -> Result<u32, BookRefusal> {
        self.words.intern(text)
    }

    /// The number of a log type.
    pub(crate) fn type_number(&self, text: &[u8]) -> Option<u32> {
        self.types.number_of(text)
    }

    /// How many log types and words there are.
    pub(crate) fn counts(&self) -> (u32, u32) {
        (self.types.len(), self.words.len())
    }
}

impl Names for Books {
    ghost types = { λ b. b.types.texts };

    ghost words = { λ b. b.words.texts };

    ghost version = { λ b. b.version };

    fn micro(&self) -> bool {
        self.version >= 3
    }

    fn type_text(&self, number: u32) -> Option<&[u8]> {
        self.types.text_of(number)
    }

    fn word_text(&self, number: u32) -> Option<&[u8]> {
        let _count = self.words.len();
        self.words.text_of(number)
    }

    fn word_number(&self, text: &[u8]) -> Option<u32> {
        self.words.number_of(text)
    }
}

// The number of a text of a book, which is added where it is new.
fn name_in(book: &mut Book, which: Which, text: &[u8]) -> Result<u32, NameRefusal>
    ensures named { IfOk result (λ n. Named book.old book.new text.now n) }
    ensures err { OnErr result (book.new ≡ book.old) }
    ensures full { (b : _) (count : ℕ) → IsErrOf result (NameRefusal.Full b count)
        → (b ≡ which) × IsNew book.old.texts text.now
        × (count ≡ book.old.limit) × (length book.old.texts ≡ book.old.limit) }
{
    match book.intern(text) {
        Ok(number) => Ok(number),
        Err(BookRefusal::Full { count }) => Err(NameRefusal::Full { book: which, count }),
        Err(BookRefusal::OutOfMemory) => Err(NameRefusal::OutOfMemory),
    }
}

impl Namer for Books {
    ghost types = { λ b. known_of b.types };

    ghost words = { λ b. known_of b.words };

    ghost version = { λ b. b.version };

    ghost naming = { λ _ _ _ _ _. Unit {0} };

    fn micro(&self) -> bool {
        self.version >= 3
    }

    fn name_type(&mut self, text: &[u8]) -> Result<u32, NameRefusal> {
        name_in(&mut self.types, Which::Types, text)
    }

    // No call of these tests names lists of texts.
    fn name_words(&mut self, _texts: &TextList) -> Result<NumberList, NameRefusal> {
        Err(NameRefusal::OutOfMemory)
    }

    fn name_spans(
        &mut self,
        line: &[u8],
        spans: &[Span],
        numbers: &mut Vec<u32>,
    ) -> Result<(), NameRefusal> {
        numbers.clear();
        for span in spans {
            match name_in(&mut self.words, Which::Words, &line[span.start..span.end]) {
                Ok(number) => {
                    if numbers.push(number).is_err() {
                        return Err(NameRefusal::OutOfMemory);
                    }
                }
                Err(refusal) => return Err(refusal),
            }
        }
        Ok(())
    }
}
