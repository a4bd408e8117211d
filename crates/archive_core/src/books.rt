//! The two dictionaries of an archive.

use dict_core::Book;
use row_codec::Names;

/// The dictionaries of an archive with its version: what the numbers of rows stand for.
#[derive(Drop)]
pub struct Books {
    /// The texts of log types.
    pub types: Book,
    /// The words of variables.
    pub words: Book,
    /// The version of the archive.
    pub version: u32,
}

impl Names for Books {
    ghost types = { λ b. b.types.texts };

    ghost words = { λ b. b.words.texts };

    ghost version = { λ b. b.version };

    fn micro(&self) -> bool {
        self.version >= 3
    }

    fn type_text(&self, number: u32) -> Option<&[u8]> {
        self.types.text_of(number)
    }

    fn word_text(&self, number: u32) -> Option<&[u8]> {
        let _few = self.words.len();
        self.words.text_of(number)
    }

    fn word_number(&self, text: &[u8]) -> Option<u32> {
        self.words.number_of(text)
    }
}
