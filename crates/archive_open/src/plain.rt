//! Texts for reading: one buffer for each dictionary, without an index.
ghost use Rattle.std.specs.Prelude.{◌≡◌, ◌≤◌, [], ◌∷◌, ◌++◌, IfOk, IsTrue, IsFalse, refl};
ghost use Rattle.dict_core.specs.declared.texts.TheConstants.{MAX_TEXTS};
ghost use Rattle.archive_open.specs.Kept.{MayHold};

use crate::keeps::KeepsTexts;
use dict_core::{MAX_TEXTS, Texts};
use record_format::Header;
use row_codec::{Names, Which};
use std::alloc::{AllocError, Global};

/// The texts of one dictionary, for reading. A text may stand among them twice, since nothing is
/// looked up while they come.
#[derive(Debug, Drop)]
pub struct PlainBook {
    texts: Texts,
    limit: u32,
    ghost most: { limit ≤ MAX_TEXTS },
}

impl PlainBook {
    // No texts yet.
    fn new(alloc: Global, limit: u32) -> PlainBook
        requires { limit ≤ MAX_TEXTS }
        ensures texts { result.texts ≡ [] }
        ensures limit { result.limit ≡ limit }
    {
        PlainBook {
            texts: Texts::new(alloc),
            limit,
        }
    }

    // Adds a text where there is room.
    fn add(&mut self, text: &[u8]) -> Result<bool, AllocError>
        ensures limit { self.new.limit ≡ self.old.limit }
        ensures added { IfOk result (λ yes. IsTrue yes
            → self.new.texts ≡ self.old.texts ++ text.now ∷ []) }
        ensures refused { IfOk result (λ yes. IsFalse yes
            → ¬ MayHold self.old.limit (self.old.texts ++ text.now ∷ [])) }
    {
        if self.texts.len() >= self.limit {
            return Ok(false);
        }
        self.texts.push(text)?;
        Ok(true)
    }
}

/// The dictionaries of an archive, for reading: what the numbers of rows stand for. A text is
/// looked up by one pass over the buffer.
#[derive(Debug, Drop)]
pub struct PlainBooks {
    types: PlainBook,
    words: PlainBook,
    version: u32,
}

impl PlainBooks {
    /// The version of the archive.
    pub fn version(&self) -> u32
        ensures { result ≡ self.now.version }
    {
        self.version
    }
}

impl Names for PlainBooks {
    ghost types = { λ b. b.types.texts };

    ghost words = { λ b. b.words.texts };

    ghost version = { λ b. b.version };

    fn micro(&self) -> bool {
        self.version >= 3
    }

    fn type_text(&self, number: u32) -> Option<&[u8]> {
        self.types.texts.text_of(number)
    }

    fn word_text(&self, number: u32) -> Option<&[u8]> {
        let _few = self.words.texts.len();
        self.words.texts.text_of(number)
    }

    fn word_number(&self, text: &[u8]) -> Option<u32> {
        self.words.texts.number_of(text)
    }
}

impl KeepsTexts for PlainBooks {
    ghost kept = { λ b. record {
      types = b.types.texts;
      words = b.words.texts;
      types_limit = b.types.limit;
      words_limit = b.words.limit;
      version = b.version;
    } };

    fn begin(alloc: Global, header: &Header) -> Self {
        PlainBooks {
            types: PlainBook::new(alloc, header.types_limit),
            words: PlainBook::new(alloc, header.words_limit),
            version: header.version,
        }
    }

    fn count(&self, kind: Which) -> u32 {
        match kind {
            Which::Types => self.types.texts.len(),
            Which::Words => self.words.texts.len(),
        }
    }

    fn add(&mut self, kind: Which, text: &[u8]) -> Result<bool, AllocError> {
        match kind {
            Which::Types => self.types.add(text),
            Which::Words => self.words.add(text),
        }
    }

    ghost named = { λ k. (refl, refl, refl) };
}
