//! The names of an archive, some of whose words are known by number.
ghost use Rattle.std.specs.Prelude.{◌≡◌};
ghost use Rattle.subquery_filter.specs.StepsKnown.{AreLookedUp};

use crate::known::{KnownWord, known_word};
use row_codec::Names;

/// The names of an archive, of which some words were looked up before: these are not looked up
/// again.
#[derive(Drop)]
pub struct KnownNames<'n, N: Names> {
    names: &'n N,
    known: &'n [KnownWord],
    ghost told: { AreLookedUp (N.words names.now) known.now },
}

impl<'n, N: Names> KnownNames<'n, N> {
    /// The names, with the words of [`known_words`](crate::known_words).
    pub fn new(names: &'n N, known: &'n [KnownWord]) -> KnownNames<'n, N>
        requires { AreLookedUp (N.words names.now) known.now }
        ensures { result.names.now ≡ names.now }
    {
        KnownNames { names, known }
    }
}

impl<N: Names> Names for KnownNames<'_, N> {
    ghost types = { λ k. N.types k.names.now };

    ghost words = { λ k. N.words k.names.now };

    ghost version = { λ k. N.version k.names.now };

    fn micro(&self) -> bool {
        self.names.micro()
    }

    fn type_text(&self, number: u32) -> Option<&[u8]> {
        self.names.type_text(number)
    }

    fn word_text(&self, number: u32) -> Option<&[u8]> {
        self.names.word_text(number)
    }

    fn word_number(&self, text: &[u8]) -> Option<u32> {
        match known_word(self.known, text) {
            Some(word) => word.number,
            None => self.names.word_number(text),
        }
    }
}
