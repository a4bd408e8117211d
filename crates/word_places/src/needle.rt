//! Needles, and whether a word has one.
ghost use Rattle.std.specs.Prelude.{◌≡◌, ◌↔◌, IsTrue};
ghost use Rattle.word_places.specs.Holders.{HasNeedle};

use memchr::memmem::Finder;

/// What is asked of a word and a needle.
#[derive(Clone, Copy, Debug, PartialEq, Eq)]
pub enum Fit {
    /// That the needle stands somewhere in the word.
    Within,
    /// That the word is the needle.
    Whole,
}

/// What words are asked for.
#[derive(Drop)]
pub struct Needle<'n> {
    /// What is asked of a word and the needle.
    pub fit: Fit,
    /// The search for the needle in a text.
    pub finder: Finder<'n>,
}

impl<'n> Needle<'n> {
    /// A text that is looked for within words, or as the whole word.
    pub fn new(fit: Fit, text: &'n [u8]) -> Needle<'n>
        ensures fit { result.fit ≡ fit }
        ensures text { result.finder ≡ text.now }
    {
        Needle {
            fit,
            finder: Finder::new(text),
        }
    }
}

/// Whether a text has the needle.
pub(crate) fn has_needle(text: &[u8], fit: Fit, finder: &Finder<'_>) -> bool
    ensures { IsTrue result ↔ HasNeedle fit finder.now text.now }
{
    match fit {
        Fit::Within => finder.find(text).is_some(),
        Fit::Whole => text == finder.needle(),
    }
}
