//! The texts of an archive by their numbers.
ghost use Rattle.std.specs.Prelude.{◌≡◌, ℕ, ◌≤◌, ◌^◌, ◌↔◌, List, length, MatchOption, IsTrue, Some, slice_get};
ghost use Rattle.plain_list.specs.Texts.{IsNew};

/// What an archive's numbers stand for. The look-ups take no memory.
pub trait Names {
    /// The texts of log types, each at its number.
    ghost types: { Self → List (List ℕ) };

    /// The words of the dictionary, each at its number.
    ghost words: { Self → List (List ℕ) };

    /// The archive's version.
    ghost version: { Self → ℕ };

    /// Whether moments count microseconds: in version 3.
    fn micro(&self) -> bool
        ensures { IsTrue result ↔ (3 ≤ version self.now) };

    /// The text of the log type with this number; `None` exactly where there is none.
    fn type_text(&self, number: u32) -> Option<&[u8]>
        ensures { MatchOption result (length (types self.now) ≤ number)
            (λ text. slice_get (types self.now) number ≡ Some text.now) };

    /// The word with this number; `None` exactly where there is none. A number of 32 bits reaches
    /// every word.
    fn word_text(&self, number: u32) -> Option<&[u8]>
        ensures found { MatchOption result (length (words self.now) ≤ number)
            (λ text. slice_get (words self.now) number ≡ Some text.now) }
        ensures few { length (words self.now) ≤ 2 ^ 32 };

    /// A number of the word with this text; `None` exactly where it is no word.
    fn word_number(&self, text: &[u8]) -> Option<u32>
        ensures { MatchOption result (IsNew (words self.now) text.now)
            (λ number. slice_get (words self.now) number ≡ Some text.now) };
}
