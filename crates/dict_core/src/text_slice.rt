//! Texts that are read by their places.
ghost use Rattle.std.specs.Prelude.{◌≡◌, ◌<◌, ℕ, List, length, slice_get, Some};

use plain_list::TextList;

/// Texts in order, lent for reading: a list of texts, or spans of a line.
pub trait TextSlice {
    // The texts.
    ghost texts: { Self → List (List ℕ) };

    /// How many there are.
    fn count(&self) -> usize
        ensures { result ≡ length (texts self.now) };

    /// The text at a place.
    fn at(&self, place: usize) -> &[u8]
        requires { place < length (texts self.now) }
        ensures { slice_get (texts self.now) place ≡ Some result.now };
}

impl TextSlice for TextList {
    ghost texts = { λ list. list };

    fn count(&self) -> usize {
        self.len()
    }

    fn at(&self, place: usize) -> &[u8] {
        self.as_slice()[place].as_slice()
    }
}
