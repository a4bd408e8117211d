//! Where log types and words stand on a disk.
ghost use Rattle.std.specs.Prelude.{◌≡◌, ◌<◌, ◌↔◌, ◌++◌, List, ℕ, IfNone, IfSome, IsTrue, Some, length, slice_get};
ghost use Rattle.record_format.specs.Lists.{four_bytes};
ghost use Rattle.word_places.specs.Places.{Spells};

use record_format::texts_front;

/// Where the payload of a record of words stands on a disk, and which words it has. The place of a
/// record of log types is told alike.
#[derive(Clone, Copy, Debug, PartialEq, Eq)]
pub struct WordsPlace {
    /// The place of its first byte.
    pub payload: u64,
    /// The count of its bytes.
    pub length: u64,
    /// The number of its first word.
    pub first: u32,
    /// How many words it has.
    pub count: u32,
}

impl WordsPlace {
    // Whether it has these numbers.
    fn has_numbers(&self, first: u32, count: u32) -> bool
        ensures { IsTrue result ↔ ((first ≡ self.now.first) × (count ≡ self.now.count)) }
    {
        first == self.first && count == self.count
    }

    /// What stands behind the numbers of a payload, where these are its own: its texts, each with
    /// its length before it.
    pub(crate) fn texts_in<'p>(&self, payload: &'p [u8]) -> Option<&'p [u8]>
        ensures some { IfSome result (λ rest. payload.now
            ≡ four_bytes self.now.first ++ (four_bytes self.now.count ++ rest.now)) }
        ensures none { IfNone result
            ((texts : List (List ℕ)) → ¬ Spells self.now payload.now texts) }
    {
        let Some(front) = texts_front(payload) else {
            return None;
        };
        if !self.has_numbers(front.first, front.count) {
            return None;
        }
        Some(front.rest)
    }
}

/// The place at an index.
pub(crate) fn place_at(places: &[WordsPlace], index: usize) -> WordsPlace
    requires { index < length places.now }
    ensures { slice_get places.now index ≡ Some result }
{
    places[index]
}
