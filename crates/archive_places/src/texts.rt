//! The places of records of texts, one by one.
ghost use Rattle.std.specs.Prelude.{◌≡◌, IfOk, IsTrue, IsFalse};
ghost use Rattle.archive_places.specs.StepsPlaced.{IsInRun, IsOver, listing_of, no_listing, place_by, with_place};

use crate::opening::TextPlaces;
use disk_journal::RecordPlace;
use std::alloc::{AllocError, Global};
use word_places::WordsPlace;

impl TextPlaces {
    /// None, where there may be so many texts. Takes no memory.
    pub(crate) fn new(alloc: Global, limit: u32) -> TextPlaces
        ensures { listing_of result ≡ no_listing limit }
    {
        TextPlaces {
            places: Vec::new(alloc),
            count: 0,
            limit,
        }
    }

    /// Adds the place of texts that go on with the numbers, where there is room for them, and tells
    /// whether they do.
    pub(crate) fn add(
        &mut self,
        place: RecordPlace,
        first: u32,
        count: u32,
    ) -> Result<bool, AllocError>
        ensures added { IfOk result (λ yes. IsTrue yes → listing_of self.new
            ≡ with_place (place_by place first count) (listing_of self.old)) }
        ensures sound { IfOk result (λ yes. IsTrue yes
            → IsInRun (listing_of self.old) → IsInRun (listing_of self.new)) }
        ensures refused { IfOk result (λ yes. IsFalse yes
            → first ≡ self.old.count → IsOver (listing_of self.old) count) }
    {
        if first != self.count || count > self.limit - self.count {
            return Ok(false);
        }
        self.places.push(WordsPlace {
            payload: place.payload,
            length: place.length,
            first,
            count,
        })?;
        self.count += count;
        Ok(true)
    }
}
