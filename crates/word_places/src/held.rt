//! The words of an archive, of which some records are held in memory.
ghost use Rattle.std.specs.Prelude.{◌≡◌, [], false, IsTrue, length, map, slice_index_or, IfOk};
ghost use Rattle.column_store.specs.Row.{row_of};
ghost use Rattle.row_codec.specs.Numbers.{kinds_from, numbers_of_row};
ghost use Rattle.word_places.specs.Held.{AreHeld, AreNumbered, HeldNames, kept_of, unread};
ghost use Rattle.word_places.specs.Places.{AreInOrder};
ghost use Rattle.word_places.specs.StepsHeld.{HaveSlots};

use crate::gaps::{are_held, are_slots_held};
use crate::hints::hints_of;
use crate::lending::{number_in, text_in};
use crate::place::WordsPlace;
use crate::sharing::SharedWords;
use crate::type_slots::{slots_at, slots_of};
use crate::types::TypeTexts;
use column_store::RowRef;
use dict_core::Texts;
use row_codec::Names;
use std::alloc::{AllocError, Global};
use std::marker::Model;
use std::sync::Arc;

/// The first version whose moments count microseconds.
const MICRO_VERSION: u32 = 3;

/// Of how many log types the slots are kept beside their texts: the first ones, which most rows
/// have, since a log type gets its number where its text is first met. Free to tune: of others the
/// text is read.
const SLOT_TYPES: u16 = 1024;

/// A record of words: where it stands, and its words, once they are read.
#[derive(Drop)]
pub struct HeldRecord {
    pub(crate) place: WordsPlace,
    pub(crate) words: Option<SharedWords>,
}

/// What all shares of the words have: it does not change.
#[derive(Drop)]
pub(crate) struct Common {
    types: TypeTexts,
    /// Of each of the first log types the bytes that stand for its slots.
    slots: Texts,
    /// Where the record of a number is looked for first.
    hints: Vec<u32>,
}

impl Common {
    /// What tells the slots of a log type.
    #[inline]
    pub(crate) fn slots_at(&self, log_type: u32) -> &[u8]
        requires { HaveSlots self.now.types.texts self.now.slots }
        ensures { kinds_from false result.now
            ≡ kinds_from false (slice_index_or self.now.types.texts log_type []) }
    {
        slots_at(&self.slots, &self.types, log_type)
    }
}

/// The log types of an archive, and its words as far as their records were read. As [`Names`] it
/// has an empty text for each word of a record that was not read, and for each log type that was
/// left out.
#[derive(Drop)]
pub struct HeldWords {
    pub(crate) alloc: Global,
    pub(crate) common: Arc<Common>,
    pub(crate) version: u32,
    pub(crate) records: Vec<HeldRecord>,
    /// How many records at the front are known to be read. It goes on after each read.
    pub(crate) front: usize,
}

impl Model for HeldWords {
    ghost use Rattle.word_places.specs.Held.{AreNumbered, HeldNames};
    ghost use Rattle.word_places.specs.StepsHeld.{AreReadTo, HaveSlots};

    ghost Value = { HeldNames };

    ghost view = { λ h. record {
      types = h.common.value.types.texts;
      left_out = h.common.value.types.left_out;
      type_places = h.common.value.types.places;
      version = h.version;
      records = h.records.items;
    } };

    ghost invariant = { λ h. AreNumbered 0 h.records.items × AreReadTo h.front h.records.items
        × HaveSlots h.common.value.types.texts h.common.value.slots };
}

impl HeldWords {
    /// The words of records at these places, none of which is read, beside the log types of an
    /// archive of this version, as they were kept.
    pub fn new(
        alloc: Global,
        types: TypeTexts,
        version: u32,
        places: &[WordsPlace],
    ) -> Result<HeldWords, AllocError>
        requires { AreInOrder 0 places.now }
        ensures types { IfOk result (λ held. kept_of held ≡ types) }
        ensures version { IfOk result (λ held. held.version ≡ version) }
        ensures records { IfOk result (λ held. held.records ≡ map unread places.now) }
    {
        let hints = hints_of(alloc, places)?;
        let slots = slots_of(alloc, &types, SLOT_TYPES)?;
        let common = Arc::new(
            alloc,
            Common {
                types,
                slots,
                hints,
            },
        )?;
        let mut records = Vec::with_capacity(alloc, places.len())?;
        for place in places {
            records.push_reserved(HeldRecord {
                place: *place,
                words: None,
            });
        }
        Ok(HeldWords {
            alloc,
            common,
            version,
            records,
            front: 0,
        })
    }

    /// The log types, as they were kept.
    pub fn kept(&self) -> &TypeTexts
        ensures { result.now ≡ kept_of self.now }
    {
        &self.common.types
    }

    /// How many records there are. The numbers of their words go on from one to the next.
    pub fn record_count(&self) -> usize
        ensures count { result ≡ length self.now.records }
        ensures numbered { AreNumbered 0 self.now.records }
    {
        self.records.len()
    }

    /// Whether it is known that all words of a row are held, so that none has to be asked: by a
    /// compare for each of its numbers, and by a look at the record of one that stands behind a
    /// record that was not read. One that is past the last word is no word. Where a number may be
    /// that of a word which is not held, the slots of the log type tell whether it is one.
    #[inline]
    pub fn has_row(&self, row: RowRef<'_>) -> bool
        ensures held { IsTrue result
            → AreHeld self.now.records (numbers_of_row self.now.types (row_of row.entry)) }
    {
        let (records, hints) = (self.records.as_slice(), self.common.hints.as_slice());
        if are_held(records, hints, self.front, row.words) {
            return true;
        }
        let slots = self.common.slots_at(row.log_type);
        are_slots_held(records, hints, self.front, slots, row.words)
    }
}

impl Names for HeldWords {
    ghost use Rattle.word_places.specs.Held.{lends};

    ghost types = { λ h. h.types };

    ghost words = { λ h. lends h.records };

    ghost version = { λ h. h.version };

    fn micro(&self) -> bool {
        self.version >= MICRO_VERSION
    }

    fn type_text(&self, number: u32) -> Option<&[u8]> {
        self.common.types.text_of(number)
    }

    fn word_text(&self, number: u32) -> Option<&[u8]> {
        text_in(
            self.records.as_slice(),
            self.common.hints.as_slice(),
            number,
        )
    }

    fn word_number(&self, text: &[u8]) -> Option<u32> {
        number_in(self.records.as_slice(), text)
    }
}
