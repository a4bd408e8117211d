//! The log types of an archive that are kept in memory.
ghost use Rattle.std.specs.Prelude.{◌≡◌, ◌≤◌, [], false, length, IfOk, IsErrOf, MatchOption, OnOk, slice_get, Some};
ghost use Rattle.log_seams.specs.Disk.{Rests};
ghost use Rattle.log_seams.specs.Outside.{CountsOf};
ghost use Rattle.word_places.specs.Kept.{KeptTypes, with_text, without_text};
ghost use Rattle.word_places.specs.Places.{AreInOrder, OfWords};
ghost use Rattle.word_places.specs.Reads.{ReadsWords};

use crate::place::WordsPlace;
use crate::refusal::HoldRefusal;
use crate::taking::{TakesTexts, take_texts};
use dict_core::{MAX_TEXTS, Texts};
use log_seams::Disk;
use std::alloc::{AllocError, Global};
use std::marker::Model;

/// The log types of an archive, each at its number, in one buffer. Those that nothing is asked of
/// may have been left out: they have an empty text.
#[derive(Drop)]
pub struct TypeTexts {
    texts: Texts,
    left_out: bool,
    /// Where all of them stand on the disk.
    places: Vec<WordsPlace>,
}

impl Model for TypeTexts {
    ghost use Rattle.word_places.specs.Kept.{KeptTypes};

    ghost Value = { KeptTypes };

    ghost view = { λ t. record {
      texts = t.texts;
      left_out = t.left_out;
      places = t.places.items;
    } };
}

impl TypeTexts {
    /// None of the log types at these places.
    pub fn begin(alloc: Global, places: &[WordsPlace]) -> Result<TypeTexts, AllocError>
        ensures { IfOk result (λ types.
            types ≡ record { texts = []; left_out = false; places = places.now }) }
    {
        Ok(TypeTexts {
            texts: Texts::new(alloc),
            left_out: false,
            places: Vec::from_slice(alloc, places)?,
        })
    }

    /// Reads the log types at these places, each record once, and keeps them all.
    ///
    /// # Errors
    ///
    /// `DiskFault`, where the disk's count of faults rose; `Damaged`, where its bytes have no log
    /// types at these places; or `OutOfMemory`.
    pub fn read<D: Disk>(
        alloc: Global,
        disk: &mut D,
        places: &[WordsPlace],
    ) -> Result<TypeTexts, HoldRefusal>
        requires { AreInOrder 0 places.now }

        // what stays
        ensures rests { Rests (D.state disk.old) (D.state disk.new) }
        ensures reads { ReadsWords places.now (D.state disk.old) (D.state disk.new) }

        // by the answer, and causes
        ensures whole { IfOk result (λ types.
            (types.left_out ≡ false) × (types.places ≡ places.now)) }
        ensures read { IfOk result (λ types. OfWords (D.state disk.old).seen places.now
            (λ texts. types.texts ≡ texts)) }
        ensures damaged { IsErrOf result HoldRefusal.Damaged
            → OfWords (D.state disk.old).seen places.now (λ _. ⊥) }
        ensures counts { CountsOf HoldRefusal.DiskFault
            (D.state disk.old).faults (D.state disk.new).faults result }
    {
        let mut types = TypeTexts::begin(alloc, places)?;
        let mut buffer = Vec::new(alloc);
        take_texts(disk, places, &mut buffer, &mut types)?;
        Ok(types)
    }

    /// Keeps the text of the next log type.
    ///
    /// # Errors
    ///
    /// [`AllocError`], if there was no memory, or if there are 2,147,483,648 log types already.
    pub fn keep(&mut self, text: &[u8]) -> Result<(), AllocError>
        ensures { OnOk result (self.new ≡ with_text self.old text.now) }
    {
        if self.texts.len() >= MAX_TEXTS {
            return Err(AllocError);
        }
        self.texts.push(text)
    }

    /// Leaves the next log type out: it has an empty text.
    ///
    /// # Errors
    ///
    /// As [`keep`](TypeTexts::keep).
    pub fn leave_out(&mut self) -> Result<(), AllocError>
        ensures { OnOk result (self.new ≡ without_text self.old) }
    {
        self.left_out = true;
        self.keep(&[])
    }

    /// The log type with a number, or `None` past the last one. One that was left out has an empty
    /// text. Takes no memory.
    #[inline]
    pub fn text_of(&self, number: u32) -> Option<&[u8]>
        ensures { MatchOption result (length self.now.texts ≤ number)
            (λ text. slice_get self.now.texts number ≡ Some text.now) }
    {
        self.texts.text_of(number)
    }

    /// Whether a log type was left out.
    pub fn left_out(&self) -> bool
        ensures { result ≡ self.now.left_out }
    {
        self.left_out
    }

    /// Where the records of all of them stand on the disk.
    pub fn places(&self) -> &[WordsPlace]
        ensures { result.now ≡ self.now.places }
    {
        self.places.as_slice()
    }
}

impl TakesTexts for TypeTexts {
    ghost use Rattle.word_places.specs.Kept.{KeepsTexts};
    ghost use Rattle.word_places.specs.StepsKept.{keeps_both, keeps_none};

    ghost took = { KeepsTexts };

    fn take(&mut self, text: &[u8]) -> Result<(), AllocError> {
        self.keep(text)
    }

    ghost none = { keeps_none };

    ghost both = { keeps_both };
}
