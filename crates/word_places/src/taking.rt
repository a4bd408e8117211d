//! Reading texts one after the other, through one buffer.
ghost use Rattle.std.specs.Prelude.{◌≡◌, ◌≢◌, ◌≤◌, [], ◌∷◌, List, ℕ, length, take, IfOk, OnOk, IsTrue, IsFalse, IsErrOf};
ghost use Rattle.std.specs.List.{flat_map};
ghost use Rattle.log_seams.specs.Disk.{ReadsOnly, Rests};
ghost use Rattle.log_seams.specs.Outside.{CountsOf};
ghost use Rattle.record_format.specs.Lists.{AreTexts, text_bytes};
ghost use Rattle.word_places.specs.Places.{AreInOrder, OfTexts, OfWords, SomeTexts, SomeWords};
ghost use Rattle.word_places.specs.Reads.{ReadsWords};
ghost use Rattle.word_places.specs.Taken.{Took, TakesBoth, TakesNone};

use crate::place::{WordsPlace, place_at};
use crate::reading::{front_of, load};
use crate::refusal::HoldRefusal;
use log_seams::Disk;
use record_format::next_text;
use std::alloc::AllocError;

/// What takes texts one after the other, as they are read. A text stands in a buffer only until the
/// next one is read, so what is to stay of it is copied.
pub trait TakesTexts {
    // From the one to the other it took these texts.
    ghost took: { Self → List (List ℕ) → Self → Type 0 };

    /// Takes the next text.
    ///
    /// # Errors
    ///
    /// [`AllocError`], if there was no memory.
    fn take(&mut self, text: &[u8]) -> Result<(), AllocError>
        ensures { OnOk result (took self.old (text.now ∷ []) self.new) };

    // Laws. Who did nothing took none.
    ghost none: { TakesNone took };

    // What it took goes together.
    ghost both: { TakesBoth took };
}

// Takes so many texts, where they stand one behind the other in the bytes, each with its length
// before it, and nothing behind them. Tells false only where they do not stand there so.
fn take_each<V: TakesTexts>(bytes: &[u8], count: u32, taker: &mut V) -> Result<bool, AllocError>
    ensures taken { IfOk result (λ yes. IsTrue yes
        → Took (V.took taker.old) count bytes.now taker.new) }
    ensures none { IfOk result (λ yes. IsFalse yes → (texts : List (List ℕ)) → AreTexts texts
        → length texts ≡ count → bytes.now ≢ flat_map text_bytes texts) }
{
    let mut rest = bytes;
    for _ in 0..count {
        let Some((text, after)) = next_text(rest) else {
            return Ok(false);
        };
        taker.take(text)?;
        rest = after;
    }
    Ok(rest.is_empty())
}

// Takes the texts of a record, whose payload is read into the front of the buffer.
fn take_record<D: Disk, V: TakesTexts>(
    disk: &mut D,
    place: WordsPlace,
    buffer: &mut Vec<u8>,
    taker: &mut V,
) -> Result<(), HoldRefusal>
    // what stays
    ensures rests { Rests (D.state disk.old) (D.state disk.new) }
    ensures reads { ReadsOnly place.payload place.length (D.state disk.old) (D.state disk.new) }

    // by the answer, and causes
    ensures taken { OnOk result (SomeTexts (D.state disk.old).seen place
        (λ texts. V.took taker.old texts taker.new)) }
    ensures damaged { IsErrOf result HoldRefusal.Damaged
        → OfTexts (D.state disk.old).seen place (λ _. ⊥) }
    ensures counts { CountsOf HoldRefusal.DiskFault
        (D.state disk.old).faults (D.state disk.new).faults result }
{
    load(disk, place, buffer)?;
    let payload = front_of(buffer.as_slice(), place.length as usize);
    let Some(rest) = place.texts_in(payload) else {
        return Err(HoldRefusal::Damaged);
    };
    if !take_each(rest, place.count, taker)? {
        return Err(HoldRefusal::Damaged);
    }
    Ok(())
}

/// Hands the texts of the records at these places on, in the order of their numbers. Each payload
/// is read once, into the front of a buffer, which can be used again.
///
/// # Errors
///
/// `DiskFault`, where the disk's count of faults rose; `Damaged`, where its bytes have no texts at
/// these places; or `OutOfMemory`. Texts before the one that it stopped at may have been taken.
pub fn take_texts<D: Disk, V: TakesTexts>(
    disk: &mut D,
    places: &[WordsPlace],
    buffer: &mut Vec<u8>,
    taker: &mut V,
) -> Result<(), HoldRefusal>
    requires { AreInOrder 0 places.now }

    // what stays
    ensures rests { Rests (D.state disk.old) (D.state disk.new) }
    ensures reads { ReadsWords places.now (D.state disk.old) (D.state disk.new) }

    // by the answer, and causes
    ensures taken { OnOk result (SomeWords (D.state disk.old).seen places.now
        (λ texts. V.took taker.old texts taker.new)) }
    ensures damaged { IsErrOf result HoldRefusal.Damaged
        → OfWords (D.state disk.old).seen places.now (λ _. ⊥) }
    ensures counts { CountsOf HoldRefusal.DiskFault
        (D.state disk.old).faults (D.state disk.new).faults result }
{
    for index in 0..places.len() {
        let place = place_at(places, index);
        take_record(disk, place, buffer, taker)?;
    }
    Ok(())
}
