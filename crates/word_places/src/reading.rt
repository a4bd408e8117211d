//! Reading the payload of a record of words.
ghost use Rattle.std.specs.Prelude.{◌≡◌, ◌≤◌, length, take, IfOk, IfSome, OnOk, IsErrOf};
ghost use Rattle.log_seams.specs.Disk.{ReadsOnly, Rests};
ghost use Rattle.log_seams.specs.Outside.{CountsOf};
ghost use Rattle.word_places.specs.Places.{OfTexts, Spells, payload_in};

use crate::place::WordsPlace;
use crate::record::RecordWords;
use crate::refusal::HoldRefusal;
use crate::sharing::SharedWords;
use log_seams::Disk;
use std::alloc::Global;

// Fills a buffer with the payload of a record, whose length it has.
fn fill<D: Disk>(disk: &mut D, place: WordsPlace, buffer: &mut [u8]) -> Result<(), HoldRefusal>
    requires { length buffer.old ≡ place.length }

    // what stays
    ensures rests { Rests (D.state disk.old) (D.state disk.new) }
    ensures reads { ReadsOnly place.payload place.length (D.state disk.old) (D.state disk.new) }

    // by the answer, and causes
    ensures filled { OnOk result (IfSome (D.state disk.old).seen
        (λ bytes. buffer.new ≡ payload_in place bytes)) }
    ensures damaged { IsErrOf result HoldRefusal.Damaged
        → OfTexts (D.state disk.old).seen place (λ _. ⊥) }
    ensures counts { CountsOf HoldRefusal.DiskFault
        (D.state disk.old).faults (D.state disk.new).faults result }
{
    let count = disk.read(place.payload, buffer)?;
    if count < buffer.len() {
        return Err(HoldRefusal::Damaged);
    }
    Ok(())
}

/// Reads the payload of a record into the front of a buffer, which grows to its length.
pub(crate) fn load<D: Disk>(
    disk: &mut D,
    place: WordsPlace,
    buffer: &mut Vec<u8>,
) -> Result<(), HoldRefusal>
    // what stays
    ensures rests { Rests (D.state disk.old) (D.state disk.new) }
    ensures reads { ReadsOnly place.payload place.length (D.state disk.old) (D.state disk.new) }

    // by the answer, and causes
    ensures long { OnOk result (place.length ≤ length buffer.new.items) }
    ensures loaded { OnOk result (IfSome (D.state disk.old).seen
        (λ bytes. take place.length buffer.new.items ≡ payload_in place bytes)) }
    ensures damaged { IsErrOf result HoldRefusal.Damaged
        → OfTexts (D.state disk.old).seen place (λ _. ⊥) }
    ensures counts { CountsOf HoldRefusal.DiskFault
        (D.state disk.old).faults (D.state disk.new).faults result }
{
    let size = place.length as usize;
    if buffer.len() < size {
        buffer.resize(size, 0)?;
    }
    let (front, _) = buffer.as_mut_slice().split_at_mut(size);
    fill(disk, place, front)
}

/// The first bytes of a buffer.
pub(crate) fn front_of(buffer: &[u8], size: usize) -> &[u8]
    requires { size ≤ length buffer.now }
    ensures { result.now ≡ take size buffer.now }
{
    &buffer[..size]
}

/// Reads the words of a record.
pub(crate) fn read_record<D: Disk>(
    alloc: Global,
    disk: &mut D,
    place: WordsPlace,
) -> Result<SharedWords, HoldRefusal>
    // what stays
    ensures rests { Rests (D.state disk.old) (D.state disk.new) }
    ensures reads { ReadsOnly place.payload place.length (D.state disk.old) (D.state disk.new) }

    // by the answer, and causes
    ensures count { IfOk result (λ words. length words ≡ place.count) }
    ensures read { IfOk result (λ words. IfSome (D.state disk.old).seen
        (λ bytes. Spells place (payload_in place bytes) words)) }
    ensures damaged { IsErrOf result HoldRefusal.Damaged
        → OfTexts (D.state disk.old).seen place (λ _. ⊥) }
    ensures counts { CountsOf HoldRefusal.DiskFault
        (D.state disk.old).faults (D.state disk.new).faults result }
{
    let mut bytes = vec![in alloc; 0; place.length as usize]?;
    fill(disk, place, bytes.as_mut_slice())?;
    match RecordWords::read(alloc, place, bytes)? {
        Some(words) => Ok(SharedWords::new(alloc, words)?),
        None => Err(HoldRefusal::Damaged),
    }
}
