//! Finding the words that have needles, by one pass over the payloads.
ghost use Rattle.std.specs.Prelude.{◌≡◌, ◌≢◌, ◌≤◌, ◌<◌, ◌+◌, ◌^◌, ℕ, List, [], length, replicate, set, slice_get, slice_index_or, Some, take, IfOk, OnOk, IsTrue, IsFalse, IsErrOf};
ghost use Rattle.std.specs.List.{flat_map};
ghost use Rattle.log_seams.specs.Disk.{ReadsOnly, Rests};
ghost use Rattle.log_seams.specs.Outside.{CountsOf};
ghost use Rattle.record_format.specs.Lists.{AreTexts, text_bytes};
ghost use Rattle.word_places.specs.Holders.{FoundEach};
ghost use Rattle.word_places.specs.Places.{AreInOrder, OfTexts, OfWords};
ghost use Rattle.word_places.specs.Reads.{ReadsWords};
ghost use Rattle.word_places.specs.StepsFound.{AddsEach};

use crate::needle::Needle;
use crate::pass::add_holders;
use crate::place::{WordsPlace, place_at};
use crate::reading::{front_of, load};
use crate::refusal::HoldRefusal;
use log_seams::Disk;
use plain_list::NumberList;
use std::alloc::{AllocError, Global};
use std::mem;

// So many lists without numbers.
fn empty_lists(alloc: Global, count: usize) -> Result<Vec<NumberList>, AllocError>
    ensures { IfOk result (λ lists. lists.items ≡ replicate count []) }
{
    let mut lists = Vec::with_capacity(alloc, count)?;
    for _ in 0..count {
        lists.push_reserved(NumberList::new(Vec::new(alloc)));
    }
    Ok(lists)
}

// Takes the numbers out of a list, which is left empty.
fn take_list(alloc: Global, lists: &mut Vec<NumberList>, index: usize) -> Vec<u32>
    requires { index < length lists.old.items }
    ensures taken { result.items ≡ slice_index_or lists.old.items index [] }
    ensures left { lists.new.items ≡ set lists.old.items index [] }
{
    mem::replace(&mut lists[index], NumberList::new(Vec::new(alloc))).into_vec()
}

// Puts numbers in the place of a list.
fn put_list(lists: &mut Vec<NumberList>, index: usize, numbers: Vec<u32>)
    requires { index < length lists.old.items }
    ensures { lists.new.items ≡ set lists.old.items index numbers.items }
{
    lists[index] = NumberList::new(numbers);
}

// A needle.
fn needle_at<'a, 'n>(needles: &'a [Needle<'n>], index: usize) -> &'a Needle<'n>
    requires { index < length needles.now }
    ensures { slice_get needles.now index ≡ Some result.now }
{
    &needles[index]
}

// Adds to the list of each needle the numbers of those texts that have it, as `add_holders` does
// that for one. The payload stays in the processor's cache from one needle to the next.
fn add_each(
    alloc: Global,
    bytes: &[u8],
    first: u32,
    count: u32,
    needles: &[Needle<'_>],
    lists: &mut Vec<NumberList>,
) -> Result<bool, AllocError>
    requires few { first + count ≤ 2 ^ 32 }
    requires lists { length lists.old.items ≡ length needles.now }
    ensures long { length lists.new.items ≡ length lists.old.items }
    ensures added { IfOk result (λ yes. IsTrue yes → (texts : List (List ℕ)) → AreTexts texts
        → length texts ≡ count → bytes.now ≡ flat_map text_bytes texts
        → AddsEach needles.now first texts lists.old.items lists.new.items) }
    ensures none { IfOk result (λ yes. IsFalse yes → (texts : List (List ℕ)) → AreTexts texts
        → length texts ≡ count → bytes.now ≢ flat_map text_bytes texts) }
{
    for index in 0..needles.len() {
        let needle = needle_at(needles, index);
        let mut numbers = take_list(alloc, lists, index);
        let whole = add_holders(
            bytes,
            first,
            count,
            needle.fit,
            &needle.finder,
            &mut numbers,
        )?;
        put_list(lists, index, numbers);
        if !whole {
            return Ok(false);
        }
    }
    Ok(true)
}

// Adds to the list of each needle the numbers of those words of a record that have it. The payload
// is read into the front of the buffer.
fn add_record<D: Disk>(
    alloc: Global,
    disk: &mut D,
    place: WordsPlace,
    needles: &[Needle<'_>],
    buffer: &mut Vec<u8>,
    lists: &mut Vec<NumberList>,
) -> Result<(), HoldRefusal>
    requires few { place.first + place.count ≤ 2 ^ 32 }
    requires lists { length lists.old.items ≡ length needles.now }

    // what stays
    ensures rests { Rests (D.state disk.old) (D.state disk.new) }
    ensures reads { ReadsOnly place.payload place.length (D.state disk.old) (D.state disk.new) }
    ensures long { length lists.new.items ≡ length lists.old.items }

    // by the answer, and causes
    ensures added { OnOk result (OfTexts (D.state disk.old).seen place (λ texts.
        AddsEach needles.now place.first texts lists.old.items lists.new.items)) }
    ensures damaged { IsErrOf result HoldRefusal.Damaged
        → OfTexts (D.state disk.old).seen place (λ _. ⊥) }
    ensures counts { CountsOf HoldRefusal.DiskFault
        (D.state disk.old).faults (D.state disk.new).faults result }
{
    load(disk, place, buffer)?;
    let payload = front_of(buffer.as_slice(), place.length as usize);
    let Some(rest) = place.texts_in(payload) else {
        return Err(HoldRefusal::Damaged);
    };
    if !add_each(alloc, rest, place.first, place.count, needles, lists)? {
        return Err(HoldRefusal::Damaged);
    }
    Ok(())
}

/// The numbers of those words that have a needle, in order, a list for each needle. The payload of
/// each record is read once for all of them, into the front of a buffer, which can be used again.
///
/// # Errors
///
/// `DiskFault`, where the disk's count of faults rose; `Damaged`, where its bytes have no words at
/// these places; or `OutOfMemory`.
pub fn find_words<D: Disk>(
    alloc: Global,
    disk: &mut D,
    places: &[WordsPlace],
    needles: &[Needle<'_>],
    buffer: &mut Vec<u8>,
) -> Result<Vec<NumberList>, HoldRefusal>
    requires { AreInOrder 0 places.now }

    // what stays
    ensures rests { Rests (D.state disk.old) (D.state disk.new) }
    ensures reads { ReadsWords places.now (D.state disk.old) (D.state disk.new) }

    // by the answer, and causes
    ensures each { IfOk result (λ lists. length lists.items ≡ length needles.now) }
    ensures found { IfOk result (λ lists. OfWords (D.state disk.old).seen places.now (λ words.
        FoundEach needles.now words lists.items)) }
    ensures damaged { IsErrOf result HoldRefusal.Damaged
        → OfWords (D.state disk.old).seen places.now (λ _. ⊥) }
    ensures counts { CountsOf HoldRefusal.DiskFault
        (D.state disk.old).faults (D.state disk.new).faults result }
{
    let mut lists = empty_lists(alloc, needles.len())?;
    for index in 0..places.len() {
        let place = place_at(places, index);
        add_record(alloc, disk, place, needles, buffer, &mut lists)?;
    }
    Ok(lists)
}
