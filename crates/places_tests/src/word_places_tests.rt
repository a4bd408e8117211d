//! Words that stay on the disk, found by a pass and held, over a disk that fails and changed bytes.
ghost use Rattle.std.specs.Prelude.{◌≡◌};
ghost use Rattle.word_places.specs.Held.{places_of};

use crate::archive::{ARCHIVE, WORDS, changed, disk};
use crate::log_types::{MANY, log_types};
use column_store::RowRef;
use log_seams::MemDisk;
use plain_list::NumberList;
use row_codec::Names;
use std::alloc::{AllocError, Global};
use std::test::Fail;
use word_places::{
    Fit, HeldWords, HoldRefusal, Needle, find_words, held_agree, held_stay, holders_have,
    rows_are_local, rows_are_of_type, word_found, words_are_one,
};

// ---- the pass

// The numbers of the words that have a needle.
fn find(
    alloc: Global,
    bytes: &[u8],
    fails: &[u64],
    fit: Fit,
    text: &[u8],
) -> Result<Vec<NumberList>, HoldRefusal> {
    let mut disk = disk(alloc, bytes, fails)?;
    let mut buffer = Vec::new(alloc);
    find_words(
        alloc,
        &mut disk,
        WORDS,
        &[Needle::new(fit, text)],
        &mut buffer,
    )
}

// Whether this is the one list.
fn is_one(lists: &[NumberList], numbers: &[u32]) -> bool {
    match lists {
        [list] => list.as_slice() == numbers,
        _ => false,
    }
}

// Whether the words that have a needle have these numbers.
fn finds(alloc: Global, fit: Fit, text: &[u8], numbers: &[u32]) -> Result<bool, HoldRefusal> {
    let lists = find(alloc, &ARCHIVE, &[], fit, text)?;
    Ok(is_one(lists.as_slice(), numbers))
}

// A needle, and the numbers of those of `alpha`, `be`, `ab`, `alphabet` and the empty word that have it.
// The last needles stand in lengths, and across the border of two words.
const FOUND: &[(Fit, &[u8], &[u32])] = &[
    (Fit::Within, b"alpha", &[0, 3]),
    (Fit::Within, b"be", &[1, 3]),
    (Fit::Within, b"b", &[1, 2, 3]),
    (Fit::Within, b"", &[0, 1, 2, 3, 4]),
    (Fit::Within, b"bet", &[3]),
    (Fit::Within, b"beta", &[]),
    (Fit::Whole, b"alpha", &[0]),
    (Fit::Whole, b"ab", &[2]),
    (Fit::Whole, b"", &[4]),
    (Fit::Whole, b"a", &[]),
    (Fit::Within, &[5, 0, 0, 0], &[]),
    (Fit::Within, &[0], &[]),
    (Fit::Within, &[0x65, 2, 0, 0, 0, 0x61], &[]),
];

#[test]
fn a_pass_finds_the_words_that_have_a_needle(rt: HostRuntime) -> Result<(), Fail> {
    for &(fit, text, numbers) in FOUND {
        if finds(rt.alloc(), fit, text, numbers) != Ok(true) {
            return Err(Fail::from(text));
        }
    }
    Ok(())
}

// What a pass for three needles gives.
fn find_each(alloc: Global, disk: &mut MemDisk) -> Result<Vec<NumberList>, HoldRefusal> {
    let mut buffer = Vec::new(alloc);
    let needles = [
        Needle::new(Fit::Within, b"a"),
        Needle::new(Fit::Whole, b"be"),
        Needle::new(Fit::Within, b"z"),
    ];
    find_words(alloc, disk, WORDS, &needles, &mut buffer)
}

// Whether these are the lists of the three.
fn are_each(lists: &[NumberList]) -> bool {
    let [within, whole, none] = lists else {
        return false;
    };
    within.as_slice() == [0, 2, 3].as_slice()
        && whole.as_slice() == [1].as_slice()
        && none.as_slice().is_empty()
        && word_found(whole.as_slice()) == Some(1)
        && word_found(none.as_slice()).is_none()
}

fn finds_each_on(alloc: Global, disk: &mut MemDisk) -> Result<bool, HoldRefusal> {
    Ok(are_each(find_each(alloc, disk)?.as_slice()))
}

// Whether they are found, by a read for each record.
fn finds_each(alloc: Global) -> Result<bool, HoldRefusal> {
    let mut disk = disk(alloc, &ARCHIVE, &[])?;
    Ok(finds_each_on(alloc, &mut disk)? && disk.calls() == WORDS.len())
}

#[test]
fn one_pass_serves_several_needles(rt: HostRuntime) {
    assert!(rt; finds_each(rt.alloc()) == Ok(true));
}

// Why a pass over these bytes is refused.
fn refusal(alloc: Global, bytes: &[u8], fails: &[u64]) -> Option<HoldRefusal> {
    find(alloc, bytes, fails, Fit::Within, b"t").err()
}

#[test]
fn each_read_of_a_pass_may_fail(rt: HostRuntime) -> Result<(), Fail> {
    for call in 0..3 {
        if refusal(rt.alloc(), &ARCHIVE, &[call]) != (call < 2).then_some(HoldRefusal::DiskFault) {
            return Err(Fail::new(call));
        }
    }
    Ok(())
}

// A place in the second record, and the byte that comes there: its numbers, and the length of its first
// word, which has the needle.
const CHANGES: &[(usize, u8)] = &[(247, 2), (251, 1), (255, 0xFF)];

// The same of the archive's bytes with another one at a place.
fn refusal_by(alloc: Global, at: usize, byte: u8) -> Result<Option<HoldRefusal>, AllocError> {
    let bytes = changed(alloc, at, byte)?;
    Ok(refusal(alloc, bytes.as_slice(), &[]))
}

#[test]
fn a_record_that_is_another_is_damaged(rt: HostRuntime) -> Result<(), Fail> {
    for &(at, byte) in CHANGES {
        if refusal_by(rt.alloc(), at, byte)? != Some(HoldRefusal::Damaged) {
            return Err(Fail::new(at));
        }
    }
    Ok(())
}

#[test]
fn a_record_that_breaks_off_is_damaged(rt: HostRuntime) {
    let short = refusal(rt.alloc(), &ARCHIVE[..270], &[]);
    assert!(rt; short == Some(HoldRefusal::Damaged));
}

// ---- words that are held

// Words of which none is held, beside two log types.
fn held(alloc: Global) -> Result<HeldWords, HoldRefusal> {
    Ok(HeldWords::new(alloc, log_types(alloc, 0)?, 1, WORDS)?)
}

// The same words, beside many log types.
fn held_of_many(alloc: Global) -> Result<HeldWords, HoldRefusal> {
    Ok(HeldWords::new(alloc, log_types(alloc, MANY)?, 1, WORDS)?)
}

// Whether the words are these.
fn lends(held: &HeldWords, words: &[&[u8]]) -> bool {
    let mut number: u32 = 0;
    for text in words {
        if held.word_text(number) != Some(*text) {
            return false;
        }
        number = number.saturating_add(1);
    }
    held.word_text(number).is_none()
}

// Holds the words 3, 4 and 9.
fn hold_some(held: &mut HeldWords, disk: &mut MemDisk) -> Result<(), HoldRefusal> {
    held.hold(disk, 3)?;
    held.hold(disk, 4)?;
    held.hold(disk, 9)
}

// Whether the words of the second record are held.
fn has_second(held: &HeldWords) -> bool {
    lends(held, &[b"", b"", b"", b"alphabet", b""])
        && held.word_number(b"alphabet") == Some(3)
        && held.word_number(b"alpha").is_none()
        && held.record_count() == 2
        && !held.kept().left_out()
        && !held.micro()
}

// Whether the words of a record are lent once one of them is held, and empty ones before.
fn holds_by_record(held: &mut HeldWords, disk: &mut MemDisk) -> Result<bool, HoldRefusal> {
    if !lends(held, &[b"", b"", b"", b"", b""]) {
        return Ok(false);
    }
    hold_some(held, disk)?;
    Ok(has_second(held) && disk.calls() == 1)
}

fn holds_by_record_of(alloc: Global) -> Result<bool, HoldRefusal> {
    let mut held = held(alloc)?;
    holds_by_record(&mut held, &mut disk(alloc, &ARCHIVE, &[])?)
}

#[test]
fn a_record_is_held_from_its_first_use_on(rt: HostRuntime) {
    assert!(rt; holds_by_record_of(rt.alloc()) == Ok(true));
}

// A row of a log type.
fn row_of(log_type: u32, words: &[u64]) -> RowRef<'_> {
    RowRef {
        pattern: 0,
        moment: 0,
        log_type,
        words,
    }
}

// Holds the words of a row of the first log type.
fn hold_row(held: &mut HeldWords, disk: &mut MemDisk, word: u64) -> Result<(), HoldRefusal> {
    held.hold_row(disk, row_of(0, &[word]))
}

// Whether the words of rows are held.
fn holds_rows(held: &mut HeldWords, disk: &mut MemDisk) -> Result<bool, HoldRefusal> {
    hold_row(held, disk, 2)?;
    if !lends(held, &[b"alpha", b"be", b"ab", b"", b""]) {
        return Ok(false);
    }
    hold_row(held, disk, 3)?;
    hold_row(held, disk, 1 << 40)?;
    Ok(lends(held, &[b"alpha", b"be", b"ab", b"alphabet", b""]) && disk.calls() == 2)
}

fn holds_rows_of(alloc: Global) -> Result<bool, HoldRefusal> {
    let mut held = held(alloc)?;
    holds_rows(&mut held, &mut disk(alloc, &ARCHIVE, &[])?)
}

#[test]
fn the_words_of_a_row_are_held(rt: HostRuntime) {
    assert!(rt; holds_rows_of(rt.alloc()) == Ok(true));
}

// Whether a number is asked of where it is a word, and not where it stands for itself. The log type with a
// word has this number, the one with a number before it the next.
fn knows_by_slots(held: &mut HeldWords, disk: &mut MemDisk, at: u32) -> Result<bool, HoldRefusal> {
    let next = at.saturating_add(1);
    if held.has_row(row_of(next, &[3, 0])) {
        return Ok(false);
    }
    held.hold_row(disk, row_of(next, &[3, 0]))?;
    Ok(
        held.has_row(row_of(next, &[3, 0]))
            && !held.has_row(row_of(next, &[0, 3]))
            && !held.has_row(row_of(at, &[3]))
            && held.has_row(row_of(at, &[1 << 40]))
            && held.has_row(row_of(next, &[3]))
            && held.has_row(row_of(next.saturating_add(1), &[3]))
            && disk.calls() == 1,
    )
}

fn knows_by_slots_of(alloc: Global) -> Result<bool, HoldRefusal> {
    let mut held = held(alloc)?;
    knows_by_slots(&mut held, &mut disk(alloc, &ARCHIVE, &[])?, 0)
}

// The same of log types whose texts are read.
fn knows_by_texts_of(alloc: Global) -> Result<bool, HoldRefusal> {
    let mut held = held_of_many(alloc)?;
    knows_by_slots(&mut held, &mut disk(alloc, &ARCHIVE, &[])?, MANY)
}

#[test]
fn a_number_that_is_no_word_is_not_asked_of(rt: HostRuntime) {
    assert!(rt; knows_by_slots_of(rt.alloc()) == Ok(true));
}

#[test]
fn nor_where_no_slots_are_kept(rt: HostRuntime) {
    assert!(rt; knows_by_texts_of(rt.alloc()) == Ok(true));
}

// Why the word 3 is not held from these bytes.
fn unheld(alloc: Global, bytes: &[u8], fails: &[u64]) -> Result<Option<HoldRefusal>, HoldRefusal> {
    let mut disk = disk(alloc, bytes, fails)?;
    let mut held = held(alloc)?;
    Ok(held.hold(&mut disk, 3).err())
}

// The same of the archive's bytes with another one at a place.
fn unheld_by(alloc: Global, at: usize, byte: u8) -> Result<Option<HoldRefusal>, HoldRefusal> {
    let bytes = changed(alloc, at, byte)?;
    unheld(alloc, bytes.as_slice(), &[])
}

#[test]
fn what_is_not_there_is_not_held(rt: HostRuntime) -> Result<(), Fail> {
    for &(at, byte) in CHANGES {
        if unheld_by(rt.alloc(), at, byte) != Ok(Some(HoldRefusal::Damaged)) {
            return Err(Fail::new(at));
        }
    }
    Ok(())
}

#[test]
fn a_read_that_fails_holds_nothing(rt: HostRuntime) {
    assert!(rt; unheld(rt.alloc(), &ARCHIVE, &[0]) == Ok(Some(HoldRefusal::DiskFault)));
}

// ---- shares

// Reads the record of a word into a share.
fn read_on(share: &mut HeldWords, disk: &mut MemDisk, number: u32) -> Result<(), HoldRefusal>
    ensures { places_of share.new.records ≡ places_of share.old.records }
{
    share.hold(disk, number)
}

// Whether all words are there.
fn has_each(held: &HeldWords) -> bool {
    lends(held, &[b"alpha", b"be", b"ab", b"alphabet", b""])
}

// Whether all words are held after so many reads.
fn holds_each(held: &mut HeldWords, disk: &mut MemDisk, reads: usize) -> Result<bool, HoldRefusal> {
    held.hold(disk, 0)?;
    held.hold(disk, 3)?;
    Ok(has_each(held) && disk.calls() == reads)
}

// Whether a share has what was read before, reads for itself alone, and is taken in again.
fn shares(held: &mut HeldWords, disk: &mut MemDisk) -> Result<bool, HoldRefusal> {
    held.hold(disk, 3)?;
    let mut share = held.share()?;
    read_on(&mut share, disk, 0)?;
    let apart = has_second(held) && has_each(&share);
    held.take_in(share);
    let all = holds_each(held, disk, 2)?;
    Ok(apart && all)
}

fn shares_of(alloc: Global) -> Result<bool, HoldRefusal> {
    let mut held = held(alloc)?;
    shares(&mut held, &mut disk(alloc, &ARCHIVE, &[])?)
}

#[test]
fn a_share_reads_on_and_is_taken_in(rt: HostRuntime) {
    assert!(rt; shares_of(rt.alloc()) == Ok(true));
}

// The same of a share of a share.
fn shares_twice(held: &mut HeldWords, disk: &mut MemDisk) -> Result<bool, HoldRefusal> {
    let mut share = held.share()?;
    read_on(&mut share, disk, 3)?;
    let mut second = share.share()?;
    read_on(&mut second, disk, 0)?;
    share.take_in(second);
    held.take_in(share);
    holds_each(held, disk, 2)
}

fn shares_twice_of(alloc: Global) -> Result<bool, HoldRefusal> {
    let mut held = held(alloc)?;
    shares_twice(&mut held, &mut disk(alloc, &ARCHIVE, &[])?)
}

#[test]
fn so_is_a_share_of_a_share(rt: HostRuntime) {
    assert!(rt; shares_twice_of(rt.alloc()) == Ok(true));
}

// Two shares that read the same record, each for itself.
fn shares_beside(held: &mut HeldWords, disk: &mut MemDisk) -> Result<bool, HoldRefusal> {
    let mut first = held.share()?;
    let mut second = held.share()?;
    read_on(&mut first, disk, 3)?;
    read_on(&mut second, disk, 3)?;
    held.take_in(first);
    held.take_in(second);
    holds_each(held, disk, 3)
}

fn shares_beside_of(alloc: Global) -> Result<bool, HoldRefusal> {
    let mut held = held(alloc)?;
    shares_beside(&mut held, &mut disk(alloc, &ARCHIVE, &[])?)
}

#[test]
fn what_two_shares_read_is_kept_once(rt: HostRuntime) {
    assert!(rt; shares_beside_of(rt.alloc()) == Ok(true));
}

#[test]
fn laws_hold() {
    rows_are_local();
    rows_are_of_type();
    held_agree();
    held_stay();
    holders_have();
    words_are_one();
}
