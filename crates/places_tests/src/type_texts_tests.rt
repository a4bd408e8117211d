//! Log types that stay on the disk until they are read, over a disk that fails and changed bytes.

use crate::archive::{ARCHIVE, TYPES, WORDS, changed, disk};
use log_seams::MemDisk;
use std::alloc::{AllocError, Global};
use std::test::Fail;
use word_places::{HoldRefusal, TakesTexts, TypeTexts, take_texts};

// Whether the texts are these.
fn has_texts(types: &TypeTexts, texts: &[&[u8]]) -> bool {
    let mut number: u32 = 0;
    for text in texts {
        if types.text_of(number) != Some(*text) {
            return false;
        }
        number = number.saturating_add(1);
    }
    types.text_of(number).is_none() && types.text_of(u32::MAX).is_none()
}

fn reads_type(alloc: Global) -> Result<bool, HoldRefusal> {
    let mut disk = disk(alloc, &ARCHIVE, &[])?;
    let types = TypeTexts::read(alloc, &mut disk, TYPES)?;
    Ok(has_texts(&types, &[b"of \x12"]) && !types.left_out() && types.places() == TYPES)
}

#[test]
fn a_log_type_is_read(rt: HostRuntime) {
    assert!(rt; reads_type(rt.alloc()) == Ok(true));
}

fn reads_none(alloc: Global) -> Result<bool, HoldRefusal> {
    let mut disk = disk(alloc, &ARCHIVE, &[])?;
    let types = TypeTexts::read(alloc, &mut disk, &[])?;
    Ok(has_texts(&types, &[]) && disk.calls() == 0)
}

#[test]
fn of_no_record_none_is_read(rt: HostRuntime) {
    assert!(rt; reads_none(rt.alloc()) == Ok(true));
}

// Whether two records are read, each once. A record of words has the same form.
fn reads_both(alloc: Global, disk: &mut MemDisk) -> Result<bool, HoldRefusal> {
    let types = TypeTexts::read(alloc, disk, WORDS)?;
    Ok(has_texts(&types, &[b"alpha", b"be", b"ab", b"alphabet", b""]) && disk.calls() == 2)
}

fn reads_both_of(alloc: Global) -> Result<bool, HoldRefusal> {
    reads_both(alloc, &mut disk(alloc, &ARCHIVE, &[])?)
}

#[test]
fn each_record_is_read_once(rt: HostRuntime) {
    assert!(rt; reads_both_of(rt.alloc()) == Ok(true));
}

// Keeps the texts of three bytes and more, and leaves the others out.
#[derive(Drop)]
struct LongTexts {
    types: TypeTexts,
}

impl TakesTexts for LongTexts {
    ghost took = { λ _ _ _. Unit {0} };

    fn take(&mut self, text: &[u8]) -> Result<(), AllocError> {
        if text.len() < 3 {
            return self.types.leave_out();
        }
        self.types.keep(text)
    }

    ghost none = { λ _. tt };

    ghost both = { λ _ _ _ _ _ _ _. tt };
}

// Whether texts are left out, each with its number, and each record is read once.
fn leaves_out(alloc: Global, disk: &mut MemDisk) -> Result<bool, HoldRefusal> {
    let types = TypeTexts::begin(alloc, WORDS)?;
    let mut long = LongTexts { types };
    take_texts(disk, WORDS, &mut Vec::new(alloc), &mut long)?;
    let texts: &[&[u8]] = &[b"alpha", b"", b"", b"alphabet", b""];
    Ok(has_texts(&long.types, texts) && long.types.left_out() && disk.calls() == 2)
}

fn leaves_out_of(alloc: Global) -> Result<bool, HoldRefusal> {
    leaves_out(alloc, &mut disk(alloc, &ARCHIVE, &[])?)
}

#[test]
fn texts_are_left_out_as_they_are_read(rt: HostRuntime) {
    assert!(rt; leaves_out_of(rt.alloc()) == Ok(true));
}

// Why the texts of two records of these bytes are not read.
fn refusal(alloc: Global, bytes: &[u8], fails: &[u64]) -> Option<HoldRefusal> {
    match disk(alloc, bytes, fails) {
        Ok(disk) => refusal_on(alloc, disk),
        Err(_) => Some(HoldRefusal::OutOfMemory),
    }
}

fn refusal_on(alloc: Global, mut disk: MemDisk) -> Option<HoldRefusal> {
    TypeTexts::read(alloc, &mut disk, WORDS).err()
}

#[test]
fn each_read_may_fail(rt: HostRuntime) -> Result<(), Fail> {
    for call in 0..3 {
        if refusal(rt.alloc(), &ARCHIVE, &[call]) != (call < 2).then_some(HoldRefusal::DiskFault) {
            return Err(Fail::new(call));
        }
    }
    Ok(())
}

// A place in one of the records, and the byte that comes there: a first number, a count, and a
// length that is too great, and one that leaves a byte behind the last text.
const CHANGES: &[(usize, u8)] = &[(91, 1), (95, 2), (99, 0xFF), (114, 1), (247, 2), (251, 3)];

// The same of the archive's bytes with another one at a place.
fn refusal_by(alloc: Global, at: usize, byte: u8) -> Result<Option<HoldRefusal>, AllocError> {
    let bytes = changed(alloc, at, byte)?;
    Ok(refusal(alloc, bytes.as_slice(), &[]))
}

#[test]
fn a_record_that_spells_no_texts_is_damaged(rt: HostRuntime) -> Result<(), Fail> {
    for &(at, byte) in CHANGES {
        if refusal_by(rt.alloc(), at, byte)? != Some(HoldRefusal::Damaged) {
            return Err(Fail::new(at));
        }
    }
    Ok(())
}

#[test]
fn a_record_that_breaks_off_is_damaged(rt: HostRuntime) {
    let short = refusal(rt.alloc(), &ARCHIVE[..270], &[]);
    assert!(rt; short == Some(HoldRefusal::Damaged));
}
