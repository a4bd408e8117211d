//! Log types as they are read from a record.

use crate::archive::disk;
use std::alloc::{AllocError, Global};
use word_places::{HoldRefusal, TypeTexts, WordsPlace};

/// How many log types stand before two others, so that these are behind all that have their slots
/// kept.
pub(crate) const MANY: u32 = 1100;

// A log type with two numbers, behind its length.
const NUMBERS: &[u8] = b"\x03\0\0\0\x11 \x11";

// One with a word, and one with a number before its word, where a byte that is escaped is no slot.
const WITH_WORDS: &[u8] = b"\x04\0\0\0of \x12\x09\0\0\0\\\x12 \x11 of \x12";

// The payload of a record with so many log types before the last two.
fn payload(alloc: Global, before: u32) -> Result<Vec<u8>, AllocError> {
    let mut bytes = Vec::new(alloc);
    bytes.extend_from_slice(&[0; 4])?;
    bytes.extend_from_slice(&before.saturating_add(2).to_le_bytes())?;
    for _ in 0..before {
        bytes.extend_from_slice(NUMBERS)?;
    }
    bytes.extend_from_slice(WITH_WORDS)?;
    Ok(bytes)
}

/// So many log types with numbers, one with a word, and one with a number and a word.
pub(crate) fn log_types(alloc: Global, before: u32) -> Result<TypeTexts, HoldRefusal> {
    let bytes = payload(alloc, before)?;
    let place = WordsPlace {
        payload: 0,
        length: bytes.len() as u64,
        first: 0,
        count: before.saturating_add(2),
    };
    let mut disk = disk(alloc, bytes.as_slice(), &[])?;
    TypeTexts::read(alloc, &mut disk, &[place])
}
