//! Lines that make books, or want something of them.
use crate::books::Books;
use crate::texts::{byte_of, small_of, text_of};
use row_codec::Names;
use std::alloc::{AllocError, Global};

/// Begins with other books, which have no texts.
fn begin(alloc: Global, books: &mut Books, version: &str, limit: &str) -> bool {
    let limit = small_of(limit);
    *books = Books::new(alloc, byte_of(version), limit.max(1).min(65_536));
    true
}

/// Adds a log type.
fn add_type(alloc: Global, books: &mut Books, text: &str) -> Result<bool, AllocError> {
    let text = text_of(alloc, text)?;
    Ok(books.add_type(text.as_slice()).is_ok())
}

/// Adds a word.
fn add_word(alloc: Global, books: &mut Books, text: &str) -> Result<bool, AllocError> {
    let text = text_of(alloc, text)?;
    Ok(books.add_word(text.as_slice()).is_ok())
}

/// The text of a log type, its number in letters, which has so many slots of each kind.
fn type_text(alloc: Global, number: u32, slots: u32) -> Result<Vec<u8>, AllocError> {
    let mut text = Vec::from_slice(alloc, b"many ")?;
    for part in [number, number / 16, number / 256, number / 4_096] {
        text.push(b'a' + (part & 15) as u8)?;
    }
    for _ in 0..slots {
        text.extend_from_slice(b" \x11 \x12 \x13")?;
    }
    Ok(text)
}

/// Adds so many log types.
fn add_many(alloc: Global, books: &mut Books, count: u32, slots: u32) -> Result<bool, AllocError> {
    for number in 0..count {
        let text = type_text(alloc, number, slots)?;
        if books.add_type(text.as_slice()).is_err() {
            return Ok(false);
        }
    }
    Ok(true)
}

/// Whether a log type has this number.
fn is_type(alloc: Global, books: &Books, text: &str, number: &str) -> Result<bool, AllocError> {
    let text = text_of(alloc, text)?;
    Ok(books.type_number(text.as_slice()) == Some(small_of(number)))
}

/// Whether a word has this number.
fn is_word(alloc: Global, books: &Books, text: &str, number: &str) -> Result<bool, AllocError> {
    let text = text_of(alloc, text)?;
    Ok(books.word_number(text.as_slice()) == Some(small_of(number)))
}

/// Whether there are so many log types and words.
fn counts_are(books: &Books, types: &str, words: &str) -> bool {
    books.counts() == (small_of(types), small_of(words))
}

/// Carries out a line that is about books; None where it is about something else.
pub(crate) fn over_books(
    alloc: Global,
    books: &mut Books,
    line: &[&str],
) -> Option<Result<bool, AllocError>> {
    Some(match line {
        ["books", version, limit] => Ok(begin(alloc, books, version, limit)),
        ["type", text] => add_type(alloc, books, text),
        ["word", text] => add_word(alloc, books, text),
        ["many", count, slots] => { add_many(alloc, books, small_of(count), small_of(slots)) }
        ["type_is", text, number] => is_type(alloc, books, text, number),
        ["word_is", text, number] => is_word(alloc, books, text, number),
        ["counts", types, words] => Ok(counts_are(books, types, words)),
        _ => return None,
    })
}
