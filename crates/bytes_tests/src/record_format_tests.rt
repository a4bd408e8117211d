use record_format::*;
use std::alloc::{AllocError, Global};
use std::test::Fail;

/// The header of an archive that was created with no limit named.
static HEADER: [u8; 32] = [
    0x43, 0x4C, 0x50, 0x41, 0x52, 0x43, 0x48, 0x0A, 1, 0, 0, 0, 0, 0, 0, 1, 0, 0, 0, 0x80, 0, 0, 0,
    0, 0, 0, 0, 0, 0, 1, 0, 0,
];

/// The files of an archive that took in `a.log`.
static FILES: [u8; 13] = [1, 0, 0, 0, 5, 0, 0, 0, b'a', b'.', b'l', b'o', b'g'];

/// The types of an archive that took in the one line `a`.
static TYPES: [u8; 13] = [0, 0, 0, 0, 1, 0, 0, 0, 1, 0, 0, 0, b'a'];

/// Two words from number 258 on, `x1` and one of no bytes.
static WORDS: [u8; 18] = [2, 1, 0, 0, 2, 0, 0, 0, 2, 0, 0, 0, b'x', b'1', 0, 0, 0, 0];

/// Whether the bytes are no names.
fn are_no_names(alloc: Global, payload: &[u8]) -> bool {
    read_files(alloc, payload).err() == Some(FormatRefusal::Malformed)
}

/// Whether the bytes are no texts.
fn are_no_texts(alloc: Global, payload: &[u8]) -> bool {
    read_texts(alloc, payload).err() == Some(FormatRefusal::Malformed)
}

#[test]
fn header_of_a_new_archive(rt: HostRuntime) -> Result<(), Fail> {
    let header = Header {
        version: 1,
        types_limit: 16_777_216,
        words_limit: 2_147_483_648,
        length_limit: 1_099_511_627_776,
    };
    assert!(rt; write_header(&header) == HEADER);
    assert!(rt; read_header(&HEADER).ok_or("a header")? == header);
    Ok(())
}

/// A field's first byte, the bytes put there, and whether they make a header still.
const FIELDS_OUT_OF_RANGE: &[(usize, [u8; 4], bool)] = &[
    (0, [0x43, 0x4C, 0x50, 0x42], false),
    (4, [0x52, 0x43, 0x48, 0x0D], false),
    (8, [0, 0, 0, 0], false),
    (8, [2, 0, 0, 0], true),
    (8, [3, 0, 0, 0], true),
    (8, [4, 0, 0, 0], false),
    (8, [1, 0, 0, 1], false),
    (12, [0, 0, 0, 0], false),
    (12, [1, 0, 0, 0], true),
    (12, [0, 0, 0, 0x80], true),
    (12, [1, 0, 0, 0x80], false),
    (16, [0, 0, 0, 0], false),
    (16, [1, 0, 0, 0], true),
    (16, [0, 0, 0, 0x80], true),
    (16, [1, 0, 0, 0x80], false),
    (20, [1, 0, 0, 0], false),
    (20, [0, 0, 0, 1], false),
    (24, [1, 0, 0, 0], false),
    (28, [0, 0, 0, 0], false),
    (28, [0, 2, 0, 0], false),
];

/// Whether the header with a field of four bytes at a place is one still.
fn is_header(at: usize, field: [u8; 4]) -> bool {
    let mut bytes = HEADER;
    match bytes.get_mut(at..at.saturating_add(4)) {
        Some(place) => place.copy_from_slice(&field),
        None => return false,
    }
    read_header(&bytes).is_some()
}

#[test]
fn fields_out_of_range(rt: HostRuntime) {
    for &(at, field, stays) in FIELDS_OUT_OF_RANGE {
        assert!(rt; is_header(at, field) == stays, "{field:?} at {at}");
    }
}

/// Whether an archive may have at most so many bytes.
fn may_have(most: u8) -> bool {
    let mut least = HEADER;
    least[28] = 0;
    least[29] = 0;
    least[24] = most;
    read_header(&least).is_some()
}

#[test]
fn the_least_length(rt: HostRuntime) {
    assert!(rt; may_have(33) && !may_have(32));
}

/// Whether the bytes are read as the one name, and written so.
fn is_one_name(alloc: Global, payload: &[u8], name: &[u8]) -> Result<bool, AllocError> {
    let Ok(read) = read_files(alloc, payload) else {
        return Ok(false);
    };
    let [one] = read.as_slice() else {
        return Ok(false);
    };
    let written = write_files(alloc, &read)?;
    Ok(one.as_slice() == name && written.as_slice() == payload)
}

#[test]
fn files_both_ways(rt: HostRuntime) -> Result<(), Fail> {
    let well = is_one_name(rt.alloc(), &FILES, b"a.log")?;
    assert!(rt; well);
    Ok(())
}

/// Whether the bytes are read as so many texts from this number on, and written so.
fn are_texts(alloc: Global, payload: &[u8], first: u32, count: usize) -> Result<bool, AllocError> {
    let Ok(read) = read_texts(alloc, payload) else {
        return Ok(false);
    };
    let written = write_texts(alloc, read.first, &read.texts)?;
    let told = read.first == first && read.texts.as_slice().len() == count;
    Ok(told && written.as_slice() == payload)
}

#[test]
fn texts_both_ways(rt: HostRuntime) -> Result<(), Fail> {
    let types = are_texts(rt.alloc(), &TYPES, 0, 1)?;
    let words = are_texts(rt.alloc(), &WORDS, 258, 2)?;
    assert!(rt; types && words);
    Ok(())
}

#[test]
fn cuts_of_names(rt: HostRuntime) {
    for end in 0..FILES.len() {
        assert!(rt; are_no_names(rt.alloc(), &FILES[..end]), "{end}");
    }
}

#[test]
fn cuts_of_texts(rt: HostRuntime) {
    for end in 0..WORDS.len() {
        assert!(rt; are_no_texts(rt.alloc(), &WORDS[..end]), "{end}");
    }
}

const NAMES_BY_ONE_OFF: &[&[u8]] = &[
    // a byte after the last name
    b"\x01\0\0\0\x01\0\0\0a\0",
    // the count one too high, and one too low
    b"\x02\0\0\0\x05\0\0\0a.log",
    b"\0\0\0\0\x05\0\0\0a.log",
    // the length of the name one too high
    b"\x01\0\0\0\x06\0\0\0a.log",
    // more names than bytes
    b"\xff\xff\xff\xff\x01\0\0\0a\0\0\0\0\0\0\0\0\0\0\0",
];

#[test]
fn names_by_one_off(rt: HostRuntime) {
    for &payload in NAMES_BY_ONE_OFF {
        assert!(rt; are_no_names(rt.alloc(), payload), "{payload:?}");
    }
    assert!(rt; read_files(rt.alloc(), b"\0\0\0\0").is_ok(), "no names");
}

const TEXTS_BY_ONE_OFF: &[&[u8]] = &[
    // a byte after the last text
    b"\0\0\0\0\x01\0\0\0\x01\0\0\0a\0",
    // the count one too high, and one too low
    b"\0\0\0\0\x02\0\0\0\x01\0\0\0a",
    b"\0\0\0\0\x02\0\0\0\x05\0\0\0abcde",
    b"\0\0\0\0\0\0\0\0\x01\0\0\0a",
    // the length of a text one too high
    b"\0\0\0\0\x01\0\0\0\x02\0\0\0a",
    b"\x02\x01\0\0\x02\0\0\0\x03\0\0\0x1\0\0\0\0",
    // more texts than bytes
    b"\0\0\0\0\xff\xff\xff\xff\x01\0\0\0a",
];

#[test]
fn texts_by_one_off(rt: HostRuntime) {
    for &payload in TEXTS_BY_ONE_OFF {
        assert!(rt; are_no_texts(rt.alloc(), payload), "{payload:?}");
    }
    assert!(rt;
        read_texts(rt.alloc(), b"\0\0\0\0\0\0\0\0").is_ok(),
        "no texts"
    );
}

/// Whether a walk along the payload gives the first number, and texts with these bytes together.
fn walks_to(payload: &[u8], first: u32, joined: &[u8]) -> bool {
    let Some(front) = texts_front(payload) else {
        return false;
    };
    let mut rest = front.rest;
    let mut left = joined;
    for _ in 0..front.count {
        let Some((text, after)) = next_text(rest) else {
            return false;
        };
        let Some(behind) = left.strip_prefix(text) else {
            return false;
        };
        left = behind;
        rest = after;
    }
    front.first == first && rest.is_empty() && left.is_empty()
}

/// A payload, the number of its first text, and the bytes of its texts.
const WALKS: &[(&[u8], u32, &[u8])] = &[
    // those of `TYPES` and `WORDS`
    (b"\0\0\0\0\x01\0\0\0\x01\0\0\0a", 0, b"a"),
    (b"\x02\x01\0\0\x02\0\0\0\x02\0\0\0x1\0\0\0\0", 258, b"x1"),
    // no texts
    (b"\0\0\0\0\0\0\0\0", 0, b""),
];

#[test]
fn walks(rt: HostRuntime) {
    for &(payload, first, joined) in WALKS {
        assert!(rt; walks_to(payload, first, joined), "{payload:?}");
    }
    for &payload in TEXTS_BY_ONE_OFF {
        assert!(rt; !walks_to(payload, 0, b"a"), "{payload:?}");
    }
}

#[test]
fn laws_hold() {
    headers_are_unique();
    files_are_unique();
    texts_are_unique();
}
