use crate::telling::holds;
use logtype_text::{
    Kind, Span, Split, Symbol, Symbols, TextRefusal, encode_body, first_symbol, from_text,
    one_list_of_parts, one_type_text, parts_are_cut, plain_front, split, text_ok, to_text,
};
use std::alloc::Global;
use std::test::Fail;
use var_codec::Coded;

// Bodies with the text of their log type.
const BODIES: &[(&[u8], &[u8])] = &[
    (b"", b""),
    (b"\x11\x12\x13\\\xFF", b"\\\x11\\\x12\\\x13\\\\\xFF"),
    (b"x=foo foo bad to", b"x=\x12 foo \x12 to"),
    (
        b"0 -0 007 -1 1. .5 -12.50 1.2.3",
        b"\x11 \x12 \x12 \x11 \x12 \x13 \x13 \x12",
    ),
    (
        b"=\x137\x13\x11\\\x12\x12",
        b"=\\\x13\x11\\\x13\\\x11\\\\\\\x12\\\x12",
    ),
    (b"\x13 \x12 \\7", b"\\\x13 \\\x12 \x12"),
    (b"\x12:.:\x13:\x11x0*", b"\\\x12:.:\\\x13:\\\x11\x12*"),
    (
        b" \x0D-00.0\x11\xFF \x11=:",
        b" \x0D\x13\\\x11\xFF \\\x11=:",
    ),
    (b"\xFF=\x0D:\x11: -3956342703893", b"\xFF=\x0D:\\\x11: \x11"),
    (
        b"[1970-01-01 00:00:00,000].5?1-2  \x11\\=",
        b"[\x12 \x12:\x12:\x12,\x12]\x13?\x12  \\\x11\\\\=",
    ),
    (
        b"2023-11-14T22:13:23 INFO Task, by BE290446 [ContainerID:10.0.0.1]",
        b"\x12:\x11:\x11 INFO Task, by \x12 [ContainerID:\x12]",
    ),
    (
        b"2023-11-14T22:17:57Z DEBUG 172.0.0.1:80",
        b"\x12:\x11:\x12 DEBUG \x12:\x11",
    ),
    (
        b"23/11/14 22:13:54 DEBUG: \xE2\x82\xAC5 failed: done: Task by",
        b"\x11/\x11/\x11 \x11:\x11:\x11 DEBUG: \xE2\x82\xAC\x11 failed: done: Task by",
    ),
];

// Whether the body is cut into symbols that this text spells, and the text is read as them.
fn is_spelled(alloc: Global, body: &[u8], want: &[u8]) -> Result<bool, TextRefusal> {
    let parts = split(alloc, body)?;
    let text = to_text(alloc, &parts.symbols)?;
    let again = from_text(alloc, want)?;
    let well = text.as_slice() == want && again.as_slice() == parts.symbols.as_slice();
    Ok(well && text_ok(want))
}

// What a body is encoded as.
#[derive(Drop)]
struct Encoded {
    text: Vec<u8>,
    codes: Vec<Coded>,
    words: Vec<Span>,
}

impl Encoded {
    fn new(alloc: Global) -> Encoded {
        Encoded {
            text: Vec::new(alloc),
            codes: Vec::new(alloc),
            words: Vec::new(alloc),
        }
    }

    fn fill(&mut self, body: &[u8]) -> Result<(), TextRefusal> {
        encode_body(body, &mut self.text, &mut self.codes, &mut self.words)?;
        Ok(())
    }

    // Whether it is this text with the codes of the body's parts.
    fn is(&self, alloc: Global, body: &[u8], want: &[u8]) -> Result<bool, TextRefusal> {
        let parts = split(alloc, body)?;
        Ok(self.text.as_slice() == want && self.codes.as_slice() == parts.codes.as_slice())
    }
}

#[test]
fn log_types_of_bodies(rt: HostRuntime) -> Result<(), Fail> {
    for (body, want) in BODIES {
        if !is_spelled(rt.alloc(), body, want)? {
            return Err(Fail::from(*body));
        }
    }
    Ok(())
}

// Fails with the first body that is encoded otherwise. The lists are filled again for each.
fn are_encoded(alloc: Global, encoded: &mut Encoded) -> Result<(), Fail> {
    for (body, want) in BODIES {
        encoded.fill(body)?;
        if !encoded.is(alloc, body, want)? {
            return Err(Fail::from(*body));
        }
    }
    Ok(())
}

#[test]
fn bodies_are_encoded(rt: HostRuntime) -> Result<(), Fail> {
    let mut encoded = Encoded::new(rt.alloc());
    are_encoded(rt.alloc(), &mut encoded)
}

#[test]
fn laws_of_splits_stand() {
    one_list_of_parts();
    one_type_text();
    parts_are_cut();
}

const TIMED: &[u8] = b"took 0.335 s, id=ab, 7";

const TIMED_SPANS: &[Span] = &[
    Span { start: 5, end: 10 },
    Span { start: 17, end: 19 },
    Span { start: 21, end: 22 },
];

const TIMED_CODES: &[Coded] = &[Coded::Decimal(0x14F32), Coded::Word, Coded::Whole(7)];

// Symbols of that body, by their places.
const TIMED_SYMBOLS: &[(usize, Symbol)] = &[
    (4, Symbol::Byte(b' ')),
    (5, Symbol::Slot(Kind::Decimal)),
    (13, Symbol::Slot(Kind::Word)),
    (16, Symbol::Slot(Kind::Whole)),
];

// Whether the symbols are so many, and have those of the body at their places.
fn has_symbols(symbols: &[Symbol]) -> bool {
    for (place, symbol) in TIMED_SYMBOLS {
        if symbols.get(*place) != Some(symbol) {
            return false;
        }
    }
    symbols.len() == 17
}

fn has_places(alloc: Global) -> Result<bool, Fail> {
    let parts = split(alloc, TIMED)?;
    Ok(
        parts.spans.as_slice() == TIMED_SPANS
            && parts.codes.as_slice() == TIMED_CODES
            && has_symbols(parts.symbols.as_slice()),
    )
}

#[test]
fn places_of_variables(rt: HostRuntime) -> Result<(), Fail> {
    holds(has_places(rt.alloc()))
}

// The words of that body.
const TIMED_WORDS: &[Span] = &[Span { start: 17, end: 19 }];

fn has_words(encoded: &mut Encoded) -> Result<bool, Fail> {
    encoded.fill(TIMED)?;
    Ok(encoded.words.as_slice() == TIMED_WORDS)
}

fn new_has_words(alloc: Global) -> Result<bool, Fail> {
    let mut encoded = Encoded::new(alloc);
    has_words(&mut encoded)
}

#[test]
fn places_of_words(rt: HostRuntime) -> Result<(), Fail> {
    holds(new_has_words(rt.alloc()))
}

// One split is filled with each of these in turn.
const FILLED: &[&[u8]] = &[
    b"took 0.335 s, id=ab, 7",
    b"",
    b"7 8 9 10 11 12 13 14 15",
    b"no variable, and a longer body than those before it",
    b"x=foo foo bad to",
    b"-1",
];

// Whether a split that was filled is that of this body alone.
fn is_split_of(alloc: Global, filled: &Split, body: &[u8]) -> Result<bool, TextRefusal> {
    let alone = split(alloc, body)?;
    let same = filled.symbols.as_slice() == alone.symbols.as_slice()
        && filled.spans.as_slice() == alone.spans.as_slice()
        && filled.codes.as_slice() == alone.codes.as_slice();
    Ok(same)
}

// Fails with the first body that the split is not of, once it is filled with it.
fn are_splits(alloc: Global, filled: &mut Split) -> Result<(), Fail> {
    for body in FILLED {
        filled.fill(alloc, body)?;
        if !is_split_of(alloc, filled, body)? {
            return Err(Fail::from(*body));
        }
    }
    Ok(())
}

// One split that is filled again and again is that of the last body.
#[test]
fn one_split_of_many_bodies(rt: HostRuntime) -> Result<(), Fail> {
    let mut filled = Split::new(rt.alloc());
    if !filled.symbols.as_slice().is_empty() {
        return Err(Fail::from("a new split has symbols"));
    }
    are_splits(rt.alloc(), &mut filled)
}

// A text that is not good, and where its first fault is.
const BAD_TEXTS: &[(&[u8], usize)] = &[
    (b"a\\", 1),
    (b"\\x", 0),
    (b"\\\\\\", 2),
    (b"\\\x11\\\x14", 2),
    (b"\x11\x12\x13\\\x10", 3),
    (b"\\\x12ab\\\xFF\\", 4),
    (b"\\", 0),
];

// Whether the text is refused at this place.
fn is_refused(alloc: Global, text: &[u8], at: usize) -> bool {
    !text_ok(text)
        && plain_front(text) <= at
        && first_symbol(text).is_none() == (at == 0)
        && from_text(alloc, text).err() == Some(TextRefusal::BadText { at })
}

#[test]
fn texts_that_are_not_good(rt: HostRuntime) {
    for (text, at) in BAD_TEXTS {
        let refused = is_refused(rt.alloc(), text, *at);
        assert!(rt; refused, "at {text:?}");
    }
}

const ESCAPED: &[Symbol] = &[
    Symbol::Byte(b'\\'),
    Symbol::Byte(0x12),
    Symbol::Slot(Kind::Decimal),
    Symbol::Byte(0x14),
];

fn are_escaped(alloc: Global) -> Result<bool, Fail> {
    let symbols = Symbols::new(Vec::from_slice(alloc, ESCAPED)?);
    let text = to_text(alloc, &symbols)?;
    Ok(text.as_slice() == b"\\\\\\\x12\x13\x14".as_slice())
}

#[test]
fn symbols_that_are_escaped(rt: HostRuntime) -> Result<(), Fail> {
    holds(are_escaped(rt.alloc()))
}
