ghost use Rattle.std.specs.Prelude.{◌<◌};

use std::alloc::{AllocError, Global};
use std::test::Fail;
use wild_match::laws::{one_lone_backslash, one_spelling, spelled_or_lone};
use wild_match::{Item, Matcher, Pattern, PatternRefusal, matches, read_pattern, widen};

/// A pattern's text and a message, as hexadecimal digits or `-` for no bytes, and the answer: 1 or
/// 0, or `bad` and the place of a `\` that escapes nothing.
const TABLE: &str = "\
5c2a2a2a 62ff622aff2a3f2a20 1\n\
2a5c3f 62ff3f 1\n\
3f2a5c5c2a 6120613f2a2a5c623f 1\n\
61622a2a615c61 2a6162ff3f2a6161 1\n\
202a5c62 5c2062 1\n\
5c5c2a2a3f 3f5c3f3f 1\n\
2a3f5c3f 6162ff3f612a2a 1\n\
2a2a5c62 5c625c62 1\n\
5c3f2a2a2a61 ff2062ff3f2a615c 1\n\
2a2a5c202a2a2a 5c202a3f3f 1\n\
2a5c3f2a ff3fffff2a623f 1\n\
623f5c3f3f 3f5cff623f3f626262 1\n\
3f5c3f3f 3f2aff61ff3fff5c 1\n\
5c3f3f2a 2a5c3f6261ffff 1\n\
2a202a2a 202a 1\n\
2a2a20202a 202061 1\n\
202a2a2a3f ff3f62ff206262 1\n\
2a622a622a20 3fff5cff3f6262203f 1\n\
2a3f2a2a 3f3f5c6161ffff61 1\n\
2a2a3f2a3f3f2a 616220 1\n\
2a202a612a 20612a3fff62ff 1\n\
2a2a2a6161 2a61612a 1\n\
2a3f3f3f 3f613f2a62ff6262 1\n\
3f2a2a3f 5c2a5c206120 1\n\
2a2a3f2a2a 3f20202a5c 1\n\
2a2a3f3f 3f5c5c5c2a61 1\n\
2a623f2a2a2a 5c62ff6220622a 1\n\
2a3f202a 5c20612a62623f62 1\n\
2a2a3f203f 20ff206120 1\n\
203f2a 20622a5cff2020622a 1\n\
3f ff20202a5c5c3f20 1\n\
3f 20ff3f5c3f 1\n\
3f 612a2a61 1\n\
3f2a ff2a2aff3f20 1\n\
3f2a 202a3f 1\n\
3f3f 625c202a 1\n\
2a2a3f 2020ff5c612a 1\n\
3f ff62612a2a 1\n\
3f 2a5c20 1\n\
3f 623f61 1\n\
3f2a2a ff3f3f3f5c5c2a 1\n\
3f3f 3f5c5c3f 1\n\
3f 5cff5c5c 1\n\
3f 61 1\n\
2a613f613f2a2a 613f2a2a623f616120 0\n\
3f613f3f2a61 ff5c3f623f613f62 0\n\
2a2a622062 ff5c626262ff612a 0\n\
62203f202a2a20 62626261623f2a3f 0\n\
2a61622a61 61ff5c202061 0\n\
612a61612a 203f61ff2a203f2a20 0\n\
622a62 62205c3f3f615c3f20 0\n\
623f2a202a 612a623f625c623f 0\n\
2a62613f 2a615c203f202a3f 0\n\
625c2a 20ff625c61 0\n\
2a62 5c202061ff20 0\n\
5c622a3f61 20615c203f2a2a 0\n\
202a2a 3f2a62615cff62 0\n\
61202a612a 6161ff625c2aff 0\n\
612a5c612a61 613f3f3f625c61 0\n\
3f62 613f61612a61ff 0\n\
622a61622a 206262ff5c5c 0\n\
5c2a622a 625c3f20ff 0\n\
2a205c20 615c61203f 0\n\
2a2a6261202a 5c3fff2a20615c3f62 0\n\
5c2a206220 622aff3f6120ff625c 0\n\
3f613f 62ff625c5c2a 0\n\
202a5c622a 2a20613f3f5cff 0\n\
5c202a5c20 3f6120613f5c61 0\n\
2a612a61 ff2a622a622a5c6262 0\n\
61622a3f203f61 2062ff612aff5c205c 0\n\
5c6120612a5c2a 2a61ffff20ff61ff 0\n\
2a62 2a615c613f 0\n\
2a612a3f202a 3f5cff5cff206262 0\n\
62203f ff5c205c61 0\n\
5c613f2a2062 615c3fff3fff20 0\n\
3f623f203f 2a2a612aff6161 0\n\
2a5c2a ff3f20ff5cff 0\n\
622a625c622a ff2062613f2a3f3f5c 0\n\
2a6262 5c3fff5c 0\n\
20202a3f2a 622a5c3f62202a5c20 0\n\
615c2a 623f203f5c5c 0\n\
623f2020 3f3f5c625c3f2a 0\n\
612a202a2062 5c2a5c3f2a61202a61 0\n\
622a 613f61 0\n\
5c ff613f61 bad0\n\
615c61615c2a5c 20 bad6\n\
612020625c - bad4\n\
62612a205c 5c61ff2a5c62623f20 bad4\n\
3f613f2a3f5c 5c623f20ffff bad5\n\
626261615c - bad4\n\
2a3f5c 5c bad2\n\
62613f5c 62615c3f205c3f bad3\n\
623f3f2062205c - bad6\n\
2a3f2a2a3f205c 3f5c3fff3f2a bad6\n\
62205c2a2a2a5c 5c2aff2a623f2a bad6\n\
3f2a5c 3f bad2\n\
5c 5c622a206262616262 bad0\n\
5c61615c 203fff6220 bad3\n\
202a5c ff bad2\n\
- 2a202a2061206161ff 1\n\
- ff612020202061 1\n\
- 203f203f5cff 1\n\
- 612a622a5c 1\n\
2a2a - 1\n\
3f20623f20 - 0\n\
61 - 0\n\
202a - 0\n\
205c2a2a - 0\n\
623f622062 - 0\n\
5c - bad0\n\
62613f5c - bad3\n\
";

fn digit(code: u8) -> u8
    ensures { result < 16 }
{
    match code {
        b'0'..=b'9' => code - b'0',
        b'a'..=b'f' => code - b'a' + 10,
        _ => 0,
    }
}

fn bytes_of(alloc: Global, digits: &str) -> Result<Vec<u8>, AllocError> {
    let mut bytes = Vec::new(alloc);
    let (pairs, _) = digits.as_bytes().as_chunks::<2>();
    for pair in pairs {
        bytes.push(digit(pair[0]) * 16 + digit(pair[1]))?;
    }
    Ok(bytes)
}

/// Whether a pattern matches a message, or the place of a `\` that escapes nothing.
type Answer = Result<bool, usize>;

/// The answer in the table's words.
fn answer_of(word: &[u8]) -> Option<Answer> {
    match word {
        b"1" => Some(Ok(true)),
        b"0" => Some(Ok(false)),
        [b'b', b'a', b'd', place] => Some(Err(usize::from(place.wrapping_sub(b'0')))),
        _ => None,
    }
}

/// Whether that is what reading the text and matching the message answers.
fn is_answered(
    alloc: Global,
    text: &[u8],
    message: &[u8],
    want: Answer,
) -> Result<bool, AllocError> {
    let pattern = match read_pattern(alloc, text) {
        Ok(pattern) => pattern,
        Err(PatternRefusal::BadPattern { at }) => return Ok(want == Err(at)),
        Err(PatternRefusal::OutOfMemory) => return Err(AllocError),
    };
    let wide = widen(alloc, &pattern)?;
    let matcher = Matcher::new(alloc, &pattern)?;
    Ok(match want {
        Ok(true) => both_answer(&pattern, &matcher, message, true) && matches(&wide, message),
        Ok(false) => both_answer(&pattern, &matcher, message, false),
        Err(_) => false,
    })
}

/// Whether the row's text and message answer what they are to.
fn row_holds(alloc: Global, row: &str) -> Result<bool, Fail> {
    let (text, rest) = row.split_once(' ').ok_or("a text")?;
    let (message, want) = rest.split_once(' ').ok_or("a message")?;
    let want = answer_of(want.as_bytes()).ok_or("an answer")?;
    let text = bytes_of(alloc, text)?;
    let message = bytes_of(alloc, message)?;
    Ok(is_answered(alloc, text.as_slice(), message.as_slice(), want)?)
}

#[test]
fn answers_of_a_table(rt: HostRuntime) -> Result<(), Fail> {
    for row in TABLE.lines() {
        let holds = row_holds(rt.alloc(), row)?;
        assert!(rt; holds, "at {row}");
    }
    Ok(())
}

/// A pattern's text, a message, the answer.
const LINES: &[(&[u8], &[u8], Answer)] = &[
    (b"12*34", b"12534", Ok(true)),
    (b"12*34", b"12 34", Ok(true)),
    (b"12*34", b"a12*34", Ok(true)),
    (b"12*34", b"1234", Ok(true)),
    (b"12*34", b"34 12", Ok(false)),
    (b"12\\*34", b"12534", Ok(false)),
    (b"12\\*34", b"12 34", Ok(false)),
    (b"12\\*34", b"a12*34", Ok(true)),
    (b"", b"", Ok(true)),
    (b"", b"any", Ok(true)),
    (b"?", b"", Ok(false)),
    (b"?", b"x", Ok(true)),
    (b"\\?", b"x", Ok(false)),
    (b"a\\\\b", b"a\\b", Ok(true)),
    (b"ab\\", b"ab", Err(2)),
    (b"ab\\\\\\", b"ab", Err(4)),
    (
        b"?????????????????????????????????b",
        b"a line of which too little is left b",
        Ok(true),
    ),
    (
        b"a needle that is longer than the room beside it",
        b"..a needle that is longer than the room beside it",
        Ok(true),
    ),
    (
        b"a needle that is longer than the room beside it",
        b"a needle that is longer than the room beside him",
        Ok(false),
    ),
    (b"x*", b"axb", Ok(true)),
];

#[test]
fn answers_for_lines(rt: HostRuntime) -> Result<(), Fail> {
    for &(text, message, want) in LINES {
        let well = is_answered(rt.alloc(), text, message, want)?;
        assert!(rt; well, "{text:?} at {message:?}");
    }
    Ok(())
}

/// The definition itself, tried in every way.
fn slow(items: &[Item], bytes: &[u8]) -> bool {
    if items.is_empty() {
        return bytes.is_empty();
    }
    match items[0] {
        Item::Many => slow(&items[1..], bytes) || (!bytes.is_empty() && slow(items, &bytes[1..])),
        Item::One => !bytes.is_empty() && slow(&items[1..], &bytes[1..]),
        Item::Byte(byte) => {
            !bytes.is_empty() && bytes[0] == byte && slow(&items[1..], &bytes[1..])
        }
    }
}

/// The pattern of a text, and its matcher.
fn read(alloc: Global, text: &[u8]) -> Result<(Pattern, Matcher), Fail> {
    let pattern = read_pattern(alloc, text).ok().ok_or("a pattern")?;
    let matcher = Matcher::new(alloc, &pattern)?;
    Ok((pattern, matcher))
}

/// Whether the pattern and its matcher answer for the line as wanted.
fn both_answer(pattern: &Pattern, matcher: &Matcher, line: &[u8], want: bool) -> bool {
    matches(pattern, line) == want && matcher.matches(line) == want
}

#[test]
fn many_wildcards_over_lines_of_one_byte(rt: HostRuntime) -> Result<(), Fail> {
    let alloc = rt.alloc();
    let (pattern, matcher) = read(alloc, b"a*a*a*b")?;
    let line = [b'a'; 14];
    for len in 0..14usize {
        let line = line.get(..len).unwrap_or(b"");
        let want = slow(pattern.as_slice(), line);
        assert!(rt; !want && both_answer(&pattern, &matcher, line, want));
    }
    let line = b"aaaaaaaaaaaaaab";
    let want = slow(pattern.as_slice(), line);
    assert!(rt; want && both_answer(&pattern, &matcher, line, want));
    Ok(())
}

#[test]
fn many_wildcards_over_a_long_line(rt: HostRuntime) -> Result<(), Fail> {
    let (pattern, matcher) = read(rt.alloc(), b"a*a*a*b")?;
    let long = Vec::from_elem(rt.alloc(), b'a', 100_000)?;
    assert!(rt; both_answer(&pattern, &matcher, long.as_slice(), false));
    Ok(())
}

const SHORT_LINES: &[&[u8]] = &[b"", b"ab", b"axxb", b"abab", b"ba", b"a"];

const PATTERNS: &[&[Item]] = &[
    &[],
    &[Item::Byte(b'a'), Item::Byte(b'b')],
    &[Item::Byte(b'a'), Item::Many, Item::Byte(b'b')],
    &[Item::One, Item::Many, Item::Byte(b'a'), Item::One],
    &[Item::Many],
];

/// Whether the items answer for each of the short lines as their definition does.
fn answer_as_defined(alloc: Global, items: &[Item]) -> Result<bool, AllocError> {
    let pattern = Pattern::new(Vec::from_slice(alloc, items)?);
    let matcher = Matcher::new(alloc, &pattern)?;
    for line in SHORT_LINES {
        if !both_answer(&pattern, &matcher, line, slow(items, line)) {
            return Ok(false);
        }
    }
    Ok(true)
}

#[test]
fn patterns_that_begin_and_end_with_a_byte(rt: HostRuntime) -> Result<(), Fail> {
    for items in PATTERNS {
        let well = answer_as_defined(rt.alloc(), items)?;
        assert!(rt; well, "{items:?}");
    }
    Ok(())
}

/// A place, and that of the next needle of the pattern from there.
const PLACES: &[(usize, Option<usize>)] = &[
    (0, Some(2)),
    (2, Some(2)),
    (3, Some(6)),
    (7, None),
    (9, None),
];

#[test]
fn needles(rt: HostRuntime) -> Result<(), Fail> {
    let (_, matcher) = read(rt.alloc(), b"ab*cde?f")?;
    assert!(rt; matcher.needle() == b"cde".as_slice());
    for (from, want) in PLACES {
        let found = matcher.next_needle(b"abcde cde", *from);
        assert!(rt; found == *want, "from {from}");
    }
    Ok(())
}

#[test]
fn no_needle(rt: HostRuntime) -> Result<(), Fail> {
    let (_, matcher) = read(rt.alloc(), b"?")?;
    assert!(rt; matcher.needle() == b"".as_slice() && matcher.next_needle(b"ab", 1) == Some(1));
    Ok(())
}

#[test]
fn laws_of_spelling_stand() {
    one_spelling();
    one_lone_backslash();
    spelled_or_lone();
}
