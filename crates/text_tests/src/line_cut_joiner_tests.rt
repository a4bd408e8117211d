use crate::line_cut_tests::{faulty, text};
use crate::telling::holds;
use line_cut::{Cut, Heads, Joiner, MAX_LINE_LEN, Mark};
use log_seams::{PlainSource, Source};
use plain_list::Text;
use std::alloc::{AllocError, Global};
use std::test::Fail;

// Lines with a star in front begin a message.
#[derive(Clone, Copy, Debug)]
struct Stars;

impl Heads for Stars {
    ghost use Rattle.std.specs.Prelude.{[], ◌∷◌, IsTrue, nat_eq};
    ghost use Rattle.std.specs.List.{starts_with};

    ghost starts = { λ _ line. IsTrue (starts_with nat_eq line (42 ∷ [])) };

    fn begins(&self, line: &[u8]) -> bool {
        line.starts_with(b"*")
    }
}

// The messages that are expected, each with whether a newline followed it, and then the end or an
// error.
#[derive(Drop)]
struct Row<'a> {
    bytes: &'a [u8],
    max_line: usize,
    max_messages: u64,
    messages: &'a [(&'a [u8], bool)],
    end: Result<(), Cut>,
}

// Whether `next` gives this message.
fn gives_piece<S: Source>(joiner: &mut Joiner<S, Stars>, message: &[u8], ended: bool) -> bool {
    match joiner.next() {
        Ok(Some(piece)) => piece.line.as_slice() == message && piece.ended == ended,
        _ => false,
    }
}

// Whether `next` and `advance` give the end, or the error.
fn ends<S: Source>(joiner: &mut Joiner<S, Stars>, end: Result<(), Cut>) -> bool {
    let by_next = match joiner.next() {
        Ok(piece) => piece.is_none() && end.is_ok(),
        Err(cut) => Err(cut) == end,
    };
    by_next && joiner.advance() == end.map(|()| None) && joiner.line().is_empty()
}

// Whether that is all that a joiner gives, by `next` and by `advance` in turn, also where it is asked twice
// more behind the end.
fn gives<S: Source>(
    joiner: &mut Joiner<S, Stars>,
    messages: &[(&[u8], bool)],
    end: Result<(), Cut>,
) -> bool {
    for (number, row) in messages.iter().enumerate() {
        let (message, ended) = *row;
        let given = if number % 2 == 0 {
            gives_piece(joiner, message, ended)
        } else {
            joiner.advance() == Ok(Some(Mark { ended }))
        };
        if !given || joiner.line() != message {
            return false;
        }
    }
    ends(joiner, end) && ends(joiner, end)
}

// Inputs with limits, and what is joined.
const ROWS: &[Row<'static>] = &[
    Row {
        bytes: b"",
        max_line: 9,
        max_messages: 9,
        messages: &[],
        end: Ok(()),
    },
    // lines without a star are messages of their own, also in front of all others
    Row {
        bytes: b"x\ny",
        max_line: 9,
        max_messages: 9,
        messages: &[(b"x", true), (b"y", false)],
        end: Ok(()),
    },
    Row {
        bytes: b"x\n\n*a\n b\n\nc\n*d\n*\n",
        max_line: 9,
        max_messages: 9,
        messages: &[
            (b"x", true),
            (b"", true),
            (b"*a\n b\n\nc", true),
            (b"*d", true),
            (b"*", true),
        ],
        end: Ok(()),
    },
    // a last line without its newline goes on or begins, too
    Row {
        bytes: b"*a\nb",
        max_line: 9,
        max_messages: 9,
        messages: &[(b"*a\nb", false)],
        end: Ok(()),
    },
    Row {
        bytes: b"*a\n*b",
        max_line: 9,
        max_messages: 9,
        messages: &[(b"*a", true), (b"*b", false)],
        end: Ok(()),
    },
    // a message has no more bytes than a line may; the lines behind it stand alone then
    Row {
        bytes: b"*a\nbc\nd\ne\n",
        max_line: 5,
        max_messages: 9,
        messages: &[(b"*a\nbc", true), (b"d", true), (b"e", true)],
        end: Ok(()),
    },
    Row {
        bytes: b"*a\nbcd\ne\n",
        max_line: 5,
        max_messages: 9,
        messages: &[(b"*a", true), (b"bcd", true), (b"e", true)],
        end: Ok(()),
    },
    // a line more than allowed: the message before it is given
    Row {
        bytes: b"x\ny",
        max_line: 9,
        max_messages: 1,
        messages: &[(b"x", true)],
        end: Err(Cut::TooManyLines),
    },
    Row {
        bytes: b"*a\nb\n*c\n",
        max_line: 9,
        max_messages: 1,
        messages: &[(b"*a\nb", true)],
        end: Err(Cut::TooManyLines),
    },
    Row {
        bytes: b"*a\nb\nc\n",
        max_line: 9,
        max_messages: 1,
        messages: &[(b"*a\nb\nc", true)],
        end: Ok(()),
    },
    // a line that is too long: the same, and its length goes first
    Row {
        bytes: b"*a\nb\ncdefgh",
        max_line: 5,
        max_messages: 9,
        messages: &[(b"*a\nb", true)],
        end: Err(Cut::LineTooLong { line: 3 }),
    },
    Row {
        bytes: b"*a\nbcdefg\n",
        max_line: 5,
        max_messages: 1,
        messages: &[(b"*a", true)],
        end: Err(Cut::LineTooLong { line: 2 }),
    },
    Row {
        bytes: b"*bcdef",
        max_line: 5,
        max_messages: 0,
        messages: &[],
        end: Err(Cut::LineTooLong { line: 1 }),
    },
];

// Whether a source is joined so within these limits.
fn is_joined<S: Source + Drop>(
    alloc: Global,
    source: S,
    limits: (usize, u64),
    messages: &[(&[u8], bool)],
    end: Result<(), Cut>,
) -> bool {
    let (max_line, max_messages) = limits;
    if max_line < 1 || max_line > MAX_LINE_LEN || max_messages > MOST_MESSAGES {
        return false;
    }
    match Joiner::new(alloc, source, Stars, max_line, max_messages) {
        Ok(mut joiner) => gives(&mut joiner, messages, end),
        Err(_) => false,
    }
}

// The most messages that a limit may allow.
const MOST_MESSAGES: u64 = 4_294_967_294;

fn row_is_joined(alloc: Global, row: &Row<'_>) -> Result<bool, AllocError> {
    let source = PlainSource::new(text(alloc, row.bytes)?);
    let limits = (row.max_line, row.max_messages);
    Ok(is_joined(alloc, source, limits, row.messages, row.end))
}

#[test]
fn messages_and_limits(rt: HostRuntime) -> Result<(), Fail> {
    for row in ROWS {
        if !row_is_joined(rt.alloc(), row)? {
            return Err(Fail::from(row.bytes));
        }
    }
    Ok(())
}

const ONE: &[(&[u8], bool)] = &[(b"x", true)];

const ALL: &[(&[u8], bool)] = &[(b"x", true), (b"*a\nb", true), (b"*c", false)];

// What is joined of four lines: the number of the read that fails, from 0. Each read gives one of the
// bytes, and the one behind them the end.
type Faulty = (u64, &'static [(&'static [u8], bool)], Result<(), Cut>);

const FAULTY: &[Faulty] = &[
    (0, &[], Err(Cut::ReadFault)),
    (1, &[], Err(Cut::ReadFault)),
    // behind a line without a star nothing is looked at, and it is given
    (2, ONE, Err(Cut::ReadFault)),
    (3, ONE, Err(Cut::ReadFault)),
    // behind one with a star the next line is not whole, and more might belong to it
    (5, ONE, Err(Cut::ReadFault)),
    (6, ONE, Err(Cut::ReadFault)),
    (7, ONE, Err(Cut::ReadFault)),
    (8, ONE, Err(Cut::ReadFault)),
    (9, ONE, Err(Cut::ReadFault)),
    // the end of the input was met once, and is not read for again
    (10, ALL, Ok(())),
];

// Whether four lines are joined so where the read with this number fails, and the fault is counted.
fn breaks_off(
    alloc: Global,
    fails: u64,
    messages: &[(&[u8], bool)],
    end: Result<(), Cut>,
) -> Result<bool, AllocError> {
    let source = faulty(alloc, b"x\n*a\nb\n*c", fails)?;
    let Ok(mut joiner) = Joiner::new(alloc, source, Stars, 4, 9) else {
        return Ok(false);
    };
    let well = gives(&mut joiner, messages, end);
    let failed = u64::from(end == Err(Cut::ReadFault));
    Ok(well && joiner.into_source().log.faults() == failed)
}

#[test]
fn the_messages_before_a_fault(rt: HostRuntime) -> Result<(), Fail> {
    for (fails, messages, end) in FAULTY {
        if !breaks_off(rt.alloc(), *fails, messages, *end)? {
            return Err(Fail::new(*fails));
        }
    }
    Ok(())
}

// A first line of 1,048,570 bytes, and this line behind it.
fn long_message(alloc: Global, second: &[u8]) -> Result<Vec<u8>, AllocError> {
    let mut both = b"*".to_vec(alloc)?;
    both.resize(1_048_570, b'x')?;
    both.push(b'\n')?;
    both.extend_from_slice(second)?;
    Ok(both)
}

// Whether the bytes are joined to these messages within the greatest limits.
fn are_joined(alloc: Global, bytes: &[u8], messages: &[(&[u8], bool)]) -> Result<bool, Fail> {
    let source = PlainSource::new(text(alloc, bytes)?);
    let limits = (MAX_LINE_LEN, MOST_MESSAGES);
    Ok(is_joined(alloc, source, limits, messages, Ok(())))
}

fn both_are_one(alloc: Global) -> Result<bool, Fail> {
    let both = long_message(alloc, b"12345")?;
    are_joined(alloc, both.as_slice(), &[(both.as_slice(), false)])
}

// Six bytes short of the limit, a newline and five bytes more are one message.
#[test]
fn a_message_of_the_greatest_limit(rt: HostRuntime) -> Result<(), Fail> {
    holds(both_are_one(rt.alloc()))
}

fn both_are_two(alloc: Global) -> Result<bool, Fail> {
    let both = long_message(alloc, b"123456")?;
    let first = both.get(..1_048_570).unwrap_or(b"none");
    let messages = [(first, true), (b"123456".as_slice(), false)];
    are_joined(alloc, both.as_slice(), &messages)
}

#[test]
fn a_line_past_the_greatest_limit_stands_alone(rt: HostRuntime) -> Result<(), Fail> {
    holds(both_are_two(rt.alloc()))
}

// A thousand messages of two lines, whose first is a star and as many bytes, below 997.
fn many_messages(alloc: Global) -> Result<Text, AllocError> {
    let mut bytes = Vec::new(alloc);
    let longest = [b'a'; 997];
    for number in 0..1000usize {
        bytes.push(b'*')?;
        bytes.extend_from_slice(&longest[..number % 997])?;
        bytes.extend_from_slice(b"\nb\n\n")?;
    }
    Ok(Text::new(bytes))
}

// Whether the next message has so many bytes `a` in its first line, and a newline follows it.
fn is_next<S: Source>(joiner: &mut Joiner<S, Stars>, len: usize) -> bool {
    joiner.advance() == Ok(Some(Mark { ended: true }))
        && joiner.line().len().checked_sub(4) == Some(len)
        && (joiner.line().ends_with(b"a\nb\n") || len == 0)
}

// Whether a joiner gives a thousand messages of those lengths, and then the end.
fn gives_many<S: Source>(joiner: &mut Joiner<S, Stars>) -> bool {
    for number in 0..1000usize {
        if !is_next(joiner, number % 997) {
            return false;
        }
    }
    joiner.advance() == Ok(None)
}

fn many_are_joined(alloc: Global) -> Result<bool, Fail> {
    let source = PlainSource::new(many_messages(alloc)?);
    match Joiner::new(alloc, source, Stars, 1001, 1000) {
        Ok(mut joiner) => Ok(gives_many(&mut joiner)),
        Err(_) => Ok(false),
    }
}

// Messages of many lengths, which go over the ends of what is read at once.
#[test]
fn messages_over_the_ends_of_reads(rt: HostRuntime) -> Result<(), Fail> {
    holds(many_are_joined(rt.alloc()))
}
