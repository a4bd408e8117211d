use crate::telling::holds;
use line_cut::{Cut, Cutter, MAX_LINE_LEN, Mark};
use log_seams::{Failed, MemSource, PlainSource, Source};
use plain_list::Text;
use std::alloc::{AllocError, Global};
use std::test::Fail;

// The lines that are expected, each with whether a newline followed it, and then the end or an
// error.
#[derive(Drop)]
struct Row<'a> {
    bytes: &'a [u8],
    max_line: usize,
    max_lines: u64,
    lines: &'a [(&'a [u8], bool)],
    end: Result<(), Cut>,
}

pub(crate) fn text(alloc: Global, bytes: &[u8]) -> Result<Text, AllocError> {
    Ok(Text::new(bytes.to_vec(alloc)?))
}

// Whether `next` gives this line.
fn gives_piece<S: Source>(cutter: &mut Cutter<S>, line: &[u8], ended: bool) -> bool {
    match cutter.next() {
        Ok(Some(piece)) => piece.line.as_slice() == line && piece.ended == ended,
        _ => false,
    }
}

// Whether `next` and `advance` give the end, or the error.
fn ends<S: Source>(cutter: &mut Cutter<S>, end: Result<(), Cut>) -> bool {
    let by_next = match cutter.next() {
        Ok(piece) => piece.is_none() && end.is_ok(),
        Err(cut) => Err(cut) == end,
    };
    by_next && cutter.advance() == end.map(|()| None) && cutter.line().is_empty()
}

// Whether that is all that a cutter gives, by `next` and by `advance` in turn, also where it is asked twice
// more behind the end.
fn gives<S: Source>(cutter: &mut Cutter<S>, lines: &[(&[u8], bool)], end: Result<(), Cut>) -> bool {
    for (number, row) in lines.iter().enumerate() {
        let (line, ended) = *row;
        let given = if number % 2 == 0 {
            gives_piece(cutter, line, ended)
        } else {
            cutter.advance() == Ok(Some(Mark { ended }))
        };
        if !given || cutter.line() != line {
            return false;
        }
    }
    ends(cutter, end) && ends(cutter, end)
}

// Inputs with limits, and what is cut.
const ROWS: &[Row<'static>] = &[
    Row {
        bytes: b"",
        max_line: 9,
        max_lines: 9,
        lines: &[],
        end: Ok(()),
    },
    Row {
        bytes: b"",
        max_line: 9,
        max_lines: 0,
        lines: &[],
        end: Ok(()),
    },
    Row {
        bytes: b"a",
        max_line: 9,
        max_lines: 9,
        lines: &[(b"a", false)],
        end: Ok(()),
    },
    Row {
        bytes: b"a\n",
        max_line: 9,
        max_lines: 9,
        lines: &[(b"a", true)],
        end: Ok(()),
    },
    Row {
        bytes: b"\n",
        max_line: 9,
        max_lines: 9,
        lines: &[(b"", true)],
        end: Ok(()),
    },
    Row {
        bytes: b"\n\nx\r\n\xff",
        max_line: 9,
        max_lines: 9,
        lines: &[(b"", true), (b"", true), (b"x\r", true), (b"\xff", false)],
        end: Ok(()),
    },
    Row {
        bytes: b"a\nb\nc",
        max_line: 9,
        max_lines: 2,
        lines: &[(b"a", true), (b"b", true)],
        end: Err(Cut::TooManyLines),
    },
    Row {
        bytes: b"a\nb\n",
        max_line: 9,
        max_lines: 2,
        lines: &[(b"a", true), (b"b", true)],
        end: Ok(()),
    },
    Row {
        bytes: b"a\nbcd\nefgh\ni\n",
        max_line: 3,
        max_lines: 9,
        lines: &[(b"a", true), (b"bcd", true)],
        end: Err(Cut::LineTooLong { line: 3 }),
    },
    Row {
        bytes: b"a\nbcde",
        max_line: 3,
        max_lines: 1,
        lines: &[(b"a", true)],
        end: Err(Cut::TooManyLines),
    },
    Row {
        bytes: b"abcd",
        max_line: 3,
        max_lines: 1,
        lines: &[],
        end: Err(Cut::LineTooLong { line: 1 }),
    },
    Row {
        bytes: b"abc",
        max_line: 3,
        max_lines: 1,
        lines: &[(b"abc", false)],
        end: Ok(()),
    },
];

// Whether a source is cut so within these limits.
fn is_cut<S: Source + Drop>(
    alloc: Global,
    source: S,
    limits: (usize, u64),
    lines: &[(&[u8], bool)],
    end: Result<(), Cut>,
) -> bool {
    let (max_line, max_lines) = limits;
    if max_line < 1 || max_line > MAX_LINE_LEN {
        return false;
    }
    match Cutter::new(alloc, source, max_line, max_lines) {
        Ok(mut cutter) => gives(&mut cutter, lines, end),
        Err(_) => false,
    }
}

fn row_is_cut(alloc: Global, row: &Row<'_>) -> Result<bool, AllocError> {
    let source = PlainSource::new(text(alloc, row.bytes)?);
    Ok(is_cut(
        alloc,
        source,
        (row.max_line, row.max_lines),
        row.lines,
        row.end,
    ))
}

#[test]
fn lines_and_limits(rt: HostRuntime) -> Result<(), Fail> {
    for row in ROWS {
        if !row_is_cut(rt.alloc(), row)? {
            return Err(Fail::from(row.bytes));
        }
    }
    Ok(())
}

// A source that gives one byte a read.
#[derive(Drop)]
pub(crate) struct OneByte {
    pub(crate) log: MemSource,
}

impl Source for OneByte {
    ghost use Rattle.std.specs.Prelude.{None};

    ghost left = { λ _. None };

    ghost name = { λ _. None };

    ghost faults = { λ s. s.log.faults };

    fn read(&mut self, buf: &mut [u8]) -> Result<usize, Failed> {
        self.log.read(&mut buf[..1])
    }
}

const ONE: &[(&[u8], bool)] = &[(b"ab", true)];

const TWO: &[(&[u8], bool)] = &[(b"ab", true), (b"cd", true)];

const ALL: &[(&[u8], bool)] = &[(b"ab", true), (b"cd", true), (b"e", false)];

// What is cut of three lines, of which the last has no newline: the number of the read that fails,
// from 0, and the limit of lines. Each read gives one of the bytes, and the one behind them the end.
type Faulty = (u64, u64, &'static [(&'static [u8], bool)], Result<(), Cut>);

const FAULTY: &[Faulty] = &[
    (0, 4, &[], Err(Cut::ReadFault)),
    (1, 4, &[], Err(Cut::ReadFault)),
    (2, 4, &[], Err(Cut::ReadFault)),
    (3, 4, ONE, Err(Cut::ReadFault)),
    (4, 4, ONE, Err(Cut::ReadFault)),
    (6, 4, TWO, Err(Cut::ReadFault)),
    (7, 4, TWO, Err(Cut::ReadFault)),
    (8, 4, ALL, Ok(())),
    // behind the last line that is allowed: the read for its first byte fails, or the one behind it would
    (3, 1, ONE, Err(Cut::ReadFault)),
    (4, 1, ONE, Err(Cut::TooManyLines)),
    (6, 2, TWO, Err(Cut::ReadFault)),
    (7, 2, TWO, Err(Cut::TooManyLines)),
];

// A source of these bytes, one a read, of which the read with this number fails.
pub(crate) fn faulty(alloc: Global, bytes: &[u8], fails: u64) -> Result<OneByte, AllocError> {
    let log = MemSource::new(text(alloc, bytes)?, [fails].to_vec(alloc)?);
    Ok(OneByte { log })
}

// Whether three lines are cut so where the read with this number fails, and the fault is counted.
fn breaks_off(
    alloc: Global,
    fails: u64,
    max_lines: u64,
    lines: &[(&[u8], bool)],
    end: Result<(), Cut>,
) -> Result<bool, AllocError> {
    let source = faulty(alloc, b"ab\ncd\ne", fails)?;
    let Ok(mut cutter) = Cutter::new(alloc, source, 4, max_lines) else {
        return Ok(false);
    };
    let well = gives(&mut cutter, lines, end);
    let failed = u64::from(end == Err(Cut::ReadFault));
    Ok(well && cutter.into_source().log.faults() == failed)
}

#[test]
fn the_whole_lines_before_a_fault(rt: HostRuntime) -> Result<(), Fail> {
    for (fails, max_lines, lines, end) in FAULTY {
        if !breaks_off(rt.alloc(), *fails, *max_lines, lines, *end)? {
            return Err(Fail::from((*fails, *max_lines)));
        }
    }
    Ok(())
}

const ONE_LETTER: &[(&[u8], bool)] = &[(b"a", true)];

// The most lines that a limit may allow.
const MOST_LINES: u64 = 4_294_967_294;

// Two lines, one of the byte `a` and one of so many bytes `x`.
fn long_lines(alloc: Global, len: usize) -> Result<Vec<u8>, AllocError> {
    let mut bytes = b"a\n".to_vec(alloc)?;
    bytes.resize(len, b'x')?;
    bytes.push(b'\n')?;
    Ok(bytes)
}

// Whether they are cut as a line of one byte and one of the greatest length.
fn are_longest(alloc: Global, bytes: &[u8]) -> Result<bool, Fail> {
    let source = PlainSource::new(text(alloc, bytes)?);
    let longest = bytes.get(2..MAX_LINE_LEN + 2).unwrap_or(b"none");
    let lines = [(b"a".as_slice(), true), (longest, true)];
    Ok(is_cut(alloc, source, (MAX_LINE_LEN, MOST_LINES), &lines, Ok(())))
}

fn longest_are_cut(alloc: Global) -> Result<bool, Fail> {
    are_longest(alloc, long_lines(alloc, MAX_LINE_LEN + 2)?.as_slice())
}

#[test]
fn lines_up_to_the_greatest_limit(rt: HostRuntime) -> Result<(), Fail> {
    holds(longest_are_cut(rt.alloc()))
}

fn longer_is_refused(alloc: Global) -> Result<bool, Fail> {
    let source = PlainSource::new(Text::new(long_lines(alloc, MAX_LINE_LEN + 3)?));
    let end = Err(Cut::LineTooLong { line: 2 });
    Ok(is_cut(alloc, source, (MAX_LINE_LEN, MOST_LINES), ONE_LETTER, end))
}

#[test]
fn a_line_past_the_greatest_limit(rt: HostRuntime) -> Result<(), Fail> {
    holds(longer_is_refused(rt.alloc()))
}

// A thousand lines of many lengths below 997.
fn many_lines(alloc: Global) -> Result<Text, AllocError> {
    let mut bytes = Vec::new(alloc);
    let longest = [b'a'; 997];
    for number in 0..1000usize {
        bytes.extend_from_slice(&longest[..number % 997])?;
        bytes.push(b'\n')?;
    }
    Ok(Text::new(bytes))
}

// Whether the next line is one of so many bytes `a`, and a newline follows it.
fn is_next<S: Source>(cutter: &mut Cutter<S>, len: usize) -> bool {
    cutter.advance() == Ok(Some(Mark { ended: true }))
        && cutter.line().len() == len
        && cutter.line().iter().all(|b| *b == b'a')
}

// Whether a cutter gives a thousand lines of those lengths, and then the end.
fn gives_many<S: Source>(cutter: &mut Cutter<S>) -> bool {
    for number in 0..1000usize {
        if !is_next(cutter, number % 997) {
            return false;
        }
    }
    cutter.advance() == Ok(None)
}

fn many_are_cut(alloc: Global) -> Result<bool, Fail> {
    let source = PlainSource::new(many_lines(alloc)?);
    match Cutter::new(alloc, source, 1000, 1000) {
        Ok(mut cutter) => Ok(gives_many(&mut cutter)),
        Err(_) => Ok(false),
    }
}

// Lines of many lengths, which go over the ends of what is read at once.
#[test]
fn lines_over_the_ends_of_reads(rt: HostRuntime) -> Result<(), Fail> {
    holds(many_are_cut(rt.alloc()))
}
