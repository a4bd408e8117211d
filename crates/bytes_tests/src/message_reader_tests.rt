use log_seams::{MemSource, PlainSource, Source};
use message_reader::{Cut, Mark, MessageReader};
use plain_list::Text;
use std::alloc::{AllocError, Global};
use std::test::Fail;

fn text(alloc: Global, bytes: &[u8]) -> Result<Text, AllocError> {
    Ok(Text::new(bytes.to_vec(alloc)?))
}

/// Whether the reader is at its end, or answers the error.
fn ends<S: Source>(reader: &mut MessageReader<S>, end: Result<(), Cut>) -> bool {
    reader.advance() == end.map(|()| None) && reader.message().is_empty()
}

/// Whether the reader gives these messages, each with whether its line ended, and then the end or the
/// error, twice.
fn gives<S: Source>(
    reader: &mut MessageReader<S>,
    messages: &[(&[u8], bool)],
    end: Result<(), Cut>,
) -> bool {
    for row in messages {
        let (message, ended) = *row;
        if reader.advance() != Ok(Some(Mark { ended })) || reader.message() != message {
            return false;
        }
    }
    ends(reader, end) && ends(reader, end)
}

/// Whether a log has these messages in an archive of the version.
fn has(
    alloc: Global,
    version: u32,
    log: Text,
    messages: &[(&[u8], bool)],
    end: Result<(), Cut>,
) -> bool {
    if version < 1 || version > 3 {
        return false;
    }
    match MessageReader::new(alloc, version, PlainSource::new(log)) {
        Ok(mut reader) => gives(&mut reader, messages, end),
        Err(_) => false,
    }
}

const TRACE: &[u8] = b"2023-11-14 22:13:20,000 ERROR failed\n\
    java.io.IOException: reset\n\
    \tat x.Y(Z.java:7)\n\
    2023-11-14 22:13:21,000 INFO on\n";

/// A version, a log, and its messages in an archive of that version, each with whether its line ended.
const ROWS: &[(u32, &[u8], &[(&[u8], bool)])] = &[
    (
        2,
        TRACE,
        &[
            (
                b"2023-11-14 22:13:20,000 ERROR failed\njava.io.IOException: reset\n\tat x.Y(Z.java:7)",
                true,
            ),
            (b"2023-11-14 22:13:21,000 INFO on", true),
        ],
    ),
    (
        1,
        TRACE,
        &[
            (b"2023-11-14 22:13:20,000 ERROR failed", true),
            (b"java.io.IOException: reset", true),
            (b"\tat x.Y(Z.java:7)", true),
            (b"2023-11-14 22:13:21,000 INFO on", true),
        ],
    ),
    // a line without a stamp in front has nothing behind it
    (2, b"x\ny", &[(b"x", true), (b"y", false)]),
    // only version 3 has stamps with microseconds; it has those of version 2 as well
    (
        3,
        b"2023-11-14T22:13:20.000000Z a\nb\n2023-11-14T22:13:20Z\nc",
        &[
            (b"2023-11-14T22:13:20.000000Z a\nb", true),
            (b"2023-11-14T22:13:20Z\nc", false),
        ],
    ),
    (
        2,
        b"2023-11-14T22:13:20.000000Z a\nb\n2023-11-14T22:13:20Z\nc",
        &[
            (b"2023-11-14T22:13:20.000000Z a", true),
            (b"b", true),
            (b"2023-11-14T22:13:20Z\nc", false),
        ],
    ),
    (3, b"", &[]),
];

#[test]
fn messages_by_version(rt: HostRuntime) -> Result<(), Fail> {
    for &(version, bytes, messages) in ROWS {
        let log = text(rt.alloc(), bytes)?;
        assert!(rt;
            has(rt.alloc(), version, log, messages, Ok(())),
            "{version} {bytes:?}"
        );
    }
    Ok(())
}

/// A version, a log, and the messages before its second read, which fails; the first gives all bytes.
const MESSAGES_BEFORE_A_FAULT: &[(u32, &[u8], &[(&[u8], bool)])] = &[
    // more lines might belong to a message with a stamp
    (2, b"2023-11-14T22:13:20Z a\nb\n", &[]),
    (
        1,
        b"2023-11-14T22:13:20Z a\nb\n",
        &[(b"2023-11-14T22:13:20Z a", true), (b"b", true)],
    ),
    // and none to one without
    (3, b"a\nb\nc", &[(b"a", true), (b"b", true)]),
];

/// Whether a log whose second read fails has these messages, and one fault.
fn breaks_off(
    alloc: Global,
    version: u32,
    bytes: &[u8],
    messages: &[(&[u8], bool)],
) -> Result<bool, AllocError> {
    if version < 1 || version > 3 {
        return Ok(false);
    }
    let source = MemSource::new(text(alloc, bytes)?, [1].to_vec(alloc)?);
    let Ok(mut reader) = MessageReader::new(alloc, version, source) else {
        return Ok(false);
    };
    let well = gives(&mut reader, messages, Err(Cut::ReadFault));
    Ok(well && reader.into_source().faults() == 1)
}

#[test]
fn messages_before_a_fault(rt: HostRuntime) -> Result<(), Fail> {
    for &(version, bytes, messages) in MESSAGES_BEFORE_A_FAULT {
        let well = breaks_off(rt.alloc(), version, bytes, messages)?;
        assert!(rt; well, "{version} {bytes:?}");
    }
    Ok(())
}

/// A line with a stamp of 1,048,570 bytes, and a second one.
fn two_lines(alloc: Global, second: &[u8]) -> Result<Vec<u8>, AllocError> {
    let mut lines = b"2023-11-14T22:13:20Z ".to_vec(alloc)?;
    lines.resize(1_048_570, b'x')?;
    lines.push(b'\n')?;
    lines.extend_from_slice(second)?;
    Ok(lines)
}

#[test]
fn lines_as_far_as_a_message_goes(rt: HostRuntime) -> Result<(), Fail> {
    let lines = two_lines(rt.alloc(), b"12345")?;
    let log = text(rt.alloc(), lines.as_slice())?;
    assert!(rt; has(rt.alloc(), 2, log, &[(lines.as_slice(), false)], Ok(())));
    Ok(())
}

#[test]
fn a_line_that_no_longer_belongs_to_a_message(rt: HostRuntime) -> Result<(), Fail> {
    let lines = two_lines(rt.alloc(), b"123456")?;
    let log = text(rt.alloc(), lines.as_slice())?;
    let first = lines.get(..1_048_570).unwrap_or(&[]);
    assert!(rt;
        has(
            rt.alloc(),
            2,
            log,
            &[(first, true), (b"123456", false)],
            Ok(())
        )
    );
    Ok(())
}

// The number of a line counts those within messages too.
#[test]
fn a_line_above_the_limit(rt: HostRuntime) -> Result<(), Fail> {
    let mut bytes = b"2023-11-14T22:13:20Z a\nb\n".to_vec(rt.alloc())?;
    bytes.resize(1_048_602, b'x')?;
    let end = Err(Cut::LineTooLong { line: 3 });
    let messages = [(b"2023-11-14T22:13:20Z a\nb".as_slice(), true)];
    assert!(rt; has(rt.alloc(), 2, Text::new(bytes), &messages, end));
    Ok(())
}
