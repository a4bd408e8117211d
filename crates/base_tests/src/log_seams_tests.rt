//! Sources, sinks and shelves in memory.
ghost use Rattle.std.specs.Prelude.{◌<◌};

use crate::telling::{all_hold, holds};
use log_seams::{
    Failed, MemFile, MemShelf, MemSink, MemSource, OpenRefused, PlainSource, Shelf, Sink, Source,
};
use plain_list::Text;
use std::alloc::{AllocError, Global};
use std::test::Fail;

fn text(alloc: Global, bytes: &[u8]) -> Result<Text, AllocError> {
    Ok(Text::new(bytes.to_vec(alloc)?))
}

fn numbers(alloc: Global, list: &[u64]) -> Result<Vec<u64>, AllocError> {
    list.to_vec(alloc)
}

// Whether the next read, with a buffer of so many bytes, gives these, or fails where none are
// wanted.
fn reads<S: Source>(
    alloc: Global,
    source: &mut S,
    room: usize,
    want: Option<&[u8]>,
) -> Result<bool, AllocError>
    requires { 0 < room }
{
    let mut buf = vec![in alloc; 0; room]?;
    Ok(match source.read(&mut buf) {
        Ok(count) => buf.get(..count) == want,
        Err(Failed) => want.is_none(),
    })
}

// What the reads give where the first and the third fail.
const READS: &[Option<&[u8]>] = &[None, Some(b"ab"), None, Some(b"cd"), Some(b"e"), Some(b"")];

// How many of those reads a source gives.
fn told_reads(alloc: Global, source: &mut MemSource) -> Result<usize, AllocError> {
    for (count, want) in READS.iter().enumerate() {
        if !reads(alloc, &mut &mut *source, 2, *want)? {
            return Ok(count);
        }
    }
    Ok(READS.len())
}

fn fails_twice(alloc: Global) -> Result<bool, AllocError> {
    let mut source = MemSource::new(text(alloc, b"abcde")?, numbers(alloc, &[0, 2])?);
    Ok(told_reads(alloc, &mut source)? == READS.len() && source.faults() == 2)
}

#[test]
fn sources_fail_at_the_listed_reads(rt: HostRuntime) -> Result<(), Fail> {
    holds(fails_twice(rt.alloc()))
}

const PLAIN_READS: &[&[u8]] = &[b"xy", b"z", b"", b""];

fn gives_plainly(alloc: Global) -> Result<usize, AllocError> {
    let mut plain = PlainSource::new(text(alloc, b"xyz")?);
    for (count, want) in PLAIN_READS.iter().enumerate() {
        if !reads(alloc, &mut plain, 2, Some(want))? {
            return Ok(count);
        }
    }
    Ok(PLAIN_READS.len())
}

#[test]
fn a_plain_source_gives_all(rt: HostRuntime) -> Result<(), Fail> {
    all_hold(gives_plainly(rt.alloc()), PLAIN_READS.len())
}

// What is written to a sink with room for three bytes whose second write fails, and the answers.
const WRITES: &[(&[u8], Result<usize, Failed>)] = &[
    (b"ab", Ok(2)),
    (b"c", Err(Failed)),
    (b"cd", Err(Failed)),
    (b"c", Ok(1)),
    (b"d", Err(Failed)),
    (b"e", Err(Failed)),
];

// How many of those writes a sink answers.
fn told_writes(sink: &mut MemSink) -> usize {
    for (count, row) in WRITES.iter().enumerate() {
        let (bytes, want) = row;
        if bytes.is_empty() || sink.write(bytes) != *want {
            return count;
        }
    }
    WRITES.len()
}

fn takes_three(alloc: Global) -> Result<bool, AllocError> {
    let mut sink = MemSink::new(alloc, 3, numbers(alloc, &[1])?)?;
    Ok(told_writes(&mut sink) == WRITES.len() && sink.bytes() == b"abc".as_slice())
}

#[test]
fn sinks_fail_past_their_room_and_at_the_listed_writes(rt: HostRuntime) -> Result<(), Fail> {
    holds(takes_three(rt.alloc()))
}

fn file(alloc: Global, name: &str, bytes: &[u8], fails: &[u64]) -> Result<MemFile, AllocError> {
    Ok(MemFile {
        name: name.to_string(alloc)?,
        bytes: text(alloc, bytes)?,
        read_fails: numbers(alloc, fails)?,
    })
}

// A file's name, its bytes, and the reads that fail.
const FILES: &[(&str, &[u8], &[u64])] = &[
    ("a.log", b"one", &[]),
    ("b.log", b"two", &[0]),
    ("a.log", b"three", &[]),
];

fn add_files(alloc: Global, files: &mut Vec<MemFile>) -> Result<(), AllocError> {
    for (name, bytes, fails) in FILES {
        files.push(file(alloc, name, bytes, fails)?)?;
    }
    Ok(())
}

fn some_files(alloc: Global) -> Result<Vec<MemFile>, AllocError> {
    let mut files = Vec::new(alloc);
    add_files(alloc, &mut files)?;
    Ok(files)
}

// A name, and what the first read of its log gives, or none where it is not opened.
const OPENED: &[(&str, Option<Option<&[u8]>>)] = &[
    ("a.log", Some(Some(b"one"))),
    ("c.log", None),
    ("a.log", None),
    ("b.log", Some(None)),
    ("a.log", Some(Some(b"one"))),
    ("b.log", Some(None)),
];

// Whether a log that was to be opened gives what is wanted.
fn first_reads<S: Source>(
    alloc: Global,
    source: &mut S,
    want: Option<Option<&[u8]>>,
) -> Result<bool, AllocError> {
    match want {
        Some(want) => reads(alloc, source, 8, want),
        None => Ok(false),
    }
}

// Whether the log of this name is opened and gives what is wanted, or is not opened.
fn opens(
    alloc: Global,
    shelf: &mut MemShelf,
    name: &str,
    want: Option<Option<&[u8]>>,
) -> Result<bool, AllocError> {
    match shelf.open_log(name) {
        Ok(mut source) => {
            let well = first_reads(alloc, &mut source, want);
            shelf.close_log(source);
            well
        }
        Err(refused) => Ok(want.is_none() && refused == OpenRefused::Failed),
    }
}

// How many of those openings a shelf answers.
fn told_openings(alloc: Global, shelf: &mut MemShelf) -> Result<usize, AllocError> {
    for (count, row) in OPENED.iter().enumerate() {
        let (name, want) = row;
        if !opens(alloc, shelf, name, *want)? {
            return Ok(count);
        }
    }
    Ok(OPENED.len())
}

fn told_openings_anew(alloc: Global) -> Result<usize, AllocError> {
    let mut shelf = MemShelf::new(alloc, some_files(alloc)?, numbers(alloc, &[2])?);
    told_openings(alloc, &mut shelf)
}

#[test]
fn shelves_open_their_files_by_name(rt: HostRuntime) -> Result<(), Fail> {
    all_hold(told_openings_anew(rt.alloc()), OPENED.len())
}
