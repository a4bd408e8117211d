//! The files of small archives, written into a sink.
use archive_open::{PlainBooks, open_archive};
use archive_text::{DecodeRefusal, decode};
use log_seams::{MemDisk, MemSink};
use plain_list::Text;
use std::alloc::{AllocError, Global};
use std::test::Fail;
use test_archives::{WORKED, changed};

/// Whether the decoding of file 0 ends so, and a sink with so much room then has these bytes.
fn decoded(
    alloc: Global,
    bytes: &[u8],
    room: usize,
    end: Result<(), DecodeRefusal>,
    want: &[u8],
) -> Result<bool, AllocError> {
    let mut disk = disk_of(alloc, bytes)?;
    let mut out = MemSink::new(alloc, room, Vec::new(alloc))?;
    let Ok(archive) = open_archive::<MemDisk, PlainBooks>(alloc, &mut disk) else {
        return Ok(false);
    };
    if archive.files().as_slice().is_empty() {
        return Ok(false);
    }
    let outcome = decode(alloc, &archive, 0, &mut disk, &mut out);
    Ok(outcome == end && out.bytes() == want)
}

fn disk_of(alloc: Global, bytes: &[u8]) -> Result<MemDisk, AllocError> {
    let text = Text::new(bytes.to_vec(alloc)?);
    MemDisk::new(alloc, text, 400, 40, Vec::new(alloc))
}

/// A place of the worked archive, the byte that comes there, how its file ends then, and what it has.
/// Byte 104 has the flags of its segment: bit 0 is that of a last segment, bit 1 that of a newline
/// behind its last message. Byte 146 is of the row's log type.
const CHANGED: &[(usize, u8, Result<(), DecodeRefusal>, &[u8])] = &[
    (104, 3, Ok(()), b"a\n"),
    (104, 1, Ok(()), b"a"),
    (104, 0, Ok(()), b"a\n"),
    (146, 1, Err(DecodeRefusal::Damaged), b""),
];

#[test]
fn a_file_comes_back_or_is_damaged(rt: HostRuntime) -> Result<(), Fail> {
    for &(at, byte, end, want) in CHANGED {
        let bytes = changed(rt.alloc(), &WORKED, at, byte)?;
        let well = decoded(rt.alloc(), bytes.as_slice(), 99, end, want)?;
        assert!(rt; well, "{at} {byte}");
    }
    Ok(())
}

#[test]
fn a_sink_without_room_is_told(rt: HostRuntime) -> Result<(), Fail> {
    let well = decoded(rt.alloc(), &WORKED, 1, Err(DecodeRefusal::SinkFault), b"")?;
    assert!(rt; well);
    Ok(())
}
