//! The worked archive, cut and changed, and over a disk that fails.

use archive_core::Books;
use archive_open::{Archive, ArchiveRefusal, PlainBooks, open_archive};
use log_seams::MemDisk;
use plain_list::Text;
use row_codec::Names;
use std::alloc::{AllocError, Global};
use std::test::Fail;
use test_archives::{WORKED, changed};

// Its gates.
const GATES: &[usize] = &[32, 55, 78, 154];

fn disk(alloc: Global, bytes: &[u8], fails: &[u64]) -> Result<MemDisk, AllocError> {
    MemDisk::new(
        alloc,
        Text::new(bytes.to_vec(alloc)?),
        400,
        40,
        fails.to_vec(alloc)?,
    )
}

// Opens an archive of these bytes with books that name.
fn open(alloc: Global, bytes: &[u8]) -> Result<Archive<Books>, ArchiveRefusal> {
    let mut disk = disk(alloc, bytes, &[])?;
    open_archive(alloc, &mut disk)
}

// The place of the damage that opening tells.
fn damage(alloc: Global, bytes: &[u8]) -> Result<Option<u64>, ArchiveRefusal> {
    match open(alloc, bytes) {
        Ok(_) => Ok(None),
        Err(ArchiveRefusal::Damaged { at }) => Ok(Some(at)),
        Err(refusal) => Err(refusal),
    }
}

fn is_worked_file(archive: &Archive<Books>) -> bool {
    let [file] = archive.files().as_slice() else {
        return false;
    };
    file.name.as_slice() == b"a.log".as_slice() && file.messages == 1 && file.whole && file.ended
}

fn is_worked_segment(archive: &Archive<Books>) -> bool {
    let [segment] = archive.segments().as_slice() else {
        return false;
    };
    segment.at == 78
        && segment.payload == 88
        && segment.length == 66
        && segment.head.rows == 1
        && segment.head.types.len() == 1
}

fn is_worked(archive: &Archive<Books>) -> bool {
    is_worked_file(archive)
        && is_worked_segment(archive)
        && archive.entries() == 3
        && archive.end() == 155
        && archive.header().version == 1
        && archive.names().type_text(0) == Some(b"a".as_slice())
}

fn opens_worked(alloc: Global) -> Result<bool, ArchiveRefusal> {
    let archive = open(alloc, &WORKED)?;
    Ok(is_worked(&archive) && archive.into_books().words.len() == 0)
}

#[test]
fn the_worked_archive_opens(rt: HostRuntime) -> Result<(), Fail> {
    let well = opens_worked(rt.alloc())?;
    assert!(rt; well);
    Ok(())
}

// Opens an archive of these bytes with books that are read alone.
fn open_plain(alloc: Global, bytes: &[u8]) -> Result<Archive<PlainBooks>, ArchiveRefusal> {
    let mut disk = disk(alloc, bytes, &[])?;
    open_archive(alloc, &mut disk)
}

// Whether the archive has this log type, and no word.
fn has_type(archive: &Archive<PlainBooks>, number: u32) -> bool {
    archive.names().type_text(number) == Some(b"a".as_slice())
        && archive.names().word_number(b"a").is_none()
}

// Whether an archive of these bytes opens for reading, and has so many files and this log type.
fn opens_plain(
    alloc: Global,
    bytes: &[u8],
    files: usize,
    number: u32,
) -> Result<bool, ArchiveRefusal> {
    let archive = open_plain(alloc, bytes)?;
    Ok(archive.files().len() == files && has_type(&archive, number))
}

#[test]
fn it_opens_for_reading(rt: HostRuntime) -> Result<(), Fail> {
    let well = opens_plain(rt.alloc(), &WORKED, 1, 0)?;
    assert!(rt; well);
    Ok(())
}

// The last gate that is not behind so many bytes, and 0 without a header.
fn last_gate(len: usize) -> u64 {
    let mut last = 0;
    for &gate in GATES {
        if gate <= len {
            last = gate as u64;
        }
    }
    last
}

#[test]
fn cut_bytes_are_damaged_at_a_gate(rt: HostRuntime) -> Result<(), Fail> {
    for len in 0..WORKED.len() {
        let at = damage(rt.alloc(), &WORKED[..len])?;
        assert!(rt; at == Some(last_gate(len)), "{len}");
    }
    Ok(())
}

// A place, the byte that comes there, and where the damage is told.
const CHANGES: &[(usize, u8, Option<u64>)] = &[
    (0, 0x44, Some(0)),
    (8, 0x09, Some(0)),
    (33, 0x09, Some(32)),
    (42, 0x02, Some(32)),
    (65, 0x01, Some(55)),
    (69, 0x02, Some(55)),
    (88, 0x01, Some(78)),
    (92, 0x01, Some(78)),
    (104, 0x0B, Some(78)),
    (121, 0xFF, Some(78)),
    (137, 0xFF, None),
    (154, 0x05, None),
];

#[test]
fn changed_bytes_are_damaged_where_they_are_read(rt: HostRuntime) -> Result<(), Fail> {
    for &(at, byte, told) in CHANGES {
        let bytes = changed(rt.alloc(), &WORKED, at, byte)?;
        let well = damage(rt.alloc(), bytes.as_slice())? == told;
        assert!(rt; well, "{at}");
    }
    Ok(())
}

// How many calls of the disk it takes to open the archive.
const CALLS: u64 = 14;

// Whether opening answers a fault where this call of the disk fails.
fn is_fault(alloc: Global, call: u64) -> Result<bool, AllocError> {
    let mut disk = disk(alloc, &WORKED, &[call])?;
    let opened: Result<Archive<Books>, ArchiveRefusal> = open_archive(alloc, &mut disk);
    Ok(matches!(opened, Err(ArchiveRefusal::DiskFault)))
}

#[test]
fn a_fault_of_the_disk_is_told(rt: HostRuntime) -> Result<(), Fail> {
    for call in 0..=CALLS {
        let told = is_fault(rt.alloc(), call)?;
        assert!(rt; told == (call < CALLS), "{call}");
    }
    Ok(())
}

// A header and two log types that are the same.
static TWICE: [u8; 61] = [
    0x43, 0x4C, 0x50, 0x41, 0x52, 0x43, 0x48, 0x0A, 0x01, 0x00, 0x00, 0x00, 0x00, 0x00, 0x00, 0x01,
    0x00, 0x00, 0x00, 0x80, 0x00, 0x00, 0x00, 0x00, 0x00, 0x00, 0x00, 0x00, 0x00, 0x01, 0x00, 0x00,
    0x01, 0x02, 0x12, 0x00, 0x00, 0x00, 0x00, 0x00, 0x00, 0x00, 0x00, 0x00, 0x00, 0x00, 0x02, 0x00,
    0x00, 0x00, 0x01, 0x00, 0x00, 0x00, 0x61, 0x01, 0x00, 0x00, 0x00, 0x61, 0x00,
];

#[test]
fn a_text_that_stands_twice_is_damage_for_books_that_name(rt: HostRuntime) -> Result<(), Fail> {
    let told = damage(rt.alloc(), &TWICE)?;
    let well = opens_plain(rt.alloc(), &TWICE, 0, 1)?;
    assert!(rt; well && told == Some(32));
    Ok(())
}
