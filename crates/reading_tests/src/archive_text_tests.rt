//! The text of files of small archives, read as a source.
ghost use Rattle.std.specs.Prelude.{◌≡◌, ◌<◌, length};
ghost use Rattle.archive_open.specs.Archive.{shown};
ghost use Rattle.archive_open.specs.Shown.{Opens};

use archive_open::{Archive, KeepsTexts, PlainBooks, open_archive};
use archive_text::{ClosedText, FileText, StoredText, TextCause, TextRoom, one_text};
use log_seams::{Disk, MemDisk, Source};
use plain_list::Text;
use row_codec::Layouts;
use std::alloc::{AllocError, Global};
use std::test::Fail;

// Four files, with at most two messages a segment: `one.log` has three lines and two segments,
// `two.log` has no newline at its end, `no.log` has no bytes, and `gaps.log` an empty line.
pub(crate) static FILES: [u8; 924] = [
    67, 76, 80, 65, 82, 67, 72, 10, 1, 0, 0, 0, 100, 0, 0, 0, 100, 0, 0, 0, 0, 0, 0, 0, 0, 16, 0,
    0, 0, 0, 0, 0, 1, 1, 48, 0, 0, 0, 0, 0, 0, 0, 4, 0, 0, 0, 7, 0, 0, 0, 111, 110, 101, 46, 108,
    111, 103, 7, 0, 0, 0, 116, 119, 111, 46, 108, 111, 103, 6, 0, 0, 0, 110, 111, 46, 108, 111,
    103, 8, 0, 0, 0, 103, 97, 112, 115, 46, 108, 111, 103, 1, 2, 37, 0, 0, 0, 0, 0, 0, 0, 0, 0, 0,
    0, 2, 0, 0, 0, 10, 0, 0, 0, 18, 32, 17, 58, 17, 58, 19, 32, 117, 112, 11, 0, 0, 0, 18, 32, 116,
    111, 111, 107, 32, 17, 32, 109, 115, 1, 3, 32, 0, 0, 0, 0, 0, 0, 0, 0, 0, 0, 0, 2, 0, 0, 0, 10,
    0, 0, 0, 50, 48, 50, 51, 45, 49, 49, 45, 49, 52, 6, 0, 0, 0, 116, 97, 115, 107, 95, 49, 1, 4,
    143, 0, 0, 0, 0, 0, 0, 0, 0, 0, 0, 0, 0, 0, 0, 0, 0, 0, 0, 0, 2, 0, 0, 0, 0, 0, 0, 0, 0, 0, 0,
    0, 0, 0, 0, 0, 0, 0, 0, 0, 0, 2, 0, 0, 0, 2, 0, 0, 0, 6, 0, 0, 0, 0, 0, 0, 0, 1, 0, 0, 0, 0, 0,
    0, 0, 1, 0, 0, 0, 0, 0, 0, 0, 0, 0, 0, 0, 0, 0, 0, 0, 0, 0, 0, 0, 0, 0, 0, 0, 0, 0, 1, 0, 0, 0,
    4, 0, 0, 0, 2, 0, 0, 0, 0, 0, 0, 0, 0, 0, 0, 0, 22, 0, 0, 0, 0, 0, 0, 0, 13, 0, 0, 0, 0, 0, 0,
    0, 117, 123, 45, 49, 1, 0, 0, 0, 1, 0, 0, 0, 0, 0, 0, 0, 12, 0, 0, 0, 0, 0, 0, 0, 1, 2, 19, 0,
    0, 0, 0, 0, 0, 0, 2, 0, 0, 0, 1, 0, 0, 0, 7, 0, 0, 0, 114, 97, 116, 105, 111, 32, 19, 1, 4, 74,
    0, 0, 0, 0, 0, 0, 0, 0, 0, 0, 0, 2, 0, 0, 0, 0, 0, 0, 0, 1, 0, 0, 0, 3, 0, 0, 0, 0, 0, 0, 0, 0,
    0, 0, 0, 0, 0, 0, 0, 0, 1, 0, 0, 0, 0, 0, 0, 0, 1, 0, 0, 0, 2, 0, 0, 0, 0, 0, 0, 0, 0, 0, 0, 0,
    0, 2, 0, 0, 0, 1, 0, 0, 0, 16, 5, 0, 0, 0, 0, 0, 0, 1, 2, 22, 0, 0, 0, 0, 0, 0, 0, 3, 0, 0, 0,
    2, 0, 0, 0, 3, 0, 0, 0, 17, 32, 17, 3, 0, 0, 0, 101, 110, 100, 1, 4, 103, 0, 0, 0, 0, 0, 0, 0,
    1, 0, 0, 0, 0, 0, 0, 0, 0, 0, 0, 0, 2, 0, 0, 0, 0, 0, 0, 0, 0, 0, 0, 0, 0, 0, 0, 0, 0, 0, 0, 0,
    0, 2, 0, 0, 0, 0, 0, 0, 0, 2, 0, 0, 0, 3, 0, 0, 0, 4, 0, 0, 0, 0, 0, 0, 0, 0, 0, 0, 0, 0, 0, 0,
    0, 0, 0, 0, 0, 0, 0, 3, 0, 0, 0, 4, 0, 0, 0, 2, 0, 0, 0, 0, 0, 0, 0, 12, 0, 0, 0, 0, 0, 0, 0,
    34, 0, 0, 0, 0, 0, 0, 0, 1, 4, 45, 0, 0, 0, 0, 0, 0, 0, 1, 0, 0, 0, 2, 0, 0, 0, 0, 0, 0, 0, 0,
    0, 0, 0, 1, 0, 0, 0, 0, 0, 0, 0, 0, 0, 0, 0, 0, 0, 0, 0, 0, 0, 0, 0, 0, 0, 0, 0, 0, 0, 0, 0, 0,
    1, 4, 45, 0, 0, 0, 0, 0, 0, 0, 2, 0, 0, 0, 0, 0, 0, 0, 0, 0, 0, 0, 0, 0, 0, 0, 3, 0, 0, 0, 0,
    0, 0, 0, 0, 0, 0, 0, 0, 0, 0, 0, 0, 0, 0, 0, 0, 0, 0, 0, 0, 0, 0, 0, 0, 1, 2, 17, 0, 0, 0, 0,
    0, 0, 0, 5, 0, 0, 0, 2, 0, 0, 0, 1, 0, 0, 0, 97, 0, 0, 0, 0, 1, 4, 87, 0, 0, 0, 0, 0, 0, 0, 3,
    0, 0, 0, 0, 0, 0, 0, 0, 0, 0, 0, 2, 0, 0, 0, 0, 0, 0, 0, 0, 0, 0, 0, 0, 0, 0, 0, 0, 0, 0, 0, 0,
    2, 0, 0, 0, 0, 0, 0, 0, 0, 0, 0, 0, 5, 0, 0, 0, 6, 0, 0, 0, 0, 0, 0, 0, 0, 0, 0, 0, 0, 0, 0, 0,
    0, 0, 0, 0, 0, 0, 5, 0, 0, 0, 6, 0, 0, 0, 0, 0, 0, 0, 0, 0, 0, 0, 1, 2, 13, 0, 0, 0, 0, 0, 0,
    0, 7, 0, 0, 0, 1, 0, 0, 0, 1, 0, 0, 0, 98, 1, 4, 66, 0, 0, 0, 0, 0, 0, 0, 3, 0, 0, 0, 2, 0, 0,
    0, 0, 0, 0, 0, 1, 0, 0, 0, 3, 0, 0, 0, 0, 0, 0, 0, 0, 0, 0, 0, 0, 0, 0, 0, 0, 1, 0, 0, 0, 0, 0,
    0, 0, 0, 0, 0, 0, 7, 0, 0, 0, 0, 0, 0, 0, 0, 0, 0, 0, 0, 7, 0, 0, 0, 0, 0, 0, 0, 0,
];

// The same files, where a line without a stamp belongs to the message before.
static JOINED: [u8; 746] = [
    67, 76, 80, 65, 82, 67, 72, 10, 3, 0, 0, 0, 100, 0, 0, 0, 100, 0, 0, 0, 0, 0, 0, 0, 0, 16, 0,
    0, 0, 0, 0, 0, 1, 1, 48, 0, 0, 0, 0, 0, 0, 0, 4, 0, 0, 0, 7, 0, 0, 0, 111, 110, 101, 46, 108,
    111, 103, 7, 0, 0, 0, 116, 119, 111, 46, 108, 111, 103, 6, 0, 0, 0, 110, 111, 46, 108, 111,
    103, 8, 0, 0, 0, 103, 97, 112, 115, 46, 108, 111, 103, 1, 2, 35, 0, 0, 0, 0, 0, 0, 0, 0, 0, 0,
    0, 1, 0, 0, 0, 23, 0, 0, 0, 32, 117, 112, 10, 18, 32, 116, 111, 111, 107, 32, 17, 32, 109, 115,
    10, 114, 97, 116, 105, 111, 32, 19, 1, 3, 18, 0, 0, 0, 0, 0, 0, 0, 0, 0, 0, 0, 1, 0, 0, 0, 6,
    0, 0, 0, 116, 97, 115, 107, 95, 49, 1, 4, 94, 0, 0, 0, 0, 0, 0, 0, 0, 0, 0, 0, 0, 0, 0, 0, 0,
    0, 0, 0, 1, 0, 0, 0, 7, 123, 64, 30, 24, 36, 10, 6, 0, 123, 64, 30, 24, 36, 10, 6, 0, 1, 0, 0,
    0, 1, 0, 0, 0, 3, 0, 0, 0, 0, 0, 0, 0, 0, 0, 0, 0, 12, 123, 64, 30, 24, 36, 10, 6, 0, 0, 0, 0,
    0, 3, 0, 0, 0, 0, 0, 0, 0, 0, 0, 0, 0, 12, 0, 0, 0, 0, 0, 0, 0, 16, 5, 0, 0, 0, 0, 0, 0, 1, 2,
    22, 0, 0, 0, 0, 0, 0, 0, 1, 0, 0, 0, 2, 0, 0, 0, 3, 0, 0, 0, 17, 32, 17, 3, 0, 0, 0, 101, 110,
    100, 1, 4, 103, 0, 0, 0, 0, 0, 0, 0, 1, 0, 0, 0, 0, 0, 0, 0, 0, 0, 0, 0, 2, 0, 0, 0, 0, 0, 0,
    0, 0, 0, 0, 0, 0, 0, 0, 0, 0, 0, 0, 0, 0, 2, 0, 0, 0, 0, 0, 0, 0, 2, 0, 0, 0, 1, 0, 0, 0, 2, 0,
    0, 0, 0, 0, 0, 0, 0, 0, 0, 0, 0, 0, 0, 0, 0, 0, 0, 0, 0, 0, 1, 0, 0, 0, 2, 0, 0, 0, 2, 0, 0, 0,
    0, 0, 0, 0, 12, 0, 0, 0, 0, 0, 0, 0, 34, 0, 0, 0, 0, 0, 0, 0, 1, 4, 45, 0, 0, 0, 0, 0, 0, 0, 1,
    0, 0, 0, 2, 0, 0, 0, 0, 0, 0, 0, 0, 0, 0, 0, 1, 0, 0, 0, 0, 0, 0, 0, 0, 0, 0, 0, 0, 0, 0, 0, 0,
    0, 0, 0, 0, 0, 0, 0, 0, 0, 0, 0, 0, 1, 4, 45, 0, 0, 0, 0, 0, 0, 0, 2, 0, 0, 0, 0, 0, 0, 0, 0,
    0, 0, 0, 0, 0, 0, 0, 3, 0, 0, 0, 0, 0, 0, 0, 0, 0, 0, 0, 0, 0, 0, 0, 0, 0, 0, 0, 0, 0, 0, 0, 0,
    0, 0, 0, 0, 1, 2, 17, 0, 0, 0, 0, 0, 0, 0, 3, 0, 0, 0, 2, 0, 0, 0, 1, 0, 0, 0, 97, 0, 0, 0, 0,
    1, 4, 87, 0, 0, 0, 0, 0, 0, 0, 3, 0, 0, 0, 0, 0, 0, 0, 0, 0, 0, 0, 2, 0, 0, 0, 0, 0, 0, 0, 0,
    0, 0, 0, 0, 0, 0, 0, 0, 0, 0, 0, 0, 2, 0, 0, 0, 0, 0, 0, 0, 0, 0, 0, 0, 3, 0, 0, 0, 4, 0, 0, 0,
    0, 0, 0, 0, 0, 0, 0, 0, 0, 0, 0, 0, 0, 0, 0, 0, 0, 0, 3, 0, 0, 0, 4, 0, 0, 0, 0, 0, 0, 0, 0, 0,
    0, 0, 1, 2, 13, 0, 0, 0, 0, 0, 0, 0, 5, 0, 0, 0, 1, 0, 0, 0, 1, 0, 0, 0, 98, 1, 4, 66, 0, 0, 0,
    0, 0, 0, 0, 3, 0, 0, 0, 2, 0, 0, 0, 0, 0, 0, 0, 1, 0, 0, 0, 3, 0, 0, 0, 0, 0, 0, 0, 0, 0, 0, 0,
    0, 0, 0, 0, 0, 1, 0, 0, 0, 0, 0, 0, 0, 0, 0, 0, 0, 5, 0, 0, 0, 0, 0, 0, 0, 0, 0, 0, 0, 0, 5, 0,
    0, 0, 0, 0, 0, 0, 0,
];

// The file `a.log` with as many lines `a` as the head of its segment tells, of which the first alone
// stands here: each other row is 17 bytes of zeros.
static LINE: [u8; 155] = [
    67, 76, 80, 65, 82, 67, 72, 10, 1, 0, 0, 0, 0, 0, 0, 1, 0, 0, 0, 128, 0, 0, 0, 0, 0, 0, 0, 0,
    0, 1, 0, 0, 1, 1, 13, 0, 0, 0, 0, 0, 0, 0, 1, 0, 0, 0, 5, 0, 0, 0, 97, 46, 108, 111, 103, 1, 2,
    13, 0, 0, 0, 0, 0, 0, 0, 0, 0, 0, 0, 1, 0, 0, 0, 1, 0, 0, 0, 97, 1, 4, 66, 0, 0, 0, 0, 0, 0, 0,
    0, 0, 0, 0, 0, 0, 0, 0, 0, 0, 0, 0, 1, 0, 0, 0, 3, 0, 0, 0, 0, 0, 0, 0, 0, 0, 0, 0, 0, 0, 0, 0,
    0, 1, 0, 0, 0, 0, 0, 0, 0, 0, 0, 0, 0, 0, 0, 0, 0, 0, 0, 0, 0, 0, 0, 0, 0, 0, 0, 0, 0, 0, 0, 0,
    0, 0, 0,
];

/// How the reading of a source ended.
#[derive(Clone, Copy, Debug, PartialEq, Eq)]
struct Ended {
    /// Why a read failed, if one did.
    cause: Option<TextCause>,
    /// Whether one more read ended as the last did.
    firm: bool,
}

/// Whether an ending is this one, and one more read ended alike.
fn ends_by(ended: Ended, cause: Option<TextCause>) -> bool {
    ended.firm && ended.cause == cause
}

/// Reads what is left of a source, until it ends or a read fails. Answers whether one more read ends
/// alike.
pub(crate) fn take_rest<S: Source>(source: &mut S, out: &mut Vec<u8>) -> Result<bool, AllocError>
    ensures { S.name source.new ≡ S.name source.old }
{
    let mut buf = [0; 7];
    for _ in 0..100_000 {
        let Ok(count) = source.read(&mut buf) else {
            return Ok(source.read(&mut buf).is_err());
        };
        if count == 0 {
            return Ok(matches!(source.read(&mut buf), Ok(0)));
        }
        out.extend_from_slice(&buf[..count])?;
    }
    Ok(false)
}

/// Reads a file behind what was read before, with memory that may have served another. Gives the disk
/// back.
fn read_lent<'a, D: Disk, N: KeepsTexts + Drop>(
    alloc: Global,
    archive: &'a Archive<N>,
    layouts: &'a Layouts,
    number: u32,
    disk: &'a mut D,
    room: TextRoom,
    out: &mut Vec<u8>,
) -> (Result<(TextRoom, Ended), AllocError>, &'a mut D)
    requires opened { Opens (D.state disk.old).seen (shown N.kept archive.now) }
    requires there { number < length (shown N.kept archive.now).files }
    requires layouts { layouts.now ≡ (shown N.kept archive.now).kept.types }
    ensures name { result.1.ghost_name ≡ disk.entry.ghost_name }
    ensures seen { (D.state result.1.now).seen ≡ (D.state disk.old).seen }
{
    one_text();
    let text = StoredText::new(archive, number, &*disk);
    let mut source = FileText::new(alloc, text, layouts, disk, room);
    let taken = take_rest(&mut source, out);
    let ClosedText {
        text: _,
        disk,
        room,
        cause,
    } = source.close();
    match taken {
        Ok(firm) => (Ok((room, Ended { cause, firm })), disk),
        Err(error) => (Err(error), disk),
    }
}

/// Reads a file behind what was read before, over a disk that the caller keeps.
fn read_file<D: Disk, N: KeepsTexts + Drop>(
    alloc: Global,
    archive: &Archive<N>,
    layouts: &Layouts,
    number: u32,
    disk: &mut D,
    room: TextRoom,
    out: &mut Vec<u8>,
) -> Result<(TextRoom, Ended), AllocError>
    requires opened { Opens (D.state disk.old).seen (shown N.kept archive.now) }
    requires there { number < length (shown N.kept archive.now).files }
    requires layouts { layouts.now ≡ (shown N.kept archive.now).kept.types }
    ensures { (D.state disk.new).seen ≡ (D.state disk.old).seen }
{
    let (answer, _disk) = read_lent(alloc, archive, layouts, number, disk, room, out);
    answer
}

/// Reads files one behind the other, with one memory, until a read fails.
fn read_files<D: Disk, N: KeepsTexts + Drop>(
    alloc: Global,
    archive: &Archive<N>,
    layouts: &Layouts,
    numbers: &[u32],
    disk: &mut D,
    out: &mut Vec<u8>,
) -> Result<Ended, AllocError>
    requires opened { Opens (D.state disk.old).seen (shown N.kept archive.now) }
    requires layouts { layouts.now ≡ (shown N.kept archive.now).kept.types }
    ensures { (D.state disk.new).seen ≡ (D.state disk.old).seen }
{
    let mut room = TextRoom::new(alloc);
    let mut last = Ended {
        cause: None,
        firm: false,
    };
    for &number in numbers {
        if number as usize >= archive.files().as_slice().len() {
            return Err(AllocError);
        }
        let (back, ended) = read_file(alloc, archive, layouts, number, disk, room, out)?;
        room = back;
        last = ended;
        if !ends_by(ended, None) {
            return Ok(ended);
        }
    }
    Ok(last)
}

/// Reads these files of an archive whose log types are not cut yet.
fn read_opened<D: Disk, N: KeepsTexts + Drop>(
    alloc: Global,
    archive: &Archive<N>,
    numbers: &[u32],
    disk: &mut D,
    out: &mut Vec<u8>,
) -> Result<Ended, AllocError>
    requires { Opens (D.state disk.old).seen (shown N.kept archive.now) }
{
    let layouts = Layouts::of(alloc, archive.names())?;
    read_files(alloc, archive, &layouts, numbers, disk, out)
}

/// A disk with these bytes, of which these calls fail.
pub(crate) fn disk_of(alloc: Global, bytes: &[u8], fails: &[u64]) -> Result<MemDisk, AllocError> {
    let bytes = Text::new(bytes.to_vec(alloc)?);
    MemDisk::new(alloc, bytes, 0, 1_000, fails.to_vec(alloc)?)
}

/// Reads files of an archive over a disk of which these calls fail.
fn read_of(
    alloc: Global,
    bytes: &[u8],
    fails: &[u64],
    numbers: &[u32],
    out: &mut Vec<u8>,
) -> Result<Ended, AllocError> {
    let mut disk = disk_of(alloc, bytes, fails)?;
    let Ok(archive) = open_archive::<MemDisk, PlainBooks>(alloc, &mut disk) else {
        return Err(AllocError);
    };
    read_opened(alloc, &archive, numbers, &mut disk, out)
}

/// Whether files of an archive have this text, and their reading ends so.
fn reads(
    alloc: Global,
    bytes: &[u8],
    numbers: &[u32],
    text: &[u8],
    cause: Option<TextCause>,
) -> Result<bool, AllocError> {
    let mut out = Vec::new(alloc);
    let ended = read_of(alloc, bytes, &[], numbers, &mut out)?;
    Ok(ends_by(ended, cause) && out.as_slice() == text)
}

/// Numbers of files, and their text: each alone, and several with one memory.
const TEXTS: &[(&[u32], &[u8])] = &[
    (
        &[0],
        b"2023-11-14 22:13:20.000123 up\ntask_1 took 12 ms\nratio 0.5\n",
    ),
    (&[1], b"12 34\nend"),
    (&[2], b""),
    (&[3], b"a\n\nb\n"),
    (&[3, 1], b"a\n\nb\n12 34\nend"),
    (&[2, 1, 2, 3, 1], b"12 34\nenda\n\nb\n12 34\nend"),
];

#[test]
fn lines_come_back(rt: HostRuntime) -> Result<(), Fail> {
    for &(numbers, text) in TEXTS {
        let well = reads(rt.alloc(), &FILES, numbers, text, None)?;
        assert!(rt; well, "{numbers:?}");
    }
    Ok(())
}

#[test]
fn joined_lines_come_back(rt: HostRuntime) -> Result<(), Fail> {
    for &(numbers, text) in TEXTS {
        let well = reads(rt.alloc(), &JOINED, numbers, text, None)?;
        assert!(rt; well, "{numbers:?}");
    }
    Ok(())
}

/// Whether with another byte at a place a file has this text, and its reading ends so.
fn reads_changed(
    alloc: Global,
    at: usize,
    byte: u8,
    number: u32,
    text: &[u8],
    cause: Option<TextCause>,
) -> Result<bool, AllocError> {
    let mut bytes = FILES.to_vec(alloc)?;
    if let Some(place) = bytes.get_mut(at) {
        *place = byte;
    }
    reads(alloc, bytes.as_slice(), &[number], text, cause)
}

/// A place and its byte, and what a file then has. Byte 8 is the version. Bytes 387 and 616 have the
/// flags of the last segments of files 0 and 1: bit 0 is that of a last segment, without which a file
/// is a part, and bit 1 that of a newline at its end. Byte 432 has the log type of a row.
const CHANGED: &[(usize, u8, u32, &[u8], Option<TextCause>)] = &[
    (8, 2, 1, b"12 34\nend", None),
    (8, 2, 3, b"a\n\nb\n", None),
    (616, 3, 1, b"12 34\nend\n", None),
    (616, 0, 1, b"12 34\nend\n", None),
    (432, 99, 0, b"", Some(TextCause::Damaged)),
    (432, 99, 1, b"12 34\nend", None),
];

#[test]
fn changed_bytes_change_texts(rt: HostRuntime) -> Result<(), Fail> {
    for &(at, byte, number, text, cause) in CHANGED {
        let well = reads_changed(rt.alloc(), at, byte, number, text, cause)?;
        assert!(rt; well, "{at} {byte}");
    }
    Ok(())
}

/// `LINE` with 40,000 rows: 80,000 bytes of text, in ten pages.
fn many_lines(alloc: Global) -> Result<Vec<u8>, AllocError> {
    let mut bytes = LINE.to_vec(alloc)?;
    bytes.resize(680_138, 0)?;
    for &(at, byte) in &[(80, 0x71), (81, 0x60), (82, 0x0A), (100, 0x40), (101, 0x9C)] {
        if let Some(place) = bytes.get_mut(at) {
            *place = byte;
        }
    }
    Ok(bytes)
}

/// Whether of many lines so many bytes are read, where a call of the disk fails, and why no more.
fn stops_at(
    alloc: Global,
    call: u64,
    count: usize,
    cause: Option<TextCause>,
) -> Result<bool, AllocError> {
    let bytes = many_lines(alloc)?;
    let mut out = Vec::new(alloc);
    let ended = read_of(alloc, bytes.as_slice(), &[call], &[0], &mut out)?;
    Ok(ends_by(ended, cause) && out.len() == count)
}

/// A call of the disk, how many bytes are read where it fails, and why no more. To open the archive
/// takes 14 calls, and a page is read by five. The first two pieces of the text are 32,769 and 32,768
/// bytes: the last two bytes of each are those of the first row of the fifth and of the ninth page.
const STOPS: &[(u64, usize, Option<TextCause>)] = &[
    (999, 80_000, None),
    (14, 0, Some(TextCause::DiskFault)),
    (38, 0, Some(TextCause::DiskFault)),
    (39, 32_769, Some(TextCause::DiskFault)),
    (58, 32_769, Some(TextCause::DiskFault)),
    (59, 65_537, Some(TextCause::DiskFault)),
    (63, 65_537, Some(TextCause::DiskFault)),
    (64, 80_000, None),
];

#[test]
fn a_disk_that_fails_ends_the_text(rt: HostRuntime) -> Result<(), Fail> {
    for &(call, count, cause) in STOPS {
        let well = stops_at(rt.alloc(), call, count, cause)?;
        assert!(rt; well, "{call}");
    }
    Ok(())
}

/// Whether each read of the first file fails where it is not to be read, with that as the cause.
fn refuses<D: Disk, N: KeepsTexts + Drop>(
    alloc: Global,
    archive: &Archive<N>,
    layouts: &Layouts,
    disk: &mut D,
) -> Result<bool, AllocError>
    requires opened { Opens (D.state disk.old).seen (shown N.kept archive.now) }
    requires there { 0 < length (shown N.kept archive.now).files }
    requires layouts { layouts.now ≡ (shown N.kept archive.now).kept.types }
{
    let text = StoredText::new(archive, 0, &*disk);
    let mut source = FileText::refused(alloc, text, layouts, disk, TextRoom::new(alloc));
    let mut out = Vec::new(alloc);
    let firm = take_rest(&mut source, &mut out)?;
    let cause = source.close().cause;
    Ok(firm && out.is_empty() && cause == Some(TextCause::Refused))
}

/// Whether each read of the first file fails where it is not to be read, with that as the cause. The
/// log types of the archive are not cut yet.
fn refuses_opened<D: Disk, N: KeepsTexts + Drop>(
    alloc: Global,
    archive: &Archive<N>,
    disk: &mut D,
) -> Result<bool, AllocError>
    requires { Opens (D.state disk.old).seen (shown N.kept archive.now) }
{
    if archive.files().as_slice().is_empty() {
        return Ok(false);
    }
    let layouts = Layouts::of(alloc, archive.names())?;
    refuses(alloc, archive, &layouts, disk)
}

/// Whether a text that is not to be read is refused without a call of the disk.
fn refuses_without_calls(alloc: Global) -> Result<bool, AllocError> {
    let mut disk = disk_of(alloc, &FILES, &[])?;
    let Ok(archive) = open_archive::<MemDisk, PlainBooks>(alloc, &mut disk) else {
        return Err(AllocError);
    };
    let before = disk.calls();
    let well = refuses_opened(alloc, &archive, &mut disk)?;
    Ok(well && disk.calls() == before)
}

#[test]
fn a_refused_text_reads_nothing(rt: HostRuntime) -> Result<(), Fail> {
    let well = refuses_without_calls(rt.alloc())?;
    assert!(rt; well);
    Ok(())
}
