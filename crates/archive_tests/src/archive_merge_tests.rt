//! The files of a second archive behind those of a first, over disks of which each call may fail.
ghost use Rattle.std.specs.Prelude.{◌≡◌};
ghost use Rattle.disk_journal.specs.Journal.{state_of};
ghost use Rattle.disk_seal.specs.Opening.{MayOpen};

use crate::worn::{WornDisk, at_end, begun, records};
use archive_core::Books;
use archive_merge::{MergeCause, MergeEnd, MergeRefusal, Merged, ToMerge, merge};
use archive_open::{Archive, FileEntry, open_archive};
use dict_core::Book;
use disk_journal::Journal;
use disk_seal::RegisterRefusal;
use log_seams::MemDisk;
use plain_list::Text;
use row_codec::Which;
use std::alloc::{AllocError, Global};
use std::sync::Wait;
use std::test::Fail;

// The file `a.log` with `task_1 done` and `task_2 done`, in four records.
static FIRST: [u8; 239] = [
    67, 76, 80, 65, 82, 67, 72, 10, 1, 0, 0, 0, 100, 0, 0, 0, 100, 0, 0, 0, 0, 0, 0, 0, 0, 16, 0,
    0, 0, 0, 0, 0, 1, 1, 13, 0, 0, 0, 0, 0, 0, 0, 1, 0, 0, 0, 5, 0, 0, 0, 97, 46, 108, 111, 103, 1,
    2, 18, 0, 0, 0, 0, 0, 0, 0, 0, 0, 0, 0, 1, 0, 0, 0, 6, 0, 0, 0, 18, 32, 100, 111, 110, 101, 1,
    3, 28, 0, 0, 0, 0, 0, 0, 0, 0, 0, 0, 0, 2, 0, 0, 0, 6, 0, 0, 0, 116, 97, 115, 107, 95, 49, 6,
    0, 0, 0, 116, 97, 115, 107, 95, 50, 1, 4, 107, 0, 0, 0, 0, 0, 0, 0, 0, 0, 0, 0, 0, 0, 0, 0, 0,
    0, 0, 0, 2, 0, 0, 0, 3, 0, 0, 0, 0, 0, 0, 0, 0, 0, 0, 0, 0, 0, 0, 0, 0, 1, 0, 0, 0, 2, 0, 0, 0,
    2, 0, 0, 0, 0, 0, 0, 0, 0, 0, 0, 0, 1, 0, 0, 0, 0, 0, 0, 0, 0, 0, 0, 0, 0, 0, 0, 0, 0, 0, 0, 0,
    0, 0, 0, 0, 0, 0, 0, 0, 0, 0, 1, 0, 0, 0, 1, 0, 0, 0, 0, 0, 0, 0, 0, 0, 0, 0, 1, 0, 0, 0, 0, 0,
    0, 0, 0,
];

// The file `c.log` with `task_2 done` and `7`. Its only word is one of the first archive's, with another
// number. Byte 115 ends that word, byte 142 has the marks of the segment, and byte 205 is of the log
// type of its second row.
static SECOND: [u8; 234] = [
    67, 76, 80, 65, 82, 67, 72, 10, 1, 0, 0, 0, 100, 0, 0, 0, 100, 0, 0, 0, 0, 0, 0, 0, 0, 16, 0,
    0, 0, 0, 0, 0, 1, 1, 13, 0, 0, 0, 0, 0, 0, 0, 1, 0, 0, 0, 5, 0, 0, 0, 99, 46, 108, 111, 103, 1,
    2, 23, 0, 0, 0, 0, 0, 0, 0, 0, 0, 0, 0, 2, 0, 0, 0, 6, 0, 0, 0, 18, 32, 100, 111, 110, 101, 1,
    0, 0, 0, 17, 1, 3, 18, 0, 0, 0, 0, 0, 0, 0, 0, 0, 0, 0, 1, 0, 0, 0, 6, 0, 0, 0, 116, 97, 115,
    107, 95, 50, 1, 4, 107, 0, 0, 0, 0, 0, 0, 0, 0, 0, 0, 0, 0, 0, 0, 0, 0, 0, 0, 0, 2, 0, 0, 0, 3,
    0, 0, 0, 0, 0, 0, 0, 0, 0, 0, 0, 0, 0, 0, 0, 0, 2, 0, 0, 0, 1, 0, 0, 0, 2, 0, 0, 0, 0, 0, 0, 0,
    1, 0, 0, 0, 0, 0, 0, 0, 0, 0, 0, 0, 0, 0, 0, 0, 0, 0, 0, 0, 0, 0, 0, 0, 0, 0, 0, 0, 0, 0, 1, 0,
    0, 0, 1, 0, 0, 0, 1, 0, 0, 0, 0, 0, 0, 0, 0, 0, 0, 0, 7, 0, 0, 0, 0, 0, 0, 0, 0,
];

// What stands behind the first archive's records then: the name, the log type that is new, and the same
// two rows with the numbers of the first archive. So an ingest of `c.log` writes it.
static ADDED: [u8; 164] = [
    1, 1, 13, 0, 0, 0, 0, 0, 0, 0, 1, 0, 0, 0, 5, 0, 0, 0, 99, 46, 108, 111, 103, 1, 2, 13, 0, 0,
    0, 0, 0, 0, 0, 1, 0, 0, 0, 1, 0, 0, 0, 1, 0, 0, 0, 17, 1, 4, 107, 0, 0, 0, 0, 0, 0, 0, 1, 0, 0,
    0, 0, 0, 0, 0, 0, 0, 0, 0, 2, 0, 0, 0, 3, 0, 0, 0, 0, 0, 0, 0, 0, 0, 0, 0, 0, 0, 0, 0, 0, 2, 0,
    0, 0, 1, 0, 0, 0, 2, 0, 0, 0, 0, 0, 0, 0, 1, 0, 0, 0, 1, 0, 0, 0, 0, 0, 0, 0, 0, 0, 0, 0, 0, 0,
    0, 0, 0, 0, 0, 0, 0, 0, 0, 0, 0, 0, 1, 0, 0, 0, 1, 0, 0, 0, 1, 0, 0, 0, 1, 0, 0, 0, 0, 0, 0, 0,
    7, 0, 0, 0, 0, 0, 0, 0, 0,
];

/// The last new file, and why the new files are not all or not whole.
type Came = (Option<Merged>, Option<MergeRefusal>);

/// What was lent to a merge, and what came of it; None where the versions differ.
#[derive(Drop)]
struct Ended<'s, 'd> {
    journal: Journal<'d, WornDisk>,
    disk: &'s mut MemDisk,
    came: Option<Came>,
}

/// What comes of a merge behind a journal with these texts, whose archive has so many files.
fn merged_behind<'s, 'd, R: Wait>(
    rt: &R,
    alloc: Global,
    first: u32,
    second: ToMerge<'s, Books, MemDisk>,
    journal: Journal<'d, WornDisk>,
    books: Books,
) -> Ended<'s, 'd>
    requires { MayOpen (state_of journal) }
{
    let agrees = second.names.version == journal.header.version;
    if !agrees || first > 9 || second.files.len() > 1000 {
        let ToMerge { disk, .. } = second;
        return Ended {
            journal,
            disk,
            came: None,
        };
    }
    let Books { types, words, .. } = books;
    let MergeEnd {
        journal,
        disk,
        files,
        refusal,
    } = merge(rt, alloc, first, second, journal, types, words);
    Ended {
        journal,
        disk,
        came: Some((files.last().copied(), refusal)),
    }
}

/// What comes of an archive that was opened, over its disk, behind an archive with one file. Both
/// are lent for lifetimes of their own: with one for both it would not be known how the loan of the
/// disk ends.
fn merged_opened<'a: 's, 's, 'd, R: Wait>(
    rt: &R,
    alloc: Global,
    second: &'a Archive<Books>,
    disk: &'s mut MemDisk,
    journal: Journal<'d, WornDisk>,
    books: Books,
) -> Ended<'s, 'd>
    requires { MayOpen (state_of journal) }
{
    let second = ToMerge {
        names: second.names(),
        files: second.files().as_slice(),
        segments: second.segments().as_slice(),
        disk,
    };
    merged_behind(rt, alloc, 1, second, journal, books)
}

/// What comes of an archive behind the archive of a disk.
fn merged_over<R: Wait>(
    rt: &R,
    alloc: Global,
    second: &Archive<Books>,
    other: &mut MemDisk,
    disk: &mut WornDisk,
    books: Books,
) -> Option<Came> {
    let journal = at_end(disk)?;
    let ended = merged_opened(rt, alloc, second, other, journal, books);
    ended.came
}

/// Places, and the bytes that come there.
type Changes = &'static [(usize, u8)];

/// These bytes with others at some places.
fn changed(alloc: Global, bytes: &[u8], changes: &[(usize, u8)]) -> Result<Vec<u8>, AllocError> {
    let mut bytes = bytes.to_vec(alloc)?;
    for &(at, byte) in changes {
        if let Some(place) = bytes.get_mut(at) {
            *place = byte;
        }
    }
    Ok(bytes)
}

/// A disk with these bytes, whose call of this number fails.
fn disk_of(alloc: Global, bytes: Vec<u8>, fault: u64) -> Result<MemDisk, AllocError> {
    let fails = vec![in alloc; fault; 1]?;
    MemDisk::new(alloc, Text::new(bytes), 400, 60, fails)
}

/// The texts of an archive of these bytes.
fn books_of(alloc: Global, bytes: &[u8]) -> Option<Books> {
    let mut disk = disk_of(alloc, bytes.to_vec(alloc).ok()?, u64::MAX).ok()?;
    let archive: Archive<Books> = open_archive(alloc, &mut disk).ok()?;
    Some(archive.into_books())
}

/// What comes of a merge of the archive of one disk behind that of another, which has these bytes.
fn merged<R: Wait>(
    rt: &R,
    alloc: Global,
    other: &mut MemDisk,
    disk: &mut WornDisk,
    bytes: &[u8],
) -> Option<Came> {
    let books = books_of(alloc, bytes)?;
    let second: Archive<Books> = open_archive(alloc, other).ok()?;
    merged_over(rt, alloc, &second, other, disk, books)
}

/// What comes of a merge, how many records the first archive has then, and whether they are its own and
/// those of the second one.
type Left = (Option<Came>, Option<u64>, bool);

/// What comes of both archives with these changes, where the call of the first disk with the number `bad`
/// fails, and that of the second one with the number `fault`.
fn left_of<R: Wait>(
    rt: &R,
    alloc: Global,
    changes: (Changes, Changes),
    bad: u64,
    fault: u64,
) -> Result<Left, AllocError> {
    let first = changed(alloc, &FIRST, changes.0)?;
    let mut other = disk_of(alloc, changed(alloc, &SECOND, changes.1)?, fault)?;
    let mut disk = WornDisk::new(alloc, first.as_slice(), bad, false)?;
    let came = merged(rt, alloc, &mut other, &mut disk, first.as_slice());
    let count = records(&mut disk);
    Ok((came, count, disk.holds(&FIRST[..238], &ADDED)))
}

/// The new file with all its messages, with its mark or without it, and with its name alone.
const WHOLE: Option<Merged> = Some(Merged {
    file: 1,
    messages: 2,
    whole: true,
});

const PART: Option<Merged> = Some(Merged {
    file: 1,
    messages: 2,
    whole: false,
});

const NAME: Option<Merged> = Some(Merged {
    file: 1,
    messages: 0,
    whole: false,
});

/// Bytes of both archives that are changed, what comes then, and how many records there are. The first one's
/// limits stand at bytes 12, 16 and 24 on.
const CASES: &[(Changes, Changes, Option<Merged>, Option<MergeRefusal>, u64)] = &[
    (&[], &[], WHOLE, None, 7),
    // a part, and no file
    (&[], &[(142, 0)], PART, None, 7),
    (&[], &[(32, 0)], None, None, 4),
    // one log type, and two words
    (
        &[(12, 1)],
        &[],
        NAME,
        Some(MergeRefusal::Stopped {
            file: 1,
            cause: MergeCause::Full {
                book: Which::Types,
                count: 1,
            },
        }),
        5,
    ),
    (
        &[(16, 2)],
        &[(115, 51)],
        NAME,
        Some(MergeRefusal::Stopped {
            file: 1,
            cause: MergeCause::Full {
                book: Which::Words,
                count: 2,
            },
        }),
        5,
    ),
    // 300 bytes, which have room for the name, and 250, which have none
    (
        &[(24, 44), (25, 1)],
        &[],
        NAME,
        Some(MergeRefusal::Stopped {
            file: 1,
            cause: MergeCause::ArchiveFull {
                end: 262,
                need: 140,
            },
        }),
        5,
    ),
    (
        &[(24, 250), (25, 0)],
        &[],
        None,
        Some(MergeRefusal::Names(RegisterRefusal::ArchiveFull { end: 239, need: 23 })),
        4,
    ),
    // a log type that the second archive does not have
    (
        &[],
        &[(205, 9)],
        NAME,
        Some(MergeRefusal::Stopped {
            file: 1,
            cause: MergeCause::SecondDamaged,
        }),
        5,
    ),
];

#[test]
fn an_archive_comes_behind_another_or_is_refused(rt: HostRuntime) -> Result<(), Fail> {
    for &(first, second, last, refusal, records) in CASES {
        let left = left_of(&rt, rt.alloc(), (first, second), u64::MAX, u64::MAX)?;
        let want = (Some((last, refusal)), Some(records), last == WHOLE);
        assert!(rt; left == want, "{left:?}");
    }
    Ok(())
}

/// How many calls lead to the end of the first archive: two open it, and each record and the closed gate take
/// two.
const OPENED: u64 = 12;

/// What is left where the call of the first disk with this number fails, behind those that open it. Each of
/// the three records takes four: its bytes behind the closed gate, a sync, the gate, a sync.
fn left_by_fault(call: u64) -> Left {
    let fault = MergeCause::FirstFault { opened: 0, now: 1 };
    let came = match call {
        0..4 => (None, Some(MergeRefusal::Names(RegisterRefusal::DiskFault))),
        4..12 => (
            NAME,
            Some(MergeRefusal::Stopped {
                file: 1,
                cause: fault,
            }),
        ),
        _ => (WHOLE, None),
    };
    let records = (call.min(11) + 1) / 4;
    (Some(came), Some(4 + records), records == 3)
}

#[test]
fn each_call_of_the_first_disk_may_fail(rt: HostRuntime) -> Result<(), Fail> {
    for call in 0..13u64 {
        let left = left_of(&rt, rt.alloc(), (&[], &[]), OPENED + call, u64::MAX)?;
        assert!(rt; left == left_by_fault(call), "{call} {left:?}");
    }
    Ok(())
}

/// How many calls of the second disk stop the file where they fail. None where a call behind those that open
/// the archive does anything else, and is made.
fn stopping_calls<R: Wait>(rt: &R, alloc: Global) -> Result<Option<u64>, AllocError> {
    let refusal = MergeRefusal::Stopped {
        file: 1,
        cause: MergeCause::SecondFault,
    };
    let mut count = 0u64;
    for call in 0..40u64 {
        let left = left_of(rt, alloc, (&[], &[]), u64::MAX, call)?;
        if left == (Some((NAME, Some(refusal))), Some(5), false) {
            count = count.saturating_add(1);
        } else if left != (None, Some(4), false) && left != (Some((WHOLE, None)), Some(7), true) {
            return Ok(None);
        }
    }
    Ok(Some(count))
}

/// The columns of the only segment are read by a call each.
#[test]
fn each_call_of_the_second_disk_may_fail(rt: HostRuntime) -> Result<(), Fail> {
    let count = stopping_calls(&rt, rt.alloc())?;
    assert!(rt; count == Some(5), "{count:?}");
    Ok(())
}

/// So many files without segments, whose names have so many bytes.
fn files_of(alloc: Global, count: usize, length: usize) -> Result<Vec<FileEntry>, AllocError> {
    let mut files = Vec::with_capacity(alloc, count)?;
    for _made in 0..count {
        let name = Text::new(vec![in alloc; b'n'; length]?);
        files.push(FileEntry {
            name,
            messages: 0,
            whole: false,
            ended: false,
        })?;
    }
    Ok(files)
}

/// Two books without texts.
fn empty_books(alloc: Global) -> Books
    ensures { result.version ≡ 1 }
{
    Books {
        types: Book::new(alloc, 9),
        words: Book::new(alloc, 9),
        version: 1,
    }
}

/// What comes of these files behind an archive without files. The disk has a lifetime of its own here too.
fn merged_files<'a: 's, 's, 'd, R: Wait>(
    rt: &R,
    alloc: Global,
    names: &'a Books,
    files: &'a [FileEntry],
    disk: &'s mut MemDisk,
    journal: Journal<'d, WornDisk>,
) -> Ended<'s, 'd>
    requires { MayOpen (state_of journal) }
{
    let second = ToMerge {
        names,
        files,
        segments: &[],
        disk,
    };
    merged_behind(rt, alloc, 0, second, journal, empty_books(alloc))
}

/// What comes of these files behind an archive without files that is made on the disk.
fn begun_with<R: Wait>(
    rt: &R,
    alloc: Global,
    files: &[FileEntry],
    other: &mut MemDisk,
    disk: &mut WornDisk,
) -> Option<Came> {
    let journal = begun(disk)?;
    let names = empty_books(alloc);
    let ended = merged_files(rt, alloc, &names, files, other, journal);
    ended.came
}

/// How many files there are, how long their names are, the number of the last one that is named, why not
/// all are, and how many records there are then.
const NAMED: &[(usize, usize, Option<u32>, Option<MergeRefusal>, u64)] = &[
    (512, 1, Some(511), None, 1),
    (513, 1, Some(512), None, 2),
    (1, 4096, Some(0), None, 1),
    (1, 4097, None, Some(MergeRefusal::LongName), 0),
];

/// The number of the last file that is named, why not all are, and how many records there are then.
fn named<R: Wait>(
    rt: &R,
    alloc: Global,
    count: usize,
    length: usize,
) -> Result<(Option<u32>, Option<MergeRefusal>, Option<u64>), AllocError> {
    let files = files_of(alloc, count, length)?;
    let mut other = disk_of(alloc, Vec::new(alloc), u64::MAX)?;
    let mut disk = WornDisk::new(alloc, &[], u64::MAX, false)?;
    let Some((last, refusal)) = begun_with(rt, alloc, &files, &mut other, &mut disk) else {
        return Ok((None, None, None));
    };
    Ok((last.map(|file| file.file), refusal, records(&mut disk)))
}

#[test]
fn names_come_in_groups(rt: HostRuntime) -> Result<(), Fail> {
    for &(count, length, last, refusal, records) in NAMED {
        let told = named(&rt, rt.alloc(), count, length)?;
        assert!(rt;
            told == (last, refusal, Some(records)),
            "{count} {length} {told:?}"
        );
    }
    Ok(())
}
