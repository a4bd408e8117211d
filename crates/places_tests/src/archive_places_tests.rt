//! An archive that is opened by places, cut and changed, and over a disk that fails.

use crate::archive::{ARCHIVE, TYPES, WORDS, changed, disk};
use archive_open::{Archive, ArchiveRefusal, PlainBooks, SegmentPlace, open_archive};
use archive_places::{
    Places, SegmentFront, heads_stand, load_segment, load_types, open_places, types_stand,
    words_stand,
};
use segment_pages::PageRefusal;
use std::alloc::{AllocError, Global};
use std::test::Fail;
use word_places::{HoldRefusal, TypeTexts};

// Opens an archive of these bytes by places.
fn open(alloc: Global, bytes: &[u8]) -> Result<Places, ArchiveRefusal> {
    let mut disk = disk(alloc, bytes, &[])?;
    open_places(alloc, &mut disk)
}

// Opens an archive of these bytes with all texts and heads.
fn open_whole(alloc: Global, bytes: &[u8]) -> Result<Archive<PlainBooks>, ArchiveRefusal> {
    let mut disk = disk(alloc, bytes, &[])?;
    open_archive(alloc, &mut disk)
}

fn has_words(places: &Places) -> bool {
    places.words.as_slice() == WORDS
}

fn has_file(places: &Places) -> bool {
    let [file] = places.files.as_slice() else {
        return false;
    };
    file.name.as_slice() == b"a.log".as_slice() && file.messages == 3 && file.whole && file.ended
}

fn has_type(places: &Places) -> bool {
    places.types.as_slice() == TYPES && places.types_count == 1
}

fn has_all(places: &Places) -> bool {
    has_words(places)
        && has_file(places)
        && has_type(places)
        && places.header.version == 1
        && places.entries == 6
        && places.end == 360
}

fn opens(alloc: Global) -> Result<bool, ArchiveRefusal> {
    Ok(has_all(&open(alloc, &ARCHIVE)?))
}

#[test]
fn an_archive_opens_by_places(rt: HostRuntime) {
    let opens = opens(rt.alloc());
    assert!(rt; matches!(opens, Ok(true)));
}

// Whether a front says of a segment what its place says.
fn is_front_of(front: &SegmentFront, place: &SegmentPlace) -> bool {
    front.at == place.at
        && front.payload == place.payload
        && front.length == place.length
        && front.first == place.head.first
        && front.rows == place.head.rows
        && front.last == place.head.last
        && front.types as usize == place.head.types.len()
        && front.words as usize == place.head.words.len()
}

// Whether the places have the fronts of the archive's two segments.
fn has_fronts(places: &Places, archive: &Archive<PlainBooks>) -> bool {
    let [first, second] = places.segments.as_slice() else {
        return false;
    };
    let [one, two] = archive.segments().as_slice() else {
        return false;
    };
    is_front_of(first, one) && is_front_of(second, two)
}

// Whether both openings find the same segments.
fn finds_segments(alloc: Global) -> Result<bool, ArchiveRefusal> {
    let places = open(alloc, &ARCHIVE)?;
    let archive = open_whole(alloc, &ARCHIVE)?;
    Ok(has_fronts(&places, &archive))
}

#[test]
fn its_segments_are_those_of_whole_heads(rt: HostRuntime) {
    let found = finds_segments(rt.alloc());
    assert!(rt; matches!(found, Ok(true)));
}

// The segment at an index, read from a disk with these bytes, of which these calls fail.
fn load_of(
    alloc: Global,
    segments: &[SegmentFront],
    bytes: &[u8],
    fails: &[u64],
    index: usize,
) -> Result<SegmentPlace, PageRefusal> {
    let Some(front) = segments.get(index) else {
        return Err(PageRefusal::OutOfMemory);
    };
    let mut disk = disk(alloc, bytes, fails)?;
    load_segment(alloc, &mut disk, front)
}

// The same of an archive.
fn load(
    alloc: Global,
    bytes: &[u8],
    fails: &[u64],
    index: usize,
) -> Result<SegmentPlace, PageRefusal> {
    match open(alloc, &ARCHIVE) {
        Ok(places) => load_of(alloc, places.segments.as_slice(), bytes, fails, index),
        Err(_) => Err(PageRefusal::OutOfMemory),
    }
}

// Whether the segment at an index has these lists.
fn has_lists(
    alloc: Global,
    index: usize,
    types: &[u32],
    words: &[u32],
) -> Result<bool, PageRefusal> {
    let place = load(alloc, &ARCHIVE, &[], index)?;
    Ok(place.head.types.as_slice() == types && place.head.words.as_slice() == words)
}

fn have_lists(alloc: Global) -> Result<bool, PageRefusal> {
    Ok(has_lists(alloc, 0, &[0], &[0, 2])? && has_lists(alloc, 1, &[0], &[1])?)
}

#[test]
fn heads_are_loaded(rt: HostRuntime) {
    assert!(rt; have_lists(rt.alloc()) == Ok(true));
}

// Why the first segment is not loaded from these bytes.
fn refusal(alloc: Global, bytes: &[u8], fails: &[u64]) -> Option<PageRefusal> {
    load(alloc, bytes, fails, 0).err()
}

// A place in the first segment, and the byte that comes there: the lists hold 0, and 0 and 2.
const HEAD_CHANGES: &[(usize, u8, Option<PageRefusal>)] = &[
    (134, 9, Some(PageRefusal::Damaged)),
    (146, 8, Some(PageRefusal::Damaged)),
    (146, 1, Some(PageRefusal::Damaged)),
    (175, 1, None),
    (179, 2, Some(PageRefusal::Damaged)),
    (183, 0, Some(PageRefusal::Damaged)),
    (183, 1, None),
    (187, 9, None),
];

// The same of the archive's bytes with another one at a place.
fn refusal_by(alloc: Global, at: usize, byte: u8) -> Result<Option<PageRefusal>, AllocError> {
    let bytes = changed(alloc, at, byte)?;
    Ok(refusal(alloc, bytes.as_slice(), &[]))
}

#[test]
fn a_head_that_is_another_is_damaged(rt: HostRuntime) -> Result<(), Fail> {
    for &(at, byte, told) in HEAD_CHANGES {
        if refusal_by(rt.alloc(), at, byte)? != told {
            return Err(Fail::new(at));
        }
    }
    Ok(())
}

fn breaks_off(alloc: Global) -> bool {
    refusal(alloc, &ARCHIVE[..186], &[]) == Some(PageRefusal::Damaged)
        && refusal(alloc, &ARCHIVE[..187], &[]) == None
}

#[test]
fn a_head_that_breaks_off_is_damaged(rt: HostRuntime) {
    assert!(rt; breaks_off(rt.alloc()));
}

fn may_fail(alloc: Global) -> bool {
    refusal(alloc, &ARCHIVE, &[0]) == Some(PageRefusal::DiskFault)
        && refusal(alloc, &ARCHIVE, &[1]) == None
}

#[test]
fn the_read_of_a_head_may_fail(rt: HostRuntime) {
    assert!(rt; may_fail(rt.alloc()));
}

// The segment at an index without its words, read from a disk with these bytes, of which these calls fail.
fn spared_of(
    alloc: Global,
    bytes: &[u8],
    fails: &[u64],
    index: usize,
) -> Result<SegmentPlace, PageRefusal> {
    let Ok(places) = open(alloc, &ARCHIVE) else {
        return Err(PageRefusal::OutOfMemory);
    };
    let Some(front) = places.segments.as_slice().get(index) else {
        return Err(PageRefusal::OutOfMemory);
    };
    let mut disk = disk(alloc, bytes, fails)?;
    load_types(alloc, &mut disk, front)
}

// Whether it is the segment of a whole head but for the words.
fn is_spared(alloc: Global, index: usize) -> Result<bool, PageRefusal> {
    let place = spared_of(alloc, &ARCHIVE, &[], index)?;
    let whole = load(alloc, &ARCHIVE, &[], index)?;
    let same = place.payload == whole.payload && place.length == whole.length;
    let head = &place.head;
    let listed = head.types.as_slice() == whole.head.types.as_slice() && head.words.len() == 0;
    Ok(same && listed && head.rows == whole.head.rows && head.first == whole.head.first)
}

fn are_spared(alloc: Global) -> Result<bool, PageRefusal> {
    Ok(is_spared(alloc, 0)? && is_spared(alloc, 1)?)
}

#[test]
fn heads_are_loaded_without_words(rt: HostRuntime) {
    assert!(rt; are_spared(rt.alloc()) == Ok(true));
}

// Why the first segment is not loaded without its words.
fn spared_refusal(alloc: Global, bytes: &[u8], fails: &[u64]) -> Option<PageRefusal> {
    spared_of(alloc, bytes, fails, 0).err()
}

fn spared_break_off(alloc: Global) -> bool {
    spared_refusal(alloc, &ARCHIVE[..178], &[]) == Some(PageRefusal::Damaged)
        && spared_refusal(alloc, &ARCHIVE[..179], &[]) == None
        && spared_refusal(alloc, &ARCHIVE, &[0]) == Some(PageRefusal::DiskFault)
        && spared_refusal(alloc, &ARCHIVE, &[1]) == None
}

#[test]
fn log_types_that_break_off_are_damaged(rt: HostRuntime) {
    assert!(rt; spared_break_off(rt.alloc()));
}

// The place of the damage that opening tells.
fn damage(alloc: Global, bytes: &[u8]) -> Result<Option<u64>, ArchiveRefusal> {
    match open(alloc, bytes) {
        Ok(_) => Ok(None),
        Err(ArchiveRefusal::Damaged { at }) => Ok(Some(at)),
        Err(refusal) => Err(refusal),
    }
}

// A place, the byte that comes there, and where opening tells damage. What stands in a list, or in
// a record of log types or of words behind its count, is not read.
const CHANGES: &[(usize, u8, Option<u64>)] = &[
    (0, 0x44, Some(0)),
    (33, 0x09, Some(32)),
    (42, 0x02, Some(32)),
    (65, 0x01, Some(55)),
    (69, 0x02, None),
    (73, 0x05, None),
    (77, 0x62, None),
    (91, 0x01, Some(81)),
    (95, 0x04, Some(237)),
    (99, 0x09, None),
    (134, 0x01, Some(120)),
    (146, 0x08, Some(120)),
    (163, 0xFF, Some(120)),
    (183, 0x00, None),
    (247, 0x02, Some(237)),
    (255, 0xFF, None),
    (359, 0x05, None),
];

// The same of the archive's bytes with another one at a place.
fn damage_by(alloc: Global, at: usize, byte: u8) -> Result<Option<u64>, ArchiveRefusal> {
    let bytes = changed(alloc, at, byte)?;
    damage(alloc, bytes.as_slice())
}

#[test]
fn changed_bytes_are_damaged_where_opening_reads_them(rt: HostRuntime) -> Result<(), Fail> {
    for &(at, byte, told) in CHANGES {
        if damage_by(rt.alloc(), at, byte)? != told {
            return Err(Fail::new(at));
        }
    }
    Ok(())
}

// Why the log types of these bytes, where these are opened by places, are not read.
fn types_refusal(alloc: Global, bytes: &[u8]) -> Result<Option<HoldRefusal>, ArchiveRefusal> {
    let mut disk = disk(alloc, bytes, &[])?;
    let places = open_places(alloc, &mut disk)?;
    Ok(TypeTexts::read(alloc, &mut disk, places.types.as_slice()).err())
}

// A place in the record of log types that opening does not read, and the byte that comes there: the
// count, the length of its text, and the text.
const TYPE_CHANGES: &[(usize, u8, Option<HoldRefusal>)] = &[
    (69, 0x02, Some(HoldRefusal::Damaged)),
    (73, 0x05, Some(HoldRefusal::Damaged)),
    (73, 0x03, Some(HoldRefusal::Damaged)),
    (77, 0x62, None),
];

// The same of the archive's bytes with another one at a place.
fn types_refusal_by(
    alloc: Global,
    at: usize,
    byte: u8,
) -> Result<Option<HoldRefusal>, ArchiveRefusal> {
    let bytes = changed(alloc, at, byte)?;
    types_refusal(alloc, bytes.as_slice())
}

#[test]
fn damage_of_log_types_is_found_where_they_are_read(rt: HostRuntime) -> Result<(), Fail> {
    for &(at, byte, told) in TYPE_CHANGES {
        if types_refusal_by(rt.alloc(), at, byte) != Ok(told) {
            return Err(Fail::new(at));
        }
    }
    Ok(())
}

// How many calls of the disk it takes to open the archive.
const CALLS: u64 = 22;

// Whether opening answers a fault where this call of the disk fails.
fn is_fault(alloc: Global, call: u64) -> Result<bool, AllocError> {
    let mut disk = disk(alloc, &ARCHIVE, &[call])?;
    let opened = open_places(alloc, &mut disk);
    Ok(matches!(opened, Err(ArchiveRefusal::DiskFault)))
}

#[test]
fn each_call_of_opening_may_fail(rt: HostRuntime) -> Result<(), Fail> {
    for call in 0..=CALLS {
        if is_fault(rt.alloc(), call)? != (call < CALLS) {
            return Err(Fail::new(call));
        }
    }
    Ok(())
}

#[test]
fn laws_hold() {
    types_stand();
    words_stand();
    heads_stand();
}
