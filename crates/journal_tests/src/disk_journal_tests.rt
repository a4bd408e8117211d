//! A journal on a disk in memory: its bytes, its refusals, and every crash of a run.
ghost use Rattle.std.specs.Prelude.{◌<◌, ◌≤◌, IsTrue, IfOk, OnOk};
ghost use Rattle.log_seams.specs.MemDisk.{calls_of};
ghost use Rattle.disk_journal.specs.Record.{IsFrame};
ghost use Rattle.disk_journal.specs.State.{IsAtEnd};
ghost use Rattle.disk_journal.specs.Journal.{state_of};

use crate::holds;
use disk_journal::{
    AppendRefusal, CreateRefusal, Journal, RecordPlace, StartRefusal, WalkRefusal, append_each,
    create, frame, frames_one, stand_for_one,
};
use log_seams::{Disk, Failed, MemDisk, Pending};
use plain_list::Text;
use record_format::{HEADER_LEN, Header};
use std::alloc::{AllocError, Global};
use std::test::Fail;
use test_archives::WORKED;

const HEADER: Header = Header {
    version: 1,
    types_limit: 16_777_216,
    words_limit: 2_147_483_648,
    length_limit: 1_099_511_627_776,
};

static EMPTY: [u8; 33] = [
    0x43, 0x4C, 0x50, 0x41, 0x52, 0x43, 0x48, 0x0A, 0x01, 0x00, 0x00, 0x00, 0x00, 0x00, 0x00, 0x01,
    0x00, 0x00, 0x00, 0x80, 0x00, 0x00, 0x00, 0x00, 0x00, 0x00, 0x00, 0x00, 0x00, 0x01, 0x00, 0x00,
    0x00,
];

fn disk(alloc: Global, bytes: &[u8], fails: &[u64]) -> Result<MemDisk, AllocError> {
    MemDisk::new(
        alloc,
        Text::new(bytes.to_vec(alloc)?),
        400,
        40,
        fails.to_vec(alloc)?,
    )
}

// The empty journal with three records appended: `first` of kind 1, twelve bytes of kind 2, and nothing
// of kind 3.
static THREE: [u8; 80] = [
    0x43, 0x4C, 0x50, 0x41, 0x52, 0x43, 0x48, 0x0A, 0x01, 0x00, 0x00, 0x00, 0x00, 0x00, 0x00, 0x01,
    0x00, 0x00, 0x00, 0x80, 0x00, 0x00, 0x00, 0x00, 0x00, 0x00, 0x00, 0x00, 0x00, 0x01, 0x00, 0x00,
    0x01, 0x01, 0x05, 0x00, 0x00, 0x00, 0x00, 0x00, 0x00, 0x00, 0x66, 0x69, 0x72, 0x73, 0x74, 0x01,
    0x02, 0x0C, 0x00, 0x00, 0x00, 0x00, 0x00, 0x00, 0x00, 0x01, 0x01, 0x01, 0x01, 0x01, 0x01, 0x01,
    0x01, 0x01, 0x01, 0x01, 0x01, 0x01, 0x03, 0x00, 0x00, 0x00, 0x00, 0x00, 0x00, 0x00, 0x00, 0x00,
];

// The gates of these bytes.
static GATES: [usize; 4] = [32, 47, 69, 79];

// How many of the three records the bytes stand for: they begin with the header and these, and a
// closed gate.
fn records_in(bytes: &[u8]) -> Option<u64> {
    for (count, gate) in GATES.iter().enumerate() {
        let is_closed = bytes.get(*gate).is_some_and(|byte| *byte != 1);
        if is_closed && bytes.get(..*gate) == THREE.get(..*gate) {
            return Some(count as u64);
        }
    }
    None
}

// Walks past the next records to the closed gate, and tells whether it came there.
fn walk<D: Disk>(journal: &mut Journal<'_, D>) -> Result<bool, WalkRefusal> {
    for _ in 0..9u8 {
        if journal.next_place()?.is_none() {
            return Ok(true);
        }
    }
    Ok(false)
}

// How many records a disk's journal has.
fn count_of(disk: &mut MemDisk) -> Result<Option<u64>, Fail> {
    let mut journal = Journal::open_journal(disk)?;
    let ended = walk(&mut journal)?;
    Ok(ended.then_some(journal.count()))
}

// The journal of a disk without records, at its end.
fn end_of<D: Disk>(disk: &mut D) -> Result<Journal<'_, D>, Fail>
    ensures { IfOk result (λ j. IsAtEnd (state_of j)) }
{
    let mut journal = Journal::open_journal(disk)?;
    let None = journal.next_place()? else {
        return Err(Fail::from("a record"));
    };
    Ok(journal)
}

fn append_three<D: Disk>(
    journal: &mut Journal<'_, D>,
    one: &[u8],
    two: &[u8],
    three: &[u8],
) -> Result<(), AppendRefusal>
    requires at_end { IsAtEnd (state_of journal.old) }
    requires one { IsFrame one.now }
    requires two { IsFrame two.now }
    requires three { IsFrame three.now }
    ensures { OnOk result (IsAtEnd (state_of journal.new)) }
{
    journal.append(one)?;
    journal.append(two)?;
    journal.append(three)?;
    Ok(())
}

fn append_both<D: Disk>(
    journal: &mut Journal<'_, D>,
    one: Text,
    two: Text,
) -> Result<Result<(), Failed>, Fail>
    requires at_end { IsAtEnd (state_of journal.old) }
    requires one { IsFrame one }
    requires two { IsFrame two }
    ensures { IsTrue journal.new.closed }
{
    let need = one.as_slice().len() as u64 + two.as_slice().len() as u64;
    if journal.header().length_limit.saturating_sub(journal.end()) < need {
        return Err(Fail::from("no room"));
    }
    Ok(append_each(journal, &[one, two]))
}

// Whether creating a journal on a disk of these bytes answers so, and leaves these.
fn is_created(
    alloc: Global,
    bytes: &[u8],
    fails: &[u64],
    answer: Result<(), CreateRefusal>,
    after: &[u8],
) -> Result<bool, Fail> {
    let mut new = disk(alloc, bytes, fails)?;
    Ok(create(&mut new, &HEADER) == answer && new.bytes() == after)
}

#[test]
fn an_empty_journal_has_its_33_bytes(rt: HostRuntime) -> Result<(), Fail> {
    holds(is_created(rt.alloc(), &[], &[], Ok(()), &EMPTY))
}

#[test]
fn an_archive_that_is_there_is_left(rt: HostRuntime) -> Result<(), Fail> {
    let refused = Err(CreateRefusal::NotEmpty { len: 155 });
    holds(is_created(rt.alloc(), &WORKED, &[], refused, &WORKED))
}

// Whether creating is refused where the call of this number fails, and leaves these bytes.
fn creating_fails(alloc: Global, fault: u64, after: &[u8]) -> Result<bool, Fail> {
    is_created(alloc, &[], &[fault], Err(CreateRefusal::DiskFault), after)
}

fn each_creating_fails(alloc: Global) -> Result<bool, Fail> {
    Ok(
        creating_fails(alloc, 0, &[])?
            && creating_fails(alloc, 1, &[])?
            && creating_fails(alloc, 2, &EMPTY)?,
    )
}

#[test]
fn each_call_of_creating_may_fail(rt: HostRuntime) -> Result<(), Fail> {
    holds(each_creating_fails(rt.alloc()))
}

// Whether opening a journal on a disk of these bytes is refused so.
fn opening_fails(
    alloc: Global,
    bytes: &[u8],
    fails: &[u64],
    refusal: StartRefusal,
) -> Result<bool, Fail> {
    let mut old = disk(alloc, bytes, fails)?;
    Ok(Journal::open_journal(&mut old).err() == Some(refusal))
}

fn each_opening_fails(alloc: Global) -> Result<bool, Fail> {
    Ok(
        opening_fails(alloc, &EMPTY, &[0], StartRefusal::DiskFault)?
            && opening_fails(alloc, &EMPTY, &[1], StartRefusal::DiskFault)?,
    )
}

#[test]
fn each_call_of_opening_may_fail(rt: HostRuntime) -> Result<(), Fail> {
    holds(each_opening_fails(rt.alloc()))
}

#[test]
fn a_cut_header_is_damaged(rt: HostRuntime) -> Result<(), Fail> {
    let damaged = StartRefusal::Damaged { at: 0 };
    holds(opening_fails(rt.alloc(), &WORKED[..31], &[], damaged))
}

// Whether the next step of the walk fails, as the first fault of the disk.
fn fails_first<D: Disk>(journal: &mut Journal<'_, D>) -> bool {
    journal.faults() == 0
        && journal.next_place() == Err(WalkRefusal::DiskFault)
        && journal.faults() == 1
}

fn step_fails(alloc: Global, fault: u64) -> Result<bool, Fail> {
    let mut old = disk(alloc, &EMPTY, &[fault])?;
    Ok(fails_first(&mut Journal::open_journal(&mut old)?))
}

fn each_step_fails(alloc: Global) -> Result<bool, Fail> {
    Ok(step_fails(alloc, 2)? && step_fails(alloc, 3)?)
}

#[test]
fn each_call_of_a_step_may_fail(rt: HostRuntime) -> Result<(), Fail> {
    holds(each_step_fails(rt.alloc()))
}

// Where the records of the worked archive stand.
const PLACES: &[RecordPlace] = &[
    RecordPlace {
        at: 32,
        kind: 1,
        payload: 42,
        length: 13,
    },
    RecordPlace {
        at: 55,
        kind: 2,
        payload: 65,
        length: 13,
    },
    RecordPlace {
        at: 78,
        kind: 4,
        payload: 88,
        length: 66,
    },
];

// Whether the walk comes to this place next.
fn comes_to<D: Disk>(journal: &mut Journal<'_, D>, want: Option<RecordPlace>) -> bool {
    journal.next_place() == Ok(want)
}

// Whether the walk comes to all these places, and then to the end.
fn comes_to_all<D: Disk>(journal: &mut Journal<'_, D>, places: &[RecordPlace]) -> bool {
    for place in places {
        if !comes_to(journal, Some(*place)) {
            return false;
        }
    }
    comes_to(journal, None)
}

// Whether the journal is at its end, there, behind so many records.
fn ends_at<D: Disk>(journal: &Journal<'_, D>, end: u64, count: u64) -> bool {
    journal.at_end() && journal.end() == end && journal.count() == count
}

fn finds_gates(alloc: Global) -> Result<bool, Fail> {
    let mut whole = disk(alloc, &WORKED, &[])?;
    let mut journal = Journal::open_journal(&mut whole)?;
    Ok(
        *journal.header() == HEADER
            && comes_to_all(&mut journal, PLACES)
            && ends_at(&journal, 155, 3),
    )
}

#[test]
fn a_walk_finds_the_gates(rt: HostRuntime) -> Result<(), Fail> {
    holds(finds_gates(rt.alloc()))
}

static NAMES: [u8; 13] = [1, 0, 0, 0, 5, 0, 0, 0, 0x61, 0x2E, 0x6C, 0x6F, 0x67];

// Whether the payload of the first record is this.
fn loads(alloc: Global, journal: &mut Journal<'_, MemDisk>, payload: &[u8]) -> Result<bool, Fail> {
    let first = journal.next_place()?.ok_or("no record")?;
    Ok(journal.load(alloc, first.payload, first.length)?.as_slice() == payload)
}

fn loads_names(alloc: Global) -> Result<bool, Fail> {
    let mut whole = disk(alloc, &WORKED, &[])?;
    loads(alloc, &mut Journal::open_journal(&mut whole)?, &NAMES)
}

#[test]
fn a_payload_is_loaded(rt: HostRuntime) -> Result<(), Fail> {
    holds(loads_names(rt.alloc()))
}

// How many of the worked archive's bytes are there, how many records a walk passes, and where the
// journal is damaged.
const CUTS: &[(usize, u64, u64)] = &[
    (32, 0, 32),
    (54, 0, 32),
    (55, 1, 55),
    (153, 2, 78),
    (154, 3, 154),
];

// Whether a walk over the bytes passes so many records, and finds the journal damaged there.
fn breaks_off(alloc: Global, bytes: &[u8], walked: u64, at: u64) -> Result<bool, Fail> {
    let mut cut = disk(alloc, bytes, &[])?;
    let mut journal = Journal::open_journal(&mut cut)?;
    let refused = walk(&mut journal) == Err(WalkRefusal::Damaged { at });
    Ok(refused && journal.count() == walked)
}

#[test]
fn a_cut_journal_is_damaged_where_it_breaks_off(rt: HostRuntime) -> Result<(), Fail> {
    for (size, walked, at) in CUTS {
        let bytes = WORKED.get(..*size).ok_or("too few")?;
        if !breaks_off(rt.alloc(), bytes, *walked, *at)? {
            return Err(Fail::new(*size));
        }
    }
    Ok(())
}

const SMALL: Header = Header {
    length_limit: 50,
    ..HEADER
};

// What an append of this record to a journal without records answers.
fn appended(
    alloc: Global,
    old: &mut MemDisk,
    kind: u8,
    payload: &[u8],
) -> Result<Result<(), AppendRefusal>, Fail> {
    let framed = frame(alloc, kind, payload)?;
    Ok(end_of(old)?.append(framed.as_slice()))
}

// Whether a journal with too little room refuses a record, by no call: creating takes a length, a write
// and a sync; a sync and a read; and opening a length and a read.
fn is_full(alloc: Global) -> Result<bool, Fail> {
    let mut small = disk(alloc, &[], &[])?;
    create(&mut small, &SMALL)?;
    let full = AppendRefusal::ArchiveFull { end: 33, need: 23 };
    let refused = appended(alloc, &mut small, 1, &[9; 13])? == Err(full);
    Ok(refused && small.calls() == 7 && small.bytes().len() == 33)
}

#[test]
fn a_full_journal_calls_nothing(rt: HostRuntime) -> Result<(), Fail> {
    holds(is_full(rt.alloc()))
}

// What stands on the disk up to the header's end, and these bytes behind it.
fn behind_header(alloc: Global, bytes: &[u8]) -> Result<Vec<u8>, AllocError> {
    let mut whole = EMPTY[..32].to_vec(alloc)?;
    whole.extend_from_slice(bytes)?;
    Ok(whole)
}

// Whether a record that is appended in front of the bytes 8, 5 and 6 leaves them.
fn leaves_behind(alloc: Global, odd: &mut MemDisk) -> Result<bool, Fail> {
    let answer = appended(alloc, odd, 3, &[2])?;
    let bytes = behind_header(
        alloc,
        b"\x01\x03\x01\x00\x00\x00\x00\x00\x00\x00\x02\x00\x08\x05\x06",
    )?;
    Ok(answer.is_ok() && odd.bytes() == bytes.as_slice() && count_of(odd)? == Some(1))
}

fn leaves_behind_odd(alloc: Global) -> Result<bool, Fail> {
    let bytes = behind_header(
        alloc,
        b"\x07\x08\x08\x08\x08\x08\x08\x08\x08\x08\x08\x08\x08\x05\x06",
    )?;
    leaves_behind(alloc, &mut disk(alloc, &bytes, &[])?)
}

#[test]
fn any_gate_but_1_is_closed_and_what_is_behind_it_stays(rt: HostRuntime) -> Result<(), Fail> {
    holds(leaves_behind_odd(rt.alloc()))
}

fn is_framed(alloc: Global) -> Result<bool, Fail> {
    let framed = frame(alloc, 3, &[2])?;
    Ok(framed.as_slice() == b"\x03\x01\x00\x00\x00\x00\x00\x00\x00\x02\x00".as_slice())
}

#[test]
fn a_frame_has_its_bytes(rt: HostRuntime) -> Result<(), Fail> {
    frames_one();
    stand_for_one();
    holds(is_framed(rt.alloc()))
}

// Appends two records to an empty journal: the answer, how many records it has then, and where it
// ends.
fn run_both(alloc: Global, run: &mut MemDisk) -> Result<(Result<(), Failed>, u64, u64), Fail> {
    let one = frame(alloc, 1, b"first")?;
    let two = frame(alloc, 2, &[1; 12])?;
    let mut journal = end_of(run)?;
    let answer = append_both(&mut journal, one, two)?;
    Ok((answer, journal.count(), journal.end()))
}

// Whether two appends to an empty journal, of whose disk the call of this number fails, come to this, and
// leave so many records.
fn come_to(
    alloc: Global,
    fault: u64,
    want: (Result<(), Failed>, u64, u64),
    records: u64,
) -> Result<bool, Fail> {
    let mut run = disk(alloc, &EMPTY, &[fault])?;
    Ok(run_both(alloc, &mut run)? == want && records_in(run.bytes()) == Some(records))
}

#[test]
fn several_appends_that_succeed(rt: HostRuntime) -> Result<(), Fail> {
    holds(come_to(rt.alloc(), 12, (Ok(()), 2, 70), 2))
}

#[test]
fn several_appends_stop_at_the_first_that_fails(rt: HostRuntime) -> Result<(), Fail> {
    holds(come_to(rt.alloc(), 8, (Err(Failed), 1, 48), 1))
}

// Appends three records to an empty journal: the answer, and how many are acknowledged.
fn run_three(alloc: Global, disk: &mut MemDisk) -> Result<(Result<(), AppendRefusal>, u64), Fail> {
    let one = frame(alloc, 1, b"first")?;
    let two = frame(alloc, 2, &[1; 12])?;
    let three = frame(alloc, 3, &[])?;
    let mut journal = end_of(disk)?;
    let answer = append_three(
        &mut journal,
        one.as_slice(),
        two.as_slice(),
        three.as_slice(),
    );
    Ok((answer, journal.count()))
}

static CRASHES: [Pending; 4] = [
    Pending::All,
    Pending::Nothing,
    Pending::FirstHalf,
    Pending::Ones,
];

// Whether each crash after so many calls leaves the first of the three records, at least and at most so
// many, and a walk finds as many.
fn keeps(run: &MemDisk, after: usize, least: u64, most: u64) -> Result<bool, Fail>
    requires { after ≤ calls_of run.now }
{
    for pending in CRASHES {
        let mut image = run.stopped(after, pending)?;
        let found = records_in(image.bytes()).ok_or("no journal")?;
        if found < least || most < found || count_of(&mut image)? != Some(found) {
            return Ok(false);
        }
    }
    Ok(true)
}

// Fails with the first crash that leaves no such journal: there are four calls of the opening and the
// walk, and four of each append.
fn all_are_kept(run: &MemDisk) -> Result<(), Fail> {
    if run.calls() != 16 {
        return Err(Fail::from("not 16 calls"));
    }
    for after in 4..17 {
        let done = (after as u64 - 4) / 4;
        if !keeps(run, after, done, done + 1)? {
            return Err(Fail::new(after));
        }
    }
    Ok(())
}

// Whether three appends come to an end, and leave these bytes.
fn come_to_three(alloc: Global, run: &mut MemDisk) -> Result<bool, Fail> {
    let (answer, count) = run_three(alloc, run)?;
    Ok(answer.is_ok() && count == 3 && run.bytes() == THREE.as_slice())
}

#[test]
fn every_crash_of_three_appends_leaves_a_journal(rt: HostRuntime) -> Result<(), Fail> {
    let mut run = disk(rt.alloc(), &EMPTY, &[])?;
    holds(come_to_three(rt.alloc(), &mut run))?;
    all_are_kept(&run)
}

// Whether three appends to an empty journal, of whose disk this call fails, are refused where it does,
// and leave a journal of those before.
fn keeps_at(alloc: Global, fault: u64) -> Result<bool, Fail>
    requires { (4 ≤ fault) × (fault < 16) }
{
    let mut run = disk(alloc, &EMPTY, &[fault])?;
    let done = (fault - 4) / 4;
    let (answer, count) = run_three(alloc, &mut run)?;
    let refused = answer == Err(AppendRefusal::DiskFault) && count == done;
    Ok(refused && keeps(&run, run.calls(), done, done + 1)?)
}

#[test]
fn a_fault_of_three_appends_leaves_a_journal(rt: HostRuntime) -> Result<(), Fail> {
    for fault in 4..16 {
        if !keeps_at(rt.alloc(), fault)? {
            return Err(Fail::new(fault));
        }
    }
    Ok(())
}

// Where the three records stand.
const THREE_PLACES: &[RecordPlace] = &[
    RecordPlace {
        at: 32,
        kind: 1,
        payload: 42,
        length: 5,
    },
    RecordPlace {
        at: 47,
        kind: 2,
        payload: 57,
        length: 12,
    },
    RecordPlace {
        at: 69,
        kind: 3,
        payload: 79,
        length: 0,
    },
];

// Whether these records stand at the gates, from the first on, and the closed gate behind them. The
// journal stays at its end.
fn stand_at_gates<D: Disk>(
    journal: &mut Journal<'_, D>,
    places: &[RecordPlace],
) -> Result<bool, WalkRefusal>
    requires { IsAtEnd (state_of journal.old) }
    ensures { IsAtEnd (state_of journal.new) }
{
    let mut at = HEADER_LEN as u64;
    for place in places {
        let Some(next) = journal.place_at(at)? else {
            return Ok(false);
        };
        if next != *place {
            return Ok(false);
        }
        at = next.payload + next.length;
    }
    Ok(journal.place_at(at)?.is_none())
}

// What is found at the gates of an empty journal to which three records were appended.
fn look_at_three(alloc: Global, disk: &mut MemDisk) -> Result<Result<bool, WalkRefusal>, Fail> {
    let one = frame(alloc, 1, b"first")?;
    let two = frame(alloc, 2, &[1; 12])?;
    let three = frame(alloc, 3, &[])?;
    let mut journal = end_of(disk)?;
    append_three(
        &mut journal,
        one.as_slice(),
        two.as_slice(),
        three.as_slice(),
    )?;
    let found = stand_at_gates(&mut journal, THREE_PLACES);
    Ok(if ends_at(&journal, 80, 3) {
        found
    } else {
        Ok(false)
    })
}

// Whether a look at each gate answers so, where the call of this number fails, and makes so many
// calls.
fn looks(
    alloc: Global,
    fault: u64,
    answer: Result<bool, WalkRefusal>,
    calls: u64,
) -> Result<bool, Fail> {
    let mut run = disk(alloc, &EMPTY, &[fault])?;
    Ok(look_at_three(alloc, &mut run)? == answer && run.calls() as u64 == calls)
}

// There are 16 calls before the first look, and two of each look.
#[test]
fn each_gate_is_found(rt: HostRuntime) -> Result<(), Fail> {
    holds(looks(rt.alloc(), 24, Ok(true), 24))
}

#[test]
fn each_call_of_a_look_may_fail(rt: HostRuntime) -> Result<(), Fail> {
    for fault in 16..24u64 {
        if !looks(rt.alloc(), fault, Err(WalkRefusal::DiskFault), fault + 1)? {
            return Err(Fail::new(fault));
        }
    }
    Ok(())
}
