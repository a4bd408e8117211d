//! A store over a disk in memory, of whose calls in a commit each may be the last or fail.
ghost use Rattle.std.specs.Prelude.{◌≡◌, ◌+◌, ◌<◌, ◌≤◌, [], Some, length, IsTrue};
ghost use Rattle.step_count.specs.Opens.{OpensFor};
ghost use Rattle.turn_lock.specs.declared.board.About.{About};
ghost use Rattle.turn_lock.specs.Words.{about_by, id_of, lock_by, lock_noted, made_by, seen_by, IsOpening, IsStillBy};
ghost use Rattle.dict_core.specs.Fair.{IsFair};
ghost use Rattle.dict_core.specs.declared.grows.TheConstants.{WORDS_FIRST as words_first};
ghost use Rattle.disk_seal.specs.declared.fixed.StoreFixed.{StoreFixed};

use crate::quiet::{QuietDisk, at_end};
use crate::worked::WORKED;
use column_store::Columns;
use dict_core::{Book, WORDS_FIRST};
use dict_lock::{SharedBook, intern};
use disk_journal::Journal;
use disk_seal::{DiskFault, Draft, Keeper, Receipt, Store, Turns, prepare};
use log_seams::{MemDisk, Pending};
use logtype_text::{MAX_TYPE_LEN, MAX_WORD_LEN, text_ok};
use plain_list::{NumberList, Text};
use std::alloc::{AllocError, Global};
use std::marker::Brand;
use std::sync::Wait;
use std::sync::ledger::{Blank, Ledger};
use std::test::Fail;
use step_count::Steps;
use turn_lock::{Maker, Note};

/// Counters that stand at 0.
pub(crate) fn zeros<A: Ledger, B: Ledger, C: Ledger>(a: Blank, b: Blank, c: Blank) -> Turns<A, B, C>
    requires first { OpensFor a A.name A.parts }
    requires second { OpensFor b B.name B.parts }
    requires third { OpensFor c C.name C.parts }
{
    Turns {
        types: Steps::new(a),
        words: Steps::new(b),
        store: Steps::new(c),
    }
}

/// A note of the maker's next pass over its lock.
pub(crate) fn noted<'l>(maker: &mut Maker<Book>, lock: &'l SharedBook) -> Note<'l, Book>
    requires lock { lock_by maker.old ≡ id_of lock.now }
    requires room { made_by maker.old < 4294967290 }
    ensures noted { lock_noted result ≡ lock_by maker.old }
    ensures lock { lock_by maker.new ≡ lock_by maker.old }
    ensures made { made_by maker.new ≡ made_by maker.old + 1 }
{
    let mut pass = maker.pass(lock);
    pass.note()
}

/// Whether a pass of this number may add the text.
fn is_fair(number: u64, text: &[u8]) -> bool
    ensures { IsTrue result → IsFair number text.now }
{
    if number < WORDS_FIRST {
        if text.len() > MAX_TYPE_LEN || !text_ok(text) {
            return false;
        }
        return true;
    }
    number > WORDS_FIRST && !text.is_empty() && text.len() <= MAX_WORD_LEN
}

/// Names a text by the maker's next pass over its book. Whether it was named.
fn name<R: Wait, L: Ledger>(
    rt: &R,
    maker: &mut Maker<Book>,
    lock: &SharedBook,
    text: &[u8],
    turns: &mut Steps<L>,
) -> bool
    requires lock { lock_by maker.old ≡ id_of lock.now }
    requires room { made_by maker.old < 4294967290 }
    ensures lock { lock_by maker.new ≡ lock_by maker.old }
    ensures made { made_by maker.new ≡ made_by maker.old + 1 }
{
    let mut pass = maker.pass(lock);
    is_fair(pass.number(), text) && intern(&mut pass, rt, text, turns).is_ok()
}

/// What a commit answers; None where nothing could be prepared.
type Committed = Option<Result<Receipt, DiskFault>>;

/// Commits a segment without rows, of the file of the maker's next pass, and the texts that are not saved.
pub(crate) fn committed<'d, 'b, R: Wait, A: Ledger, B: Ledger, C: Ledger>(
    rt: &R,
    alloc: Global,
    maker: &mut Maker<Store<'d, 'b, QuietDisk>>,
    keeper: &Keeper<'d, 'b, QuietDisk>,
    types: Note<'_, Book>,
    words: Note<'_, Book>,
    turns: &mut Turns<A, B, C>,
) -> Committed
    requires lock { lock_by maker.old ≡ id_of keeper.now }
    requires room { made_by maker.old < 4294967290 }
    requires opening { (a : About (StoreFixed QuietDisk)) → about_by maker.old ≡ Some a
        → a.start ≤ length (seen_by maker.old) }
    requires books { (a : About (StoreFixed QuietDisk)) → about_by maker.old ≡ Some a
        → (lock_noted types ≡ a.fixed.types) × (lock_noted words ≡ a.fixed.words) }
    ensures still { IsStillBy maker.old maker.new }
    ensures made { made_by maker.new ≡ made_by maker.old + 1 }
{
    let mut pass = maker.pass(keeper);
    let Ok(file) = u32::try_from(pass.number()) else {
        return None;
    };
    let draft = Draft {
        file,
        first: 0,
        last: true,
        ended: true,
        columns: Columns::new(alloc),
        words: NumberList::new(Vec::new(alloc)),
    };
    match prepare(&mut pass, rt, alloc, &draft, types, words, turns) {
        Ok(prepared) => Some(prepared.commit(&mut pass)),
        Err(_) => None,
    }
}

/// What two commits of a new store answer, each by a pass of its own. A log type and a word are named before.
fn over_books<'b, R: Wait, A: Ledger, B: Ledger, C: Ledger>(
    rt: &R,
    alloc: Global,
    disk: &mut QuietDisk,
    types: &mut Maker<Book>,
    types_lock: &'b SharedBook,
    words: &mut Maker<Book>,
    words_lock: &'b SharedBook,
    turns: &mut Turns<A, B, C>,
    again: bool,
) -> (Committed, Committed)
    requires types { (lock_by types.old ≡ id_of types_lock.now) × IsOpening types.old 0 [] 9 }
    requires words { (lock_by words.old ≡ id_of words_lock.now)
        × IsOpening words.old words_first [] 9 }
{
    let Some(journal) = at_end(disk) else {
        return (None, None);
    };
    let types_reader = types.pass(types_lock);
    let words_reader = words.pass(words_lock);
    if !name(rt, types, types_lock, b"a", &mut turns.types)
        || !name(rt, words, words_lock, b"x7", &mut turns.words)
    {
        return (None, None);
    }
    let store = Store::open_store(journal, types_reader, words_reader, 0, 0);
    let Ok((keeper, mut maker)) = Keeper::new(alloc, store, 0) else {
        return (None, None);
    };
    let (of_types, of_words) = (noted(types, types_lock), noted(words, words_lock));
    let first = committed(rt, alloc, &mut maker, &keeper, of_types, of_words, turns);
    if !again {
        return (first, None);
    }
    let (of_types, of_words) = (noted(types, types_lock), noted(words, words_lock));
    let second = committed(rt, alloc, &mut maker, &keeper, of_types, of_words, turns);
    (first, second)
}

/// What two commits of a new store answer, over two empty books.
fn over_journal<R: Wait, A: Ledger, B: Ledger, C: Ledger>(
    rt: &R,
    alloc: Global,
    disk: &mut QuietDisk,
    again: bool,
    a: Blank,
    b: Blank,
    c: Blank,
) -> (Committed, Committed)
    requires first { OpensFor a A.name A.parts }
    requires second { OpensFor b B.name B.parts }
    requires third { OpensFor c C.name C.parts }
{
    let mut turns: Turns<A, B, C> = zeros(a, b, c);
    let Ok((types_lock, mut types)) = SharedBook::new(alloc, Book::new(alloc, 9), 0) else {
        return (None, None);
    };
    let Ok((words_lock, mut words)) = SharedBook::new(alloc, Book::new(alloc, 9), WORDS_FIRST)
    else {
        return (None, None);
    };
    over_books(
        rt,
        alloc,
        disk,
        &mut types,
        &types_lock,
        &mut words,
        &words_lock,
        &mut turns,
        again,
    )
}

/// A disk with one record, whose call of this number fails.
pub(crate) fn one_record(alloc: Global, fault: u64) -> Result<MemDisk, AllocError> {
    let mut bytes = Vec::from_slice(alloc, &WORKED[..55])?;
    bytes.push(0)?;
    let fails = vec![in alloc; fault; 1]?;
    MemDisk::new(alloc, Text::new(bytes), 1 << 10, 100, fails)
}

/// What the commits answer over a disk with one record, whose call of this number fails, and the disk.
fn over_disk<R: Wait>(
    rt: &R,
    alloc: Global,
    fault: u64,
    again: bool,
) -> Result<((Committed, Committed), MemDisk), AllocError> {
    let disk = one_record(alloc, fault)?;
    let mut quiet = QuietDisk { disk, faults: 0 };
    let answers = over_journal::<R, Brand, Brand, Brand>(
        rt,
        alloc,
        &mut quiet,
        again,
        Blank::new(1),
        Blank::new(1),
        Blank::new(1),
    );
    Ok((answers, quiet.disk))
}

/// How many records an image has.
fn records(mut image: MemDisk) -> Option<u64> {
    let mut journal = Journal::open_journal(&mut image).ok()?;
    for _ in 0..9 {
        if journal.next_place().ok()?.is_none() {
            return Some(journal.count());
        }
    }
    None
}

const PENDING: &[Pending] = &[
    Pending::All,
    Pending::Nothing,
    Pending::FirstHalf,
    Pending::Ones,
];

/// Whether a crash after so many calls of the commit leaves the first record and as many of the three new
/// ones as are to be there. Each takes four calls.
fn leaves_some(
    disk: &MemDisk,
    before: usize,
    made: usize,
    pending: Pending,
) -> Result<bool, AllocError> {
    let gates = match pending {
        Pending::All | Pending::Ones => made.saturating_add(1),
        Pending::Nothing | Pending::FirstHalf => made,
    };
    let after = disk.calls().min(before.saturating_add(made));
    Ok(records(disk.stopped(after, pending)?) == Some(1 + (gates / 4) as u64))
}

/// Whether each kind of crash leaves as many of the records as are to be there.
fn leaves_each(disk: &MemDisk, before: usize, made: usize) -> Result<bool, AllocError> {
    for &pending in PENDING {
        if !leaves_some(disk, before, made, pending)? {
            return Ok(false);
        }
    }
    Ok(true)
}

/// What the one commit answers.
const ANSWERS: (Committed, Committed) = (
    Some(Ok(Receipt {
        file: 0,
        first: 0,
        rows: 0,
        end: 158,
    })),
    None,
);

/// Fails with other answers than those of the one commit, and with the first stop within its twelve calls
/// that leaves other records.
fn leaves_all(answers: (Committed, Committed), disk: &MemDisk) -> Result<(), Fail> {
    if answers != ANSWERS {
        return Err(Fail::from(answers));
    }
    let before = disk.calls().saturating_sub(12);
    for made in 0..=12usize {
        if !leaves_each(disk, before, made)? {
            return Err(Fail::new(made));
        }
    }
    Ok(())
}

#[test]
fn each_stop_of_a_commit_leaves_the_first_of_its_records(rt: HostRuntime) -> Result<(), Fail> {
    let (answers, disk) = over_disk(&rt, rt.alloc(), u64::MAX, false)?;
    leaves_all(answers, &disk)
}

/// How many calls one commit makes, with those before it.
fn calls_of_one<R: Wait>(rt: &R, alloc: Global) -> Result<u64, AllocError> {
    let (_, disk) = over_disk(rt, alloc, u64::MAX, false)?;
    Ok(disk.calls() as u64)
}

/// Whether two commits are refused where the call of this number fails, which is the last one.
fn are_refused<R: Wait>(rt: &R, alloc: Global, fault: u64) -> Result<bool, AllocError> {
    let refused = Some(Err(DiskFault { opened: 0, now: 1 }));
    let (answers, disk) = over_disk(rt, alloc, fault, true)?;
    Ok(answers == (refused, refused) && disk.calls() as u64 == fault.wrapping_add(1))
}

#[test]
fn each_call_of_a_commit_that_fails_stops_the_store(rt: HostRuntime) -> Result<(), Fail> {
    let calls = calls_of_one(&rt, rt.alloc())?;
    for fault in calls.saturating_sub(12)..calls {
        if !are_refused(&rt, rt.alloc(), fault)? {
            return Err(Fail::new(fault));
        }
    }
    Ok(())
}
