//! What a pass sees at a gate of a journal, before and after another pass appended to it.
ghost use Rattle.std.specs.Prelude.{◌≡◌, ◌+◌, ◌<◌, ◌≤◌, [], Some, length};
ghost use Rattle.step_count.specs.Opens.{OpensFor};
ghost use Rattle.turn_lock.specs.declared.board.About.{About};
ghost use Rattle.turn_lock.specs.Words.{about_by, id_of, lock_by, lock_noted, made_by, seen_by, IsOpening, IsReady, IsStillBy};
ghost use Rattle.dict_core.specs.declared.grows.TheConstants.{WORDS_FIRST as words_first};
ghost use Rattle.disk_seal.specs.declared.fixed.StoreFixed.{StoreFixed};
ghost use Rattle.disk_seal.specs.Prepare.{HasSeenOpening};

use crate::commit_tests::{committed, noted, one_record, zeros};
use crate::quiet::{QuietDisk, at_end};
use dict_core::{Book, WORDS_FIRST};
use dict_lock::SharedBook;
use disk_seal::{Alone, Beside, FoundRefusal, Keeper, Look, Looks, Store, Turns};
use std::alloc::{AllocError, Global};
use std::marker::Brand;
use std::sync::Wait;
use std::sync::atomic::AtomicBool;
use std::sync::ledger::{Blank, Ledger};
use std::test::Fail;
use turn_lock::{Maker, Note};

/// How many records a look tells, and the kind of the one behind the gate, or 0 at the closed gate.
type Told = Result<(u64, u8), FoundRefusal>;

/// What a look at the gate behind the first record tells.
fn told<P: Looks<QuietDisk>, R: Wait>(rt: &R, alloc: Global, pass: &mut P) -> Told
    requires ready { IsReady (P.pass pass.old) }
    requires opening { HasSeenOpening (P.pass pass.old) }
{
    let Look { records, next } = pass.look(rt, alloc, 55)?;
    let Some(found) = next else {
        return Ok((records, 0));
    };
    Ok((records, found.place.kind))
}

/// One that follows nothing follows until it is told to stop.
fn follow<P: Looks<QuietDisk>, R: Wait>(rt: &R, alone: &mut Alone, pass: &mut P)
    requires ready { IsReady (P.pass pass.old) }
    requires opening { HasSeenOpening (P.pass pass.old) }
{
    let stop = AtomicBool::new(true);
    alone.follow(pass, rt, &stop);
}

/// It handles what is left.
fn drain<P: Looks<QuietDisk>, R: Wait>(rt: &R, alone: &mut Alone, pass: &mut P)
    requires ready { IsReady (P.pass pass.old) }
    requires opening { HasSeenOpening (P.pass pass.old) }
{
    alone.drain(pass, rt);
}

/// What the maker's next pass is told, behind two passes of one that follows nothing.
fn looked<'d, 'b, R: Wait>(
    rt: &R,
    alloc: Global,
    maker: &mut Maker<Store<'d, 'b, QuietDisk>>,
    keeper: &Keeper<'d, 'b, QuietDisk>,
) -> Told
    requires lock { lock_by maker.old ≡ id_of keeper.now }
    requires room { made_by maker.old < 4294967280 }
    requires opening { (a : About (StoreFixed QuietDisk)) → about_by maker.old ≡ Some a
        → a.start ≤ length (seen_by maker.old) }
    ensures still { IsStillBy maker.old maker.new }
    ensures made { made_by maker.new ≡ made_by maker.old + 3 }
{
    let mut alone = Alone {};
    let mut first = maker.pass(keeper);
    follow(rt, &mut alone, &mut first);
    let mut second = maker.pass(keeper);
    drain(rt, &mut alone, &mut second);
    let mut third = maker.pass(keeper);
    told(rt, alloc, &mut third)
}

/// What passes are told before and after another one committed a segment.
type Looked = Option<(Told, Told)>;

/// What passes of the maker are told so.
fn looked_twice<'d, 'b, R: Wait, A: Ledger, B: Ledger, C: Ledger>(
    rt: &R,
    alloc: Global,
    maker: &mut Maker<Store<'d, 'b, QuietDisk>>,
    keeper: &Keeper<'d, 'b, QuietDisk>,
    types: Note<'_, Book>,
    words: Note<'_, Book>,
    turns: &mut Turns<A, B, C>,
) -> Looked
    requires lock { lock_by maker.old ≡ id_of keeper.now }
    requires room { made_by maker.old < 4294967270 }
    requires opening { (a : About (StoreFixed QuietDisk)) → about_by maker.old ≡ Some a
        → a.start ≤ length (seen_by maker.old) }
    requires books { (a : About (StoreFixed QuietDisk)) → about_by maker.old ≡ Some a
        → (lock_noted types ≡ a.fixed.types) × (lock_noted words ≡ a.fixed.words) }
{
    let before = looked(rt, alloc, maker, keeper);
    let Some(Ok(_)) = committed(rt, alloc, maker, keeper, types, words, turns) else {
        return None;
    };
    Some((before, looked(rt, alloc, maker, keeper)))
}

/// What passes over two books are told before and after another one committed a segment.
fn over_books<'b, R: Wait, A: Ledger, B: Ledger, C: Ledger>(
    rt: &R,
    alloc: Global,
    disk: &mut QuietDisk,
    types: &mut Maker<Book>,
    types_lock: &'b SharedBook,
    words: &mut Maker<Book>,
    words_lock: &'b SharedBook,
    turns: &mut Turns<A, B, C>,
) -> Looked
    requires types { (lock_by types.old ≡ id_of types_lock.now) × IsOpening types.old 0 [] 9 }
    requires words { (lock_by words.old ≡ id_of words_lock.now)
        × IsOpening words.old words_first [] 9 }
{
    let journal = at_end(disk)?;
    let types_reader = types.pass(types_lock);
    let words_reader = words.pass(words_lock);
    let store = Store::open_store(journal, types_reader, words_reader, 0, 0);
    let Ok((keeper, mut maker)) = Keeper::new(alloc, store, 0) else {
        return None;
    };
    let (of_types, of_words) = (noted(types, types_lock), noted(words, words_lock));
    looked_twice(rt, alloc, &mut maker, &keeper, of_types, of_words, turns)
}

/// What passes over two empty books are told before and after another one committed a segment.
fn over_journal<R: Wait, A: Ledger, B: Ledger, C: Ledger>(
    rt: &R,
    alloc: Global,
    disk: &mut QuietDisk,
    a: Blank,
    b: Blank,
    c: Blank,
) -> Looked
    requires first { OpensFor a A.name A.parts }
    requires second { OpensFor b B.name B.parts }
    requires third { OpensFor c C.name C.parts }
{
    let mut turns: Turns<A, B, C> = zeros(a, b, c);
    let Ok((types_lock, mut types)) = SharedBook::new(alloc, Book::new(alloc, 9), 0) else {
        return None;
    };
    let Ok((words_lock, mut words)) = SharedBook::new(alloc, Book::new(alloc, 9), WORDS_FIRST)
    else {
        return None;
    };
    over_books(
        rt,
        alloc,
        disk,
        &mut types,
        &types_lock,
        &mut words,
        &words_lock,
        &mut turns,
    )
}

/// Whether the looks tell this over a disk with one record, whose call of this number fails.
fn looks<R: Wait>(
    rt: &R,
    alloc: Global,
    fault: u64,
    before: Told,
    after: Told,
) -> Result<bool, AllocError> {
    let disk = one_record(alloc, fault)?;
    let mut quiet = QuietDisk { disk, faults: 0 };
    let looked = over_journal::<R, Brand, Brand, Brand>(
        rt,
        alloc,
        &mut quiet,
        Blank::new(1),
        Blank::new(1),
        Blank::new(1),
    );
    Ok(looked == Some((before, after)))
}

/// How many calls open the journal of one record and append another: two and four, and four.
const CALLS: u64 = 10;

/// The first look tells one record and none behind it, without a call. The other finds the segment, kind 4,
/// that was appended meanwhile, or is refused by the call of the disk that fails. It makes three.
#[test]
fn a_look_finds_what_another_pass_appended(rt: HostRuntime) -> Result<(), Fail> {
    let fault = Err(FoundRefusal::DiskFault { opened: 0, now: 1 });
    let well = looks(&rt, rt.alloc(), u64::MAX, Ok((1, 0)), Ok((2, 4)))?;
    assert!(rt; well);
    for call in CALLS..CALLS + 3 {
        let well = looks(&rt, rt.alloc(), call, Ok((1, 0)), fault)?;
        assert!(rt; well, "{call}");
    }
    Ok(())
}
