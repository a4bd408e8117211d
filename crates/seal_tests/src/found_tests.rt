//! The records that a store finds at the gates of its journal, where each of its reads may fail.
ghost use Rattle.std.specs.Prelude.{◌≡◌, []};
ghost use Rattle.turn_lock.specs.Words.{id_of, lock_by, IsOpening};
ghost use Rattle.dict_core.specs.declared.grows.TheConstants.{WORDS_FIRST as words_first};

use crate::quiet::{QuietDisk, at_end};
use crate::worked::WORKED;
use dict_core::{Book, WORDS_FIRST};
use dict_lock::SharedBook;
use disk_seal::{FoundRefusal, Store};
use log_seams::MemDisk;
use plain_list::Text;
use std::alloc::{AllocError, Global};
use std::test::Fail;
use turn_lock::Maker;

/// The gates of the three records, their kinds, and where their payloads begin and end.
const RECORDS: &[(u64, u8, usize, usize)] = &[(32, 1, 42, 55), (55, 2, 65, 78), (78, 4, 88, 154)];

/// Whether the three records are found at their gates, and none at the closed gate.
fn finds_all(alloc: Global, store: &mut Store<'_, '_, QuietDisk>) -> Result<bool, FoundRefusal> {
    for &(at, kind, from, to) in RECORDS {
        let Some(found) = store.next_after(alloc, at)? else {
            return Ok(false);
        };
        let payload = Some(found.payload.as_slice());
        if found.place.at != at || found.place.kind != kind || payload != WORKED.get(from..to) {
            return Ok(false);
        }
    }
    Ok(store.next_after(alloc, 154)?.is_none() && store.records() == 3)
}

/// What two such looks answer.
type Answers = Option<(Result<bool, FoundRefusal>, Result<bool, FoundRefusal>)>;

/// What two looks at all gates answer, over two empty books.
fn over_books<'b>(
    alloc: Global,
    disk: &mut QuietDisk,
    types: &mut Maker<Book>,
    types_lock: &'b SharedBook,
    words: &mut Maker<Book>,
    words_lock: &'b SharedBook,
) -> Answers
    requires types { (lock_by types.old ≡ id_of types_lock.now) × IsOpening types.old 0 [] 9 }
    requires words { (lock_by words.old ≡ id_of words_lock.now)
        × IsOpening words.old words_first [] 9 }
{
    let Some(journal) = at_end(disk) else {
        return None;
    };
    let types_reader = types.pass(types_lock);
    let words_reader = words.pass(words_lock);
    let mut store = Store::open_store(journal, types_reader, words_reader, 0, 0);
    let first = finds_all(alloc, &mut store);
    Some((first, finds_all(alloc, &mut store)))
}

/// What two looks at all gates answer, over two empty books that it makes.
fn over_journal(alloc: Global, disk: &mut QuietDisk) -> Answers {
    let Ok((types_lock, mut types)) = SharedBook::new(alloc, Book::new(alloc, 9), 0) else {
        return None;
    };
    let Ok((words_lock, mut words)) = SharedBook::new(alloc, Book::new(alloc, 9), WORDS_FIRST)
    else {
        return None;
    };
    over_books(
        alloc,
        disk,
        &mut types,
        &types_lock,
        &mut words,
        &words_lock,
    )
}

/// The worked archive, whose call of this number fails.
fn worked(alloc: Global, fault: u64) -> Result<MemDisk, AllocError> {
    let bytes = Vec::from_slice(alloc, &WORKED)?;
    let fails = vec![in alloc; fault; 1]?;
    MemDisk::new(alloc, Text::new(bytes), 1 << 10, 100, fails)
}

/// Whether two looks answer so, where the call of this number fails, and the disk was called so often.
fn answers(
    alloc: Global,
    fault: u64,
    want: Result<bool, FoundRefusal>,
    calls: u64,
) -> Result<bool, AllocError> {
    let disk = worked(alloc, fault)?;
    let mut quiet = QuietDisk { disk, faults: 0 };
    let looked = over_journal(alloc, &mut quiet);
    Ok(looked == Some((want, want)) && quiet.disk.calls() as u64 == calls)
}

/// Two calls open the journal and eight walk along it. Each record found takes three, and the closed
/// gate none.
#[test]
fn each_record_is_found_at_its_gate(rt: HostRuntime) -> Result<(), Fail> {
    assert!(rt; answers(rt.alloc(), u64::MAX, Ok(true), 28)?);
    Ok(())
}

/// The first fault stops the store, which makes no call then.
#[test]
fn each_call_of_a_look_that_fails_stops_the_store(rt: HostRuntime) -> Result<(), Fail> {
    let refused = Err(FoundRefusal::DiskFault { opened: 0, now: 1 });
    for fault in 10..19u64 {
        if !answers(rt.alloc(), fault, refused, fault.wrapping_add(1))? {
            return Err(Fail::new(fault));
        }
    }
    Ok(())
}
