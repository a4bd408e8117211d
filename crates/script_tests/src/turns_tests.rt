//! What is done without a turn of a lock, by a caller that has nothing to wait by.
use crate::beside_tests::list_of;
use crate::machine::{SOUND, untold};
use crate::outside::{NEVER, disk, shelf};
use crate::wanted::Told;
use clp_commands::run_without_turns;
use log_seams::{MemDisk, MemShelf};
use std::alloc::{AllocError, Global};
use std::test::Fail;
use std::thread::Threads;

/// Words, and whether they are answered by such a caller.
const ANSWERED: &[(&[&str], bool)] = &[
    (&["show"], true),
    (&["show", "a.log"], true),
    (&["scan", "a", "a.log"], true),
    (&["create"], true),
    (&["files"], true),
    (&["check"], true),
    (&["decode", "0"], true),
    (&["search", "a"], true),
    (&["count", "--by", "type", "a"], true),
    (&["ingest", "a.log"], false),
    (&["ingest", "--watch", "a", "a.log"], false),
    (&["merge"], false),
    (&["upgrade"], false),
    (&["bench", "1", "1", "1"], false),
];

/// Whether the words are answered where `R` has no `Wait`.
fn is_answered<R: Threads + Sync>(
    rt: &R,
    alloc: Global,
    words: &[String],
    logs: &mut MemShelf,
    archive: &mut MemDisk,
    told: &mut Told,
) -> bool {
    run_without_turns(
        rt,
        alloc,
        words,
        logs,
        archive,
        &mut told.out,
        &mut told.err,
    )
    .is_ok()
}

fn is_answered_anew<R: Threads + Sync>(
    rt: &R,
    alloc: Global,
    words: &[&str],
) -> Result<bool, AllocError> {
    let words = list_of(alloc, words)?;
    let mut logs = shelf(alloc, &[], NEVER)?;
    let mut archive = disk(alloc, &[], NEVER)?;
    let mut told = untold(alloc, &SOUND)?;
    Ok(is_answered(
        rt,
        alloc,
        words.as_slice(),
        &mut logs,
        &mut archive,
        &mut told,
    ))
}

#[test]
fn what_takes_no_turn_is_answered(rt: HostRuntime) -> Result<(), Fail> {
    for &(words, want) in ANSWERED {
        let answered = is_answered_anew(&rt, rt.alloc(), words)?;
        assert!(rt; answered == want, "{words:?}");
    }
    Ok(())
}
