//! Lines on what the next call meets, and calls.
//!
//! - `log NAME TEXT N` puts a log on the shelf, whose read N fails.
//! - `opening N`, `write N`, `say N`: in the next call opening N fails, or write N to its output,
//!   or write N to its error output.
//! - `room N` gives its output so much room, and `unsaid` its error output none. With `slow` both
//!   take a byte of each write.
//! - `words N WORD` puts a word so many times behind those of the next call.
use crate::machine::{Machine, SOUND, untold};
use crate::outside::{NEVER, answer, put_log, shelf, string_of};
use crate::texts::at;
use log_seams::MemShelf;
use std::alloc::{AllocError, Global};
use std::sync::Wait;
use std::thread::Threads;

/// Puts a log on the shelf.
fn make_log(machine: &mut Machine, values: &[Vec<u8>]) -> Result<bool, AllocError> {
    let fault = machine.number_or(values, 2, NEVER);
    put_log(
        machine.alloc,
        &mut machine.logs,
        at(values, 0),
        at(values, 1),
        fault,
    )?;
    Ok(true)
}

/// Puts a word behind those of the next call, so many times.
fn add_words(machine: &mut Machine, count: u64, word: &[u8]) -> Result<bool, AllocError> {
    for _ in 0..count {
        machine.words.push(word.to_vec(machine.alloc)?)?;
    }
    Ok(true)
}

/// Carries out a line on what the next call meets.
pub(crate) fn over_next(
    machine: &mut Machine,
    verb: &str,
    values: &[Vec<u8>],
) -> Result<bool, AllocError> {
    let number = machine.number(values, 0);
    match verb {
        "log" => return make_log(machine, values),
        "words" => return add_words(machine, number, at(values, 1)),
        "opening" => machine.next.opening = number,
        "room" => machine.next.out.room = number as usize,
        "unsaid" => machine.next.err.room = 0,
        "write" => machine.next.out.fault = number,
        "say" => machine.next.err.fault = number,
        "slow" => {
            machine.next.out.most = 1;
            machine.next.err.most = 1;
        }
        _ => return Ok(false),
    }
    Ok(true)
}

/// Adds these words to a command line.
fn add_strings(alloc: Global, list: &mut Vec<String>, words: &[Vec<u8>]) -> Result<(), AllocError> {
    for word in words {
        list.push(string_of(alloc, word.as_slice())?)?;
    }
    Ok(())
}

/// The words of a command line.
fn strings(alloc: Global, words: &[Vec<u8>], more: &[Vec<u8>]) -> Result<Vec<String>, AllocError> {
    let mut list = Vec::new(alloc);
    add_strings(alloc, &mut list, words)?;
    add_strings(alloc, &mut list, more)?;
    Ok(list)
}

/// Calls `run` with these words over the logs.
fn call_over<R: Threads + Wait + Sync>(
    rt: &R,
    machine: &mut Machine,
    words: &[String],
    logs: &mut MemShelf,
) -> Result<bool, AllocError> {
    machine.told = untold(machine.alloc, &machine.next)?;
    machine.told.status = answer(
        rt,
        machine.alloc,
        words,
        logs,
        &mut machine.archive,
        &mut machine.second,
        &mut machine.told.out,
        &mut machine.told.err,
    );
    machine.next = SOUND;
    machine.words.clear();
    Ok(true)
}

/// Calls `run` with these words over a new shelf of the machine's logs.
fn call_with<R: Threads + Wait + Sync>(
    rt: &R,
    machine: &mut Machine,
    words: &[String],
) -> Result<bool, AllocError> {
    let mut logs = shelf(machine.alloc, machine.logs.as_slice(), machine.next.opening)?;
    call_over(rt, machine, words, &mut logs)
}

/// Calls `run` with words as they stand in a script, over a new shelf.
pub(crate) fn call<R: Threads + Wait + Sync>(
    rt: &R,
    machine: &mut Machine,
    words: &[Vec<u8>],
) -> Result<bool, AllocError> {
    let words = strings(machine.alloc, words, machine.words.as_slice())?;
    call_with(rt, machine, words.as_slice())
}
