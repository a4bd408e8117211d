//! Scripts: a line is a verb and its values, and each is carried out in turn.
//!
//! A value is a word; a text in quotes, with the escapes `\n`, `\r`, `\t`, `\0`, `\\` and `\xHH`;
//! or `$NAME` for the text that has the name. A number is written in digits, or as a letter that
//! names one, also with `+` and `-` between several. `#` begins a comment.
//!
//! - `call WORD..` calls `run` with these words, over the logs and the two disks.
//! - `or ..` notes whether what the rest of the line wants is so. `one` wants that one of those
//!   held.
//! - `test NAME` begins the lines of a test, which ends before the next one or the first part. What
//!   stands before all tests is played before each. A script without such lines is one test.
//!
//! The other verbs are told in `checks`, `calls`, `disks`, `naming` and `loops`.
use crate::calls::{call, over_next};
use crate::checks::wanted;
use crate::disks::over_disks;
use crate::loops::over_lines;
use crate::machine::Machine;
use crate::names::NAMES;
use crate::naming::over_names;
use crate::rounds::line_behind;
use crate::texts::{values_of, verb_of};
use std::alloc::{AllocError, Global};
use std::sync::Wait;
use std::thread::Threads;

/// How many lines are played at most.
const MOST: usize = 1_000_000;

/// Notes whether an alternative holds.
fn either(machine: &mut Machine, line: &str) -> Result<bool, AllocError> {
    let Some((verb, rest)) = verb_of(line) else {
        return Ok(false);
    };
    let values = values_of(machine.alloc, machine.texts.as_slice(), rest)?;
    let Some(holds) = wanted(machine, verb, values.as_slice()) else {
        return Ok(false);
    };
    machine.place.is_met = machine.place.is_met || holds;
    Ok(true)
}

/// Carries out a verb with its values; says whether what it wants is so.
fn carry_out<R: Threads + Wait + Sync>(
    rt: &R,
    machine: &mut Machine,
    lines: &[&str],
    verb: &str,
    values: &[Vec<u8>],
) -> Result<bool, AllocError> {
    if verb == "call" {
        return call(rt, machine, values);
    }
    if let Some(holds) = wanted(machine, verb, values) {
        return Ok(holds);
    }
    if let Some(done) = over_lines(machine, lines, verb, values) {
        return done;
    }
    if let Some(done) = over_disks(machine, verb, values) {
        return done;
    }
    if let Some(done) = over_names(machine, verb, values) {
        return done;
    }
    over_next(machine, verb, values)
}

/// Plays a line.
fn play_line<R: Threads + Wait + Sync>(
    rt: &R,
    machine: &mut Machine,
    lines: &[&str],
    verb: &str,
    rest: &str,
) -> Result<bool, AllocError> {
    if verb == "or" {
        return either(machine, rest);
    }
    let values = values_of(machine.alloc, machine.texts.as_slice(), rest)?;
    carry_out(rt, machine, lines, verb, values.as_slice())
}

/// Plays the next line; None where the script is done: at its end, or before its tests and parts.
fn play_next<R: Threads + Wait + Sync>(
    rt: &R,
    machine: &mut Machine,
    lines: &[&str],
) -> Result<Option<bool>, AllocError> {
    let Some(line) = lines.get(machine.place.line) else {
        return Ok(None);
    };
    machine.place.line = machine.place.line.saturating_add(1);
    match verb_of(line) {
        None => Ok(Some(true)),
        Some(("test" | "part", _)) => Ok(None),
        Some((verb, rest)) => Ok(Some(play_line(rt, machine, lines, verb, rest)?)),
    }
}

/// Plays lines from this one on. The number of the one that fails, counted from one; 0 where none does.
fn play_from<R: Threads + Wait + Sync>(
    rt: &R,
    machine: &mut Machine,
    lines: &[&str],
    first: usize,
) -> Result<usize, AllocError> {
    machine.place.line = first;
    for _ in 0..MOST {
        let line = machine.place.line;
        match play_next(rt, machine, lines)? {
            None => return Ok(0),
            Some(true) => {}
            Some(false) => return Ok(line.saturating_add(1)),
        }
    }
    Ok(usize::MAX)
}

/// Plays what stands before all tests, and then the one with this name, if it has any.
fn play_lines<R: Threads + Wait + Sync>(
    rt: &R,
    machine: &mut Machine,
    lines: &[&str],
    test: &str,
) -> Result<usize, AllocError> {
    let failing = play_from(rt, machine, lines, 0)?;
    if failing != 0 || test.is_empty() {
        return Ok(failing);
    }
    match line_behind(lines, "test", test.as_bytes()) {
        Some(first) => play_from(rt, machine, lines, first),
        None => Ok(usize::MAX),
    }
}

/// Plays a text by a machine that may have played others: its lines before all tests, and then the
/// one test.
fn play_text<R: Threads + Wait + Sync>(
    rt: &R,
    machine: &mut Machine,
    text: &str,
    test: &str,
) -> Result<usize, AllocError> {
    let lines: Vec<&str> = text.lines().collect(machine.alloc)?;
    play_lines(rt, machine, lines.as_slice(), test)
}

/// Plays a script behind the names that all scripts have.
fn play_behind_names<R: Threads + Wait + Sync>(
    rt: &R,
    machine: &mut Machine,
    script: &str,
    test: &str,
) -> Result<usize, AllocError> {
    if play_text(rt, machine, NAMES, "")? != 0 {
        return Ok(usize::MAX);
    }
    play_text(rt, machine, script, test)
}

fn play_anew<R: Threads + Wait + Sync>(
    rt: &R,
    alloc: Global,
    script: &str,
    test: &str,
) -> Result<usize, AllocError> {
    let mut machine = Machine::new(alloc)?;
    play_behind_names(rt, &mut machine, script, test)
}

/// The number of the line of a script that fails where a test of it is played, or all of a script without
/// tests, whose name is empty; 0 where none does.
pub(crate) fn failing_line<R: Threads + Wait + Sync>(
    rt: &R,
    alloc: Global,
    script: &str,
    test: &str,
) -> usize {
    play_anew(rt, alloc, script, test).unwrap_or(usize::MAX)
}
