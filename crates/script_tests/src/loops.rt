//! Lines on what is played next: loops and parts.
//!
//! - `each LETTER FIRST LAST` .. `end` plays the lines between for each of these numbers, of which
//!   there is one at least.
//! - `leave STATUS OUT ERR` goes behind the end of the loop, and `next ..` to it, if the last call
//!   answered this.
//! - `part NAME` .. `back` is a part, which stands behind all other lines. `play NAME TEXT..` plays
//!   it, with the names `1` to `9` for the texts.
use crate::checks::wanted;
use crate::machine::Machine;
use crate::rounds::{begin, end_behind, line_behind, next_round};
use crate::texts::{at, first_of, put_text};
use std::alloc::AllocError;
use std::mem;

/// Begins a loop.
fn begin_loop(machine: &mut Machine, values: &[Vec<u8>]) -> Result<bool, AllocError> {
    let numbers = (machine.number(values, 1), machine.number(values, 2));
    begin(
        &mut machine.place.rounds,
        machine.numbers.as_mut_slice(),
        first_of(at(values, 0)),
        numbers,
        machine.place.line,
    )
}

/// Ends a loop, or goes on with its next value.
fn end_loop(machine: &mut Machine) -> bool {
    let next = next_round(&mut machine.place.rounds, machine.numbers.as_mut_slice());
    if let Some(line) = next {
        machine.place.line = line;
    }
    true
}

/// Goes to the end of a loop where the last call was told so, or behind it.
fn leave(machine: &mut Machine, lines: &[&str], values: &[Vec<u8>], is_behind: bool) -> bool {
    if wanted(machine, "is", values) != Some(true) {
        return true;
    }
    let Some(end) = end_behind(lines, machine.place.line) else {
        return false;
    };
    machine.place.line = end;
    if is_behind {
        machine.place.line = end.saturating_add(1);
        return machine.place.rounds.pop().is_some();
    }
    true
}

/// Gives the names `0`, `1` and so on to the values of a line that plays a part.
fn name_values(machine: &mut Machine, values: &[Vec<u8>]) -> Result<(), AllocError> {
    let mut name = b'0';
    for value in values {
        let text = value.as_slice().to_vec(machine.alloc)?;
        put_text(machine.alloc, &mut machine.texts, &[name], text)?;
        name = name.saturating_add(1);
    }
    Ok(())
}

/// Goes to a part of the script, to come back behind it.
fn play_part(
    machine: &mut Machine,
    lines: &[&str],
    values: &[Vec<u8>],
) -> Result<bool, AllocError> {
    let Some(line) = line_behind(lines, "part", at(values, 0)) else {
        return Ok(false);
    };
    name_values(machine, values)?;
    machine.place.backs.push(machine.place.line)?;
    machine.place.line = line;
    Ok(true)
}

/// Goes back from a part.
fn go_back(machine: &mut Machine) -> bool {
    let Some(line) = machine.place.backs.pop() else {
        return false;
    };
    machine.place.line = line;
    true
}

/// Whether one of the alternatives held, of which the next ones are others.
fn one_held(machine: &mut Machine) -> bool {
    mem::replace(&mut machine.place.is_met, false)
}

/// Carries out a line on what is played next; None where its verb is none of these.
pub(crate) fn over_lines(
    machine: &mut Machine,
    lines: &[&str],
    verb: &str,
    values: &[Vec<u8>],
) -> Option<Result<bool, AllocError>> {
    Some(match verb {
        "each" => begin_loop(machine, values),
        "end" => Ok(end_loop(machine)),
        "leave" => Ok(leave(machine, lines, values, true)),
        "next" => Ok(leave(machine, lines, values, false)),
        "one" => Ok(one_held(machine)),
        "play" => play_part(machine, lines, values),
        "back" => Ok(go_back(machine)),
        _ => return None,
    })
}
