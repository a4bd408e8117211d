//! Lines that name something. `names` has the texts that all scripts name.
//!
//! - `text NAME TEXT..` names texts, one behind the other.
//! - `repeat NAME N TEXT` names a text so many times, `head NAME N TEXT` so many bytes of one.
//! - `keep NAME` names the archive's bytes.
//! - `count LETTER` gives a letter to the number of calls of the archive's disk.
use crate::machine::Machine;
use crate::texts::{at, first_of, joined, number_at, put_text, repeated};
use std::alloc::AllocError;

/// Gives the archive's bytes a name.
fn keep(machine: &mut Machine, name: &[u8]) -> Result<bool, AllocError> {
    let bytes = machine.archive.bytes().to_vec(machine.alloc)?;
    put_text(machine.alloc, &mut machine.texts, name, bytes)?;
    Ok(true)
}

/// Gives a name to the values behind it, one behind the other.
fn name_text(machine: &mut Machine, values: &[Vec<u8>]) -> Result<bool, AllocError> {
    let text = joined(machine.alloc, values.get(1..).unwrap_or(&[]))?;
    put_text(machine.alloc, &mut machine.texts, at(values, 0), text)?;
    Ok(true)
}

/// Gives a name to a value so many times.
fn name_repeated(machine: &mut Machine, values: &[Vec<u8>]) -> Result<bool, AllocError> {
    let text = repeated(machine.alloc, at(values, 2), machine.number(values, 1))?;
    put_text(machine.alloc, &mut machine.texts, at(values, 0), text)?;
    Ok(true)
}

/// Gives a name to so many bytes of a value.
fn name_front(machine: &mut Machine, values: &[Vec<u8>]) -> Result<bool, AllocError> {
    let Some(front) = at(values, 2).get(..machine.number(values, 1) as usize) else {
        return Ok(false);
    };
    let text = front.to_vec(machine.alloc)?;
    put_text(machine.alloc, &mut machine.texts, at(values, 0), text)?;
    Ok(true)
}

/// Gives a letter to a number.
fn name_number(machine: &mut Machine, name: &[u8], number: u64) -> Result<bool, AllocError> {
    let named = number_at(machine.numbers.as_mut_slice(), first_of(name));
    let Some(named) = named else {
        return Ok(false);
    };
    *named = number;
    Ok(true)
}

/// Carries out a line that names something; None where its verb is none of these.
pub(crate) fn over_names(
    machine: &mut Machine,
    verb: &str,
    values: &[Vec<u8>],
) -> Option<Result<bool, AllocError>> {
    let calls = machine.archive.calls() as u64;
    Some(match verb {
        "text" => name_text(machine, values),
        "repeat" => name_repeated(machine, values),
        "head" => name_front(machine, values),
        "keep" => keep(machine, at(values, 0)),
        "count" => name_number(machine, at(values, 0), calls),
        _ => return None,
    })
}
