//! Lines that change a disk.
//!
//! - `row` begins anew with an empty disk for the archive, and none for a second one. Logs and
//!   names stay.
//! - `disk TEXT` makes the archive's disk one with these bytes, `wide ROOM CALLS` an empty one with
//!   more room.
//! - `fault N` makes it one with the same bytes, whose call N fails, `parts N` one of which each part
//!   fails at its call N.
//! - `change AT BYTE` changes a byte of it.
//! - `swap` exchanges it with that of the second archive, `aside` with one that stands aside.
//! - `crash N KIND` makes it what a crash after N calls leaves of the one that stands aside: with
//!   all that was not synced (0), ones in its place (1), nothing of it (2), the first half of each
//!   write (3).
use crate::machine::{Machine, SOUND, no_disk};
use crate::outside::{NEVER, disk, disk_within};
use crate::texts::{at, first_of};
use log_seams::Pending;
use std::alloc::AllocError;
use std::mem;

/// What a crash may leave, by number.
fn pending(number: u64) -> Pending {
    match number {
        0 => Pending::All,
        1 => Pending::Ones,
        2 => Pending::Nothing,
        _ => Pending::FirstHalf,
    }
}

/// Makes the archive's disk one with these bytes, whose call of this number fails.
fn make_disk(machine: &mut Machine, bytes: &[u8], fault: u64) -> Result<bool, AllocError> {
    machine.archive = disk(machine.alloc, bytes, fault)?;
    Ok(true)
}

/// Makes it one with room for so many bytes and calls.
fn make_wide(machine: &mut Machine, room: u64, calls: u64) -> Result<bool, AllocError> {
    machine.archive = disk_within(machine.alloc, &[], NEVER, room as usize, calls as usize)?;
    Ok(true)
}

/// Makes it one with the same bytes, whose call of this number fails.
fn let_fail(machine: &mut Machine, fault: u64) -> Result<bool, AllocError> {
    machine.archive = disk(machine.alloc, machine.archive.bytes(), fault)?;
    Ok(true)
}

/// Makes it one with the same bytes, each part of which fails at its call of this number.
fn let_parts_fail(machine: &mut Machine, fault: u64) -> Result<bool, AllocError> {
    let fails = vec![in machine.alloc; fault; 1]?;
    machine.archive = disk(machine.alloc, machine.archive.bytes(), NEVER)?;
    machine.archive.fail_parts(fails);
    Ok(true)
}

/// Changes a byte of it.
fn change(machine: &mut Machine, place: u64, byte: &[u8]) -> Result<bool, AllocError> {
    let mut bytes = machine.archive.bytes().to_vec(machine.alloc)?;
    let Some(old) = bytes.get_mut(place as usize) else {
        return Ok(false);
    };
    *old = first_of(byte);
    make_disk(machine, bytes.as_slice(), NEVER)
}

/// Makes it what a crash after so many calls leaves of the disk that was put aside.
fn crash(machine: &mut Machine, after: u64, kind: u64) -> Result<bool, AllocError> {
    let after = after as usize;
    if after > machine.aside.calls() {
        return Ok(false);
    }
    machine.archive = machine.aside.stopped(after, pending(kind))?;
    Ok(true)
}

/// Begins anew, with the logs and names that there are.
fn begin_anew(machine: &mut Machine) -> Result<bool, AllocError> {
    machine.second = no_disk(machine.alloc)?;
    machine.next = SOUND;
    make_disk(machine, &[], NEVER)
}

/// Carries out a line that changes a disk; None where its verb is none of these.
pub(crate) fn over_disks(
    machine: &mut Machine,
    verb: &str,
    values: &[Vec<u8>],
) -> Option<Result<bool, AllocError>> {
    let number = machine.number(values, 0);
    let second = machine.number(values, 1);
    Some(match verb {
        "row" => begin_anew(machine),
        "disk" => make_disk(machine, at(values, 0), NEVER),
        "wide" => make_wide(machine, number, second),
        "fault" => let_fail(machine, number),
        "parts" => let_parts_fail(machine, number),
        "change" => change(machine, number, at(values, 1)),
        "crash" => crash(machine, number, second),
        "aside" => {
            mem::swap(&mut machine.archive, &mut machine.aside);
            Ok(true)
        }
        "swap" => {
            mem::swap(&mut machine.archive, &mut machine.second);
            Ok(true)
        }
        _ => return None,
    })
}
