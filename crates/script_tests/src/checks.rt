//! Lines that want something of the last call or of the archive's disk. Texts that are left out are
//! empty.
//!
//! - `is STATUS OUT ERR`: the call ended with this status, and wrote these texts.
//! - `front`, `begins`, `ends`: the same, but the call printed a front of `OUT`, or what begins or
//!   ends with it.
//! - `lines STATUS LINES LAST ERR`: the same, but it printed a front of the lines, and then `LAST`.
//! - `status N`: it ended with this status.
//! - `image TEXT`, `calls N`, `faults N`: the archive's disk has these bytes, has had so many calls
//!   since it was made, has counted so many faults.
//! - `least N M`: `N` is at most `M`.
use crate::machine::Machine;
use crate::texts::at;
use log_seams::Disk;

/// Whether what a line wants is so; None where its verb is none of these.
pub(crate) fn wanted(machine: &Machine, verb: &str, values: &[Vec<u8>]) -> Option<bool> {
    let number = machine.number(values, 0);
    let told = &machine.told;
    Some(match verb {
        "is" => told.is(number, at(values, 1), at(values, 2)),
        "front" => told.is_front(number, at(values, 1), at(values, 2)),
        "begins" => told.is_begun(number, at(values, 1), at(values, 2)),
        "ends" => told.is_end(number, at(values, 1), at(values, 2)),
        "lines" => told.is_front_and(number, at(values, 1), at(values, 2), at(values, 3)),
        "status" => u64::from(told.status) == number,
        "image" => machine.archive.bytes() == at(values, 0),
        "calls" => machine.archive.calls() as u64 == number,
        "faults" => machine.archive.faults() == number,
        "least" => number <= machine.number(values, 1),
        _ => return None,
    })
}
