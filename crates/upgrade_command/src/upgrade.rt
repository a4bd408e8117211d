//! The command `upgrade`.
ghost use Rattle.std.specs.Prelude.{◌^◌, ◌≤◌, List, length};
ghost use Rattle.log_seams.specs.Disk.{KeepsBytes};
ghost use Rattle.archive_meaning.specs.declared.TheConstants.{MAX_ROWS};
ghost use Rattle.command_answers.specs.Answers.{AnswersUpgrade};
ghost use Rattle.command_answers.specs.Ingested.{FileOutcome};
ghost use Rattle.command_answers.specs.Upgrading.{PrintsUpgrade};
ghost use Rattle.command_refusals.specs.GoesOn.{DiskGoesOn};
ghost use Rattle.command_refusals.specs.Outside.{AroundSinks};
ghost use Rattle.file_outcomes.specs.Taken.{AreToldAs};

use crate::old::open_old;
use crate::taking::take_files;
use archive_open::{KeepsTexts, PlainBooks};
use command_refusals::{UpgradeRefusal, refusal_of_upgrade, report};
use file_outcomes::{FileReport, print_taken};
use log_seams::{Disk, Sink};
use std::alloc::Global;
use std::sync::Wait;
use std::thread::Threads;

/// Prints what came of the files, or why their texts could not be had to their end.
fn print_files<K: Sink>(
    alloc: Global,
    reports: &[FileReport<'_>],
    stop: Option<UpgradeRefusal>,
    out: &mut K,
    err: &mut K,
) -> u8
    requires { length reports.now ≤ 2 ^ 64 }
    ensures prints { (came : List FileOutcome) → AreToldAs came reports.now
        → AroundSinks K.written K.faults out.old out.new err.old err.new (λ seen.
        PrintsUpgrade stop came seen result) }
    ensures out { K.faults out.old ≤ K.faults out.new }
    ensures err { K.faults err.old ≤ K.faults err.new }
{
    match stop {
        Some(refusal) => report(err, "", refusal_of_upgrade(refusal)),
        None => print_taken(alloc, 0, reports, out, err),
    }
}

/// Takes the files of the archive into a new one on the second disk, and prints a line for each new
/// file. The texts of the archive are kept as `N` keeps them.
fn upgrade_by<
    R: Threads + Wait + Sync,
    D: Disk + Send,
    E: Disk + Send,
    K: Sink,
    N: KeepsTexts + Drop + Sync,
>(rt: &R, alloc: Global, disk: &mut D, second: &mut E, out: &mut K, err: &mut K) -> u8
    ensures answers { AroundSinks K.written K.faults out.old out.new err.old err.new (λ seen.
        AnswersUpgrade MAX_ROWS seen (D.state disk.old) (D.state disk.new)
        (E.state second.old) (E.state second.new) result) }

    // what stays
    ensures keeps { KeepsBytes (D.state disk.old) (D.state disk.new) }
    ensures goes_on { DiskGoesOn (D.state disk.old) (D.state disk.new) }
    ensures second { DiskGoesOn (E.state second.old) (E.state second.new) }
    ensures out { K.faults out.old ≤ K.faults out.new }
    ensures err { K.faults err.old ≤ K.faults err.new }
{
    match open_old::<D, N>(alloc, disk) {
        Ok(old) => match take_files(rt, alloc, &old, disk, second) {
            Ok(ended) => print_files(alloc, ended.reports.as_slice(), ended.stop, out, err),
            Err(refusal) => report(err, "", refusal_of_upgrade(refusal)),
        },
        Err(refusal) => report(err, "", refusal_of_upgrade(refusal)),
    }
}

/// Makes a new archive of the last version on the second disk, which has to be empty, and takes the
/// files of the archive into it, with their names and the archive's limits. Prints a line for each
/// new file. The archive is only read, one text after the other.
pub fn upgrade_archive<R: Threads + Wait + Sync, D: Disk + Send, E: Disk + Send, K: Sink>(
    rt: &R,
    alloc: Global,
    disk: &mut D,
    second: &mut E,
    out: &mut K,
    err: &mut K,
) -> u8
    ensures answers { AroundSinks K.written K.faults out.old out.new err.old err.new (λ seen.
        AnswersUpgrade MAX_ROWS seen (D.state disk.old) (D.state disk.new)
        (E.state second.old) (E.state second.new) result) }

    // what stays
    ensures keeps { KeepsBytes (D.state disk.old) (D.state disk.new) }
    ensures goes_on { DiskGoesOn (D.state disk.old) (D.state disk.new) }
    ensures second { DiskGoesOn (E.state second.old) (E.state second.new) }
    ensures out { K.faults out.old ≤ K.faults out.new }
    ensures err { K.faults err.old ≤ K.faults err.new }
{
    upgrade_by::<R, D, E, K, PlainBooks>(rt, alloc, disk, second, out, err)
}
