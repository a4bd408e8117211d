//! The command `merge`.
ghost use Rattle.std.specs.Prelude.{◌≡◌, ◌≤◌, ℕ, is_some, length, IfErr, IfOk, IfSome, IsTrue};
ghost use Rattle.disk_journal.specs.Journal.{state_of};
ghost use Rattle.archive_open.specs.Archive.{shown};
ghost use Rattle.command_refusals.specs.GoesOn.{DiskGoesOn};
ghost use Rattle.command_refusals.specs.Outside.{AroundSinks};
ghost use Rattle.command_refusals.specs.Reading.{IsArchive};
ghost use Rattle.command_answers.specs.Answers.{AnswersMerge};
ghost use Rattle.command_answers.specs.Known.{told_if};
ghost use Rattle.command_answers.specs.Merging.{Merges, PrintsMerge, TellsInOrder, merged_line, merged_status};
ghost use Rattle.command_refusals.specs.Refusal.{Says};
ghost use Rattle.merge_command.specs.Came.{ComesBehind, kept_by, merge_by, merge_of, refused_by};
ghost use Rattle.file_outcomes.specs.Naming.{IsHeldBy};
ghost use Rattle.file_outcomes.specs.StepsKnown.{lent_state};

use crate::lines::lines_of;
use crate::over::{Came, add_second};
use crate::refused::name_of;
use archive_core::Books;
use archive_open::{Archive, open_for_append};
use command_refusals::{MergeRefusal, refusal_of_print, report, report_merge};
use disk_journal::{Journal, start};
use file_lines::print_directory;
use file_outcomes::{Base, Founded, Holding, Lent, PartedJournal, hold, part_journal};
use log_seams::{Disk, Sink};
use sink_pieces::PrintRefusal;
use std::alloc::Global;
use std::marker::Brand;
use std::sync::Wait;

/// Writes why not all was merged, and answers the status.
fn report_came<K: Sink>(err: &mut K, came: &Came) -> u8
    ensures status { result ≡ merged_status came.now.refusal }
    ensures said { Says
        (K.written err.old) (K.written err.new) (K.faults err.old) (K.faults err.new)
        (merged_line (merge_of came.now).name came.now.refusal) }
    ensures later { K.faults err.old ≤ K.faults err.new }
{
    match came.refusal {
        None => 0,
        Some(refusal) => {
            let name = name_of(came.second.files().as_slice(), came.stopped);
            report_merge(err, name, refusal)
        }
    }
}

/// Prints what came of a merge.
fn print_came<K: Sink>(alloc: Global, came: &Came, out: &mut K, err: &mut K) -> u8
    requires few { length came.now.files.items ≤ length (shown kept_by came.now.second).files }
    ensures prints { AroundSinks K.written K.faults out.old out.new err.old err.new (λ seen.
        PrintsMerge (merge_of came.now) came.now.first seen result) }
    ensures out { K.faults out.old ≤ K.faults out.new }
    ensures err { K.faults err.old ≤ K.faults err.new }
{
    let files = came.second.files().as_slice();
    let Ok(lines) = lines_of(alloc, files, came.files.as_slice()) else {
        return report(err, "", refusal_of_print(PrintRefusal::OutOfMemory));
    };
    match print_directory(alloc, u64::from(came.first), lines.as_slice(), out) {
        Ok(()) => report_came(err, came),
        Err(refusal) => report(err, "", refusal_of_print(refusal)),
    }
}

/// Adds the files of the second archive behind those of an archive that was opened, over the disk of its
/// journal, which tells its bytes only where it is to, and is an archive's there. Gives the disk back.
fn add_founded<'d, D: Disk, E: Disk, R: Wait, L: Lent>(
    rt: &R,
    alloc: Global,
    journal: Journal<'d, D>,
    holding: Holding,
    second: &mut E,
) -> (Result<Came, MergeRefusal>, &'d mut D)
    requires lent { journal.disk.ghost_name ≡ L.name }
    requires told { is_some (D.state journal.disk.now).seen ≡ L.told }
    requires held { (name : ℕ) → IsHeldBy (lent_state L.tells name (state_of journal))
        holding.types holding.words holding.files }

    // by the answer
    ensures came { IfOk result.0 (λ came. Merges (merge_of came) came.first
        (told_if L.tells (D.state journal.entry.disk.now))
        (told_if L.tells (D.state result.1.now)) (E.state second.old) (E.state second.new)) }
    ensures few { IfOk result.0 (λ came.
        length came.files.items ≤ length (shown kept_by came.second).files) }
    ensures refused { IfErr result.0 (λ refusal. Merges (refused_by refusal) 0
        (told_if L.tells (D.state journal.entry.disk.now))
        (told_if L.tells (D.state result.1.now)) (E.state second.old) (E.state second.new)) }
    ensures behind { ComesBehind (merge_by result.0) journal.entry.disk.now result.1.now }

    // what stays
    ensures back { result.1.ghost_name ≡ journal.entry.disk.ghost_name }
    ensures goes_on { DiskGoesOn (D.state journal.entry.disk.now) (D.state result.1.now) }
    ensures second { DiskGoesOn (E.state second.old) (E.state second.new) }
{
    let PartedJournal { mut founded, end } = part_journal::<D, L>(journal);
    let answer = add_second(rt, alloc, end, holding, &mut founded, second);
    let Founded { disk, .. } = founded;
    (answer, disk)
}

/// Adds the files of the second archive behind those of the archive of a disk, which is an archive where
/// its bytes are to be told. That the archive comes first, and where it is damaged, is told of any bytes.
fn add_lent<D: Disk, E: Disk, R: Wait, L: Lent>(
    rt: &R,
    alloc: Global,
    disk: &mut D,
    second: &mut E,
) -> Result<Came, MergeRefusal>
    requires archive { IsTrue L.tells → IfSome (D.state disk.old).seen IsArchive }

    // by the answer
    ensures came { IfOk result (λ came. Merges (merge_of came) came.first
        (told_if L.tells (D.state disk.old)) (told_if L.tells (D.state disk.new))
        (E.state second.old) (E.state second.new)) }
    ensures few { IfOk result (λ came.
        length came.files.items ≤ length (shown kept_by came.second).files) }
    ensures refused { IfErr result (λ refusal. Merges (refused_by refusal) 0
        (told_if L.tells (D.state disk.old)) (told_if L.tells (D.state disk.new))
        (E.state second.old) (E.state second.new)) }
    ensures in_order { TellsInOrder (merge_by result) (D.state disk.old) (D.state disk.new) }

    // what stays
    ensures goes_on { DiskGoesOn (D.state disk.old) (D.state disk.new) }
    ensures second { DiskGoesOn (E.state second.old) (E.state second.new) }
{
    let header = start(disk)?;
    let mut journal = Journal::begin(disk, header);
    let archive: Archive<Books> = open_for_append(alloc, &mut journal)?;
    let files = archive.files().as_slice().len() as u64;
    let holding = hold(archive.into_books(), files);
    let (answer, _disk) = add_founded::<D, E, R, Brand>(rt, alloc, journal, holding, second);
    answer
}

/// Adds the files of the second archive behind those of the archive, and prints a line for each new
/// file. The second disk is only read.
pub fn merge_archives<R: Wait, D: Disk, E: Disk, K: Sink, B: Base>(
    rt: &R,
    alloc: Global,
    disk: &mut D,
    second: &mut E,
    out: &mut K,
    err: &mut K,
) -> u8
    ensures answers { AroundSinks K.written K.faults out.old out.new err.old err.new (λ seen.
        AnswersMerge B.archive seen (D.state disk.old) (D.state disk.new)
        (E.state second.old) (E.state second.new) result) }

    // whatever the answer
    ensures goes_on { DiskGoesOn (D.state disk.old) (D.state disk.new) }
    ensures second { DiskGoesOn (E.state second.old) (E.state second.new) }
    ensures out { K.faults out.old ≤ K.faults out.new }
    ensures err { K.faults err.old ≤ K.faults err.new }
{
    // what is said of the disk's bytes is said where they are those of the archive that is known
    match add_lent::<D, E, R, Brand>(rt, alloc, disk, second) {
        Ok(came) => print_came(alloc, &came, out, err),
        Err(refusal) => report_merge(err, b"", refusal),
    }
}
