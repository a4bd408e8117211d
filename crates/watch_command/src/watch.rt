//! The command.
ghost use Rattle.std.specs.Prelude.{◌≡◌, ◌≤◌, ℕ, List, length, map, IfErr, IfOk, IfSome, IsTrue, OnErr};
ghost use Rattle.log_sources.specs.Sources.{str_bytes};
ghost use Rattle.ingest_fork.specs.declared.works.TheConstants.{MAX_WORKERS};
ghost use Rattle.command_refusals.specs.GoesOn.{DiskGoesOn, OutsideGoesOn};
ghost use Rattle.command_refusals.specs.Outside.{around};
ghost use Rattle.command_refusals.specs.Reading.{IsArchive};
ghost use Rattle.command_answers.specs.Answers.{AnswersGoodWatch, AnswersWatch};
ghost use Rattle.command_answers.specs.Ingested.{TellsDamage};
ghost use Rattle.command_answers.specs.Known.{over, told_if};
ghost use Rattle.write_commands.specs.StepsAdding.{HasRoomFor, MayAdd, RefusesNewLogs, ShelfGoesOn};
ghost use Rattle.file_outcomes.specs.StepsCauses.{logs_around};
ghost use Rattle.watch_command.specs.Extended.{TookMore};
ghost use Rattle.watch_command.specs.StepsWatched.{AddsWatched};

use crate::adding::{Watched, add_watched};
use crate::extended::{Extended, LentOut};
use crate::lines::print_rest;
use command_refusals::{AddRefusal, refusal_of_add, refusal_of_pattern, report};
use file_outcomes::{Base, FileReport, Lent};
use log_seams::{Disk, Shelf, Sink};
use logtype_text::one_list_of_parts;
use std::alloc::Global;
use std::marker::{Brand, PhantomData};
use std::sync::Wait;
use std::thread::Threads;
use wild_match::{Pattern, read_pattern};
use write_commands::{NewLogs, refuse_names};

/// Adds the logs with a reader beside, over a disk that is an archive where its bytes are to be told, and
/// an output that is lent. Gives the output back.
fn add_lent<
    'a,
    'o,
    R: Threads + Wait + Sync,
    H: Shelf,
    D: Disk + Send,
    K: Sink + Send,
    L: Lent + Send,
    O: LentOut + Send,
>(
    rt: &R,
    alloc: Global,
    asked: NewLogs<'a>,
    pattern: Pattern,
    shelf: &mut H,
    disk: &mut D,
    out: &'o mut K,
    taken: &mut Vec<FileReport<'a>>,
) -> (Result<Watched, AddRefusal>, &'o mut K)
where
    H::Src: Send,
    requires asked { MayAdd asked }
    requires room { HasRoomFor asked taken.old }
    requires archive { IsTrue L.tells → IfSome (D.state disk.old).seen IsArchive }
    requires lent_out { (out.ghost_name ≡ O.name) × (K.written out.old ≡ O.had) }

    // by the answer
    ensures added { IfOk result.0 (λ w. AddsWatched (H.content shelf.old)
        (logs_around H.unread H.open_faults H.read_faults shelf.old shelf.new)
        asked.entry pattern w taken.new.items
        (K.written out.old, K.written result.1.now) (K.faults out.old, K.faults result.1.now)
        (told_if L.tells (D.state disk.old)) (told_if L.tells (D.state disk.new))) }
    ensures refused { IfErr result.0 (RefusesNewLogs asked.entry
        (told_if L.tells (D.state disk.old)) (told_if L.tells (D.state disk.new))) }
    ensures damaged { IfErr result.0 (TellsDamage (D.state disk.old) (D.state disk.new)) }
    ensures rests { OnErr result.0 (result.1.now ≡ out.old) }

    // what stays
    ensures back { result.1.ghost_name ≡ out.entry.ghost_name }
    ensures goes_on { DiskGoesOn (D.state disk.old) (D.state disk.new) }
    ensures logs { ShelfGoesOn H.content H.open_faults H.read_faults shelf.old shelf.new }
    ensures more { TookMore (K.written out.old, K.written result.1.now)
        (K.faults out.old, K.faults result.1.now) }
{
    let mut extended = Extended::<'o, K, O> {
        out,
        lent: PhantomData,
    };
    let answer = add_watched::<R, H, D, Extended<'o, K, O>, L>(
        rt,
        alloc,
        asked,
        pattern,
        shelf,
        disk,
        &mut extended,
        taken,
    );
    let Extended { out, .. } = extended;
    (answer, out)
}

/// Adds the logs to the archive of any disk, and prints what of them matches. What is said of the
/// disk's bytes is said where they are those of the archive that is known.
fn add_known<'a, R: Threads + Wait + Sync, H: Shelf, D: Disk + Send, K: Sink + Send, B: Base>(
    rt: &R,
    alloc: Global,
    asked: NewLogs<'a>,
    pattern: Pattern,
    shelf: &mut H,
    disk: &mut D,
    out: &mut K,
    taken: &mut Vec<FileReport<'a>>,
) -> Result<Watched, AddRefusal>
where
    H::Src: Send,
    requires asked { MayAdd asked }
    requires room { HasRoomFor asked taken.old }

    // by the answer
    ensures added { IfOk result (λ w. AddsWatched (H.content shelf.old)
        (logs_around H.unread H.open_faults H.read_faults shelf.old shelf.new)
        asked.entry pattern w taken.new.items
        (K.written out.old, K.written out.new) (K.faults out.old, K.faults out.new)
        (over B.archive (D.state disk.old) (D.state disk.old))
        (over B.archive (D.state disk.old) (D.state disk.new))) }
    ensures refused { IfErr result (RefusesNewLogs asked.entry
        (over B.archive (D.state disk.old) (D.state disk.old))
        (over B.archive (D.state disk.old) (D.state disk.new))) }
    ensures damaged { IfErr result (TellsDamage (D.state disk.old) (D.state disk.new)) }
    ensures rests { OnErr result (out.new ≡ out.old) }

    // what stays
    ensures goes_on { DiskGoesOn (D.state disk.old) (D.state disk.new) }
    ensures logs { ShelfGoesOn H.content H.open_faults H.read_faults shelf.old shelf.new }
    ensures more { TookMore (K.written out.old, K.written out.new)
        (K.faults out.old, K.faults out.new) }
{
    let (answer, _out) = add_lent::<R, H, D, K, Brand, Brand>(
        rt, alloc, asked, pattern, shelf, disk, out, taken,
    );
    answer
}

/// Adds the logs to the archive, prints what of them matches a pattern that was read, and tells
/// what came of each log.
fn watch_pattern<R: Threads + Wait + Sync, H: Shelf, D: Disk + Send, K: Sink + Send, B: Base>(
    rt: &R,
    alloc: Global,
    asked: NewLogs<'_>,
    pattern: Pattern,
    shelf: &mut H,
    disk: &mut D,
    out: &mut K,
    err: &mut K,
) -> u8
where
    H::Src: Send,
    requires workers { (1 ≤ asked.workers) × (asked.workers ≤ MAX_WORKERS) }
    requires segment { (1 ≤ asked.segment) × (asked.segment ≤ 65536) }
    requires some { 1 ≤ length asked.files.now }
    ensures answers { AnswersGoodWatch B.archive asked.entry.workers asked.entry.segment pattern
        (map str_bytes asked.entry.files.now)
        (around H.content H.unread H.open_faults H.read_faults K.written K.faults
        shelf.old shelf.new out.old out.new err.old err.new)
        (D.state disk.old) (D.state disk.new) result }

    // whatever the answer
    ensures outside { OutsideGoesOn
        (around H.content H.unread H.open_faults H.read_faults K.written K.faults
        shelf.old shelf.new out.old out.new err.old err.new) }
    ensures goes_on { DiskGoesOn (D.state disk.old) (D.state disk.new) }
    ensures logs { (n : List ℕ) → H.content shelf.new n ≡ H.content shelf.old n }
{
    one_list_of_parts();
    if let Some(refusal) = refuse_names(asked.files) {
        return report(err, "", refusal_of_add(refusal));
    }
    let Ok(mut taken) = Vec::with_capacity(alloc, asked.files.len()) else {
        return report(err, "", refusal_of_add(AddRefusal::OutOfMemory));
    };
    match add_known::<R, H, D, K, B>(rt, alloc, asked, pattern, shelf, disk, out, &mut taken) {
        Ok(watched) => print_rest(alloc, watched, taken.as_slice(), out, err),
        Err(refusal) => report(err, "", refusal_of_add(refusal)),
    }
}

/// Adds logs to an archive, prints meanwhile the messages of each sealed segment that the pattern of a
/// text matches, and tells what came of each log.
pub fn watch_files<R: Threads + Wait + Sync, H: Shelf, D: Disk + Send, K: Sink + Send, B: Base>(
    rt: &R,
    alloc: Global,
    asked: NewLogs<'_>,
    pattern: &str,
    shelf: &mut H,
    disk: &mut D,
    out: &mut K,
    err: &mut K,
) -> u8
where
    H::Src: Send,
    requires workers { (1 ≤ asked.workers) × (asked.workers ≤ MAX_WORKERS) }
    requires segment { (1 ≤ asked.segment) × (asked.segment ≤ 65536) }
    requires some { 1 ≤ length asked.files.now }
    ensures answers { AnswersWatch B.archive asked.entry.workers asked.entry.segment pattern.now
        (map str_bytes asked.entry.files.now)
        (around H.content H.unread H.open_faults H.read_faults K.written K.faults
        shelf.old shelf.new out.old out.new err.old err.new)
        (D.state disk.old) (D.state disk.new) result }

    // whatever the answer
    ensures outside { OutsideGoesOn
        (around H.content H.unread H.open_faults H.read_faults K.written K.faults
        shelf.old shelf.new out.old out.new err.old err.new) }
    ensures goes_on { DiskGoesOn (D.state disk.old) (D.state disk.new) }
    ensures logs { (n : List ℕ) → H.content shelf.new n ≡ H.content shelf.old n }
{
    match read_pattern(alloc, pattern.as_bytes()) {
        Ok(pattern) => {
            watch_pattern::<R, H, D, K, B>(rt, alloc, asked, pattern, shelf, disk, out, err)
        }
        Err(refusal) => report(err, "", refusal_of_pattern(refusal)),
    }
}
