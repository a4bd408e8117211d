//! The top call.
ghost use Rattle.std.specs.Prelude.{◌≡◌, ◌<◌, ◌⊎◌, ℕ, List, Option, map, string_bytes};
ghost use Rattle.clp_commands.specs.Turns.{TakesTurns};
ghost use Rattle.command_answers.specs.Answers.{Answers, AnswersAsked};
ghost use Rattle.command_answers.specs.Printing.{OneFailed};
ghost use Rattle.command_answers.specs.Words.{AskNoArchive, AskNoSecond, AskNoWriting, MayWrite, UsesSecond};
ghost use Rattle.command_refusals.specs.GoesOn.{DiskGoesOn, OutsideGoesOn};
ghost use Rattle.command_refusals.specs.Outside.{around};
ghost use Rattle.command_words.specs.Asked.{Asks, IsInRange, asked_by, to_scan, to_show};
ghost use Rattle.log_seams.specs.Disk.{KeepsBytes};
ghost use Rattle.command_answers.specs.Known.{KnownArchive};

use crate::without_turns::run_without_turns;
use bench_command::bench;
use command_words::Command;
use file_outcomes::Base;
use log_seams::{SharedDisk, Shelf, Sink};
use merge_command::merge_archives;
use std::alloc::Global;
use std::marker::Brand;
use std::sync::Wait;
use std::thread::Threads;
use upgrade_command::upgrade_archive;
use watch_command::watch_files;
use write_commands::{NewLogs, ingest_files};

/// Does what the words ask for, and answers the status that the program ends with.
///
/// `show FILE` prints each message of a log with its variables in braces. `scan PATTERN FILE` prints
/// those that the pattern matches, each as `FILE:NUMBER:TEXT`. `create` with its options makes an
/// archive with no file in it. `files` prints the archive's files, each as `NUMBER MESSAGES whole NAME`,
/// or `part` in place of `whole`. `decode N` prints the bytes of file N. `check` tells whether the
/// archive is legal, and prints what it has. `search` with its options prints the messages of the
/// archive that a pattern matches, as `scan` prints those of a log, and `count` how many these are
/// by log type or by minute. A refusal has its line on `err`.
///
/// `ingest` adds logs to the archive, and prints of each what `files` prints; with `--watch` it prints
/// before these lines the messages of each sealed segment that a pattern matches, beside the workers.
/// `merge` adds the files of a second archive, which is only read, and prints what `files` prints of
/// each. `upgrade` makes a second archive, of the newest version, of the files of the archive, which is
/// only read, and prints the same. `bench` makes an archive of generated logs, and prints a summary of
/// it. `disk` is the archive's, and `second` that of the second one.
/// What is said of the bytes that `ingest` and `merge` leave holds for each archive `known` whose bytes
/// the disk had at the start: whatever archive it had, and it is not asked for when the program runs.
/// `rt` starts the threads of `ingest`, `upgrade`, `bench` and `search`. All but `ingest`, `merge`,
/// `upgrade` and `bench` is done by [`run_without_turns`], which returns on every input.
pub fn run<R: Threads + Wait + Sync, H: Shelf, D: SharedDisk + Send, K: Sink + Send>(
    rt: &R,
    alloc: Global,
    words: &[String],
    shelf: &mut H,
    disk: &mut D,
    second: &mut D,
    out: &mut K,
    err: &mut K,
) -> u8
where
    H::Src: Send,
    // the archive that the disk is known to hold, if any
    ghost known: { Option KnownArchive }

    // by the words
    ensures answers { Answers known (map string_bytes words.now)
        (around H.content H.unread H.open_faults H.read_faults K.written K.faults
        shelf.old shelf.new out.old out.new err.old err.new)
        (D.Disk.state disk.old) (D.Disk.state disk.new)
        (D.Disk.state second.old) (D.Disk.state second.new) result }
    ensures one_failed { (pattern file : List ℕ)
        → Asks (map string_bytes words.now) (to_show file)
        ⊎ Asks (map string_bytes words.now) (to_scan pattern file)
        → H.read_faults shelf.old file < H.read_faults shelf.new file
        → OneFailed H.Src.left H.Src.faults (H.unread shelf.new file)
        (H.read_faults shelf.old file) (H.read_faults shelf.new file) }

    // whatever they ask for
    ensures outside { OutsideGoesOn
        (around H.content H.unread H.open_faults H.read_faults K.written K.faults
        shelf.old shelf.new out.old out.new err.old err.new) }
    ensures goes_on { DiskGoesOn (D.Disk.state disk.old) (D.Disk.state disk.new) }
    ensures second_goes_on { DiskGoesOn (D.Disk.state second.old) (D.Disk.state second.new) }

    // what stays
    ensures logs { (name : List ℕ) → H.content shelf.new name ≡ H.content shelf.old name }
    ensures keeps { AskNoWriting (map string_bytes words.now)
        → KeepsBytes (D.Disk.state disk.old) (D.Disk.state disk.new) }
    ensures untouched { AskNoArchive (map string_bytes words.now) → disk.new ≡ disk.old }
    ensures second { AskNoSecond (map string_bytes words.now) → second.new ≡ second.old }
{
    match run_without_turns(rt, alloc, words, shelf, disk, out, err) {
        Ok(status) => status,
        Err(command) => take_turns::<R, H, D, K, Brand>(
            rt, alloc, &command, shelf, disk, second, out, err,
        ),
    }
}

/// Does what a command asks for that may wait for a turn of a lock, and answers the status.
fn take_turns<R: Threads + Wait + Sync, H: Shelf, D: SharedDisk + Send, K: Sink + Send, B: Base>(
    rt: &R,
    alloc: Global,
    command: &Command<'_>,
    shelf: &mut H,
    disk: &mut D,
    second: &mut D,
    out: &mut K,
    err: &mut K,
) -> u8
where
    H::Src: Send,
    requires range { IsInRange (asked_by command.now) }
    requires turns { TakesTurns (asked_by command.now) }
    ensures answers { AnswersAsked B.archive (asked_by command.now)
        (around H.content H.unread H.open_faults H.read_faults K.written K.faults
        shelf.old shelf.new out.old out.new err.old err.new)
        (D.Disk.state disk.old) (D.Disk.state disk.new)
        (D.Disk.state second.old) (D.Disk.state second.new) result }

    // whatever it asks for
    ensures outside { OutsideGoesOn
        (around H.content H.unread H.open_faults H.read_faults K.written K.faults
        shelf.old shelf.new out.old out.new err.old err.new) }
    ensures goes_on { DiskGoesOn (D.Disk.state disk.old) (D.Disk.state disk.new) }
    ensures second_goes_on { DiskGoesOn (D.Disk.state second.old) (D.Disk.state second.new) }

    // what stays
    ensures logs { (name : List ℕ) → H.content shelf.new name ≡ H.content shelf.old name }
    ensures keeps { ¬ MayWrite (asked_by command.now)
        → KeepsBytes (D.Disk.state disk.old) (D.Disk.state disk.new) }
    ensures second { ¬ UsesSecond (asked_by command.now) → second.new ≡ second.old }
{
    match command {
        Command::Ingest { asked } => {
            let logs = NewLogs::of(asked);
            match asked.watch {
                None => ingest_files::<R, H, D, K, B>(rt, alloc, logs, shelf, disk, out, err),
                Some(pattern) => watch_files::<R, H, D, K, B>(
                    rt, alloc, logs, pattern, shelf, disk, out, err,
                ),
            }
        }
        Command::Merge => merge_archives::<R, D, D, K, B>(rt, alloc, disk, second, out, err),
        Command::Upgrade => upgrade_archive(rt, alloc, disk, second, out, err),
        Command::Bench { asked } => bench(rt, alloc, *asked, disk, out, err),
        // no other command takes a turn
        _ => unreachable!(),
    }
}
