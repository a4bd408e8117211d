//! The commands that wait for no turn of a lock.
ghost use Rattle.std.specs.Prelude.{◌≡◌, ◌<◌, ◌⊎◌, ℕ, List, Option, map, string_bytes, IfErr, IfNone, IfOk, IfSome};
ghost use Rattle.log_seams.specs.Disk.{KeepsBytes};
ghost use Rattle.command_words.specs.Asked.{Asks, IsInRange, asked_by, to_scan, to_show};
ghost use Rattle.command_refusals.specs.GoesOn.{DiskGoesOn, OutsideGoesOn};
ghost use Rattle.command_refusals.specs.Outside.{around};
ghost use Rattle.command_answers.specs.Answers.{Answers, AnswersAsked};
ghost use Rattle.command_answers.specs.Known.{KnownArchive};
ghost use Rattle.command_answers.specs.Printing.{OneFailed};
ghost use Rattle.command_answers.specs.Words.{AskNoArchive, AskNoWriting, MayWrite, UsesArchive};
ghost use Rattle.clp_commands.specs.Turns.{AskForTurns, TakesTurns};

use command_refusals::{
    answer, refusal_of_create, refusal_of_file, refusal_of_read, refusal_of_words, report,
};
use command_words::{Command, read_words};
use count_command::count_messages;
use disk_journal::create;
use log_commands::{scan, show};
use log_seams::{SharedDisk, Shelf, Sink};
use read_commands::{check, decode_file, files, search_messages};
use std::alloc::Global;
use std::thread::Threads;

/// Does what the words ask for, and answers the status, where that waits for no turn of a lock: for all
/// commands but `ingest`, `merge`, `upgrade` and `bench`, and for words that ask for none. Its answers
/// are those of [`run`](crate::run), which calls it first. It returns on every input: `R` has no `Wait`.
///
/// # Errors
///
/// The command that the words ask for, where that may wait for a turn. Nothing was done then.
pub fn run_without_turns<'a, R: Threads + Sync, H: Shelf, D: SharedDisk, K: Sink>(
    rt: &R,
    alloc: Global,
    words: &'a [String],
    shelf: &mut H,
    disk: &mut D,
    out: &mut K,
    err: &mut K,
) -> Result<u8, Command<'a>>
    // by the words, whatever archive is known, and over any second disk
    ensures answers { IfOk result (λ status. (known : Option KnownArchive) (second : D)
        → Answers known (map string_bytes words.entry.now)
        (around H.content H.unread H.open_faults H.read_faults K.written K.faults
        shelf.old shelf.new out.old out.new err.old err.new)
        (D.Disk.state disk.old) (D.Disk.state disk.new)
        (D.Disk.state second) (D.Disk.state second) status) }
    ensures one_failed { (pattern file : List ℕ)
        → Asks (map string_bytes words.entry.now) (to_show file)
        ⊎ Asks (map string_bytes words.entry.now) (to_scan pattern file)
        → H.read_faults shelf.old file < H.read_faults shelf.new file
        → OneFailed H.Src.left H.Src.faults (H.unread shelf.new file)
        (H.read_faults shelf.old file) (H.read_faults shelf.new file) }
    ensures turns { IfErr result (AskForTurns (map string_bytes words.entry.now)) }
    ensures idle { IfErr result (λ _. (shelf.new ≡ shelf.old) × (disk.new ≡ disk.old)
        × (out.new ≡ out.old) × (err.new ≡ err.old)) }

    // whatever they ask for
    ensures outside { OutsideGoesOn
        (around H.content H.unread H.open_faults H.read_faults K.written K.faults
        shelf.old shelf.new out.old out.new err.old err.new) }
    ensures goes_on { DiskGoesOn (D.Disk.state disk.old) (D.Disk.state disk.new) }

    // what stays
    ensures logs { (name : List ℕ) → H.content shelf.new name ≡ H.content shelf.old name }
    ensures keeps { AskNoWriting (map string_bytes words.entry.now)
        → KeepsBytes (D.Disk.state disk.old) (D.Disk.state disk.new) }
    ensures untouched { AskNoArchive (map string_bytes words.entry.now) → disk.new ≡ disk.old }
{
    let command = match read_words(alloc, words) {
        Ok(command) => command,
        Err(refusal) => return Ok(report(err, "", refusal_of_words(refusal))),
    };
    match carry_out(rt, alloc, &command, shelf, disk, out, err) {
        Some(status) => Ok(status),
        None => Err(command),
    }
}

/// Does what a command asks for, and answers the status; none where it may wait for a turn.
fn carry_out<R: Threads + Sync, H: Shelf, D: SharedDisk, K: Sink>(
    rt: &R,
    alloc: Global,
    command: &Command<'_>,
    shelf: &mut H,
    disk: &mut D,
    out: &mut K,
    err: &mut K,
) -> Option<u8>
    requires { IsInRange (asked_by command.now) }
    // by the command
    ensures answers { IfSome result (λ status. (known : Option KnownArchive) (second : D)
        → AnswersAsked known (asked_by command.now)
        (around H.content H.unread H.open_faults H.read_faults K.written K.faults
        shelf.old shelf.new out.old out.new err.old err.new)
        (D.Disk.state disk.old) (D.Disk.state disk.new)
        (D.Disk.state second) (D.Disk.state second) status) }
    ensures one_failed { (pattern file : List ℕ)
        → (asked_by command.now ≡ to_show file) ⊎ (asked_by command.now ≡ to_scan pattern file)
        → H.read_faults shelf.old file < H.read_faults shelf.new file
        → OneFailed H.Src.left H.Src.faults (H.unread shelf.new file)
        (H.read_faults shelf.old file) (H.read_faults shelf.new file) }
    ensures turns { IfNone result (TakesTurns (asked_by command.now)) }
    ensures idle { IfNone result ((shelf.new ≡ shelf.old) × (disk.new ≡ disk.old)
        × (out.new ≡ out.old) × (err.new ≡ err.old)) }

    // whatever it asks for
    ensures outside { OutsideGoesOn
        (around H.content H.unread H.open_faults H.read_faults K.written K.faults
        shelf.old shelf.new out.old out.new err.old err.new) }
    ensures goes_on { DiskGoesOn (D.Disk.state disk.old) (D.Disk.state disk.new) }

    // what stays
    ensures logs { (name : List ℕ) → H.content shelf.new name ≡ H.content shelf.old name }
    ensures keeps { ¬ MayWrite (asked_by command.now)
        → KeepsBytes (D.Disk.state disk.old) (D.Disk.state disk.new) }
    ensures untouched { ¬ UsesArchive (asked_by command.now) → disk.new ≡ disk.old }
{
    match command {
        Command::Show { file } => Some(show(alloc, file, shelf, out, err)),
        Command::Scan { pattern, file } => Some(scan(alloc, pattern, file, shelf, out, err)),
        Command::Create { header } => {
            let outcome = create(disk, header);
            Some(answer(refusal_of_create(outcome), "", err))
        }
        Command::Files => {
            let outcome = files(alloc, disk, out);
            Some(answer(refusal_of_read(outcome), "", err))
        }
        Command::Check => {
            let outcome = check(alloc, disk, out);
            Some(answer(refusal_of_read(outcome), "", err))
        }
        Command::Decode { number } => {
            let outcome = decode_file(alloc, *number, disk, out);
            Some(answer(refusal_of_file(outcome), "", err))
        }
        Command::Search { asked } => Some(search_messages(rt, alloc, asked, disk, out, err)),
        Command::Count { asked } => Some(count_messages(rt, alloc, asked, disk, out, err)),
        Command::Ingest { .. } | Command::Merge | Command::Upgrade | Command::Bench { .. } => None,
    }
}
