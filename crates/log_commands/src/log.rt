//! The messages of a log on their way from the log to the output.
ghost use Rattle.std.specs.Prelude.{◌≡◌, ◌≢◌, ◌<◌, ◌≤◌, ◌⊎◌, ℕ, List, [], OnOk, IfErr, IsErrOf};
ghost use Rattle.log_seams.specs.Outside.{Adds, CountsOf, Rose};
ghost use Rattle.command_refusals.specs.Outcome.{answer_of};
ghost use Rattle.log_commands.specs.StepsPrinting.{Reaches, IsFresh, TellsNext, FailsAfter, refusal_of};
ghost use Rattle.command_answers.specs.Printing.{OneFailed, Printed, is_whole};
ghost use Rattle.command_refusals.specs.declared.outcome.LogRefusal.TheVariants.{OpenFault, ReadFault, SinkFault, OutOfMemory};

use crate::message_text::MessageText;
use archive_meaning::MAX_MESSAGES;
use command_refusals::LogRefusal;
use line_cut::{Cut, Cutter, CutterRefused, MAX_LINE_LEN};
use log_seams::{OpenRefused, Shelf, Sink, Source};
use sink_pieces::{flush, flush_piece};
use std::alloc::Global;

/// The refusal for a cutter's.
fn refusal_of(cut: Cut) -> LogRefusal
    ensures value { result ≡ refusal_of cut }
    ensures open { result ≢ OpenFault }
{
    match cut {
        Cut::ReadFault => LogRefusal::ReadFault,
        Cut::LineTooLong { line } => LogRefusal::LineTooLong { line },
        Cut::TooManyLines => LogRefusal::TooManyLines,
        Cut::OutOfMemory => LogRefusal::OutOfMemory,
    }
}

/// Gathers the text of one message, and sends what was gathered once it is enough for a piece.
fn print_message<K: Sink, T: MessageText>(
    teller: &T,
    kept: &mut T::Kept,
    number: u64,
    message: &[u8],
    out: &mut K,
    gathered: &mut Vec<u8>,
) -> Result<(), LogRefusal>
    ensures ok { OnOk result
        (TellsNext (T.tells teller.now) number message.now (K.written out.old) (K.written out.new)
        gathered.old.items gathered.new.items) }
    ensures failed { IsErrOf result SinkFault
        → FailsAfter (T.tells teller.now) number message.now
        (K.written out.old) (K.written out.new) gathered.old.items }
    ensures memory { IsErrOf result OutOfMemory → K.written out.new ≡ K.written out.old }
    ensures only { IfErr result
        (λ refusal. (refusal ≡ SinkFault) ⊎ (refusal ≡ OutOfMemory)) }
    ensures sink { CountsOf SinkFault (K.faults out.old) (K.faults out.new) result }
{
    if teller.tell(kept, gathered, number, message).is_err() {
        return Err(LogRefusal::OutOfMemory);
    }
    match flush_piece(out, gathered) {
        Ok(()) => Ok(()),
        Err(_) => Err(LogRefusal::SinkFault),
    }
}

/// Prints the messages that a cutter gives, up to its end or its refusal.
fn print_messages<S: Source, K: Sink, T: MessageText>(
    cutter: &mut Cutter<S>,
    teller: &T,
    out: &mut K,
    gathered: &mut Vec<u8>,
) -> Result<(), LogRefusal>
    requires fresh { IsFresh cutter.old }
    requires nothing { gathered.old.items ≡ [] }
    // by the answer
    ensures reaches { Reaches (T.tells teller.now) (answer_of result) (S.left cutter.old.source)
        (S.left cutter.new.source) (K.written out.old) (K.written out.new) gathered.new.items }
    ensures open { ¬ IsErrOf result OpenFault }

    // causes
    ensures reads { CountsOf ReadFault
        (S.faults cutter.old.source) (S.faults cutter.new.source) result }
    ensures sink { CountsOf SinkFault (K.faults out.old) (K.faults out.new) result }

    // what stays
    ensures name { S.name cutter.new.source ≡ S.name cutter.old.source }
{
    let mut kept = teller.kept();
    let mut number = 0;
    loop {
        match cutter.advance() {
            Ok(Some(_)) => {
                number += 1;
                let message = cutter.line();
                if let Err(refusal) = print_message(
                    teller, &mut kept, number, message, out, gathered,
                ) {
                    return Err(refusal);
                }
            }
            Ok(None) => return Ok(()),
            Err(cut) => return Err(refusal_of(cut)),
        }
    }
}

/// Whether all of the text that the printing came to goes out.
fn goes_out(outcome: &Result<(), LogRefusal>) -> bool
    ensures { result ≡ is_whole (answer_of outcome.now) }
{
    !matches!(
        outcome,
        Err(LogRefusal::SinkFault | LogRefusal::OutOfMemory)
    )
}

/// Prints the messages of an open log, and sends all that was gathered unless the output failed or
/// there was no memory.
fn print_source<S: Source, K: Sink, T: MessageText>(
    alloc: Global,
    cutter: &mut Cutter<S>,
    teller: &T,
    out: &mut K,
) -> Result<(), LogRefusal>
    requires fresh { IsFresh cutter.old }
    // by the answer
    ensures printed { Printed (T.tells teller.now) (answer_of result) (S.left cutter.old.source)
        (S.left cutter.new.source) (K.written out.old) (K.written out.new) }
    ensures open { ¬ IsErrOf result OpenFault }

    // causes
    ensures read { IsErrOf result ReadFault
        → Rose (S.faults cutter.old.source) (S.faults cutter.new.source) }
    ensures steady { ¬ IsErrOf result ReadFault → ¬ IsErrOf result SinkFault
        → S.faults cutter.new.source ≡ S.faults cutter.old.source }
    ensures sink { CountsOf SinkFault (K.faults out.old) (K.faults out.new) result }

    // what stays
    ensures name { S.name cutter.new.source ≡ S.name cutter.old.source }
    ensures later { S.faults cutter.old.source ≤ S.faults cutter.new.source }
{
    let mut gathered = Vec::new(alloc);
    let outcome = print_messages(cutter, teller, out, &mut gathered);
    if !goes_out(&outcome) {
        return outcome;
    }
    match flush(out, &mut gathered) {
        Ok(()) => outcome,
        Err(_) => Err(LogRefusal::SinkFault),
    }
}

/// Prints the messages of the log of a name.
pub(crate) fn print_log<H: Shelf, K: Sink, T: MessageText>(
    alloc: Global,
    teller: &T,
    shelf: &mut H,
    name: &str,
    out: &mut K,
) -> Result<(), LogRefusal>
    // by the answer
    ensures printed { Printed (T.tells teller.now) (answer_of result) (H.content shelf.old name.now)
        (H.unread shelf.new name.now) (K.written out.old) (K.written out.new) }
    ensures untouched { IsErrOf result OpenFault → K.written out.new ≡ K.written out.old }

    // causes
    ensures open { IsErrOf result OpenFault
        → Rose (H.open_faults shelf.old name.now) (H.open_faults shelf.new name.now) }
    ensures read { IsErrOf result ReadFault
        → Rose (H.read_faults shelf.old name.now) (H.read_faults shelf.new name.now) }
    ensures steady { ¬ IsErrOf result ReadFault → ¬ IsErrOf result SinkFault
        → Adds 0 (H.read_faults shelf.old name.now) (H.read_faults shelf.new name.now) }
    ensures one_failed { H.read_faults shelf.old name.now < H.read_faults shelf.new name.now
        → OneFailed H.Src.left H.Src.faults (H.unread shelf.new name.now)
        (H.read_faults shelf.old name.now) (H.read_faults shelf.new name.now) }
    ensures sink { CountsOf SinkFault (K.faults out.old) (K.faults out.new) result }

    // what stays
    ensures logs { (n : List ℕ) → H.content shelf.new n ≡ H.content shelf.old n }
    ensures opens { (n : List ℕ) → H.open_faults shelf.old n ≤ H.open_faults shelf.new n }
    ensures reads { (n : List ℕ) → H.read_faults shelf.old n ≤ H.read_faults shelf.new n }
{
    let source = match shelf.open_log(name) {
        Ok(source) => source,
        Err(OpenRefused::Failed) => return Err(LogRefusal::OpenFault),
        Err(OpenRefused::OutOfMemory) => return Err(LogRefusal::OutOfMemory),
    };
    match Cutter::new(alloc, source, MAX_LINE_LEN, MAX_MESSAGES) {
        Ok(mut cutter) => {
            let outcome = print_source(alloc, &mut cutter, teller, out);
            shelf.close_log(cutter.into_source());
            outcome
        }
        Err(CutterRefused { source }) => {
            shelf.close_log(source);
            Err(LogRefusal::OutOfMemory)
        }
    }
}
