//! What a reader has come to, and how it goes on with a record.
ghost use Rattle.std.specs.Prelude.{◌≡◌, ◌≢◌, ◌<◌, ◌≤◌, ◌+◌, ◌^◌, ℕ, List, Option, length, IfOk, OnOk, OnErr, IsErrOf, IsTrue, IsFalse, slice_index_or};
ghost use Rattle.log_seams.specs.Outside.{CountsOf};
ghost use Rattle.row_codec.specs.Means.{AreCanonical};
ghost use Rattle.archive_meaning.specs.declared.TheConstants.{MAX_MESSAGES};
ghost use Rattle.archive_open.specs.Grown.{GrowsNext, NoneGrows, grown_of};
ghost use Rattle.archive_open.specs.StepsFiles.{no_file};
ghost use Rattle.printed_lines.specs.Lines.{numbered};
ghost use Rattle.live_search.specs.Handled.{GoesPast, Handles, KnowsTexts, MeetsNone, Stops, reached_of};
ghost use Rattle.live_search.specs.Part.{HoldsPart};
ghost use Rattle.printed_lines.specs.Printed.{HasPrinted, HasPrintedFront};

use crate::part::read_part;
use crate::refusal::LiveRefusal;
use archive_open::{Grown, KeepsTexts, add_head, add_listed};
use column_store::Columns;
use disk_seal::Found;
use log_seams::Sink;
use pair_sieve::PairSieve;
use printed_lines::print_segment;
use record_format::{FormatRefusal, SEGMENT_KIND};
use segment_format::Head;
use sink_pieces::PrintRefusal;
use std::alloc::Global;
use wild_match::Pattern;

/// What a reader has come to.
#[derive(Drop)]
pub(crate) struct Progress<B: KeepsTexts> {
    pub(crate) alloc: Global,
    /// The texts and the files of the entries so far.
    pub(crate) grown: Grown<B>,
    /// What is searched for.
    pub(crate) pattern: Pattern,
    /// Tells of rows that it matches none of their messages.
    pub(crate) sieve: PairSieve,
    /// How many entries of the journal it began with.
    pub(crate) first: u64,
    /// How many behind these it has handled.
    pub(crate) handled: u64,
    /// The place of the gate behind them.
    pub(crate) at: u64,
}

/// The name of a file.
fn name_of<B: KeepsTexts + Drop>(grown: &Grown<B>, file: u32) -> &[u8]
    requires { file < length grown.now.files.items }
    ensures { result.now ≡ (slice_index_or grown.now.files.items file no_file).name }
{
    grown.files[file as usize].name.as_slice()
}

/// Adds what a record that is no segment has.
fn grow_listed<B: KeepsTexts + Drop>(
    alloc: Global,
    grown: &mut Grown<B>,
    found: &Found,
) -> Result<(), LiveRefusal>
    requires { found.now.place.kind ≢ SEGMENT_KIND }

    // by the answer
    ensures added { OnOk result (GrowsNext found.now.place.kind found.now.payload
        (grown_of B.kept grown.old) (grown_of B.kept grown.new)) }

    // causes
    ensures damaged { (at : ℕ) → IsErrOf result (LiveRefusal.Damaged at)
        → NoneGrows found.now.place.kind found.now.payload (grown_of B.kept grown.old) }
    ensures disk { ¬ IsErrOf result LiveRefusal.DiskFault }
    ensures sink { ¬ IsErrOf result LiveRefusal.SinkFault }
{
    if !add_listed(alloc, grown, found.place.kind, found.payload.as_slice())? {
        return Err(LiveRefusal::Damaged { at: found.place.at });
    }
    Ok(())
}

/// Adds the messages of a segment to those of its file, and gives its head and its rows.
fn grow_part<B: KeepsTexts + Drop>(
    alloc: Global,
    grown: &mut Grown<B>,
    found: &Found,
) -> Result<(Head, Columns), LiveRefusal>
    requires { found.now.place.kind ≡ SEGMENT_KIND }
    ensures names { B.kept grown.new.names ≡ B.kept grown.old.names }

    // by the answer
    ensures part { IfOk result (λ part. HoldsPart found.now.payload part.0 part.1.rows) }
    ensures there { IfOk result (λ part. part.0.file < length grown.new.files.items) }
    ensures most { IfOk result (λ part. part.0.first + part.0.rows ≤ MAX_MESSAGES) }
    ensures added { IfOk result (λ _. GrowsNext found.now.place.kind found.now.payload
        (grown_of B.kept grown.old) (grown_of B.kept grown.new)) }

    // causes
    ensures damaged { (at : ℕ) → IsErrOf result (LiveRefusal.Damaged at)
        → NoneGrows found.now.place.kind found.now.payload (grown_of B.kept grown.old) }
    ensures disk { ¬ IsErrOf result LiveRefusal.DiskFault }
    ensures sink { ¬ IsErrOf result LiveRefusal.SinkFault }
{
    let (head, columns) = match read_part(alloc, found.payload.as_slice()) {
        Ok(part) => part,
        Err(FormatRefusal::Malformed) => {
            return Err(LiveRefusal::Damaged { at: found.place.at });
        }
        Err(FormatRefusal::OutOfMemory) => return Err(LiveRefusal::OutOfMemory),
    };
    if !add_head(grown, &head) {
        return Err(LiveRefusal::Damaged { at: found.place.at });
    }
    Ok((head, columns))
}

/// Prints what the pattern matches of a segment's messages, and tells whether its rows can be written
/// that the sieve does not pass over. What was printed is said where the sieve knows of the texts.
fn print_part<B: KeepsTexts + Drop, K: Sink>(
    progress: &Progress<B>,
    head: &Head,
    columns: &Columns,
    out: &mut K,
) -> Result<bool, PrintRefusal>
    requires there { head.now.file < length progress.now.grown.files.items }
    requires small { head.now.first + 1 + length columns.now.rows < 2 ^ 64 }

    // by the answer
    ensures done { IfOk result (λ fits. IsTrue fits → KnowsTexts (reached_of B.kept progress.now)
        → (version : ℕ) (messages : List (List ℕ))
        → AreCanonical version columns.now.rows (B.kept progress.now.grown.names).types
        (B.kept progress.now.grown.names).words messages
        → HasPrinted progress.now.pattern (numbered
        (slice_index_or progress.now.grown.files.items head.now.file no_file).name
        (head.now.first + 1) messages) (K.written out.old) (K.written out.new)) }
    ensures misfit { IfOk result (λ fits. IsFalse fits → (version : ℕ) (messages : List (List ℕ))
        → ¬ AreCanonical version columns.now.rows (B.kept progress.now.grown.names).types
        (B.kept progress.now.grown.names).words messages) }
    ensures front { OnErr result (KnowsTexts (reached_of B.kept progress.now)
        → (version : ℕ) (messages : List (List ℕ))
        → AreCanonical version columns.now.rows (B.kept progress.now.grown.names).types
        (B.kept progress.now.grown.names).words messages
        → HasPrintedFront progress.now.pattern (numbered
        (slice_index_or progress.now.grown.files.items head.now.file no_file).name
        (head.now.first + 1) messages) (K.written out.old) (K.written out.new)) }

    // causes
    ensures counts { CountsOf PrintRefusal.SinkFault (K.faults out.old) (K.faults out.new) result }
{
    let name = name_of(&progress.grown, head.file);
    print_segment(
        progress.alloc,
        &progress.grown.names,
        name,
        head.first + 1,
        columns,
        &progress.pattern,
        &progress.sieve,
        out,
    )
}

/// Goes to the gate behind a record.
fn go_past<B: KeepsTexts + Drop>(progress: &mut Progress<B>, found: &Found)
    requires small { progress.old.handled + 1 < 2 ^ 64 }
    requires fits { found.now.place.payload + found.now.place.length < 2 ^ 64 }
    ensures past { GoesPast found.now
        (reached_of B.kept progress.old) (reached_of B.kept progress.new) }
    ensures grown { progress.new.grown ≡ progress.old.grown }
    ensures sieve { progress.new.sieve ≡ progress.old.sieve }
{
    progress.handled += 1;
    progress.at = found.place.payload + found.place.length;
}

/// Handles a record that is no segment.
fn handle_listed<B: KeepsTexts + Drop>(
    progress: &mut Progress<B>,
    found: &Found,
) -> Result<(), LiveRefusal>
    requires kind { found.now.place.kind ≢ SEGMENT_KIND }
    requires small { progress.old.handled + 1 < 2 ^ 64 }
    requires fits { found.now.place.payload + found.now.place.length < 2 ^ 64 }

    // by the answer, with whatever was printed before
    ensures handled { (out : Option (List ℕ)) → OnOk result (Handles found.now
        (reached_of B.kept progress.old) (reached_of B.kept progress.new) out out) }
    ensures stopped { (out : Option (List ℕ)) → OnErr result (Stops found.now
        (reached_of B.kept progress.old) (reached_of B.kept progress.new) out out) }

    // causes
    ensures damaged { (at : ℕ) → IsErrOf result (LiveRefusal.Damaged at)
        → MeetsNone found.now (reached_of B.kept progress.old) }
    ensures disk { ¬ IsErrOf result LiveRefusal.DiskFault }
    ensures sink { ¬ IsErrOf result LiveRefusal.SinkFault }
{
    grow_listed(progress.alloc, &mut progress.grown, found)?;
    go_past(progress, found);
    Ok(())
}

/// Handles the record of a segment. It counts as handled before its lines are begun.
fn handle_part<B: KeepsTexts + Drop, K: Sink>(
    progress: &mut Progress<B>,
    out: &mut K,
    found: &Found,
) -> Result<(), LiveRefusal>
    requires kind { found.now.place.kind ≡ SEGMENT_KIND }
    requires small { progress.old.handled + 1 < 2 ^ 64 }
    requires fits { found.now.place.payload + found.now.place.length < 2 ^ 64 }

    // by the answer
    ensures handled { OnOk result (Handles found.now
        (reached_of B.kept progress.old) (reached_of B.kept progress.new)
        (K.written out.old) (K.written out.new)) }
    ensures stopped { OnErr result (Stops found.now
        (reached_of B.kept progress.old) (reached_of B.kept progress.new)
        (K.written out.old) (K.written out.new)) }

    // causes
    ensures damaged { (at : ℕ) → IsErrOf result (LiveRefusal.Damaged at)
        → MeetsNone found.now (reached_of B.kept progress.old) }
    ensures disk { ¬ IsErrOf result LiveRefusal.DiskFault }
    ensures counts { CountsOf LiveRefusal.SinkFault (K.faults out.old) (K.faults out.new) result }
{
    let (head, columns) = grow_part(progress.alloc, &mut progress.grown, found)?;
    progress.sieve.look(&progress.grown.names)?;
    go_past(progress, found);
    if !print_part(progress, &head, &columns, out)? {
        return Err(LiveRefusal::Damaged { at: found.place.at });
    }
    Ok(())
}

/// Handles a record: keeps what it has, and of a segment prints what the pattern matches.
pub(crate) fn handle<B: KeepsTexts + Drop, K: Sink>(
    progress: &mut Progress<B>,
    out: &mut K,
    found: &Found,
) -> Result<(), LiveRefusal>
    requires small { progress.old.handled + 1 < 2 ^ 64 }
    requires fits { found.now.place.payload + found.now.place.length < 2 ^ 64 }

    // by the answer
    ensures handled { OnOk result (Handles found.now
        (reached_of B.kept progress.old) (reached_of B.kept progress.new)
        (K.written out.old) (K.written out.new)) }
    ensures stopped { OnErr result (Stops found.now
        (reached_of B.kept progress.old) (reached_of B.kept progress.new)
        (K.written out.old) (K.written out.new)) }

    // causes
    ensures damaged { (at : ℕ) → IsErrOf result (LiveRefusal.Damaged at)
        → MeetsNone found.now (reached_of B.kept progress.old) }
    ensures disk { ¬ IsErrOf result LiveRefusal.DiskFault }
    ensures counts { CountsOf LiveRefusal.SinkFault (K.faults out.old) (K.faults out.new) result }
{
    if found.place.kind == SEGMENT_KIND {
        handle_part(progress, out, found)
    } else {
        handle_listed(progress, found)
    }
}
