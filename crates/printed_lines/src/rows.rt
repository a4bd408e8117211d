//! The messages of a segment as lines.
ghost use Rattle.std.specs.Prelude.{◌≡◌, ◌<◌, ◌+◌, ◌^◌, [], ℕ, List, length, IfOk, OnErr, IsTrue, IsFalse};
ghost use Rattle.log_seams.specs.Outside.{CountsOf};
ghost use Rattle.row_codec.specs.Means.{AreCanonical};
ghost use Rattle.pair_sieve.specs.Sieve.{Knows};
ghost use Rattle.printed_lines.specs.Lines.{numbered};
ghost use Rattle.printed_lines.specs.Printed.{HasPrinted, HasPrintedFront};
ghost use Rattle.printed_lines.specs.StepsRows.{HasGathered};

use crate::line::print_row;
use column_store::Columns;
use log_seams::Sink;
use pair_sieve::PairSieve;
use row_codec::Names;
use sink_pieces::{PrintRefusal, flush, flush_piece};
use std::alloc::Global;
use wild_match::Pattern;

/// Prints the lines of the messages of rows that the pattern matches, but for what is still gathered,
/// and tells whether all rows can be written that the sieve does not pass over. The first message has
/// this number.
fn print_rows<N: Names, K: Sink>(
    names: &N,
    name: &[u8],
    number: u64,
    rows: &Columns,
    pattern: &Pattern,
    sieve: &PairSieve,
    gathered: &mut Vec<u8>,
    out: &mut K,
) -> Result<bool, PrintRefusal>
    requires none { gathered.old.items ≡ [] }
    requires small { number + length rows.now.rows < 2 ^ 64 }

    // by the answer
    ensures done { IfOk result (λ fits. IsTrue fits
        → Knows pattern.now (N.types names.now) (N.words names.now) sieve.now
        → (version : ℕ) (messages : List (List ℕ))
        → AreCanonical version rows.now.rows (N.types names.now) (N.words names.now) messages
        → HasGathered pattern.now (numbered name.now number messages)
        (K.written out.old) (K.written out.new) gathered.new.items) }
    ensures misfit { IfOk result (λ fits. IsFalse fits → (version : ℕ) (messages : List (List ℕ))
        → ¬ AreCanonical version rows.now.rows (N.types names.now) (N.words names.now) messages) }
    ensures front { OnErr result (Knows pattern.now (N.types names.now)
        (N.words names.now) sieve.now → (version : ℕ) (messages : List (List ℕ))
        → AreCanonical version rows.now.rows (N.types names.now) (N.words names.now) messages
        → HasPrintedFront pattern.now (numbered name.now number messages)
        (K.written out.old) (K.written out.new)) }

    // causes
    ensures counts { CountsOf PrintRefusal.SinkFault (K.faults out.old) (K.faults out.new) result }
{
    for place in 0..rows.rows() {
        let row = rows.row(place);
        if !print_row(
            names,
            name,
            number + u64::from(place),
            row,
            pattern,
            sieve,
            gathered,
        )? {
            return Ok(false);
        }
        flush_piece(out, gathered)?;
    }
    Ok(true)
}

/// Prints the lines of the messages of rows that the pattern matches, and tells whether all rows can be
/// written that the sieve does not pass over. The first message has this number in the file of this
/// name. Lines go out in pieces of 32 KiB, and the last of them at once.
///
/// What was printed is said where the sieve is one for this pattern that knows of these texts.
pub fn print_segment<N: Names, K: Sink>(
    alloc: Global,
    names: &N,
    name: &[u8],
    number: u64,
    rows: &Columns,
    pattern: &Pattern,
    sieve: &PairSieve,
    out: &mut K,
) -> Result<bool, PrintRefusal>
    requires { number + length rows.now.rows < 2 ^ 64 }

    // by the answer
    ensures done { IfOk result (λ fits. IsTrue fits
        → Knows pattern.now (N.types names.now) (N.words names.now) sieve.now
        → (version : ℕ) (messages : List (List ℕ))
        → AreCanonical version rows.now.rows (N.types names.now) (N.words names.now) messages
        → HasPrinted pattern.now (numbered name.now number messages)
        (K.written out.old) (K.written out.new)) }
    ensures misfit { IfOk result (λ fits. IsFalse fits → (version : ℕ) (messages : List (List ℕ))
        → ¬ AreCanonical version rows.now.rows (N.types names.now) (N.words names.now) messages) }
    ensures front { OnErr result (Knows pattern.now (N.types names.now)
        (N.words names.now) sieve.now → (version : ℕ) (messages : List (List ℕ))
        → AreCanonical version rows.now.rows (N.types names.now) (N.words names.now) messages
        → HasPrintedFront pattern.now (numbered name.now number messages)
        (K.written out.old) (K.written out.new)) }

    // causes
    ensures counts { CountsOf PrintRefusal.SinkFault (K.faults out.old) (K.faults out.new) result }
{
    let mut gathered = Vec::new(alloc);
    if !print_rows(
        names,
        name,
        number,
        rows,
        pattern,
        sieve,
        &mut gathered,
        out,
    )? {
        return Ok(false);
    }
    flush(out, &mut gathered)?;
    Ok(true)
}
