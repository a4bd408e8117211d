//! A message of a row as a line.
ghost use Rattle.std.specs.Prelude.{◌∷◌, [], ℕ, List, IfOk, OnOk, IsTrue, IsFalse};
ghost use Rattle.column_store.specs.Row.{row_of};
ghost use Rattle.row_codec.specs.Means.{IsCanonical};
ghost use Rattle.pair_sieve.specs.Sieve.{Knows};
ghost use Rattle.printed_lines.specs.Lines.{placed};
ghost use Rattle.printed_lines.specs.Printed.{HasLines, IsLeft};

use crate::label::put_label;
use column_store::RowRef;
use pair_sieve::PairSieve;
use row_codec::{Names, write_fitting};
use std::alloc::AllocError;
use wild_match::{Pattern, matches};

/// Ends the line of a message that was written behind the first so many bytes, or takes it back.
fn end_line(matched: bool, len: usize, gathered: &mut Vec<u8>) -> Result<(), AllocError>
    ensures { OnOk result (IsLeft matched len gathered.old.items gathered.new.items) }
{
    if matched {
        gathered.push(b'\n')?;
    } else {
        gathered.truncate(len);
    }
    Ok(())
}

/// Appends the line of a row's message where the pattern matches it, and tells whether the row can be
/// written. The message has this number in the file of this name. A row is passed over where the sieve
/// tells that the pattern matches none of its messages; then it is not known whether it can be written.
///
/// Any other is written first and then matched: one that is not matched is taken back.
pub(crate) fn print_row<N: Names>(
    names: &N,
    name: &[u8],
    number: u64,
    row: RowRef<'_>,
    pattern: &Pattern,
    sieve: &PairSieve,
    gathered: &mut Vec<u8>,
) -> Result<bool, AllocError>
    ensures done { IfOk result (λ fits. IsTrue fits
        → Knows pattern.now (N.types names.now) (N.words names.now) sieve.now
        → (version : ℕ) (message : List ℕ)
        → IsCanonical version (row_of row.entry) (N.types names.now) (N.words names.now) message
        → HasLines pattern.now (placed name.now number message ∷ [])
        gathered.old.items gathered.new.items) }
    ensures misfit { IfOk result (λ fits. IsFalse fits → (version : ℕ) (message : List ℕ)
        → ¬ IsCanonical version (row_of row.entry) (N.types names.now) (N.words names.now)
        message) }
{
    if !sieve.may_match(row) {
        return Ok(true);
    }
    let len = gathered.len();
    put_label(gathered, name, number)?;
    let start = gathered.len();
    if !write_fitting(row, names, gathered)? {
        return Ok(false);
    }
    let (_, text) = gathered.as_slice().split_at(start);
    let matched = matches(pattern, text);
    end_line(matched, len, gathered)?;
    Ok(true)
}
