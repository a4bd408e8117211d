//! The columns of a segment's rows.

ghost use Rattle.std.specs.Prelude.{◌≡◌, ◌+◌, ◌*◌, ◌<◌, ◌^◌, List, length, IfOk, IsErrOf};
ghost use mathlib.Core.List.{IsPrefix};
ghost use Rattle.column_store.specs.declared.row.Row.{Row};
ghost use Rattle.segment_format.specs.Layout.{IsHead, head_bytes};
ghost use Rattle.segment_format.specs.Spelled.{AreColumnsIn, HoldsRows};
ghost use Rattle.segment_format.specs.StepsColumns.{AreFilled};

use crate::head::Head;
use crate::numbers::{fill_longs, fill_moments, fill_numbers};
use column_store::{Arrays, Columns};
use record_format::FormatRefusal;
use std::alloc::{AllocError, Global};
use std::sync::ledger::Ledger;
use step_count::Steps;

/// How many bytes the fields of a row take, without its words.
pub const ROW_LEN: u64 = 17;

/// How many bytes a word takes.
pub const WORD_LEN: u64 = 8;

/// The arrays of so many rows and words out of the bytes of their columns, in the memory of these.
fn fill_arrays(
    arrays: Arrays,
    rows: usize,
    count: usize,
    bytes: &[u8],
) -> Result<Arrays, AllocError>
    requires rows { rows < 2 ^ 32 }
    requires count { count < 2 ^ 32 }
    requires length { length bytes.now ≡ 17 * rows + 8 * count }
    ensures { IfOk result (λ a. AreFilled a bytes.now rows count) }
{
    let Arrays {
        mut patterns,
        mut moments,
        mut types,
        mut counts,
        mut words,
    } = arrays;
    let (field, rest) = bytes.split_at(rows);
    patterns.clear();
    patterns.extend_from_slice(field)?;
    let (field, rest) = rest.split_at(8 * rows);
    fill_moments(&mut moments, field)?;
    let (field, rest) = rest.split_at(4 * rows);
    fill_numbers(&mut types, field)?;
    let (field, rest) = rest.split_at(4 * rows);
    fill_numbers(&mut counts, field)?;
    fill_longs(&mut words, rest)?;
    Ok(Arrays {
        patterns,
        moments,
        types,
        counts,
        words,
    })
}

/// The columns that the bytes spell, in the memory of these arrays. `Malformed` comes exactly where they
/// spell none with so many rows and words: where the rows' counts do not add up to the words.
pub fn columns_in(
    arrays: Arrays,
    rows: u32,
    words: u32,
    bytes: &[u8],
) -> Result<Columns, FormatRefusal>
    requires { length bytes.now ≡ 17 * rows + 8 * words }
    ensures spelled { IfOk result (λ c. AreColumnsIn bytes.now rows words c.rows) }
    ensures bytes { IfOk result (λ c. c.bytes ≡ 0) }
    ensures malformed { IsErrOf result FormatRefusal.Malformed
        → (list : List Row) → AreColumnsIn bytes.now rows words list → ⊥ }
{
    let filled = fill_arrays(arrays, rows as usize, words as usize, bytes)?;
    match Columns::from_arrays(filled) {
        Some(columns) => {
            columns.rows_fit();
            Ok(columns)
        }
        None => Err(FormatRefusal::Malformed),
    }
}

/// The rows of a segment, from the payload of its record: the bytes of its head, and then the columns. It
/// ticks once. `Malformed` comes exactly where the payload does not begin with this head, or columns of
/// as many rows and variables as the head says do not stand behind it, or anything stands behind them.
pub fn read_columns<L: Ledger>(
    alloc: Global,
    head: &Head,
    payload: &[u8],
    steps: &mut Steps<L>,
) -> Result<Columns, FormatRefusal>
    requires { IsHead head.now }
    // what was read
    ensures front { IfOk result (λ _. IsPrefix (head_bytes head.now) payload.now) }
    ensures spelled { IfOk result (λ c. HoldsRows head.now payload.now c.rows) }
    ensures bytes { IfOk result (λ c. c.bytes ≡ 0) }
    // what is refused
    ensures other_head { ¬ IsPrefix (head_bytes head.now) payload.now
        → IsErrOf result FormatRefusal.Malformed }
    ensures malformed { IsErrOf result FormatRefusal.Malformed
        → IsPrefix (head_bytes head.now) payload.now
        → (list : List Row) → HoldsRows head.now payload.now list → ⊥ }
    ensures steps { steps.new ≡ steps.old + 1 }
{
    steps.tick();
    let front = head.fixed().head_len();
    let columns = ROW_LEN * u64::from(head.rows) + WORD_LEN * u64::from(head.variables);
    if payload.len() as u64 != front + columns || !head.begins(payload) {
        return Err(FormatRefusal::Malformed);
    }
    let (_, bytes) = payload.split_at(front as usize);
    columns_in(Arrays::new(alloc), head.rows, head.variables, bytes)
}
