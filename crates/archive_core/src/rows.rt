//! What the rows of a segment say of its messages.
ghost use Rattle.std.specs.Prelude.{◌≡◌, ℕ, ◌<◌, ◌^◌, ◌↔◌, All, IfOk, IfNone, IfSome, IsFalse, IsTrue, List, Some, length, slice_get};
ghost use Rattle.column_store.specs.declared.row.Row.{Row};
ghost use Rattle.column_store.specs.Row.{IsRow, row_of, variable_count};
ghost use Rattle.row_codec.specs.Means.{IsCanonical, IsEncoding};
ghost use Rattle.archive_meaning.specs.Held.{ends_open};
ghost use Rattle.archive_meaning.specs.Sums.{open_after};
ghost use Rattle.archive_core.specs.LogTypes.{AreKnown, IsCutRow};
ghost use Rattle.archive_core.specs.Rows.{AreMessages, IsMessageOf};

use crate::held::are_held;
use crate::log_types::LogType;
use crate::message::{is_message, stamp_is};
use column_store::{Columns, RowRef};
use row_codec::{Layouts, Names, RowWriter, row_ok};
use std::alloc::{AllocError, Global};

/// Rows in order, which are lent one by one.
pub trait Rows {
    /// The rows.
    ghost rows: { Self → List Row };

    /// How many there are.
    fn count(&self) -> usize
        ensures { result ≡ length (rows self.now) };

    /// The row at a place.
    fn at(&self, place: usize) -> RowRef<'_>
        requires { place < length (rows self.now) }
        ensures { slice_get (rows self.now) place ≡ Some (row_of result) };

    /// Whether the variables of all rows can be counted in 32 bits.
    fn are_few(&self) -> bool
        ensures { IsTrue result ↔ (variable_count (rows self.now) < 2 ^ 32) };

    /// The numbers of each row fit their fields, for callers that have to show it. It does nothing.
    fn fit(&self)
        ensures { All IsRow (rows self.now) };
}

impl Rows for Columns {
    ghost rows = { λ c. c.rows };

    fn count(&self) -> usize {
        self.rows() as usize
    }

    fn at(&self, place: usize) -> RowRef<'_> {
        let _count = self.rows();
        self.row(place as u32)
    }

    fn are_few(&self) -> bool {
        let _few = self.variables();
        true
    }

    fn fit(&self) {
        self.rows_fit();
    }
}

// Whether a row's parts are cut by the rule of tokens; not where it is the encoding of no message. The
// first row of a log type is tested whole, and of further ones the words.
fn is_cut<N: Names>(names: &N, known: &mut Vec<LogType>, row: RowRef<'_>) -> bool
    requires { AreKnown (N.types names.now) known.old.items }
    ensures known { AreKnown (N.types names.now) known.new.items }
    ensures yes { IsTrue result
        → IsCutRow (N.types names.now) (N.words names.now) (row_of row.entry) }
    ensures none { IsFalse result → ¬ IsEncoding (N.version names.now) (row_of row.entry)
        (N.types names.now) (N.words names.now) }
{
    let number = row.log_type as usize;
    let Some(log_type) = known.get(number) else {
        return false;
    };
    if log_type.tested {
        return are_held(log_type.slots.as_slice(), row.words, names);
    }
    if !row_ok(row, names) {
        return false;
    }
    known[number].tested = true;
    true
}

// Whether a row is the encoding of a message, which then stands in `message`.
fn find_message<N: Names>(
    names: &N,
    known: &mut Vec<LogType>,
    writer: &mut RowWriter<'_>,
    row: RowRef<'_>,
    message: &mut Vec<u8>,
) -> Result<bool, AllocError>
    requires writer { writer.old ≡ N.types names.now }
    requires known { AreKnown (N.types names.now) known.old.items }

    // what stays
    ensures writer { writer.new ≡ writer.old }
    ensures known { AreKnown (N.types names.now) known.new.items }

    // by the answer
    ensures yes { IfOk result (λ found. IsTrue found
        → IsCanonical (N.version names.now) (row_of row.entry)
        (N.types names.now) (N.words names.now) message.new.items) }
    ensures none { IfOk result (λ found. IsFalse found → (m : List ℕ)
        → ¬ IsCanonical (N.version names.now) (row_of row.entry)
        (N.types names.now) (N.words names.now) m) }
{
    message.clear();
    if !is_cut(names, known, row) {
        return Ok(false);
    }
    if !writer.write_fitting(row, names, message)? {
        return Ok(false);
    }
    Ok(stamp_is(names.micro(), message.as_slice(), row.pattern, row.moment))
}

// Whether the bytes end without a newline and are not empty.
fn is_open(bytes: &[u8]) -> bool
    ensures { result ≡ ends_open bytes.now }
{
    match bytes {
        [] => false,
        [.., last] => *last != b'\n',
    }
}

// Whether the row's message may be a last line without newline; nothing where the row is the encoding of no
// message. The message is put together in `message`.
fn row_says<N: Names>(
    version: u32,
    names: &N,
    known: &mut Vec<LogType>,
    writer: &mut RowWriter<'_>,
    row: RowRef<'_>,
    message: &mut Vec<u8>,
) -> Result<Option<bool>, AllocError>
    requires version { version ≡ N.version names.now }
    requires writer { writer.old ≡ N.types names.now }
    requires known { AreKnown (N.types names.now) known.old.items }

    // what stays
    ensures writer { writer.new ≡ writer.old }
    ensures known { AreKnown (N.types names.now) known.new.items }

    // by the answer
    ensures some { IfOk result (λ says. IfSome says (λ open_end. (m : List ℕ)
        × IsMessageOf (N.version names.now) (N.types names.now) (N.words names.now)
        (row_of row.entry) m
        × (open_end ≡ ends_open m))) }
    ensures none { IfOk result (λ says. IfNone says ((m : List ℕ)
        → ¬ IsMessageOf (N.version names.now) (N.types names.now) (N.words names.now)
        (row_of row.entry) m)) }
{
    if !find_message(names, known, writer, row, message)? {
        return Ok(None);
    }
    if !is_message(version, message.as_slice()) {
        return Ok(None);
    }
    Ok(Some(is_open(message.as_slice())))
}

/// Whether the last of the rows' messages may be a last line without newline, where `before` tells it of
/// the messages before them; nothing where some row is the encoding of no message. The layouts are those
/// of all log types.
pub(crate) fn rows_say<N: Names, R: Rows>(
    alloc: Global,
    version: u32,
    names: &N,
    known: &mut Vec<LogType>,
    layouts: &Layouts,
    before: bool,
    rows: &R,
) -> Result<Option<bool>, AllocError>
    requires version { version ≡ N.version names.now }
    requires layouts { layouts.now ≡ N.types names.now }
    requires known { AreKnown (N.types names.now) known.old.items }

    // what stays
    ensures known { AreKnown (N.types names.now) known.new.items }

    // by the answer
    ensures some { IfOk result (λ says. IfSome says (λ open_end. (messages : List (List ℕ))
        × AreMessages (N.version names.now) (N.types names.now) (N.words names.now)
        (R.rows rows.now) messages
        × (open_end ≡ open_after before messages))) }
    ensures none { IfOk result (λ says. IfNone says ((messages : List (List ℕ))
        → ¬ AreMessages (N.version names.now) (N.types names.now) (N.words names.now)
        (R.rows rows.now) messages)) }
{
    let mut writer = RowWriter::new(layouts);
    let mut message = Vec::new(alloc);
    let mut open_end = before;
    for place in 0..rows.count() {
        match row_says(
            version,
            names,
            known,
            &mut writer,
            rows.at(place),
            &mut message,
        )? {
            Some(open) => open_end = open,
            None => return Ok(None),
        }
    }
    Ok(Some(open_end))
}
