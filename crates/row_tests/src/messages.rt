//! Lines about messages and their rows.
ghost use Rattle.std.specs.Prelude.{◌≤◌, length};
ghost use Rattle.step_count.specs.Opens.{OpensFor};
ghost use Rattle.row_codec.specs.declared.TheConstants.{MAX_MESSAGE_LEN};

use crate::books::Books;
use crate::machine::Machine;
use crate::sieve::is_printed;
use crate::texts::{answer_of, list_of, row_of, small_of, stamp_of, text_of};
use crate::written::{are_written_by_front, are_written_of_all, comes_later, is_written_anew};
use column_store::RowRef;
use row_codec::{
    Encoder, MAX_MESSAGE_LEN, NameRefusal, Which, encode_message, expand, row_fits, row_ok,
};
use std::alloc::{AllocError, Global};
use std::marker::Brand;
use std::sync::ledger::{Blank, Ledger};
use step_count::Steps;

/// Whether an encoder holds the stamp of the message that it read last.
fn reads_stamp(
    encoder: &mut Encoder,
    micro: bool,
    line: &[u8],
    stamp: (u8, i64),
) -> Result<bool, AllocError> {
    encoder.read(micro, line)?;
    let row = encoder.row();
    Ok((row.pattern, row.moment) == stamp)
}

/// Whether it reads this stamp.
fn is_stamp(
    alloc: Global,
    encoder: &mut Encoder,
    unit: &str,
    text: &str,
    stamp: &str,
) -> Result<bool, AllocError> {
    let text = text_of(alloc, text)?;
    reads_stamp(encoder, unit == "micro", text.as_slice(), stamp_of(stamp))
}

/// Whether two rows are equal.
fn is_row(row: RowRef<'_>, other: RowRef<'_>) -> bool {
    let front = (row.pattern, row.moment, row.log_type);
    front == (other.pattern, other.moment, other.log_type) && row.words == other.words
}

/// Whether the message is this row, which has these dictionary numbers.
fn is_encoded(
    alloc: Global,
    books: &mut Books,
    line: &[u8],
    row: RowRef<'_>,
    used: &[u32],
) -> bool {
    if line.len() > MAX_MESSAGE_LEN {
        return false;
    }
    match encode_message(alloc, line, books) {
        Ok(encoded) => is_row(encoded.row.lend(), row) && encoded.used.as_slice() == used,
        Err(_) => false,
    }
}

fn encodes(
    alloc: Global,
    books: &mut Books,
    text: &str,
    row: &str,
    used: &str,
) -> Result<bool, AllocError> {
    let text = text_of(alloc, text)?;
    let row = row_of(alloc, row)?;
    let used = list_of(alloc, used)?;
    Ok(is_encoded(alloc, books, text.as_slice(), row.lend(), used.as_slice()))
}

/// The refusal of the message, if it is refused. Its row is forgotten.
fn refusal_of(alloc: Global, books: &mut Books, line: &[u8]) -> Option<NameRefusal> {
    if line.len() > MAX_MESSAGE_LEN {
        return Some(NameRefusal::OutOfMemory);
    }
    encode_message(alloc, line, books).err()
}

/// Names what a message has.
fn names(alloc: Global, books: &mut Books, text: &str) -> Result<bool, AllocError> {
    let text = text_of(alloc, text)?;
    Ok(refusal_of(alloc, books, text.as_slice()).is_none())
}

/// Whether the message is refused, since the books have no room for its words.
fn is_refused(
    alloc: Global,
    books: &mut Books,
    text: &str,
    count: &str,
) -> Result<bool, AllocError> {
    let text = text_of(alloc, text)?;
    let full = NameRefusal::Full {
        book: Which::Words,
        count: small_of(count),
    };
    Ok(refusal_of(alloc, books, text.as_slice()) == Some(full))
}

/// Whether a row can be written, and is an encoding, as told.
fn row_is(
    alloc: Global,
    books: &Books,
    row: &str,
    fits: &str,
    ok: &str,
) -> Result<bool, AllocError> {
    let row = row_of(alloc, row)?;
    let row = row.lend();
    Ok(answer_of(row_fits(row, books)) == fits && answer_of(row_ok(row, books)) == ok)
}

/// Whether a row is the encoding of a message, and is written as this one.
fn is_written_as<L: Ledger>(
    alloc: Global,
    row: RowRef<'_>,
    books: &Books,
    line: &[u8],
    blank: Blank,
) -> Result<bool, AllocError>
    requires { OpensFor blank L.name L.parts }
{
    if !row_fits(row, books) || !row_ok(row, books) {
        return Ok(false);
    }
    let mut steps: Steps<L> = Steps::new(blank);
    let text = expand(alloc, row, books, &mut steps)?;
    Ok(text.as_slice() == line)
}

/// The same of the row of the message.
fn is_written<L: Ledger>(
    alloc: Global,
    line: &[u8],
    books: &mut Books,
    blank: Blank,
) -> Result<bool, AllocError>
    requires blank { OpensFor blank L.name L.parts }
    requires short { length line.now ≤ MAX_MESSAGE_LEN }
{
    match encode_message(alloc, line, books) {
        Ok(encoded) => is_written_as::<L>(alloc, encoded.row.lend(), books, line, blank),
        Err(_) => Ok(false),
    }
}

/// Whether a message comes back from its row.
fn comes_back(alloc: Global, books: &mut Books, line: &[u8]) -> Result<bool, AllocError> {
    if line.len() > MAX_MESSAGE_LEN {
        return Ok(false);
    }
    is_written::<Brand>(alloc, line, books, Blank::new(1))
}

fn is_back(alloc: Global, books: &mut Books, text: &str) -> Result<bool, AllocError> {
    let text = text_of(alloc, text)?;
    comes_back(alloc, books, text.as_slice())
}

/// Whether a message comes back from its row by a writer of its own.
fn is_written_back(alloc: Global, books: &mut Books, text: &str) -> Result<bool, AllocError> {
    let text = text_of(alloc, text)?;
    is_written_anew(alloc, books, text.as_slice())
}

/// Whether a message comes back whose log type came after others were cut.
fn is_later(alloc: Global, books: &mut Books, text: &str) -> Result<bool, AllocError> {
    let text = text_of(alloc, text)?;
    comes_later(alloc, books, text.as_slice())
}

/// Carries out a line that is about messages; None where it is about something else.
pub(crate) fn over_messages(
    machine: &mut Machine,
    line: &[&str],
) -> Option<Result<bool, AllocError>> {
    let alloc = machine.alloc;
    let books = &mut machine.books;
    Some(match line {
        ["stamp", unit, text, stamp] => is_stamp(alloc, &mut machine.encoder, unit, text, stamp),
        ["names", text] => names(alloc, books, text),
        ["encodes", text, row, used] => encodes(alloc, books, text, row, used),
        ["full", text, count] => is_refused(alloc, books, text, count),
        ["fits", row, fits, ok] => row_is(alloc, books, row, fits, ok),
        ["back", text] => is_back(alloc, books, text),
        ["written", text] => is_written_back(alloc, books, text),
        ["later", text] => is_later(alloc, books, text),
        ["writer"] => are_written_of_all(alloc, books),
        ["front", most] => are_written_by_front(alloc, books, small_of(most)),
        ["printed", pattern, over, lines] => is_printed(alloc, pattern, over, lines),
        _ => return None,
    })
}
