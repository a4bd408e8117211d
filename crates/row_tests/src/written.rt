//! Rows that one writer writes, whose log types were cut before.
ghost use Rattle.std.specs.Prelude.{◌≡◌};
ghost use Rattle.row_codec.specs.Laid.{AreCut};

use crate::books::Books;
use crate::texts::{row_of, text_of, words_of};
use column_store::RowRef;
use row_codec::{Layouts, MAX_MESSAGE_LEN, RowWriter, encode_message};
use std::alloc::{AllocError, Global};

/// Whether a writer appends the text of a row to what stands there, or nothing where there is none.
fn appends(
    alloc: Global,
    writer: &mut RowWriter<'_>,
    row: RowRef<'_>,
    books: &Books,
    text: Option<&[u8]>,
) -> Result<bool, AllocError>
    requires types { AreCut writer.old books.now.types.texts }
    ensures types { writer.new ≡ writer.old }
{
    let mut out = vec![in alloc; b'>']?;
    let fits = writer.write_fitting(row, books, &mut out)?;
    let (_, shown) = out.as_slice().split_at(1);
    Ok(match text {
        Some(text) => fits && shown == text,
        None => !fits && shown.is_empty(),
    })
}

/// Whether a writer of its own writes the row as this message.
fn is_written(
    alloc: Global,
    row: RowRef<'_>,
    books: &Books,
    line: &[u8],
) -> Result<bool, AllocError> {
    let layouts = Layouts::of(alloc, books)?;
    let mut writer = RowWriter::new(&layouts);
    appends(alloc, &mut writer, row, books, Some(line))
}

/// Whether the message comes back, over books that have it and others, by a writer of its own.
pub(crate) fn is_written_anew(
    alloc: Global,
    books: &mut Books,
    line: &[u8],
) -> Result<bool, AllocError> {
    if line.len() > MAX_MESSAGE_LEN {
        return Ok(false);
    }
    match encode_message(alloc, line, books) {
        Ok(encoded) => is_written(alloc, encoded.row.lend(), books, line),
        Err(_) => Ok(false),
    }
}

/// Rows of several log types in turns, and what each is written as. Between them are rows that no
/// text fits, and rows of a log type whose text is none.
static ROWS: &str = r#"
0:7,0 "7 x7"
2:- "a\x11b\\"
1:-
1:7
0:7,1
0:7,0x100000000
0:7
0:7,0,0
4:7,0
0:7,0@0:1
3:0,0,-1 "x7x7-1"
0:8,0 "8 x7"
"#;

/// Whether a writer writes the row at the beginning of a line as told.
fn appends_told(
    alloc: Global,
    writer: &mut RowWriter<'_>,
    books: &Books,
    line: &str,
) -> Result<bool, AllocError>
    requires types { AreCut writer.old books.now.types.texts }
    ensures types { writer.new ≡ writer.old }
{
    let words = words_of(alloc, line)?;
    match words.as_slice() {
        [] => Ok(true),
        [row] => {
            let row = row_of(alloc, row)?;
            appends(alloc, writer, row.lend(), books, None)
        }
        [row, text, ..] => {
            let row = row_of(alloc, row)?;
            let text = text_of(alloc, text)?;
            appends(alloc, writer, row.lend(), books, Some(text.as_slice()))
        }
    }
}

/// Whether one writer writes all the rows as told.
fn are_written(alloc: Global, writer: &mut RowWriter<'_>, books: &Books) -> Result<bool, AllocError>
    requires types { AreCut writer.old books.now.types.texts }
{
    for line in ROWS.lines() {
        if !appends_told(alloc, writer, books, line)? {
            return Ok(false);
        }
    }
    Ok(true)
}

/// Whether a writer writes all the rows as told, over books of the four log types.
pub(crate) fn are_written_of_all(alloc: Global, books: &Books) -> Result<bool, AllocError> {
    let layouts = Layouts::of(alloc, books)?;
    let mut writer = RowWriter::new(&layouts);
    are_written(alloc, &mut writer, books)
}

/// Looks at the row at the beginning of a line.
fn look_at(
    alloc: Global,
    writer: &mut RowWriter<'_>,
    books: &Books,
    line: &str,
) -> Result<(), AllocError>
    ensures { writer.new ≡ writer.old }
{
    let (row, _) = line.split_once(' ').unwrap_or((line, ""));
    if !row.is_empty() {
        let row = row_of(alloc, row)?;
        writer.look_at(row.lend(), books);
    }
    Ok(())
}

/// Looks at all the rows.
fn look_at_all(alloc: Global, writer: &mut RowWriter<'_>, books: &Books) -> Result<(), AllocError>
    ensures { writer.new ≡ writer.old }
{
    for line in ROWS.lines() {
        look_at(alloc, writer, books, line)?;
    }
    Ok(())
}

/// The same by a writer that looked at the rows before, where so many log types were cut.
pub(crate) fn are_written_by_front(
    alloc: Global,
    books: &Books,
    most: u32,
) -> Result<bool, AllocError> {
    let layouts = Layouts::front(alloc, books, most)?;
    let mut writer = RowWriter::new(&layouts);
    look_at_all(alloc, &mut writer, books)?;
    are_written(alloc, &mut writer, books)
}

/// Whether a message of a log type that came after layouts were cut comes back, once it is added to
/// them.
pub(crate) fn comes_later(
    alloc: Global,
    books: &mut Books,
    line: &[u8],
) -> Result<bool, AllocError> {
    if line.len() > MAX_MESSAGE_LEN {
        return Ok(false);
    }
    let mut layouts = Layouts::of(alloc, books)?;
    let Ok(encoded) = encode_message(alloc, line, books) else {
        return Ok(false);
    };
    layouts.extend(books)?;
    let mut writer = RowWriter::new(&layouts);
    appends(alloc, &mut writer, encoded.row.lend(), books, Some(line))
}
