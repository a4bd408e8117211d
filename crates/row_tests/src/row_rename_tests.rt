//! Rows of two books with the numbers of two others.
ghost use Rattle.std.specs.Prelude.{◌≤◌};

use crate::books::Books;
use column_store::RowRef;
use dict_core::BookRefusal;
use row_codec::Which;
use row_rename::{RenameRefusal, RenamedRow, Tables, rename_row};
use std::alloc::Global;

// Books with two log types and two words.
fn first_books(alloc: Global) -> Result<Books, BookRefusal> {
    let mut books = Books::new(alloc, 1, 100);
    books.add_type(b"\x12 done")?;
    books.add_type(b"\x11 \x12")?;
    books.add_word(b"task_1")?;
    books.add_word(b"task_2")?;
    Ok(books)
}

// Books with so many texts at most, of which they have the second log type and the second word.
fn other_books(alloc: Global, limit: u32) -> Result<Books, BookRefusal>
    requires least { 1 ≤ limit }
    requires most { limit ≤ 2147483648 }
{
    let mut books = Books::new(alloc, 1, limit);
    books.add_type(b"\x11 \x12")?;
    books.add_word(b"task_2")?;
    Ok(books)
}

// A row's log type and words, and those of the same row over the other books.
const ROWS: &[(u32, &[u64], u32, &[u64])] = &[
    (1, &[7, 1], 0, &[7, 0]),
    (0, &[1], 1, &[0]),
    (0, &[0], 1, &[1]),
    (1, &[1, 0], 0, &[1, 1]),
];

// The dictionary numbers of those.
const USED: &[u32] = &[0, 0, 1, 1];

// Rows without a log type, with too few words and too many, and with numbers that no word has.
const DAMAGED: &[(u32, &[u64])] = &[
    (2, &[]),
    (1, &[7]),
    (1, &[7, 0, 0]),
    (0, &[2]),
    (0, &[0x1_0000_0000]),
];

fn row_of(log_type: u32, words: &[u64]) -> RowRef<'_> {
    RowRef {
        pattern: 8,
        moment: 5,
        log_type,
        words,
    }
}

// Whether a row is that with this log type and these words.
fn is_row(row: RowRef<'_>, log_type: u32, words: &[u64]) -> bool {
    (row.pattern, row.moment, row.log_type) == (8, 5, log_type) && row.words == words
}

// How many rows up to the first that is not renamed so.
fn renamed(alloc: Global, books: &Books, others: &mut Books) -> Result<usize, RenameRefusal> {
    let mut tables = Tables::new(alloc);
    let mut renamed = RenamedRow::new(alloc);
    for (count, row) in ROWS.iter().enumerate() {
        let &(log_type, words, other_type, other_words) = row;
        let row = row_of(log_type, words);
        rename_row(row, books, &mut tables, others, &mut renamed)?;
        if !is_row(renamed.row(), other_type, other_words) {
            return Ok(count);
        }
    }
    if renamed.used() != USED {
        return Ok(0);
    }
    Ok(ROWS.len())
}

// How many rows up to the first that is not damaged.
fn damaged(alloc: Global, books: &Books, others: &mut Books) -> usize {
    let mut tables = Tables::new(alloc);
    let mut renamed = RenamedRow::new(alloc);
    for (count, row) in DAMAGED.iter().enumerate() {
        let &(log_type, words) = row;
        let row = row_of(log_type, words);
        let answer = rename_row(row, books, &mut tables, others, &mut renamed);
        if answer != Err(RenameRefusal::Damaged) {
            return count;
        }
    }
    DAMAGED.len()
}

fn renamed_in_all(alloc: Global) -> Option<usize> {
    let books = first_books(alloc).ok()?;
    let mut others = other_books(alloc, 100).ok()?;
    renamed(alloc, &books, &mut others).ok()
}

fn damaged_in_all(alloc: Global) -> Option<usize> {
    let books = first_books(alloc).ok()?;
    let mut others = other_books(alloc, 100).ok()?;
    Some(damaged(alloc, &books, &mut others))
}

// What comes of the rows where each of the other books may have one text.
fn full(alloc: Global) -> Option<RenameRefusal> {
    let books = first_books(alloc).ok()?;
    let mut others = other_books(alloc, 1).ok()?;
    renamed(alloc, &books, &mut others).err()
}

#[test]
fn rows_with_other_numbers(rt: HostRuntime) {
    let told = renamed_in_all(rt.alloc());
    assert!(rt; told == Some(ROWS.len()), "{told:?}");
}

#[test]
fn damaged_rows_are_not_renamed(rt: HostRuntime) {
    let told = damaged_in_all(rt.alloc());
    assert!(rt; told == Some(DAMAGED.len()), "{told:?}");
}

#[test]
fn a_full_dictionary(rt: HostRuntime) {
    let told = full(rt.alloc());
    let types = RenameRefusal::Full {
        book: Which::Types,
        count: 1,
    };
    assert!(rt; told == Some(types), "{told:?}");
}
