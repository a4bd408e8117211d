//! Books at their limit and with texts of one hash, and texts without an index.
use crate::telling::holds;
use dict_core::{Book, BookRefusal, IndexRefusal, MAX_TEXTS, NO_NUMBER, TextSlice, Texts};
use plain_list::{Text, TextList};
use std::alloc::{AllocError, Global};
use std::test::Fail;
use turn_lock::Grows;

/// Texts of one hash. The hasher multiplies by the last eight bytes, from each of which a fixed
/// number is taken by exclusive or; at these bytes nothing is left.
static ONE_HASH: [&[u8]; 3] = [
    b"the one \x15\x7c\x4a\x7f\xb9\x79\x37\x9e",
    b"another \x15\x7c\x4a\x7f\xb9\x79\x37\x9e",
    b"the last\x15\x7c\x4a\x7f\xb9\x79\x37\x9e",
];

/// One more text of that hash, which is put in no book.
const NOT_THERE: &[u8] = b"nowhere \x15\x7c\x4a\x7f\xb9\x79\x37\x9e";

/// A text, and what a book of two texts names it.
const NAMED: &[(&[u8], Result<u32, BookRefusal>)] = &[
    (b"\x11 \x12", Ok(0)),
    (b"\x11 \x12", Ok(0)),
    (b"x7", Ok(1)),
    (b"z", Err(BookRefusal::Full { count: 2 })),
    (b"", Err(BookRefusal::Full { count: 2 })),
    (b"x7", Ok(1)),
    (b"\x11 \x12", Ok(0)),
];

/// Whether the book names the text so, and has this number for it then.
fn names(book: &mut Book, text: &[u8], want: Result<u32, BookRefusal>) -> bool {
    book.intern(text) == want && book.number_of(text) == want.ok()
}

/// How many of those texts a book of two names as told.
fn told_names(book: &mut Book) -> usize {
    for (count, row) in NAMED.iter().enumerate() {
        let &(text, want) = row;
        if !names(book, text, want) {
            return count;
        }
    }
    NAMED.len()
}

/// Whether a book of two texts names them, and no more.
fn names_two(book: &mut Book) -> bool {
    told_names(book) == NAMED.len()
        && book.count() == 2
        && book.len() == 2
        && book.text_of(1) == Some(b"x7".as_slice())
        && book.text_of(2) == None
}

fn names_two_anew(alloc: Global) -> bool {
    let mut book = Book::new(alloc, 2);
    names_two(&mut book)
}

#[test]
fn a_book_names_texts_up_to_its_limit(rt: HostRuntime) {
    assert!(rt; names_two_anew(rt.alloc()));
}

/// Whether this is the text alone.
fn is_alone(texts: &TextList, text: &[u8]) -> bool {
    let [one] = texts.as_slice() else {
        return false;
    };
    one.as_slice() == text
}

/// Whether a book of two texts is copied from the second on.
fn is_copied(book: &mut Book) -> Result<bool, AllocError> {
    if !names(book, b"\x11 \x12", Ok(0)) || !names(book, b"x7", Ok(1)) || book.len() != 2 {
        return Ok(false);
    }
    Ok(is_alone(&book.copy_from(1)?, b"x7"))
}

fn is_copied_anew(alloc: Global) -> Result<bool, AllocError> {
    let mut book = Book::new(alloc, 2);
    is_copied(&mut book)
}

#[test]
fn a_book_is_copied_from_a_text_on(rt: HostRuntime) -> Result<(), Fail> {
    holds(is_copied_anew(rt.alloc()))
}

/// Whether the book has no number for this text of one hash before it names it so, and this number
/// then.
fn names_anew(book: &mut Book, text: &[u8], number: u32) -> bool {
    book.number_of(text).is_none() && names(book, text, Ok(number))
}

/// Whether the book names the three texts of one hash.
fn names_three(book: &mut Book) -> bool {
    let [first, second, third] = ONE_HASH;
    names_anew(book, first, 0) && names_anew(book, second, 1) && names_anew(book, third, 2)
}

/// Whether the three texts have numbers of their own, and others none.
fn have_numbers(book: &mut Book) -> bool {
    names_three(book)
        && book.number_of(ONE_HASH[0]) == Some(0)
        && book.number_of(ONE_HASH[1]) == Some(1)
        && book.number_of(ONE_HASH[2]) == Some(2)
        && book.number_of(NOT_THERE) == None
        && book.number_of(b"other") == None
}

fn have_numbers_anew(alloc: Global) -> bool {
    let mut book = Book::new(alloc, 8);
    have_numbers(&mut book)
}

#[test]
fn texts_of_one_hash_have_numbers_of_their_own(rt: HostRuntime) {
    assert!(rt; have_numbers_anew(rt.alloc()));
}

/// These texts without a book.
fn list_of(alloc: Global, rows: &[&[u8]]) -> Result<TextList, AllocError> {
    let mut list = Vec::with_capacity(alloc, rows.len())?;
    for row in rows {
        list.push(Text::new(Vec::from_slice(alloc, row)?))?;
    }
    Ok(TextList::new(list))
}

/// Whether the book has these numbers for the texts.
fn has_all(
    alloc: Global,
    book: &mut Book,
    texts: &TextList,
    want: &[u32],
) -> Result<bool, AllocError> {
    let mut numbers = Vec::with_capacity(alloc, texts.count())?;
    book.numbers_of(texts, &mut numbers);
    Ok(numbers.as_slice() == want)
}

/// Whether the book of the three looks up many texts in order.
fn looks_up(alloc: Global, book: &mut Book) -> Result<bool, AllocError> {
    let [first, second, third] = ONE_HASH;
    let rows = [third, NOT_THERE, first, b"other", second, third];
    let texts = list_of(alloc, &rows)?;
    if !names_three(book) {
        return Ok(false);
    }
    has_all(alloc, book, &texts, &[2, NO_NUMBER, 0, NO_NUMBER, 1, 2])
}

fn looks_up_anew(alloc: Global) -> Result<bool, AllocError> {
    let mut book = Book::new(alloc, 8);
    looks_up(alloc, &mut book)
}

#[test]
fn many_texts_are_looked_up_in_order(rt: HostRuntime) -> Result<(), Fail> {
    holds(looks_up_anew(rt.alloc()))
}

/// Whether the book names the text so, and finds it by its number then.
fn names_and_finds(book: &mut Book, text: &[u8], number: u32) -> bool {
    names(book, text, Ok(number)) && book.text_of(number) == Some(text)
}

/// Whether the book of the three, cut short, goes on from there.
fn goes_on(book: &mut Book) -> bool {
    if !names_three(book) {
        return false;
    }
    book.truncate(1);
    let named = names_and_finds(book, ONE_HASH[2], 1)
        && names_and_finds(book, ONE_HASH[0], 0)
        && names_and_finds(book, b"other", 2)
        && names_and_finds(book, ONE_HASH[1], 3);
    book.truncate(0);
    named && book.number_of(ONE_HASH[0]) == None && book.intern(b"other") == Ok(0)
}

fn goes_on_anew(alloc: Global) -> bool {
    let mut book = Book::new(alloc, 8);
    goes_on(&mut book)
}

#[test]
fn a_book_that_was_cut_short_goes_on(rt: HostRuntime) {
    assert!(rt; goes_on_anew(rt.alloc()));
}

/// Adds the texts, as far as there is room.
fn add_all(texts: &mut Texts, rows: &[&[u8]]) -> Result<(), AllocError> {
    for row in rows {
        if texts.len() < MAX_TEXTS {
            texts.push(row)?;
        }
    }
    Ok(())
}

fn texts_of(alloc: Global, rows: &[&[u8]]) -> Result<Texts, AllocError> {
    let mut texts = Texts::new(alloc);
    add_all(&mut texts, rows)?;
    Ok(texts)
}

const TEXTS: &[&[u8]] = &[b"aab", b"ab", b"", b"b", b"ab", b"abcab", b"cab"];

/// A text, and its number among those.
const NUMBERS: &[(&[u8], Option<u32>)] = &[
    (b"aab", Some(0)),
    (b"ab", Some(1)),
    (b"", Some(2)),
    (b"b", Some(3)),
    (b"abcab", Some(5)),
    (b"cab", Some(6)),
    (b"a", None),
    (b"ba", None),
    (b"bab", None),
    (b"abcabcab", None),
];

/// Whether the text has this number, by which it is found.
fn has_number(texts: &Texts, text: &[u8], want: Option<u32>) -> bool {
    let found = match want {
        Some(number) => texts.text_of(number) == Some(text),
        None => true,
    };
    found && texts.number_of(text) == want
}

/// How many of those texts have their numbers.
fn found_texts(texts: &Texts) -> usize {
    for (count, row) in NUMBERS.iter().enumerate() {
        let &(text, number) = row;
        if !has_number(texts, text, number) {
            return count;
        }
    }
    NUMBERS.len()
}

fn are_found(alloc: Global) -> Result<bool, AllocError> {
    let texts = texts_of(alloc, TEXTS)?;
    Ok(found_texts(&texts) == NUMBERS.len() && texts.text_of(7) == None)
}

#[test]
fn texts_are_found_by_their_bytes(rt: HostRuntime) -> Result<(), Fail> {
    holds(are_found(rt.alloc()))
}

/// How many texts of those stand behind the first four.
fn behind_four(alloc: Global) -> Result<usize, AllocError> {
    let texts = texts_of(alloc, TEXTS)?;
    if texts.len() != 7 {
        return Ok(0);
    }
    Ok(texts.copy_from(alloc, 4)?.as_slice().len())
}

/// Why they are no book.
fn no_book(alloc: Global) -> Result<Option<IndexRefusal>, AllocError> {
    let texts = texts_of(alloc, TEXTS)?;
    if texts.len() != 7 {
        return Ok(None);
    }
    Ok(Book::from_texts(alloc, texts, 7).err())
}

fn are_no_book(alloc: Global) -> Result<bool, AllocError> {
    let repeated = Some(IndexRefusal::Repeated { number: 4 });
    Ok(behind_four(alloc)? == 3 && no_book(alloc)? == repeated)
}

#[test]
fn texts_with_a_repeated_one_are_no_book(rt: HostRuntime) -> Result<(), Fail> {
    holds(are_no_book(rt.alloc()))
}

/// Whether the book of the three texts names one more, up to its limit.
fn names_a_fourth(book: &mut Book) -> bool {
    book.intern(ONE_HASH[1]) == Ok(1)
        && book.intern(ONE_HASH[2]) == Ok(2)
        && book.intern(b"new") == Ok(3)
        && book.intern(b"newer") == Err(BookRefusal::Full { count: 4 })
        && book.intern(ONE_HASH[0]) == Ok(0)
}

/// Whether a book that is made of the texts goes on with them.
fn goes_on_with(alloc: Global, texts: Texts) -> bool {
    if texts.len() != 3 {
        return false;
    }
    match Book::from_texts(alloc, texts, 4) {
        Ok(mut book) => names_a_fourth(&mut book),
        Err(_) => false,
    }
}

fn three_go_on(alloc: Global) -> Result<bool, AllocError> {
    Ok(goes_on_with(alloc, texts_of(alloc, &ONE_HASH)?))
}

#[test]
fn a_book_of_texts_goes_on_with_them(rt: HostRuntime) -> Result<(), Fail> {
    holds(three_go_on(rt.alloc()))
}
