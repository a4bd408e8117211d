//! The marks of words, by the numbers of those in which tokens stand.
ghost use Rattle.std.specs.Prelude.{◌≡◌, ◌<◌, ◌^◌, ℕ, [], IfOk, IsTrue, OnOk, bit_and, bit_or, length, set, slice_index_or};
ghost use Rattle.subquery_filter.specs.Filter.{Has, marks_at};
ghost use Rattle.subquery_filter.specs.StepsFilter.{HasAt, HasLists, KeepsBits};

use crate::bits::{any_of, mark_at};
use crate::token::Token;
use plain_list::NumberList;
use std::alloc::{AllocError, Global};

/// How many places there are for each number that is marked, at least.
const SPREAD: u64 = 1024;

/// How many places there are at least, but one.
const LEAST: u64 = 1_048_575;

/// The marks of words: those of a number stand behind its low bits. So a number that is not marked
/// may seem so, which is rare, and none that is marked seems not to be.
#[derive(Debug, Drop)]
pub(crate) struct WordMarks {
    table: Vec<u8>,
    /// The bits of a number that tell its place.
    mask: u64,
}

/// The bits by which so many numbers are told, with few of others that seem to be among them.
fn mask_for(count: u64) -> u64 {
    let mut mask = count.saturating_mul(SPREAD) | LEAST;
    for shift in [1, 2, 4, 8, 16, 32] {
        mask |= mask >> shift;
    }
    mask
}

/// How many numbers are listed.
fn count_all(lists: &[NumberList]) -> u64 {
    let mut count: u64 = 0;
    for list in lists {
        count = count.saturating_add(list.len() as u64);
    }
    count
}

/// Makes the table so long that it has a place, with zeros behind it.
fn make_room(table: &mut Vec<u8>, place: usize) -> Result<(), AllocError>
    requires { place < 2 ^ 32 }
    ensures room { OnOk result (place < length table.new.items) }
    ensures same { OnOk result ((at : ℕ)
        → slice_index_or table.new.items at 0 ≡ slice_index_or table.old.items at 0) }
{
    if table.len() <= place {
        table.resize(place + 1, 0)?;
    }
    Ok(())
}

/// Adds a bit at a place.
fn set_bit(table: &mut Vec<u8>, place: usize, bit: u8)
    requires { place < length table.old.items }
    ensures { table.new.items
        ≡ set table.old.items place (bit_or (slice_index_or table.old.items place 0) bit) }
{
    table[place] |= bit;
}

/// The place of a number's marks.
fn place_of(number: u32, mask: u64) -> usize
    ensures is { result ≡ bit_and number mask }
    ensures low { result < 2 ^ 32 }
{
    (u64::from(number) & mask) as usize
}

/// Adds the bit of a token behind the low bits of a number.
fn add_number(table: &mut Vec<u8>, mask: u64, bit: u8, number: u32) -> Result<(), AllocError>
    ensures added { OnOk result
        (Has (slice_index_or table.new.items (bit_and number mask) 0) bit) }
    ensures keeps { OnOk result (KeepsBits table.old.items table.new.items) }
{
    let place = place_of(number, mask);
    make_room(table, place)?;
    set_bit(table, place, bit);
    Ok(())
}

/// Adds the bit of a token behind the low bits of each of these numbers.
fn add_numbers(table: &mut Vec<u8>, mask: u64, bit: u8, numbers: &[u32]) -> Result<(), AllocError>
    ensures added { OnOk result (HasAt table.new.items mask bit numbers.now) }
    ensures keeps { OnOk result (KeepsBits table.old.items table.new.items) }
{
    for number in numbers {
        add_number(table, mask, bit, *number)?;
    }
    Ok(())
}

/// Adds the bit of a token behind the numbers of the list at its place.
fn add_list(
    table: &mut Vec<u8>,
    mask: u64,
    token: &Token,
    lists: &[NumberList],
    place: usize,
) -> Result<(), AllocError>
    ensures added { OnOk result (HasAt table.new.items mask token.now.bit
        (slice_index_or lists.now place [])) }
    ensures keeps { OnOk result (KeepsBits table.old.items table.new.items) }
{
    let Some(list) = lists.get(place) else {
        return Ok(());
    };
    add_numbers(table, mask, token.bit, list.as_slice())?;
    Ok(())
}

/// Adds the bits of all tokens behind the numbers of their lists.
fn add_lists(
    table: &mut Vec<u8>,
    mask: u64,
    tokens: &[Token],
    lists: &[NumberList],
) -> Result<(), AllocError>
    ensures { OnOk result (HasLists table.new.items mask tokens.now lists.now) }
{
    for place in 0..tokens.len() {
        add_list(table, mask, &tokens[place], lists, place)?;
    }
    Ok(())
}

impl WordMarks {
    /// No marks.
    pub(crate) fn none(alloc: Global) -> WordMarks
        ensures { (n : ℕ) → marks_at result n ≡ 0 }
    {
        WordMarks {
            table: Vec::new(alloc),
            mask: 0,
        }
    }

    /// The marks of the words with the numbers of these lists, one list for each token.
    pub(crate) fn of(
        alloc: Global,
        tokens: &[Token],
        lists: &[NumberList],
    ) -> Result<WordMarks, AllocError>
        ensures { IfOk result (λ marks.
            HasLists marks.table.items marks.mask tokens.now lists.now) }
    {
        let mask = mask_for(count_all(lists));
        let mut table = Vec::new(alloc);
        add_lists(&mut table, mask, tokens, lists)?;
        Ok(WordMarks { table, mask })
    }

    /// The marks of all numbers.
    pub(crate) fn all(&self) -> u8
        ensures { (n : ℕ) → Has result (marks_at self.now n) }
    {
        any_of(self.table.as_slice())
    }

    /// Whether there are none.
    #[inline]
    pub(crate) fn is_empty(&self) -> bool
        ensures { IsTrue result → (n : ℕ) → marks_at self.now n ≡ 0 }
    {
        self.table.as_slice().is_empty()
    }

    /// The marks of a number.
    #[inline]
    pub(crate) fn at(&self, number: u64) -> u8
        ensures { result ≡ marks_at self.now number }
    {
        mark_at(self.table.as_slice(), number & self.mask)
    }
}
