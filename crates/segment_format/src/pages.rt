//! The columns of a segment by pages, so that a search holds few rows at a time.

ghost use Rattle.std.specs.Prelude.{◌≡◌, ◌<◌, ◌≤◌, ◌+◌, ◌*◌, ◌%◌, ◌^◌, ℕ, List, length, All, sum, IsTrue, IfSome, IsNone, IfOk, OnErr, IsErrOf};
ghost use Rattle.std.specs.List.{flat_map};
ghost use Rattle.record_format.specs.Lists.{four_bytes};
ghost use Rattle.column_store.specs.declared.row.Row.{Row};
ghost use Rattle.segment_format.specs.Layout.{IsHead};
ghost use Rattle.segment_format.specs.Pages.{first_page, HasPages, page_rows, pieces, FitsPage, IsPage, after, passed};

use crate::ask::PageAsk;
use crate::columns::{ROW_LEN, WORD_LEN, columns_in};
use crate::head::Head;
use byteorder::{ByteOrder, LittleEndian};
use column_store::Columns;
use record_format::FormatRefusal;
use std::alloc::Global;
use std::marker::Model;
use std::sync::ledger::Ledger;
use step_count::Steps;

/// How many rows a page has. The last one of a segment has the rest.
pub const PAGE_ROWS: u32 = 4_096;

/// How many bytes a row takes in the columns before its count.
const COUNTS_AT: usize = 13;

/// How many bytes a row's count takes.
const COUNT_LEN: usize = 4;

/// The sum of the numbers of four bytes each.
fn sum_in(bytes: &[u8]) -> u64
    requires whole { length bytes.now % 4 ≡ 0 }
    requires few { length bytes.now ≤ 16384 }
    ensures { (ns : List ℕ) × All (λ n. n < 2 ^ 32) ns
        × (bytes.now ≡ flat_map four_bytes ns) × (result ≡ sum ns) }
{
    let mut total = 0;
    for place in 0..bytes.len() / 4 {
        total += u64::from(LittleEndian::read_u32(&bytes[4 * place..]));
    }
    total
}

/// Reads the columns of a segment page by page. It holds where it stands, and no rows.
#[derive(Debug, Drop)]
pub struct PageReader {
    /// How many bytes the head has.
    start: u64,
    /// How many rows the segment has.
    rows: u32,
    /// How many variables the segment has.
    variables: u32,
    /// How many rows the pages before had.
    row: u32,
    /// How many variables the pages before had.
    variable: u32,
}

impl Model for PageReader {
    ghost use Rattle.segment_format.specs.Pages.{Pages, pages_at, ArePages};

    ghost Value = { Pages };

    ghost view = { λ p. pages_at p.start p.rows p.variables p.row p.variable };

    ghost invariant = { λ p. ArePages (pages_at p.start p.rows p.variables p.row p.variable) };
}

/// A reader of the pages of a segment whose payload has so many bytes. None where they are not as many as
/// the head says, or there are variables without rows. It ticks once, and takes no memory.
pub fn open_pages<L: Ledger>(head: &Head, payload: u64, steps: &mut Steps<L>) -> Option<PageReader>
    requires { IsHead head.now }
    ensures first { IfSome result (λ p. p ≡ first_page head.now) }
    ensures some { IfSome result (λ _. HasPages head.now payload) }
    ensures none { IsNone result → HasPages head.now payload → ⊥ }
    ensures steps { steps.new ≡ steps.old + 1 }
{
    steps.tick();
    let start = head.fixed().head_len();
    let columns = ROW_LEN * u64::from(head.rows) + WORD_LEN * u64::from(head.variables);
    if payload != start + columns || (head.rows == 0 && head.variables != 0) {
        return None;
    }
    Some(PageReader {
        start,
        rows: head.rows,
        variables: head.variables,
        row: 0,
        variable: 0,
    })
}

impl PageReader {
    /// Another reader that stands where this one does.
    pub fn again(&self) -> PageReader
        ensures { result ≡ self.now }
    {
        PageReader {
            start: self.start,
            rows: self.rows,
            variables: self.variables,
            row: self.row,
            variable: self.variable,
        }
    }

    /// How many rows the next page has, 0 after the last.
    fn page_rows(&self) -> u32
        ensures { result ≡ page_rows self.now }
    {
        PAGE_ROWS.min(self.rows - self.row)
    }

    /// Whether the next page may have so many variables.
    fn takes(&self, count: u64) -> bool
        requires { self.now.row < self.now.rows }
        ensures yes { IsTrue result → FitsPage self.now count }
        ensures no { FitsPage self.now count → IsTrue result }
        ensures small { IsTrue result → count < 2 ^ 32 }
        ensures few { self.now.variables < 2 ^ 32 }
    {
        let left = u64::from(self.variables - self.variable);
        if self.rows - self.row <= PAGE_ROWS {
            count == left
        } else {
            count <= left
        }
    }

    /// The pieces of the next page, and none exactly after the last.
    pub fn ask(&self) -> Option<PageAsk>
        ensures some { IfSome result (λ a. a ≡ pieces self.now) }
        ensures left { IfSome result (λ _. self.now.row < self.now.rows) }
        ensures none { IsNone result → self.now.rows ≤ self.now.row }
    {
        if self.row == self.rows {
            return None;
        }
        let (rows, row) = (u64::from(self.rows), u64::from(self.row));
        Some(PageAsk {
            rows: self.page_rows(),
            patterns: self.start + row,
            moments: self.start + rows + 8 * row,
            types: self.start + 9 * rows + 4 * row,
            counts: self.start + 13 * rows + 4 * row,
            variables: self.start + ROW_LEN * rows + WORD_LEN * u64::from(self.variable),
        })
    }

    /// How many variables the next page has, by its counts.
    fn words_by(&self, counts: &[u8]) -> Option<u32>
        requires left { self.now.row < self.now.rows }
        requires counts { length counts.now ≡ 4 * page_rows self.now }
        ensures some { IfSome result (λ n. (ns : List ℕ) × All (λ k. k < 2 ^ 32) ns
            × (counts.now ≡ flat_map four_bytes ns) × FitsPage self.now (sum ns) × (n ≡ sum ns)) }
        ensures none { IsNone result → (ns : List ℕ) → All (λ k. k < 2 ^ 32) ns
            → counts.now ≡ flat_map four_bytes ns → FitsPage self.now (sum ns) → ⊥ }
        ensures few { self.now.variables < 2 ^ 32 }
    {
        let count = sum_in(counts);
        if self.takes(count) {
            Some(count as u32)
        } else {
            None
        }
    }

    /// How many bytes the variables of the next page have, by its counts. None exactly where they are more
    /// than are left, or this is the last page and they are not all of them.
    pub fn variable_bytes(&self, counts: &[u8]) -> Option<u64>
        requires left { self.now.row < self.now.rows }
        requires counts { length counts.now ≡ 4 * page_rows self.now }
        ensures some { IfSome result (λ n. (ns : List ℕ) × All (λ k. k < 2 ^ 32) ns
            × (counts.now ≡ flat_map four_bytes ns) × FitsPage self.now (sum ns)
            × (n ≡ 8 * sum ns)) }
        ensures none { IsNone result → (ns : List ℕ) → All (λ k. k < 2 ^ 32) ns
            → counts.now ≡ flat_map four_bytes ns → FitsPage self.now (sum ns) → ⊥ }
    {
        let words = self.words_by(counts)?;
        Some(WORD_LEN * u64::from(words))
    }

    /// The rows of the next page, whose five pieces joined are these bytes. `Malformed` comes exactly where
    /// the bytes are not the columns of rows that may be the next page. A refusal changes nothing.
    pub fn next_page(&mut self, alloc: Global, bytes: &[u8]) -> Result<Columns, FormatRefusal>
        requires { self.old.row < self.old.rows }
        ensures page { IfOk result (λ c. IsPage self.old bytes.now c.rows) }
        ensures after { IfOk result (λ c. self.new ≡ after self.old c.rows) }
        ensures malformed { IsErrOf result FormatRefusal.Malformed
            → (rows : List Row) → IsPage self.old bytes.now rows → ⊥ }
        ensures err { OnErr result (self.new ≡ self.old) }
    {
        self.fill_page(Columns::new(alloc), bytes)
    }

    /// Reads the next page into the memory of columns that are no longer needed. A refusal lets go of
    /// them, and leaves the reader as it was.
    pub fn fill_page(&mut self, columns: Columns, bytes: &[u8]) -> Result<Columns, FormatRefusal>
        requires { self.old.row < self.old.rows }
        ensures page { IfOk result (λ c. IsPage self.old bytes.now c.rows) }
        ensures after { IfOk result (λ c. self.new ≡ after self.old c.rows) }
        ensures malformed { IsErrOf result FormatRefusal.Malformed
            → (rows : List Row) → IsPage self.old bytes.now rows → ⊥ }
        ensures err { OnErr result (self.new ≡ self.old) }
    {
        let rows = self.page_rows();
        let words = self.words_in(rows, bytes)?;
        let page = columns_in(columns.into_arrays(), rows, words, bytes)?;
        self.row += rows;
        self.variable += words;
        Ok(page)
    }

    /// Passes the next page by its counts, and tells how many rows it has. None exactly where they say more
    /// variables than are left, or this is the last page and they are not all of them: then it changes
    /// nothing.
    pub fn pass_page(&mut self, counts: &[u8]) -> Option<u32>
        requires left { self.old.row < self.old.rows }
        requires counts { length counts.now ≡ 4 * page_rows self.old }
        ensures rows { IfSome result (λ n. n ≡ page_rows self.old) }
        ensures some { IfSome result (λ _. (ns : List ℕ) × All (λ k. k < 2 ^ 32) ns
            × (counts.now ≡ flat_map four_bytes ns) × FitsPage self.old (sum ns)
            × (self.new ≡ passed self.old (sum ns))) }
        ensures none { IsNone result → (ns : List ℕ) → All (λ k. k < 2 ^ 32) ns
            → counts.now ≡ flat_map four_bytes ns → FitsPage self.old (sum ns) → ⊥ }
        ensures kept { IsNone result → self.new ≡ self.old }
    {
        let words = self.words_by(counts)?;
        let rows = self.page_rows();
        self.row += rows;
        self.variable += words;
        Some(rows)
    }

    /// How many variables the next page has, which has so many rows and these bytes.
    fn words_in(&self, rows: u32, bytes: &[u8]) -> Result<u32, FormatRefusal>
        requires left { self.now.row < self.now.rows }
        requires rows { rows ≡ page_rows self.now }
        ensures length { IfOk result (λ n. length bytes.now ≡ 17 * rows + 8 * n) }
        ensures fits { IfOk result (λ n. FitsPage self.now n) }
        ensures malformed { IsErrOf result FormatRefusal.Malformed
            → (list : List Row) → IsPage self.now bytes.now list → ⊥ }
    {
        let rows = rows as usize;
        if bytes.len() < ROW_LEN as usize * rows {
            return Err(FormatRefusal::Malformed);
        }
        let (_, behind) = bytes.split_at(COUNTS_AT * rows);
        let (counts, words) = behind.split_at(COUNT_LEN * rows);
        let Some(count) = self.words_by(counts) else {
            return Err(FormatRefusal::Malformed);
        };
        if words.len() as u64 != WORD_LEN * u64::from(count) {
            return Err(FormatRefusal::Malformed);
        }
        Ok(count)
    }
}
