//! Rows in columns: one array for each field.

ghost use Rattle.std.specs.Prelude.{◌≡◌, ◌<◌, ◌≤◌, ◌+◌, ◌^◌, ◌++◌, ◌↔◌, [], ◌∷◌, List, All, length, map, slice_get, slice_range, Some, IsTrue, OnOk, OnErr, IfSome, IsNone};
ghost use Rattle.std.specs.Int.{w64};
ghost use Rattle.std.specs.Int.RustNames.{FitsSigned};
ghost use Rattle.std.specs.List.{flat_map};
ghost use Rattle.column_store.specs.Row.{row_of, variable_count, IsRow};
ghost use Rattle.column_store.specs.Columns.{AreArraysOf, IsFull, ends_from};
ghost use Rattle.column_store.specs.declared.row.Row.{Row};

use crate::arrays::Arrays;
use crate::row::RowRef;
use crate::sums::{counts_to_ends, ends_to_counts, start_at};
use std::alloc::{AllocError, Global};
use std::marker::Model;

/// How many variables a segment has at most before it is cut.
const FULL_VARIABLES: u32 = 1_048_576;

/// How many bytes the messages of a segment have at most before it is cut.
const FULL_BYTES: u64 = 16_777_216;

/// Each moment fits its type. It does nothing.
fn moments_fit(moments: &[i64])
    ensures { All (λ m. FitsSigned w64 m) moments.now }
{
    for moment in moments {
        let _value = *moment;
    }
}

/// Each number fits its type. It does nothing.
fn numbers_fit(patterns: &[u8], types: &[u32], words: &[u64])
    ensures patterns { All (λ p. p < 2 ^ 8) patterns.now }
    ensures types { All (λ t. t < 2 ^ 32) types.now }
    ensures words { All (λ w. w < 2 ^ 64) words.now }
{
    let _ = patterns;
    let _ = types;
    let _ = words;
}

/// The words from a place up to another.
fn words_within(words: &[u64], start: usize, end: usize) -> &[u64]
    requires start { start ≤ end }
    requires end { end ≤ length words.now }
    ensures { result.now ≡ slice_range words.now start end }
{
    &words[start..end]
}

/// Rows in columns. Contracts see a list of rows, and how many bytes their messages have.
#[derive(Debug, Drop)]
pub struct Columns {
    patterns: Vec<u8>,
    moments: Vec<i64>,
    types: Vec<u32>,
    /// Where the words of each row end. They begin where those of the row before it end.
    ends: Vec<u32>,
    words: Vec<u64>,
    /// How many bytes the messages of the rows have.
    bytes: u64,
}

impl Model for Columns {
    ghost use Rattle.column_store.specs.Columns.{ColumnsState};
    ghost use Rattle.column_store.specs.Places.{AreColumns, rows_of};

    ghost Value = { ColumnsState };

    ghost view = { λ c. record {
      rows = rows_of c.patterns.items c.moments.items c.types.items c.ends.items c.words.items;
      bytes = c.bytes;
    } };

    ghost invariant = { λ c. AreColumns c.patterns.items c.moments.items c.types.items
        c.ends.items c.words.items c.bytes };
}

impl Columns {
    /// Columns without rows. Takes no memory.
    pub fn new(alloc: Global) -> Columns
        ensures rows { result.rows ≡ [] }
        ensures bytes { result.bytes ≡ 0 }
    {
        Columns {
            patterns: Vec::new(alloc),
            moments: Vec::new(alloc),
            types: Vec::new(alloc),
            ends: Vec::new(alloc),
            words: Vec::new(alloc),
            bytes: 0,
        }
    }

    /// Adds a row, whose message has so many bytes. A refusal changes nothing.
    pub fn push(&mut self, row: RowRef<'_>, bytes: u64) -> Result<(), AllocError>
        requires rows { length self.old.rows < 4294967295 }
        requires variables { variable_count self.old.rows + length row.words.now < 4294967296 }
        requires bytes { bytes ≤ 1048576 }
        ensures rows { OnOk result (self.new.rows ≡ self.old.rows ++ row_of row.entry ∷ []) }
        ensures bytes { OnOk result (self.new.bytes ≡ self.old.bytes + bytes) }
        ensures err { OnErr result (self.new ≡ self.old) }
    {
        let RowRef {
            pattern,
            moment,
            log_type,
            words,
        } = row;
        self.patterns.reserve(1)?;
        self.moments.reserve(1)?;
        self.types.reserve(1)?;
        self.ends.reserve(1)?;
        self.words.extend_from_slice(words)?;
        self.patterns.push_reserved(pattern);
        self.moments.push_reserved(moment);
        self.types.push_reserved(log_type);
        self.ends.push_reserved(self.words.len() as u32);
        self.bytes += bytes;
        Ok(())
    }

    /// How many rows there are.
    pub fn rows(&self) -> u32
        ensures { result ≡ length self.now.rows }
    {
        self.patterns.len() as u32
    }

    /// How many variables the rows have in all.
    pub fn variables(&self) -> u32
        ensures { result ≡ variable_count self.now.rows }
    {
        self.words.len() as u32
    }

    /// The row at a place, from 0.
    pub fn row(&self, place: u32) -> RowRef<'_>
        requires { place < length self.now.rows }
        ensures { slice_get self.now.rows place ≡ Some (row_of result) }
    {
        let place = place as usize;
        let start = start_at(&self.ends, place);
        RowRef {
            pattern: self.patterns[place],
            moment: self.moments[place],
            log_type: self.types[place],
            words: words_within(&self.words, start, self.ends[place] as usize),
        }
    }

    /// The numbers of each row fit their fields, for callers that have to show it. It does nothing.
    pub fn rows_fit(&self)
        ensures { All IsRow self.now.rows }
    {
        moments_fit(&self.moments);
        numbers_fit(&self.patterns, &self.types, &self.words);
    }

    /// Takes all rows out. The arrays keep their room.
    pub fn clear(&mut self)
        ensures rows { self.new.rows ≡ [] }
        ensures bytes { self.new.bytes ≡ 0 }
    {
        self.patterns.clear();
        self.moments.clear();
        self.types.clear();
        self.ends.clear();
        self.words.clear();
        self.bytes = 0;
    }

    /// Whether a segment is cut behind these rows, where it has so many rows at most.
    pub fn full(&self, limit: u32) -> bool
        ensures { IsTrue result ↔ IsFull self.now limit }
    {
        self.rows() >= limit || self.variables() >= FULL_VARIABLES || self.bytes >= FULL_BYTES
    }

    /// The pattern of each row.
    pub fn patterns(&self) -> &[u8]
        ensures { result.now ≡ map (λ r. r.pattern) self.now.rows }
    {
        self.patterns.as_slice()
    }

    /// The moment of each row.
    pub fn moments(&self) -> &[i64]
        ensures { result.now ≡ map (λ r. r.moment) self.now.rows }
    {
        self.moments.as_slice()
    }

    /// The log type's number of each row.
    pub fn types(&self) -> &[u32]
        ensures { result.now ≡ map (λ r. r.log_type) self.now.rows }
    {
        self.types.as_slice()
    }

    /// Where the words of each row end among the words of all rows.
    pub fn ends(&self) -> &[u32]
        ensures { result.now ≡ ends_from 0 self.now.rows }
    {
        self.ends.as_slice()
    }

    /// The words of all rows, those of the first row first.
    pub fn words(&self) -> &[u64]
        ensures { result.now ≡ flat_map (λ r. r.words) self.now.rows }
    {
        self.words.as_slice()
    }

    /// The columns that have these arrays, and none where no rows have them: where the arrays of the
    /// rows' fields are not of one length, or the counts do not add up to the words. How long the
    /// messages are is not known of them, and counts as 0. Takes no memory.
    pub fn from_arrays(arrays: Arrays) -> Option<Columns>
        ensures rows { IfSome result (λ c. AreArraysOf c.rows arrays) }
        ensures bytes { IfSome result (λ c. c.bytes ≡ 0) }
        ensures none { IsNone result → (rows : List Row) → length rows < 4294967296
            → variable_count rows < 4294967296 → AreArraysOf rows arrays → ⊥ }
    {
        let Arrays {
            patterns,
            moments,
            types,
            counts,
            words,
        } = arrays;
        let rows = patterns.len();
        if rows > u32::MAX as usize
            || moments.len() != rows
            || types.len() != rows
            || counts.len() != rows
        {
            return None;
        }
        let (ends, total) = counts_to_ends(counts)?;
        if words.len() != total as usize {
            return None;
        }
        Some(Columns {
            patterns,
            moments,
            types,
            ends,
            words,
            bytes: 0,
        })
    }

    /// The arrays of the rows, with their room. Takes no memory.
    pub fn into_arrays(self) -> Arrays
        ensures { AreArraysOf self.rows result }
    {
        let Columns {
            patterns,
            moments,
            types,
            ends,
            words,
            bytes: _,
        } = self;
        Arrays {
            patterns,
            moments,
            types,
            counts: ends_to_counts(ends),
            words,
        }
    }
}
