//! A segment's pages on a disk.
ghost use Rattle.std.specs.Prelude.{◌≡◌, ◌≤◌, ◌<◌, ◌+◌, ◌-◌, ℕ, List, [], length, IfOk, OnOk, OnErr, IfSome, IsNone, IsErrOf, IsTrue, IsFalse};
ghost use Rattle.log_seams.specs.Outside.{CountsOf};
ghost use Rattle.column_store.specs.declared.row.Row.{Row};
ghost use Rattle.segment_format.specs.Pages.{page_rows};
ghost use Rattle.segment_pages.specs.Paged.{AreBehindTold, AreNextTold, AreTypesTold, HoldsLeft, HoldsNoneTold, HoldsSegment, OfRows, ReadsColumns, moments_in, paged_after, paged_end, paged_first, paged_passed, part, patterns_in, types_in};

use crate::columns::{ask_of, fill_moments, fill_numbers, read_part, rows_behind};
use crate::heads::is_head;
use crate::loading::load;
use crate::refusal::PageRefusal;
use column_store::Columns;
use log_seams::Disk;
use segment_format::{Head, PageReader, open_pages};
use std::marker::Model;
use std::sync::ledger::Ledger;
use step_count::Steps;

/// Reads the rows of a segment from a disk, a page at a time. It holds where it stands, and no rows.
#[derive(Debug, Drop)]
pub struct SegmentPages {
    /// The place of the payload's first byte.
    at: u64,
    /// Which page is next.
    pages: PageReader,
    /// Whether all rows were passed.
    passed: bool,
}

impl Model for SegmentPages {
    ghost use Rattle.std.specs.Prelude.{◌<◌, ◌+◌, ◌^◌};
    ghost use Rattle.segment_pages.specs.Paged.{Paged, paged, payload_size};
    ghost use Rattle.segment_pages.specs.StepsLoaded.{passing};

    ghost Value = { Paged };

    ghost view = { λ p. paged p.at (passing p.passed p.pages) };

    ghost invariant = { λ p. (p.at + payload_size p.pages < 2 ^ 64)
        × (p.pages.variables < 2 ^ 32) × (p.pages.rows < 2 ^ 32) };
}

impl SegmentPages {
    /// A reader before the first page of a segment, whose payload has so many bytes and begins at a
    /// place of the disk. None where no bytes hold a segment with this head there. It ticks once,
    /// reads nothing, and takes no memory.
    pub fn open<L: Ledger>(
        at: u64,
        length: u64,
        head: &Head,
        steps: &mut Steps<L>,
    ) -> Option<SegmentPages>
        // by the answer
        ensures first { IfSome result (λ p. p ≡ paged_first at head.now) }
        ensures ticked { IfSome result (λ _. steps.new ≡ steps.old + 1) }
        ensures holds { IfSome result (λ p. (bytes : List ℕ) (rows : List Row)
            → HoldsSegment at length head.now bytes rows → HoldsLeft p bytes rows) }
        ensures none { IsNone result → (bytes : List ℕ) (rows : List Row)
            → ¬ HoldsSegment at length head.now bytes rows }

        // in any case
        ensures most { steps.new ≤ steps.old + 1 }
    {
        if length > u64::MAX - at || !is_head(head) {
            return None;
        }
        let pages = open_pages(head, length, steps)?;
        Some(SegmentPages {
            at,
            pages,
            passed: false,
        })
    }

    /// Another reader that stands where this one does.
    pub fn again(&self) -> SegmentPages
        ensures { result ≡ self.now }
    {
        SegmentPages {
            at: self.at,
            pages: self.pages.again(),
            passed: self.passed,
        }
    }

    /// Whether a page is left.
    pub fn has_next(&self) -> bool
        ensures yes { IsTrue result → self.now.pages.row < self.now.pages.rows }
        ensures no { IsFalse result → self.now.pages.rows ≤ self.now.pages.row }
    {
        ask_of(self.passed, &self.pages).is_some()
    }

    /// Reads the rows of the next page, by five reads at most. The buffer holds the bytes of the page
    /// meanwhile, and the columns lend the memory of the rows: both serve for any number of pages,
    /// and what they had is lost. A page has 4,096 rows, and the last one of a segment the rest.
    ///
    /// # Errors
    ///
    /// `DiskFault`, where the disk's count of faults rose; `Damaged`, where its bytes hold no
    /// further rows; or `OutOfMemory`.
    pub fn next_page<D: Disk>(
        &mut self,
        disk: &mut D,
        buffer: &mut Vec<u8>,
        columns: Columns,
    ) -> Result<Columns, PageRefusal>
        requires { self.old.pages.row < self.old.pages.rows }

        // what stays
        ensures reads { ReadsColumns self.old (D.state disk.old) (D.state disk.new) }
        ensures kept { OnErr result (self.new ≡ self.old) }

        // by the answer
        ensures page { IfOk result (λ c.
            AreNextTold (D.state disk.old).seen self.old self.new c.rows) }
        ensures after { IfOk result (λ c. self.new ≡ paged_after self.old c.rows) }
        ensures count { IfOk result (λ c. length c.rows ≡ page_rows self.old.pages) }

        // causes
        ensures damaged { IsErrOf result PageRefusal.Damaged
            → HoldsNoneTold (D.state disk.old).seen self.old }
        ensures counts { CountsOf PageRefusal.DiskFault
            (D.state disk.old).faults (D.state disk.new).faults result }
    {
        let Some(ask) = ask_of(self.passed, &self.pages) else {
            unreachable!();
        };
        let size = load(disk, self.at, &self.pages, &ask, buffer)?;
        let (bytes, _) = buffer.as_slice().split_at(size);
        let page = self.pages.fill_page(columns, bytes)?;
        Ok(page)
    }

    /// How many rows the next page has.
    pub fn page_rows(&self) -> u32
        requires { self.now.pages.row < self.now.pages.rows }
        ensures is { result ≡ page_rows self.now.pages }
        ensures some { 0 < result }
        ensures within { result ≤ self.now.pages.rows - self.now.pages.row }
    {
        let Some(ask) = ask_of(self.passed, &self.pages) else {
            unreachable!();
        };
        ask.rows
    }

    /// Passes the next page by its counts, which one read fetches, and answers how many rows it has. The
    /// buffer holds the counts meanwhile. Of its other columns no byte is read.
    ///
    /// # Errors
    ///
    /// Those of `next_page`.
    pub fn pass_page<D: Disk>(
        &mut self,
        disk: &mut D,
        buffer: &mut Vec<u8>,
    ) -> Result<u32, PageRefusal>
        requires { self.old.pages.row < self.old.pages.rows }

        // what stays
        ensures reads { ReadsColumns self.old (D.state disk.old) (D.state disk.new) }
        ensures kept { OnErr result (self.new ≡ self.old) }

        // by the answer
        ensures behind { IfOk result (λ n.
            AreBehindTold (D.state disk.old).seen self.old self.new n) }
        ensures after { IfOk result (λ _. (v : ℕ) × (self.new ≡ paged_passed self.old v)) }
        ensures count { IfOk result (λ n. n ≡ page_rows self.old.pages) }

        // causes
        ensures damaged { IsErrOf result PageRefusal.Damaged
            → HoldsNoneTold (D.state disk.old).seen self.old }
        ensures counts { CountsOf PageRefusal.DiskFault
            (D.state disk.old).faults (D.state disk.new).faults result }
    {
        let Some(ask) = ask_of(self.passed, &self.pages) else {
            unreachable!();
        };
        let size = 4 * ask.rows as usize;
        read_part(disk, self.at + ask.counts, size, buffer)?;
        let (counts, _) = buffer.as_slice().split_at(size);
        let Some(rows) = self.pages.pass_page(counts) else {
            return Err(PageRefusal::Damaged);
        };
        Ok(rows)
    }

    /// How many rows are left.
    pub fn rows_left(&self) -> u32
        ensures { result ≡ self.now.pages.rows - self.now.pages.row }
    {
        let Some(ask) = ask_of(self.passed, &self.pages) else {
            return 0;
        };
        rows_behind(&ask, &self.pages)
    }

    /// Reads the log types of so many of the rows that are left, behind the first ones, by one read. The
    /// buffer holds their bytes meanwhile.
    ///
    /// # Errors
    ///
    /// Those of `next_page`.
    pub fn read_types<D: Disk>(
        &self,
        disk: &mut D,
        skipped: u32,
        count: u32,
        buffer: &mut Vec<u8>,
        types: &mut Vec<u32>,
    ) -> Result<(), PageRefusal>
        requires some { 0 < count }
        requires within { skipped + count ≤ self.now.pages.rows - self.now.pages.row }

        // what stays
        ensures reads { ReadsColumns self.now (D.state disk.old) (D.state disk.new) }

        // by the answer
        ensures types { OnOk result (OfRows (D.state disk.old).seen self.now
            (λ rows. types.new.items ≡ part skipped count (types_in rows))) }
        ensures length { OnOk result (length types.new.items ≡ count) }

        // causes
        ensures damaged { IsErrOf result PageRefusal.Damaged
            → HoldsNoneTold (D.state disk.old).seen self.now }
        ensures counts { CountsOf PageRefusal.DiskFault
            (D.state disk.old).faults (D.state disk.new).faults result }
    {
        let Some(ask) = ask_of(self.passed, &self.pages) else {
            unreachable!();
        };
        let size = 4 * count as usize;
        read_part(
            disk,
            self.at + ask.types + 4 * u64::from(skipped),
            size,
            buffer,
        )?;
        let (bytes, _) = buffer.as_slice().split_at(size);
        fill_numbers(types, bytes)?;
        Ok(())
    }

    /// Reads the log types of all rows that are left, by one read. They serve for later pages of the
    /// segment too: the rows from such a page on have those behind the rows before it. The buffer holds
    /// their bytes meanwhile.
    ///
    /// # Errors
    ///
    /// Those of `next_page`.
    pub fn read_all_types<D: Disk>(
        &self,
        disk: &mut D,
        buffer: &mut Vec<u8>,
        types: &mut Vec<u32>,
    ) -> Result<(), PageRefusal>
        requires { self.now.pages.row < self.now.pages.rows }

        // what stays
        ensures reads { ReadsColumns self.now (D.state disk.old) (D.state disk.new) }

        // by the answer
        ensures types { OnOk result
            (AreTypesTold (D.state disk.old).seen self.now types.new.items) }
        ensures length { OnOk result
            (length types.new.items ≡ self.now.pages.rows - self.now.pages.row) }

        // causes
        ensures damaged { IsErrOf result PageRefusal.Damaged
            → HoldsNoneTold (D.state disk.old).seen self.now }
        ensures counts { CountsOf PageRefusal.DiskFault
            (D.state disk.old).faults (D.state disk.new).faults result }
    {
        let Some(ask) = ask_of(self.passed, &self.pages) else {
            unreachable!();
        };
        let rows = rows_behind(&ask, &self.pages);
        let size = 4 * rows as usize;
        read_part(disk, self.at + ask.types, size, buffer)?;
        let (bytes, _) = buffer.as_slice().split_at(size);
        fill_numbers(types, bytes)?;
        Ok(())
    }

    /// Reads the moments of so many of the rows that are left, behind the first ones, by one read. The
    /// buffer holds their bytes meanwhile.
    ///
    /// # Errors
    ///
    /// Those of `next_page`.
    pub fn read_moments<D: Disk>(
        &self,
        disk: &mut D,
        skipped: u32,
        count: u32,
        buffer: &mut Vec<u8>,
        moments: &mut Vec<i64>,
    ) -> Result<(), PageRefusal>
        requires some { 0 < count }
        requires within { skipped + count ≤ self.now.pages.rows - self.now.pages.row }

        // what stays
        ensures reads { ReadsColumns self.now (D.state disk.old) (D.state disk.new) }

        // by the answer
        ensures moments { OnOk result (OfRows (D.state disk.old).seen self.now
            (λ rows. moments.new.items ≡ part skipped count (moments_in rows))) }
        ensures length { OnOk result (length moments.new.items ≡ count) }

        // causes
        ensures damaged { IsErrOf result PageRefusal.Damaged
            → HoldsNoneTold (D.state disk.old).seen self.now }
        ensures counts { CountsOf PageRefusal.DiskFault
            (D.state disk.old).faults (D.state disk.new).faults result }
    {
        let Some(ask) = ask_of(self.passed, &self.pages) else {
            unreachable!();
        };
        let size = 8 * count as usize;
        read_part(
            disk,
            self.at + ask.moments + 8 * u64::from(skipped),
            size,
            buffer,
        )?;
        let (bytes, _) = buffer.as_slice().split_at(size);
        fill_moments(moments, bytes)?;
        Ok(())
    }

    /// Reads the patterns of the stamps of so many of the rows that are left, behind the first ones, by
    /// one read. The buffer holds their bytes meanwhile.
    ///
    /// # Errors
    ///
    /// Those of `next_page`.
    pub fn read_patterns<D: Disk>(
        &self,
        disk: &mut D,
        skipped: u32,
        count: u32,
        buffer: &mut Vec<u8>,
        patterns: &mut Vec<u8>,
    ) -> Result<(), PageRefusal>
        requires some { 0 < count }
        requires within { skipped + count ≤ self.now.pages.rows - self.now.pages.row }

        // what stays
        ensures reads { ReadsColumns self.now (D.state disk.old) (D.state disk.new) }

        // by the answer
        ensures patterns { OnOk result (OfRows (D.state disk.old).seen self.now
            (λ rows. patterns.new.items ≡ part skipped count (patterns_in rows))) }
        ensures length { OnOk result (length patterns.new.items ≡ count) }

        // causes
        ensures damaged { IsErrOf result PageRefusal.Damaged
            → HoldsNoneTold (D.state disk.old).seen self.now }
        ensures counts { CountsOf PageRefusal.DiskFault
            (D.state disk.old).faults (D.state disk.new).faults result }
    {
        let Some(ask) = ask_of(self.passed, &self.pages) else {
            unreachable!();
        };
        let size = count as usize;
        read_part(
            disk,
            self.at + ask.patterns + u64::from(skipped),
            size,
            buffer,
        )?;
        let (bytes, _) = buffer.as_slice().split_at(size);
        patterns.clear();
        patterns.extend_from_slice(bytes)?;
        Ok(())
    }

    /// Passes all rows that are left, which were read by their columns.
    pub fn pass_rest(&mut self)
        ensures end { self.new ≡ paged_end self.old }
        ensures left { (bytes : List ℕ) (rows : List Row) → HoldsLeft self.old bytes rows
            → HoldsLeft self.new bytes [] }
    {
        self.passed = true;
    }
}
