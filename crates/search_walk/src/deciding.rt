//! Rows that are decided, and the words that are read for those that may have to be written.
ghost use Rattle.std.specs.Prelude.{◌≡◌, ◌<◌, ◌≤◌, length, slice_get, vec_capacity, Some, IsTrue, OnOk, IsErrOf};
ghost use Rattle.std.specs.List.{AllZip};
ghost use Rattle.log_seams.specs.Disk.{Rests};
ghost use Rattle.log_seams.specs.Outside.{CountsOf};
ghost use Rattle.column_store.specs.Row.{row_of};
ghost use Rattle.word_places.specs.Held.{Grow};
ghost use Rattle.word_places.specs.Reads.{ReadsWords};
ghost use Rattle.search_walk.specs.Held.{IsTold};
ghost use Rattle.search_walk.specs.Ready.{AreDecided, AreHeldFor, IsDecided, IsHeldFor, IsReady, Serves};

use crate::context::Context;
use crate::refusal::SearchRefusal;
use crate::verdicts::{is_rejected, verdict_at};
use column_store::{Columns, RowRef};
use log_seams::Disk;
use subquery_filter::Verdict;
use word_places::HeldWords;

/// The log type's number at a place.
#[inline]
fn type_at(types: &[u32], place: u32) -> u32
    requires { place < length types.now }
    ensures { slice_get types.now place ≡ Some result }
{
    types[place as usize]
}

/// Where the words of the row at a place end.
#[inline]
fn end_at(ends: &[u32], place: u32) -> usize
    requires { place < length ends.now }
    ensures { slice_get ends.now place ≡ Some result }
{
    ends[place as usize] as usize
}

/// Decides each row of a page, by its moment and by its numbers alone. It asks neither the disk nor
/// a word, and takes no memory: there is room for a verdict for each row.
///
/// Most rows are rejected by their log types and by where the next word stands that counts, so
/// their own words are not looked at one by one.
// A function of its own, so that its loop has the registers.
#[inline(never)]
pub fn decide_page<D: Disk>(context: &Context<'_, D>, page: &Columns, verdicts: &mut Vec<Verdict>)
    requires { length page.now.rows ≤ vec_capacity verdicts.old }
    ensures { AreDecided context.now.names context.now.query page.now.rows verdicts.new.items }
{
    verdicts.clear();
    let filter = context.filter();
    let mut tests = filter.begin_page(page.patterns(), page.moments());
    let types = page.types();
    let ends = page.ends();
    let words = page.words();
    let mut start = 0;
    let mut hit = 0;
    for place in 0..page.rows() {
        let end = end_at(ends, place);
        let log_type = type_at(types, place);
        let known = filter.rejects_row(log_type, words, start, end, &mut hit);
        let verdict = context.decide_at(filter, known, page, place, &mut tests);
        verdicts.push_reserved(verdict);
        start = end;
    }
}

/// Reads the words of a row that was decided, where it may have to be written and they are not
/// held.
fn hold_row<D: Disk>(
    context: &Context<'_, D>,
    row: RowRef<'_>,
    verdict: Verdict,
    held: &mut HeldWords,
    disk: &mut D,
) -> Result<(), SearchRefusal>
    requires decided { IsTold context.now.names
        → IsDecided context.now.names context.now.query (row_of row) verdict }
    requires serves { Serves context.now.names held.old }
    requires told { (D.state disk.old).seen ≡ context.now.names.told }

    // what stays, and what grows
    ensures rests { Rests (D.state disk.old) (D.state disk.new) }
    ensures reads { ReadsWords context.now.names.places (D.state disk.old) (D.state disk.new) }
    ensures serves { Serves context.now.names held.new }
    ensures grow { Grow held.old.records held.new.records }

    // by the answer, and causes
    ensures ready { OnOk result (IsReady context.now.names context.now.query
        held.new.records (row_of row.entry) verdict) }
    ensures damaged { IsErrOf result SearchRefusal.Damaged → ¬ IsTold context.now.names }
    ensures counts { CountsOf SearchRefusal.DiskFault
        (D.state disk.old).faults (D.state disk.new).faults result }
    ensures sink { ¬ IsErrOf result SearchRefusal.SinkFault }
{
    if has_row(row, verdict, held) {
        return Ok(());
    }
    let answer = held.hold_row(disk, row);
    // The numbers of the records still go on from one to the next.
    let _ = held.record_count();
    answer?;
    Ok(())
}

/// Whether it is known that the words of a row that was decided are held, where it may have to be
/// written.
fn has_row(row: RowRef<'_>, verdict: Verdict, held: &HeldWords) -> bool
    ensures { IsTrue result → IsHeldFor held.now (row_of row.entry) verdict }
{
    if is_rejected(verdict) {
        return true;
    }
    held.has_row(row)
}

/// Whether it is known that the words of all rows of a page are held that may have to be written.
/// It asks neither the disk nor a word.
// A function of its own, so that its loop has the registers.
#[inline(never)]
pub fn has_rows(page: &Columns, verdicts: &[Verdict], held: &HeldWords) -> bool
    requires { length verdicts.now ≡ length page.now.rows }
    ensures { IsTrue result → AreHeldFor held.now page.now.rows verdicts.now }
{
    for place in 0..page.rows() {
        let verdict = verdict_at(verdicts, place);
        if !has_row(page.row(place), verdict, held) {
            return false;
        }
    }
    true
}

/// Reads the words of the rows of a page that were decided, of those that may have to be written,
/// as far as they are not held: none where it is known that they are.
// A function of its own, so that its loop has the registers.
#[inline(never)]
pub fn hold_rows<D: Disk>(
    context: &Context<'_, D>,
    page: &Columns,
    verdicts: &[Verdict],
    known: bool,
    held: &mut HeldWords,
    disk: &mut D,
) -> Result<(), SearchRefusal>
    requires decided { AreDecided context.now.names context.now.query page.now.rows verdicts.now }
    requires known { IsTrue known → AreHeldFor held.old page.now.rows verdicts.now }
    requires serves { Serves context.now.names held.old }
    requires told { (D.state disk.old).seen ≡ context.now.names.told }

    // what stays, and what grows
    ensures rests { Rests (D.state disk.old) (D.state disk.new) }
    ensures reads { ReadsWords context.now.names.places (D.state disk.old) (D.state disk.new) }
    ensures serves { Serves context.now.names held.new }
    ensures grow { Grow held.old.records held.new.records }

    // by the answer, and causes
    ensures ready { OnOk result (AllZip (IsReady context.now.names context.now.query
        held.new.records) page.now.rows verdicts.now) }
    ensures damaged { IsErrOf result SearchRefusal.Damaged → ¬ IsTold context.now.names }
    ensures counts { CountsOf SearchRefusal.DiskFault
        (D.state disk.old).faults (D.state disk.new).faults result }
    ensures sink { ¬ IsErrOf result SearchRefusal.SinkFault }
{
    if known {
        return Ok(());
    }
    for place in 0..page.rows() {
        let verdict = verdict_at(verdicts, place);
        hold_row(context, page.row(place), verdict, held, disk)?;
    }
    Ok(())
}

/// Decides each row of a page, and reads the words of those that may have to be written.
pub fn decide_rows<D: Disk>(
    context: &Context<'_, D>,
    page: &Columns,
    held: &mut HeldWords,
    disk: &mut D,
    verdicts: &mut Vec<Verdict>,
) -> Result<(), SearchRefusal>
    requires serves { Serves context.now.names held.old }
    requires told { (D.state disk.old).seen ≡ context.now.names.told }

    // what stays, and what grows
    ensures rests { Rests (D.state disk.old) (D.state disk.new) }
    ensures reads { ReadsWords context.now.names.places (D.state disk.old) (D.state disk.new) }
    ensures serves { Serves context.now.names held.new }
    ensures grow { Grow held.old.records held.new.records }

    // by the answer, and causes
    ensures ready { OnOk result (AllZip (IsReady context.now.names context.now.query
        held.new.records) page.now.rows verdicts.new.items) }
    ensures damaged { IsErrOf result SearchRefusal.Damaged → ¬ IsTold context.now.names }
    ensures counts { CountsOf SearchRefusal.DiskFault
        (D.state disk.old).faults (D.state disk.new).faults result }
    ensures sink { ¬ IsErrOf result SearchRefusal.SinkFault }
{
    verdicts.clear();
    verdicts.reserve(page.rows() as usize)?;
    decide_page(context, page, verdicts);
    hold_rows(context, page, verdicts.as_slice(), false, held, disk)
}
