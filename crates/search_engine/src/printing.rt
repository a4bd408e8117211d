//! Rows that are printed.
ghost use Rattle.std.specs.Prelude.{◌≡◌, ◌<◌, ◌+◌, ◌^◌, ◌∷◌, [], ℕ, List, Option, length, OnOk, OnErr, IsErrOf};
ghost use Rattle.column_store.specs.Row.{row_of};
ghost use Rattle.row_codec.specs.Laid.{AreCut};
ghost use Rattle.row_codec.specs.Means.{IsCanonical};
ghost use Rattle.search_walk.specs.Held.{AreRowsOf, Named};
ghost use Rattle.search_engine.specs.Kept.{Keeps};
ghost use Rattle.search_walk.specs.Ready.{IsLent, IsReadyPage};
ghost use Rattle.printed_lines.specs.Lines.{numbered, placed};
ghost use Rattle.search_engine.specs.Sofar.{Passes, TicksWithin, sofar};

use crate::counts::Counts;
use crate::refusal::PrintRefusal;
use column_store::{Columns, RowRef};
use log_seams::Disk;
use printed_lines::put_label;
use query_plan::wide_is_wider;
use row_codec::{Layouts, RowWriter};
use search_walk::{Context, Judgement, Label, Query, is_certain, is_rejected, verdict_at};
use std::alloc::AllocError;
use std::sync::ledger::Ledger;
use step_count::Steps;
use subquery_filter::Verdict;
use word_places::{HeldWords, rows_are_local, rows_are_of_type};

/// Of how many rows the words are looked at before they are written. Free to tune: 32 to 256 gain
/// the same, fewer less.
const AHEAD: u32 = 64;

/// What rows that were decided are printed by: the query, the first log types that are held, cut
/// into pieces, and the words that are held.
#[derive(Clone, Copy)]
pub(crate) struct Printer<'q> {
    pub(crate) query: &'q Query,
    pub(crate) layouts: &'q Layouts,
    pub(crate) held: &'q HeldWords,
}

impl<'q> Printer<'q> {
    /// What prints rows of a search by these words.
    pub(crate) fn of<D: Disk>(context: &Context<'q, D>, held: &'q HeldWords) -> Printer<'q>
        ensures query { result.query.now ≡ context.now.query }
        ensures types { AreCut result.layouts.now context.now.names.kept.texts }
        ensures held { result.held.now ≡ held.now }
    {
        Printer {
            query: context.query(),
            layouts: context.layouts(),
            held,
        }
    }
}

/// Keeps a message that was written behind the first so many bytes, or takes it back, and counts
/// it.
fn keep<M: Ledger>(
    judgement: Judgement,
    len: usize,
    gathered: &mut Vec<u8>,
    counts: &mut Counts,
    expanded: &mut Steps<M>,
) -> Result<(), AllocError>
    ensures kept { OnOk result (Keeps judgement len gathered.old.items gathered.new.items
        counts.old counts.new expanded.old expanded.new) }
    ensures ticks { OnErr result (expanded.new ≡ expanded.old) }
{
    match judgement {
        Judgement::Left => gathered.truncate(len),
        Judgement::Tried => {
            gathered.truncate(len);
            expanded.tick();
            counts.expanded = counts.expanded.saturating_add(1);
        }
        Judgement::Found => {
            gathered.push(b'\n')?;
            expanded.tick();
            counts.matched = counts.matched.saturating_add(1);
            counts.expanded = counts.expanded.saturating_add(1);
        }
    }
    Ok(())
}

/// Writes the line of a row behind what is gathered, where its message is found.
///
/// A message in the range is written and then matched: one that is not found is taken back, which
/// costs less than a match over the row as it is stored. Where it was decided that it cannot be
/// found it is not written, and where that it is expanded it is not matched for that.
fn print_row<M: Ledger>(
    printer: &Printer<'_>,
    writer: &mut RowWriter<'_>,
    label: Label<'_>,
    row: RowRef<'_>,
    verdict: Verdict,
    gathered: &mut Vec<u8>,
    counts: &mut Counts,
    expanded: &mut Steps<M>,
) -> Result<(), PrintRefusal>
    requires { AreCut writer.old printer.now.held.now.types }
    ensures types { writer.new ≡ writer.old }
    ensures done { OnOk result ((n : Named)
        → IsLent n printer.now.query.now printer.now.held.now (row_of row.entry) verdict
        → (w : Option (List ℕ)) (message : List ℕ)
        → IsCanonical n.version (row_of row.entry) n.types n.words message
        → Passes n.version printer.now.query.now
        (placed label.entry.name.now label.entry.number message ∷ [])
        (sofar w gathered.old.items counts.old expanded.old)
        (sofar w gathered.new.items counts.new expanded.new)) }
    ensures ticks { OnErr result (expanded.new ≡ expanded.old) }
    ensures damaged { IsErrOf result PrintRefusal.Damaged → (n : Named)
        → IsLent n printer.now.query.now printer.now.held.now (row_of row.entry) verdict
        → (message : List ℕ) → ¬ IsCanonical n.version (row_of row.entry) n.types n.words message }
{
    // What the pattern matches, the one that the search is planned over matches too; and a row
    // whose log type and words are held is written by these as by all.
    wide_is_wider();
    rows_are_local();
    rows_are_of_type();
    if is_rejected(verdict) {
        return Ok(());
    }
    let len = gathered.len();
    put_label(gathered, label.name, label.number)?;
    let start = gathered.len();
    if !writer.write_fitting(row, printer.held, gathered)? {
        return Err(PrintRefusal::Damaged);
    }
    let (_, text) = gathered.as_slice().split_at(start);
    let judgement = printer.query.judge(is_certain(verdict), text);
    keep(judgement, len, gathered, counts, expanded)?;
    Ok(())
}

/// Looks at the words of the next rows that may be written, where the row at this place is the
/// first of so many.
fn look_ahead(
    printer: &Printer<'_>,
    page: &Columns,
    verdicts: &[Verdict],
    place: u32,
    writer: &mut RowWriter<'_>,
)
    requires { length verdicts.now ≡ length page.now.rows }
    ensures { writer.new ≡ writer.old }
{
    if place % AHEAD != 0 {
        return;
    }
    let end = place.saturating_add(AHEAD).min(page.rows());
    for next in place..end {
        if !is_rejected(verdict_at(verdicts, next)) {
            writer.look_at(page.row(next), printer.held);
        }
    }
}

/// Writes the lines of the rows of a page that are found behind what is gathered. The first row has
/// this label, and each has its verdict.
pub(crate) fn print_page<M: Ledger>(
    printer: &Printer<'_>,
    label: Label<'_>,
    page: &Columns,
    verdicts: &[Verdict],
    gathered: &mut Vec<u8>,
    counts: &mut Counts,
    expanded: &mut Steps<M>,
) -> Result<(), PrintRefusal>
    requires types { AreCut printer.now.layouts.now printer.now.held.now.types }
    requires small { label.number + length page.now.rows < 2 ^ 64 }
    requires decided { length verdicts.now ≡ length page.now.rows }
    ensures done { OnOk result ((n : Named)
        → IsReadyPage n printer.now.query.now printer.now.held.now page.now.rows verdicts.now
        → (w : Option (List ℕ)) (messages : List (List ℕ)) → AreRowsOf n page.now.rows messages
        → Passes n.version printer.now.query.now
        (numbered label.entry.name.now label.entry.number messages)
        (sofar w gathered.old.items counts.old expanded.old)
        (sofar w gathered.new.items counts.new expanded.new)) }
    ensures ticks { OnErr result ((n : Named)
        → IsReadyPage n printer.now.query.now printer.now.held.now page.now.rows verdicts.now
        → (messages : List (List ℕ)) → AreRowsOf n page.now.rows messages
        → TicksWithin n.version printer.now.query.now
        (numbered label.entry.name.now label.entry.number messages)
        expanded.old expanded.new) }
    ensures damaged { IsErrOf result PrintRefusal.Damaged → (n : Named)
        → IsReadyPage n printer.now.query.now printer.now.held.now page.now.rows verdicts.now
        → (messages : List (List ℕ)) → ¬ AreRowsOf n page.now.rows messages }
{
    let mut writer = RowWriter::new(printer.layouts);
    for place in 0..page.rows() {
        let here = Label {
            name: label.name,
            number: label.number + u64::from(place),
        };
        look_ahead(printer, page, verdicts, place, &mut writer);
        let row = page.row(place);
        let verdict = verdict_at(verdicts, place);
        print_row(
            printer,
            &mut writer,
            here,
            row,
            verdict,
            gathered,
            counts,
            expanded,
        )?;
    }
    Ok(())
}
