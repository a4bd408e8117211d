//! Rows that are counted, by what they are stored as or by what they are written as.
ghost use Rattle.std.specs.Prelude.{◌≡◌, ◌↔◌, ◌∷◌, [], ℕ, List, length, IsTrue, OnOk, OnErr, IsErrOf};
ghost use Rattle.column_store.specs.Row.{row_of};
ghost use Rattle.row_codec.specs.Laid.{AreCut};
ghost use Rattle.row_codec.specs.Means.{IsCanonical};
ghost use Rattle.query_plan.specs.Laws.{IsPlain};
ghost use Rattle.search_walk.specs.Held.{AreRowsOf, Named};
ghost use Rattle.search_walk.specs.Ready.{IsLent, IsReadyPage};
ghost use Rattle.printed_lines.specs.Lines.{numbered, placed};
ghost use Rattle.group_count.specs.StepsCounted.{Adds, Passes, Stops, judged_more, judged_rows, sofar};

use crate::counts::Counts;
use crate::judging::judge_stored;
use crate::refusal::TableRefusal;
use crate::table::RowTable;
use column_store::{Columns, RowRef};
use log_seams::Disk;
use query_plan::wide_is_wider;
use row_codec::{Layouts, RowWriter};
use search_walk::{Context, Judgement, Query, is_certain, is_rejected, verdict_at};
use std::alloc::AllocError;
use std::sync::ledger::Ledger;
use step_count::Steps;
use subquery_filter::Verdict;
use word_places::{HeldWords, rows_are_local, rows_are_of_type};

/// Counts a row whose message is found.
fn count_found<T: RowTable>(row: RowRef<'_>, counts: &mut Counts<T>) -> Result<(), AllocError>
    ensures { OnOk result ((ticks : ℕ) → Adds T.counted (row_of row.entry ∷ []) 0
        (sofar counts.old ticks) (sofar counts.new ticks)) }
{
    counts.table.count_row(row)?;
    counts.matched = counts.matched.saturating_add(1);
    Ok(())
}

/// Counts a row of a plain pattern where its message is found. It is told by the row as it is
/// stored, so that no message is expanded.
fn count_stored<T: RowTable>(
    query: &Query,
    held: &HeldWords,
    row: RowRef<'_>,
    verdict: Verdict,
    counts: &mut Counts<T>,
) -> Result<(), TableRefusal>
    ensures done { OnOk result ((n : Named) → IsPlain query.now.pattern
        → IsLent n query.now held.now (row_of row.entry) verdict
        → (name : List ℕ) (number ticks : ℕ) (message : List ℕ)
        → IsCanonical n.version (row_of row.entry) n.types n.words message
        → Passes T.counted n query.now (placed name number message ∷ [])
        (sofar counts.old ticks) (sofar counts.new ticks)) }
    ensures damaged { IsErrOf result TableRefusal.Damaged → (n : Named)
        → IsLent n query.now held.now (row_of row.entry) verdict → (message : List ℕ)
        → ¬ IsCanonical n.version (row_of row.entry) n.types n.words message }
{
    // What the pattern matches, the one that the search is planned over matches too; and a row
    // whose log type and words are held means by these what it means by all.
    wide_is_wider();
    rows_are_local();
    rows_are_of_type();
    if is_rejected(verdict) {
        return Ok(());
    }
    match judge_stored(query.plan(), held, row, verdict) {
        Some(true) => count_found(row, counts)?,
        Some(false) => {}
        None => return Err(TableRefusal::Damaged),
    }
    Ok(())
}

/// Counts that a message was expanded.
fn count_expanded<T: RowTable, M: Ledger>(counts: &mut Counts<T>, expanded: &mut Steps<M>)
    ensures { Adds T.counted [] 1
        (sofar counts.old expanded.old) (sofar counts.new expanded.new) }
{
    expanded.tick();
    counts.expanded = counts.expanded.saturating_add(1);
}

/// Counts a row whose message was written and judged.
fn count_judged<T: RowTable, M: Ledger>(
    judgement: Judgement,
    row: RowRef<'_>,
    counts: &mut Counts<T>,
    expanded: &mut Steps<M>,
) -> Result<(), AllocError>
    ensures counted { OnOk result (Adds T.counted
        (judged_rows judgement (row_of row.entry)) (judged_more judgement)
        (sofar counts.old expanded.old) (sofar counts.new expanded.new)) }
    ensures ticks { OnErr result (expanded.new ≡ expanded.old) }
{
    match judgement {
        Judgement::Left => {}
        Judgement::Tried => count_expanded(counts, expanded),
        Judgement::Found => {
            count_found(row, counts)?;
            count_expanded(counts, expanded);
        }
    }
    Ok(())
}

/// Writes a row in the place of the text of the last one, and counts it where its message is found.
fn count_written<T: RowTable, M: Ledger>(
    query: &Query,
    held: &HeldWords,
    writer: &mut RowWriter<'_>,
    row: RowRef<'_>,
    verdict: Verdict,
    text: &mut Vec<u8>,
    counts: &mut Counts<T>,
    expanded: &mut Steps<M>,
) -> Result<(), TableRefusal>
    requires { AreCut writer.old held.now.types }
    ensures types { writer.new ≡ writer.old }
    ensures done { OnOk result ((n : Named) → ¬ IsPlain query.now.pattern
        → IsLent n query.now held.now (row_of row.entry) verdict
        → (name : List ℕ) (number : ℕ) (message : List ℕ)
        → IsCanonical n.version (row_of row.entry) n.types n.words message
        → Passes T.counted n query.now (placed name number message ∷ [])
        (sofar counts.old expanded.old) (sofar counts.new expanded.new)) }
    ensures ticks { OnErr result (expanded.new ≡ expanded.old) }
    ensures damaged { IsErrOf result TableRefusal.Damaged → (n : Named)
        → IsLent n query.now held.now (row_of row.entry) verdict → (message : List ℕ)
        → ¬ IsCanonical n.version (row_of row.entry) n.types n.words message }
{
    // What the pattern matches, the one that the search is planned over matches too; and a row
    // whose log type and words are held is written by these as by all.
    wide_is_wider();
    rows_are_local();
    rows_are_of_type();
    if is_rejected(verdict) {
        return Ok(());
    }
    text.clear();
    if !writer.write_fitting(row, held, text)? {
        return Err(TableRefusal::Damaged);
    }
    let judgement = query.judge(is_certain(verdict), text.as_slice());
    count_judged(judgement, row, counts, expanded)?;
    Ok(())
}

/// Counts the rows of a page of a plain pattern whose messages are found. None of them is expanded.
fn count_stored_rows<T: RowTable>(
    query: &Query,
    held: &HeldWords,
    page: &Columns,
    verdicts: &[Verdict],
    counts: &mut Counts<T>,
) -> Result<(), TableRefusal>
    requires decided { length verdicts.now ≡ length page.now.rows }
    ensures done { OnOk result ((n : Named) → IsPlain query.now.pattern
        → IsReadyPage n query.now held.now page.now.rows verdicts.now
        → (name : List ℕ) (number ticks : ℕ) (messages : List (List ℕ))
        → AreRowsOf n page.now.rows messages
        → Passes T.counted n query.now (numbered name number messages)
        (sofar counts.old ticks) (sofar counts.new ticks)) }
    ensures damaged { IsErrOf result TableRefusal.Damaged → (n : Named)
        → IsPlain query.now.pattern
        → IsReadyPage n query.now held.now page.now.rows verdicts.now
        → (messages : List (List ℕ)) → ¬ AreRowsOf n page.now.rows messages }
{
    for place in 0..page.rows() {
        let row = page.row(place);
        let verdict = verdict_at(verdicts, place);
        count_stored(query, held, row, verdict, counts)?;
    }
    Ok(())
}

/// Counts the rows of a page whose messages are found. A row in the range is written into the
/// buffer, in the place of the last one, and matched there.
fn count_written_rows<T: RowTable, M: Ledger>(
    query: &Query,
    layouts: &Layouts,
    held: &HeldWords,
    page: &Columns,
    verdicts: &[Verdict],
    text: &mut Vec<u8>,
    counts: &mut Counts<T>,
    expanded: &mut Steps<M>,
) -> Result<(), TableRefusal>
    requires types { AreCut layouts.now held.now.types }
    requires decided { length verdicts.now ≡ length page.now.rows }
    ensures done { OnOk result ((n : Named) → ¬ IsPlain query.now.pattern
        → IsReadyPage n query.now held.now page.now.rows verdicts.now
        → (name : List ℕ) (number : ℕ) (messages : List (List ℕ))
        → AreRowsOf n page.now.rows messages
        → Passes T.counted n query.now (numbered name number messages)
        (sofar counts.old expanded.old) (sofar counts.new expanded.new)) }
    ensures stopped { OnErr result ((n : Named) → ¬ IsPlain query.now.pattern
        → IsReadyPage n query.now held.now page.now.rows verdicts.now
        → (name : List ℕ) (number : ℕ) (messages : List (List ℕ))
        → AreRowsOf n page.now.rows messages
        → Stops n.version query.now (numbered name number messages) expanded.old expanded.new) }
    ensures damaged { IsErrOf result TableRefusal.Damaged → (n : Named)
        → ¬ IsPlain query.now.pattern
        → IsReadyPage n query.now held.now page.now.rows verdicts.now
        → (messages : List (List ℕ)) → ¬ AreRowsOf n page.now.rows messages }
{
    let mut writer = RowWriter::new(layouts);
    for place in 0..page.rows() {
        let row = page.row(place);
        let verdict = verdict_at(verdicts, place);
        count_written(
            query,
            held,
            &mut writer,
            row,
            verdict,
            text,
            counts,
            expanded,
        )?;
    }
    Ok(())
}

/// Counts the rows of a page whose messages are found: of a plain pattern by the rows as they are
/// stored, and else by what they are written as.
pub(crate) fn count_rows<D: Disk, T: RowTable, M: Ledger>(
    plain: bool,
    context: &Context<'_, D>,
    held: &HeldWords,
    page: &Columns,
    verdicts: &[Verdict],
    text: &mut Vec<u8>,
    counts: &mut Counts<T>,
    expanded: &mut Steps<M>,
) -> Result<(), TableRefusal>
    requires plain { IsTrue plain ↔ IsPlain context.now.query.pattern }
    requires ready { IsReadyPage context.now.names context.now.query
        held.now page.now.rows verdicts.now }
    ensures done { OnOk result ((name : List ℕ) (number : ℕ) (messages : List (List ℕ))
        → AreRowsOf context.now.names page.now.rows messages
        → Passes T.counted context.now.names context.now.query (numbered name number messages)
        (sofar counts.old expanded.old) (sofar counts.new expanded.new)) }
    ensures stopped { OnErr result ((name : List ℕ) (number : ℕ) (messages : List (List ℕ))
        → AreRowsOf context.now.names page.now.rows messages
        → Stops context.now.names.version context.now.query (numbered name number messages)
        expanded.old expanded.new) }
    ensures damaged { IsErrOf result TableRefusal.Damaged → (messages : List (List ℕ))
        → ¬ AreRowsOf context.now.names page.now.rows messages }
{
    let query = context.query();
    if plain {
        return count_stored_rows(query, held, page, verdicts, counts);
    }
    let layouts = context.layouts();
    count_written_rows(query, layouts, held, page, verdicts, text, counts, expanded)
}
