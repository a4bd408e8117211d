//! Scripts: a line is a verb and its values, and each line has to hold.
//!
//! A value is a word, or a text in quotes with the escapes `\n`, `\\` and `\xHH`. A number is in
//! digits, to the base of sixteen behind `0x`, and below zero behind a `-`. Lists have commas, and
//! none is written `-`. A row is `TYPE:WORDS`, or `TYPE:WORDS@PATTERN:MOMENT` with a stamp. `#`
//! begins a comment.
//!
//! Lines about the two books (`naming`):
//!
//! - `books VERSION LIMIT` begins with other books, without texts; at first they are `books 1 100`.
//! - `type TEXT`, `word TEXT` add a text. `many COUNT SLOTS` adds so many log types, each with so
//!   many slots of each kind.
//! - `type_is TEXT N`, `word_is TEXT N`, `counts TYPES WORDS`: a text has this number; there are
//!   so many.
//!
//! Lines about messages (`messages`, `written`):
//!
//! - `stamp milli|micro TEXT PATTERN:MOMENT`: the encoder, which all of the script has, reads
//!   this stamp.
//! - `names TEXT`: the texts of the message are named. `encodes TEXT ROW USED`: it is this row,
//!   which has these dictionary numbers. `full TEXT COUNT`: it is refused, since the words are so
//!   many.
//! - `fits ROW CAN IS`: whether the row can be written, and whether it is an encoding.
//! - `back TEXT`, `written TEXT`: the message comes back, from its row and by a writer. `later
//!   TEXT`: also where its log type came after the layouts of others.
//! - `writer`, `front COUNT`: one writer writes the rows of `written` as told there, by the layouts
//!   of all log types and of so many.
//! - `printed PATTERN COUNT LINES` (`sieve`): of a segment so many rows are passed over, and
//!   these lines are printed.
//!
//! Lines about a pattern, whose first value it is (`segments`, `rows`, `pages`):
//!
//! - `barren PATTERN ROWS TYPES WORDS IS`: whether a segment of so many rows, which lists these
//!   log types and words, is barren. `outside PATTERN stamped|bare FROM TO IS`: whether one of a
//!   row is outside a range.
//! - `accepted PATTERN ROW IS`: `yes`, `no`, or `unwritten`. `of_type PATTERN TEXT VERDICT`: of a
//!   log type.
//! - `needles PATTERN COUNT`: so many texts are looked for in words.
//! - `row PATTERN ROW VERDICT`; `both PATTERN ROW WORDS VERDICT MAY`: also of a segment that
//!   lists the words.
//! - `wide PATTERN LAST WORDS TIMES VERDICT VERDICT`: of rows with these words so many times, of
//!   the first log type and of the last.
//! - `marked PATTERN NUMBERS ROW VERDICT`: words are marked by these numbers; `again`: after
//!   others were.
//! - `segment PATTERN TYPES WORDS MAY`: whether one with stamps of 33 years may match, `bare`
//!   without stamps. `between PATTERN stamped|bare LEAST GREATEST MAY`: where nothing but its
//!   stamps brings the text.
//! - `page PATTERN ROW=TOLD..`: each row is `passed`, `asked`, or `stays`. `stays PATTERN BELOW
//!   TYPE WORD WORD WORD`: a row with the second word stays behind each number of rows with the
//!   first.
//! - `stamped PATTERN ROW PATTERN:MOMENT=VERDICT..`: verdicts in a page of the row with these
//!   stamps.
use crate::books::Books;
use crate::filters::{filter_of, needles, plan_of};
use crate::machine::Machine;
use crate::messages::over_messages;
use crate::naming::over_books;
use crate::pages::{page_is, stamped_page_is, stays_anywhere};
use crate::rows::{is_accepted, is_of_type, marks_again, marks_hold, row_is, wide_are};
use crate::segments::{between, both_are, is_barren, is_out, may_be};
use crate::texts::{number_of, words_of};
use query_plan::Plan;
use std::alloc::{AllocError, Global};
use subquery_filter::Filter;

/// Moments of 33 years.
const YEARS: Option<(i64, i64)> = Some((0, 1_000_000_000_000));

/// Whether a line about a filter holds.
fn filter_holds(
    alloc: Global,
    books: &Books,
    plan: &Plan,
    filter: &Filter,
    line: &[&str],
) -> Result<bool, AllocError> {
    match line {
        ["row", _, row, want] => row_is(alloc, books, plan, filter, row, want),
        ["both", _, row, words, want, may] => both_are(alloc, filter, (row, words), want, may),
        ["segment", _, types, words, may] => may_be(alloc, filter, YEARS, (types, words), may),
        ["bare", _, types, words, may] => may_be(alloc, filter, None, (types, words), may),
        ["between", _, stamped, least, greatest, may] => {
            let between = between(stamped, least, greatest);
            may_be(alloc, filter, between, ("2", "-"), may)
        }
        ["page", _, page @ ..] => page_is(alloc, filter, page),
        ["stamped", _, row, page @ ..] => stamped_page_is(alloc, filter, row, page),
        ["stays", _, below, log_type, most, one, last] => {
            stays_anywhere(alloc, filter, below, log_type, (most, one, last))
        }
        ["wide", _, last, words, times, want, unlisted] => {
            let asked = (*last, *words, *times);
            wide_are(alloc, books, plan, filter, asked, (want, unlisted))
        }
        _ => Ok(false),
    }
}

/// Whether a line holds by the filter of its pattern.
fn by_filter(alloc: Global, books: &Books, plan: &Plan, line: &[&str]) -> Result<bool, AllocError> {
    let filter = filter_of(alloc, books, plan, None)?;
    filter_holds(alloc, books, plan, &filter, line)
}

/// Whether a line about a plan holds.
fn plan_holds(
    alloc: Global,
    books: &Books,
    plan: &Plan,
    line: &[&str],
) -> Result<bool, AllocError> {
    match line {
        ["barren", _, rows, types, words, want] => {
            is_barren(alloc, books, plan, (rows, types, words), want)
        }
        ["outside", _, stamped, from, to, want] => {
            is_out(alloc, books, plan, (stamped, from, to), want)
        }
        ["accepted", _, row, want] => is_accepted(alloc, books, plan, row, want),
        ["of_type", _, log_type, want] => is_of_type(alloc, plan, log_type, want),
        ["marked", _, numbers, row, want] => marks_hold(alloc, books, plan, numbers, row, want),
        ["again", _, numbers, row, want] => marks_again(alloc, books, plan, numbers, row, want),
        ["needles", _, count] => Ok(needles(alloc, plan)? == number_of(count)),
        _ => by_filter(alloc, books, plan, line),
    }
}

/// Whether a line holds by the plan of its pattern.
fn by_plan(alloc: Global, books: &Books, line: &[&str]) -> Result<bool, AllocError> {
    let [_, pattern, ..] = line else {
        return Ok(false);
    };
    let plan = plan_of(alloc, pattern)?;
    plan_holds(alloc, books, &plan, line)
}

/// Carries out a line; says whether what it wants is so.
fn carry_out(machine: &mut Machine, line: &[&str]) -> Result<bool, AllocError> {
    if line.is_empty() {
        return Ok(true);
    }
    if let Some(done) = over_books(machine.alloc, &mut machine.books, line) {
        return done;
    }
    if let Some(done) = over_messages(machine, line) {
        return done;
    }
    by_plan(machine.alloc, &machine.books, line)
}

/// Plays a line.
fn play_line(machine: &mut Machine, line: &str) -> Result<bool, AllocError> {
    let words = words_of(machine.alloc, line)?;
    carry_out(machine, words.as_slice())
}

/// Plays all lines. The number of the first one that does not hold, counted from one; 0 where all
/// do.
fn failing_line(machine: &mut Machine, script: &str) -> usize {
    for (place, line) in script.lines().enumerate() {
        if !play_line(machine, line).unwrap_or(false) {
            return place.saturating_add(1);
        }
    }
    0
}

fn failing_anew(alloc: Global, script: &str) -> usize {
    let mut machine = Machine::new(alloc);
    failing_line(&mut machine, script)
}

/// Plays a script. Fails with the number of the first line that does not hold.
pub(crate) fn play(alloc: Global, script: &str) -> Result<(), usize> {
    let line = failing_anew(alloc, script);
    if line == 0 { Ok(()) } else { Err(line) }
}
