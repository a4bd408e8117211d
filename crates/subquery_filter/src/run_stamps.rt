//! Which runs of a pattern stamps may bring.
ghost use Rattle.std.specs.Prelude.{◌≡◌, ◌≤ℤ◌, ℕ, ℤ, List, IfOk, IsFalse};
ghost use Rattle.row_codec.specs.Means.{HasStampText};
ghost use Rattle.time_patterns.specs.Stamps.{Prints};
ghost use Rattle.wild_match.specs.Matches.{Match};
ghost use Rattle.query_plan.specs.Needs.{around};
ghost use Rattle.stamp_templates.specs.Laws.{StandsInNoneBetween};
ghost use Rattle.subquery_filter.specs.Filter.{AreRunStamps, IsWithin, RunMarks};

use crate::run::Run;
use crate::short_text::stands_in;
use segment_format::Head;
use stamp_templates::{may_hold, may_hold_between};
use std::alloc::{AllocError, Global};
use time_patterns::StampPrinter;
use time_patterns::laws::{moment_tells_text, patterns_print_whole_moments};

/// The patterns that print stamps are below this.
const PATTERNS: u8 = 27;

/// The bit of a run that may stand in a stamp of the pattern.
fn pattern_bit(run: &Run, pattern: u8) -> u8
    ensures { (moment : ℤ) (s : List ℕ) → Prints pattern moment s → Match (around run.now.text) s
        → result ≡ run.now.bit }
{
    if may_hold(pattern, run.text.as_slice()) {
        run.bit
    } else {
        0
    }
}

/// The bits of the runs that may stand in a stamp of the pattern.
fn pattern_runs(runs: &[Run], pattern: u8) -> u8
    ensures { (moment : ℤ) (s : List ℕ) → Prints pattern moment s → RunMarks runs.now s result }
{
    let mut bits = 0;
    for run in runs {
        bits |= pattern_bit(run, pattern);
    }
    bits
}

/// The bits of the runs that may stand in stamps, by the numbers of the patterns.
pub(crate) fn mark_runs(alloc: Global, runs: &[Run]) -> Result<Vec<u8>, AllocError>
    ensures { IfOk result (λ stamps. AreRunStamps runs.now stamps.items) }
{
    patterns_print_whole_moments();
    let mut stamps = Vec::new(alloc);
    stamps.push(0)?;
    for pattern in 1..PATTERNS {
        stamps.push(pattern_runs(runs, pattern))?;
    }
    Ok(stamps)
}

/// Whether a text may stand in a stamp of the pattern between two moments.
fn may_lie_between(pattern: u8, text: &[u8], least: i64, greatest: i64) -> bool
    ensures { IsFalse result → StandsInNoneBetween pattern least greatest text.now }
{
    if !may_hold(pattern, text) {
        return false;
    }
    may_hold_between(pattern, text, least, greatest)
}

/// The bit of a run that may stand in a stamp of the pattern between two moments.
fn span_bit(run: &Run, pattern: u8, least: i64, greatest: i64) -> u8
    ensures { (moment : ℤ) (s : List ℕ) → least ≤ℤ moment → moment ≤ℤ greatest
        → Prints pattern moment s → Match (around run.now.text) s → result ≡ run.now.bit }
{
    if may_lie_between(pattern, run.text.as_slice(), least, greatest) {
        run.bit
    } else {
        0
    }
}

/// The bits of the runs that may stand in a stamp of the pattern between two moments.
pub(crate) fn span_runs(runs: &[Run], pattern: u8, least: i64, greatest: i64) -> u8
    ensures { (moment : ℤ) (s : List ℕ) → least ≤ℤ moment → moment ≤ℤ greatest
        → Prints pattern moment s → RunMarks runs.now s result }
{
    let mut bits = 0;
    for run in runs {
        bits |= span_bit(run, pattern, least, greatest);
    }
    bits
}

/// The bit of a run that stands in a stamp.
fn run_mark(run: &Run, stamp: &[u8]) -> u8
    ensures { Match (around run.now.text) stamp.now → result ≡ run.now.bit }
{
    if stands_in(stamp, run.text.as_slice()) {
        run.bit
    } else {
        0
    }
}

/// The bits of the runs that stand in a stamp.
fn run_marks(runs: &[Run], stamp: &[u8]) -> u8
    ensures { RunMarks runs.now stamp.now result }
{
    let mut bits = 0;
    for run in runs {
        bits |= run_mark(run, stamp);
    }
    bits
}

/// The bits of the runs that stand in a row's stamp, of those that its pattern may bring.
#[inline(never)]
pub(crate) fn stamp_runs(
    runs: &[Run],
    may: u8,
    pattern: u8,
    moment: i64,
    printer: &mut StampPrinter,
) -> u8
    ensures { (s : List ℕ) → (HasStampText pattern moment s → RunMarks runs.now s may)
        → HasStampText pattern moment s → RunMarks runs.now s result }
{
    moment_tells_text();
    patterns_print_whole_moments();
    let mut text = [0; 32];
    match printer.print_front(pattern, moment, &mut text) {
        Some(len) => run_marks(runs, &text[..len]),
        None => may,
    }
}

/// The bits of the runs that may stand in the stamps of a segment with this head.
pub(crate) fn runs_within(runs: &[Run], head: &Head) -> u8
    ensures { (pattern : ℕ) (moment : ℤ) (s : List ℕ) → IsWithin head.now moment
        → Prints pattern moment s → RunMarks runs.now s result }
{
    patterns_print_whole_moments();
    let mut bits = 0;
    for pattern in 1..PATTERNS {
        bits |= span_runs(runs, pattern, head.least, head.greatest);
    }
    bits
}
