//! Where a text may stand in the stamps of moments between two.
ghost use Rattle.std.specs.Prelude.{◌≤◌, ◌++◌, ℕ, ℤ, ◌<ℤ◌, ◌≤ℤ◌, ◌^◌, pos, neg_ℤ, List, length, IfSome, IsFalse, IsNone, IsTrue};
ghost use Rattle.time_patterns.specs.Stamps.{IsPrintable, Prints};
ghost use Rattle.wild_match.specs.Matches.{Match};
ghost use Rattle.query_plan.specs.Needs.{around};
ghost use Rattle.stamp_templates.specs.Laws.{IsNotAbove, StandsAt, StandsInNoneBetween};
ghost use Rattle.stamp_templates.specs.StepsBetween.{AreSame};
ghost use Rattle.stamp_templates.specs.Templates.{FitsAt};

use crate::laws::{matches_stand, places_fit, texts_rise};
use crate::places::{fits_at, may_hold};
use crate::templates::{LONGEST, template};
use time_patterns::StampPrinter;
use time_patterns::laws::patterns_print_whole_moments;

/// 0000-01-01 and 10000-01-01, and 2000-01-01 and 2100-01-01, in milliseconds.
const FIRST: i64 = -62_167_219_200_000;

const END: i64 = 253_402_300_800_000;

const SHORT_FIRST: i64 = 946_684_800_000;

const SHORT_END: i64 = 4_102_444_800_000;

/// How many microseconds a millisecond has.
const MICROS: i64 = 1000;

/// The moments that a pattern prints: from the first to before the end, and of those the whole numbers
/// of a unit.
#[derive(Clone, Copy, Debug)]
struct Printed {
    first: i64,
    end: i64,
    unit: i64,
}

/// The moments that the pattern prints. A number that is no pattern's prints none.
fn printed_by(pattern: u8) -> Printed
    ensures range { (m : ℤ) → IsPrintable pattern m → (result.first ≤ℤ m) × (m <ℤ result.end) }
    ensures unit { (pos 1 ≤ℤ result.unit) × (result.unit ≤ℤ pos 1_000_000) }
    ensures room { (neg_ℤ (pos (2 ^ 62)) ≤ℤ result.first) × (result.end ≤ℤ pos (2 ^ 62)) }
{
    patterns_print_whole_moments();
    let (first, end, unit) = match pattern {
        0..=5 => (FIRST, END, 1),
        6..=9 => (FIRST, END, 1000),
        10 => (SHORT_FIRST, SHORT_END, 1000),
        11..=16 => (FIRST * MICROS, END * MICROS, 1),
        17..=21 => (FIRST * MICROS, END * MICROS, 1000),
        22..=25 => (FIRST * MICROS, END * MICROS, 1_000_000),
        _ => (SHORT_FIRST * MICROS, SHORT_END * MICROS, 1_000_000),
    };
    Printed { first, end, unit }
}

/// The last whole number of units that is not above a moment.
fn whole_below(moment: i64, unit: i64) -> i64
    requires unit { (pos 1 ≤ℤ unit) × (unit ≤ℤ pos 1_000_000) }
    requires room { neg_ℤ (pos (2 ^ 62)) ≤ℤ moment }
    ensures { result ≤ℤ moment }
{
    moment - moment.rem_euclid(unit)
}

/// The first whole number of units that is not below a moment.
fn whole_above(moment: i64, unit: i64) -> i64
    requires unit { (pos 1 ≤ℤ unit) × (unit ≤ℤ pos 1_000_000) }
    requires room { moment ≤ℤ pos (2 ^ 62) }
    ensures { moment ≤ℤ result }
{
    let rest = moment.rem_euclid(unit);
    if rest == 0 {
        return moment;
    }
    moment + (unit - rest)
}

/// The later of two moments.
fn later(one: i64, other: i64) -> i64
    ensures above { (one ≤ℤ result) × (other ≤ℤ result) }
    ensures least { (m : ℤ) → one ≤ℤ m → other ≤ℤ m → result ≤ℤ m }
{
    if one < other { other } else { one }
}

/// The earlier of two moments.
fn earlier(one: i64, other: i64) -> i64
    ensures below { (result ≤ℤ one) × (result ≤ℤ other) }
    ensures greatest { (m : ℤ) → m ≤ℤ one → m ≤ℤ other → m ≤ℤ result }
{
    if one < other { one } else { other }
}

/// Two moments between which the pattern prints all that it prints between these; `None` where it prints
/// none. They are whole numbers of its unit, so that it prints them too, but where a year is out of its
/// range.
fn narrowed(pattern: u8, least: i64, greatest: i64) -> Option<(i64, i64)>
    ensures some { IfSome result (λ r. (m : ℤ) → IsPrintable pattern m → least ≤ℤ m → m ≤ℤ greatest
        → (r.0 ≤ℤ m) × (m ≤ℤ r.1)) }
    ensures none { IsNone result → (m : ℤ) → IsPrintable pattern m → least ≤ℤ m
        → ¬ (m ≤ℤ greatest) }
{
    let printed = printed_by(pattern);
    let low = later(least, printed.first);
    let high = earlier(greatest, printed.end);
    if high < low {
        return None;
    }
    let unit = printed.unit;
    Some((whole_below(low, unit), whole_above(high, unit)))
}

/// How many bytes at the front two texts have in common.
fn same_front(one: &[u8], other: &[u8]) -> usize
    ensures within { (result ≤ length one.now) × (result ≤ length other.now) }
    ensures same { AreSame one.now other.now result }
{
    for place in 0..one.len() {
        if place >= other.len() || one[place] != other[place] {
            return place;
        }
    }
    one.len()
}

/// Whether each text that begins with this one is below the other, by the first byte that differs.
fn is_below(text: &[u8], other: &[u8]) -> bool
    ensures { IsTrue result → (behind : List ℕ) → ¬ IsNotAbove other.now (text.now ++ behind) }
{
    let place = same_front(text, other);
    place < text.len() && place < other.len() && text[place] < other[place]
}

/// Whether each text that begins with this one is above the other, by the first byte that differs.
fn is_above(text: &[u8], other: &[u8]) -> bool
    ensures { IsTrue result → (behind : List ℕ) → ¬ IsNotAbove (text.now ++ behind) other.now }
{
    let place = same_front(text, other);
    place < text.len() && place < other.len() && other[place] < text[place]
}

/// Whether a text stands at this place in no text that lies between two: where the two have the same
/// bytes before the place, so has each text between them, and what stands there lies between what the
/// two have from there on.
fn is_kept_out(low: &[u8], high: &[u8], text: &[u8], at: usize) -> bool
    ensures { IsTrue result → (stamp : List ℕ) → IsNotAbove low.now stamp
        → IsNotAbove stamp high.now → ¬ StandsAt text.now stamp at }
{
    if at > low.len() || at > high.len() {
        return false;
    }
    let (front, least) = low.split_at(at);
    let (same, greatest) = high.split_at(at);
    front == same && (is_below(text, least) || is_above(text, greatest))
}

/// Whether a text may stand at a place in a stamp of the template that lies between two texts.
fn may_lie_at(template: &[u8], text: &[u8], low: &[u8], high: &[u8], at: usize) -> bool
    ensures { IsFalse result → FitsAt template.now text.now at → (stamp : List ℕ)
        → IsNotAbove low.now stamp → IsNotAbove stamp high.now → ¬ StandsAt text.now stamp at }
{
    fits_at(template, text, at) && !is_kept_out(low, high, text, at)
}

/// Whether a text may stand in a stamp of the pattern that lies between two texts.
fn may_lie_between(pattern: u8, text: &[u8], low: &[u8], high: &[u8]) -> bool
    ensures { IsFalse result → (m : ℤ) (stamp : List ℕ) → Prints pattern m stamp
        → IsNotAbove low.now stamp → IsNotAbove stamp high.now → ¬ Match (around text.now) stamp }
{
    matches_stand();
    places_fit();
    let template = template(pattern);
    for at in 0..LONGEST + 1 {
        if may_lie_at(template, text, low, high, usize::from(at)) {
            return true;
        }
    }
    false
}

/// Whether a text may stand in a stamp that the pattern prints for a moment between two. Takes no memory:
/// it prints the two moments, as near as the pattern does.
pub fn may_hold_between(pattern: u8, text: &[u8], least: i64, greatest: i64) -> bool
    ensures none { IsFalse result → StandsInNoneBetween pattern least greatest text.now }
{
    texts_rise();
    let Some((from, to)) = narrowed(pattern, least, greatest) else {
        return false;
    };
    let mut printer = StampPrinter::new();
    let mut low = [0; 32];
    let Some(low_end) = printer.print_front(pattern, from, &mut low) else {
        return may_hold(pattern, text);
    };
    let mut high = [0; 32];
    let Some(high_end) = printer.print_front(pattern, to, &mut high) else {
        return may_hold(pattern, text);
    };
    may_lie_between(pattern, text, &low[..low_end], &high[..high_end])
}
