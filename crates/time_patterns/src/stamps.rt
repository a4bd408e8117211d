//! The stamps of lines: read, tested and printed.
ghost use Rattle.std.specs.Prelude.{◌≡◌, ◌≤◌, ◌↔◌, take, IsTrue, IfSome, IfNone};
ghost use Rattle.time_patterns.specs.Stamps.{HasNoStamp, IsPrintable, IsStampOf, Prints};
ghost use Rattle.time_patterns.specs.Steps.{IsFirstFit, IsFirstTail, IsSound, IsTail, LacksTail, LackTails, NoneFits};

use crate::civil_time::CivilTime;
use crate::digits::date_digits;
use crate::form::Form;
use crate::patterns::{FORMS, form_of};
use crate::shape::Shape;

/// The time stamp at the front of a line.
#[derive(Clone, Copy, Debug, PartialEq, Eq)]
pub struct Stamp {
    /// The number of its pattern, from 1 on.
    pub pattern: u8,
    /// The milliseconds, or from pattern 11 on the microseconds, from 1970-01-01T00:00:00, read
    /// without zone; negative before it.
    pub moment: i64,
    /// The count of its bytes.
    pub len: u8,
}

// What stands behind the seconds of a stamp, by the pattern that it is of.
#[derive(Clone, Copy, Debug)]
struct Tail<'a> {
    pattern: u8,
    tick: u32,
    microsecond: u32,
    rest: &'a [u8],
}

// The microseconds and the rest of the text, where the form has the shape and its tail stands
// there.
#[inline(always)]
fn read_form<'a>(form: &Form, shape: Shape, text: &'a [u8]) -> Option<(u32, &'a [u8])>
    requires { IsSound form.now }
    ensures some { IfSome result (λ r. (form.now.shape ≡ shape)
        × IsTail form.now text.now r.0 r.1.now) }
    ensures none { IfNone result (form.now.shape ≡ shape → LacksTail form.now text.now) }
{
    if form.shape != shape {
        return None;
    }
    form.read_tail(text)
}

// The tail of the first of the patterns from `first` to before `end` that have the shape and whose
// tail stands at the front of the text.
#[inline(always)]
fn find_tail(shape: Shape, first: u8, end: u8, text: &[u8]) -> Option<Tail<'_>>
    requires { (1 ≤ first) × (end ≤ 27) }
    ensures some { IfSome result (λ r. IsFirstTail shape first end text.now
        r.pattern r.tick r.microsecond r.rest.now) }
    ensures none { IfNone result (LackTails shape first end text.now) }
{
    for pattern in first..end {
        let form = &FORMS[usize::from(pattern) - 1];
        if let Some((microsecond, rest)) = read_form(form, shape, text) {
            return Some(Tail {
                pattern,
                tick: form.tick,
                microsecond,
                rest,
            });
        }
    }
    None
}

// The stamp of the line by the patterns from `first` to before `end`. The day and the time of day
// are read once.
#[inline(always)]
fn read(line: &[u8], first: u8, end: u8) -> Option<Stamp>
    requires { (1 ≤ first) × (end ≤ 27) }
    ensures some { IfSome result (λ s. IsFirstFit first end line.now s.pattern s.moment s.len) }
    ensures none { IfNone result (NoneFits first end line.now) }
{
    let shape = Shape::of(line)?;
    let (numbers, behind) = shape.read(line)?;
    let time = CivilTime::new(shape.first_year(), numbers)?;
    let tail = find_tail(shape, first, end, behind)?;
    let time = time.at_microsecond(tail.microsecond);
    Some(Stamp {
        pattern: tail.pattern,
        moment: time.moment(tail.tick),
        len: (line.len() - tail.rest.len()) as u8,
    })
}

/// The time stamp with which the line begins, where moments count milliseconds: that of the first
/// of the patterns 1 to 10 of which a text stands there, with a delimiter or the line's end behind
/// it. `None` exactly where none of them fits.
pub fn read_stamp(line: &[u8]) -> Option<Stamp>
    ensures some { IfSome result (λ s. IsStampOf 1 line.now s.pattern s.moment s.len) }
    ensures none { IfNone result (HasNoStamp 1 line.now) }
{
    read(line, 1, 11)
}

/// The time stamp with which the line begins, where moments count microseconds: that of the first
/// of the patterns 11 to 26 that fits. `None` exactly where none of them does.
pub fn read_micro(line: &[u8]) -> Option<Stamp>
    ensures some { IfSome result (λ s. IsStampOf 3 line.now s.pattern s.moment s.len) }
    ensures none { IfNone result (HasNoStamp 3 line.now) }
{
    read(line, 11, 27)
}

/// Whether the pattern prints the moment: its number is one of the patterns', the moment lies in
/// its years and is a whole number of its smallest unit.
pub fn stamp_ok(pattern: u8, moment: i64) -> bool
    ensures { IsTrue result ↔ IsPrintable pattern moment }
{
    let Some(form) = form_of(pattern) else {
        return false;
    };
    match form.time(moment) {
        Some(time) => form.shows(time),
        None => false,
    }
}

/// Prints the moment by the pattern to the front of `out`, and gives the length of the text: 17 to
/// 28 bytes. What stands behind it is left open. [`stamp_ok`] is the test of the condition.
pub fn print_stamp(pattern: u8, moment: i64, out: &mut [u8; 32]) -> usize
    requires { IsPrintable pattern moment }
    ensures text { Prints pattern moment (take result out.new) }
    ensures end { result ≤ 32 }
{
    let Some(form) = form_of(pattern) else {
        unreachable!();
    };
    match form.time(moment) {
        Some(time) => form.print(time, date_digits(time.date), out),
        None => unreachable!(),
    }
}
