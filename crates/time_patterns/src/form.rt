//! The form of a pattern, and what is read and printed by it.
ghost use Rattle.std.specs.Prelude.{◌≡◌, ◌≢◌, ℤ, pos, ◌*ℤ◌, ◌+◌, ◌^◌, ◌<◌, ◌≤◌, ◌↔◌, ◌++◌, length, take, IsTrue, IfSome, IfNone};
ghost use Rattle.time_patterns.specs.Stamps.{EndsStamp};
ghost use Rattle.time_patterns.specs.Forms.{fraction_text};
ghost use Rattle.time_patterns.specs.Steps.{digits_of, IsFewDigits, IsFraction, LacksFraction};

use crate::civil_time::CivilTime;
use crate::digits::ROOM;
use crate::field::{self, Field};
use crate::shape::Shape;
use token_rules::is_delim;

/// The form of a pattern: how its text begins, the fraction of the second if it has one, the byte
/// that ends its text, its smallest unit, and the tick that its moments count, both in
/// microseconds.
#[derive(Clone, Copy, Debug)]
pub struct Form {
    pub shape: Shape,
    pub fraction: Option<Field>,
    pub close: Option<u8>,
    pub unit: u32,
    pub tick: u32,
}

// The fraction at the front of the text, 0 where there is to be none, and what is left of it.
#[inline(always)]
fn read_fraction(fraction: Option<Field>, text: &[u8]) -> Option<(u32, &[u8])>
    requires { digits_of fraction ≤ 6 }
    ensures some { IfSome result (λ r. IsFraction fraction text.now r.0 r.1.now) }
    ensures none { IfNone result (LacksFraction fraction text.now) }
{
    match fraction {
        Some(field) => field.read(text),
        None => Some((0, text)),
    }
}

// Writes the fraction at the place, if there is to be one, and gives the place behind it.
#[inline(always)]
fn write_fraction(fraction: Option<Field>, number: u32, out: &mut [u8; ROOM], at: usize) -> usize
    requires digits { IsFewDigits (digits_of fraction) }
    requires number { number < 10 ^ digits_of fraction }
    requires room { at + length (fraction_text fraction number) ≤ 32 }
    ensures text { take result out.new ≡ take at out.old ++ fraction_text fraction number }
    ensures end { result ≡ at + length (fraction_text fraction number) }
{
    match fraction {
        Some(field) => field.write(number, out, at),
        None => at,
    }
}

// Whether a stamp may end in front of this: nothing or a delimiter follows.
#[inline(always)]
fn ends_stamp(rest: &[u8]) -> bool
    ensures { IsTrue result ↔ EndsStamp rest.now }
{
    match rest {
        [] => true,
        [next, ..] => is_delim(*next),
    }
}

impl Form {
    ghost use Rattle.time_patterns.specs.Steps.{IsSound, IsTail, LacksTail};
    ghost use Rattle.time_patterns.specs.Forms.{IsTimeOf, text_of};
    ghost use Rattle.time_patterns.specs.CivilTime.{micros_of};
    ghost use Rattle.time_patterns.specs.StepsDay.{date_text};

    /// Reads what stands behind the seconds, and gives the microseconds of the second and what is
    /// left of the text. `None` where it does not stand there, or what follows does not end a
    /// stamp.
    #[inline(always)]
    pub fn read_tail<'a>(&self, text: &'a [u8]) -> Option<(u32, &'a [u8])>
        requires { IsSound self.now }
        ensures some { IfSome result (λ r. IsTail self.now text.now r.0 r.1.now) }
        ensures none { IfNone result (LacksTail self.now text.now) }
    {
        let (number, rest) = read_fraction(self.fraction, text)?;
        let rest = field::skip_byte(self.close, rest)?;
        if !ends_stamp(rest) {
            return None;
        }
        Some((number * self.unit, rest))
    }

    /// The microseconds from 1970-01-01T00:00:00 to the moment, where some time can be as many.
    #[inline(always)]
    pub fn micros(&self, moment: i64) -> Option<i64>
        requires { IsSound self.now }
        ensures some { IfSome result (λ n. n ≡ moment *ℤ pos self.now.tick) }
        ensures none { IfNone result ((c : CivilTime) → micros_of c ≢ moment *ℤ pos self.now.tick) }
    {
        moment.checked_mul(i64::from(self.tick))
    }

    /// The time of the moment, where the calendar reaches it.
    pub fn time(&self, moment: i64) -> Option<CivilTime>
        requires { IsSound self.now }
        ensures some { IfSome result (λ c. micros_of c ≡ moment *ℤ pos self.now.tick) }
        ensures none { IfNone result ((c : CivilTime) → micros_of c ≢ moment *ℤ pos self.now.tick) }
    {
        CivilTime::at(self.micros(moment)?)
    }

    /// Whether the form prints that time: it is in its years, and a whole number of its units.
    pub fn shows(&self, time: CivilTime) -> bool
        requires { IsSound self.now }
        ensures { IsTrue result ↔ IsTimeOf self.now time }
    {
        let year = time.date.year;
        year >= self.shape.first_year() as i16
            && year <= self.shape.last_year() as i16
            && time.microsecond.is_multiple_of(self.unit)
    }

    /// Prints the time, and gives the length of its text. The digits of its date are given.
    #[inline(always)]
    pub fn print(&self, time: CivilTime, date: [u8; 8], out: &mut [u8; ROOM]) -> usize
        requires sound { IsSound self.now }
        requires shown { IsTimeOf self.now time }
        requires date { date ≡ date_text time.date }
        ensures text { take result out.new ≡ text_of self.now time }
        ensures end { result ≤ 32 }
    {
        let at = self.shape.print(time, date, out);
        let at = write_fraction(self.fraction, time.microsecond / self.unit, out, at);
        field::write_byte(self.close, out, at)
    }
}
