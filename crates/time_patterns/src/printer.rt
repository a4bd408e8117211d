//! Stamps printed one after the other.
ghost use Rattle.std.specs.Prelude.{◌≡◌, ◌≤◌, ◌++◌, ◌↔◌, ℕ, List, take, pos, ◌*ℤ◌, IsTrue, IsFalse, IfSome, IfNone, IfOk, OnOk, OnErr};
ghost use Rattle.time_patterns.specs.Stamps.{IsPrintable, Prints};
ghost use Rattle.time_patterns.specs.StepsDay.{date_text, start_of, HasFourDigits, IsUnshown, IsWithinDay};

use crate::civil_time::{CivilTime, DAY};
use crate::digits::{ROOM, date_digits};
use crate::form::Form;
use crate::patterns::form_of;
use jiff_core::civil::Date;
use std::alloc::AllocError;

/// A day whose year has four digits, the microsecond at which it begins, and the digits of its
/// date.
#[derive(Clone, Copy, Debug)]
struct PrintedDay {
    date: Date,
    start: i64,
    digits: [u8; 8],
    ghost year_in: { HasFourDigits date.year },
    ghost start_is: { start ≡ start_of date },
    ghost digits_are: { digits ≡ date_text date },
}

impl PrintedDay {
    ghost use Rattle.time_patterns.specs.CivilTime.{micros_of};

    /// The day in which the microsecond lies, where its year has four digits.
    fn of(micros: i64) -> Option<PrintedDay>
        ensures some { IfSome result (λ day. IsWithinDay day.start micros) }
        ensures none { IfNone result (IsUnshown micros) }
    {
        let Ok(date) = Date::from_unix_epoch_day(micros.div_euclid(DAY)) else {
            return None;
        };
        if !has_four_digits(date) {
            return None;
        }
        Some(PrintedDay {
            date,
            start: start_of_day(date),
            digits: date_digits(date),
        })
    }

    /// Whether the microsecond lies in the day.
    #[inline(always)]
    fn holds(&self, micros: i64) -> bool
        ensures { IsTrue result ↔ IsWithinDay self.now.start micros }
    {
        self.start <= micros && micros <= self.start + (DAY - 1)
    }

    /// The time of that microsecond.
    #[inline(always)]
    fn time(&self, micros: i64) -> CivilTime
        requires { IsWithinDay self.now.start micros }
        ensures date { result.date ≡ self.now.date }
        ensures micros { micros_of result ≡ micros }
    {
        CivilTime::on(self.date, (micros - self.start) as u64)
    }
}

// Whether the year of the date has four digits.
fn has_four_digits(date: Date) -> bool
    ensures { IsTrue result ↔ HasFourDigits date.year }
{
    date.year >= 0 && date.year <= 9999
}

// The microsecond at which the day begins.
fn start_of_day(date: Date) -> i64
    ensures { result ≡ start_of date }
{
    i64::from(date.to_unix_epoch_day()) * DAY
}

/// Prints stamps, and keeps the day of the last one: where the next one lies in the same day, its
/// date is not computed again.
#[derive(Debug, Drop)]
pub struct StampPrinter {
    day: Option<PrintedDay>,
}

impl StampPrinter {
    ghost use Rattle.time_patterns.specs.CivilTime.{micros_of};
    ghost use Rattle.time_patterns.specs.Steps.{IsSound};

    /// A printer that knows no day yet. It takes no memory, now or later.
    pub fn new() -> StampPrinter {
        StampPrinter { day: None }
    }

    /// Prints the moment by the pattern to the front of `out`, and gives the length of the text: 17
    /// to 28 bytes. What stands behind it is left open. `None` exactly where the pattern does not
    /// print the moment.
    #[inline]
    pub fn print_front(&mut self, pattern: u8, moment: i64, out: &mut [u8; 32]) -> Option<usize>
        ensures end { IfSome result (λ len. len ≤ 32) }
        ensures text { IfSome result (λ len. Prints pattern moment (take len out.new)) }
        ensures none { IfNone result (¬ IsPrintable pattern moment) }
    {
        let form = form_of(pattern)?;
        let (time, date) = self.time_of(&form, moment)?;
        if !form.shows(time) {
            return None;
        }
        Some(form.print(time, date, out))
    }

    /// Appends the moment by the pattern, where the pattern prints it, and tells whether it does.
    /// Where it does not, and without memory, nothing is appended.
    #[inline]
    pub fn print_fitting(
        &mut self,
        pattern: u8,
        moment: i64,
        out: &mut Vec<u8>,
    ) -> Result<bool, AllocError>
        ensures printed { IfOk result (λ fits. IsTrue fits → ((text : List ℕ)
            × Prints pattern moment text × (out.new.items ≡ out.old.items ++ text))) }
        ensures misfit { IfOk result (λ fits. IsFalse fits → ¬ IsPrintable pattern moment) }
        ensures left { IfOk result (λ fits. IsFalse fits → out.new.items ≡ out.old.items) }
        ensures kept { OnErr result (out.new.items ≡ out.old.items) }
    {
        let mut text = [0; ROOM];
        let Some(len) = self.print_front(pattern, moment, &mut text) else {
            return Ok(false);
        };
        append_front(out, &text, len)?;
        Ok(true)
    }

    /// Appends the moment by the pattern. Without memory nothing is appended.
    /// [`stamp_ok`](crate::stamp_ok) is the test of the condition.
    pub fn print(&mut self, pattern: u8, moment: i64, out: &mut Vec<u8>) -> Result<(), AllocError>
        requires { IsPrintable pattern moment }
        ensures printed { OnOk result ((text : List ℕ)
            × Prints pattern moment text × (out.new.items ≡ out.old.items ++ text)) }
        ensures kept { OnErr result (out.new.items ≡ out.old.items) }
    {
        if !self.print_fitting(pattern, moment, out)? {
            unreachable!();
        }
        Ok(())
    }

    // The time of the moment and the digits of its date, where its year has four.
    #[inline(always)]
    fn time_of(&mut self, form: &Form, moment: i64) -> Option<(CivilTime, [u8; 8])>
        requires { IsSound form.now }
        ensures time { IfSome result (λ r. micros_of r.0 ≡ moment *ℤ pos form.now.tick) }
        ensures date { IfSome result (λ r. r.1 ≡ date_text (r.0).date) }
        ensures none { IfNone result (IsUnshown (moment *ℤ pos form.now.tick)) }
    {
        let micros = form.micros(moment)?;
        let day = self.day_of(micros)?;
        Some((day.time(micros), day.digits))
    }

    // The day in which the microsecond lies, where its year has four digits.
    #[inline(always)]
    fn day_of(&mut self, micros: i64) -> Option<PrintedDay>
        ensures some { IfSome result (λ day. IsWithinDay day.start micros) }
        ensures none { IfNone result (IsUnshown micros) }
    {
        if let Some(day) = self.day {
            if day.holds(micros) {
                return Some(day);
            }
        }
        let day = PrintedDay::of(micros)?;
        self.day = Some(day);
        Some(day)
    }
}

// Appends so many bytes of the front of a text: all of it is copied, and what is behind them is taken
// back, since a copy of a fixed width costs less than a call.
#[inline(always)]
fn append_front(out: &mut Vec<u8>, text: &[u8; ROOM], len: usize) -> Result<(), AllocError>
    requires { len ≤ 32 }
    ensures put { OnOk result (out.new.items ≡ out.old.items ++ take len text.now) }
    ensures kept { OnErr result (out.new.items ≡ out.old.items) }
{
    let end = out.len() + len;
    out.extend_from_slice(text)?;
    out.truncate(end);
    Ok(())
}
