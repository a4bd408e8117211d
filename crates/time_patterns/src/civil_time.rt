//! A day of the calendar with a time of that day, and the microseconds that count to it.
ghost use Rattle.std.specs.Prelude.{◌≡◌, ◌≢◌, ◌%◌, ◌<◌, ◌≤◌, ◌⊎◌, pos, ◌*ℤ◌, IfSome, IfNone};

use crate::digits::two_digits;
use jiff_core::civil::Date;

/// The microseconds of a day.
pub const DAY: i64 = 86_400_000_000;

/// A day of the proleptic Gregorian calendar, and a time of that day.
#[derive(Clone, Copy, Debug)]
pub struct CivilTime {
    pub date: Date,
    pub hour: u8,
    pub minute: u8,
    pub second: u8,
    pub microsecond: u32,
    pub ghost hour_in: { hour < 24 },
    pub ghost minute_in: { minute < 60 },
    pub ghost second_in: { second < 60 },
    pub ghost microsecond_in: { microsecond < 1_000_000 },
}

impl CivilTime {
    ghost use Rattle.time_patterns.specs.declared.civil_time.CivilTime.{CivilTime};
    ghost use Rattle.time_patterns.specs.CivilTime.{clock_of, micros_of};
    ghost use Rattle.time_patterns.specs.Steps.{HasNumbers, NoneHasNumbers};
    ghost use Rattle.time_patterns.specs.StepsDay.{clock_text};

    /// The time with these numbers: the years after `first_year`, the month, the day, the hour,
    /// the minute and the second. `None` where the calendar lacks the day or a day lacks the time.
    #[inline(always)]
    pub fn new(first_year: u16, numbers: [u32; 6]) -> Option<CivilTime>
        requires { first_year ≤ 9999 }
        ensures some { IfSome result (HasNumbers first_year numbers) }
        ensures none { IfNone result (NoneHasNumbers first_year numbers) }
    {
        let [years, month, day, hour, minute, second] = numbers;
        if years > 9999 || month > 12 || day > 31 || hour > 23 || minute > 59 || second > 59 {
            return None;
        }
        let year = u32::from(first_year) + years;
        let Ok(date) = Date::new(year as i16, month as i8, day as i8) else {
            return None;
        };
        Some(CivilTime {
            date,
            hour: hour as u8,
            minute: minute as u8,
            second: second as u8,
            microsecond: 0,
        })
    }

    /// The same second with other microseconds behind it.
    #[inline(always)]
    pub fn at_microsecond(self, microsecond: u32) -> CivilTime
        requires { microsecond < 1_000_000 }
        ensures date { result.date ≡ self.date }
        ensures hour { result.hour ≡ self.hour }
        ensures minute { result.minute ≡ self.minute }
        ensures second { result.second ≡ self.second }
        ensures microsecond { result.microsecond ≡ microsecond }
    {
        CivilTime {
            date: self.date,
            hour: self.hour,
            minute: self.minute,
            second: self.second,
            microsecond,
        }
    }

    /// The microseconds from 1970-01-01T00:00:00 to this time, negative before it.
    pub fn micros(self) -> i64
        ensures { result ≡ micros_of self }
    {
        let minutes = u32::from(self.hour) * 60 + u32::from(self.minute);
        let seconds = minutes * 60 + u32::from(self.second);
        let clock = i64::from(seconds) * 1_000_000 + i64::from(self.microsecond);
        i64::from(self.date.to_unix_epoch_day()) * DAY + clock
    }

    /// The count of ticks from 1970-01-01T00:00:00 to this time, where a tick is 1 or 1000
    /// microseconds.
    #[inline(always)]
    pub fn moment(self, tick: u32) -> i64
        requires { (tick ≡ 1) ⊎ ((tick ≡ 1000) × (self.microsecond % 1000 ≡ 0)) }
        ensures { micros_of self ≡ result *ℤ pos tick }
    {
        if tick == 1 {
            self.micros()
        } else {
            self.micros().div_euclid(1000)
        }
    }

    /// The two digits of the hour, the minute and the second.
    #[inline(always)]
    pub fn clock_digits(self) -> [u8; 6]
        ensures { result ≡ clock_text self }
    {
        let [a, b] = two_digits(u32::from(self.hour));
        let [c, d] = two_digits(u32::from(self.minute));
        let [e, f] = two_digits(u32::from(self.second));
        [a, b, c, d, e, f]
    }

    /// The time so many microseconds after 1970-01-01T00:00:00, where the calendar reaches it.
    pub fn at(micros: i64) -> Option<CivilTime>
        ensures some { IfSome result (λ c. micros_of c ≡ micros) }
        ensures none { IfNone result ((c : CivilTime) → micros_of c ≢ micros) }
    {
        let Ok(date) = Date::from_unix_epoch_day(micros.div_euclid(DAY)) else {
            return None;
        };
        Some(CivilTime::on(date, micros.rem_euclid(DAY) as u64))
    }

    /// The time so many microseconds after the day began.
    #[inline(always)]
    pub fn on(date: Date, clock: u64) -> CivilTime
        requires { clock < 86_400_000_000 }
        ensures date { result.date ≡ date }
        ensures clock { clock_of result ≡ clock }
    {
        let seconds = (clock / 1_000_000) as u32;
        CivilTime {
            date,
            hour: (seconds / 3600) as u8,
            minute: (seconds / 60 % 60) as u8,
            second: (seconds % 60) as u8,
            microsecond: (clock % 1_000_000) as u32,
        }
    }
}
