//! How the texts of stamps begin: the day and the time of day, in five shapes.
ghost use Rattle.std.specs.Prelude.{◌≡◌, ◌≤◌, take, All, None, IfSome, IfNone, pos, ◌≤ℤ◌};
ghost use Rattle.time_patterns.specs.declared.field.Field.{Field};
ghost use Rattle.time_patterns.specs.Digits.{fields_text};
ghost use Rattle.time_patterns.specs.Steps.{AreFields, IsOnlyShape, LacksFields, MayBegin};
ghost use Rattle.time_patterns.specs.declared.civil_time.CivilTime.{CivilTime};
ghost use Rattle.time_patterns.specs.CivilTime.{numbers_of};
ghost use Rattle.time_patterns.specs.Forms.{day_and_time, fields_of, year};
ghost use Rattle.time_patterns.specs.StepsDay.{clock_text, date_text};

use crate::civil_time::CivilTime;
use crate::digits::{ROOM, put};
use crate::field::Field;

/// What stands before and between the numbers of a day and a time.
#[derive(Clone, Copy, Debug, PartialEq, Eq)]
pub enum Shape {
    /// `YYYY-MM-DD HH:MM:SS`.
    Dashed,
    /// `YYYY-MM-DDTHH:MM:SS`.
    Lettered,
    /// `[YYYY-MM-DD HH:MM:SS`.
    Bracketed,
    /// `YYYY/MM/DD HH:MM:SS`.
    Slashed,
    /// `YY/MM/DD HH:MM:SS`, of the years 2000 to 2099.
    Short,
}

// A year at the front, or after a byte.
const YEAR: Field = Field {
    before: None,
    digits: 4,
};

const BRACKET: Field = Field {
    before: Some(b'['),
    digits: 4,
};

const SHORT_YEAR: Field = Field {
    before: None,
    digits: 2,
};

// Two digits after a byte.
const DASH: Field = Field {
    before: Some(b'-'),
    digits: 2,
};

const SLASH: Field = Field {
    before: Some(b'/'),
    digits: 2,
};

const SPACE: Field = Field {
    before: Some(b' '),
    digits: 2,
};

const LETTER_T: Field = Field {
    before: Some(b'T'),
    digits: 2,
};

const COLON: Field = Field {
    before: Some(b':'),
    digits: 2,
};

// The least count of bytes of a shape.
const SHORTEST: usize = 17;

impl Shape {
    ghost use Rattle.time_patterns.specs.Forms.{first_year, last_year};

    /// The year, the month, the day, the hour, the minute and the second, in order.
    #[inline(always)]
    pub fn fields(self) -> [Field; 6]
        ensures { result ≡ fields_of self }
    {
        match self {
            Shape::Dashed => [YEAR, DASH, DASH, SPACE, COLON, COLON],
            Shape::Lettered => [YEAR, DASH, DASH, LETTER_T, COLON, COLON],
            Shape::Bracketed => [BRACKET, DASH, DASH, SPACE, COLON, COLON],
            Shape::Slashed => [YEAR, SLASH, SLASH, SPACE, COLON, COLON],
            Shape::Short => [SHORT_YEAR, SLASH, SLASH, SPACE, COLON, COLON],
        }
    }

    /// The year that is written with zeros alone.
    #[inline(always)]
    pub fn first_year(self) -> u16
        ensures { result ≡ first_year self }
    {
        match self {
            Shape::Short => 2000,
            _ => 0,
        }
    }

    /// The year that is written with nines alone.
    pub fn last_year(self) -> u16
        ensures { result ≡ last_year self }
    {
        match self {
            Shape::Short => 2099,
            _ => 9999,
        }
    }

    /// The one shape that may stand at the front of the line, by a few of its bytes; none where the
    /// line is too short or does not begin with `[` or a digit.
    #[inline(always)]
    pub fn of(line: &[u8]) -> Option<Shape>
        ensures may { IfSome result (λ _. MayBegin line.now) }
        ensures only { IsOnlyShape line.now result }
    {
        if line.len() < SHORTEST {
            return None;
        }
        let first = line[0];
        if first == b'[' {
            return Some(Shape::Bracketed);
        }
        if !first.is_ascii_digit() {
            return None;
        }
        if line[2] == b'/' {
            Some(Shape::Short)
        } else if line[4] == b'/' {
            Some(Shape::Slashed)
        } else if line[10] == b'T' {
            Some(Shape::Lettered)
        } else {
            Some(Shape::Dashed)
        }
    }

    /// Reads the numbers at the front of the text, and gives what is left of it. `None` where the
    /// shape does not stand there.
    #[inline(always)]
    pub fn read<'a>(self, text: &'a [u8]) -> Option<([u32; 6], &'a [u8])>
        ensures some { IfSome result (λ r. AreFields (fields_of self) text.now r.0 r.1.now) }
        ensures none { IfNone result (LacksFields (fields_of self) text.now) }
    {
        match self {
            Shape::Dashed => read_numbers(&Shape::Dashed.fields(), text),
            Shape::Lettered => read_numbers(&Shape::Lettered.fields(), text),
            Shape::Bracketed => read_numbers(&Shape::Bracketed.fields(), text),
            Shape::Slashed => read_numbers(&Shape::Slashed.fields(), text),
            Shape::Short => read_numbers(&Shape::Short.fields(), text),
        }
    }

    /// Writes the day and the time of day to the front of `out`, and gives the place behind them.
    /// The digits of the date are given.
    #[inline(always)]
    pub fn print(self, time: CivilTime, date: [u8; 8], out: &mut [u8; ROOM]) -> usize
        requires from { pos (first_year self) ≤ℤ time.date.year }
        requires to { time.date.year ≤ℤ pos (last_year self) }
        requires date { date ≡ date_text time.date }
        ensures text { take result out.new
            ≡ fields_text (fields_of self) (numbers_of (first_year self) time) }
        ensures end { result ≤ 20 }
    {
        let clock = time.clock_digits();
        match self {
            Shape::Dashed => put(out, 0, &long_front(date, clock, b'-', b' ')),
            Shape::Lettered => put(out, 0, &long_front(date, clock, b'-', b'T')),
            Shape::Bracketed => {
                let at = put(out, 0, b"[");
                put(out, at, &long_front(date, clock, b'-', b' '))
            }
            Shape::Slashed => put(out, 0, &long_front(date, clock, b'/', b' ')),
            Shape::Short => put(out, 0, &short_front(date, clock)),
        }
    }
}

// The numbers at the front of the text, each with the byte before it, and what is left of it.
#[inline(always)]
fn read_numbers<'a>(fields: &[Field; 6], text: &'a [u8]) -> Option<([u32; 6], &'a [u8])>
    requires short { All (λ (f : Field). f.digits ≤ 4) fields.now }
    ensures some { IfSome result (λ r. AreFields fields.now text.now r.0 r.1.now) }
    ensures none { IfNone result (LacksFields fields.now text.now) }
{
    let mut numbers = [0; 6];
    let mut rest = text;
    for (place, field) in fields.iter().enumerate() {
        let (number, after) = field.read(rest)?;
        numbers[place] = number;
        rest = after;
    }
    Some((numbers, rest))
}

// The day and the time of day after a year of four digits, with a byte within the date and one
// behind it.
#[inline(always)]
fn long_front(date: [u8; 8], clock: [u8; 6], between: u8, middle: u8) -> [u8; 19]
    ensures { (t : CivilTime) → date ≡ date_text t.date → clock ≡ clock_text t
        → result ≡ fields_text (day_and_time (year None) between middle) (numbers_of 0 t) }
{
    let [a, b, c, d, e, f, g, h] = date;
    let [i, j, k, l, m, n] = clock;
    [
        a, b, c, d, between, e, f, between, g, h, middle, i, j, b':', k, l, b':', m, n,
    ]
}

// The same after the last two digits of a year from 2000 to 2099.
#[inline(always)]
fn short_front(date: [u8; 8], clock: [u8; 6]) -> [u8; 17]
    ensures { (t : CivilTime) → pos 2000 ≤ℤ t.date.year → t.date.year ≤ℤ pos 2099
        → date ≡ date_text t.date → clock ≡ clock_text t
        → result ≡ fields_text (fields_of Shape.Short) (numbers_of 2000 t) }
{
    let [_, _, c, d, e, f, g, h] = date;
    let [i, j, k, l, m, n] = clock;
    [
        c, d, b'/', e, f, b'/', g, h, b' ', i, j, b':', k, l, b':', m, n,
    ]
}
