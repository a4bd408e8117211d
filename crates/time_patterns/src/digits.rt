//! Numbers with all their digits, two at a time, and the digits of dates.
ghost use Rattle.std.specs.Prelude.{◌≡◌, ◌+◌, ◌<◌, ◌≤◌, ◌++◌, length, take};
ghost use Rattle.time_patterns.specs.Digits.{digits};
ghost use Rattle.time_patterns.specs.StepsDay.{date_text, HasFourDigits};

use jiff_core::civil::Date;

/// The most bytes of a stamp, and a few more.
pub const ROOM: usize = 32;

// The two digits of each number below 100.
static PAIRS: [u8; 200] =
    *b"00010203040506070809101112131415161718192021222324252627282930313233343536373839404142434445464748495051525354555657585960616263646566676869707172737475767778798081828384858687888990919293949596979899";

/// The two digits of a number below 100.
#[inline(always)]
pub fn two_digits(number: u32) -> [u8; 2]
    requires { number < 100 }
    ensures { result ≡ digits 2 number }
{
    let from = number as usize * 2;
    [PAIRS[from], PAIRS[from + 1]]
}

/// The three digits of a number below 1000.
#[inline(always)]
pub fn three_digits(number: u32) -> [u8; 3]
    requires { number < 1000 }
    ensures { result ≡ digits 3 number }
{
    let [hundreds, tens] = two_digits(number / 10);
    [hundreds, tens, b'0' + (number % 10) as u8]
}

/// The six digits of a number below a million.
#[inline(always)]
pub fn six_digits(number: u32) -> [u8; 6]
    requires { number < 1_000_000 }
    ensures { result ≡ digits 6 number }
{
    let [a, b] = two_digits(number / 10_000);
    let [c, d] = two_digits(number / 100 % 100);
    let [e, f] = two_digits(number % 100);
    [a, b, c, d, e, f]
}

/// The four digits of the year, the two of the month and the two of the day.
pub fn date_digits(date: Date) -> [u8; 8]
    requires { HasFourDigits date.year }
    ensures { result ≡ date_text date }
{
    let year = u32::from(date.year.unsigned_abs());
    let [a, b] = two_digits(year / 100);
    let [c, d] = two_digits(year % 100);
    let [e, f] = two_digits(u32::from(date.month));
    let [g, h] = two_digits(u32::from(date.day));
    [a, b, c, d, e, f, g, h]
}

/// Copies the bytes to a place, and gives the place behind them.
#[inline(always)]
pub fn put(out: &mut [u8; ROOM], at: usize, bytes: &[u8]) -> usize
    requires { at + length bytes.now ≤ 32 }
    ensures end { result ≡ at + length bytes.now }
    ensures written { take result out.new ≡ take at out.old ++ bytes.now }
{
    let end = at + bytes.len();
    out[at..end].copy_from_slice(bytes);
    end
}
