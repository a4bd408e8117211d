//! Numbers as they are written.
ghost use Rattle.std.specs.Prelude.{◌≡◌, ◌<◌, ◌^◌, ℕ, ℤ, IfSome, Some, FitsSigned};
ghost use Rattle.std.specs.Fmt.{decimal, signed_decimal};
ghost use mir.Syntax.{w64};
ghost use Rattle.command_words.specs.Values.{IsNumber};

use var_codec::{Coded, encode};

/// The number of 64 signed bits that the text is the plain decimal print of.
pub(crate) fn read_moment(text: &str) -> Option<i64>
    ensures fits { IfSome result (FitsSigned w64) }
    ensures some { IfSome result (λ z. text.now ≡ signed_decimal z) }
    ensures all { (z : ℤ) → FitsSigned w64 z → text.now ≡ signed_decimal z → result ≡ Some z }
{
    match encode(text.as_bytes()) {
        Coded::Whole(number) => Some(number),
        Coded::Decimal(_) | Coded::Word => None,
    }
}

/// The number below 2 ^ 63 that the text is the plain decimal print of.
fn read_plain(text: &str) -> Option<u64>
    ensures some { IfSome result (λ number. text.now ≡ decimal number) }
    ensures all { (number : ℕ) → number < 2 ^ 63 → text.now ≡ decimal number
        → result ≡ Some number }
{
    match encode(text.as_bytes()) {
        Coded::Whole(number) => u64::try_from(number).ok(),
        Coded::Decimal(_) | Coded::Word => None,
    }
}

/// The number from `least` to `most` that the text is the plain decimal print of.
pub(crate) fn read_number(text: &str, least: u64, most: u64) -> Option<u64>
    requires { most < 2 ^ 63 }
    ensures some { IfSome result (IsNumber least most text.now) }
    ensures all { (n : ℕ) → IsNumber least most text.now n → result ≡ Some n }
{
    let number = read_plain(text)?;
    if number < least || most < number {
        return None;
    }
    Some(number)
}
