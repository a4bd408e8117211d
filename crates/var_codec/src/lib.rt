//! Variables as 64-bit words: which text has which word, and back.
//!
//! A variable is a whole number, a decimal or a word of a dictionary. The texts of the first two have
//! words of their own and are not stored: each text has exactly one word, and no two whole numbers, and
//! no two decimals, share one.
#![tactic(auto)]

mod laws;
mod printing;
mod reading;

pub use laws::{one_decimal_text, one_whole_text, one_word};
pub use printing::{append_whole, decimal_ok, decimal_text, whole_text};
pub use reading::encode;

// The most digits of a decimal.
const MAX_DECIMAL_DIGITS: usize = 16;

/// What a variable's text is coded as.
#[derive(Clone, Copy, Debug, PartialEq, Eq)]
pub enum Coded {
    /// The plain decimal print of this number: `0`, or an optional `-`, a digit 1 to 9 and further
    /// digits. `-0`, `007` and `+5` are no such print.
    Whole(i64),
    /// An optional `-` and 1 to 16 digits with one point among or before them, and at least one digit
    /// after it. The word has from the top 1 bit for the sign, 1 bit that is zero, 54 bits for the
    /// digits read as one number, 4 bits for the count of digits less 1, and 4 bits for the count of
    /// digits after the point less 1.
    Decimal(u64),
    /// Any other text, which goes to a dictionary.
    Word,
}
