//! The texts that may stand in those of numbers.
ghost use Rattle.std.specs.Prelude.{◌≡◌, IsFalse, None, false, true};
ghost use Rattle.subquery_filter.specs.NumberText.{is_digits, is_number_part, is_plain, unsigned};

use var_codec::Coded;

/// A text without the sign in front.
pub(crate) fn unsigned(text: &[u8]) -> &[u8]
    ensures { result.now ≡ unsigned text.now }
{
    match text {
        [b'-', digits @ ..] => digits,
        _ => text,
    }
}

/// Whether a text is digits alone, and one point where that is allowed.
pub(crate) fn is_digits(mut point: bool, text: &[u8]) -> bool
    ensures { result ≡ is_digits point text.now }
{
    let mut rest = text;
    while let Some((first, behind)) = rest.split_first() {
        if !first.is_ascii_digit() {
            if !(point && *first == b'.') {
                return false;
            }
            point = false;
        }
        rest = behind;
    }
    true
}

/// Whether a token with this text, which is stored so where it is a closed variable, is none and may
/// stand in the text of a number.
pub(crate) fn is_open(closed: Option<Coded>, text: &[u8]) -> bool
    ensures { IsFalse result → closed ≡ None → is_number_part true text.now ≡ false }
{
    closed.is_none() && is_digits(true, unsigned(text))
}

/// Whether a token with this text, which is stored so where it is a closed variable, is none and may
/// stand in the text of a whole number without a sign.
pub(crate) fn is_open_whole(closed: Option<Coded>, text: &[u8]) -> bool
    ensures { IsFalse result → closed ≡ None → is_digits false text.now ≡ false }
{
    closed.is_none() && is_digits(false, text)
}

/// Whether a text is digits alone, the first of which is no zero.
pub(crate) fn is_plain(text: &[u8]) -> bool
    ensures { result ≡ is_plain text.now }
{
    match text.split_first() {
        Some((first, behind)) => *first >= b'1' && *first <= b'9' && is_digits(false, behind),
        None => false,
    }
}
