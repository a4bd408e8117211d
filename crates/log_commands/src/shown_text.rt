//! How `show` prints a message.
ghost use Rattle.std.specs.Prelude.{◌≡◌, ◌++◌, ◌%◌, ◌≤◌, ℕ, List, OnOk, length, slice_range};
ghost use Rattle.command_answers.specs.Shown.{Shows, hexadecimal_digit, word_end, with_word, marked};
ghost use Rattle.logtype_text.specs.Parts.{AreCodes, IsSplit};
ghost use Rattle.var_codec.specs.Codes.{Codes};

use crate::message_text::MessageText;
use logtype_text::{Span, Split};
use std::alloc::{AllocError, Global};
use var_codec::Coded;

/// The hexadecimal digits.
static DIGITS: [u8; 16] = *b"0123456789ABCDEF";

/// The last hexadecimal digit of a number.
#[inline]
fn last_digit(number: u64) -> u8
    ensures { result ≡ hexadecimal_digit (number % 16) }
{
    DIGITS[(number % 16) as usize]
}

/// What stands behind the text of a variable with its word: `=`, the word as 16 hexadecimal digits in
/// capitals, and `}`.
#[inline]
fn word_end(word: u64) -> [u8; 18]
    ensures { result ≡ word_end word }
{
    [
        b'=',
        last_digit(word >> 60),
        last_digit(word >> 56),
        last_digit(word >> 52),
        last_digit(word >> 48),
        last_digit(word >> 44),
        last_digit(word >> 40),
        last_digit(word >> 36),
        last_digit(word >> 32),
        last_digit(word >> 28),
        last_digit(word >> 24),
        last_digit(word >> 20),
        last_digit(word >> 16),
        last_digit(word >> 12),
        last_digit(word >> 8),
        last_digit(word >> 4),
        last_digit(word),
        b'}',
    ]
}

/// Appends a variable with its word.
#[inline]
fn push_with_word(
    gathered: &mut Vec<u8>,
    mark: &[u8; 3],
    text: &[u8],
    word: u64,
) -> Result<(), AllocError>
    ensures { OnOk result
        (gathered.new.items ≡ gathered.old.items ++ with_word mark.now text.now word) }
{
    gathered.extend_from_slice(mark)?;
    gathered.extend_from_slice(text)?;
    gathered.extend_from_slice(&word_end(word))?;
    Ok(())
}

/// Appends a variable in braces.
fn push_variable(gathered: &mut Vec<u8>, text: &[u8], coded: Coded) -> Result<(), AllocError>
    requires { Codes text.now coded }
    ensures { OnOk result (gathered.new.items ≡ gathered.old.items ++ marked text.now coded) }
{
    match coded {
        Coded::Whole(number) => push_with_word(gathered, b"{i:", text, number.cast_unsigned()),
        Coded::Decimal(word) => push_with_word(gathered, b"{d:", text, word),
        Coded::Word => {
            gathered.extend_from_slice(b"{w:")?;
            gathered.extend_from_slice(text)?;
            gathered.push(b'}')?;
            Ok(())
        }
    }
}

/// Appends the constant bytes from `at` on, and the variable that stands behind them.
#[inline]
fn push_next(
    gathered: &mut Vec<u8>,
    message: &[u8],
    at: usize,
    span: Span,
    coded: Coded,
) -> Result<(), AllocError>
    requires order { at ≤ span.start }
    requires forward { span.start ≤ span.end }
    requires within { span.end ≤ length message.now }
    requires code { Codes (slice_range message.now span.start span.end) coded }
    ensures { OnOk result
        (gathered.new.items
        ≡ (gathered.old.items ++ slice_range message.now at span.start)
        ++ marked (slice_range message.now span.start span.end) coded) }
{
    gathered.extend_from_slice(&message[at..span.start])?;
    push_variable(gathered, &message[span.start..span.end], coded)
}

/// Appends a message as `show` prints it, and a newline.
fn push_message(gathered: &mut Vec<u8>, message: &[u8], split: &Split) -> Result<(), AllocError>
    requires parts { IsSplit message.now split.now.symbols split.now.spans }
    requires codes { AreCodes message.now split.now.spans split.now.codes }
    ensures { OnOk result
        ((text : List ℕ) × (gathered.new.items ≡ gathered.old.items ++ text)
        × Shows message.now text) }
{
    let codes = split.codes.as_slice();
    let mut at = 0;
    for (i, span) in split.spans.as_slice().iter().enumerate() {
        push_next(gathered, message, at, *span, codes[i])?;
        at = span.end;
    }
    gathered.extend_from_slice(&message[at..])?;
    gathered.push(b'\n')?;
    Ok(())
}

/// Prints every message, with its variables in braces.
#[derive(Clone, Copy)]
pub(crate) struct Show {
    /// Where the memory for the parts of a message comes from.
    pub(crate) alloc: Global,
}

impl MessageText for Show {
    ghost tells = { λ _ _ message text. Shows message text };

    type Kept = Split;

    fn kept(&self) -> Split {
        Split::new(self.alloc)
    }

    fn tell(
        &self,
        kept: &mut Split,
        gathered: &mut Vec<u8>,
        _number: u64,
        message: &[u8],
    ) -> Result<(), AllocError> {
        kept.fill(self.alloc, message)?;
        push_message(gathered, message, kept)
    }
}
