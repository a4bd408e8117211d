//! The words of a line of a script, and what they stand for.
use column_store::Row;
use plain_list::{NumberList, WordList};
use std::alloc::{AllocError, Global};

/// The first word of a line, and what stands behind it; None where no word is left, or a comment
/// alone.
fn first_word(line: &str) -> Option<(&str, &str)> {
    let line = line.trim_start();
    if line.is_empty() || line.starts_with('#') {
        return None;
    }
    match line.strip_prefix('"') {
        Some(quoted) => quoted.split_once('"'),
        None => Some(line.split_once(' ').unwrap_or((line, ""))),
    }
}

/// The words of a line. A text in quotes is one word, which has no quotes.
pub(crate) fn words_of<'a>(alloc: Global, line: &'a str) -> Result<Vec<&'a str>, AllocError> {
    let mut words = Vec::new(alloc);
    let mut rest = line;
    for _ in 0..line.len() {
        let Some((word, behind)) = first_word(rest) else {
            break;
        };
        words.push(word)?;
        rest = behind;
    }
    Ok(words)
}

/// The value of a digit to the base of sixteen.
fn digit(byte: u8) -> u8 {
    match byte {
        b'0'..=b'9' => byte - b'0',
        b'A'..=b'F' => byte - b'A' + 10,
        _ => 0,
    }
}

/// The byte of two such digits, and what stands behind them.
fn hexed(rest: &[u8]) -> Option<(u8, &[u8])> {
    let (&high, rest) = rest.split_first()?;
    let (&low, rest) = rest.split_first()?;
    Some((digit(high).wrapping_mul(16).wrapping_add(digit(low)), rest))
}

/// The byte that stands behind a backslash, and what stands behind that.
fn escaped(rest: &[u8]) -> Option<(u8, &[u8])> {
    let (&byte, rest) = rest.split_first()?;
    match byte {
        b'n' => Some((b'\n', rest)),
        b'x' => hexed(rest),
        _ => Some((byte, rest)),
    }
}

/// The first byte of a text, and what stands behind it.
fn first_byte(rest: &[u8]) -> Option<(u8, &[u8])> {
    let (&byte, rest) = rest.split_first()?;
    if byte == b'\\' {
        return escaped(rest);
    }
    Some((byte, rest))
}

/// The bytes of a text, which are written with the escapes `\n`, `\\` and `\xHH`.
pub(crate) fn text_of(alloc: Global, word: &str) -> Result<Vec<u8>, AllocError> {
    let mut text = Vec::new(alloc);
    let mut rest = word.as_bytes();
    for _ in 0..word.len() {
        let Some((byte, behind)) = first_byte(rest) else {
            break;
        };
        text.push(byte)?;
        rest = behind;
    }
    Ok(text)
}

/// The number of these digits to a base.
fn number_to(base: u64, digits: &str) -> u64 {
    let mut number = 0u64;
    for &byte in digits.as_bytes() {
        number = number
            .wrapping_mul(base)
            .wrapping_add(u64::from(digit(byte)));
    }
    number
}

/// A number in digits, to the base of sixteen behind `0x`.
fn natural_of(word: &str) -> u64 {
    match word.strip_prefix("0x") {
        Some(digits) => number_to(16, digits),
        None => number_to(10, word),
    }
}

/// A number, whose two's complement it is where it stands behind a `-`.
pub(crate) fn number_of(word: &str) -> u64 {
    match word.strip_prefix('-') {
        Some(word) => natural_of(word).wrapping_neg(),
        None => natural_of(word),
    }
}

/// A number of four bytes: the greatest one where it is too great.
pub(crate) fn small_of(word: &str) -> u32 {
    u32::try_from(number_of(word)).unwrap_or(u32::MAX)
}

/// A number of one byte: the greatest one where it is too great.
pub(crate) fn byte_of(word: &str) -> u8 {
    u8::try_from(number_of(word)).unwrap_or(u8::MAX)
}

/// A moment.
pub(crate) fn moment_of(word: &str) -> i64 {
    number_of(word).cast_signed()
}

/// Numbers with commas between them. None are written `-`.
pub(crate) fn numbers_of(alloc: Global, word: &str) -> Result<Vec<u64>, AllocError> {
    let mut numbers = Vec::new(alloc);
    if word == "-" {
        return Ok(numbers);
    }
    for part in word.split(',') {
        numbers.push(number_of(part))?;
    }
    Ok(numbers)
}

/// Numbers of texts, with commas between them. None are written `-`.
pub(crate) fn list_of(alloc: Global, word: &str) -> Result<NumberList, AllocError> {
    let mut numbers = Vec::new(alloc);
    if word == "-" {
        return Ok(NumberList::new(numbers));
    }
    for part in word.split(',') {
        numbers.push(small_of(part))?;
    }
    Ok(NumberList::new(numbers))
}

/// The moment of a bound. None is written `-`.
pub(crate) fn bound_of(word: &str) -> Option<i64> {
    (word != "-").then_some(moment_of(word))
}

/// The pattern and the moment of a stamp: `PATTERN:MOMENT`.
pub(crate) fn stamp_of(word: &str) -> (u8, i64) {
    let (pattern, moment) = word.split_once(':').unwrap_or(("0", word));
    (byte_of(pattern), moment_of(moment))
}

/// A row: `TYPE:WORDS`, or `TYPE:WORDS@PATTERN:MOMENT` where it has a stamp.
pub(crate) fn row_of(alloc: Global, word: &str) -> Result<Row, AllocError> {
    let (body, stamp) = word.split_once('@').unwrap_or((word, "0:0"));
    let (log_type, words) = body.split_once(':').unwrap_or((body, "-"));
    let (pattern, moment) = stamp_of(stamp);
    let words = WordList::new(numbers_of(alloc, words)?);
    Ok(Row {
        pattern,
        moment,
        log_type: small_of(log_type),
        words,
    })
}

/// What a question is answered by.
pub(crate) fn answer_of(is_so: bool) -> &'static str {
    if is_so { "yes" } else { "no" }
}
