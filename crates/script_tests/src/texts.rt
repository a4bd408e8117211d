//! The words of a line of a script, and the texts and numbers that have names.
use std::alloc::{AllocError, Global};

/// A text that has a name.
#[derive(Drop)]
pub(crate) struct Named {
    name: Vec<u8>,
    text: Vec<u8>,
}

/// The first word of a line, whether it stood in quotes, and what stands behind it. None where no word is
/// left, or a comment alone.
fn first_word(line: &str) -> Option<(&str, bool, &str)> {
    let line = line.trim_start();
    if line.is_empty() || line.starts_with('#') {
        return None;
    }
    match line.strip_prefix('"') {
        Some(quoted) => {
            let (word, rest) = quoted.split_once('"')?;
            Some((word, true, rest))
        }
        None => {
            let (word, rest) = line.split_once(' ').unwrap_or((line, ""));
            Some((word, false, rest))
        }
    }
}

/// What a line begins with, and what stands behind it; None where the line has nothing.
pub(crate) fn verb_of(line: &str) -> Option<(&str, &str)> {
    let (verb, _, rest) = first_word(line)?;
    Some((verb, rest))
}

/// The value of a digit of a number to the base of sixteen.
fn digit(byte: u8) -> u8 {
    match byte {
        b'0'..=b'9' => byte - b'0',
        b'a'..=b'f' => byte - b'a' + 10,
        b'A'..=b'F' => byte - b'A' + 10,
        _ => 0,
    }
}

/// The byte of two such digits, and what stands behind them.
fn hexed(rest: &[u8]) -> Option<(u8, &[u8])> {
    let (&high, rest) = rest.split_first()?;
    let (&low, rest) = rest.split_first()?;
    Some((digit(high).wrapping_mul(16).wrapping_add(digit(low)), rest))
}

/// The byte that stands behind a backslash, and what stands behind that.
fn escaped(rest: &[u8]) -> Option<(u8, &[u8])> {
    let (&byte, rest) = rest.split_first()?;
    match byte {
        b'n' => Some((b'\n', rest)),
        b'r' => Some((b'\r', rest)),
        b't' => Some((b'\t', rest)),
        b'0' => Some((0, rest)),
        b'x' => hexed(rest),
        _ => Some((byte, rest)),
    }
}

/// The first byte of a quoted text, and what stands behind it.
fn first_byte(rest: &[u8]) -> Option<(u8, &[u8])> {
    let (&byte, rest) = rest.split_first()?;
    if byte == b'\\' {
        return escaped(rest);
    }
    Some((byte, rest))
}

/// The bytes of a quoted text.
fn unquoted(alloc: Global, quoted: &[u8]) -> Result<Vec<u8>, AllocError> {
    let mut text = Vec::new(alloc);
    let mut rest = quoted;
    for _ in 0..quoted.len() {
        let Some((byte, behind)) = first_byte(rest) else {
            break;
        };
        text.push(byte)?;
        rest = behind;
    }
    Ok(text)
}

/// The place of the text with this name.
fn place_of(texts: &[Named], name: &[u8]) -> Option<usize> {
    for (place, named) in texts.iter().enumerate() {
        if named.name.as_slice() == name {
            return Some(place);
        }
    }
    None
}

/// The text with this name.
fn text_of<'a>(texts: &'a [Named], name: &[u8]) -> Option<&'a [u8]> {
    let named = texts.get(place_of(texts, name)?)?;
    Some(named.text.as_slice())
}

/// Gives a text this name, whatever had it before.
pub(crate) fn put_text(
    alloc: Global,
    texts: &mut Vec<Named>,
    name: &[u8],
    text: Vec<u8>,
) -> Result<(), AllocError> {
    let place = place_of(texts.as_slice(), name);
    if let Some(named) = place.and_then(|place| texts.get_mut(place)) {
        named.text = text;
        return Ok(());
    }
    let name = name.to_vec(alloc)?;
    Ok(texts.push(Named { name, text })?)
}

/// What a word stands for: a text in quotes for its bytes, a name behind `$` for the text that has it, and
/// another word for itself.
fn value_of(
    alloc: Global,
    texts: &[Named],
    word: &str,
    is_quoted: bool,
) -> Result<Vec<u8>, AllocError> {
    if is_quoted {
        return unquoted(alloc, word.as_bytes());
    }
    let named = word
        .strip_prefix('$')
        .and_then(|name| text_of(texts, name.as_bytes()));
    named.unwrap_or(word.as_bytes()).to_vec(alloc)
}

/// What the words of a line stand for.
pub(crate) fn values_of(
    alloc: Global,
    texts: &[Named],
    line: &str,
) -> Result<Vec<Vec<u8>>, AllocError> {
    let mut values = Vec::new(alloc);
    let mut rest = line;
    for _ in 0..line.len() {
        let Some((word, is_quoted, behind)) = first_word(rest) else {
            break;
        };
        values.push(value_of(alloc, texts, word, is_quoted)?)?;
        rest = behind;
    }
    Ok(values)
}

/// The value at a place, which is empty where there is none.
pub(crate) fn at(values: &[Vec<u8>], place: usize) -> &[u8] {
    match values.get(place) {
        Some(value) => value.as_slice(),
        None => &[],
    }
}

/// All of these values, one behind the other.
pub(crate) fn joined(alloc: Global, values: &[Vec<u8>]) -> Result<Vec<u8>, AllocError> {
    let mut text = Vec::new(alloc);
    for value in values {
        text.extend_from_slice(value.as_slice())?;
    }
    Ok(text)
}

/// A value so many times.
pub(crate) fn repeated(alloc: Global, value: &[u8], count: u64) -> Result<Vec<u8>, AllocError> {
    let mut text = Vec::new(alloc);
    for _ in 0..count {
        text.extend_from_slice(value)?;
    }
    Ok(text)
}

/// The place of the number that this letter names.
fn letter(byte: u8) -> usize {
    byte.wrapping_sub(b'a') as usize
}

/// A sum, with a number more or less.
fn moved(sum: u64, number: u64, is_less: bool) -> u64 {
    if is_less {
        sum.saturating_sub(number)
    } else {
        sum.saturating_add(number)
    }
}

/// What a value stands for where a number is wanted: digits, a letter that names one, or several of these
/// with `+` and `-` between them.
pub(crate) fn number_of(numbers: &[u64], value: &[u8]) -> u64 {
    let mut sum = 0;
    let mut last = 0u64;
    let mut is_less = false;
    for &byte in value {
        match byte {
            b'0'..=b'9' => last = last
                .saturating_mul(10)
                .saturating_add(u64::from(byte - b'0')),
            b'+' | b'-' => {
                sum = moved(sum, last, is_less);
                last = 0;
                is_less = byte == b'-';
            }
            _ => last = numbers.get(letter(byte)).copied().unwrap_or(u64::MAX),
        }
    }
    moved(sum, last, is_less)
}

/// The number that a letter names.
pub(crate) fn number_at(numbers: &mut [u64], name: u8) -> Option<&mut u64> {
    numbers.get_mut(letter(name))
}

/// The first byte of a word, which is its name where it is a letter.
pub(crate) fn first_of(word: &[u8]) -> u8 {
    word.first().copied().unwrap_or(b'?')
}
