//! Lines that are played more than once: loops, and parts that have names.
use crate::texts::{number_at, verb_of};
use std::alloc::AllocError;

/// A loop that is being played: the letter of its number, the last value of it, and its first line.
#[derive(Clone, Copy)]
pub(crate) struct Round {
    letter: u8,
    last: u64,
    first_line: usize,
}

/// Begins a loop, whose number has these values; says whether it has any.
pub(crate) fn begin(
    rounds: &mut Vec<Round>,
    numbers: &mut [u64],
    letter: u8,
    values: (u64, u64),
    first_line: usize,
) -> Result<bool, AllocError> {
    let (first, last) = values;
    let Some(number) = number_at(numbers, letter) else {
        return Ok(false);
    };
    *number = first;
    rounds.push(Round {
        letter,
        last,
        first_line,
    })?;
    Ok(first <= last)
}

/// The line where the innermost loop goes on with its next value; None where it had the last one, and is
/// done.
pub(crate) fn next_round(rounds: &mut Vec<Round>, numbers: &mut [u64]) -> Option<usize> {
    let round = *rounds.last()?;
    let number = number_at(numbers, round.letter)?;
    if *number < round.last {
        *number = number.saturating_add(1);
        return Some(round.first_line);
    }
    let _done = rounds.pop();
    None
}

/// The line that ends the innermost loop that is being played at a line.
pub(crate) fn end_behind(lines: &[&str], line: usize) -> Option<usize> {
    let mut depth = 0u64;
    for (at, text) in lines.iter().enumerate() {
        let verb = verb_of(text).map_or("", |(verb, _)| verb);
        if at >= line && verb == "end" {
            if depth == 0 {
                return Some(at);
            }
            depth = depth.saturating_sub(1);
        }
        if at >= line && verb == "each" {
            depth = depth.saturating_add(1);
        }
    }
    None
}

/// The line behind the one that gives this name to a part, or to a test.
pub(crate) fn line_behind(lines: &[&str], verb: &str, name: &[u8]) -> Option<usize> {
    for (at, text) in lines.iter().enumerate() {
        if let Some((first, rest)) = verb_of(text)
            && first == verb
            && rest.trim().as_bytes() == name
        {
            return Some(at.saturating_add(1));
        }
    }
    None
}
