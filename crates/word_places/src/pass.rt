//! Finding the texts that have a needle, by one pass over the bytes that spell them.
ghost use Rattle.std.specs.Prelude.{◌≡◌, ◌≢◌, ◌≤◌, ◌+◌, ◌^◌, ◌++◌, ℕ, List, length, IfOk, OnOk, IsTrue, IsFalse, MatchOption, Some, slice_get};
ghost use Rattle.std.specs.List.{flat_map};
ghost use Rattle.memchr.specs.Find.{FindsNeedle};
ghost use Rattle.plain_list.specs.Texts.{IsNew};
ghost use Rattle.record_format.specs.Lists.{AreTexts, text_bytes};
ghost use Rattle.word_places.specs.Holders.{AddsHolders, AddsNumber, Holders};
ghost use Rattle.word_places.specs.declared.needle.Fit.TheVariants.{Whole};

use crate::needle::{Fit, has_needle};
use memchr::memmem::Finder;
use record_format::next_text;
use std::alloc::AllocError;

/// How many bytes the length of a text takes.
const LEN_SIZE: usize = 4;

// Adds the number of a text, if that has the needle.
fn add_number(
    text: &[u8],
    number: u32,
    fit: Fit,
    finder: &Finder<'_>,
    numbers: &mut Vec<u32>,
) -> Result<(), AllocError>
    ensures { OnOk result (AddsNumber fit finder.now text.now number
        numbers.old.items numbers.new.items) }
{
    if has_needle(text, fit, finder) {
        numbers.push(number)?;
    }
    Ok(())
}

// Passes a text and what stands before it, where the needle is first found at a place of these and
// of what is behind, and finds it first there. A text that ends before that place has it not.
fn pass_text(
    text: &[u8],
    after: &[u8],
    number: u32,
    at: usize,
    fit: Fit,
    finder: &Finder<'_>,
    numbers: &mut Vec<u32>,
) -> Result<Option<usize>, AllocError>
    requires { FindsNeedle (text_bytes text.now ++ after.now) finder.now 0 (Some at) }
    ensures found { IfOk result (λ hit. FindsNeedle after.now finder.now 0 hit) }
    ensures added { OnOk result (AddsNumber fit finder.now text.now number
        numbers.old.items numbers.new.items) }
{
    let end = LEN_SIZE + text.len();
    if end <= at {
        return Ok(Some(at - end));
    }
    add_number(text, number, fit, finder, numbers)?;
    Ok(finder.find(after))
}

/// Adds the numbers of those texts that have the needle, in order, where so many texts stand one
/// behind the other in the bytes, each with its length before it, and the first has this number.
/// Tells false only where they do not stand there so.
pub fn add_holders(
    bytes: &[u8],
    first: u32,
    count: u32,
    fit: Fit,
    finder: &Finder<'_>,
    numbers: &mut Vec<u32>,
) -> Result<bool, AllocError>
    requires { first + count ≤ 2 ^ 32 }
    ensures added { IfOk result (λ yes. IsTrue yes → (texts : List (List ℕ)) → AreTexts texts
        → length texts ≡ count → bytes.now ≡ flat_map text_bytes texts
        → AddsHolders fit finder.now first texts numbers.old.items numbers.new.items) }
    ensures none { IfOk result (λ yes. IsFalse yes → (texts : List (List ℕ)) → AreTexts texts
        → length texts ≡ count → bytes.now ≢ flat_map text_bytes texts) }
{
    let mut rest = bytes;
    let mut hit = finder.find(rest);
    for place in 0..count {
        let Some(at) = hit else {
            return Ok(true);
        };
        let Some((text, after)) = next_text(rest) else {
            return Ok(false);
        };
        hit = pass_text(text, after, first + place, at, fit, finder, numbers)?;
        rest = after;
    }
    Ok(true)
}

/// The number of the word that is the needle, by the numbers of a pass for whole words; `None`
/// exactly where no word is.
pub fn word_found(numbers: &[u32]) -> Option<u32>
    ensures { (needle : List ℕ) (words : List (List ℕ))
        → Holders Whole needle 0 words numbers.now
        → MatchOption result (IsNew words needle) (λ number. slice_get words number ≡ Some needle) }
{
    if numbers.is_empty() {
        return None;
    }
    Some(numbers[0])
}
