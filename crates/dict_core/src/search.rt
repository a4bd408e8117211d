//! Finding a text in a buffer of texts without an index.
ghost use Rattle.std.specs.Prelude.{◌≡◌, ◌-◌, ◌<◌, ◌≤◌, ℕ, Some, length, slice_get, slice_index};
ghost use Rattle.memchr.specs.Find.{IsFirst};
ghost use Rattle.dict_core.specs.Buffer.{start_at, text_at, texts_from, Rise};

use crate::texts::start_of;
use memchr::memmem::Finder;

/// The number of the text that holds the byte at the place `at`, of those from `next` on.
///
/// It looks one text further, then two, four and so on, before it halves what lies between: most
/// often the text stands near.
fn holder(ends: &[usize], next: usize, at: usize) -> usize
    requires rise { (j k : ℕ) → j ≤ k → k < length ends.now
        → slice_index ends.now j ≤ slice_index ends.now k }
    requires some { next < length ends.now }
    requires within { at < slice_index ends.now (length ends.now - 1) }
    ensures low { next ≤ result }
    ensures high { result < length ends.now }
    ensures before { (k : ℕ) → next ≤ k → k < result → slice_index ends.now k ≤ at }
    ensures past { at < slice_index ends.now result }
{
    let mut low = next;
    let mut step = 1;
    while step < ends.len() - low && ends[low + step - 1] <= at {
        low += step;
        step *= 2;
    }
    let high = ends.len().min(low + step);
    low + ends[low..high].partition_point(|end| *end <= at)
}

/// The number of the first text without bytes.
fn first_empty(ends: &[usize]) -> Option<usize>
    ensures { let ends = ends.now in
        IsFirst (λ k. start_at ends k ≡ slice_index ends k) 0 (length ends) result }
{
    let mut start = 0;
    for (number, end) in ends.iter().enumerate() {
        if *end == start {
            return Some(number);
        }
        start = *end;
    }
    None
}

/// The number of the first text that is the needle, which has some bytes.
///
/// Each text that holds the start of a match is passed over once, so that the whole is one pass.
fn first_match(bytes: &[u8], ends: &[usize], finder: &Finder<'_>) -> Option<usize>
    requires rise { Rise 0 ends.now (length bytes.now) }
    requires some { 0 < length finder.now }
    ensures { let ends = ends.now in
        IsFirst (λ k. text_at bytes.now ends k ≡ finder.now) 0 (length ends) result }
{
    let len = finder.needle().len();
    let mut next = 0;
    'texts: loop {
        let from = start_of(ends, next);
        let Some(skipped) = finder.find(&bytes[from..]) else {
            return None;
        };
        let at = from + skipped;
        let number = holder(ends, next, at);
        if start_of(ends, number) == at && ends[number] == at + len {
            return Some(number);
        }
        next = number + 1;
    }
}

/// The number of the first text with these bytes.
pub(crate) fn first(bytes: &[u8], ends: &[usize], text: &[u8]) -> Option<usize>
    requires { Rise 0 ends.now (length bytes.now) }
    ensures { let texts = texts_from bytes.now 0 ends.now in
        IsFirst (λ n. slice_get texts n ≡ Some text.now) 0 (length ends.now) result }
{
    if text.is_empty() {
        first_empty(ends)
    } else {
        first_match(bytes, ends, &Finder::new(text))
    }
}
