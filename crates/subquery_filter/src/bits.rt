//! Sets of tokens as bits.
ghost use Rattle.std.specs.Prelude.{◌≡◌, ℕ, IsFalse, IsTrue, slice_index_or};
ghost use Rattle.subquery_filter.specs.Filter.{Has};

/// Whether all of some bits are among these.
#[inline]
pub(crate) fn has(bits: u8, some: u8) -> bool
    ensures yes { IsTrue result → Has bits some }
    ensures no { IsFalse result → ¬ Has bits some }
{
    bits | some == bits
}

/// The bits at a number, none where there are none.
#[inline]
pub(crate) fn mark_at(marks: &[u8], number: u64) -> u8
    ensures { result ≡ slice_index_or marks.now number 0 }
{
    let place = number as usize;
    if place < marks.len() { marks[place] } else { 0 }
}

/// The bits that stand at some number.
pub(crate) fn any_of(marks: &[u8]) -> u8
    ensures { (number : ℕ) → Has result (slice_index_or marks.now number 0) }
{
    let mut bits = 0;
    for mark in marks {
        bits |= *mark;
    }
    bits
}
