//! Counts of words, and where each row's words end.

ghost use Rattle.std.specs.Prelude.{◌≡◌, ◌<◌, ◌≤◌, ◌+◌, ◌-◌, ◌^◌, ℕ, length, take, slice_index, sum, IfSome, IsNone};
ghost use Rattle.column_store.specs.Places.{start_of};

/// Where the words of the row at a place begin.
pub fn start_at(ends: &[u32], place: usize) -> usize
    requires { place ≤ length ends.now }
    ensures { result ≡ start_of ends.now place }
{
    if place == 0 {
        0
    } else {
        ends[place - 1] as usize
    }
}

/// The sums of the counts, each up to its place, and the sum of all. None where that is no number of
/// 32 bits. The array is written over in place.
pub fn counts_to_ends(counts: Vec<u32>) -> Option<(Vec<u32>, u32)>
    ensures total { IfSome result (λ x. x.1 ≡ sum counts.items) }
    ensures length { IfSome result (λ x. length x.0.items ≡ length counts.items) }
    ensures ends { IfSome result (λ x. (k : ℕ) → k < length counts.items
        → slice_index x.0.items k ≡ sum (take (k + 1) counts.items)) }
    ensures none { IsNone result → 2 ^ 32 ≤ sum counts.items }
{
    let mut ends = counts;
    let mut total: u32 = 0;
    for end in ends.iter_mut() {
        total = total.checked_add(*end)?;
        *end = total;
    }
    Some((ends, total))
}

/// How far each end is from the one before it. The array is written over in place.
pub fn ends_to_counts(ends: Vec<u32>) -> Vec<u32>
    requires { (k : ℕ) → k < length ends.items
        → start_of ends.items k ≤ slice_index ends.items k }
    ensures length { length result.items ≡ length ends.items }
    ensures counts { (k : ℕ) → k < length ends.items
        → slice_index result.items k ≡ slice_index ends.items k - start_of ends.items k }
{
    let mut counts = ends;
    let mut start = 0;
    for count in counts.iter_mut() {
        let end = *count;
        *count = end - start;
        start = end;
    }
    counts
}
