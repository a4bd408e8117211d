//! Whether a head's lists are sorted.
ghost use Rattle.std.specs.Prelude.{IsTrue};
ghost use Rattle.std.specs.List.Sorted.{IsStrictlyIncreasing};
ghost use Rattle.segment_format.specs.Layout.{IsHead, IsNumberSet};

use segment_format::Head;

/// Whether each number is greater than the one before it.
fn rises(numbers: &[u32]) -> bool
    ensures yes { IsTrue result → IsStrictlyIncreasing numbers.now }
    ensures no { IsStrictlyIncreasing numbers.now → IsTrue result }
{
    for place in 1..numbers.len() {
        if numbers[place] <= numbers[place - 1] {
            return false;
        }
    }
    true
}

/// Whether numbers are a set as a head lists it.
fn is_set(numbers: &[u32]) -> bool
    ensures yes { IsTrue result → IsNumberSet numbers.now }
    ensures no { IsNumberSet numbers.now → IsTrue result }
{
    numbers.len() <= u32::MAX as usize && rises(numbers)
}

/// Whether both lists of a head are sorted. One that was read from bytes is so.
pub(crate) fn is_head(head: &Head) -> bool
    ensures yes { IsTrue result → IsHead head.now }
    ensures no { IsHead head.now → IsTrue result }
{
    let Head {
        file: _file,
        first: _first,
        rows: _rows,
        least: _least,
        greatest: _greatest,
        variables: _variables,
        ..
    } = *head;
    is_set(head.types.as_slice()) && is_set(head.words.as_slice())
}
