//! The head of a segment: what its rows hold.

ghost use Rattle.std.specs.Prelude.{◌≡◌, ◌≢◌, ◌<◌, ◌≤◌, ◌*◌, ◌^◌, ◌%◌, ℕ, List, length, IsTrue, IfOk, IsErrOf};
ghost use mathlib.Core.List.{IsPrefix};
ghost use Rattle.std.specs.List.{flat_map};
ghost use Rattle.std.specs.List.Sorted.{IsStrictlyIncreasing};
ghost use Rattle.record_format.specs.Lists.{four_bytes};
ghost use Rattle.segment_format.specs.Layout.{IsHead, IsNumberSet, head_bytes, head_length, fixed_of};

use crate::fixed::{FIXED_LEN, Fixed, read_fixed};
use crate::numbers::{are_numbers, fill_numbers};
use plain_list::NumberList;
use record_format::FormatRefusal;
use std::alloc::Global;

/// The head of a segment. A head's two lists are sorted upwards, each number once.
#[derive(Debug, Drop)]
pub struct Head {
    /// The number of the segment's file.
    pub file: u32,
    /// The place of the first message in its file, from 0.
    pub first: u64,
    /// How many rows there are.
    pub rows: u32,
    /// Whether this is the last segment of its file.
    pub last: bool,
    /// Whether the file's last line had its newline.
    pub ended: bool,
    /// Whether some row has a stamp.
    pub stamped: bool,
    /// The least moment of the stamped rows, 0 without any.
    pub least: i64,
    /// The greatest moment of the stamped rows, 0 without any.
    pub greatest: i64,
    /// The numbers of the log types.
    pub types: NumberList,
    /// The numbers of the dictionary words.
    pub words: NumberList,
    /// How many variables all rows have.
    pub variables: u32,
}

impl Head {
    /// What stands before the two lists.
    pub fn fixed(&self) -> Fixed
        requires { IsHead self.now }
        ensures { result ≡ fixed_of self.now }
    {
        Fixed {
            file: self.file,
            first: self.first,
            rows: self.rows,
            last: self.last,
            ended: self.ended,
            stamped: self.stamped,
            least: self.least,
            greatest: self.greatest,
            types: self.types.len() as u32,
            words: self.words.len() as u32,
            variables: self.variables,
        }
    }

    /// Whether the payload begins with this head. It takes no memory.
    pub fn begins(&self, payload: &[u8]) -> bool
        requires head { IsHead self.now }
        requires long { head_length (fixed_of self.now) ≤ length payload.now }
        ensures yes { IsTrue result → IsPrefix (head_bytes self.now) payload.now }
        ensures no { IsPrefix (head_bytes self.now) payload.now → IsTrue result }
    {
        let Some(fixed) = read_fixed(payload) else {
            return false;
        };
        if !fixed.is(&self.fixed()) {
            return false;
        }
        let (types, behind) = payload[FIXED_LEN..].split_at(4 * self.types.len());
        let (words, _) = behind.split_at(4 * self.words.len());
        are_numbers(types, self.types.as_slice()) && are_numbers(words, self.words.as_slice())
    }
}

/// Whether each number is greater than the one before it.
fn rises(numbers: &[u32]) -> bool
    ensures yes { IsTrue result → IsStrictlyIncreasing numbers.now }
    ensures no { IsStrictlyIncreasing numbers.now → IsTrue result }
{
    for place in 1..numbers.len() {
        if numbers[place] <= numbers[place - 1] {
            return false;
        }
    }
    true
}

/// The list that the bytes spell, and `Malformed` exactly where they spell none that is sorted.
pub fn list_in(alloc: Global, bytes: &[u8]) -> Result<NumberList, FormatRefusal>
    requires whole { length bytes.now % 4 ≡ 0 }
    requires few { length bytes.now < 4 * 2 ^ 32 }
    ensures is { IfOk result (λ ns. IsNumberSet ns) }
    ensures spelled { IfOk result (λ ns. bytes.now ≡ flat_map four_bytes ns) }
    ensures malformed { IsErrOf result FormatRefusal.Malformed
        → (ns : List ℕ) → IsNumberSet ns → bytes.now ≢ flat_map four_bytes ns }
{
    let mut numbers = Vec::new(alloc);
    fill_numbers(&mut numbers, bytes)?;
    if rises(numbers.as_slice()) {
        Ok(NumberList::new(numbers))
    } else {
        Err(FormatRefusal::Malformed)
    }
}

/// The head that the bytes spell, all of them. `Malformed` comes exactly where they spell none: where
/// an unknown flag is set, a list is not sorted, or its numbers are more or fewer than the fixed part
/// says.
pub fn read_head(alloc: Global, bytes: &[u8]) -> Result<Head, FormatRefusal>
    ensures is { IfOk result (λ h. IsHead h) }
    ensures spelled { IfOk result (λ h. bytes.now ≡ head_bytes h) }
    ensures malformed { IsErrOf result FormatRefusal.Malformed
        → (h : _) → IsHead h → bytes.now ≢ head_bytes h }
{
    if bytes.len() < FIXED_LEN {
        return Err(FormatRefusal::Malformed);
    }
    let Some(fixed) = read_fixed(bytes) else {
        return Err(FormatRefusal::Malformed);
    };
    if bytes.len() as u64 != fixed.head_len() {
        return Err(FormatRefusal::Malformed);
    }
    let (types, words) = bytes[FIXED_LEN..].split_at(4 * fixed.types as usize);
    Ok(Head {
        file: fixed.file,
        first: fixed.first,
        rows: fixed.rows,
        last: fixed.last,
        ended: fixed.ended,
        stamped: fixed.stamped,
        least: fixed.least,
        greatest: fixed.greatest,
        types: list_in(alloc, types)?,
        words: list_in(alloc, words)?,
        variables: fixed.variables,
    })
}
