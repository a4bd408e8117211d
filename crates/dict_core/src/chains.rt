//! Chains of texts with one hash.
ghost use Rattle.std.specs.Prelude.{◌≡◌, ◌≢◌, ℕ, suc, ◌<◌, ◌≤◌, length, slice_get, slice_index, Some, IfSome, IfNone};
ghost use Rattle.dict_core.specs.Chains.{InChain};

use crate::texts::Texts;

/// What stands for the number of a text that has none. There are fewer texts than this.
pub const NO_NUMBER: u32 = u32::MAX;

/// The number of a text, among those of one chain: from the text at the place `newest`, over the
/// place of the one before it, and so on. A place is a number plus one, and 0 is none.
pub(crate) fn find(texts: &Texts, befores: &[u32], newest: u32, text: &[u8]) -> Option<u32>
    requires back { (j : ℕ) → j < length befores.now → slice_index befores.now j ≤ j }
    requires within { newest ≤ length befores.now }
    requires linked { length befores.now ≤ length texts.now }
    ensures low { IfSome result (λ n. n < length befores.now) }
    ensures some { IfSome result (λ n. slice_get texts.now n ≡ Some text.now) }
    ensures none { IfNone result ((k : ℕ) → InChain befores.now newest (suc k)
        → slice_get texts.now k ≢ Some text.now) }
{
    let mut place = newest;
    while place > 0 {
        let number = place - 1;
        if texts.at(number) == text {
            return Some(number);
        }
        place = befores[number as usize];
    }
    None
}
