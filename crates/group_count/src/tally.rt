//! How often keys came, in the order of the keys.
ghost use Rattle.std.specs.Prelude.{ℕ, ◌+◌, ◌<◌, ◌^◌, cond, OnOk};
ghost use Rattle.std.specs.Ordering.{is_eq};
ghost use Rattle.group_count.specs.Tables.{IsTally};

use std::alloc::AllocError;
use std::collections::BTreeMap;

/// Counts a key so many times more.
pub(crate) fn add_to<K: Ord + Drop>(
    tally: &mut BTreeMap<K, u64>,
    key: K,
    more: u64,
) -> Result<(), AllocError>
    requires { 0 < more }
    ensures { OnOk result ((often : K → ℕ)
        → ((q : K) → often q + cond (is_eq (K.cmp key q)) more 0 < 2 ^ 64)
        → IsTally K.cmp tally.old often
        → IsTally K.cmp tally.new (λ q. often q + cond (is_eq (K.cmp key q)) more 0)) }
{
    let count = tally.entry(key)?.or_insert(0);
    *count = count.saturating_add(more);
    Ok(())
}
