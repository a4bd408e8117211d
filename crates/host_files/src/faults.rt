//! What the answers of the system's calls are to the store.
ghost use Rattle.std.specs.Prelude.{◌≡◌, ◌<◌, ◌≤◌, Ok, IfOk, OnOk, is_ok};
ghost use Rattle.log_seams.specs.Outside.{Counts, Rose};

use log_seams::Failed;
use std::io;

/// Turns the answer of a call into that of the store's traits. A call that failed is one fault more.
pub(crate) fn counted<T>(faults: &mut u64, answer: io::Result<T>) -> Result<T, Failed>
    ensures ok { IfOk answer (λ value. result ≡ Ok value) }
    ensures failed { is_ok result ≡ is_ok answer }
    ensures steady { OnOk answer (faults.new ≡ faults.old) }
    ensures cause { Counts faults.old faults.new result }
{
    match answer {
        Ok(value) => Ok(value),
        Err(_) => {
            *faults = faults.saturating_add(1);
            Err(Failed)
        }
    }
}

/// Adds the faults of another count. The count stops at the last value of a u64.
pub(crate) fn add_faults(faults: &mut u64, more: u64)
    ensures later { faults.old ≤ faults.new }
    ensures steady { more ≡ 0 → faults.new ≡ faults.old }
    ensures rose { 0 < more → Rose faults.old faults.new }
{
    *faults = faults.saturating_add(more);
}
