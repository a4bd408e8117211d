//! A look at the gate behind the entries that were handled.
ghost use Rattle.std.specs.Prelude.{◌≡◌, ◌≤◌, ◌+◌, ℕ, IfOk, IfSome, IfNone, IsErrOf};
ghost use Rattle.turn_lock.specs.Words.{seen, IsReady};
ghost use Rattle.disk_seal.specs.Looked.{HasTurned, IsMarked, WhereTold, journal_length};
ghost use Rattle.disk_seal.specs.Prepare.{HasSeenOpening};
ghost use Rattle.live_search.specs.Looking.{FindsMore, IsGateOfCount, NothingTold};

use crate::refusal::{LiveRefusal, of_found};
use disk_seal::{Found, Look, Looks};
use log_seams::Disk;
use std::alloc::Global;
use std::sync::Wait;

/// The record behind the gate at the place `at`, before which so many entries stand; `None` at the
/// closed gate. `Damaged` also where the journal has fewer or more records than were found.
pub(crate) fn find_next<D: Disk, P: Looks<D>, R: Wait>(
    pass: &mut P,
    rt: &R,
    alloc: Global,
    at: u64,
    first: u64,
    handled: u64,
) -> Result<Option<Found>, LiveRefusal>
    requires ready { IsReady (P.pass pass.old) }
    requires opening { HasSeenOpening (P.pass pass.old) }
    requires gate { WhereTold D.state (P.pass pass.old) (IsGateOfCount at (first + handled)) }
    requires within { first + handled ≤ journal_length (seen (P.pass pass.old)) }
    ensures turned { HasTurned (P.pass pass.old) (P.pass pass.new) }

    // by the answer
    ensures next { IfOk result (λ next. IfSome next (λ f.
        FindsMore D.state at (first + handled) f (P.pass pass.new))) }
    ensures none { IfOk result (λ next. IfNone next
        (first + handled ≡ journal_length (seen (P.pass pass.new)))) }

    // causes
    ensures fault { IsErrOf result LiveRefusal.DiskFault → IsMarked (seen (P.pass pass.new)) }
    ensures damaged { (place : ℕ) → IsErrOf result (LiveRefusal.Damaged place)
        → NothingTold D.state (P.pass pass.new) }
    ensures sink { ¬ IsErrOf result LiveRefusal.SinkFault }
{
    let Look { records, next } = match pass.look(rt, alloc, at) {
        Ok(look) => look,
        Err(refusal) => return Err(of_found(refusal)),
    };
    let count = first + handled;
    let Some(found) = next else {
        if count != records {
            return Err(LiveRefusal::Damaged { at });
        }
        return Ok(None);
    };
    if count >= records {
        return Err(LiveRefusal::Damaged { at });
    }
    Ok(Some(found))
}
