//! The payload of a segment's record.
ghost use Rattle.std.specs.Prelude.{◌≡◌, IfOk, IfSome, IfNone, IsErrOf};
ghost use mathlib.Core.List.{IsPrefix};
ghost use Rattle.step_count.specs.Opens.{OpensFor};
ghost use Rattle.segment_format.specs.Layout.{head_bytes};
ghost use Rattle.segment_format.specs.declared.head.Head.{Head};
ghost use Rattle.archive_open.specs.StepsNext.{HasHead};
ghost use Rattle.live_search.specs.Part.{HoldsPart, HoldsNoPart};

use column_store::Columns;
use record_format::FormatRefusal;
use segment_format::{FIXED_LEN, Head, head_len, read_columns, read_head};
use std::alloc::Global;
use std::marker::Brand;
use std::sync::ledger::{Blank, Ledger};
use step_count::Steps;

/// The front of a payload that is as long as the head that it begins with.
fn front_of(payload: &[u8]) -> Option<&[u8]>
    ensures some { IfSome result (λ front. (h : Head) → HasHead h payload.now
        → front.now ≡ head_bytes h) }
    ensures begins { IfSome result (λ front. IsPrefix front.now payload.now) }
    ensures none { IfNone result ((h : Head) → ¬ HasHead h payload.now) }
{
    if payload.len() < FIXED_LEN {
        return None;
    }
    let mut fixed = [0; FIXED_LEN];
    fixed.copy_from_slice(&payload[..FIXED_LEN]);
    let Some(len) = head_len(&fixed) else {
        return None;
    };
    if len > payload.len() as u64 {
        return None;
    }
    Some(&payload[..len as usize])
}

/// The head and the rows of a segment's payload, with a counter that nobody reads.
fn read_with<L: Ledger>(
    alloc: Global,
    payload: &[u8],
    blank: Blank,
) -> Result<(Head, Columns), FormatRefusal>
    requires { OpensFor blank L.name L.parts }
    ensures parts { IfOk result (λ found. HoldsPart payload.now found.0 found.1.rows) }
    ensures malformed { IsErrOf result FormatRefusal.Malformed → HoldsNoPart payload.now }
{
    let mut steps: Steps<L> = Steps::new(blank);
    let Some(front) = front_of(payload) else {
        return Err(FormatRefusal::Malformed);
    };
    let head = read_head(alloc, front)?;
    let columns = read_columns(alloc, &head, payload, &mut steps)?;
    Ok((head, columns))
}

/// The head and the rows of a segment's payload. `Malformed` only where it is that of no segment.
pub(crate) fn read_part(alloc: Global, payload: &[u8]) -> Result<(Head, Columns), FormatRefusal>
    ensures parts { IfOk result (λ found. HoldsPart payload.now found.0 found.1.rows) }
    ensures malformed { IsErrOf result FormatRefusal.Malformed → HoldsNoPart payload.now }
{
    read_with::<Brand>(alloc, payload, Blank::new(1))
}
