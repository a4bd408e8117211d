//! The head and the rows of a segment's payload.
ghost use Rattle.std.specs.Prelude.{◌≡◌, ◌≢◌, ◌++◌, ℕ, List, IfOk, IfNone, IfSome, IsErrOf};
ghost use Rattle.segment_format.specs.declared.head.Head.{Head};
ghost use Rattle.segment_format.specs.Layout.{IsHead, head_bytes};
ghost use Rattle.archive_check.specs.Taken.{HasParts, SpellsNoSegment};

use column_store::Columns;
use segment_format::{FIXED_LEN, FormatRefusal, Head, head_len, read_columns, read_head};
use std::alloc::Global;
use std::sync::ledger::Ledger;
use step_count::Steps;

// The front of a payload that is as long as the head that it begins with.
fn head_in(payload: &[u8]) -> Option<&[u8]>
    ensures some { IfSome result (λ front. (h : Head) (rest : List ℕ) → IsHead h
        → payload.now ≡ head_bytes h ++ rest → front.now ≡ head_bytes h) }
    ensures none { IfNone result ((h : Head) (rest : List ℕ) → IsHead h
        → payload.now ≢ head_bytes h ++ rest) }
{
    if payload.len() < FIXED_LEN {
        return None;
    }
    let mut fixed = [0; FIXED_LEN];
    fixed.copy_from_slice(&payload[..FIXED_LEN]);
    let Some(len) = head_len(&fixed) else {
        return None;
    };
    if len > payload.len() as u64 {
        return None;
    }
    Some(&payload[..len as usize])
}

/// The head and the rows of a segment's payload. `Malformed` only where it is that of no segment.
pub(crate) fn read_segment<L: Ledger>(
    alloc: Global,
    payload: &[u8],
    steps: &mut Steps<L>,
) -> Result<(Head, Columns), FormatRefusal>
    ensures parts { IfOk result (λ found. HasParts payload.now found.0 found.1.rows) }
    ensures malformed { IsErrOf result FormatRefusal.Malformed → SpellsNoSegment payload.now }
{
    let Some(front) = head_in(payload) else {
        return Err(FormatRefusal::Malformed);
    };
    let head = read_head(alloc, front)?;
    let columns = read_columns(alloc, &head, payload, steps)?;
    Ok((head, columns))
}
