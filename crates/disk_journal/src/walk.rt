//! What stands at a gate.
ghost use Rattle.std.specs.Prelude.{◌≡◌, ◌≢◌, ◌≤◌, ◌<◌, ◌+◌, ◌-◌, ◌^◌, ◌⊎◌, ℕ, IsTrue, IsFalse, length, drop, IfOk, IfSome, IfNone, IsErrOf};
ghost use Rattle.std.specs.Int.{w64, from_le_bytes, to_le_bytes};
ghost use Rattle.log_seams.specs.Disk.{Rests, ReadsOnly};
ghost use Rattle.log_seams.specs.Outside.{CountsOf};
ghost use Rattle.disk_journal.specs.Place.{IsDamaged, ClosedAt, OpenAt};

use crate::{FRONT_LEN, OPEN_GATE, WalkRefusal};
use log_seams::Disk;

/// Where a record stands: its gate, its kind, and its payload. Places count bytes from 0.
#[derive(Clone, Copy, Debug, PartialEq, Eq)]
pub struct RecordPlace {
    /// The place of its gate.
    pub at: u64,
    /// Its kind.
    pub kind: u8,
    /// The place of the first byte of its payload.
    pub payload: u64,
    /// The count of bytes of its payload.
    pub length: u64,
}

// Whether a gate, a kind and a length were read, and so many bytes more are left.
fn is_whole(count: usize, left: u64, len: u64) -> bool
    ensures yes { IsTrue result → (count ≡ FRONT_LEN) × (FRONT_LEN + len ≤ left) }
    ensures no { IsFalse result → (count ≢ FRONT_LEN) ⊎ (left < FRONT_LEN + len) }
{
    count == FRONT_LEN && left >= FRONT_LEN as u64 && len <= left - FRONT_LEN as u64
}

// The length that the last eight of the bytes spell.
fn length_in(front: &[u8; FRONT_LEN]) -> u64
    ensures reads { result ≡ from_le_bytes w64 (drop 2 front.now) }
    ensures spells { to_le_bytes w64 result ≡ drop 2 front.now }
    ensures fits { result < 2 ^ 64 }
{
    let mut length = [0; 8];
    length.copy_from_slice(&front[2..]);
    u64::from_le_bytes(length)
}

/// What stands at the gate `at`: `None` exactly where it is closed, else the record behind it.
/// `Damaged` exactly where there is no gate, or an open one without a whole record behind it. Reads no
/// byte of a payload. Takes no memory.
pub(crate) fn look<D: Disk>(disk: &mut D, at: u64) -> Result<Option<RecordPlace>, WalkRefusal>
    // what stays
    ensures rests { Rests (D.state disk.old) (D.state disk.new) }
    ensures ranges { ReadsOnly at FRONT_LEN (D.state disk.old) (D.state disk.new) }

    // by the answer
    ensures closed { IfOk result (λ next. IfNone next (ClosedAt at (D.state disk.old).seen)) }
    ensures small { IfOk result (λ next. IfNone next (at < 2 ^ 64 - 1)) }
    ensures opened { IfOk result (λ next. IfSome next (λ p.
        OpenAt at p.kind p.length (D.state disk.old).seen)) }
    ensures place { IfOk result (λ next. IfSome next (λ p.
        (p.at ≡ at) × (p.payload ≡ at + FRONT_LEN) × (p.payload + p.length < 2 ^ 64))) }

    // causes
    ensures damaged { (gate : ℕ) → IsErrOf result (WalkRefusal.Damaged gate)
        → (gate ≡ at) × IsDamaged at (D.state disk.old).seen }
    ensures counts { CountsOf WalkRefusal.DiskFault
        (D.state disk.old).faults (D.state disk.new).faults result }
{
    let len = disk.len()?;
    if len <= at {
        return Err(WalkRefusal::Damaged { at });
    }
    let mut front = [0; FRONT_LEN];
    let count = disk.read(at, &mut front)?;
    if count == 0 {
        return Err(WalkRefusal::Damaged { at });
    }
    if front[0] != OPEN_GATE {
        return Ok(None);
    }
    let length = length_in(&front);
    if !is_whole(count, len - at, length) {
        return Err(WalkRefusal::Damaged { at });
    }
    Ok(Some(RecordPlace {
        at,
        kind: front[1],
        payload: at + FRONT_LEN as u64,
        length,
    }))
}
