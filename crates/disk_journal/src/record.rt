//! The bytes of a record.
ghost use Rattle.std.specs.Prelude.{◌≡◌, IfOk};
ghost use Rattle.disk_journal.specs.Record.{IsFrame, saved_of};

use plain_list::Text;
use std::alloc::{AllocError, Global};

/// The byte of an open gate: a record stands behind it.
pub const OPEN_GATE: u8 = 1;

/// The byte that is written for a closed gate. Any byte but [`OPEN_GATE`] is one.
pub const CLOSED_GATE: u8 = 0;

/// How many bytes there are from a gate to the payload behind it: the gate, the kind, and the length in
/// eight. A frame has as many beside its payload, since it has the next gate in place of this one.
pub const FRONT_LEN: usize = 10;

/// The bytes that [`Journal::append`](crate::Journal::append) takes for a record: its kind, the length
/// of its payload in eight bytes with the lowest first, the payload, and a closed gate.
pub fn frame(alloc: Global, kind: u8, payload: &[u8]) -> Result<Text, AllocError>
    ensures framed { IfOk result (λ text. IsFrame text) }
    ensures saved { IfOk result (λ text.
        saved_of text ≡ record { kind = kind; payload = payload.now }) }
{
    let mut bytes = Vec::with_capacity(alloc, payload.len() + FRONT_LEN)?;
    bytes.push_reserved(kind);
    bytes.extend_from_slice(&(payload.len() as u64).to_le_bytes())?;
    bytes.extend_from_slice(payload)?;
    bytes.push(CLOSED_GATE)?;
    Ok(Text::new(bytes))
}
