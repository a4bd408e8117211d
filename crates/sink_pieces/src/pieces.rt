//! Bytes on their way to a sink: whole texts, and many small ones gathered into pieces.
ghost use Rattle.std.specs.Prelude.{◌≡◌, [], OnOk, OnErr};
ghost use Rattle.sink_pieces.specs.Output.{Grew, GrewByFront, Moves};
ghost use Rattle.log_seams.specs.Outside.{Counts};

use log_seams::{Failed, Sink};

/// How many bytes are gathered before they go to the sink: two pieces fit into a pipe of 64 KiB, so that
/// who writes goes on while the other end reads. It is free to tune.
pub const PIECE: usize = 32_768;

/// Writes all of `bytes`, in as many writes as the sink needs.
///
/// After `Failed` the sink has taken the front of them, or nothing.
pub fn write_all<K: Sink>(out: &mut K, bytes: &[u8]) -> Result<(), Failed>
    ensures ok { OnOk result (Grew (K.written out.old) (K.written out.new) bytes.now) }
    ensures err { OnErr result (GrewByFront (K.written out.old) (K.written out.new) bytes.now) }
    ensures cause { Counts (K.faults out.old) (K.faults out.new) result }
{
    let mut rest = bytes;
    while !rest.is_empty() {
        let taken = out.write(rest)?;
        (_, rest) = rest.split_at(taken);
    }
    Ok(())
}

/// Sends all that was gathered to the sink.
pub fn flush<K: Sink>(out: &mut K, gathered: &mut Vec<u8>) -> Result<(), Failed>
    ensures ok { OnOk result (Grew (K.written out.old) (K.written out.new) gathered.old.items) }
    ensures empty { OnOk result (gathered.new.items ≡ []) }
    ensures err { OnErr result
        (GrewByFront (K.written out.old) (K.written out.new) gathered.old.items) }
    ensures cause { Counts (K.faults out.old) (K.faults out.new) result }
{
    write_all(out, gathered.as_slice())?;
    gathered.clear();
    Ok(())
}

/// Sends what was gathered to the sink once it is enough for a piece.
pub fn flush_piece<K: Sink>(out: &mut K, gathered: &mut Vec<u8>) -> Result<(), Failed>
    ensures ok { OnOk result
        (Moves (K.written out.old) (K.written out.new) gathered.old.items gathered.new.items) }
    ensures err { OnErr result
        (GrewByFront (K.written out.old) (K.written out.new) gathered.old.items) }
    ensures cause { Counts (K.faults out.old) (K.faults out.new) result }
{
    if gathered.len() < PIECE {
        return Ok(());
    }
    flush(out, gathered)
}
