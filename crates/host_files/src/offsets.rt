//! Reads and writes at offsets of a file that go on until all is done.
ghost use Rattle.std.specs.Prelude.{◌≡◌, ◌≤◌, ◌+◌, ◌^◌, length, true, IfOk, IfSome, OnOk, option_map};
ghost use Rattle.log_seams.specs.Disk.{Gave, laid};

use crate::place::OffsetFile;
use std::io::{self, ErrorKind};

/// The count of bytes that no file can pass, since the system's offsets are of 63 bits.
const MOST_BYTES: u64 = (1 << 63) - 1;

/// Reads from an offset into the front of the buffer, until it is full or the file ends. Answers how
/// many bytes it read. A read that was interrupted is made again.
pub(crate) fn read_full<F: OffsetFile>(
    file: &mut F,
    offset: u64,
    buf: &mut [u8],
) -> io::Result<usize>
    ensures within { IfOk result (λ n. n ≤ length buf.old) }
    ensures told { IfOk result (λ n. Gave (F.content file.old) offset n buf.old buf.new) }
    ensures locked { F.is_locked file.new ≡ F.is_locked file.old }
    ensures content { F.content file.new ≡ F.content file.old }
{
    let wanted = buf.len().min(MOST_BYTES.saturating_sub(offset) as usize);
    let mut filled = 0;
    for _ in 0..u64::MAX {
        if filled >= wanted {
            return Ok(filled);
        }
        let at = offset + filled as u64;
        match file.read_some(&mut buf[filled..wanted], at) {
            Ok(0) => return Ok(filled),
            Ok(count) => filled += count,
            Err(error) if error.kind() == ErrorKind::Interrupted => {}
            Err(error) => return Err(error),
        }
    }
    Err(ErrorKind::TimedOut.into())
}

/// Writes all of `bytes` at an offset of a file whose lock is held. A write that was interrupted is made
/// again.
pub(crate) fn write_full<F: OffsetFile>(file: &mut F, offset: u64, bytes: &[u8]) -> io::Result<()>
    requires lock { F.is_locked file.old ≡ true }
    requires end { offset + length bytes.now ≤ 2 ^ 62 }
    ensures locked { F.is_locked file.new ≡ true }
    ensures written { IfSome (F.content file.old) (λ old. offset ≤ length old) → OnOk result
        (F.content file.new ≡ option_map (laid offset bytes.now) (F.content file.old)) }
{
    let mut done = 0;
    for _ in 0..u64::MAX {
        if done >= bytes.len() {
            return Ok(());
        }
        let at = offset + done as u64;
        match file.write_some(&bytes[done..], at) {
            Ok(0) => return Err(ErrorKind::WriteZero.into()),
            Ok(count) => done += count,
            Err(error) if error.kind() == ErrorKind::Interrupted => {}
            Err(error) => return Err(error),
        }
    }
    Err(ErrorKind::TimedOut.into())
}
