//! The command `check`: whether an archive is legal, and what it has.
ghost use Rattle.std.specs.Prelude.{◌≡◌, ℕ, IfOk, IfSome, IsErrOf};
ghost use Rattle.log_seams.specs.Disk.{KeepsBytes};
ghost use Rattle.log_seams.specs.Outside.{CountsOf};
ghost use Rattle.check_meaning.specs.Checked.{DamagedAt};
ghost use Rattle.command_answers.specs.Counted.{PrintsCounts, counts_line};

use archive_check::Summary;
use command_refusals::ReadRefusal;
use log_seams::{Disk, Sink};
use sink_pieces::write_all;
use std::alloc::{AllocError, Global};

/// The line of the counts.
fn counts_line(alloc: Global, summary: &Summary) -> Result<Vec<u8>, AllocError>
    ensures { IfOk result (λ line. line.items ≡ counts_line summary.now) }
{
    let mut line = Vec::new(alloc);
    let mut digits = itoa::Buffer::new();
    line.extend_from_slice(b"entries ")?;
    line.extend_from_slice(digits.format(summary.entries).as_bytes())?;
    line.extend_from_slice(b" files ")?;
    line.extend_from_slice(digits.format(summary.files).as_bytes())?;
    line.extend_from_slice(b" messages ")?;
    line.extend_from_slice(digits.format(summary.messages).as_bytes())?;
    line.push(b'\n')?;
    Ok(line)
}

/// Checks the archive of a disk, and prints what it has.
pub fn check<D: Disk, K: Sink>(alloc: Global, disk: &mut D, out: &mut K) -> Result<(), ReadRefusal>
    // what stays
    ensures keeps { KeepsBytes (D.state disk.old) (D.state disk.new) }

    // by the answer
    ensures prints { PrintsCounts result
        (D.state disk.old).seen (K.written out.old) (K.written out.new) }

    // causes
    ensures damaged { (at : ℕ) → IsErrOf result (ReadRefusal.Damaged at)
        → IfSome (D.state disk.old).seen (DamagedAt at) }
    ensures disk { CountsOf ReadRefusal.DiskFault
        (D.state disk.old).faults (D.state disk.new).faults result }
    ensures sink { CountsOf ReadRefusal.SinkFault (K.faults out.old) (K.faults out.new) result }
{
    let summary = archive_check::check(alloc, disk)?;
    let line = counts_line(alloc, &summary)?;
    write_all(out, line.as_slice())?;
    Ok(())
}
