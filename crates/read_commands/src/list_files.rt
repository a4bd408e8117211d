//! The command `files`: which files an archive has.
ghost use Rattle.std.specs.Prelude.{ℕ, IsErrOf};
ghost use Rattle.log_seams.specs.Disk.{KeepsBytes};
ghost use Rattle.log_seams.specs.Outside.{CountsOf};
ghost use Rattle.archive_open.specs.Shown.{RefusedAt};
ghost use Rattle.command_answers.specs.Listing.{PrintsDirectory};

use archive_places::open_places;
use command_refusals::ReadRefusal;
use file_lines::print_directory;
use log_seams::{Disk, Sink};
use std::alloc::Global;

/// Opens the archive of a disk by places, which reads no word, and prints the lines of its files.
pub fn files<D: Disk, K: Sink>(alloc: Global, disk: &mut D, out: &mut K) -> Result<(), ReadRefusal>
    // what stays
    ensures keeps { KeepsBytes (D.state disk.old) (D.state disk.new) }

    // by the answer
    ensures prints { PrintsDirectory result
        (D.state disk.old).seen (K.written out.old) (K.written out.new) }

    // causes
    ensures damaged { (at : ℕ) → IsErrOf result (ReadRefusal.Damaged at)
        → RefusedAt at (D.state disk.old).seen }
    ensures disk { CountsOf ReadRefusal.DiskFault
        (D.state disk.old).faults (D.state disk.new).faults result }
    ensures sink { CountsOf ReadRefusal.SinkFault (K.faults out.old) (K.faults out.new) result }
{
    let places = open_places(alloc, disk)?;
    print_directory(alloc, 0, places.files.as_slice(), out)?;
    Ok(())
}
