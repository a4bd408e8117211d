//! Writes that a crash cannot undo once they are done.
ghost use Rattle.std.specs.Prelude.{◌≡◌, ◌+◌, ◌^◌, ◌≤◌, length, is_some, option_map, OnOk, IfSome};
ghost use Rattle.log_seams.specs.Disk.{laid, IsSynced, LeavesOnly};
ghost use Rattle.log_seams.specs.Outside.{Counts};
ghost use Rattle.disk_journal.specs.Place.{TornFrom};

use log_seams::{Disk, Failed};

/// Writes to a disk of which a crash leaves what is read, and syncs: after `Ok` a crash leaves what is
/// read again, with the bytes written. At any moment a crash leaves the bytes as they were, but for
/// the range, which may hold anything. Makes two calls on the disk.
pub(crate) fn write_synced<D: Disk>(disk: &mut D, at: u64, bytes: &[u8]) -> Result<(), Failed>
    requires place { IfSome (D.state disk.old).seen (λ old. at ≤ length old) }
    requires end { at + length bytes.now ≤ 2 ^ 62 }
    requires synced { IsSynced (D.state disk.old) }

    // what stays
    ensures tells { is_some (D.state disk.new).seen ≡ is_some (D.state disk.old).seen }
    ensures ranges { (D.state disk.new).ranges ≡ (D.state disk.old).ranges }
    ensures moments { LeavesOnly (D.state disk.old) (D.state disk.new)
        (TornFrom (D.state disk.old).seen at (length bytes.now)) }

    // by the answer
    ensures written { OnOk result
        ((D.state disk.new).seen ≡ option_map (laid at bytes.now) (D.state disk.old).seen) }
    ensures synced { OnOk result (IsSynced (D.state disk.new)) }

    // causes
    ensures cause { Counts (D.state disk.old).faults (D.state disk.new).faults result }
{
    disk.write(at, bytes)?;
    disk.sync()
}
