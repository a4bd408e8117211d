//! Making an empty journal.
ghost use Rattle.std.specs.Prelude.{◌≡◌, is_some};
ghost use Rattle.log_seams.specs.Disk.{LeavesOnly};
ghost use Rattle.log_seams.specs.Outside.{CountsOf};
ghost use Rattle.record_format.specs.Header.{IsHeader};
ghost use Rattle.disk_journal.specs.Created.{CreateLeaves, SparesBytes};

use crate::{CLOSED_GATE, CreateRefusal};
use log_seams::Disk;
use record_format::{HEADER_LEN, Header, write_header};

/// Makes the empty journal: the header and a closed gate, 33 bytes, and syncs. After `Ok` a crash
/// leaves these bytes and no others. `NotEmpty` exactly where the disk's length is above 0; the bytes
/// and what a crash may leave are then as before. Takes no memory. What a crash within the call
/// leaves may be no journal.
pub fn create<D: Disk>(disk: &mut D, header: &Header) -> Result<(), CreateRefusal>
    requires { IsHeader header.now }

    // what stays
    ensures spared { SparesBytes (D.state disk.old) (D.state disk.new) }
    ensures tells { is_some (D.state disk.new).seen ≡ is_some (D.state disk.old).seen }
    ensures moments { LeavesOnly (D.state disk.old) (D.state disk.new) (λ _. Unit {0}) }
    ensures ranges { (D.state disk.new).ranges ≡ (D.state disk.old).ranges }

    // by the answer, and causes
    ensures leaves { CreateLeaves result header.now (D.state disk.old) (D.state disk.new) }
    ensures counts { CountsOf CreateRefusal.DiskFault
        (D.state disk.old).faults (D.state disk.new).faults result }
{
    let len = disk.len()?;
    if len > 0 {
        return Err(CreateRefusal::NotEmpty { len });
    }
    let mut bytes = [CLOSED_GATE; HEADER_LEN + 1];
    bytes[..HEADER_LEN].copy_from_slice(&write_header(header));
    disk.write(0, &bytes)?;
    disk.sync()?;
    Ok(())
}
