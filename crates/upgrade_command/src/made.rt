//! The journal of a new archive.
ghost use Rattle.std.specs.Prelude.{◌≡◌, ◌∷◌, ◌++◌, []};
ghost use Rattle.log_seams.specs.Disk.{IsSynced, Reads};
ghost use Rattle.record_format.specs.Header.{IsHeader, header_bytes};
ghost use Rattle.disk_journal.specs.Journal.{state_of};
ghost use Rattle.disk_journal.specs.declared.record.TheConstants.{CLOSED_GATE};
ghost use Rattle.upgrade_command.specs.Filling.{IsNewJournal};

use disk_journal::Journal;
use log_seams::Disk;
use record_format::{HEADER_LEN, Header};

/// The journal of the archive that was just made of a disk, at its end. Makes no call of the disk.
pub(crate) fn begin_made<'e, E: Disk>(disk: &'e mut E, header: Header) -> Journal<'e, E>
    requires header { IsHeader header }
    requires reads { Reads (header_bytes header ++ CLOSED_GATE ∷ []) (E.state disk.old) }
    requires synced { IsSynced (E.state disk.old) }
    ensures name { result.disk.ghost_name ≡ disk.entry.ghost_name }
    ensures disk { result.disk.now ≡ disk.old }
    ensures header { result.header ≡ header }
    ensures new { IsNewJournal (state_of result) }
{
    Journal {
        disk,
        header,
        place: HEADER_LEN as u64,
        count: 0,
        closed: true,
    }
}
