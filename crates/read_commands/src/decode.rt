//! The command `decode`: the bytes of a file of an archive.
ghost use Rattle.std.specs.Prelude.{◌≡◌, ◌<◌, ◌⊎◌, ℕ, Ok, length, IsErrOf};
ghost use Rattle.log_seams.specs.Disk.{KeepsBytes};
ghost use Rattle.log_seams.specs.Outside.{CountsOf};
ghost use Rattle.archive_meaning.specs.Held.{content_of};
ghost use Rattle.archive_open.specs.Shown.{RefusedAt};
ghost use Rattle.command_answers.specs.Decoding.{LacksFile, PrintsFile};
ghost use Rattle.command_refusals.specs.Reading.{OverJournal};
ghost use Rattle.read_commands.specs.Decoding.{from_decode};

use archive_open::{Archive, PlainBooks, open_archive};
use archive_text::{DecodeRefusal, decode};
use command_refusals::FileRefusal;
use log_seams::{Disk, Sink};
use std::alloc::Global;

/// The refusal of a decoding, in an archive that is told as damaged at this place.
fn of_decode(refusal: DecodeRefusal, at: u64) -> FileRefusal
    ensures { result ≡ from_decode at refusal }
{
    match refusal {
        DecodeRefusal::DiskFault => FileRefusal::DiskFault,
        DecodeRefusal::Damaged => FileRefusal::Damaged { at },
        DecodeRefusal::SinkFault => FileRefusal::SinkFault,
        DecodeRefusal::OutOfMemory => FileRefusal::OutOfMemory,
    }
}

/// Opens the archive of a disk, and prints the bytes of the file of a number.
pub fn decode_file<D: Disk, K: Sink>(
    alloc: Global,
    number: u32,
    disk: &mut D,
    out: &mut K,
) -> Result<(), FileRefusal>
    // what stays
    ensures keeps { KeepsBytes (D.state disk.old) (D.state disk.new) }

    // by the answer
    ensures prints { PrintsFile result number
        (D.state disk.old).seen (K.written out.old) (K.written out.new) }
    ensures there { (result ≡ Ok tt) ⊎ (IsErrOf result FileRefusal.SinkFault)
        → OverJournal (D.state disk.old).seen (λ held. number < length (content_of held)) }
    ensures lacks { (told count : ℕ) → IsErrOf result (FileRefusal.NoSuchFile told count)
        → LacksFile number told count
        (D.state disk.old).seen (K.written out.old) (K.written out.new) }

    // causes
    ensures damaged { (at : ℕ) → IsErrOf result (FileRefusal.Damaged at)
        → RefusedAt at (D.state disk.old).seen }
    ensures disk { CountsOf FileRefusal.DiskFault
        (D.state disk.old).faults (D.state disk.new).faults result }
    ensures sink { CountsOf FileRefusal.SinkFault (K.faults out.old) (K.faults out.new) result }
{
    let archive: Archive<PlainBooks> = open_archive(alloc, disk)?;
    let count = archive.files().as_slice().len();
    if number as usize >= count {
        return Err(FileRefusal::NoSuchFile {
            number: u64::from(number),
            count: count as u64,
        });
    }
    match decode(alloc, &archive, number, disk, out) {
        Ok(()) => Ok(()),
        // The decoding tells no place. The first damage is not behind the last gate.
        Err(refusal) => Err(of_decode(refusal, archive.last_gate())),
    }
}
