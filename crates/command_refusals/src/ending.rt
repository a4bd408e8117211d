//! How a call ends by its answer.
ghost use Rattle.std.specs.Prelude.{◌≡◌, ◌≤◌};
ghost use Rattle.command_refusals.specs.Ending.{error_line, exit_status};
ghost use Rattle.command_refusals.specs.Outcome.{merge_line, merge_status};
ghost use Rattle.command_refusals.specs.Refusal.{Says};

use crate::outcome::MergeRefusal;
use crate::refusal::{Refusal, report, report_file};
use log_seams::Sink;

/// The status for an answer, whose line goes to `err`.
pub fn answer<K: Sink>(refusal: Option<Refusal>, name: &str, err: &mut K) -> u8
    ensures status { result ≡ exit_status refusal }
    ensures said { Says
        (K.written err.old) (K.written err.new) (K.faults err.old) (K.faults err.new)
        (error_line name.now refusal) }
    ensures later { K.faults err.old ≤ K.faults err.new }
{
    match refusal {
        None => 0,
        Some(refusal) => report(err, name, refusal),
    }
}

/// Writes the line of a merge that was refused, and answers its status; `name` is that of the file that
/// was stopped, if one was.
pub fn report_merge<K: Sink>(err: &mut K, name: &[u8], refusal: MergeRefusal) -> u8
    ensures status { result ≡ merge_status refusal }
    ensures said { Says
        (K.written err.old) (K.written err.new) (K.faults err.old) (K.faults err.new)
        (merge_line name.now refusal) }
    ensures later { K.faults err.old ≤ K.faults err.new }
{
    let refusal = match refusal {
        MergeRefusal::Full { book, count } => {
            return report_file(err, name, Refusal::Full { book, count });
        }
        MergeRefusal::SegmentFull { end, need } => {
            return report_file(err, name, Refusal::ArchiveFull { end, need });
        }
        MergeRefusal::DiskFault => Refusal::DiskFault,
        MergeRefusal::Damaged { at } => Refusal::Damaged { at },
        MergeRefusal::SecondDamaged { at } => Refusal::SecondDamaged { at },
        MergeRefusal::VersionDiffers { first, second } => Refusal::VersionDiffers { first, second },
        MergeRefusal::TooManyFiles { held, more } => Refusal::TooManyFiles { held, more },
        MergeRefusal::ArchiveFull { end, need } => Refusal::ArchiveFull { end, need },
        MergeRefusal::OutOfMemory => Refusal::OutOfMemory,
    };
    report(err, "", refusal)
}
