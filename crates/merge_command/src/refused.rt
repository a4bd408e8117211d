//! Why not all was merged, as it is told.
ghost use Rattle.std.specs.Prelude.{◌≡◌, option_map};
ghost use Rattle.merge_command.specs.Came.{name_at, place_stopped, refusal_by};

use archive_merge::{MergeCause, MergeRefusal as Why};
use archive_open::FileEntry;
use command_refusals::MergeRefusal;

/// Why a file was not moved whole, where the second archive's damage is told at `last`.
fn of_cause(cause: MergeCause, last: u64) -> MergeRefusal
    ensures { result ≡ refusal_by last (Why.Stopped 0 cause) }
{
    match cause {
        MergeCause::Full { book, count } => MergeRefusal::Full { book, count },
        MergeCause::ArchiveFull { end, need } => MergeRefusal::SegmentFull { end, need },
        MergeCause::FirstFault { .. } | MergeCause::SecondFault => MergeRefusal::DiskFault,
        MergeCause::SecondDamaged => MergeRefusal::SecondDamaged { at: last },
        MergeCause::OutOfMemory => MergeRefusal::OutOfMemory,
    }
}

/// Why not all was merged. The merging tells no place of damage: the first is not behind the second
/// archive's last gate, `last`.
pub(crate) fn refusal_of(why: Option<Why>, last: u64) -> Option<MergeRefusal>
    ensures { result ≡ option_map (refusal_by last) why }
{
    Some(match why? {
        Why::LongName => MergeRefusal::SecondDamaged { at: last },
        Why::Names(refusal) => MergeRefusal::from(refusal),
        Why::Stopped { cause, .. } => of_cause(cause, last),
        Why::OutOfMemory => MergeRefusal::OutOfMemory,
    })
}

/// The place of the file that stopped a merge, whose first file has the number `first`.
pub(crate) fn place_of(why: Option<Why>, first: u32) -> Option<usize>
    ensures { result ≡ place_stopped first why }
{
    match why {
        Some(Why::Stopped { file, .. }) => Some(file.saturating_sub(first) as usize),
        _ => None,
    }
}

/// The name of the file at a place.
pub(crate) fn name_of(files: &[FileEntry], place: Option<usize>) -> &[u8]
    ensures { result.now ≡ name_at files.now place }
{
    match place {
        Some(place) => match files.get(place) {
            Some(file) => file.name.as_slice(),
            None => b"",
        },
        None => b"",
    }
}
