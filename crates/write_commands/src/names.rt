//! Which names of files are refused.
ghost use Rattle.std.specs.Prelude.{map};
ghost use Rattle.log_sources.specs.Sources.{str_bytes};
ghost use Rattle.command_answers.specs.Names.{RefusesMore, RefusesNames};

use archive_meaning::{MAX_FILES, MAX_NAME_LEN, MAX_NAMES};
use command_refusals::AddRefusal;

/// What is refused of the names that are given, before the archive is looked at: the first one that is too
/// long, or that they are too many.
pub fn refuse_names(names: &[&str]) -> Option<AddRefusal>
    ensures { RefusesNames (map str_bytes names.now) result }
{
    for (index, name) in names.iter().enumerate() {
        if name.len() > MAX_NAME_LEN {
            return Some(AddRefusal::NameTooLong { index });
        }
    }
    if names.len() > MAX_NAMES {
        return Some(AddRefusal::TooManyFiles {
            held: 0,
            more: names.len() as u64,
        });
    }
    None
}

/// Whether so many more files are too many for an archive that has `held`.
pub(crate) fn refuse_more(held: u64, more: u64) -> Option<AddRefusal>
    ensures { RefusesMore held more result }
{
    if held.saturating_add(more) > MAX_FILES as u64 {
        return Some(AddRefusal::TooManyFiles { held, more });
    }
    None
}
