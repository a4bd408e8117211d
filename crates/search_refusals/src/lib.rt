//! Which refusal of a command that reads an archive the refusal of a search is.
#![tactic(auto)]

ghost use Rattle.std.specs.Prelude.{◌≡◌};
ghost use Rattle.search_refusals.specs.Outcome.{from_search};

use command_refusals::ReadRefusal;
use search_walk::SearchRefusal;

/// The refusal of a search, in an archive that is told as damaged at this place.
pub fn of_search(refusal: SearchRefusal, at: u64) -> ReadRefusal
    ensures { result ≡ from_search at refusal }
{
    match refusal {
        SearchRefusal::DiskFault => ReadRefusal::DiskFault,
        SearchRefusal::SinkFault => ReadRefusal::SinkFault,
        SearchRefusal::Damaged => ReadRefusal::Damaged { at },
        SearchRefusal::OutOfMemory => ReadRefusal::OutOfMemory,
    }
}
