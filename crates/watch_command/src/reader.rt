//! How a reader ended, as that of a command that reads.
ghost use Rattle.std.specs.Prelude.{◌≡◌, option_map};
ghost use Rattle.command_refusals.specs.Outcome.{answer_of};
ghost use Rattle.watch_command.specs.StepsWatched.{from_live};

use command_refusals::ReadRefusal;
use live_search::LiveRefusal;

/// How a reader ended: it read to the end, or was refused.
pub(crate) fn outcome_of(refusal: Option<LiveRefusal>) -> Result<(), ReadRefusal>
    ensures { answer_of result ≡ option_map from_live refusal }
{
    match refusal {
        None => Ok(()),
        Some(LiveRefusal::DiskFault) => Err(ReadRefusal::DiskFault),
        Some(LiveRefusal::SinkFault) => Err(ReadRefusal::SinkFault),
        Some(LiveRefusal::Damaged { at }) => Err(ReadRefusal::Damaged { at }),
        Some(LiveRefusal::OutOfMemory) => Err(ReadRefusal::OutOfMemory),
    }
}
