//! The machine over a list of events.
ghost use Rattle.std.specs.Prelude.{IfOk};
ghost use Rattle.archive_machine.specs.Machine.{IsKept, Runs, nothing_yet};

use crate::event::EventList;
use crate::machine::step;
use crate::state::{Core, HandList};
use archive_meaning::EntryList;
use plain_list::TextList;
use record_format::Header;
use std::alloc::{AllocError, Global};

/// The state after the events, for every list of them: an event that is not possible leaves the state.
/// Its journal is legal but for names of files and lengths, and holds the texts that are saved; each
/// row in hand is the encoding of its message.
pub fn core_run(alloc: Global, header: &Header, events: &EventList) -> Result<Core, AllocError>
    ensures run { IfOk result (Runs header.now nothing_yet events.now) }
    ensures kept { IfOk result (IsKept header.now) }
{
    let mut core = Core {
        types: TextList::new(Vec::new(alloc)),
        words: TextList::new(Vec::new(alloc)),
        saved_types: 0,
        saved_words: 0,
        journal: EntryList::new(Vec::new(alloc)),
        hands: HandList::new(Vec::new(alloc)),
    };
    for event in events.as_slice() {
        core = step(alloc, header, core, event)?;
    }
    Ok(core)
}
