//! What holds of every list of events: each law is the contract of a function that does nothing.
ghost use Rattle.archive_machine.specs.Laws.{AlwaysKept, EventsLead, LegalGrowth, OneState, StepsGrow};

use row_codec::one_row;

/// Whatever the events are, the dictionaries stay such, the journal stays legal but for names and
/// lengths, and each number still names its text.
pub fn always_kept()
    ensures kept { AlwaysKept }
    ensures grow { StepsGrow }
{}

/// A list of events leads to one state.
pub fn one_state()
    ensures { OneState }
{
    one_row();
}

/// The events of a legal journal lead to that journal, each end of a file in a segment of its own, with
/// the texts that it saves.
pub fn events_lead()
    ensures { EventsLead }
{}

/// Whatever is legally added to a journal is added by events: they lead from a state of the journal of
/// before to one with the new entries behind it, and one event writes each.
pub fn legal_growth()
    ensures { LegalGrowth }
{}
