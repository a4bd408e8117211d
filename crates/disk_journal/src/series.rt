//! Several records, appended one after the other.
ghost use Rattle.std.specs.Prelude.{◌≤◌, ◌+◌, All, OnOk, OnErr};
ghost use Rattle.log_seams.specs.Outside.{Counts};
ghost use Rattle.disk_journal.specs.Record.{IsFrame};
ghost use Rattle.disk_journal.specs.State.{IsAtEnd};
ghost use Rattle.disk_journal.specs.Journal.{state_of};
ghost use Rattle.disk_journal.specs.Calls.{GoesOn, HasAdded, HasStopped, LeavesFirst};
ghost use Rattle.disk_journal.specs.Series.{saved_all, size_all};

use crate::{AppendRefusal, Journal};
use log_seams::{Disk, Failed};
use plain_list::Text;

/// Appends the records of framed texts, one after the other, where the journal has room for all of
/// them. After `Ok` every crash leaves the journal with all of them; at any moment a crash leaves the
/// journal with none, the first, the first two, .. or all of them. After an error the records that were
/// acknowledged are counted, and a crash leaves the journal with these, or with these and the next.
/// Takes no memory.
pub fn append_each<'d, D: Disk>(journal: &mut Journal<'d, D>, texts: &[Text]) -> Result<(), Failed>
    requires at_end { IsAtEnd (state_of journal.old) }
    requires framed { All IsFrame texts.now }
    requires room { journal.old.place + 1 + size_all texts.now ≤ journal.old.header.length_limit }

    // what stays
    ensures goes_on { GoesOn (state_of journal.old) (state_of journal.new) }
    ensures moments { LeavesFirst (saved_all texts.now)
        (state_of journal.old) (state_of journal.new) }

    // by the answer
    ensures added { OnOk result (HasAdded (saved_all texts.now) (size_all texts.now)
        (state_of journal.old) (state_of journal.new)) }
    ensures stopped { OnErr result
        (HasStopped texts.now (state_of journal.old) (state_of journal.new)) }

    // causes
    ensures cause { Counts
        (D.state journal.old.disk.now).faults (D.state journal.new.disk.now).faults result }
{
    for text in texts {
        match journal.append(text.as_slice()) {
            Ok(()) => {}
            Err(AppendRefusal::DiskFault) => return Err(Failed),
            Err(AppendRefusal::ArchiveFull { .. }) => unreachable!(),
        }
    }
    Ok(())
}
