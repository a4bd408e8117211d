//! One record behind the others.
ghost use Rattle.std.specs.Prelude.{◌≡◌, None, [], ◌∷◌, length, OnOk, OnErr};
ghost use Rattle.log_seams.specs.Outside.{Counts};
ghost use Rattle.disk_journal.specs.Record.{saved_of};
ghost use Rattle.disk_seal.specs.Told.{entry_of};
ghost use Rattle.disk_seal.specs.View.{state_by};
ghost use Rattle.disk_seal.specs.Adding.{CanAdd, front_of, Stays, HasOneMore, HasStopped, LeavesFirst};

use crate::store::Store;
use disk_journal::AppendRefusal;
use log_seams::{Disk, Failed};
use plain_list::Text;

impl<'d, 'b, D: Disk> Store<'d, 'b, D> {
    /// Appends a record, which saves so many log types and so many words more. After a fault the store is
    /// stopped. Takes no memory.
    pub(crate) fn add(&mut self, framed: &Text, types: u32, words: u32) -> Result<(), Failed>
        requires runs { self.old.stopped ≡ None }
        requires can { CanAdd framed.now types words (front_of (state_by D.state self.old)) }

        // what stays
        ensures stays { Stays self.old self.new }
        ensures moments { LeavesFirst (entry_of (saved_of framed.now) ∷ [])
            (state_by D.state self.old) (state_by D.state self.new) }

        // by the answer
        ensures added { OnOk result (HasOneMore (length framed.now) types words
            (entry_of (saved_of framed.now))
            (state_by D.state self.old) (state_by D.state self.new)) }
        ensures stopped { OnErr result
            (HasStopped (state_by D.state self.old) (state_by D.state self.new)) }

        // causes
        ensures counts { Counts
            (D.state self.old.disk).faults (D.state self.new.disk).faults result }
    {
        match self.journal.append(framed.as_slice()) {
            Ok(()) => {
                self.types_saved += types;
                self.words_saved += words;
                Ok(())
            }
            Err(AppendRefusal::DiskFault) => {
                self.stopped = Some(self.journal.faults());
                Err(Failed)
            }
            Err(AppendRefusal::ArchiveFull { .. }) => unreachable!(),
        }
    }
}
