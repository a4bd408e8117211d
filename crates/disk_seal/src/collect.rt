//! Collecting the texts that are not saved.
ghost use Rattle.std.specs.Prelude.{◌≡◌, ◌+◌, drop, IfOk};
ghost use Rattle.turn_lock.specs.Words.{seen, lock_of, lock_noted, noted};
ghost use Rattle.dict_lock.specs.Shared.{HasSeenBook};
ghost use Rattle.disk_seal.specs.Collected.{IsSameButBooks, HasSeenMore};

use crate::store::Store;
use dict_core::Book;
use dict_lock::unsaved;
use log_seams::Disk;
use plain_list::TextList;
use std::alloc::AllocError;
use std::sync::Wait;
use std::sync::ledger::Ledger;
use step_count::Steps;
use turn_lock::Note;

/// The texts of the two books that are not saved, in the order of their numbers.
#[derive(Drop)]
pub(crate) struct Unsaved {
    pub types: TextList,
    pub words: TextList,
}

impl<'d, 'b, D: Disk> Store<'d, 'b, D> {
    /// Learns the notes, takes a turn with each book and copies the texts that are not saved, also those
    /// that other threads named. The passes have then seen both books whole, also where there is no memory
    /// for the copies.
    pub(crate) fn collect<R: Wait, A: Ledger, B: Ledger>(
        &mut self,
        rt: &R,
        types: Note<'_, Book>,
        words: Note<'_, Book>,
        type_turns: &mut Steps<A>,
        word_turns: &mut Steps<B>,
    ) -> Result<Unsaved, AllocError>
        requires types { lock_noted types ≡ lock_of self.old.types }
        requires words { lock_noted words ≡ lock_of self.old.words }

        // what stays, and what is seen
        ensures same { IsSameButBooks self.old self.new }
        ensures types { HasSeenMore self.old.types self.new.types (noted types.entry) }
        ensures words { HasSeenMore self.old.words self.new.words (noted words.entry) }
        ensures books { HasSeenBook self.new.types × HasSeenBook self.new.words }

        // the answer
        ensures unsaved_types { IfOk result (λ u.
            u.types ≡ drop self.old.types_saved (seen self.new.types)) }
        ensures unsaved_words { IfOk result (λ u.
            u.words ≡ drop self.old.words_saved (seen self.new.words)) }

        // turns
        ensures turns { (type_turns.new ≡ type_turns.old + 1)
            × (word_turns.new ≡ word_turns.old + 1) }
    {
        self.types.join(types);
        self.words.join(words);
        let types = unsaved(&mut self.types, rt, self.types_saved, type_turns);
        let words = unsaved(&mut self.words, rt, self.words_saved, word_turns);
        match (types, words) {
            (Ok(types), Ok(words)) => Ok(Unsaved { types, words }),
            _ => Err(AllocError),
        }
    }
}
