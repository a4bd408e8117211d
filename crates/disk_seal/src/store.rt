//! The store: a journal at its end and a pass of each of the two books.

use crate::entry::StoreEntry;
use crate::fixed::StoreFixed;
use crate::opened::Opened;
use dict_core::Book;
use disk_journal::Journal;
use log_seams::Disk;
use std::marker::Model;
use turn_lock::{Grows, Pass, TurnLock};

/// A journal at its end, behind which the texts of two books and the segments of files are saved. Where a
/// fault of its disk has stopped it, nothing more is.
#[derive(Drop)]
pub struct Store<'d, 'b, D: Disk> {
    pub(crate) journal: Journal<'d, D>,
    // The disk at the opening, for contracts alone, and its count of faults then.
    pub(crate) opened: Opened<D>,
    pub(crate) faults: u64,
    // How many records the journal had at the opening.
    pub(crate) first: u64,
    // The passes of the two books, and how many of their texts are saved.
    pub(crate) types: Pass<'b, Book>,
    pub(crate) words: Pass<'b, Book>,
    pub(crate) types_saved: u32,
    pub(crate) words_saved: u32,
    // The disk's count of faults at the fault that stopped the store.
    pub(crate) stopped: Option<u64>,
}

/// A store that threads share. Each has a pass of its own.
pub type Keeper<'d, 'b, D> = TurnLock<Store<'d, 'b, D>>;

/// What is left of a store at its end.
#[derive(Drop)]
pub struct StorePasses<'d, 'b, D: Disk> {
    /// The journal, with the disk that was lent to it.
    pub journal: Journal<'d, D>,
    /// The pass of the log types.
    pub types: Pass<'b, Book>,
    /// The pass of the words.
    pub words: Pass<'b, Book>,
}

impl<'d, 'b, D: Disk> Model for Store<'d, 'b, D> {
    ghost use Rattle.disk_seal.specs.View.{StoreView, Kept};

    ghost Value = { StoreView D };

    ghost view = { λ s. record {
      disk = s.journal.disk.now;
      name = s.journal.disk.ghost_name;
      opened = s.opened.value;
      faults = s.faults;
      header = s.journal.header;
      place = s.journal.place;
      count = s.journal.count;
      closed = s.journal.closed;
      first = s.first;
      types = s.types;
      words = s.words;
      types_saved = s.types_saved;
      words_saved = s.words_saved;
      stopped = s.stopped;
    } };

    ghost invariant = { λ s. Kept (record {
      disk = D.state s.journal.disk.now;
      name = s.journal.disk.ghost_name;
      opened = D.state s.opened.value;
      faults = s.faults;
      header = s.journal.header;
      place = s.journal.place;
      count = s.journal.count;
      closed = s.journal.closed;
      first = s.first;
      types = s.types;
      words = s.words;
      types_saved = s.types_saved;
      words_saved = s.words_saved;
      stopped = s.stopped;
    }) };
}

impl<'d, 'b, D: Disk> Grows for Store<'d, 'b, D> {
    ghost use Rattle.disk_seal.specs.View.{state_by, store_entries};
    ghost use Rattle.disk_seal.specs.Fixed.{fixed_of};
    ghost use Rattle.disk_seal.specs.May.{MayAdd};

    type Entry = StoreEntry;

    type Fixed = StoreFixed<D>;

    ghost entries = { λ s. store_entries (state_by D.state s) };

    ghost may_add = { MayAdd };

    ghost fixed = { fixed_of };

    fn count(&self) -> u64 {
        match self.stopped {
            None => self.journal.count,
            Some(_) => self.journal.count + 1,
        }
    }
}

impl<'d, 'b, D: Disk> Store<'d, 'b, D> {
    ghost use Rattle.std.specs.Prelude.{◌≡◌, None};
    ghost use Rattle.disk_journal.specs.Journal.{state_of};
    ghost use Rattle.disk_seal.specs.View.{Kept, state_by};
    ghost use Rattle.disk_seal.specs.Opening.{MayOpen, MayName};

    /// The store over a journal at its end, to which no append has failed, and a pass of each book. The
    /// passes have seen the openings of their locks and at least so many texts, which are saved. Makes no
    /// call on the disk, and takes no memory.
    pub fn open_store(
        journal: Journal<'d, D>,
        types: Pass<'b, Book>,
        words: Pass<'b, Book>,
        types_saved: u32,
        words_saved: u32,
    ) -> Store<'d, 'b, D>
        requires journal { MayOpen (state_of journal) }
        requires books { MayName (state_of journal) types words types_saved words_saved }
        ensures { result ≡ record {
          disk = journal.entry.disk.now;
          name = journal.entry.disk.ghost_name;
          opened = journal.entry.disk.now;
          faults = (D.state journal.entry.disk.now).faults;
          header = journal.entry.header;
          place = journal.entry.place;
          count = journal.entry.count;
          closed = journal.entry.closed;
          first = journal.entry.count;
          types = types.entry;
          words = words.entry;
          types_saved = types_saved;
          words_saved = words_saved;
          stopped = None;
        } }
    {
        let opened = Opened::of(&*journal.disk);
        let faults = journal.faults();
        let first = journal.count;
        Store {
            journal,
            opened,
            faults,
            first,
            types,
            words,
            types_saved,
            words_saved,
            stopped: None,
        }
    }

    /// Ends the store, stopped or not. Makes no call on the disk, and takes no memory. Take the answer
    /// apart at once: a contract follows the disk by the journal's field.
    pub fn close_store(self) -> StorePasses<'d, 'b, D>
        // the journal
        ensures name { result.journal.disk.ghost_name ≡ self.entry.name }
        ensures disk { result.journal.disk.now ≡ self.entry.disk }
        ensures header { result.journal.header ≡ self.entry.header }
        ensures place { result.journal.place ≡ self.entry.place }
        ensures count { result.journal.count ≡ self.entry.count }
        ensures closed { result.journal.closed ≡ self.entry.closed }

        // the passes with its dictionaries
        ensures types { result.types ≡ self.entry.types }
        ensures words { result.words ≡ self.entry.words }

        // what every store keeps
        ensures kept { Kept (state_by D.state self.entry) }
    {
        let Store {
            journal,
            opened: _,
            faults: _,
            first: _,
            types,
            words,
            types_saved: _,
            words_saved: _,
            stopped: _,
        } = self;
        StorePasses {
            journal,
            types,
            words,
        }
    }

    /// A law, as the contract of a call that does nothing: what every store keeps.
    pub fn facts(&self)
        ensures { Kept (state_by D.state self.now) }
    {
        let _ = &self.first;
    }
}
