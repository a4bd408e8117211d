//! The end of a store, and of the passes of the two books.
ghost use Rattle.std.specs.Prelude.{◌≡◌, ◌≤◌, [], length, reverse, vec_capacity};
ghost use Rattle.turn_lock.specs.Words.{lock_by, lock_of};
ghost use Rattle.disk_seal.specs.View.{Kept, state_by};
ghost use Rattle.ingest_workers.specs.OpenWorker.{openers_in, workers_in};
ghost use Rattle.ingest_workers.specs.StartedWorkers.{HasEnded, MayDismiss};
ghost use Rattle.ingest_workers.specs.ClosedStore.{IsJournalOf};

use crate::open_worker::OpenWorker;
use crate::start_workers::dismiss;
use dict_core::Book;
use disk_journal::Journal;
use disk_seal::{Store, StorePasses};
use log_seams::Disk;
use turn_lock::Maker;

/// The journal of a store, whose passes end, and then those of the workers, whose openers come
/// back. The vector has room for them.
pub(crate) fn end<'b, 'd, D: Disk, O>(
    store: Store<'d, 'b, D>,
    workers: Vec<OpenWorker<'b, O>>,
    openers: &mut Vec<O>,
    types: &mut Maker<Book>,
    words: &mut Maker<Book>,
) -> Journal<'d, D>
    requires types { lock_of store.types ≡ lock_by types.old }
    requires words { lock_of store.words ≡ lock_by words.old }
    requires may { MayDismiss types.old words.old (workers_in workers.items) }
    requires none { openers.old.items ≡ [] }
    requires room { length workers.items ≤ vec_capacity openers.old }

    // the journal
    ensures journal { IsJournalOf store.entry result }
    ensures kept { Kept (state_by D.state store.entry) }

    // the passes and the openers
    ensures ended { HasEnded types.old types.new words.old words.new store.entry.types
        store.entry.words (workers_in workers.entry.items) }
    ensures openers { openers.new.items ≡ reverse (openers_in workers.entry.items) }
{
    let StorePasses {
        journal,
        types: of_types,
        words: of_words,
    } = store.close_store();
    types.join(of_types);
    words.join(of_words);
    dismiss(workers, openers, types, words);
    journal
}
