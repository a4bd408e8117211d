//! The workers with their passes of the two books.
ghost use Rattle.std.specs.Prelude.{◌≡◌, ◌+◌, ◌≤◌, [], length, reverse, vec_capacity};
ghost use Rattle.turn_lock.specs.Words.{id_of, lock_by, made_by};
ghost use Rattle.ingest_workers.specs.OpenWorker.{openers_in, workers_in};
ghost use Rattle.ingest_workers.specs.StartedWorkers.{HasDismissed, HasEnrolled, MayDismiss};

use crate::open_worker::OpenWorker;
use crate::worker::{BookPasses, Plan, Worker};
use dict_core::Book;
use dict_lock::SharedBook;
use std::alloc::Global;
use turn_lock::Maker;

/// A worker for each opener, which it takes, with a pass of each book. The vector has room for
/// them, so no memory is asked for.
pub(crate) fn enroll<'b, O>(
    workers: &mut Vec<OpenWorker<'b, O>>,
    openers: &mut Vec<O>,
    alloc: Global,
    plan: Plan,
    types_lock: &'b SharedBook,
    types: &mut Maker<Book>,
    words_lock: &'b SharedBook,
    words: &mut Maker<Book>,
)
    requires types { lock_by types.old ≡ id_of types_lock.now }
    requires words { lock_by words.old ≡ id_of words_lock.now }
    requires none { workers.old.items ≡ [] }
    requires room { length openers.old.items ≤ vec_capacity workers.old }
    requires few_types { made_by types.old + length openers.old.items ≤ 4294967296 }
    requires few_words { made_by words.old + length openers.old.items ≤ 4294967296 }

    // the workers
    ensures enrolled { HasEnrolled types.old types.new words.old words.new plan
        (workers_in workers.new.items) (length openers.old.items) }

    // the openers, which are popped from the last on
    ensures openers { openers_in workers.new.items ≡ reverse openers.old.items }
    ensures taken { openers.new.items ≡ [] }
    ensures room { vec_capacity openers.new ≡ vec_capacity openers.old }
{
    while let Some(opener) = openers.pop() {
        let of_types = types.pass(types_lock);
        let of_words = words.pass(words_lock);
        let passes = BookPasses::new(alloc, of_types, of_words);
        let worker = Worker::new(alloc, plan, passes);
        workers.push_reserved(OpenWorker { worker, opener });
    }
}

/// Ends the passes of the workers, and gives their openers back. The vector has room for them.
pub(crate) fn dismiss<O>(
    mut workers: Vec<OpenWorker<'_, O>>,
    openers: &mut Vec<O>,
    types: &mut Maker<Book>,
    words: &mut Maker<Book>,
)
    requires may { MayDismiss types.old words.old (workers_in workers.items) }
    requires none { openers.old.items ≡ [] }
    requires room { length workers.items ≤ vec_capacity openers.old }
    ensures dismissed { HasDismissed types.old types.new words.old words.new
        (workers_in workers.entry.items) 0 }
    ensures openers { openers.new.items ≡ reverse (openers_in workers.entry.items) }
{
    while let Some(worker) = workers.pop() {
        let OpenWorker { worker, opener } = worker;
        let passes = worker.into_passes();
        let (of_types, of_words) = passes.into_both();
        types.join(of_types);
        words.join(of_words);
        openers.push_reserved(opener);
    }
    workers.destroy_empty();
}
