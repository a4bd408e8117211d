//! The files of a second archive behind those of a journal, over both books.
ghost use Rattle.std.specs.Prelude.{◌≡◌, IfErr, IfOk, OnErr};
ghost use Rattle.turn_lock.specs.Words.{id_of, lock_by, lock_of};
ghost use Rattle.disk_journal.specs.Journal.{state_of};
ghost use Rattle.disk_seal.specs.View.{Kept, state_by};
ghost use Rattle.ingest_workers.specs.ClosedStore.{IsJournalOf};
ghost use Rattle.ingest_workers.specs.Ingested.{HoldTexts, IsAsItWas};
ghost use Rattle.archive_merge.specs.Behind.{HasMerged, MayBegin, MayServe, OnlyRead, second_by};
ghost use Rattle.archive_merge.specs.Taken.{texts_by};
ghost use Rattle.archive_merge.specs.Ended.{AreOf, HasEnded, OpensTypes, OpensWords, WereMovedOver};

use crate::file::Merged;
use crate::locks::move_files;
use crate::merger::{BookPasses, Merger, Second, Stopped};
use dict_core::{Book, WORDS_FIRST};
use dict_lock::{CachedPass, SharedBook};
use disk_journal::Journal;
use disk_seal::{Store, StorePasses};
use log_seams::Disk;
use row_codec::Names;
use std::alloc::Global;
use std::sync::Wait;
use turn_lock::Maker;

/// What is left once files were moved.
#[derive(Drop)]
pub struct Moved<'s, 'd, M: Names, E: Disk, D: Disk> {
    /// The journal, whose disk has what was sealed, durably.
    pub journal: Journal<'d, D>,
    /// The second archive.
    pub second: Second<'s, M, E>,
    /// Which file was not moved whole, and why. No file behind it was begun.
    pub stop: Option<Stopped>,
}

/// There was no memory. No file was begun, and the journal is as it was.
#[derive(Drop)]
pub struct MoveRefused<'s, 'd, M: Names, E: Disk, D: Disk> {
    /// The journal.
    pub journal: Journal<'d, D>,
    /// The second archive.
    pub second: Second<'s, M, E>,
}

/// What is to be moved, and how.
#[derive(Drop)]
struct Order<'s, M: Names, E: Disk> {
    // What the locks and the passes are allocated with.
    alloc: Global,
    // The number of the first file.
    first: u32,
    // How many texts the two books hold, which are saved.
    types_saved: u32,
    words_saved: u32,
    second: Second<'s, M, E>,
}

/// The journal of a store, whose passes are dropped.
fn give_back<'b, 'd, D: Disk>(store: Store<'d, 'b, D>) -> Journal<'d, D>
    ensures journal { IsJournalOf store.entry result }
    ensures kept { Kept (state_by D.state store.entry) }
{
    let StorePasses {
        journal,
        types: _,
        words: _,
    } = store.close_store();
    journal
}

/// The journal of a store, whose passes end, and then these.
fn end<'b, 'd, D: Disk>(
    store: Store<'d, 'b, D>,
    passes: BookPasses<'b>,
    types: &mut Maker<Book>,
    words: &mut Maker<Book>,
) -> Journal<'d, D>
    requires types { lock_of store.types ≡ lock_by types.old }
    requires words { lock_of store.words ≡ lock_by words.old }
    requires passes { AreOf types.old words.old passes }
    ensures journal { IsJournalOf store.entry result }
    ensures kept { Kept (state_by D.state store.entry) }
    ensures ended { HasEnded types.old types.new words.old words.new store.entry.types
        store.entry.words passes.entry }
{
    let StorePasses {
        journal,
        types: types_reader,
        words: words_reader,
    } = store.close_store();
    types.join(types_reader);
    words.join(words_reader);
    let BookPasses {
        types: types_pass,
        words: words_pass,
    } = passes;
    types.join(types_pass.into_pass());
    words.join(words_pass.into_pass());
    journal
}

/// The files are moved over the journal, with passes of both books.
fn with_passes<'s, 'b, 'd, M: Names, E: Disk, D: Disk, R: Wait>(
    rt: &R,
    files: &mut [Merged],
    order: Order<'s, M, E>,
    journal: Journal<'d, D>,
    types_lock: &'b SharedBook,
    types: &mut Maker<Book>,
    words_lock: &'b SharedBook,
    words: &mut Maker<Book>,
) -> Result<Moved<'s, 'd, M, E, D>, MoveRefused<'s, 'd, M, E, D>>
    requires begin { MayBegin order.first (M.version order.second.names.now) journal files.old }
    requires serves { MayServe (M.version order.second.names.now)
        (texts_by M.types M.words order.second.names.now) order.second.taker }

    // the books
    requires types_lock { lock_by types.old ≡ id_of types_lock.now }
    requires words_lock { lock_by words.old ≡ id_of words_lock.now }
    requires types { OpensTypes order.types_saved journal types.old }
    requires words { OpensWords order.words_saved journal words.old }

    // by the answer
    ensures moved { IfOk result (λ m. WereMovedOver (second_by M.types M.words M.version E.state
        order.entry.second) order.entry.first m.stop files.old files.new journal.entry m.journal
        types.old types.new words.old words.new) }
    ensures second { IfOk result (λ m. OnlyRead E.state m.stop order.entry.second
        m.second) }
    ensures refused { IfErr result (λ r. IsAsItWas journal.entry r.journal
        × (r.second ≡ order.entry.second)) }
    ensures files { OnErr result (files.new ≡ files.old) }
{
    let Order {
        alloc,
        first,
        types_saved,
        words_saved,
        second,
    } = order;
    let types_reader = types.pass(types_lock);
    let words_reader = words.pass(words_lock);
    let types_pass = types.pass(types_lock);
    let words_pass = words.pass(words_lock);
    let passes = BookPasses {
        types: CachedPass::new(alloc, types_pass),
        words: CachedPass::new(alloc, words_pass),
    };
    let mut merger = Merger::new(first, second, passes);
    let store = Store::open_store(
        journal,
        types_reader,
        words_reader,
        types_saved,
        words_saved,
    );
    match move_files(rt, alloc, &mut merger, files, store, u64::from(first)) {
        Ok(store) => {
            let (second, passes, stop) = merger.into_parts();
            let journal = end(store, passes, types, words);
            Ok(Moved {
                journal,
                second,
                stop,
            })
        }
        Err(store) => {
            let (second, _passes, _stop) = merger.into_parts();
            let journal = give_back(store);
            Err(MoveRefused { journal, second })
        }
    }
}

/// Moves the files of a second archive behind those of a journal, one after the other, until one is
/// stopped. The first has this number in the journal's archive. Both books have the journal's
/// texts, and a lock meanwhile. Journal and second archive come back on each way.
///
/// # Errors
///
/// There was no memory to begin. No file was begun then.
pub fn move_behind<'s, 'd, M: Names, E: Disk, D: Disk, R: Wait>(
    rt: &R,
    alloc: Global,
    first: u32,
    files: &mut [Merged],
    second: Second<'s, M, E>,
    journal: Journal<'d, D>,
    types: Book,
    words: Book,
) -> Result<Moved<'s, 'd, M, E, D>, MoveRefused<'s, 'd, M, E, D>>
    requires begin { MayBegin first (M.version second.names.now) journal files.old }
    requires serves { MayServe (M.version second.names.now)
        (texts_by M.types M.words second.names.now) second.taker }
    requires books { HoldTexts (state_of journal) types words }

    // where the files were begun
    ensures merged { IfOk result (λ m. HasMerged (second_by M.types M.words M.version E.state
        second.entry) first m.stop files.old files.new journal.entry m.journal) }
    ensures second { IfOk result (λ m. OnlyRead E.state m.stop second.entry m.second) }

    // where there was no memory to begin
    ensures refused { IfErr result (λ r. IsAsItWas journal.entry r.journal
        × (r.second ≡ second.entry)) }
    ensures files { OnErr result (files.new ≡ files.old) }
{
    let order = Order {
        alloc,
        first,
        types_saved: types.len(),
        words_saved: words.len(),
        second,
    };
    let Ok((types_lock, mut types)) = SharedBook::new(alloc, types, 0) else {
        let Order { second, .. } = order;
        return Err(MoveRefused { journal, second });
    };
    let Ok((words_lock, mut words)) = SharedBook::new(alloc, words, WORDS_FIRST) else {
        let Order { second, .. } = order;
        return Err(MoveRefused { journal, second });
    };
    match with_passes(
        rt,
        files,
        order,
        journal,
        &types_lock,
        &mut types,
        &words_lock,
        &mut words,
    ) {
        Ok(moved) => {
            let types = types_lock.close(types);
            let words = words_lock.close(words);
            let _counts = (types.len(), words.len());
            Ok(moved)
        }
        Err(refused) => Err(refused),
    }
}
