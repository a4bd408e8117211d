//! Files moved under the keeper's lock.
ghost use Rattle.std.specs.Prelude.{◌≡◌, ◌<◌, ◌≤◌, [], ◌∷◌, length, IfErr, IfOk, OnErr, OnOk};
ghost use Rattle.turn_lock.specs.Words.{id_of, lock_by, made_by};
ghost use Rattle.ingest_fork.specs.Works.{AllDone, AllFit};
ghost use Rattle.ingest_workers.specs.Locked.{IsStillStore};
ghost use Rattle.archive_merge.specs.Locked.{HasMovedAll, HasMovedOver, MayMoveAll, MayMoveAt};
ghost use Rattle.archive_merge.specs.Merger.{IsIdle};

use crate::file::Merged;
use crate::merger::Merger;
use disk_seal::{Keeper, Store};
use ingest_fork::{Works, fill, in_turn, join_all};
use log_seams::Disk;
use row_codec::Names;
use std::alloc::{AllocError, Global};
use std::sync::Wait;
use turn_lock::{LockRefused, Maker};

/// The jobs are done in their order over a vector of keepers. A caller whose keepers' type names a
/// lifetime learns by it what became of them.
fn in_turn_of<J, K, W: Works<J, K>, R: Wait>(
    rt: &R,
    worker: &mut W,
    jobs: &mut [J],
    keepers: &mut Vec<K>,
)
    requires same { length jobs.old ≡ length keepers.old.items }
    requires ready { W.ready worker.old }
    requires fits { AllFit W.fits (worker.old ∷ []) jobs.old keepers.old.items }
    ensures ready { W.ready worker.new }
    ensures went { W.went jobs.old jobs.new worker.old worker.new }
    ensures did { AllDone W.went W.did (worker.old ∷ []) (worker.new ∷ []) jobs.old jobs.new
        keepers.old.items keepers.new.items }
{
    in_turn(rt, worker, jobs, keepers.as_mut_slice());
}

/// The files are moved one after the other, each with a pass of its own. Refused for want of memory,
/// before any file is begun.
fn under_lock<'k, 'b, 'd, M: Names, E: Disk, D: Disk, R: Wait>(
    rt: &R,
    alloc: Global,
    merger: &mut Merger<'_, 'b, M, E>,
    files: &mut [Merged],
    lock: &'k Keeper<'d, 'b, D>,
    maker: &mut Maker<Store<'d, 'b, D>>,
) -> Result<(), AllocError>
    requires idle { IsIdle M.types M.words M.version merger.old }
    requires files { length files.old ≤ 4294967296 }
    requires lock { lock_by maker.old ≡ id_of lock.now }
    requires first { made_by maker.old ≡ 0 }
    requires may { MayMoveAll M.types M.words M.version D.state maker.old merger.old files.old }

    // what stays
    ensures lock { lock_by maker.new ≡ lock_by maker.old }

    // by the answer
    ensures done { OnOk result (HasMovedAll M.types M.words M.version D.state E.state
        maker.old maker.new merger.old merger.new files.old files.new) }
    ensures refused { OnErr result ((maker.new ≡ maker.old) × (files.new ≡ files.old)
        × (merger.new ≡ merger.old)) }
{
    let mut keepers = Vec::with_capacity(alloc, files.len())?;
    fill(maker, lock, &mut keepers, files.len());
    in_turn_of(rt, merger, files, &mut keepers);
    join_all(maker, keepers);
    Ok(())
}

/// Moves the files over the store, one after the other, each with a pass of its own, and hands the
/// store back. The passes are numbered from the first file on. Once a file is stopped no further one
/// is begun.
///
/// # Errors
///
/// There was no memory to begin. No file was begun then.
pub fn move_files<'b, 'd, M: Names, E: Disk, D: Disk, R: Wait>(
    rt: &R,
    alloc: Global,
    merger: &mut Merger<'_, 'b, M, E>,
    files: &mut [Merged],
    store: Store<'d, 'b, D>,
    first: u64,
) -> Result<Store<'d, 'b, D>, Store<'d, 'b, D>>
    requires idle { IsIdle M.types M.words M.version merger.old }
    requires files { length files.old ≤ 4294967296 }
    requires first { first < 4294967296 }
    requires may { MayMoveAt M.types M.words M.version D.state first store merger.old files.old }

    // by the answer
    ensures done { IfOk result (λ after. HasMovedOver M.types M.words M.version D.state E.state
        first merger.old merger.new files.old files.new store.entry after) }
    ensures refused { IfErr result (λ after. IsStillStore D.state store.entry after) }
    ensures files { OnErr result ((files.new ≡ files.old) × (merger.new ≡ merger.old)) }
{
    match Keeper::new(alloc, store, first) {
        Ok((lock, mut maker)) => match under_lock(rt, alloc, merger, files, &lock, &mut maker) {
            Ok(()) => Ok(lock.close(maker)),
            Err(_) => Err(lock.close(maker)),
        },
        Err(refused) => {
            let LockRefused { value } = refused;
            Err(value)
        }
    }
}
