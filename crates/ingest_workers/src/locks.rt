//! Jobs done under the keeper's lock.
ghost use Rattle.std.specs.Prelude.{◌≡◌, ◌<◌, ◌≤◌, [], length, OnOk, OnErr, IfOk, IfErr};
ghost use Rattle.turn_lock.specs.Words.{ended_by, id_of, lock_by, made_by};
ghost use Rattle.ingest_fork.specs.declared.works.TheConstants.{MAX_WORKERS};
ghost use Rattle.ingest_fork.specs.Works.{AllReady};
ghost use Rattle.ingest_workers.specs.Beside.{MayBeginBy, MayBeginOver, WasBesideBy, WasBesideOver};
ghost use Rattle.ingest_workers.specs.Locked.{HasDoneAll, HasWorked, IsStillStore, MayDoAll, MayDoAt};
ghost use Rattle.ingest_workers.specs.OpenWorker.{HaveServed, IsClosed, openers_in, workers_in};

use crate::beside::work_beside;
use crate::job::Job;
use crate::open_worker::OpenWorker;
use crate::opening::Opens;
use disk_seal::{Beside, Keeper, Store};
use ingest_fork::{fill, join_all};
use log_seams::Disk;
use std::alloc::{AllocError, Global};
use std::sync::Wait;
use std::thread::Threads;
use turn_lock::{LockRefused, Maker};

/// The most jobs that are done under one lock, which has 2^32 passes: two more are made than there
/// are jobs.
const MOST_JOBS: usize = 4_294_967_294;

/// The workers do the jobs, each job with a pass of its own, and the follower has one beside them.
/// Once they are done it handles what is left, by another pass. Refused for want of memory, before
/// any job is begun.
fn under_lock<
    'k,
    'b,
    'd,
    D: Disk + Send,
    T: Send,
    O: Opens<T> + Send,
    B: Beside<D> + Send,
    R: Threads + Wait + Sync,
>(
    rt: &R,
    alloc: Global,
    workers: &mut Vec<OpenWorker<'b, O>>,
    jobs: &mut [Job<T>],
    lock: &'k Keeper<'d, 'b, D>,
    maker: &mut Maker<Store<'d, 'b, D>>,
    beside: &mut B,
) -> Result<(), AllocError>
where
    O::Src: Send,
    requires workers { (0 < length workers.old.items) × (length workers.old.items ≤ MAX_WORKERS) }
    requires idle { AllReady (IsClosed O.idle) workers.old.items }
    requires lock { lock_by maker.old ≡ id_of lock.now }
    requires first { (made_by maker.old ≡ 0) × (ended_by maker.old ≡ []) }
    requires may { MayDoAll D.state maker.old (workers_in workers.old.items) jobs.old }
    requires beside { MayBeginBy D.state (B.known beside.old) maker.old }

    // what stays
    ensures lock { lock_by maker.new ≡ lock_by maker.old }

    // by the answer
    ensures done { OnOk result (HasDoneAll D.state O.left O.name O.faults maker.old maker.new
        (workers_in workers.old.items) (workers_in workers.new.items) jobs.old jobs.new) }
    ensures openers { OnOk result (HaveServed O.idle O.goes O.knows
        (openers_in workers.old.items) (openers_in workers.new.items) jobs.old jobs.new) }
    ensures beside { OnOk result (WasBesideBy D.state (B.known beside.old) (B.known beside.new)
        maker.old maker.new) }
    ensures refused { OnErr result ((maker.new ≡ maker.old) × (workers.new ≡ workers.old)
        × (jobs.new ≡ jobs.old) × (beside.new ≡ beside.old)) }
{
    let count = jobs.len();
    if count > MOST_JOBS {
        return Err(AllocError);
    }
    let mut keepers = Vec::with_capacity(alloc, count)?;
    fill(maker, lock, &mut keepers, count);
    let mut reader = maker.pass(lock);
    work_beside(rt, workers, jobs, &mut keepers, beside, &mut reader);
    maker.join(reader);
    join_all(maker, keepers);
    // A new pass has seen all that the others have added, so nothing is left behind it.
    let mut last = maker.pass(lock);
    beside.drain(&mut last, rt);
    maker.join(last);
    Ok(())
}

/// The workers do the jobs over the store, whose passes are numbered from the first job's file on,
/// and the follower runs beside them. Refused for want of memory, before any job is begun.
pub(crate) fn over_store<
    'b,
    'd,
    D: Disk + Send,
    T: Send,
    O: Opens<T> + Send,
    B: Beside<D> + Send,
    R: Threads + Wait + Sync,
>(
    rt: &R,
    alloc: Global,
    workers: &mut Vec<OpenWorker<'b, O>>,
    jobs: &mut [Job<T>],
    store: Store<'d, 'b, D>,
    first: u64,
    beside: &mut B,
) -> Result<Store<'d, 'b, D>, Store<'d, 'b, D>>
where
    O::Src: Send,
    requires workers { (0 < length workers.old.items) × (length workers.old.items ≤ MAX_WORKERS) }
    requires idle { AllReady (IsClosed O.idle) workers.old.items }
    requires first { first < 4294967296 }
    requires may { MayDoAt D.state first store (workers_in workers.old.items) jobs.old }
    requires beside { MayBeginOver D.state (B.known beside.old) store }

    // by the answer
    ensures done { IfOk result (λ after. HasWorked D.state O.left O.name O.faults first
        (workers_in workers.old.items) (workers_in workers.new.items) jobs.old jobs.new
        store.entry after) }
    ensures openers { OnOk result (HaveServed O.idle O.goes O.knows
        (openers_in workers.old.items) (openers_in workers.new.items) jobs.old jobs.new) }
    ensures beside { IfOk result (λ after. WasBesideOver D.state
        (B.known beside.old) (B.known beside.new) store.entry after) }
    ensures refused { IfErr result (λ after. IsStillStore D.state store.entry after) }
    ensures same { OnErr result ((workers.new ≡ workers.old) × (jobs.new ≡ jobs.old)
        × (beside.new ≡ beside.old)) }
{
    match Keeper::new(alloc, store, first) {
        Ok((lock, mut maker)) => {
            match under_lock(rt, alloc, workers, jobs, &lock, &mut maker, beside) {
                Ok(()) => Ok(lock.close(maker)),
                Err(_) => Err(lock.close(maker)),
            }
        }
        Err(refused) => {
            let LockRefused { value } = refused;
            Err(value)
        }
    }
}
