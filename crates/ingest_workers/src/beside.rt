//! Workers that do jobs, and a follower of the journal beside them.
ghost use Rattle.std.specs.Prelude.{◌≡◌, ◌<◌, ◌≤◌, length};
ghost use Rattle.ingest_fork.specs.declared.works.TheConstants.{MAX_WORKERS};
ghost use Rattle.ingest_fork.specs.Works.{AllDone, AllFit, AllReady, AllWent};
ghost use Rattle.disk_seal.specs.Beside.{HasFollowed, MayFollowOn};
ghost use Rattle.ingest_workers.specs.OpenWorker.{HaveServed, IsClosed, openers_in, workers_in};
ghost use Rattle.ingest_workers.specs.Worker.{DidJob, DidOnly, IsIdle, MayDo};

use crate::job::Job;
use crate::open_worker::OpenWorker;
use crate::opening::Opens;
use disk_seal::{Beside, Store};
use ingest_fork::{Follows, by_workers_beside};
use log_seams::Disk;
use std::sync::Wait;
use std::sync::atomic::AtomicBool;
use std::thread::Threads;
use turn_lock::Pass;

/// A follower of the journal, as the fork takes it.
#[derive(Drop)]
struct Following<'x, B> {
    beside: &'x mut B,
}

impl<'x, 'k, 'd, 'b, D: Disk, B: Beside<D>> Follows<Pass<'k, Store<'d, 'b, D>>>
    for Following<'x, B> {
    ghost may = { λ f p. MayFollowOn D.state (B.known f.beside.now) p };

    ghost followed = { λ f p g q. (g.beside.ghost_name ≡ f.beside.ghost_name)
        × HasFollowed D.state (B.known f.beside.now) (B.known g.beside.now) p q };

    fn follow<R: Wait>(
        &mut self,
        rt: &R,
        pass: &mut Pass<'k, Store<'d, 'b, D>>,
        stop: &AtomicBool,
    ) {
        self.beside.follow(pass, rt, stop);
    }
}

/// The workers do the jobs, each job with the pass at its place, and the follower uses the reader
/// meanwhile. Returns once all are done.
pub(crate) fn work_beside<
    'k,
    'b,
    'd,
    D: Disk + Send,
    T: Send,
    O: Opens<T> + Send,
    B: Beside<D> + Send,
    R: Threads + Wait + Sync,
>(
    rt: &R,
    workers: &mut Vec<OpenWorker<'b, O>>,
    jobs: &mut [Job<T>],
    keepers: &mut Vec<Pass<'k, Store<'d, 'b, D>>>,
    beside: &mut B,
    reader: &mut Pass<'k, Store<'d, 'b, D>>,
)
where
    O::Src: Send,
    // the jobs
    requires workers { (0 < length workers.old.items) × (length workers.old.items ≤ MAX_WORKERS) }
    requires idle { AllReady (IsClosed O.idle) workers.old.items }
    requires few { length jobs.old ≤ 4294967296 }
    requires same { length jobs.old ≡ length keepers.old.items }
    requires fits { AllFit (MayDo D.state) (workers_in workers.old.items) jobs.old
        keepers.old.items }
    requires may { MayFollowOn D.state (B.known beside.old) reader.old }

    // what became of the jobs
    ensures went { AllWent IsIdle (DidOnly O.left) jobs.old jobs.new
        (workers_in workers.old.items) (workers_in workers.new.items) }
    ensures did { AllDone (DidOnly O.left) (DidJob D.state O.left O.name O.faults)
        (workers_in workers.old.items) (workers_in workers.new.items) jobs.old jobs.new
        keepers.old.items keepers.new.items }
    ensures served { HaveServed O.idle O.goes O.knows (openers_in workers.old.items)
        (openers_in workers.new.items) jobs.old jobs.new }

    // and of the follower
    ensures followed { HasFollowed D.state (B.known beside.old) (B.known beside.new)
        reader.old reader.new }
{
    let mut following = Following { beside };
    by_workers_beside(rt, workers, jobs, keepers, &mut following, reader);
}
