//! Workers that do jobs, and beside them one thread that does something else.
ghost use Rattle.std.specs.Prelude.{◌≡◌, ◌<◌, ◌≤◌, length};
ghost use Rattle.std.specs.Thread.{IsSync};
ghost use Rattle.ingest_fork.specs.declared.works.TheConstants.{MAX_WORKERS};
ghost use Rattle.ingest_fork.specs.Works.{AllReady, AllFit, AllDone, AllWent};

use crate::works::{Works, by_workers_of};
use std::sync::Wait;
use std::sync::atomic::{AtomicBool, Ordering};
use std::thread::{Threads, join_mut};

/// What runs beside workers: it uses a value of the type `P` for itself, as a pass of the lock that
/// the workers' keepers are passes of.
pub trait Follows<P> {
    // It may begin with this value.
    ghost may: { Self → P → Type 0 };

    // What became of it and of the value.
    ghost followed: { Self → P → Self → P → Type 0 };

    /// Runs beside the workers. Once `stop` is set they are done, and nothing more comes.
    fn follow<R: Wait>(&mut self, rt: &R, pass: &mut P, stop: &AtomicBool)
        requires may { may self.old pass.old }
        ensures followed { followed self.old pass.old self.new pass.new };
}

/// The workers do the jobs as by [`by_workers_of`](crate::by_workers_of), and `beside` runs in a
/// thread of its own meanwhile, or behind them where none can be made. It is told to stop once they
/// are done. Returns once both are.
pub fn by_workers_beside<
    J: Send,
    K: Send,
    W: Works<J, K> + Send,
    P: Send,
    B: Follows<P> + Send,
    R: Threads + Wait + Sync,
>(rt: &R, workers: &mut Vec<W>, jobs: &mut [J], keepers: &mut Vec<K>, beside: &mut B, pass: &mut P)
    // the jobs
    requires workers { (0 < length workers.old.items) × (length workers.old.items ≤ MAX_WORKERS) }
    requires few { length jobs.old ≤ 4294967296 }
    requires same { length jobs.old ≡ length keepers.old.items }
    requires ready { AllReady W.ready workers.old.items }
    requires fits { AllFit W.fits workers.old.items jobs.old keepers.old.items }
    requires may { B.may beside.old pass.old }

    // what became of the jobs
    ensures went { AllWent W.ready W.went jobs.old jobs.new workers.old.items workers.new.items }
    ensures did { AllDone W.went W.did workers.old.items workers.new.items jobs.old jobs.new
        keepers.old.items keepers.new.items }

    // and of what ran beside them
    ensures followed { B.followed beside.old pass.old beside.new pass.new }
{
    let stop = AtomicBool::new(false);
    // The first closure is the one that may run last, where there is no thread for it: the other
    // way round it would wait for workers that have not begun.
    join_mut(
        rt,
        &mut ||
            requires shared { IsSync R.row }
            requires may { B.may beside.now pass.now }
            ensures followed { B.followed beside.entry.now pass.entry.now
                beside.exit.now pass.exit.now }
        { beside.follow(rt, pass, &stop) },
        &mut ||
            requires shared { IsSync R.row }
            // the jobs
            requires workers { (0 < length workers.now.items)
                × (length workers.now.items ≤ MAX_WORKERS) }
            requires few { length jobs.now ≤ 4294967296 }
            requires same { length jobs.now ≡ length keepers.now.items }
            requires ready { AllReady W.ready workers.now.items }
            requires fits { AllFit W.fits workers.now.items jobs.now keepers.now.items }
            // what became of them
            ensures went { AllWent W.ready W.went jobs.entry.now jobs.exit.now
                workers.entry.now.items workers.exit.now.items }
            ensures did { AllDone W.went W.did workers.entry.now.items workers.exit.now.items
                jobs.entry.now jobs.exit.now keepers.entry.now.items keepers.exit.now.items }
        {
            by_workers_of(rt, workers, jobs, keepers);
            stop.store(true, Ordering::SeqCst);
        },
    );
}
