//! Jobs that workers do on several threads. Each worker does a consecutive piece of the jobs, one
//! after the other, and each job has a keeper of its own, which the worker uses for it.
ghost use Rattle.std.specs.Prelude.{◌≡◌, ◌<◌, ◌≤◌, List, [], ◌∷◌, length};
ghost use Rattle.std.specs.Thread.{IsSync};
ghost use Rattle.ingest_fork.specs.declared.works.TheConstants.{MAX_WORKERS};
ghost use Rattle.ingest_fork.specs.Works.{AllReady, AllFit, AllDone, AllWent};
ghost use Rattle.ingest_fork.specs.Works.{Rests, GoesOn, Widens, FitsOn};

use std::sync::Wait;
use std::thread::{Threads, join_mut};

/// The most workers that do jobs side by side.
pub const MAX_WORKERS: usize = 64;

/// A worker, which does jobs of the type `J` one after the other, each with a keeper of the type
/// `K`. What a worker and a keeper are is told where the trait is implemented, so a type that names
/// a lifetime may stand there.
pub trait Works<J, K> {
    // It is between two jobs.
    ghost ready: { Self → Type 0 };

    // It may do the job with this keeper.
    ghost fits: { Self → J → K → Type 0 };

    // It did nothing but some of these jobs, which became those.
    ghost went: { List J → List J → Self → Self → Type 0 };

    // What became of the worker, the job and the keeper, where it did the job.
    ghost did: { Self → J → K → Self → J → K → Type 0 };

    /// Does the job.
    fn work<R: Wait>(&mut self, rt: &R, job: &mut J, keeper: &mut K)
        requires ready { ready self.old }
        requires fits { fits self.old job.old keeper.old }
        ensures ready { ready self.new }
        ensures went { went (job.old ∷ []) (job.new ∷ []) self.old self.new }
        ensures did { did self.old job.old keeper.old self.new job.new keeper.new };

    // Laws. A worker that did nothing did nothing but these jobs.
    ghost rests: { Rests went ready };

    // What it did goes together.
    ghost goes_on: { GoesOn went };

    // Who did nothing but a piece of the jobs did nothing but the jobs.
    ghost wider: { Widens went };

    // What it may do it may do later.
    ghost fits_on: { FitsOn went fits };
}

/// One worker does all the jobs, in their order.
pub fn in_turn<J, K, W: Works<J, K>, R: Wait>(
    rt: &R,
    worker: &mut W,
    jobs: &mut [J],
    keepers: &mut [K],
)
    requires same { length jobs.old ≡ length keepers.old }
    requires ready { W.ready worker.old }
    requires fits { AllFit W.fits (worker.old ∷ []) jobs.old keepers.old }
    ensures ready { W.ready worker.new }
    ensures went { W.went jobs.old jobs.new worker.old worker.new }
    ensures did { AllDone W.went W.did (worker.old ∷ []) (worker.new ∷ []) jobs.old jobs.new
        keepers.old keepers.new }
{
    for i in 0..jobs.len() {
        worker.work(rt, &mut jobs[i], &mut keepers[i]);
    }
}

/// The workers do the jobs, each a consecutive piece of them: of `n` jobs the first half of the
/// workers do as many as is their part in the count of workers. Returns once all are done.
pub fn by_workers<J: Send, K: Send, W: Works<J, K> + Send, R: Threads + Wait + Sync>(
    rt: &R,
    workers: &mut [W],
    jobs: &mut [J],
    keepers: &mut [K],
)
    requires workers { (0 < length workers.old) × (length workers.old ≤ MAX_WORKERS) }
    requires few { length jobs.old ≤ 4294967296 }
    requires same { length jobs.old ≡ length keepers.old }
    requires ready { AllReady W.ready workers.old }
    requires fits { AllFit W.fits workers.old jobs.old keepers.old }
    ensures went { AllWent W.ready W.went jobs.old jobs.new workers.old workers.new }
    ensures did { AllDone W.went W.did workers.old workers.new jobs.old jobs.new
        keepers.old keepers.new }
{
    let count = workers.len();
    if count == 1 {
        in_turn(rt, &mut workers[0], jobs, keepers);
        return;
    }
    let half = count / 2;
    let cut = jobs.len() * half / count;
    let (these, others) = workers.split_at_mut(half);
    let (front, back) = jobs.split_at_mut(cut);
    let (front_keepers, back_keepers) = keepers.split_at_mut(cut);
    join_mut(
        rt,
        &mut ||
            requires shared { IsSync R.row }
            // the front half of the workers, with the front half of the jobs
            requires workers { (0 < length these.now) × (length these.now ≤ MAX_WORKERS) }
            requires few { length front.now ≤ 4294967296 }
            requires same { length front.now ≡ length front_keepers.now }
            requires ready { AllReady W.ready these.now }
            requires fits { AllFit W.fits these.now front.now front_keepers.now }
            // what became of them
            ensures went { AllWent W.ready W.went front.entry.now front.exit.now
                these.entry.now these.exit.now }
            ensures did { AllDone W.went W.did these.entry.now these.exit.now
                front.entry.now front.exit.now
                front_keepers.entry.now front_keepers.exit.now }
        { by_workers(rt, these, front, front_keepers) },
        &mut ||
            requires shared { IsSync R.row }
            // the workers behind them, with the jobs behind
            requires workers { (0 < length others.now) × (length others.now ≤ MAX_WORKERS) }
            requires few { length back.now ≤ 4294967296 }
            requires same { length back.now ≡ length back_keepers.now }
            requires ready { AllReady W.ready others.now }
            requires fits { AllFit W.fits others.now back.now back_keepers.now }
            // what became of them
            ensures went { AllWent W.ready W.went back.entry.now back.exit.now
                others.entry.now others.exit.now }
            ensures did { AllDone W.went W.did others.entry.now others.exit.now
                back.entry.now back.exit.now
                back_keepers.entry.now back_keepers.exit.now }
        { by_workers(rt, others, back, back_keepers) },
    );
}

/// Has the workers do the jobs, as `by_workers` does, where workers and keepers are vectors. A caller
/// whose keepers' type names a lifetime learns by it what became of them.
pub fn by_workers_of<J: Send, K: Send, W: Works<J, K> + Send, R: Threads + Wait + Sync>(
    rt: &R,
    workers: &mut Vec<W>,
    jobs: &mut [J],
    keepers: &mut Vec<K>,
)
    requires workers { (0 < length workers.old.items) × (length workers.old.items ≤ MAX_WORKERS) }
    requires few { length jobs.old ≤ 4294967296 }
    requires same { length jobs.old ≡ length keepers.old.items }
    requires ready { AllReady W.ready workers.old.items }
    requires fits { AllFit W.fits workers.old.items jobs.old keepers.old.items }
    ensures went { AllWent W.ready W.went jobs.old jobs.new workers.old.items workers.new.items }
    ensures did { AllDone W.went W.did workers.old.items workers.new.items jobs.old jobs.new
        keepers.old.items keepers.new.items }
{
    by_workers(rt, workers.as_mut_slice(), jobs, keepers.as_mut_slice());
}
