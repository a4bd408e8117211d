//! Workers and one that runs beside them, each of which waits for the other.
ghost use Rattle.std.specs.Prelude.{◌≡◌, length, IfOk};

use ingest_fork::{Follows, Works, by_workers_beside};
use std::alloc::{AllocError, Global};
use std::sync::Wait;
use std::sync::atomic::{AtomicBool, Ordering};
use std::test::Fail;
use std::thread::Threads;

/// How often one asks whether the other was there, before it gives up.
const TURNS: u64 = 1_000_000_000;

/// Whether the flag is set before the turns run out.
fn is_set(flag: &AtomicBool) -> bool {
    for _ in 0..TURNS {
        if flag.load(Ordering::SeqCst) {
            return true;
        }
    }
    false
}

/// A worker that begins a job, and waits until that was seen. The job becomes whether it was.
#[derive(Drop)]
struct Waiting<'a> {
    begun: &'a AtomicBool,
    seen: &'a AtomicBool,
}

impl Works<bool, u32> for Waiting<'_> {
    ghost ready = { λ w. Unit {0} };

    ghost fits = { λ w j k. Unit {0} };

    ghost went = { λ js js' w v. Unit {0} };

    ghost did = { λ w j k v l m. Unit {0} };

    fn work<R: Wait>(&mut self, _rt: &R, job: &mut bool, keeper: &mut u32) {
        self.begun.store(true, Ordering::SeqCst);
        *job = is_set(self.seen);
        *keeper = 7;
    }

    ghost rests = { λ js js' w ready. tt };

    ghost goes_on = { λ js js' a b c one two. tt };

    ghost wider = { λ js js' piece piece' a b are went. tt };

    ghost fits_on = { λ js js' a b j k went fits. tt };
}

/// What sees that a worker has begun, and then waits until it is told to stop.
#[derive(Drop)]
struct Seeing<'a> {
    begun: &'a AtomicBool,
    seen: &'a AtomicBool,
    /// Whether it was told to stop before the workers were seen, and whether it was at the end.
    stops: (bool, bool),
}

impl Follows<u32> for Seeing<'_> {
    ghost may = { λ b p. Unit {0} };

    ghost followed = { λ b p c q. Unit {0} };

    fn follow<R: Wait>(&mut self, _rt: &R, pass: &mut u32, stop: &AtomicBool) {
        let has_begun = is_set(self.begun);
        let early = stop.load(Ordering::SeqCst) || !has_begun;
        self.seen.store(true, Ordering::SeqCst);
        self.stops = (early, is_set(stop));
        *pass = 9;
    }
}

/// Two workers that wait for the same.
fn two<'a>(
    alloc: Global,
    begun: &'a AtomicBool,
    seen: &'a AtomicBool,
) -> Result<Vec<Waiting<'a>>, AllocError>
    ensures { IfOk result (λ workers. length workers.items ≡ 2) }
{
    let mut workers = Vec::with_capacity(alloc, 2)?;
    workers.push_reserved(Waiting { begun, seen });
    workers.push_reserved(Waiting { begun, seen });
    Ok(workers)
}

/// Whether two workers do three jobs beside what waits for them, which is stopped behind them.
fn meet<R: Threads + Wait + Sync>(rt: &R, alloc: Global) -> Result<bool, AllocError> {
    let (begun, seen) = (AtomicBool::new(false), AtomicBool::new(false));
    let mut beside = Seeing {
        begun: &begun,
        seen: &seen,
        stops: (true, false),
    };
    let mut workers = two(alloc, &begun, &seen)?;
    let mut keepers = vec![in alloc; 0; 3]?;
    let (mut jobs, mut pass) = ([false; 3], 0);
    by_workers_beside(
        rt,
        &mut workers,
        &mut jobs,
        &mut keepers,
        &mut beside,
        &mut pass,
    );
    let done = jobs == [true; 3] && keepers.as_slice() == [7, 7, 7].as_slice();
    Ok(done && beside.stops == (false, true) && pass == 9)
}

#[test]
fn workers_run_beside_what_follows_them(rt: HostRuntime) -> Result<(), Fail> {
    let met = meet(&rt, rt.alloc())?;
    assert!(rt; met);
    Ok(())
}
