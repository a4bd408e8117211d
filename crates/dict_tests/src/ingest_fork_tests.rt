//! Workers that write their number into the jobs, and passes that are made and ended together.
ghost use Rattle.std.specs.Prelude.{◌≡◌, ◌<◌, IfOk};
ghost use Rattle.std.proofs.Common.{◌∙◌, refl};
ghost use Rattle.turn_lock.specs.Words.{id_of, lock_by, made_by, HasJoinedAll};

use ingest_fork::{Works, all_are_joined, by_workers, fill, join_all};
use std::alloc::{AllocError, Global};
use std::sync::Wait;
use std::test::Fail;
use std::thread::Threads;
use turn_lock::{Grows, Maker, TurnLock};

/// A worker that writes its number into a job, and the number that the job had into the keeper.
#[derive(Drop)]
struct Numbering {
    number: u32,
}

impl Works<u32, u32> for Numbering {
    ghost ready = { λ w. Unit {0} };

    ghost fits = { λ w j k. Unit {0} };

    ghost went = { λ js js' w v. v.number ≡ w.number };

    ghost did = { λ w j k v l m. (l ≡ w.number) × (m ≡ j) };

    fn work<R: Wait>(&mut self, _rt: &R, job: &mut u32, keeper: &mut u32) {
        *keeper = *job;
        *job = self.number;
    }

    ghost rests = { λ js js' w ready. refl };

    ghost goes_on = { λ js js' a b c one two. two ∙ one };

    ghost wider = { λ js js' piece piece' a b are went. went };

    ghost fits_on = { λ js js' a b j k went fits. fits };
}

/// How many workers there are, and the worker of each of five jobs.
const PIECES: &[(usize, [u32; 5])] = &[
    (1, [1, 1, 1, 1, 1]),
    (2, [1, 1, 2, 2, 2]),
    (3, [1, 2, 2, 3, 3]),
];

/// Whether of three workers so many do these jobs, and each keeper gets its job.
fn do_pieces<R: Threads + Wait + Sync>(rt: &R, count: usize, by: [u32; 5]) -> bool {
    if count < 1 || count > 3 {
        return false;
    }
    let mut workers = [
        Numbering { number: 1 },
        Numbering { number: 2 },
        Numbering { number: 3 },
    ];
    let mut jobs = [10, 20, 30, 40, 50];
    let mut keepers = [0; 5];
    by_workers(rt, &mut workers[..count], &mut jobs, &mut keepers);
    jobs == by && keepers == [10, 20, 30, 40, 50]
}

#[test]
fn each_worker_does_a_piece(rt: HostRuntime) {
    for &(count, by) in PIECES {
        assert!(rt; do_pieces(&rt, count, by), "{count}");
    }
}

/// Numbers in the order in which they were added.
#[derive(Drop)]
struct Numbers {
    all: Vec<u64>,
}

impl Grows for Numbers {
    type Entry = u64;

    type Fixed = ();

    ghost entries = { λ b. b.all.items };

    ghost may_add = { λ n entry. entry ≡ n };

    ghost fixed = { λ b. tt };

    fn count(&self) -> u64 {
        self.all.len() as u64
    }
}

/// So many passes, which end without a turn.
fn idle(
    alloc: Global,
    lock: &TurnLock<Numbers>,
    maker: &mut Maker<Numbers>,
    count: usize,
) -> Result<(), AllocError>
    requires lock { lock_by maker.old ≡ id_of lock.now }
    requires first { (made_by maker.old ≡ 0) × (count < 4294967296) }
    ensures lock { lock_by maker.new ≡ lock_by maker.old }
    ensures joined { IfOk result (λ _. HasJoinedAll maker.new) }
{
    let mut passes = Vec::with_capacity(alloc, count)?;
    fill(maker, lock, &mut passes, count);
    join_all(maker, passes);
    all_are_joined(maker);
    Ok(())
}

/// How many passes there were, and what a lock that was closed behind them has.
fn closed(alloc: Global) -> Option<(u64, Vec<u64>)> {
    let numbers = Numbers {
        all: Vec::new(alloc),
    };
    let (lock, mut maker) = TurnLock::new(alloc, numbers, 7).ok()?;
    let Ok(()) = idle(alloc, &lock, &mut maker, 3) else {
        return None;
    };
    let made = maker.made();
    Some((made, lock.close(maker).all))
}

#[test]
fn a_lock_is_closed_after_its_passes(rt: HostRuntime) -> Result<(), Fail> {
    let (made, numbers) = closed(rt.alloc()).ok_or("no memory")?;
    assert!(rt; made == 3 && numbers.is_empty());
    Ok(())
}
