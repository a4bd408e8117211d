//! The passes of a lock, one for each job: made before the workers begin, ended once they are done.
ghost use Rattle.std.specs.Prelude.{◌≡◌, ◌+◌, ◌≤◌, [], vec_capacity};
ghost use Rattle.turn_lock.specs.Words.{id_of, lock_by, made_by};
ghost use Rattle.ingest_fork.specs.Passes.{AreJoinable, Fresh, Joined};

use turn_lock::{Grows, Maker, Pass, TurnLock};

/// Makes so many passes of the lock. The vector has room for them, so no memory is asked for.
pub fn fill<'l, V: Grows>(
    maker: &mut Maker<V>,
    lock: &'l TurnLock<V>,
    passes: &mut Vec<Pass<'l, V>>,
    count: usize,
)
    requires lock { lock_by maker.old ≡ id_of lock.now }
    requires none { passes.old.items ≡ [] }
    requires room { count ≤ vec_capacity passes.old }
    requires few { made_by maker.old + count ≤ 4294967296 }
    ensures made { Fresh maker.old maker.new passes.new.items count }
{
    for _made in 0..count {
        let pass = maker.pass(lock);
        passes.push_reserved(pass);
    }
}

/// Ends all the passes, each of them between two turns.
pub fn join_all<V: Grows>(maker: &mut Maker<V>, mut passes: Vec<Pass<'_, V>>)
    requires all { AreJoinable maker.old passes.items }
    ensures joined { Joined maker.old maker.new passes.entry.items 0 }
{
    while let Some(pass) = passes.pop() {
        maker.join(pass);
    }
}
