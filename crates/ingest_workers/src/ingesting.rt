//! All jobs, by workers.
ghost use Rattle.std.specs.Prelude.{◌≡◌, ◌≤◌, length, IfOk, IfErr, IsOk, OnErr, OnOk};
ghost use Rattle.turn_lock.specs.Words.{id_of, lock_by};
ghost use Rattle.ingest_fork.specs.declared.works.TheConstants.{MAX_WORKERS};
ghost use Rattle.disk_journal.specs.Journal.{state_of};
ghost use Rattle.disk_seal.specs.Opening.{MayOpen};
ghost use Rattle.ingest_workers.specs.Beside.{MayBeginWith, WentBeside};
ghost use Rattle.ingest_workers.specs.InTurn.{AreFullInTurn};
ghost use Rattle.ingest_workers.specs.Ingested.{AreNew, AreRefused, HasIngested, HaveCauses, HoldTexts, IsAsItWas, first_file, plan_of};
ghost use Rattle.ingest_workers.specs.OpenWorker.{AreKnown, HaveGone, KnowsEach};
ghost use Rattle.ingest_workers.specs.Ordered.{HasOpeners, HoldsTypes, HoldsWords, IsSplit, MayBegin, NoneBegun, OpensTypes, OpensWords, WereDone, WereDoneOver};

use crate::close_store::end;
use crate::job::Job;
use crate::locks::over_store;
use crate::opening::{AsIs, Opens};
use crate::outcome::{Cause, Outcome};
use crate::start_workers::enroll;
use crate::worker::Plan;
use dict_core::{Book, WORDS_FIRST};
use dict_lock::SharedBook;
use disk_journal::Journal;
use disk_seal::{Alone, Beside, Store};
use log_seams::{Disk, Source};
use std::alloc::{AllocError, Global};
use std::sync::Wait;
use std::thread::Threads;
use turn_lock::Maker;

/// There was no memory. No job was begun, and the journal is as it was.
#[derive(Drop)]
pub struct IngestRefused<'d, D: Disk> {
    /// The journal.
    pub journal: Journal<'d, D>,
}

/// Among how many workers jobs are split, and into segments of how many rows their files.
#[derive(Clone, Copy, Debug)]
pub struct Split {
    /// How many workers there are: 1 to [`MAX_WORKERS`](ingest_fork::MAX_WORKERS).
    pub workers: u32,
    /// How many rows a segment has at most: 1 to 65,536.
    pub rows: u32,
}

/// How the jobs are to be done.
#[derive(Clone, Copy)]
struct Order {
    /// What the locks and the workers are allocated with.
    alloc: Global,
    /// How many workers there are.
    workers: usize,
    plan: Plan,
    /// The file of the first job.
    first: u32,
    /// How many texts the two books hold, which are saved.
    types_saved: u32,
    words_saved: u32,
}

/// How the jobs are to be done, and an opener for each worker.
#[derive(Drop)]
struct Crew<O> {
    order: Order,
    openers: Vec<O>,
}

/// The locks of both books.
#[derive(Clone, Copy)]
struct BookLocks<'b> {
    types: &'b SharedBook,
    words: &'b SharedBook,
}

/// The jobs are done over the journal, with workers that have a pass of each book.
fn with_workers<
    'b,
    'd,
    D: Disk + Send,
    T: Send,
    O: Opens<T> + Send,
    B: Beside<D> + Send,
    R: Threads + Wait + Sync,
>(
    rt: &R,
    jobs: &mut [Job<T>],
    crew: &mut Crew<O>,
    beside: &mut B,
    journal: Journal<'d, D>,
    locks: BookLocks<'b>,
    types: &mut Maker<Book>,
    words: &mut Maker<Book>,
) -> Result<Journal<'d, D>, Journal<'d, D>>
where
    O::Src: Send,
    requires begin { MayBegin crew.old.order journal jobs.old }
    requires openers { HasOpeners O.idle crew.old }
    requires beside { MayBeginWith (B.known beside.old) journal }

    // the books
    requires locks { (lock_by types.old ≡ id_of locks.types.now)
        × (lock_by words.old ≡ id_of locks.words.now) }
    requires types { OpensTypes crew.old.order journal types.old }
    requires words { OpensWords crew.old.order journal words.old }

    // the openers
    ensures gone { HaveGone O.idle O.goes crew.old.openers.items crew.new.openers.items }
    ensures known { OnOk result (AreKnown O.knows crew.new.openers.items jobs.old jobs.new) }

    // by the answer
    ensures done { IfOk result (λ after. WereDoneOver O.left O.name O.faults crew.old.order
        types.old types.new words.old words.new journal.entry after jobs.old jobs.new) }
    ensures beside { IfOk result (λ after. WentBeside (B.known beside.old) (B.known beside.new)
        journal.entry after) }
    ensures refused { IfErr result (λ after. NoneBegun journal.entry after jobs.old jobs.new) }
    ensures rests { OnErr result (beside.new ≡ beside.old) }
{
    let order = crew.order;
    let types_reader = types.pass(locks.types);
    let words_reader = words.pass(locks.words);
    let Ok(mut workers) = Vec::with_capacity(order.alloc, order.workers) else {
        return Err(journal);
    };
    enroll(
        &mut workers,
        &mut crew.openers,
        order.alloc,
        order.plan,
        locks.types,
        types,
        locks.words,
        words,
    );
    let store = Store::open_store(
        journal,
        types_reader,
        words_reader,
        order.types_saved,
        order.words_saved,
    );
    let first = u64::from(order.first);
    match over_store(rt, order.alloc, &mut workers, jobs, store, first, beside) {
        Ok(store) => Ok(end(store, workers, &mut crew.openers, types, words)),
        Err(store) => Err(end(store, workers, &mut crew.openers, types, words)),
    }
}

/// The jobs are done over the journal and both books, each of which has a lock meanwhile.
fn over_books<
    'd,
    D: Disk + Send,
    T: Send,
    O: Opens<T> + Send,
    B: Beside<D> + Send,
    R: Threads + Wait + Sync,
>(
    rt: &R,
    jobs: &mut [Job<T>],
    crew: &mut Crew<O>,
    beside: &mut B,
    journal: Journal<'d, D>,
    types: Book,
    words: Book,
) -> Result<Journal<'d, D>, Journal<'d, D>>
where
    O::Src: Send,
    requires begin { MayBegin crew.old.order journal jobs.old }
    requires openers { HasOpeners O.idle crew.old }
    requires beside { MayBeginWith (B.known beside.old) journal }
    requires types { HoldsTypes crew.old.order journal types }
    requires words { HoldsWords crew.old.order journal words }

    // the openers
    ensures gone { HaveGone O.idle O.goes crew.old.openers.items crew.new.openers.items }
    ensures known { OnOk result (AreKnown O.knows crew.new.openers.items jobs.old jobs.new) }

    // by the answer
    ensures done { IfOk result (λ after. WereDone O.left O.name O.faults crew.old.order
        journal.entry after jobs.old jobs.new) }
    ensures beside { IfOk result (λ after. WentBeside (B.known beside.old) (B.known beside.new)
        journal.entry after) }
    ensures refused { IfErr result (λ after. NoneBegun journal.entry after jobs.old jobs.new) }
    ensures rests { OnErr result (beside.new ≡ beside.old) }
{
    let alloc = crew.order.alloc;
    let Ok((types_lock, mut types)) = SharedBook::new(alloc, types, 0) else {
        return Err(journal);
    };
    let Ok((words_lock, mut words)) = SharedBook::new(alloc, words, WORDS_FIRST) else {
        return Err(journal);
    };
    let locks = BookLocks {
        types: &types_lock,
        words: &words_lock,
    };
    match with_workers(
        rt, jobs, crew, beside, journal, locks, &mut types, &mut words,
    ) {
        Ok(journal) => {
            let types = types_lock.close(types);
            let words = words_lock.close(words);
            let _counts = (types.len(), words.len());
            Ok(journal)
        }
        Err(journal) => Err(journal),
    }
}

/// None of the jobs was begun, since there was no memory.
fn refuse<S>(jobs: &mut [Job<S>])
    ensures { AreRefused jobs.old jobs.new }
{
    for job in jobs.iter_mut() {
        job.outcome = Outcome {
            messages: 0,
            whole: false,
            cause: Some(Cause::OutOfMemory),
        };
    }
}

/// The file of the first job, 0 where there is none.
fn first_of<S>(jobs: &[Job<S>]) -> u32
    ensures { result ≡ first_file jobs.now }
{
    match jobs.first() {
        Some(job) => job.file,
        None => 0,
    }
}

/// The order for the jobs, in segments of at most so many rows.
fn order_for<'d, D: Disk, T>(
    alloc: Global,
    workers: usize,
    rows: u32,
    jobs: &[Job<T>],
    journal: &Journal<'d, D>,
    types: &Book,
    words: &Book,
) -> Order
    ensures workers { result.workers ≡ workers }
    ensures plan { result.plan ≡ plan_of rows journal.now }
    ensures first { result.first ≡ first_file jobs.now }
    ensures saved { (result.types_saved ≡ length types.now.texts)
        × (result.words_saved ≡ length words.now.texts) }
{
    Order {
        alloc,
        workers,
        plan: Plan {
            rows,
            version: journal.header.version,
        },
        first: first_of(jobs),
        types_saved: types.len(),
        words_saved: words.len(),
    }
}

/// Does the jobs by a crew.
///
/// # Errors
///
/// There was no memory to begin. No job was begun then.
fn by_crew<
    'd,
    D: Disk + Send,
    T: Send,
    O: Opens<T> + Send,
    B: Beside<D> + Send,
    R: Threads + Wait + Sync,
>(
    rt: &R,
    jobs: &mut [Job<T>],
    crew: &mut Crew<O>,
    beside: &mut B,
    journal: Journal<'d, D>,
    types: Book,
    words: Book,
) -> Result<Journal<'d, D>, IngestRefused<'d, D>>
where
    O::Src: Send,
    requires begin { MayBegin crew.old.order journal jobs.old }
    requires openers { HasOpeners O.idle crew.old }
    requires beside { MayBeginWith (B.known beside.old) journal }
    requires types { HoldsTypes crew.old.order journal types }
    requires words { HoldsWords crew.old.order journal words }

    // the openers
    ensures gone { HaveGone O.idle O.goes crew.old.openers.items crew.new.openers.items }
    ensures known { OnOk result (AreKnown O.knows crew.new.openers.items jobs.old jobs.new) }

    // by the answer
    ensures done { IfOk result (λ after. WereDone O.left O.name O.faults crew.old.order
        journal.entry after jobs.old jobs.new) }
    ensures beside { IfOk result (λ after. WentBeside (B.known beside.old) (B.known beside.new)
        journal.entry after) }
    ensures refused { IfErr result (λ r. IsAsItWas journal.entry r.journal) }
    ensures jobs { OnErr result (AreRefused jobs.old jobs.new) }
    ensures rests { OnErr result (beside.new ≡ beside.old) }
{
    match over_books(rt, jobs, crew, beside, journal, types, words) {
        Ok(journal) => Ok(journal),
        Err(journal) => {
            refuse(jobs);
            Err(IngestRefused { journal })
        }
    }
}

/// An opener of open logs for each of so many workers.
fn as_they_are(alloc: Global, count: usize) -> Result<Vec<AsIs>, AllocError>
    ensures { IfOk result (λ openers. length openers.items ≡ count) }
{
    let mut openers = Vec::with_capacity(alloc, count)?;
    for _made in 0..count {
        openers.push_reserved(AsIs);
    }
    Ok(openers)
}

/// Does all the jobs, by so many workers that run at once, each with a consecutive piece of the
/// jobs, and a follower of the journal runs beside them. Each file is cut into segments of at most
/// so many rows. Once the workers are done the follower is told to stop, and then handles what is
/// left. The journal comes back on each way; its disk has what was sealed, durably.
///
/// # Errors
///
/// There was no memory to begin. No job was begun then, and the follower was not called.
pub fn ingest_beside<
    'd,
    D: Disk + Send,
    S: Source + Send,
    B: Beside<D> + Send,
    R: Threads + Wait + Sync,
>(
    rt: &R,
    alloc: Global,
    jobs: &mut [Job<S>],
    split: Split,
    journal: Journal<'d, D>,
    types: Book,
    words: Book,
    beside: &mut B,
) -> Result<Journal<'d, D>, IngestRefused<'d, D>>
    requires split { IsSplit split }
    requires journal { MayOpen (state_of journal) }
    requires books { HoldTexts (state_of journal) types words }
    requires jobs { AreNew (first_file jobs.old) (state_of journal) jobs.old }
    requires beside { MayBeginWith (B.known beside.old) journal }

    // where the jobs were begun
    ensures done { IfOk result (λ after. HasIngested S.left (plan_of split.rows journal.entry)
        jobs.old jobs.new journal.entry after) }
    ensures causes { IfOk result (λ after. HaveCauses S.left S.name S.faults
        (plan_of split.rows journal.entry) journal.entry after jobs.old jobs.new) }
    ensures in_turn { split.workers ≡ 1 → IsOk result
        → AreFullInTurn S.left (plan_of split.rows journal.entry) journal.entry
        jobs.old jobs.new }
    ensures beside { IfOk result (λ after. WentBeside (B.known beside.old) (B.known beside.new)
        journal.entry after) }

    // where there was no memory to begin
    ensures refused { IfErr result (λ r. IsAsItWas journal.entry r.journal) }
    ensures jobs { OnErr result (AreRefused jobs.old jobs.new) }
    ensures rests { OnErr result (beside.new ≡ beside.old) }
{
    let count = (split.workers as usize).min(jobs.len()).max(1);
    let Ok(openers) = as_they_are(alloc, count) else {
        refuse(jobs);
        return Err(IngestRefused { journal });
    };
    let order = order_for(alloc, count, split.rows, jobs, &journal, &types, &words);
    let mut crew = Crew { order, openers };
    by_crew(rt, jobs, &mut crew, beside, journal, types, words)
}

/// Does all the jobs, by so many workers that run at once, each with a consecutive piece of the
/// jobs. Each file is cut into segments of at most so many rows. The journal comes back on each
/// way; its disk has what was sealed, durably. It is [`ingest_beside`] without a follower.
///
/// # Errors
///
/// There was no memory to begin. No job was begun then.
pub fn ingest<'d, D: Disk + Send, S: Source + Send, R: Threads + Wait + Sync>(
    rt: &R,
    alloc: Global,
    jobs: &mut [Job<S>],
    workers: u32,
    rows: u32,
    journal: Journal<'d, D>,
    types: Book,
    words: Book,
) -> Result<Journal<'d, D>, IngestRefused<'d, D>>
    requires workers { (1 ≤ workers) × (workers ≤ MAX_WORKERS) }
    requires rows { (1 ≤ rows) × (rows ≤ 65536) }
    requires journal { MayOpen (state_of journal) }
    requires books { HoldTexts (state_of journal) types words }
    requires jobs { AreNew (first_file jobs.old) (state_of journal) jobs.old }

    // where the jobs were begun
    ensures done { IfOk result (λ after. HasIngested S.left (plan_of rows journal.entry)
        jobs.old jobs.new journal.entry after) }
    ensures causes { IfOk result (λ after. HaveCauses S.left S.name S.faults
        (plan_of rows journal.entry) journal.entry after jobs.old jobs.new) }
    ensures in_turn { workers ≡ 1 → IsOk result
        → AreFullInTurn S.left (plan_of rows journal.entry) journal.entry jobs.old jobs.new }

    // where there was no memory to begin
    ensures refused { IfErr result (λ r. IsAsItWas journal.entry r.journal) }
    ensures jobs { OnErr result (AreRefused jobs.old jobs.new) }
{
    let mut alone = Alone {};
    let split = Split { workers, rows };
    ingest_beside(rt, alloc, jobs, split, journal, types, words, &mut alone)
}

/// Does all the jobs by one worker, in their order. The source of each is opened once its turn has
/// come, for the thing that the job holds, by one opener, which comes back. Each file is cut into
/// segments of at most so many rows. The journal comes back on each way; its disk has what was
/// sealed, durably.
///
/// # Errors
///
/// There was no memory to begin. No job was begun then.
pub fn ingest_opened<'d, D: Disk + Send, T: Send, O: Opens<T> + Send, R: Threads + Wait + Sync>(
    rt: &R,
    alloc: Global,
    opener: O,
    jobs: &mut [Job<T>],
    rows: u32,
    journal: Journal<'d, D>,
    types: Book,
    words: Book,
) -> (Result<Journal<'d, D>, IngestRefused<'d, D>>, O)
where
    O::Src: Send,
    requires rows { (1 ≤ rows) × (rows ≤ 65536) }
    requires journal { MayOpen (state_of journal) }
    requires books { HoldTexts (state_of journal) types words }
    requires jobs { AreNew (first_file jobs.old) (state_of journal) jobs.old }
    requires idle { O.idle opener }

    // what became of the opener
    ensures opener { O.idle result.1 × O.goes opener result.1 }
    ensures known { IsOk result.0 → KnowsEach O.knows result.1 jobs.old jobs.new }

    // where the jobs were begun
    ensures done { IfOk result.0 (λ after. HasIngested O.left (plan_of rows journal.entry)
        jobs.old jobs.new journal.entry after) }
    ensures causes { IfOk result.0 (λ after. HaveCauses O.left O.name O.faults
        (plan_of rows journal.entry) journal.entry after jobs.old jobs.new) }
    ensures in_turn { IsOk result.0
        → AreFullInTurn O.left (plan_of rows journal.entry) journal.entry jobs.old jobs.new }

    // where there was no memory to begin
    ensures refused { IfErr result.0 (λ r. IsAsItWas journal.entry r.journal) }
    ensures jobs { OnErr result.0 (AreRefused jobs.old jobs.new) }
{
    let Ok(mut openers) = Vec::with_capacity(alloc, 1) else {
        refuse(jobs);
        return (Err(IngestRefused { journal }), opener);
    };
    openers.push_reserved(opener);
    let order = order_for(alloc, 1, rows, jobs, &journal, &types, &words);
    let mut crew = Crew { order, openers };
    let mut alone = Alone {};
    let done = by_crew(rt, jobs, &mut crew, &mut alone, journal, types, words);
    let Crew {
        order: _,
        mut openers,
    } = crew;
    let Some(opener) = openers.pop() else {
        unreachable!()
    };
    openers.destroy_empty();
    (done, opener)
}
