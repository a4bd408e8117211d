//! What a worker does: jobs, with its passes of the two books.
ghost use Rattle.std.specs.Prelude.{◌≤◌, [], ◌∷◌};
ghost use Rattle.step_count.specs.Opens.{OpensFor};
ghost use Rattle.dict_lock.specs.Cached.{pass_in};
ghost use Rattle.ingest_workers.specs.Full.{books_by};
ghost use Rattle.ingest_workers.specs.JobDone.{IsDone};
ghost use Rattle.ingest_workers.specs.Met.{WasMetBy};
ghost use Rattle.ingest_workers.specs.Worker.{DidJob, DidOnly, GoWith, IsIdle, IsNewJob, MayAddTexts, MayDo, NamesOnly};

use crate::job::Job;
use crate::job_run::run_job;
use crate::worker::{BookPasses, Plan, Worker};
use disk_seal::{CachedPasses, LockNamer, Store, Turns};
use log_seams::{Disk, Source};
use std::alloc::Global;
use std::marker::Brand;
use std::sync::Wait;
use std::sync::ledger::{Blank, Ledger};
use step_count::Steps;
use turn_lock::Pass;

/// Does a job with a namer over these passes, whose turns the blanks count.
fn do_with_blanks<'b, 'd, S: Source, D: Disk, R: Wait, A: Ledger, B: Ledger, C: Ledger>(
    rt: &R,
    alloc: Global,
    plan: Plan,
    passes: BookPasses<'b>,
    job: &mut Job<S>,
    keeper: &mut Pass<'_, Store<'d, 'b, D>>,
    blanks: (Blank, Blank, Blank),
) -> BookPasses<'b>
    requires rows { (1 ≤ plan.rows) × (plan.rows ≤ 65536) }
    requires version { (1 ≤ plan.version) × (plan.version ≤ 3) }
    requires may { MayAddTexts passes }
    requires with { GoWith plan passes keeper.old }
    requires new { IsNewJob D.state job.old keeper.old }

    // the blanks
    requires blanks { OpensFor blanks.0 A.name A.parts × (OpensFor blanks.1 B.name B.parts
        × OpensFor blanks.2 C.name C.parts) }

    // what the passes are after it
    ensures may { MayAddTexts result }
    ensures names { NamesOnly plan.version
        (WasMetBy S.left plan.rows plan.version job.old job.new.outcome) passes.entry result }

    // what came of the job
    ensures done { IsDone D.state S.left S.name S.faults plan.rows plan.version
        (books_by (pass_in result.types) (pass_in result.words))
        job.old keeper.old job.new keeper.new }
{
    let BookPasses { types, words } = passes;
    let (of_types, of_words, of_store) = blanks;
    let turns: Turns<A, B, C> = Turns {
        types: Steps::new(of_types),
        words: Steps::new(of_words),
        store: Steps::new(of_store),
    };
    let mut namer = LockNamer::with_caches(rt, plan.version, types, words, turns);
    run_job(job, rt, alloc, plan.rows, &mut namer, keeper);
    let CachedPasses {
        types,
        words,
        turns: _,
    } = namer.into_caches();
    BookPasses { types, words }
}

/// Does a job with these passes, without counting its turns.
fn do_job<'b, 'd, S: Source, D: Disk, R: Wait>(
    rt: &R,
    alloc: Global,
    plan: Plan,
    passes: BookPasses<'b>,
    job: &mut Job<S>,
    keeper: &mut Pass<'_, Store<'d, 'b, D>>,
) -> BookPasses<'b>
    requires rows { (1 ≤ plan.rows) × (plan.rows ≤ 65536) }
    requires version { (1 ≤ plan.version) × (plan.version ≤ 3) }
    requires may { MayAddTexts passes }
    requires with { GoWith plan passes keeper.old }
    requires new { IsNewJob D.state job.old keeper.old }

    // what the passes are after it
    ensures may { MayAddTexts result }
    ensures names { NamesOnly plan.version
        (WasMetBy S.left plan.rows plan.version job.old job.new.outcome) passes.entry result }

    // what came of the job
    ensures done { IsDone D.state S.left S.name S.faults plan.rows plan.version
        (books_by (pass_in result.types) (pass_in result.words))
        job.old keeper.old job.new keeper.new }
{
    let blanks = (Blank::new(1), Blank::new(1), Blank::new(1));
    do_with_blanks::<_, _, _, Brand, Brand, Brand>(rt, alloc, plan, passes, job, keeper, blanks)
}

impl<'b> Worker<'b> {
    /// Does a job with this keeper.
    pub(crate) fn work<'d, S: Source, D: Disk, R: Wait>(
        &mut self,
        rt: &R,
        job: &mut Job<S>,
        keeper: &mut Pass<'_, Store<'d, 'b, D>>,
    )
        requires ready { IsIdle self.old }
        requires fits { MayDo D.state self.old job.old keeper.old }
        ensures ready { IsIdle self.new }
        ensures went { DidOnly S.left (job.old ∷ []) (job.new ∷ []) self.old self.new }
        ensures did { DidJob D.state S.left S.name S.faults self.old job.old keeper.old
            self.new job.new keeper.new }
    {
        let Some(passes) = self.passes.take() else {
            unreachable!()
        };
        let passes = do_job(rt, self.alloc, self.plan, passes, job, keeper);
        let None = self.passes.replace(passes) else {
            unreachable!()
        };
    }
}
