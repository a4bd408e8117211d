//! A worker with what opens the sources of its jobs.
ghost use Rattle.ingest_workers.specs.Worker.{MayDo};
ghost use Rattle.ingest_workers.specs.OpenWorker.{IsClosed, OpenDidJob, OpenDidOnly, open_rests, open_goes_on, open_wider, open_fits_on};

use crate::job::Job;
use crate::opening::Opens;
use crate::worker::Worker;
use disk_seal::Store;
use ingest_fork::Works;
use log_seams::Disk;
use std::sync::Wait;
use turn_lock::Pass;

/// A worker, and what opens the sources of its jobs.
pub(crate) struct OpenWorker<'b, O> {
    pub(crate) worker: Worker<'b>,
    pub(crate) opener: O,
}

impl<'b, 'k, 'd, T, O: Opens<T>, D: Disk> Works<Job<T>, Pass<'k, Store<'d, 'b, D>>>
    for OpenWorker<'b, O> {
    ghost ready = { IsClosed O.idle };

    ghost fits = { λ w j k. MayDo D.state w.worker j k };

    ghost went = { OpenDidOnly O.left O.goes };

    ghost did = { OpenDidJob D.state O.left O.name O.faults O.knows };

    fn work<R: Wait>(&mut self, rt: &R, job: &mut Job<T>, keeper: &mut Pass<'k, Store<'d, 'b, D>>) {
        if !job.is_open {
            return;
        }
        let Some(asked) = job.source.take() else {
            unreachable!()
        };
        let source = self.opener.open(asked);
        let mut opened = Job::with_source(job.file, job.is_part, source);
        self.worker.work(rt, &mut opened, keeper);
        let (source, outcome) = opened.into_parts();
        job.outcome = outcome;
        let asked = self.opener.close(source);
        let left = job.source.replace(asked);
        let None = left else { unreachable!() };
    }

    ghost rests = { open_rests O.left O.goes O.idle O.rests };

    ghost goes_on = { open_goes_on O.left O.goes O.goes_on };

    ghost wider = { open_wider O.left O.goes };

    ghost fits_on = { open_fits_on D.state O.left O.goes };
}
