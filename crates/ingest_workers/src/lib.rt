//! Ingest: logs become the files of an archive.
#![tactic(auto)]

mod beside;
mod close_store;
mod file_end;
mod finish_file;
mod ingesting;
mod job;
mod job_run;
mod locks;
mod messages;
mod naming;
mod open_segment;
mod open_worker;
mod opening;
mod outcome;
mod sealing;
mod start_workers;
mod worker;
mod worker_jobs;

pub use ingesting::{IngestRefused, Split, ingest, ingest_beside, ingest_opened};
pub use job::Job;
pub use job_run::run_job;
pub use opening::{AsIs, Opens};
pub use outcome::{Cause, Outcome};
pub use sealing::seal_draft;
