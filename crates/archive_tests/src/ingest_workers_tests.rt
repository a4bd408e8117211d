//! A job before any work.
use ingest_workers::{Job, Outcome};
use std::test::Fail;

#[test]
fn a_job_begins_with_nothing_done(rt: HostRuntime) -> Result<(), Fail> {
    let job = Job::new(3, 7u8);
    let nothing = Outcome {
        messages: 0,
        whole: false,
        cause: None,
    };
    assert_eq!(rt; job.outcome(), nothing);
    assert_eq!(rt; job.into_source(), 7);
    Ok(())
}
