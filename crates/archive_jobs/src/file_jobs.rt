//! The files of an archive as jobs.
ghost use Rattle.std.specs.Prelude.{◌≡◌, ◌≤◌, ◌<◌, length, IfOk};
ghost use Rattle.archive_open.specs.Archive.{shown};
ghost use Rattle.archive_open.specs.Shown.{Opens};
ghost use Rattle.archive_meaning.specs.declared.TheConstants.{MAX_FILES};
ghost use Rattle.archive_jobs.specs.Jobs.{AreJobsOf, IsJobOf};

use crate::lent::Lent;
use crate::stored_file::StoredFile;
use archive_open::{Archive, KeepsTexts};
use ingest_workers::Job;
use log_seams::Disk;
use std::alloc::{AllocError, Global};

/// The job of one file: its text is to become a file with the same number, marked whole only where
/// this one is.
fn job_of<'a, D: Disk, N: KeepsTexts + Drop, L: Lent>(
    archive: &'a Archive<N>,
    number: u32,
    whole: bool,
    disk: &D,
) -> Job<StoredFile<'a, D, N, L>>
    requires opened { Opens (D.state disk.now).seen (shown N.kept archive.now) }
    requires there { number < length (shown N.kept archive.now).files }
    requires seen { (D.state disk.now).seen ≡ L.lent.disk.seen }
    requires types { (shown N.kept archive.now).kept.types ≡ L.lent.types }
    ensures { IsJobOf L.lent.disk.seen number whole result }
{
    let file = StoredFile::new(archive, number, disk);
    if whole {
        Job::new(number, file)
    } else {
        Job::part_of(number, file)
    }
}

/// A job of each file of an archive, in order: the text of the file, as the disk that is lent has
/// it, is to become a file with the same number. It is to be whole where this one is, and else a
/// part. Makes no call of the disk.
///
/// # Errors
///
/// There was no memory for the list of jobs, which is asked for first.
pub fn jobs_of<'a, D: Disk, N: KeepsTexts + Drop, L: Lent>(
    alloc: Global,
    archive: &'a Archive<N>,
    disk: &D,
) -> Result<Vec<Job<StoredFile<'a, D, N, L>>>, AllocError>
    requires opened { Opens (D.state disk.now).seen (shown N.kept archive.now) }
    requires few { length (shown N.kept archive.now).files ≤ MAX_FILES }
    requires seen { (D.state disk.now).seen ≡ L.lent.disk.seen }
    requires types { (shown N.kept archive.now).kept.types ≡ L.lent.types }
    ensures { IfOk result (λ jobs.
        AreJobsOf L.lent.disk.seen (shown N.kept archive.now).files jobs.items) }
{
    let files = archive.files().as_slice();
    let mut jobs = Vec::with_capacity(alloc, files.len())?;
    for file in files {
        let number = jobs.len() as u32;
        jobs.push_reserved(job_of(archive, number, file.whole, disk));
    }
    Ok(jobs)
}
