//! The files of small archives as jobs, opened one after the other over one disk.
ghost use Rattle.std.specs.Prelude.{◌≡◌, true};
ghost use Rattle.log_seams.specs.Disk.{Rests};
ghost use Rattle.archive_open.specs.Archive.{shown};
ghost use Rattle.archive_open.specs.Shown.{Opens};

use crate::archive_text_tests::{FILES, disk_of, take_rest};
use archive_jobs::{FileOpener, Lent, StoredFile, jobs_of};
use archive_meaning::MAX_FILES;
use archive_open::{Archive, KeepsTexts, PlainBooks, open_archive};
use archive_text::TextCause;
use ingest_workers::{Job, Opens};
use log_seams::{Disk, MemDisk};
use row_codec::Layouts;
use std::alloc::{AllocError, Global};
use std::marker::Brand;
use std::test::Fail;

/// Opens the file of a job, reads it, and closes it again.
fn read_job<'a, D: Disk, N: KeepsTexts + Drop, L: Lent>(
    job: Job<StoredFile<'a, D, N, L>>,
    opener: &mut FileOpener<'a, D, L>,
    out: &mut Vec<u8>,
) -> Result<bool, AllocError>
    requires { opener.old.is_idle ≡ true }
    ensures { opener.new.is_idle ≡ true }
{
    let mut source = opener.open(job.into_source());
    let firm = take_rest(&mut source, out);
    opener.close(source);
    firm
}

/// Opens the files of several jobs, reads them, and closes them again.
fn read_each<'a, D: Disk, N: KeepsTexts + Drop, L: Lent>(
    jobs: Vec<Job<StoredFile<'a, D, N, L>>>,
    opener: &mut FileOpener<'a, D, L>,
    out: &mut Vec<u8>,
) -> Result<(), AllocError>
    requires { opener.old.is_idle ≡ true }
    ensures { opener.new.is_idle ≡ true }
{
    for job in jobs {
        read_job(job, opener, out)?;
    }
    Ok(())
}

/// Reads the files of an archive as jobs, over the disk that is lent to them. Answers why a text
/// could not be had first, and gives the disk back.
fn read_jobs<'a, D: Disk, N: KeepsTexts + Drop, L: Lent>(
    alloc: Global,
    archive: &'a Archive<N>,
    layouts: &'a Layouts,
    disk: &'a mut D,
    out: &mut Vec<u8>,
) -> (Result<Option<TextCause>, AllocError>, &'a mut D)
    requires opened { Opens (D.state disk.old).seen (shown N.kept archive.now) }
    requires name { disk.ghost_name ≡ L.lent.name }
    requires rests { Rests L.lent.disk (D.state disk.old) }
    requires seen { (D.state disk.old).seen ≡ L.lent.disk.seen }
    requires faults { (D.state disk.old).faults ≡ L.lent.disk.faults }
    requires types { (shown N.kept archive.now).kept.types ≡ L.lent.types }
    requires layouts { layouts.now ≡ L.lent.types }
{
    if archive.files().as_slice().len() > MAX_FILES {
        return (Err(AllocError), disk);
    }
    let Ok(jobs) = jobs_of::<D, N, L>(alloc, archive, &*disk) else {
        return (Err(AllocError), disk);
    };
    let mut opener = FileOpener::<D, L>::new(alloc, layouts, disk);
    let done = read_each(jobs, &mut opener, out);
    let (disk, cause) = opener.into_disk();
    match done {
        Ok(()) => (Ok(cause), disk),
        Err(error) => (Err(error), disk),
    }
}

/// Reads the files of an archive whose log types are not cut yet.
fn read_jobs_of<D: Disk, N: KeepsTexts + Drop>(
    alloc: Global,
    archive: &Archive<N>,
    disk: &mut D,
    out: &mut Vec<u8>,
) -> Result<Option<TextCause>, AllocError>
    requires { Opens (D.state disk.old).seen (shown N.kept archive.now) }
{
    let layouts = Layouts::of(alloc, archive.names())?;
    let (answer, _disk) = read_jobs::<D, N, Brand>(alloc, archive, &layouts, disk, out);
    answer
}

/// Whether with another byte at a place the files have this text together, and this is why one of
/// them could not be had.
fn reads_as_jobs(
    alloc: Global,
    at: usize,
    byte: u8,
    text: &[u8],
    cause: Option<TextCause>,
) -> Result<bool, AllocError> {
    let mut bytes = FILES.to_vec(alloc)?;
    if let Some(place) = bytes.get_mut(at) {
        *place = byte;
    }
    let mut disk = disk_of(alloc, bytes.as_slice(), &[])?;
    let Ok(archive) = open_archive::<MemDisk, PlainBooks>(alloc, &mut disk) else {
        return Err(AllocError);
    };
    let mut out = Vec::new(alloc);
    let first = read_jobs_of(alloc, &archive, &mut disk, &mut out)?;
    Ok(first == cause && out.as_slice() == text)
}

/// A place and its byte, the text of all files, and why one could not be had. With byte 616 the
/// second file is a part. Byte 432 has the log type of a row of the first file, behind which none is
/// read.
const CASES: &[(usize, u8, &[u8], Option<TextCause>)] = &[
    (
        8,
        2,
        b"2023-11-14 22:13:20.000123 up\ntask_1 took 12 ms\nratio 0.5\n12 34\nenda\n\nb\n",
        None,
    ),
    (
        616,
        0,
        b"2023-11-14 22:13:20.000123 up\ntask_1 took 12 ms\nratio 0.5\n12 34\nend\na\n\nb\n",
        None,
    ),
    (432, 99, b"", Some(TextCause::Damaged)),
];

#[test]
fn files_are_read_as_jobs(rt: HostRuntime) -> Result<(), Fail> {
    for &(at, byte, text, cause) in CASES {
        let well = reads_as_jobs(rt.alloc(), at, byte, text, cause)?;
        assert!(rt; well, "{at} {byte}");
    }
    Ok(())
}
