//! The files of an archive, taken into a new one on a second disk.
ghost use Rattle.std.specs.Prelude.{◌≡◌, ◌≤◌, [], None, Option, length, option_map, vec_capacity, IfErr, IfOk, IfSome};
ghost use Rattle.log_seams.specs.Disk.{Rests};
ghost use Rattle.archive_meaning.specs.declared.TheConstants.{MAX_ROWS};
ghost use Rattle.archive_open.specs.Archive.{shown};
ghost use Rattle.archive_jobs.specs.Lent.{IsRead};
ghost use Rattle.archive_text.specs.declared.cause.TextCause.{TextCause};
ghost use Rattle.command_refusals.specs.GoesOn.{DiskGoesOn};
ghost use Rattle.command_answers.specs.Upgrading.{EndsTexts, header_for};
ghost use Rattle.upgrade_command.specs.Files.{AreReports, stop_by};
ghost use Rattle.upgrade_command.specs.Old.{IsOld};
ghost use Rattle.upgrade_command.specs.Taking.{TakesFiles, TakesNone};

use crate::filling::name_and_fill;
use crate::made::begin_made;
use crate::old::OldArchive;
use archive_jobs::{Lent, jobs_of};
use archive_open::{FileEntry, KeepsTexts};
use archive_text::TextCause;
use command_refusals::UpgradeRefusal;
use disk_journal::create;
use file_outcomes::{FileReport, refusal_of_cause};
use ingest_workers::Job;
use log_seams::Disk;
use logtype_text::one_list_of_parts;
use record_format::{Header, LAST_VERSION};
use std::alloc::Global;
use std::marker::Brand;
use std::sync::Wait;
use std::thread::Threads;

/// What came of the files of an archive.
#[derive(Drop)]
pub(crate) struct Ended<'a> {
    /// What came of each file, in their order.
    pub(crate) reports: Vec<FileReport<'a>>,
    /// Why the texts could not be had to their end, if they could not.
    pub(crate) stop: Option<UpgradeRefusal>,
}

/// The header of the new archive: the limits of the old one.
fn new_header(header: &Header) -> Header
    ensures { result ≡ header_for header.now }
{
    Header {
        version: LAST_VERSION,
        types_limit: header.types_limit,
        words_limit: header.words_limit,
        length_limit: header.length_limit,
    }
}

/// Tells of each file what came of its job.
fn report_jobs<'a, T>(
    files: &'a [FileEntry],
    jobs: &[Job<T>],
    mut reports: Vec<FileReport<'a>>,
) -> Vec<FileReport<'a>>
    requires few { length jobs.now ≤ length files.now }
    requires none { reports.items ≡ [] }
    requires room { length jobs.now ≤ vec_capacity reports }
    ensures { AreReports jobs.now result.items files.now }
{
    for (place, job) in jobs.iter().enumerate() {
        let outcome = job.outcome();
        reports.push_reserved(FileReport {
            name: files[place].name.as_slice(),
            opened: true,
            messages: outcome.messages,
            whole: outcome.whole,
            refusal: refusal_of_cause(outcome.cause),
        });
    }
    reports
}

/// Why the texts could not be had to their end, as it is told. The reading of a text tells no place of
/// damage: the first is not behind the archive's last gate, `last`.
fn stop_of(cause: Option<TextCause>, last: u64) -> Option<UpgradeRefusal>
    ensures { result ≡ option_map (stop_by last) cause }
{
    Some(match cause? {
        TextCause::DiskFault => UpgradeRefusal::DiskFault,
        TextCause::Damaged => UpgradeRefusal::Damaged { at: last },
        TextCause::OutOfMemory | TextCause::Refused => UpgradeRefusal::OutOfMemory,
    })
}

/// Makes a new archive on a second disk, and takes the files into it, a job of each, over the archive's
/// disk that is lent. Gives the disk back.
///
/// # Errors
///
/// No new archive was made, or not all of its files were named. No job was begun then.
fn take_lent<
    'o: 'a,
    'a,
    R: Threads + Wait + Sync,
    D: Disk + Send,
    E: Disk + Send,
    N: KeepsTexts + Drop + Sync,
    L: Lent + Send,
>(
    rt: &R,
    alloc: Global,
    old: &'o OldArchive<N>,
    disk: &'a mut D,
    second: &mut E,
) -> (Result<Ended<'o>, UpgradeRefusal>, &'a mut D)
    requires old { IsOld L.lent.disk.seen (shown N.kept old.now.archive) old.now.layouts }
    requires layouts { old.now.layouts ≡ L.lent.types }
    requires read { IsRead D.state L.lent None disk.ghost_name disk.old }

    // what stays
    ensures goes { DiskGoesOn (E.state second.old) (E.state second.new) }
    ensures read { (cause : Option TextCause) × IsRead D.state L.lent cause
        result.1.ghost_name result.1.now }

    // by the answer
    ensures stop { IfOk result.0 (λ n. IfSome n.stop
        (EndsTexts L.lent.disk (D.state result.1.now))) }
    ensures taken { IfOk result.0 (λ n. TakesFiles MAX_ROWS n.stop
        (header_for (shown N.kept old.now.archive).header) n.reports.items
        L.lent.disk (E.state second.old) (E.state second.new)) }
    ensures refused { IfErr result.0 (TakesNone
        (header_for (shown N.kept old.now.archive).header)
        L.lent.disk (E.state second.old) (E.state second.new)) }
{
    one_list_of_parts();
    // the jobs last as long as the disk is lent, and the names of the files longer
    let lent: &'a OldArchive<N> = old;
    let Ok(mut jobs) = jobs_of::<D, N, L>(alloc, &lent.archive, &*disk) else {
        return (Err(UpgradeRefusal::OutOfMemory), disk);
    };
    let Ok(reports) = Vec::with_capacity(alloc, jobs.len()) else {
        return (Err(UpgradeRefusal::OutOfMemory), disk);
    };
    let header = new_header(old.archive.header());
    if let Err(refusal) = create(second, &header) {
        return (Err(UpgradeRefusal::from(refusal)), disk);
    }
    let journal = begin_made(second, header);
    let mut back = None;
    // with the archive's disk in it, it would not be known how the loan of the second one ends
    let taken = name_and_fill(
        rt,
        alloc,
        lent,
        jobs.as_mut_slice(),
        disk,
        &mut back,
        journal,
    );
    let Some(disk) = back else { unreachable!() };
    match taken.answer {
        Ok(cause) => {
            let files = old.archive.files().as_slice();
            let reports = report_jobs(files, jobs.as_slice(), reports);
            let stop = stop_of(cause, old.archive.last_gate());
            (Ok(Ended { reports, stop }), disk)
        }
        Err(refusal) => (Err(UpgradeRefusal::from(refusal)), disk),
    }
}

/// Takes the files of the archive of any disk into a new archive on the second disk. The first disk
/// is only read.
pub(crate) fn take_files<
    'o,
    R: Threads + Wait + Sync,
    D: Disk + Send,
    E: Disk + Send,
    N: KeepsTexts + Drop + Sync,
>(
    rt: &R,
    alloc: Global,
    old: &'o OldArchive<N>,
    disk: &mut D,
    second: &mut E,
) -> Result<Ended<'o>, UpgradeRefusal>
    requires { IsOld (D.state disk.old).seen (shown N.kept old.now.archive) old.now.layouts }

    // what stays
    ensures rests { Rests (D.state disk.old) (D.state disk.new) }
    ensures later { (D.state disk.old).faults ≤ (D.state disk.new).faults }
    ensures goes { DiskGoesOn (E.state second.old) (E.state second.new) }

    // by the answer
    ensures stop { IfOk result (λ n. IfSome n.stop
        (EndsTexts (D.state disk.old) (D.state disk.new))) }
    ensures taken { IfOk result (λ n. TakesFiles MAX_ROWS n.stop
        (header_for (shown N.kept old.now.archive).header) n.reports.items
        (D.state disk.old) (E.state second.old) (E.state second.new)) }
    ensures refused { IfErr result (TakesNone
        (header_for (shown N.kept old.now.archive).header)
        (D.state disk.old) (E.state second.old) (E.state second.new)) }
{
    let (answer, _disk) = take_lent::<R, D, E, N, Brand>(rt, alloc, old, disk, second);
    answer
}
