//! The command `ingest`: logs become the files of an archive.
ghost use Rattle.std.specs.Prelude.{◌≡◌, ◌+◌, ◌≤◌, ℕ, List, [], length, map, slice_get, vec_len, vec_capacity, false, All, IfErr, IfOk, IfSome, IsTrue, is_some, Some};
ghost use Rattle.std.specs.List.{AllZip};
ghost use Rattle.disk_journal.specs.Journal.{state_of};
ghost use Rattle.disk_seal.specs.Opening.{MayOpen};
ghost use Rattle.ingest_workers.specs.Beside.{MayBeginWith};
ghost use Rattle.ingest_workers.specs.Ingested.{AreNew, HoldTexts, first_file};
ghost use Rattle.ingest_workers.specs.Outcome.{nothing_done};
ghost use Rattle.command_refusals.specs.Outside.{around};
ghost use Rattle.log_sources.specs.Sources.{CameOf, is_opened, refusal_of, str_bytes};
ghost use Rattle.command_refusals.specs.GoesOn.{DiskGoesOn, OutsideGoesOn};
ghost use Rattle.ingest_fork.specs.declared.works.TheConstants.{MAX_WORKERS};
ghost use Rattle.command_answers.specs.Ingested.{TellsDamage};
ghost use Rattle.command_answers.specs.Known.{told_if};
ghost use Rattle.write_commands.specs.Followed.{FollowsBy, MayBeginAt, WentAlong};
ghost use Rattle.write_commands.specs.IngestPrints.{came_of, names_of};
ghost use Rattle.file_outcomes.specs.Jobs.{DidJobs, IsNotBegun, IsToldBy, opens_of, refusal_by, sources_of};
ghost use Rattle.write_commands.specs.StepsAdding.{AddsNewLogs, AddsOrRefuses, HasRoomFor, IsInLimits, MayAdd, RefusesNewLogs, ShelfGoesOn, names_asked};
ghost use Rattle.file_outcomes.specs.StepsCauses.{HaveCausesIn, into_journal, logs_around};
ghost use Rattle.file_outcomes.specs.StepsKnown.{EndsIngestAt, IsNoDamage, lent_state};
ghost use Rattle.file_outcomes.specs.JournalAt.{state_at};
ghost use Rattle.file_outcomes.specs.JournalLeft.{TakesInto};
ghost use Rattle.command_answers.specs.Names.{RefusesNames};
ghost use Rattle.file_outcomes.specs.Naming.{AreNumbered, HasGoneOn, IsHeldBy, IsNamed};
ghost use Rattle.command_refusals.specs.Ending.{RefusesAtOnce};
ghost use Rattle.command_refusals.specs.Reading.{IsArchive};
ghost use Rattle.command_refusals.specs.declared.outcome.AddRefusal.{AddRefusal};
ghost use Rattle.command_refusals.specs.Outcome.{of_add};

use crate::names::refuse_names;
use crate::register::{Named, name_files};
use archive_core::Books;
use archive_open::{Archive, open_for_append};
use command_refusals::{AddRefusal, PartCause, Refusal, refusal_of_add, report};
use command_words::IngestWords;
use disk_journal::{Journal, start};
use disk_seal::{Alone, Beside};
use file_outcomes::{
    Base, FileReport, Founded, Holding, JournalEnd, Lent, OpenedArchive, PartedJournal, hold,
    part_journal, print_taken, refusal_of_cause,
};
use ingest_workers::{Cause, Job, Split, ingest_beside};
use log_seams::{Disk, OpenRefused, Shelf, Sink, Source};
use log_sources::{LogSource, close_logs, open_logs};
use logtype_text::one_list_of_parts;
use std::alloc::{AllocError, Global};
use std::marker::Brand;
use std::sync::Wait;
use std::thread::Threads;

/// The logs that become files, and how they are taken in.
#[derive(Clone, Copy, Debug)]
pub struct NewLogs<'a> {
    /// How many workers there are: 1 to 64.
    pub workers: u32,
    /// How many rows a segment has at most: 1 to 65,536.
    pub segment: u32,
    /// Their names.
    pub files: &'a [&'a str],
}

impl<'a> NewLogs<'a> {
    /// The logs that the words of `ingest` ask for.
    pub fn of(asked: &'a IngestWords<'a>) -> NewLogs<'a>
        ensures workers { result.workers ≡ asked.entry.now.workers }
        ensures segment { result.segment ≡ asked.entry.now.segment }
        ensures files { result.files.now ≡ asked.entry.now.files.items }
    {
        NewLogs {
            workers: asked.workers,
            segment: asked.segment,
            files: asked.files.as_slice(),
        }
    }
}

/// What is refused of a file, by what came of its opening and of its job: that a log could not be opened
/// goes before what its job met.
fn refusal_of_file(opening: Option<OpenRefused>, cause: Option<Cause>) -> Option<PartCause>
    ensures { result ≡ refusal_by opening cause }
{
    match opening {
        Some(OpenRefused::Failed) => return Some(PartCause::OpenFault),
        Some(OpenRefused::OutOfMemory) => return Some(PartCause::OutOfMemory),
        None => {}
    }
    refusal_of_cause(cause)
}

/// Tells of each file that there was no memory to begin with it.
fn refuse_all<'a>(names: &'a [&'a str], taken: &mut Vec<FileReport<'a>>)
    requires none { taken.old.items ≡ [] }
    requires room { length names.now ≤ vec_capacity taken.old }
    ensures names { names_of taken.new.items ≡ map str_bytes names.now }
    ensures begun { All IsNotBegun taken.new.items }
{
    for &name in names {
        taken.push_reserved(FileReport {
            name: name.as_bytes(),
            opened: false,
            messages: 0,
            whole: false,
            refusal: Some(PartCause::OutOfMemory),
        });
    }
}

/// Logs that were opened, and room for what is made of them.
struct OpenedLogs<S> {
    /// The logs, in their order.
    sources: Vec<LogSource<S>>,
    /// Room for a job of each.
    jobs: Vec<Job<LogSource<S>>>,
    /// Room for why each was not opened.
    openings: Vec<Option<OpenRefused>>,
}

/// Opens the logs, with room for their jobs.
fn open_all<H: Shelf>(
    alloc: Global,
    shelf: &mut H,
    names: &[&str],
) -> Result<OpenedLogs<H::Src>, AllocError>
    // what stays
    ensures content { (n : List ℕ) → H.content shelf.new n ≡ H.content shelf.old n }
    ensures reads { (n : List ℕ) → H.read_faults shelf.new n ≡ H.read_faults shelf.old n }
    ensures opens { (n : List ℕ) → H.open_faults shelf.old n ≤ H.open_faults shelf.new n }

    // each in its place, and the room
    ensures came { IfOk result (λ o.
        AllZip (CameOf H.Src.left H.Src.name H.Src.faults (H.content shelf.old)
        (H.open_faults shelf.old) (H.open_faults shelf.new))
        (map str_bytes names.now) o.sources.items) }
    ensures none { IfOk result (λ o. (o.jobs.items ≡ []) × (o.openings.items ≡ [])) }
    ensures room { IfOk result (λ o. (length names.now ≤ vec_capacity o.jobs)
        × (length names.now ≤ vec_capacity o.openings)) }
{
    let openings = Vec::with_capacity(alloc, names.len())?;
    let jobs = Vec::with_capacity(alloc, names.len())?;
    match open_logs(alloc, shelf, names) {
        Ok(sources) => Ok(OpenedLogs {
            sources,
            jobs,
            openings,
        }),
        Err(refused) => {
            jobs.destroy_empty();
            Err(refused)
        }
    }
}

/// Makes a job of a source, for a whole file. That of a log that was not opened is not read.
fn begin_job<S>(file: u32, source: LogSource<S>) -> Job<LogSource<S>>
    ensures file { result.file ≡ file }
    ensures source { result.source ≡ Some source }
    ensures opened { result.is_open ≡ is_opened source }
    ensures whole { result.is_part ≡ false }
    ensures new { result.outcome ≡ nothing_done }
{
    if source.is_open() {
        Job::new(file, source)
    } else {
        Job::unopened(file, source)
    }
}

/// Makes a job of each source, in their order; the files are numbered on from `first`. Tells of each why
/// its log was not opened.
fn begin_jobs<S>(
    first: u32,
    sources: &mut Vec<LogSource<S>>,
    jobs: &mut Vec<Job<LogSource<S>>>,
    openings: &mut Vec<Option<OpenRefused>>,
)
    requires few { first + vec_len sources.old ≤ 1048576 }
    requires none { (jobs.old.items ≡ []) × (openings.old.items ≡ []) }
    requires room { (vec_len sources.old ≤ vec_capacity jobs.old)
        × (vec_len sources.old ≤ vec_capacity openings.old) }

    // the jobs
    ensures numbered { AreNumbered first jobs.new.items }
    ensures count { vec_len jobs.new ≡ vec_len sources.old }
    ensures sourced { sources_of jobs.new.items ≡ map Some sources.old.items }
    ensures opened { opens_of jobs.new.items ≡ map is_opened sources.old.items }
    ensures openings { openings.new.items ≡ map refusal_of sources.old.items }

    // what is left of the sources
    ensures sources { sources.new.items ≡ [] }
    ensures room { vec_capacity sources.new ≡ vec_capacity sources.old }
{
    // popped from the last on
    sources.as_mut_slice().reverse();
    while let Some(source) = sources.pop() {
        let file = first + jobs.len() as u32;
        openings.push_reserved(source.refusal());
        jobs.push_reserved(begin_job(file, source));
    }
}

/// Ends the jobs: their sources are given back, and what came of each file is told in their order.
fn end_jobs<'a, S>(
    names: &'a [&'a str],
    openings: &[Option<OpenRefused>],
    jobs: &mut Vec<Job<LogSource<S>>>,
    sources: &mut Vec<LogSource<S>>,
    taken: &mut Vec<FileReport<'a>>,
)
    requires count { (vec_len jobs.old ≡ length names.now)
        × (length openings.now ≡ length names.now) }
    requires none { taken.old.items ≡ [] }
    requires room { length names.now ≤ vec_capacity taken.old }
    requires no_source { sources.old.items ≡ [] }
    requires sources { length names.now ≤ vec_capacity sources.old }
    ensures names { names_of taken.new.items ≡ map str_bytes names.now }
    ensures told { (i : ℕ) (file : FileReport) → slice_get taken.new.items i ≡ Some file
        → IsToldBy openings.now jobs.old.items i file }
    ensures sources { map Some sources.new.items ≡ sources_of jobs.old.items }
    ensures jobs { jobs.new.items ≡ [] }
{
    // popped from the last on
    jobs.as_mut_slice().reverse();
    while let Some(job) = jobs.pop() {
        let outcome = job.outcome();
        let place = taken.len();
        let opening = openings[place];
        taken.push_reserved(FileReport {
            name: names[place].as_bytes(),
            opened: opening.is_none(),
            messages: outcome.messages,
            whole: outcome.whole,
            refusal: refusal_of_file(opening, outcome.cause),
        });
        sources.push_reserved(job.into_source());
    }
}

/// Does the jobs over a journal, with a follower of it beside the workers. Without memory to begin the
/// jobs say so.
fn do_jobs<'d, R: Threads + Wait + Sync, S: Source + Send, D: Disk + Send, B: Beside<D> + Send>(
    rt: &R,
    alloc: Global,
    asked: NewLogs<'_>,
    journal: Journal<'d, D>,
    named: Named,
    jobs: &mut [Job<S>],
    beside: &mut B,
) -> Journal<'d, D>
    requires workers { (1 ≤ asked.workers) × (asked.workers ≤ MAX_WORKERS) }
    requires segment { (1 ≤ asked.segment) × (asked.segment ≤ 65536) }
    requires journal { MayOpen (state_of journal) }
    requires books { HoldTexts (state_of journal) named.types named.words }
    requires jobs { AreNew (first_file jobs.old) (state_of journal) jobs.old }
    requires beside { MayBeginWith (B.known beside.old) journal }
    ensures did { DidJobs S.left S.name S.faults asked.entry.workers asked.entry.segment
        journal.entry result jobs.old jobs.new }
    ensures along { WentAlong (B.known beside.old) (B.known beside.new) journal.entry result }
{
    let Named { types, words, .. } = named;
    let split = Split {
        workers: asked.workers,
        rows: asked.segment,
    };
    match ingest_beside(rt, alloc, jobs, split, journal, types, words, beside) {
        Ok(journal) => journal,
        Err(refused) => refused.journal,
    }
}

/// Takes the logs in as the new files of a journal, with a follower of it beside. Without memory to begin
/// each file is told so.
fn take_in<'a, 'd, R: Threads + Wait + Sync, H: Shelf, D: Disk + Send, B: Beside<D> + Send>(
    rt: &R,
    alloc: Global,
    asked: NewLogs<'a>,
    journal: Journal<'d, D>,
    named: Named,
    shelf: &mut H,
    taken: &mut Vec<FileReport<'a>>,
    beside: &mut B,
) -> Journal<'d, D>
where
    H::Src: Send,
    requires limits { IsInLimits asked }
    requires named { IsNamed (state_of journal) named.types named.words named.first
        (length asked.files.now) }
    requires room { HasRoomFor asked taken.old }
    requires beside { MayBeginWith (B.known beside.old) journal }

    // what stays
    ensures goes_on { HasGoneOn journal.entry result }
    ensures logs { ShelfGoesOn H.content H.open_faults H.read_faults shelf.old shelf.new }

    // the files
    ensures names { names_of taken.new.items ≡ names_asked asked.entry }
    ensures taken { TakesInto asked.entry.segment (names_asked asked.entry) named.first
        (map (came_of (H.content shelf.old)) taken.new.items) (state_of journal.entry)
        (state_of result) }
    ensures causes { HaveCausesIn
        (logs_around H.unread H.open_faults H.read_faults shelf.old shelf.new)
        asked.entry.workers
        (into_journal (state_of journal.entry) asked.entry.segment named.first
        (map (came_of (H.content shelf.old)) taken.new.items))
        (state_of journal.entry).disk (D.state result.disk.now)
        (map (came_of (H.content shelf.old)) taken.new.items) }

    // the follower
    ensures along { WentAlong (B.known beside.old) (B.known beside.new) journal.entry result }
{
    let Ok(opened) = open_all(alloc, shelf, asked.files) else {
        refuse_all(asked.files, taken);
        return journal;
    };
    let OpenedLogs {
        mut sources,
        mut jobs,
        mut openings,
    } = opened;
    begin_jobs(named.first, &mut sources, &mut jobs, &mut openings);
    let journal = do_jobs(
        rt,
        alloc,
        asked,
        journal,
        named,
        jobs.as_mut_slice(),
        beside,
    );
    end_jobs(
        asked.files,
        openings.as_slice(),
        &mut jobs,
        &mut sources,
        taken,
    );
    jobs.destroy_empty();
    close_logs(shelf, sources);
    journal
}

/// What came of the adding of logs to an archive that was opened.
#[derive(Drop)]
struct Added<'d, D: Disk> {
    /// The archive's journal.
    journal: Journal<'d, D>,
    /// The number of the first new file, or why there is none.
    answer: Result<u32, AddRefusal>,
}

/// Adds the logs to an archive that was opened, by its journal, with a follower of the journal beside
/// the workers. Where no file was added the follower was not called.
fn add_opened<'a, 'd, R: Threads + Wait + Sync, H: Shelf, D: Disk + Send, B: Beside<D> + Send>(
    rt: &R,
    alloc: Global,
    asked: NewLogs<'a>,
    journal: Journal<'d, D>,
    holding: Holding,
    shelf: &mut H,
    taken: &mut Vec<FileReport<'a>>,
    beside: &mut B,
) -> Added<'d, D>
where
    H::Src: Send,
    requires asked { MayAdd asked }
    requires room { HasRoomFor asked taken.old }
    requires held { IsHeldBy (state_of journal) holding.types holding.words holding.files }
    requires beside { MayBeginWith (B.known beside.old) journal }

    // by the answer
    ensures came { AddsOrRefuses (H.content shelf.old)
        (logs_around H.unread H.open_faults H.read_faults shelf.old shelf.new)
        asked.entry taken.new.items
        (D.state journal.entry.disk.now) (D.state result.journal.disk.now) result.answer }
    ensures followed { FollowsBy B.known asked.entry.segment (names_asked asked.entry)
        (map (came_of (H.content shelf.old)) taken.new.items)
        (D.state journal.entry.disk.now) (D.state result.journal.disk.now)
        beside.old beside.new result.answer }
    ensures undamaged { IfErr result.answer IsNoDamage }

    // what stays
    ensures goes_on { HasGoneOn journal.entry result.journal }
    ensures logs { ShelfGoesOn H.content H.open_faults H.read_faults shelf.old shelf.new }
{
    let mut journal = journal;
    let named = match name_files(alloc, &mut journal, holding, asked.files) {
        Ok(named) => named,
        Err(refusal) => {
            return Added {
                journal,
                answer: Err(refusal),
            };
        }
    };
    let first = named.first;
    let journal = take_in(rt, alloc, asked, journal, named, shelf, taken, beside);
    Added {
        journal,
        answer: Ok(first),
    }
}

/// Adds the logs to an archive that was opened, over its disk, with a follower of its journal
/// beside the workers. Answers the number of the first new file.
pub fn add_over<'a, R: Threads + Wait + Sync, H: Shelf, D: Disk + Send, B: Beside<D> + Send>(
    rt: &R,
    alloc: Global,
    asked: NewLogs<'a>,
    opened: OpenedArchive,
    shelf: &mut H,
    disk: &mut D,
    taken: &mut Vec<FileReport<'a>>,
    beside: &mut B,
) -> Result<u32, AddRefusal>
where
    H::Src: Send,
    requires asked { MayAdd asked }
    requires room { HasRoomFor asked taken.old }
    requires held { (name : ℕ) → IsHeldBy (state_at name (D.state disk.old) opened.end)
        opened.holding.types opened.holding.words opened.holding.files }
    requires beside { (name : ℕ) → MayBeginAt (B.known beside.old)
        (state_at name (D.state disk.old) opened.end) }

    // by the answer
    ensures came { AddsOrRefuses (H.content shelf.old)
        (logs_around H.unread H.open_faults H.read_faults shelf.old shelf.new)
        asked.entry taken.new.items (D.state disk.old) (D.state disk.new) result }
    ensures followed { FollowsBy B.known asked.entry.segment (names_asked asked.entry)
        (map (came_of (H.content shelf.old)) taken.new.items)
        (D.state disk.old) (D.state disk.new) beside.old beside.new result }
    ensures undamaged { IfErr result IsNoDamage }

    // what stays
    ensures goes_on { DiskGoesOn (D.state disk.old) (D.state disk.new) }
    ensures logs { ShelfGoesOn H.content H.open_faults H.read_faults shelf.old shelf.new }
{
    let OpenedArchive { end, holding } = opened;
    let JournalEnd {
        header,
        place,
        count,
        closed,
    } = end;
    let journal = Journal {
        disk,
        header,
        place,
        count,
        closed,
    };
    let added = add_opened(rt, alloc, asked, journal, holding, shelf, taken, beside);
    added.answer
}

/// Adds the logs to an archive by its journal, whose disk tells its bytes only where it is to, and
/// is an archive's there. Answers the number of the first new file, and gives the disk back.
fn add_founded<'a, 'd, R: Threads + Wait + Sync, H: Shelf, D: Disk + Send, L: Lent + Send>(
    rt: &R,
    alloc: Global,
    asked: NewLogs<'a>,
    journal: Journal<'d, D>,
    holding: Holding,
    shelf: &mut H,
    taken: &mut Vec<FileReport<'a>>,
) -> (Result<u32, AddRefusal>, &'d mut D)
where
    H::Src: Send,
    requires asked { MayAdd asked }
    requires room { HasRoomFor asked taken.old }
    requires lent { journal.disk.ghost_name ≡ L.name }
    requires told { is_some (D.state journal.disk.now).seen ≡ L.told }
    requires held { (name : ℕ) → IsHeldBy (lent_state L.tells name (state_of journal))
        holding.types holding.words holding.files }

    // by the answer
    ensures came { AddsOrRefuses (H.content shelf.old)
        (logs_around H.unread H.open_faults H.read_faults shelf.old shelf.new)
        asked.entry taken.new.items
        (told_if L.tells (D.state journal.entry.disk.now))
        (told_if L.tells (D.state result.1.now)) result.0 }
    ensures undamaged { IfErr result.0 IsNoDamage }

    // what stays
    ensures back { result.1.ghost_name ≡ journal.entry.disk.ghost_name }
    ensures goes_on { DiskGoesOn (D.state journal.entry.disk.now) (D.state result.1.now) }
    ensures logs { ShelfGoesOn H.content H.open_faults H.read_faults shelf.old shelf.new }
{
    let PartedJournal { mut founded, end } = part_journal::<D, L>(journal);
    let opened = OpenedArchive { end, holding };
    let mut alone = Alone {};
    let answer = add_over(
        rt,
        alloc,
        asked,
        opened,
        shelf,
        &mut founded,
        taken,
        &mut alone,
    );
    let Founded { disk, .. } = founded;
    (answer, disk)
}

/// Adds the logs to the archive of a disk, which is an archive where its bytes are to be told. Damage is
/// told of any bytes. Answers the number of the first new file.
pub fn add_lent<'a, R: Threads + Wait + Sync, H: Shelf, D: Disk + Send, L: Lent + Send>(
    rt: &R,
    alloc: Global,
    asked: NewLogs<'a>,
    shelf: &mut H,
    disk: &mut D,
    taken: &mut Vec<FileReport<'a>>,
) -> Result<u32, AddRefusal>
where
    H::Src: Send,
    requires asked { MayAdd asked }
    requires room { HasRoomFor asked taken.old }
    requires archive { IsTrue L.tells → IfSome (D.state disk.old).seen IsArchive }

    // by the answer
    ensures added { IfOk result (λ first. AddsNewLogs (H.content shelf.old)
        (logs_around H.unread H.open_faults H.read_faults shelf.old shelf.new)
        asked.entry first taken.new.items
        (told_if L.tells (D.state disk.old)) (told_if L.tells (D.state disk.new))) }
    ensures refused { IfErr result (RefusesNewLogs asked.entry
        (told_if L.tells (D.state disk.old)) (told_if L.tells (D.state disk.new))) }
    ensures damaged { IfErr result (TellsDamage (D.state disk.old) (D.state disk.new)) }

    // what stays
    ensures goes_on { DiskGoesOn (D.state disk.old) (D.state disk.new) }
    ensures logs { ShelfGoesOn H.content H.open_faults H.read_faults shelf.old shelf.new }
{
    let header = start(disk)?;
    let mut journal = Journal::begin(disk, header);
    let archive: Archive<Books> = open_for_append(alloc, &mut journal)?;
    let files = archive.files().as_slice().len() as u64;
    let holding = hold(archive.into_books(), files);
    let (answer, _disk) = add_founded::<R, H, D, Brand>(
        rt, alloc, asked, journal, holding, shelf, taken,
    );
    answer
}

/// Adds logs to an archive, and tells what came of each.
pub fn ingest_files<R: Threads + Wait + Sync, H: Shelf, D: Disk + Send, K: Sink, B: Base>(
    rt: &R,
    alloc: Global,
    asked: NewLogs<'_>,
    shelf: &mut H,
    disk: &mut D,
    out: &mut K,
    err: &mut K,
) -> u8
where
    H::Src: Send,
    requires workers { (1 ≤ asked.workers) × (asked.workers ≤ MAX_WORKERS) }
    requires segment { (1 ≤ asked.segment) × (asked.segment ≤ 65536) }
    requires some { 1 ≤ length asked.files.now }
    ensures names { (refusal : AddRefusal)
        → RefusesNames (map str_bytes asked.entry.files.now) (Some refusal)
        → RefusesAtOnce
        (around H.content H.unread H.open_faults H.read_faults K.written K.faults
        shelf.old shelf.new out.old out.new err.old err.new)
        (D.state disk.old) (D.state disk.new) result (of_add refusal) }
    ensures answers { EndsIngestAt B.archive asked.entry.workers asked.entry.segment
        (map str_bytes asked.entry.files.now)
        (around H.content H.unread H.open_faults H.read_faults K.written K.faults
        shelf.old shelf.new out.old out.new err.old err.new)
        (D.state disk.old) (D.state disk.new) result }

    // whatever the answer
    ensures outside { OutsideGoesOn
        (around H.content H.unread H.open_faults H.read_faults K.written K.faults
        shelf.old shelf.new out.old out.new err.old err.new) }
    ensures goes_on { DiskGoesOn (D.state disk.old) (D.state disk.new) }
    ensures logs { (n : List ℕ) → H.content shelf.new n ≡ H.content shelf.old n }
{
    one_list_of_parts();
    if let Some(refusal) = refuse_names(asked.files) {
        return report(err, "", refusal_of_add(refusal));
    }
    let Ok(mut taken) = Vec::with_capacity(alloc, asked.files.len()) else {
        return report(err, "", Refusal::OutOfMemory);
    };
    // what is said of the disk's bytes is said where they are those of the archive that is known
    match add_lent::<R, H, D, Brand>(rt, alloc, asked, shelf, disk, &mut taken) {
        Ok(first) => print_taken(alloc, u64::from(first), taken.as_slice(), out, err),
        Err(refusal) => report(err, "", refusal_of_add(refusal)),
    }
}
