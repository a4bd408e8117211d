//! The texts of an archive's files, taken into a journal.
ghost use Rattle.std.specs.Prelude.{◌≡◌, is_some, true, IfErr, IfOk, IfSome, None};
ghost use Rattle.log_seams.specs.Disk.{Rests};
ghost use Rattle.disk_journal.specs.Journal.{state_of};
ghost use Rattle.disk_seal.specs.Opening.{MayOpen};
ghost use Rattle.archive_meaning.specs.declared.TheConstants.{MAX_ROWS};
ghost use Rattle.archive_open.specs.Archive.{shown};
ghost use Rattle.archive_jobs.specs.Jobs.{AreJobsOf};
ghost use Rattle.archive_jobs.specs.Lent.{IsRead};
ghost use Rattle.ingest_workers.specs.Ingested.{AreNew, first_file};
ghost use Rattle.name_records.specs.Left.{HasGoneOn};
ghost use Rattle.name_records.specs.Named.{names_of};
ghost use Rattle.upgrade_command.specs.Files.{read_by};
ghost use Rattle.upgrade_command.specs.Filling.{DidFill, FillsNamed, HasNoTexts, IsNewJournal, NamesOnly};
ghost use Rattle.upgrade_command.specs.Old.{MayBeNamed};

use crate::old::OldArchive;
use archive_jobs::{FileOpener, Lent, StoredFile};
use archive_open::KeepsTexts;
use archive_text::TextCause;
use dict_core::Book;
use disk_journal::Journal;
use disk_seal::RegisterRefusal;
use ingest_workers::{Job, ingest_opened};
use log_seams::Disk;
use name_records::{Registered, register_names};
use row_codec::Layouts;
use std::alloc::Global;
use std::sync::Wait;
use std::thread::Threads;

/// How many rows a segment has at most.
const ROWS: u32 = 65_536;

/// What is left once texts were taken in.
#[derive(Drop)]
struct Filled<'a, 'e, D: Disk, E: Disk> {
    /// The journal of the new archive.
    journal: Journal<'e, E>,
    /// The disk of the archive, which was only read.
    disk: &'a mut D,
    /// Why a text could not be had, if one could not.
    cause: Option<TextCause>,
}

/// What is left once files were named and taken in.
#[derive(Drop)]
pub(crate) struct Taken<'e, E: Disk> {
    /// The journal of the new archive.
    pub(crate) journal: Journal<'e, E>,
    /// Why a text could not be had, if one could not; or why not all files were named.
    pub(crate) answer: Result<Option<TextCause>, RegisterRefusal>,
}

/// Does the jobs of files over a journal that has their names and no texts.
fn fill<
    'a,
    'e,
    R: Threads + Wait + Sync,
    D: Disk + Send,
    E: Disk + Send,
    N: KeepsTexts + Drop + Sync,
    L: Lent + Send,
>(
    rt: &R,
    alloc: Global,
    layouts: &'a Layouts,
    jobs: &mut [Job<StoredFile<'a, D, N, L>>],
    disk: &'a mut D,
    journal: Journal<'e, E>,
) -> Filled<'a, 'e, D, E>
    // the archive
    requires layouts { layouts.now ≡ L.lent.types }
    requires name { disk.ghost_name ≡ L.lent.name }
    requires rests { Rests L.lent.disk (D.state disk.old) }
    requires faults { (D.state disk.old).faults ≡ L.lent.disk.faults }

    // the journal
    requires journal { MayOpen (state_of journal) }
    requires texts { HasNoTexts (state_of journal) }
    requires jobs { AreNew (first_file jobs.old) (state_of journal) jobs.old }

    ensures did { DidFill MAX_ROWS result.cause journal.entry result.journal jobs.old jobs.new }
    ensures read { IsRead D.state L.lent result.cause result.disk.ghost_name result.disk.now }
{
    let types = Book::new(alloc, journal.header.types_limit);
    let words = Book::new(alloc, journal.header.words_limit);
    let opener = FileOpener::<D, L>::new(alloc, layouts, disk);
    let (done, opener) = ingest_opened(rt, alloc, opener, jobs, ROWS, journal, types, words);
    let (disk, cause) = opener.into_disk();
    match done {
        Ok(journal) => Filled {
            journal,
            disk,
            cause,
        },
        Err(refused) => Filled {
            journal: refused.journal,
            disk,
            cause,
        },
    }
}

/// Registers the names of an archive's files in a new journal, in groups of as many as a record may
/// have, and does the jobs of the files, which are all of them in order.
pub(crate) fn name_and_fill<
    'a,
    'e,
    R: Threads + Wait + Sync,
    D: Disk + Send,
    E: Disk + Send,
    N: KeepsTexts + Drop + Sync,
    L: Lent + Send,
>(
    rt: &R,
    alloc: Global,
    old: &'a OldArchive<N>,
    jobs: &mut [Job<StoredFile<'a, D, N, L>>],
    disk: &'a mut D,
    back: &mut Option<&'a mut D>,
    journal: Journal<'e, E>,
) -> Taken<'e, E>
    // the archive
    requires layouts { old.now.layouts ≡ L.lent.types }
    requires named { MayBeNamed (shown N.kept old.now.archive).files }
    requires jobs { AreJobsOf L.lent.disk.seen (shown N.kept old.now.archive).files jobs.old }
    requires read { IsRead D.state L.lent None disk.ghost_name disk.old }

    // the journal
    requires journal { IsNewJournal (state_of journal) }

    // what stays
    ensures goes { HasGoneOn (state_of journal.entry) (state_of result.journal) }
    ensures back { is_some back.new ≡ true }
    ensures read { IfSome back.new (λ d. IsRead D.state L.lent (read_by result.answer)
        d.ghost_name d.now) }

    // by the answer
    ensures filled { IfOk result.answer (λ cause. FillsNamed MAX_ROWS
        (names_of (shown N.kept old.now.archive).files) cause
        journal.entry result.journal jobs.old jobs.new) }
    ensures refused { IfErr result.answer (NamesOnly
        (names_of (shown N.kept old.now.archive).files) journal.entry result.journal) }
{
    let mut journal = journal;
    let files = old.archive.files().as_slice();
    let Registered { count: _, refusal } = register_names(alloc, &mut journal, 0, files);
    if let Some(why) = refusal {
        *back = Some(disk);
        return Taken {
            journal,
            answer: Err(why),
        };
    }
    let filled = fill(rt, alloc, &old.layouts, jobs, disk, journal);
    *back = Some(filled.disk);
    Taken {
        journal: filled.journal,
        answer: Ok(filled.cause),
    }
}
