//! The files of a second archive, added to an archive.
ghost use Rattle.std.specs.Prelude.{◌≡◌, ◌≤◌, ℕ, [], length, IfErr, IfOk};
ghost use Rattle.log_seams.specs.Disk.{KeepsBytes};
ghost use Rattle.disk_journal.specs.Journal.{state_of};
ghost use Rattle.archive_open.specs.Archive.{shown};
ghost use Rattle.archive_open.specs.Shown.{HasLastGate, Opens};
ghost use Rattle.ingest_workers.specs.Ingested.{HoldTexts};
ghost use Rattle.archive_merge.specs.Merging.{EndsMerge, MayMerge, WasOnlyRead, view_of};
ghost use Rattle.archive_merge.specs.Named.{names_of};
ghost use Rattle.command_refusals.specs.GoesOn.{DiskGoesOn};
ghost use Rattle.command_answers.specs.Merging.{Merges};
ghost use Rattle.merge_command.specs.Came.{Agrees, ComesBehind, kept_by, merge_by, merge_of, refused_by, view_shown, RefusesSecond};
ghost use Rattle.file_outcomes.specs.JournalAt.{state_at};
ghost use Rattle.file_outcomes.specs.Naming.{IsHeldBy};

use crate::refused::{place_of, refusal_of};
use archive_meaning::MAX_FILES;
use archive_merge::{MergeEnd, MergeRefusal as Why, Merged, ToMerge, merge, segments_go_on};
use archive_open::{Archive, PlainBooks, open_archive};
use command_refusals::{MergeRefusal, of_second};
use dict_core::Book;
use disk_journal::Journal;
use file_outcomes::{Holding, JournalEnd};
use log_seams::Disk;
use row_codec::Names;
use std::alloc::Global;
use std::sync::Wait;

/// What came of a merge.
#[derive(Drop)]
pub(crate) struct Came {
    /// The number of the first new file.
    pub(crate) first: u32,
    /// The second archive.
    pub(crate) second: Archive<PlainBooks>,
    /// The new files: the first ones of the second archive's.
    pub(crate) files: Vec<Merged>,
    /// Why not all was merged.
    pub(crate) refusal: Option<MergeRefusal>,
    /// The place of the file that stopped it.
    pub(crate) stopped: Option<usize>,
}

/// Opens the second archive, for reading: none of its texts is looked up.
fn open_second<E: Disk>(alloc: Global, disk: &mut E) -> Result<Archive<PlainBooks>, MergeRefusal>
    ensures keeps { KeepsBytes (E.state disk.old) (E.state disk.new) }
    ensures opened { IfOk result (λ archive.
        Opens (E.state disk.old).seen (shown kept_by archive)) }
    ensures last { IfOk result (λ archive.
        HasLastGate (E.state disk.old).seen (shown kept_by archive)) }
    ensures refused { IfErr result (RefusesSecond (E.state disk.old) (E.state disk.new)) }
    ensures steady { IfOk result (λ archive.
        (E.state disk.new).faults ≡ (E.state disk.old).faults) }
    ensures later { (E.state disk.old).faults ≤ (E.state disk.new).faults }
{
    match open_archive(alloc, disk) {
        Ok(archive) => Ok(archive),
        Err(refusal) => Err(of_second(refusal)),
    }
}

/// Whether an archive of the version `other` with `more` files may come behind one with `held`
/// files.
fn agree(version: u32, held: u64, other: u32, more: u64) -> Result<(), MergeRefusal>
    ensures { Agrees version held other more result }
{
    if version != other {
        return Err(MergeRefusal::VersionDiffers {
            first: version,
            second: other,
        });
    }
    if held.saturating_add(more) > MAX_FILES as u64 {
        return Err(MergeRefusal::TooManyFiles { held, more });
    }
    Ok(())
}

/// What was lent to a merge, and why not all was merged.
#[derive(Drop)]
struct Returned<'s, 'd, E: Disk, D: Disk> {
    journal: Journal<'d, D>,
    disk: &'s mut E,
    refusal: Option<Why>,
}

/// Merges the second archive into a journal. What came of each file is left in the vector, whose
/// items before go.
fn merge_into<'s, 'd, M: Names, E: Disk, D: Disk, R: Wait>(
    rt: &R,
    alloc: Global,
    first: u32,
    second: ToMerge<'s, M, E>,
    journal: Journal<'d, D>,
    types: Book,
    words: Book,
    files: &mut Vec<Merged>,
) -> Returned<'s, 'd, E, D>
    requires begin { MayMerge first (M.version second.names.now) (length second.files.now) journal }
    requires books { HoldTexts (state_of journal) types words }
    ensures ends { EndsMerge (view_of M.types M.words M.version E.state second.entry) first
        (names_of second.entry.files.now) files.new.items result.refusal
        journal.entry result.journal }
    ensures none { second.entry.files.now ≡ [] → result.journal ≡ journal.entry }
    ensures second { WasOnlyRead E.state result.refusal second.entry.disk result.disk }
{
    let MergeEnd {
        journal,
        disk,
        files: merged,
        refusal,
    } = merge(rt, alloc, first, second, journal, types, words);
    *files = merged;
    Returned {
        journal,
        disk,
        refusal,
    }
}

/// Merges an archive that was opened, over its disk, into a journal. Both are lent for lifetimes of
/// their own: with one for both it would not be known how the loan of the disk ends.
fn merge_opened<'a: 's, 's, 'd, E: Disk, D: Disk, R: Wait>(
    rt: &R,
    alloc: Global,
    first: u32,
    second: &'a Archive<PlainBooks>,
    disk: &'s mut E,
    journal: Journal<'d, D>,
    holding: Holding,
    files: &mut Vec<Merged>,
) -> Returned<'s, 'd, E, D>
    requires begin { MayMerge first (shown kept_by second.now).kept.version
        (length (shown kept_by second.now).files) journal }
    requires books { HoldTexts (state_of journal) holding.types holding.words }
    ensures ends { EndsMerge (view_shown (shown kept_by second.now) (E.state disk.old).seen) first
        (names_of (shown kept_by second.now).files) files.new.items result.refusal
        journal.entry result.journal }
    ensures none { (shown kept_by second.now).files ≡ [] → result.journal ≡ journal.entry }
    ensures second { WasOnlyRead E.state result.refusal disk.entry result.disk }
{
    let Holding { types, words, .. } = holding;
    let to_merge = ToMerge {
        names: second.names(),
        files: second.files().as_slice(),
        segments: second.segments().as_slice(),
        disk,
    };
    merge_into(rt, alloc, first, to_merge, journal, types, words, files)
}

/// Adds the files of the second archive behind those of an archive that was opened, and has this, over
/// its disk, where its journal has come to this.
///
/// # Errors
///
/// The second archive could not be opened, or may not come behind the first. The disk was left alone
/// then.
pub(crate) fn add_second<D: Disk, E: Disk, R: Wait>(
    rt: &R,
    alloc: Global,
    end: JournalEnd,
    holding: Holding,
    disk: &mut D,
    second: &mut E,
) -> Result<Came, MergeRefusal>
    requires held { (name : ℕ) → IsHeldBy (state_at name (D.state disk.old) end)
        holding.types holding.words holding.files }

    // by the answer
    ensures came { IfOk result (λ came. Merges (merge_of came) came.first
        (D.state disk.old) (D.state disk.new) (E.state second.old) (E.state second.new)) }
    ensures few { IfOk result (λ came.
        length came.files.items ≤ length (shown kept_by came.second).files) }
    ensures refused { IfErr result (λ refusal. Merges (refused_by refusal) 0
        (D.state disk.old) (D.state disk.new) (E.state second.old) (E.state second.new)) }
    ensures behind { ComesBehind (merge_by result) disk.old disk.new }

    // what stays
    ensures goes_on { DiskGoesOn (D.state disk.old) (D.state disk.new) }
    ensures second { DiskGoesOn (E.state second.old) (E.state second.new) }
{
    segments_go_on();
    let second_archive: Archive<PlainBooks> = open_second(alloc, second)?;
    let held = holding.files;
    let other = second_archive.names().version();
    let more = second_archive.files().as_slice().len() as u64;
    agree(end.header.version, held, other, more)?;
    let first = held as u32;
    let journal = Journal {
        disk,
        header: end.header,
        place: end.place,
        count: end.count,
        closed: end.closed,
    };
    let mut files = Vec::new(alloc);
    // taken apart, it would not be known how the loan of the journal's disk ends
    let left = merge_opened(
        rt,
        alloc,
        first,
        &second_archive,
        second,
        journal,
        holding,
        &mut files,
    );
    let refusal = left.refusal;
    Ok(Came {
        first,
        files,
        refusal: refusal_of(refusal, second_archive.last_gate()),
        stopped: place_of(refusal, first),
        second: second_archive,
    })
}
