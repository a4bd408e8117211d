//! The files of a second archive behind those of a first: their names, and then what is in them.
ghost use Rattle.std.specs.Prelude.{◌≡◌, ◌+◌, ◌≤◌, [], length, vec_capacity, All, IfErr, IfOk, IsFalse, IsTrue, None, OnErr};
ghost use Rattle.disk_journal.specs.Journal.{state_of};
ghost use Rattle.archive_meaning.specs.declared.TheConstants.{MAX_FILES, MAX_NAME_LEN};
ghost use Rattle.archive_open.specs.declared.files.FileEntry.{FileEntry};
ghost use Rattle.ingest_workers.specs.Ingested.{HoldTexts, IsAsItWas};
ghost use Rattle.archive_merge.specs.Behind.{HasMerged, MayBegin, MayServe, OnlyRead, second_by};
ghost use Rattle.archive_merge.specs.Merging.{EndsMerge, MayMerge, WasOnlyRead, view_of};
ghost use Rattle.name_records.specs.Named.{IsShort, names_of};
ghost use Rattle.archive_merge.specs.StepsMerging.{AreFresh, CameBehind, refusal_by};
ghost use Rattle.archive_merge.specs.Taken.{texts_by};

use crate::behind::{MoveRefused, Moved, move_behind};
use crate::file::Merged;
use crate::merger::{Second, Stopped};
use crate::refusal::MergeRefusal;
use crate::taker::Taker;
use archive_meaning::MAX_NAME_LEN;
use archive_open::{FileEntry, SegmentPlace};
use dict_core::Book;
use disk_journal::Journal;
use log_seams::Disk;
use name_records::{Registered, register_names};
use row_codec::Names;
use std::alloc::{AllocError, Global};
use std::sync::Wait;

/// A second archive, whose files are to come behind those of a journal.
#[derive(Drop)]
pub struct ToMerge<'s, M: Names, E: Disk> {
    /// Its texts.
    pub names: &'s M,
    /// Its files.
    pub files: &'s [FileEntry],
    /// Its segments, sorted by file and first message.
    pub segments: &'s [SegmentPlace],
    /// Its disk.
    pub disk: &'s mut E,
}

/// What is left once the files of a second archive came behind those of a journal.
#[derive(Drop)]
pub struct MergeEnd<'s, 'd, E: Disk, D: Disk> {
    /// The journal, whose disk has what was added, durably.
    pub journal: Journal<'d, D>,
    /// The disk of the second archive.
    pub disk: &'s mut E,
    /// Each file whose name was registered, with what was moved of it.
    pub files: Vec<Merged>,
    /// Why these are not all, or not whole.
    pub refusal: Option<MergeRefusal>,
}

/// Whether no file has a name that is longer than an archive's may be.
fn are_short(files: &[FileEntry]) -> bool
    ensures yes { IsTrue result → All (λ (f : FileEntry). length f.name ≤ MAX_NAME_LEN) files.now }
    ensures no { IsFalse result
        → ¬ All (λ (f : FileEntry). length f.name ≤ MAX_NAME_LEN) files.now }
{
    files
        .iter()
        .all(|file| file.name.as_slice().len() <= MAX_NAME_LEN)
}

/// What serves to move files.
#[derive(Drop)]
struct Room {
    taker: Taker,
    files: Vec<Merged>,
}

/// What serves to move so many files of an archive of this version with these texts.
fn room_for<M: Names>(
    alloc: Global,
    version: u32,
    names: &M,
    count: usize,
) -> Result<Room, AllocError>
    requires { version ≡ M.version names.now }
    ensures taker { IfOk result (λ room. MayServe (M.version names.now)
        (texts_by M.types M.words names.now) room.taker) }
    ensures files { IfOk result (λ room. (room.files.items ≡ [])
        × (count ≤ vec_capacity room.files)) }
{
    let taker = Taker::of(alloc, version, names)?;
    let files = Vec::with_capacity(alloc, count)?;
    Ok(Room { taker, files })
}

/// The new files, numbered on from the first, of which nothing is moved yet.
fn number_files(first: u32, count: usize, files: &mut Vec<Merged>)
    requires empty { files.old.items ≡ [] }
    requires room { count ≤ vec_capacity files.old }
    requires few { first + count ≤ MAX_FILES }
    ensures counted { length files.new.items ≡ count }
    ensures fresh { AreFresh first files.new.items }
{
    for index in 0..count {
        files.push_reserved(Merged {
            file: first + index as u32,
            messages: 0,
            whole: false,
        });
    }
}

/// What stopped a file, as a refusal.
fn refusal_of(stop: Option<Stopped>) -> Option<MergeRefusal>
    ensures { result ≡ refusal_by stop }
{
    match stop {
        Some(Stopped { file, cause }) => Some(MergeRefusal::Stopped { file, cause }),
        None => None,
    }
}

/// The files of a vector are moved.
fn move_all<'s, 'd, M: Names, E: Disk, D: Disk, R: Wait>(
    rt: &R,
    alloc: Global,
    first: u32,
    files: &mut Vec<Merged>,
    second: Second<'s, M, E>,
    journal: Journal<'d, D>,
    types: Book,
    words: Book,
) -> Result<Moved<'s, 'd, M, E, D>, MoveRefused<'s, 'd, M, E, D>>
    requires begin { MayBegin first (M.version second.names.now) journal files.old.items }
    requires serves { MayServe (M.version second.names.now)
        (texts_by M.types M.words second.names.now) second.taker }
    requires books { HoldTexts (state_of journal) types words }
    ensures merged { IfOk result (λ m. HasMerged (second_by M.types M.words M.version E.state
        second.entry) first m.stop files.old.items files.new.items journal.entry m.journal) }
    ensures second { IfOk result (λ m. OnlyRead E.state m.stop second.entry m.second) }
    ensures refused { IfErr result (λ r. IsAsItWas journal.entry r.journal
        × (r.second ≡ second.entry)) }
    ensures files { OnErr result (files.new.items ≡ files.old.items) }
{
    move_behind(
        rt,
        alloc,
        first,
        files.as_mut_slice(),
        second,
        journal,
        types,
        words,
    )
}

/// The files are moved, whose names are in the journal.
fn move_named<'s, 'd, M: Names, E: Disk, D: Disk, R: Wait>(
    rt: &R,
    alloc: Global,
    first: u32,
    files: Vec<Merged>,
    second: Second<'s, M, E>,
    journal: Journal<'d, D>,
    types: Book,
    words: Book,
) -> MergeEnd<'s, 'd, E, D>
    requires begin { MayBegin first (M.version second.names.now) journal files.items }
    requires serves { MayServe (M.version second.names.now)
        (texts_by M.types M.words second.names.now) second.taker }
    requires books { HoldTexts (state_of journal) types words }
    ensures came { CameBehind (second_by M.types M.words M.version E.state second.entry) first
        files.items result.files.items result.refusal journal.entry result.journal }
    ensures second { WasOnlyRead E.state result.refusal second.entry.disk result.disk }
{
    let mut files = files;
    match move_all(rt, alloc, first, &mut files, second, journal, types, words) {
        Ok(moved) => {
            let Moved {
                journal,
                second,
                stop,
            } = moved;
            let Second { disk, .. } = second;
            MergeEnd {
                journal,
                disk,
                files,
                refusal: refusal_of(stop),
            }
        }
        Err(refused) => {
            let MoveRefused { journal, second } = refused;
            let Second { disk, .. } = second;
            MergeEnd {
                journal,
                disk,
                files,
                refusal: Some(MergeRefusal::OutOfMemory),
            }
        }
    }
}

/// Names the files, whose names are short, and moves their segments.
fn name_and_move<'s, 'd, M: Names, E: Disk, D: Disk, R: Wait>(
    rt: &R,
    alloc: Global,
    first: u32,
    second: ToMerge<'s, M, E>,
    journal: Journal<'d, D>,
    types: Book,
    words: Book,
) -> MergeEnd<'s, 'd, E, D>
    requires begin { MayMerge first (M.version second.names.now) (length second.files.now) journal }
    requires short { All IsShort (names_of second.files.now) }
    requires books { HoldTexts (state_of journal) types words }
    ensures ends { EndsMerge (view_of M.types M.words M.version E.state second.entry) first
        (names_of second.entry.files.now) result.files.items result.refusal
        journal.entry result.journal }
    ensures second { WasOnlyRead E.state result.refusal second.entry.disk result.disk }
{
    let ToMerge {
        names,
        files,
        segments,
        disk,
    } = second;
    let Ok(room) = room_for(alloc, journal.header.version, names, files.len()) else {
        return MergeEnd {
            journal,
            disk,
            files: Vec::new(alloc),
            refusal: Some(MergeRefusal::OutOfMemory),
        };
    };
    let Room {
        taker,
        files: mut merged,
    } = room;
    let mut journal = journal;
    let Registered { count, refusal } = register_names(alloc, &mut journal, first, files);
    number_files(first, count, &mut merged);
    if let Some(why) = refusal {
        return MergeEnd {
            journal,
            disk,
            files: merged,
            refusal: Some(MergeRefusal::Names(why)),
        };
    }
    let second = Second {
        names,
        segments,
        disk,
        taker,
    };
    move_named(rt, alloc, first, merged, second, journal, types, words)
}

/// Registers the names of a second archive's files behind a journal, in groups of as many as a
/// record may have, and moves the files there, one after the other, until one is stopped. The first
/// has this number, which is how many files the journal's archive has. Both books have the journal's
/// texts. Journal and second disk come back on each way, and each file whose name was registered.
pub fn merge<'s, 'd, M: Names, E: Disk, D: Disk, R: Wait>(
    rt: &R,
    alloc: Global,
    first: u32,
    second: ToMerge<'s, M, E>,
    journal: Journal<'d, D>,
    types: Book,
    words: Book,
) -> MergeEnd<'s, 'd, E, D>
    requires begin { MayMerge first (M.version second.names.now) (length second.files.now) journal }
    requires books { HoldTexts (state_of journal) types words }

    // the journal and the files, by the refusal
    ensures ends { EndsMerge (view_of M.types M.words M.version E.state second.entry) first
        (names_of second.entry.files.now) result.files.items result.refusal
        journal.entry result.journal }
    ensures none { second.entry.files.now ≡ [] → (result.journal ≡ journal.entry)
        × (result.refusal ≡ None) }

    // the second disk
    ensures second { WasOnlyRead E.state result.refusal second.entry.disk result.disk }
{
    if second.files.is_empty() {
        let ToMerge { disk, .. } = second;
        return MergeEnd {
            journal,
            disk,
            files: Vec::new(alloc),
            refusal: None,
        };
    }
    if !are_short(second.files) {
        let ToMerge { disk, .. } = second;
        return MergeEnd {
            journal,
            disk,
            files: Vec::new(alloc),
            refusal: Some(MergeRefusal::LongName),
        };
    }
    name_and_move(rt, alloc, first, second, journal, types, words)
}
