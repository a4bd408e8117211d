//! Moving one file after the other.
ghost use Rattle.std.specs.Prelude.{◌≡◌, ℕ, List, All, IfErr, IsErrOf, Some, is_ok};
ghost use Rattle.std.specs.List.{Contains, filter};
ghost use Rattle.std.specs.List.Sorted.{IsNonDecreasingBy};
ghost use Rattle.log_seams.specs.Outside.{CountsOf};
ghost use Rattle.logtype_text.specs.Fair.{IsFairType, IsFairWord};
ghost use Rattle.step_count.specs.Opens.{OpensFor};
ghost use Rattle.archive_open.specs.OfFile.{is_of};
ghost use Rattle.archive_open.specs.declared.segments.SegmentPlace.{SegmentPlace};
ghost use Rattle.archive_merge.specs.Causes.{HasMoveCause};
ghost use Rattle.archive_merge.specs.Files.{CameOver, IsNewFile};
ghost use Rattle.archive_merge.specs.Merger.{DidFile, GoesWith, IsIdle, MayMoveFile, MovesOn, PassesAdd, StaysRead, books_of, file_at};
ghost use Rattle.archive_merge.specs.MergerLaws.{goes_on, rests, wider, fits_on};
ghost use Rattle.archive_merge.specs.Needed.{IsNeeded};
ghost use Rattle.archive_merge.specs.Runs.{HoldRun, IsReached, SoFar, nothing_so_far};
ghost use Rattle.archive_merge.specs.Taken.{texts_by};
ghost use Rattle.archive_merge.specs.declared.cause.MergeCause.TheVariants.{SecondDamaged, SecondFault};

use crate::cause::MergeCause;
use crate::file::{Merged, move_file};
use crate::merger::{BookPasses, Merger, Second, Stopped};
use archive_open::SegmentPlace;
use disk_seal::{CachedPasses, LockNamer, Store, Turns};
use ingest_fork::Works;
use log_seams::Disk;
use row_codec::Names;
use std::marker::Brand;
use std::sync::Wait;
use std::sync::ledger::{Blank, Ledger};
use step_count::Steps;
use turn_lock::Pass;

impl<'s, 'b, M: Names, E: Disk> Merger<'s, 'b, M, E> {
    ghost use Rattle.std.specs.Prelude.{◌≡◌, None, Some};
    ghost use Rattle.archive_merge.specs.Merger.{IsIdle, MayName, books_of};
    ghost use Rattle.archive_merge.specs.Taken.{Serves, texts_by};

    /// It moves the files of a second archive, the first of which has this number in the first one.
    /// Takes no memory.
    pub fn new(first: u32, second: Second<'s, M, E>, passes: BookPasses<'b>) -> Merger<'s, 'b, M, E>
        requires may { MayName passes }
        requires serves { Serves (M.version second.names.now)
            (texts_by M.types M.words second.names.now) (books_of passes) second.taker }
        ensures idle { IsIdle M.types M.words M.version result }
        ensures first { result.first ≡ first }
        ensures second { result.second ≡ second.entry }
        ensures passes { result.passes ≡ Some passes.entry }
        ensures stop { result.stop ≡ None }
    {
        Merger {
            first,
            second,
            passes: Some(passes),
            stop: None,
        }
    }

    /// The second archive, the passes, and what stopped it, at its end.
    pub fn into_parts(self) -> (Second<'s, M, E>, BookPasses<'b>, Option<Stopped>)
        ensures second { result.0 ≡ self.entry.second }
        ensures passes { self.entry.passes ≡ Some result.1 }
        ensures stop { result.2 ≡ self.entry.stop }
    {
        let Merger {
            first: _,
            second,
            passes,
            stop,
        } = self;
        let Some(passes) = passes else { unreachable!() };
        (second, passes, stop)
    }
}

/// The segments of the file with this number, where all are sorted by file.
fn segments_of(places: &[SegmentPlace], number: u32) -> &[SegmentPlace]
    ensures these { IsNonDecreasingBy file_at places.now
        → result.now ≡ filter (is_of number) places.now }
    ensures among { (place : SegmentPlace)
        → Contains result.now place → Contains places.now place }
{
    let from = places.partition_point(|place| place.head.file < number);
    let rest = &places[from..];
    let count = rest.partition_point(|place| place.head.file <= number);
    &rest[..count]
}

/// Moves a file with a namer over these passes, whose turns the blanks count.
fn move_with<'b, 'd, M: Names, E: Disk, D: Disk, R: Wait, A: Ledger, B: Ledger, C: Ledger>(
    rt: &R,
    places: &[SegmentPlace],
    second: &mut Second<'_, M, E>,
    passes: BookPasses<'b>,
    keeper: &mut Pass<'_, Store<'d, 'b, D>>,
    file: &mut Merged,
    blanks: (Blank, Blank, Blank),
) -> (BookPasses<'b>, Result<(), MergeCause>)
    requires goes { GoesWith (M.version second.old.names.now)
        (texts_by M.types M.words second.old.names.now) keeper.old passes second.old.taker }
    requires new { IsNewFile D.state file.old keeper.old }
    requires blanks { OpensFor blanks.0 A.name A.parts × (OpensFor blanks.1 B.name B.parts
        × OpensFor blanks.2 C.name C.parts) }

    // what stays, and what is named
    ensures second { StaysRead E.state second.old second.new }
    ensures goes { GoesWith (M.version second.old.names.now)
        (texts_by M.types M.words second.old.names.now) keeper.new result.0 second.new.taker }
    ensures named { PassesAdd (IsNeeded (texts_by M.types M.words second.old.names.now)
        (E.state second.old.disk.now).seen (IsReached (M.version second.old.names.now)
        (texts_by M.types M.words second.old.names.now) places.now
        (E.state second.old.disk.now).seen file.new.messages)) passes.entry result.0 }

    // what became of the file
    ensures came { CameOver D.state (M.version second.old.names.now)
        (texts_by M.types M.words second.old.names.now) places.now
        (E.state second.old.disk.now).seen (is_ok result.1) keeper.old keeper.new
        file.old file.new }

    // causes
    ensures causes { IfErr result.1 (HasMoveCause D.state (M.version second.old.names.now)
        (texts_by M.types M.words second.old.names.now) places.now
        (E.state second.old.disk.now).seen file.new.messages keeper.old keeper.new
        (books_of result.0)) }
    ensures damaged { IsErrOf result.1 SecondDamaged
        → (bytes : List ℕ) (all : SoFar) → (E.state second.old.disk.now).seen ≡ Some bytes
        → All IsFairType (M.types second.old.names.now)
        → All IsFairWord (M.words second.old.names.now)
        → ¬ HoldRun (M.version second.old.names.now)
        (texts_by M.types M.words second.old.names.now) bytes places.now nothing_so_far all }
    ensures disk { CountsOf SecondFault (E.state second.old.disk.now).faults
        (E.state second.new.disk.now).faults result.1 }
{
    let BookPasses { types, words } = passes;
    let (of_types, of_words, of_store) = blanks;
    let turns: Turns<A, B, C> = Turns {
        types: Steps::new(of_types),
        words: Steps::new(of_words),
        store: Steps::new(of_store),
    };
    let version = second.taker.version;
    let mut namer = LockNamer::with_caches(rt, version, types, words, turns);
    let result = move_file(
        rt,
        places,
        second.names,
        &mut second.taker,
        &mut namer,
        &mut *second.disk,
        keeper,
        file,
    );
    let CachedPasses {
        types,
        words,
        turns: _,
    } = namer.into_caches();
    (BookPasses { types, words }, result)
}

impl<'s, 'b, 'k, 'd, M: Names, E: Disk, D: Disk> Works<Merged, Pass<'k, Store<'d, 'b, D>>>
    for Merger<'s, 'b, M, E> {
    ghost ready = { IsIdle M.types M.words M.version };

    ghost fits = { MayMoveFile M.types M.words M.version D.state };

    ghost went = { MovesOn M.types M.words M.version E.state };

    ghost did = { DidFile M.types M.words M.version D.state E.state };

    fn work<R: Wait>(&mut self, rt: &R, job: &mut Merged, keeper: &mut Pass<'k, Store<'d, 'b, D>>) {
        if self.stop.is_some() {
            return;
        }
        let Some(passes) = self.passes.take() else {
            unreachable!()
        };
        let places = segments_of(self.second.segments, job.file - self.first);
        // Nobody reads the counts of its turns.
        let blanks = (Blank::new(1), Blank::new(1), Blank::new(1));
        let second = &mut self.second;
        let (passes, result) = move_with::<_, _, _, _, Brand, Brand, Brand>(
            rt, places, second, passes, keeper, job, blanks,
        );
        let None = self.passes.replace(passes) else {
            unreachable!()
        };
        if let Err(cause) = result {
            self.stop = Some(Stopped {
                file: job.file,
                cause,
            });
        }
    }

    ghost rests = { rests M.types M.words M.version E.state };

    ghost goes_on = { goes_on M.types M.words M.version E.state };

    ghost wider = { wider M.types M.words M.version E.state };

    ghost fits_on = { fits_on M.types M.words M.version E.state D.state };
}
