//! A search of segments by so many workers: by lanes over parts of the disk, or as one worker does.
ghost use Rattle.std.specs.Prelude.{◌≡◌, ◌<◌, [], All, length, IfOk, OnErr, IsErrOf};
ghost use Rattle.log_seams.specs.Disk.{Rests};
ghost use Rattle.log_seams.specs.Outside.{CountsOf};
ghost use Rattle.search_walk.specs.Held.{named};
ghost use Rattle.search_walk.specs.Opened.{NoFronts, ReadsFronts};
ghost use Rattle.search_walk.specs.Ready.{Serves};
ghost use Rattle.search_walk.specs.StepsScope.{IsScope, Scope, scope};
ghost use Rattle.search_engine.specs.Lanes.{IsFresh, IsLane};
ghost use Rattle.search_engine.specs.Over.{IsServedOver};
ghost use Rattle.search_engine.specs.SegmentsDone.{SearchedFronts, StoppedFronts, WentOverFronts};
ghost use Rattle.search_engine.specs.Waiting.{state};

use crate::lane::Lane;
use crate::page_batch::PageBatch;
use crate::page_taking::print_segments;
use crate::parts::{lend_lanes, take_back_all};
use crate::turns::search_turns;
use archive_open::FileEntry;
use archive_places::SegmentFront;
use log_seams::{Disk, SharedDisk, Sink};
use search_walk::{Context, LaneScope, SearchRefusal};
use std::sync::ledger::Ledger;
use std::thread::Threads;
use step_count::Steps;
use word_places::HeldWords;

/// The handle by which threads are made, and how many workers a search has.
#[derive(Drop)]
pub(crate) struct Workers<'a, R> {
    pub(crate) rt: &'a R,
    pub(crate) count: u32,
}

/// The workers of a search, and what they go over.
#[derive(Drop)]
pub(crate) struct Crew<'a, 'q, R, D: Disk> {
    pub(crate) workers: Workers<'a, R>,
    pub(crate) context: &'a Context<'q, D>,
    pub(crate) lane: LaneScope<'q>,
}

/// Searches the segments by these lanes, whose parts of the disk come back whatever the answer is.
fn search_lent<'q, R: Threads + Sync, D: SharedDisk, K: Sink, L: Ledger, M: Ledger>(
    rt: &R,
    mut lanes: Vec<Lane<'q, D::Part>>,
    mut all: HeldWords,
    fronts: &'q [SegmentFront],
    disk: &mut D,
    out: &mut K,
    batch: &mut PageBatch,
    opened: &mut Steps<L>,
    expanded: &mut Steps<M>,
) -> Result<u64, SearchRefusal>
    requires empty { batch.old.pages ≡ [] }
    requires some { 0 < length lanes.items }
    requires fresh { All (IsFresh D.Part.state) lanes.items }
    requires lanes { (s : Scope) × Serves s.names all
        × All (IsLane D.Part.state (D.Disk.state disk.old) s fronts.now) lanes.items }

    // what stays
    ensures rests { Rests (D.Disk.state disk.old) (D.Disk.state disk.new) }
    ensures reads { (s : Scope)
        → All (IsLane D.Part.state (D.Disk.state disk.old) s fronts.now) lanes.entry.items
        → ReadsFronts (D.Disk.state disk.old) (D.Disk.state disk.new)
        s.names s.files s.query fronts.now }

    // what came of it
    ensures searched { (s : Scope)
        → All (IsLane D.Part.state (D.Disk.state disk.old) s fronts.now) lanes.entry.items
        → WentOverFronts (D.Disk.state disk.old).seen s fronts.now
        (state (K.written out.old) batch.old expanded.old)
        (state (K.written out.new) batch.new expanded.new) opened.old opened.new result }
    ensures empty { IfOk result (λ _. batch.new.pages ≡ []) }

    // causes
    ensures disk_counts { CountsOf SearchRefusal.DiskFault
        (D.Disk.state disk.old).faults (D.Disk.state disk.new).faults result }
    ensures sink_counts { CountsOf SearchRefusal.SinkFault
        (K.faults out.old) (K.faults out.new) result }
{
    let answer = search_turns(
        rt,
        &*disk,
        lanes.as_mut_slice(),
        &mut all,
        fronts,
        out,
        batch,
        opened,
        expanded,
    );
    take_back_all(disk, lanes);
    answer
}

/// How long the names of files may be, in bytes, with all lanes together. A lane holds the lines of
/// some 65,536 rows, so that the names in the lines of all lanes take some 64 MiB at most.
const NAME_BYTES: usize = 1_024;

/// How many bytes the longest name of a file has.
fn longest_name(files: &[FileEntry]) -> usize {
    let mut longest = 0;
    for file in files {
        longest = file.name.as_slice().len().max(longest);
    }
    longest
}

/// How many lanes so many workers are. One worker needs none, and no segment has two. They are
/// fewer where a file has a long name, as a lane holds its lines until its turn ends.
fn lanes_for(workers: u32, segments: usize, files: &[FileEntry]) -> u32 {
    if workers < 2 || segments < 2 {
        return 0;
    }
    match u32::try_from(NAME_BYTES / longest_name(files).max(1)) {
        Ok(most) => workers.min(most),
        Err(_) => workers,
    }
}

/// Searches the segments in their order, and answers how many were opened. With several workers,
/// and where the disk has parts, each works by itself; else it is the search of one.
pub(crate) fn search_fronts<R: Threads + Sync, D: SharedDisk, K: Sink, L: Ledger, M: Ledger>(
    crew: &Crew<'_, '_, R, D>,
    held: &mut HeldWords,
    fronts: &[SegmentFront],
    disk: &mut D,
    out: &mut K,
    batch: &mut PageBatch,
    opened: &mut Steps<L>,
    expanded: &mut Steps<M>,
) -> Result<u64, SearchRefusal>
    requires served { IsServedOver crew.now.context.now held.old batch.old.pages }
    requires empty { batch.old.pages ≡ [] }
    requires scope { IsScope (named (D.Disk.state disk.old).seen held.old)
        crew.now.lane.query.now crew.now.lane.layouts.now
        crew.now.lane.asked.now crew.now.lane.found.now }
    requires is { crew.now.context.now ≡ scope (named (D.Disk.state disk.old).seen held.old)
        crew.now.lane.query.now crew.now.lane.files.now }

    // what stays
    ensures rests { Rests (D.Disk.state disk.old) (D.Disk.state disk.new) }
    ensures reads { ReadsFronts (D.Disk.state disk.old) (D.Disk.state disk.new)
        crew.now.context.now.names crew.now.context.now.files
        crew.now.context.now.query fronts.now }
    ensures served { IfOk result (λ _. IsServedOver crew.now.context.now held.new batch.new.pages) }

    // by the answer
    ensures done { IfOk result (λ count. SearchedFronts (D.Disk.state disk.old).seen
        crew.now.context.now.names crew.now.context.now.files crew.now.context.now.query fronts.now
        (state (K.written out.old) batch.old expanded.old)
        (state (K.written out.new) batch.new expanded.new)
        opened.old opened.new count) }
    ensures stopped { OnErr result (StoppedFronts (D.Disk.state disk.old).seen
        crew.now.context.now.names crew.now.context.now.files crew.now.context.now.query fronts.now
        (state (K.written out.old) batch.old expanded.old)
        (K.written out.new) expanded.new opened.old opened.new) }

    // causes
    ensures damaged { IsErrOf result SearchRefusal.Damaged → NoFronts
        (D.Disk.state disk.old).seen crew.now.context.now.names
        crew.now.context.now.files fronts.now }
    ensures disk_counts { CountsOf SearchRefusal.DiskFault
        (D.Disk.state disk.old).faults (D.Disk.state disk.new).faults result }
    ensures sink_counts { CountsOf SearchRefusal.SinkFault
        (K.faults out.old) (K.faults out.new) result }
{
    let (none, _) = fronts.split_at(0);
    let most = lanes_for(crew.workers.count, fronts.len(), crew.lane.files);
    let lanes = lend_lanes(batch.alloc(), most, crew.lane, &*held, none, disk)?;
    // One lane alone would only gather what the search of one worker sends at once.
    if lanes.len() > 1 {
        let all = held.share()?;
        return search_lent(
            crew.workers.rt,
            lanes,
            all,
            fronts,
            disk,
            out,
            batch,
            opened,
            expanded,
        );
    }
    drop(lanes);
    print_segments(
        crew.context,
        held,
        fronts,
        disk,
        out,
        batch,
        opened,
        expanded,
    )
}
