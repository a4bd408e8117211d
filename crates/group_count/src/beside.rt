//! A count over segments by so many workers: by lanes over parts of the disk, or as one worker
//! does.
ghost use Rattle.std.specs.Prelude.{◌≡◌, ◌<◌, ◌≤◌, ◌^◌, All, length, IfOk, OnErr, IsErrOf};
ghost use Rattle.log_seams.specs.Disk.{Rests};
ghost use Rattle.log_seams.specs.Outside.{CountsOf};
ghost use Rattle.word_places.specs.Held.{kept_of};
ghost use Rattle.search_walk.specs.Held.{named};
ghost use Rattle.search_walk.specs.Opened.{NoFronts, ReadsFronts};
ghost use Rattle.search_walk.specs.StepsScope.{IsScope, scope};
ghost use Rattle.search_walk.specs.Walked.{SearchedFronts, StoppedFronts};
ghost use Rattle.group_count.specs.StepsCounted.{Passes, Stops, sofar};
ghost use Rattle.group_count.specs.StepsLanes.{FaultsOf, IsLane, IsNewLane, WentOver, fronts_of};
ghost use Rattle.group_count.specs.StepsServed.{IsServed};

use crate::counts::{Counts, LaneSums};
use crate::joining::{join_lanes, tick_times};
use crate::lane::Lane;
use crate::lanes::{any_fell, deal, lend_parts, run_lanes, take_back_all};
use crate::page_counter::PageCounter;
use crate::page_taking::count_segments;
use crate::table::RowTable;
use archive_places::SegmentFront;
use log_seams::{Disk, SharedDisk};
use search_walk::{Context, LaneScope, SearchRefusal};
use std::sync::ledger::Ledger;
use std::thread::Threads;
use step_count::Steps;
use word_places::HeldWords;

/// The workers of a count.
#[derive(Drop)]
pub struct Workers<'a, R> {
    /// The handle by which threads are made.
    pub rt: &'a R,
    /// How many workers there are. With any number the same is counted.
    pub count: u32,
}

/// The workers of a count, and what they go over.
#[derive(Drop)]
pub(crate) struct Crew<'a, 'q, R, D: Disk> {
    pub(crate) workers: Workers<'a, R>,
    pub(crate) context: &'a Context<'q, D>,
    pub(crate) lane: LaneScope<'q>,
}

/// Lets the lanes count beside one another, and puts together what they have counted, but not after
/// a fault of the disk. The disk is there for what is said of it.
fn count_lanes<R: Threads + Sync, D: Disk, P: Disk + Send, T: RowTable + Send>(
    rt: &R,
    context: &Context<'_, D>,
    lender: &D,
    lanes: &mut [Lane<'_, P, T>],
    counts: &mut Counts<T>,
) -> Result<LaneSums, SearchRefusal>
    requires lanes { All (IsNewLane P.Disk.state T.RowTable.counted (D.state lender.now)
        context.now counts.old.table) lanes.old }

    // the lanes
    ensures lanes { All (IsLane P.Disk.state (D.state lender.now) context.now
        (fronts_of lanes.old)) lanes.new }
    ensures len { length lanes.new ≡ length lanes.old }
    ensures faults { FaultsOf P.Disk.state lanes.new result }

    // what came of it
    ensures done { IfOk result (λ sums. WentOver T.RowTable.counted context.now
        counts.old counts.new sums (fronts_of lanes.old)) }
    ensures damaged { IsErrOf result SearchRefusal.Damaged → NoFronts
        context.now.names.told context.now.names context.now.files (fronts_of lanes.old) }
    ensures sink { ¬ IsErrOf result SearchRefusal.SinkFault }
{
    let _ = lender;
    run_lanes(rt, lanes);
    if any_fell(lanes) {
        return Err(SearchRefusal::DiskFault);
    }
    join_lanes(context, lanes, counts)
}

/// Lets the lanes count, whose parts of the disk come back whatever the answer is.
fn sum_lanes<'q, R: Threads + Sync, D: SharedDisk, T: RowTable + Send>(
    rt: &R,
    context: &Context<'q, D>,
    mut lanes: Vec<Lane<'q, D::Part, T>>,
    disk: &mut D,
    counts: &mut Counts<T>,
) -> Result<LaneSums, SearchRefusal>
    requires lanes { All (IsNewLane D.Part.state T.RowTable.counted (D.Disk.state disk.old)
        context.now counts.old.table) lanes.items }

    // what stays
    ensures rests { Rests (D.Disk.state disk.old) (D.Disk.state disk.new) }
    ensures reads { ReadsFronts (D.Disk.state disk.old) (D.Disk.state disk.new)
        context.now.names context.now.files context.now.query (fronts_of lanes.entry.items) }

    // by the answer
    ensures done { IfOk result (λ sums. WentOver T.RowTable.counted context.now
        counts.old counts.new sums (fronts_of lanes.entry.items)) }

    // causes
    ensures damaged { IsErrOf result SearchRefusal.Damaged → NoFronts context.now.names.told
        context.now.names context.now.files (fronts_of lanes.entry.items) }
    ensures disk_counts { CountsOf SearchRefusal.DiskFault
        (D.Disk.state disk.old).faults (D.Disk.state disk.new).faults result }
    ensures sink { ¬ IsErrOf result SearchRefusal.SinkFault }
{
    let answer = count_lanes(rt, context, &*disk, lanes.as_mut_slice(), counts);
    take_back_all(disk, lanes);
    answer
}

/// Counts the messages of segments by lanes to which they were dealt. Nothing is ticked if it is a
/// refusal.
fn count_lent<'q, R: Threads + Sync, D: SharedDisk, T: RowTable + Send, L: Ledger, M: Ledger>(
    rt: &R,
    context: &Context<'q, D>,
    lanes: Vec<Lane<'q, D::Part, T>>,
    disk: &mut D,
    counts: &mut Counts<T>,
    opened: &mut Steps<L>,
    expanded: &mut Steps<M>,
) -> Result<u64, SearchRefusal>
    requires told { (D.Disk.state disk.old).seen ≡ context.now.names.told }
    requires few { length (fronts_of lanes.items) ≤ 2 ^ 31 }
    requires lanes { All (IsNewLane D.Part.state T.RowTable.counted (D.Disk.state disk.old)
        context.now counts.old.table) lanes.items }

    // what stays
    ensures rests { Rests (D.Disk.state disk.old) (D.Disk.state disk.new) }
    ensures reads { ReadsFronts (D.Disk.state disk.old) (D.Disk.state disk.new)
        context.now.names context.now.files context.now.query (fronts_of lanes.entry.items) }

    // by the answer
    ensures done { IfOk result (λ count. SearchedFronts
        (λ all. Passes T.RowTable.counted context.now.names context.now.query all
        (sofar counts.old expanded.old) (sofar counts.new expanded.new))
        (D.Disk.state disk.old).seen context.now.names context.now.files context.now.query
        (fronts_of lanes.entry.items) opened.old opened.new count) }
    ensures stopped { OnErr result (StoppedFronts
        (λ all. Stops context.now.names.version context.now.query all expanded.old expanded.new)
        (D.Disk.state disk.old).seen context.now.names context.now.files context.now.query
        (fronts_of lanes.entry.items) opened.old opened.new) }

    // causes
    ensures damaged { IsErrOf result SearchRefusal.Damaged → NoFronts (D.Disk.state disk.old).seen
        context.now.names context.now.files (fronts_of lanes.entry.items) }
    ensures disk_counts { CountsOf SearchRefusal.DiskFault
        (D.Disk.state disk.old).faults (D.Disk.state disk.new).faults result }
    ensures sink { ¬ IsErrOf result SearchRefusal.SinkFault }
{
    let sums = sum_lanes(rt, context, lanes, disk, counts)?;
    tick_times(sums.opened, opened);
    tick_times(sums.expanded, expanded);
    Ok(sums.opened)
}

/// Among how many segments lanes can be put together. More are gone over as by one worker.
const MOST_SEGMENTS: usize = 1 << 31;

/// How many lanes so many workers are. One worker needs none, and no segment has two.
fn lanes_for(workers: u32, segments: usize) -> u32
    ensures { 0 < result → segments ≤ 2 ^ 31 }
{
    if workers < 2 || segments < 2 || segments > MOST_SEGMENTS {
        return 0;
    }
    workers.min(segments as u32)
}

/// Counts the messages of segments, and answers how many of these were opened. With several
/// workers, and where the disk has parts, each counts by itself; else it is the count of one.
pub(crate) fn count_fronts<
    R: Threads + Sync,
    D: SharedDisk,
    T: RowTable + Send,
    L: Ledger,
    M: Ledger,
>(
    crew: &Crew<'_, '_, R, D>,
    held: &mut HeldWords,
    fronts: &[SegmentFront],
    disk: &mut D,
    counter: &mut PageCounter<T>,
    opened: &mut Steps<L>,
    expanded: &mut Steps<M>,
) -> Result<u64, SearchRefusal>
    requires served { IsServed crew.now.context.now held.old counter.old.way }
    requires scope { IsScope (named (D.Disk.state disk.old).seen held.old)
        crew.now.lane.query.now crew.now.lane.layouts.now
        crew.now.lane.asked.now crew.now.lane.found.now }
    requires is { crew.now.context.now ≡ scope (named (D.Disk.state disk.old).seen held.old)
        crew.now.lane.query.now crew.now.lane.files.now }

    // what stays
    ensures rests { Rests (D.Disk.state disk.old) (D.Disk.state disk.new) }
    ensures reads { ReadsFronts (D.Disk.state disk.old) (D.Disk.state disk.new)
        crew.now.context.now.names crew.now.context.now.files
        crew.now.context.now.query fronts.now }
    ensures kept { IfOk result (λ _. kept_of held.new ≡ crew.now.context.now.names.kept) }

    // by the answer
    ensures done { IfOk result (λ count. SearchedFronts
        (λ all. Passes T.RowTable.counted crew.now.context.now.names crew.now.context.now.query all
        (sofar counter.old.counts expanded.old) (sofar counter.new.counts expanded.new))
        (D.Disk.state disk.old).seen crew.now.context.now.names crew.now.context.now.files
        crew.now.context.now.query fronts.now opened.old opened.new count) }
    ensures stopped { OnErr result (StoppedFronts
        (λ all. Stops crew.now.context.now.names.version crew.now.context.now.query all
        expanded.old expanded.new)
        (D.Disk.state disk.old).seen crew.now.context.now.names crew.now.context.now.files
        crew.now.context.now.query fronts.now opened.old opened.new) }

    // causes
    ensures damaged { IsErrOf result SearchRefusal.Damaged → NoFronts (D.Disk.state disk.old).seen
        crew.now.context.now.names crew.now.context.now.files fronts.now }
    ensures disk_counts { CountsOf SearchRefusal.DiskFault
        (D.Disk.state disk.old).faults (D.Disk.state disk.new).faults result }
    ensures sink { ¬ IsErrOf result SearchRefusal.SinkFault }
{
    let alloc = counter.alloc();
    let most = lanes_for(crew.workers.count, fronts.len());
    let parts = lend_parts(alloc, most, disk)?;
    // One lane alone would only do what the count of one worker does.
    if parts.len() > 1 {
        let lanes = deal(
            alloc,
            crew.lane,
            counter.way(),
            &counter.counts.table,
            &*held,
            &*disk,
            parts,
            fronts,
        )?;
        return count_lent(
            crew.workers.rt,
            crew.context,
            lanes,
            disk,
            &mut counter.counts,
            opened,
            expanded,
        );
    }
    drop(parts);
    count_segments(crew.context, held, fronts, disk, counter, opened, expanded)
}
