//! Lanes, each in a thread of its own: their segments, their run, and what they left.
ghost use Rattle.std.specs.Prelude.{◌≡◌, ◌<◌, ◌≤◌, ◌++◌, ℕ, All, length, slice_index_or, IsErrOf, IsFalse, IsTrue};
ghost use Rattle.std.specs.List.{Contains};
ghost use Rattle.search_walk.specs.Held.{Named};
ghost use Rattle.search_walk.specs.Ready.{Serves};
ghost use Rattle.search_engine.specs.Lanes.{HaveNames, IsLaneRun, IsWell, LaneView, ServesLanes, fronts_of, given};

use crate::lane::Lane;
use archive_places::SegmentFront;
use log_seams::Disk;
use search_walk::SearchRefusal;
use std::thread::{Threads, for_each_mut};
use word_places::HeldWords;

/// How many segments a lane has in a turn at most.
const MOST_SEGMENTS: usize = 65_536;

/// How many of the next segments a lane takes: as few as have so many rows, or all.
fn share_of(fronts: &[SegmentFront], most: u64) -> usize
    ensures some { 0 < length fronts.now → 0 < result }
    ensures within { result ≤ length fronts.now }
    ensures few { result ≤ 65536 }
{
    let count = fronts.len().min(MOST_SEGMENTS);
    let mut rows: u64 = 0;
    for place in 0..count {
        rows = rows.saturating_add(u64::from(fronts[place].rows));
        if rows >= most {
            return place + 1;
        }
    }
    count
}

/// Gives the lanes the next segments for a turn, in order, and answers those that are left.
pub(crate) fn deal<'q, P: Disk>(
    lanes: &mut [Lane<'q, P>],
    fronts: &'q [SegmentFront],
    most: u64,
) -> &'q [SegmentFront]
    ensures rest { fronts.now ≡ fronts_of lanes.new ++ result.now }
    ensures less { 0 < length lanes.old → 0 < length fronts.now
        → length result.now < length fronts.now }
    ensures len { length lanes.new ≡ length lanes.old }
    ensures kept { (k : ℕ) (d : LaneView P) → k < length lanes.old
        → slice_index_or lanes.new k d
        ≡ given (slice_index_or lanes.old k d) (slice_index_or lanes.new k d).fronts }
{
    let mut rest = fronts;
    for lane in lanes.iter_mut() {
        let (mine, left) = rest.split_at(share_of(rest, most));
        lane.set_fronts(mine);
        rest = left;
    }
    rest
}

/// Runs each lane in a thread of its own, of which the calling thread is one.
pub(crate) fn run_lanes<R: Threads + Sync, P: Disk + Send>(rt: &R, lanes: &mut [Lane<'_, P>])
    ensures len { length lanes.new ≡ length lanes.old }
    ensures run { (k : ℕ) (d : LaneView P) → k < length lanes.old
        → IsWell (slice_index_or lanes.old k d) → IsLaneRun P.Disk.state
        (slice_index_or lanes.old k d) (slice_index_or lanes.new k d) }
{
    let threads = lanes.len().max(1);
    for_each_mut(
        rt,
        lanes,
        threads,
        &|_place: usize, lane: &mut Lane<'_, P>|
            ensures { IsWell lane.entry.now
                → IsLaneRun P.Disk.state lane.entry.now lane.exit.now }
        { lane.run() },
    );
}

/// Whether some lane was stopped by a fault of the disk.
pub(crate) fn any_fell<P: Disk>(lanes: &[Lane<'_, P>]) -> bool
    ensures yes { IsTrue result → (l : LaneView P) × Contains lanes.now l
        × IsErrOf l.left.answer SearchRefusal.DiskFault }
    ensures no { IsFalse result
        → All (λ l. ¬ IsErrOf l.left.answer SearchRefusal.DiskFault) lanes.now }
{
    for lane in lanes {
        if lane.answer() == Err(SearchRefusal::DiskFault) {
            return true;
        }
    }
    false
}

/// Lets each lane go on with the words that all had and those that the lanes before it have read.
fn pass_words<P: Disk>(lanes: &mut [Lane<'_, P>], all: &mut HeldWords)
    requires well { All IsWell lanes.old }
    requires serves { ServesLanes P.state all.old lanes.old }
    ensures kept { lanes.new ≡ lanes.old }
    ensures serves { (n : Named) → HaveNames P.state n lanes.old
        → Serves n all.old → Serves n all.new }
{
    for lane in lanes.iter_mut() {
        lane.share_words(all);
    }
}

/// Lets each lane have the words that all lanes have read.
pub(crate) fn share_all<P: Disk>(lanes: &mut [Lane<'_, P>], all: &mut HeldWords)
    requires well { All IsWell lanes.old }
    requires serves { ServesLanes P.state all.old lanes.old }
    ensures kept { lanes.new ≡ lanes.old }
    ensures serves { (n : Named) → HaveNames P.state n lanes.old
        → Serves n all.old → Serves n all.new }
{
    // What the later lanes have read the first ones get when it is passed on once more.
    pass_words(lanes, all);
    pass_words(lanes, all);
}
