//! Lanes, each in a thread of its own: their parts of the disk and their segments, their run, and
//! the way back of the parts.
ghost use Rattle.std.specs.Prelude.{◌≡◌, ◌<◌, ◌≤◌, ℕ, List, All, length, slice_index_or, IfOk, IsErrOf, IsFalse, IsTrue};
ghost use Rattle.std.specs.List.{Contains};
ghost use Rattle.log_seams.specs.Disk.{Rests};
ghost use Rattle.log_seams.specs.Outside.{Rose};
ghost use Rattle.log_seams.specs.Parts.{IsPart, Lends};
ghost use Rattle.archive_places.specs.declared.front.SegmentFront.{SegmentFront};
ghost use Rattle.search_walk.specs.Held.{named};
ghost use Rattle.search_walk.specs.Opened.{ReadsFronts};
ghost use Rattle.search_walk.specs.Ready.{Serves};
ghost use Rattle.search_walk.specs.StepsScope.{IsScope, Scope, scope};
ghost use Rattle.group_count.specs.StepsLanes.{IsLane, IsLaneRun, IsNewLane, LaneView, fronts_of};
ghost use Rattle.group_count.specs.StepsServed.{IsWay};

use crate::lane::Lane;
use crate::table::RowTable;
use crate::way::Way;
use archive_places::SegmentFront;
use log_seams::{Disk, SharedDisk};
use search_walk::{LaneScope, SearchRefusal};
use std::alloc::{AllocError, Global};
use std::thread::{Threads, for_each_mut};
use word_places::HeldWords;

/// At most so many parts of the disk: as many as can be had.
pub(crate) fn lend_parts<D: SharedDisk>(
    alloc: Global,
    most: u32,
    disk: &mut D,
) -> Result<Vec<D::Part>, AllocError>
    ensures lends { Lends (D.Disk.state disk.old) (D.Disk.state disk.new) }
    ensures few { IfOk result (λ v. length v.items ≤ most) }
    ensures parts { IfOk result
        (λ v. All (λ p. IsPart (D.Disk.state disk.old) (D.Part.state p)) v.items) }
{
    let mut parts = Vec::new(alloc);
    for _ in 0..most {
        let Some(part) = disk.part() else {
            return Ok(parts);
        };
        parts.push(part)?;
    }
    Ok(parts)
}

/// How many rows segments have.
fn rows_of(fronts: &[SegmentFront]) -> u64 {
    let mut rows: u64 = 0;
    for front in fronts {
        rows = rows.saturating_add(u64::from(front.rows));
    }
    rows
}

/// How many of the next segments a lane gets, where so many lanes come behind it: as few as have
/// its share of the rows. The last one gets all.
fn share_of(fronts: &[SegmentFront], behind: usize) -> usize
    ensures within { result ≤ length fronts.now }
    ensures last { behind ≡ 0 → result ≡ length fronts.now }
{
    if behind == 0 {
        return fronts.len();
    }
    let most = rows_of(fronts).div_ceil((behind as u64).saturating_add(1));
    let mut rows: u64 = 0;
    for place in 0..fronts.len() {
        rows = rows.saturating_add(u64::from(fronts[place].rows));
        if rows >= most {
            return place + 1;
        }
    }
    fronts.len()
}

/// A lane over each of these parts of the disk, among which the segments are dealt in order. The
/// disk is there for what is said of it.
pub(crate) fn deal<'q, D: SharedDisk, T: RowTable>(
    alloc: Global,
    lane: LaneScope<'q>,
    way: Way,
    table: &T,
    first: &'q HeldWords,
    lender: &D,
    mut parts: Vec<D::Part>,
    fronts: &'q [SegmentFront],
) -> Result<Vec<Lane<'q, D::Part, T>>, AllocError>
    requires scope { IsScope (named (D.Disk.state lender.now).seen first.now)
        lane.query.now lane.layouts.now lane.asked.now lane.found.now }
    requires serves { Serves (named (D.Disk.state lender.now).seen first.now) first.now }
    requires way { IsWay lane.query.now way }
    requires parts { All (λ p. IsPart (D.Disk.state lender.now) (D.Part.state p)) parts.items }
    ensures lanes { IfOk result (λ v. All (IsNewLane D.Part.state T.counted
        (D.Disk.state lender.now) (scope (named (D.Disk.state lender.now).seen first.now)
        lane.entry.query.now lane.entry.files.now) table.now) v.items) }
    ensures fronts { IfOk result (λ v. 0 < length parts.items
        → fronts_of v.items ≡ fronts.now) }
{
    let _ = lender;
    let mut lanes = Vec::new(alloc);
    let mut rest = fronts;
    while let Some(part) = parts.pop() {
        let (mine, left) = rest.split_at(share_of(rest, parts.len()));
        rest = left;
        lanes.push(Lane::new(alloc, lane, way, table.like(alloc), first, part, mine))?;
    }
    Ok(lanes)
}

/// Runs each lane in a thread of its own, of which the calling thread is one.
pub(crate) fn run_lanes<R: Threads + Sync, P: Disk + Send, T: RowTable + Send>(
    rt: &R,
    lanes: &mut [Lane<'_, P, T>],
)
    ensures len { length lanes.new ≡ length lanes.old }
    ensures run { (k : ℕ) (d : LaneView P T) → k < length lanes.old
        → IsLaneRun P.Disk.state T.RowTable.counted
        (slice_index_or lanes.old k d) (slice_index_or lanes.new k d) }
{
    let threads = lanes.len().max(1);
    for_each_mut(
        rt,
        lanes,
        threads,
        &|_place: usize, lane: &mut Lane<'_, P, T>|
            ensures { IsLaneRun P.Disk.state T.RowTable.counted lane.entry.now lane.exit.now }
        { lane.run() },
    );
}

/// Whether some lane was stopped by a fault of the disk.
pub(crate) fn any_fell<P: Disk, T: RowTable>(lanes: &[Lane<'_, P, T>]) -> bool
    ensures yes { IsTrue result → (l : LaneView P T) × Contains lanes.now l
        × IsErrOf l.answer SearchRefusal.DiskFault }
    ensures no { IsFalse result
        → All (λ l. ¬ IsErrOf l.answer SearchRefusal.DiskFault) lanes.now }
{
    for lane in lanes {
        if lane.fell() {
            return true;
        }
    }
    false
}

/// Takes the parts of all lanes back.
pub(crate) fn take_back_all<D: SharedDisk, T: RowTable>(
    disk: &mut D,
    mut lanes: Vec<Lane<'_, D::Part, T>>,
)
    ensures rests { Rests (D.Disk.state disk.old) (D.Disk.state disk.new) }
    ensures reads { (s : Scope) (fronts : List SegmentFront)
        → All (IsLane D.Part.state (D.Disk.state disk.old) s fronts) lanes.entry.items
        → ReadsFronts (D.Disk.state disk.old) (D.Disk.state disk.new)
        s.names s.files s.query fronts }
    ensures later { (D.Disk.state disk.old).faults ≤ (D.Disk.state disk.new).faults }
    ensures steady { All (λ l. (D.Part.state l.part).faults ≡ 0) lanes.entry.items
        → (D.Disk.state disk.new).faults ≡ (D.Disk.state disk.old).faults }
    ensures rose { (l : LaneView D.Part T) → Contains lanes.entry.items l
        → 0 < (D.Part.state l.part).faults
        → Rose (D.Disk.state disk.old).faults (D.Disk.state disk.new).faults }
{
    while let Some(lane) = lanes.pop() {
        disk.take_back(lane.into_part());
    }
}
