//! A search by lanes, in turns: the lanes run beside one another, and then what they left is sent
//! on in order.
ghost use Rattle.std.specs.Prelude.{◌≡◌, ◌<◌, ◌≤◌, ◌++◌, ◌^◌, [], ℕ, List, Option, All, length, IfOk, OnOk, OnErr, IsErrOf};
ghost use Rattle.log_seams.specs.Outside.{CountsOf};
ghost use Rattle.search_walk.specs.Opened.{NoFronts};
ghost use Rattle.search_walk.specs.Ready.{Serves};
ghost use Rattle.search_walk.specs.StepsScope.{Scope};
ghost use Rattle.archive_places.specs.declared.front.SegmentFront.{SegmentFront};
ghost use Rattle.search_engine.specs.Lanes.{FaultsOf, IsFresh, IsLane, IsLaneWorked, IsTurn, IsWell, fronts_of};
ghost use Rattle.search_engine.specs.SegmentsDone.{SearchedFronts, StoppedFronts, WentOverFronts};
ghost use Rattle.search_engine.specs.Waiting.{state};

use crate::gathering::tick_times;
use crate::lane::Lane;
use crate::lanes::{any_fell, deal, run_lanes, share_all};
use crate::page_batch::PageBatch;
use archive_places::SegmentFront;
use log_seams::{Disk, Sink};
use search_walk::SearchRefusal;
use std::sync::ledger::Ledger;
use std::thread::Threads;
use step_count::Steps;
use word_places::HeldWords;

/// How many rows a lane searches in a turn at most, but for a segment that has more.
const MOST_ROWS: u64 = 65_536;

/// Sends on what a lane left, and answers how many segments it opened.
fn gather_lane<P: Disk, K: Sink, L: Ledger, M: Ledger>(
    lane: &Lane<'_, P>,
    out: &mut K,
    batch: &mut PageBatch,
    opened: &mut Steps<L>,
    expanded: &mut Steps<M>,
) -> Result<u64, SearchRefusal>
    requires empty { batch.old.pages ≡ [] }
    requires stood { ¬ IsErrOf lane.now.left.answer SearchRefusal.DiskFault }

    // by the answer
    ensures done { IfOk result (λ count. (seen : Option (List ℕ)) (s : Scope)
        → IsLaneWorked seen s lane.now
        → SearchedFronts seen s.names s.files s.query lane.now.fronts
        (state (K.written out.old) batch.old expanded.old)
        (state (K.written out.new) batch.new expanded.new) opened.old opened.new count) }
    ensures most { IfOk result (λ count. count ≤ length lane.now.fronts) }
    ensures well { OnOk result (IsWell lane.now) }
    ensures empty { OnOk result (batch.new.pages ≡ []) }
    ensures stopped { OnErr result ((seen : Option (List ℕ)) (s : Scope)
        → IsLaneWorked seen s lane.now
        → StoppedFronts seen s.names s.files s.query lane.now.fronts
        (state (K.written out.old) batch.old expanded.old)
        (K.written out.new) expanded.new opened.old opened.new) }

    // causes
    ensures damaged { IsErrOf result SearchRefusal.Damaged → (seen : Option (List ℕ)) (s : Scope)
        → IsLaneWorked seen s lane.now → NoFronts seen s.names s.files lane.now.fronts }
    ensures disk { ¬ IsErrOf result SearchRefusal.DiskFault }
    ensures sink_counts { CountsOf SearchRefusal.SinkFault
        (K.faults out.old) (K.faults out.new) result }
{
    match lane.answer() {
        Ok(()) => {
            batch.take_left(lane.text(), lane.counts(), out, expanded)?;
            tick_times(lane.opened(), opened);
            Ok(lane.opened())
        }
        Err(refusal) => {
            batch.send_left(lane.text(), out)?;
            Err(refusal)
        }
    }
}

/// Sends on what lanes left, in order, up to the first that did not go through.
fn gather_lanes<P: Disk, K: Sink, L: Ledger, M: Ledger>(
    lanes: &[Lane<'_, P>],
    out: &mut K,
    batch: &mut PageBatch,
    opened: &mut Steps<L>,
    expanded: &mut Steps<M>,
) -> Result<u64, SearchRefusal>
    requires empty { batch.old.pages ≡ [] }
    requires stood { All (λ l. ¬ IsErrOf l.left.answer SearchRefusal.DiskFault) lanes.now }
    requires few { length (fronts_of lanes.now) < 2 ^ 64 }

    // by the answer
    ensures done { IfOk result (λ count. (seen : Option (List ℕ)) (s : Scope)
        → All (IsLaneWorked seen s) lanes.now
        → SearchedFronts seen s.names s.files s.query (fronts_of lanes.now)
        (state (K.written out.old) batch.old expanded.old)
        (state (K.written out.new) batch.new expanded.new) opened.old opened.new count) }
    ensures most { IfOk result (λ count. count ≤ length (fronts_of lanes.now)) }
    ensures well { OnOk result (All IsWell lanes.now) }
    ensures empty { OnOk result (batch.new.pages ≡ []) }
    ensures stopped { OnErr result ((seen : Option (List ℕ)) (s : Scope)
        → All (IsLaneWorked seen s) lanes.now
        → StoppedFronts seen s.names s.files s.query (fronts_of lanes.now)
        (state (K.written out.old) batch.old expanded.old)
        (K.written out.new) expanded.new opened.old opened.new) }

    // causes
    ensures damaged { IsErrOf result SearchRefusal.Damaged → (seen : Option (List ℕ)) (s : Scope)
        → All (IsLaneWorked seen s) lanes.now
        → NoFronts seen s.names s.files (fronts_of lanes.now) }
    ensures disk { ¬ IsErrOf result SearchRefusal.DiskFault }
    ensures sink_counts { CountsOf SearchRefusal.SinkFault
        (K.faults out.old) (K.faults out.new) result }
{
    let mut count = 0;
    for lane in lanes {
        count += gather_lane(lane, out, batch, opened, expanded)?;
    }
    Ok(count)
}

/// How many rows each lane has in a turn: its share, where all segments are few.
fn rows_each(fronts: &[SegmentFront], lanes: usize) -> u64 {
    let mut rows: u64 = 0;
    for front in fronts {
        rows = rows.saturating_add(u64::from(front.rows));
    }
    rows.div_ceil(lanes.max(1) as u64).clamp(1, MOST_ROWS)
}

/// A turn: the lanes search the next segments, and what they left is sent on, but not after a fault
/// of the disk. Answers the segments that are left, and how many were opened.
fn run_turn<'q, R: Threads + Sync, D: Disk, P: Disk + Send, K: Sink, L: Ledger, M: Ledger>(
    rt: &R,
    lender: &D,
    lanes: &mut [Lane<'q, P>],
    fronts: &'q [SegmentFront],
    out: &mut K,
    batch: &mut PageBatch,
    opened: &mut Steps<L>,
    expanded: &mut Steps<M>,
) -> Result<(&'q [SegmentFront], u64), SearchRefusal>
    requires empty { batch.old.pages ≡ [] }
    requires some { (0 < length lanes.old) × (0 < length fronts.now) }
    requires fresh { All (IsFresh P.Disk.state) lanes.old }

    // the lanes
    ensures lanes { (s : Scope) (gone : List SegmentFront)
        → All (IsLane P.Disk.state (D.state lender.now) s (gone ++ fronts.now)) lanes.old
        → All (IsLane P.Disk.state (D.state lender.now) s (gone ++ fronts.now)) lanes.new }
    ensures fresh { OnOk result (All (IsFresh P.Disk.state) lanes.new) }
    ensures len { length lanes.new ≡ length lanes.old }
    ensures faults { FaultsOf P.Disk.state lanes.new result }

    // by the answer
    ensures done { IfOk result (λ r. IsTurn fronts.now r.0.now r.1
        (λ chunk. (s : Scope) (gone : List SegmentFront)
        → All (IsLane P.Disk.state (D.state lender.now) s (gone ++ fronts.now)) lanes.old
        → SearchedFronts (D.state lender.now).seen s.names s.files s.query chunk
        (state (K.written out.old) batch.old expanded.old)
        (state (K.written out.new) batch.new expanded.new) opened.old opened.new r.1)) }
    ensures empty { OnOk result (batch.new.pages ≡ []) }
    ensures stopped { OnErr result ((s : Scope) (gone : List SegmentFront)
        → All (IsLane P.Disk.state (D.state lender.now) s (gone ++ fronts.now)) lanes.old
        → StoppedFronts (D.state lender.now).seen s.names s.files s.query fronts.now
        (state (K.written out.old) batch.old expanded.old)
        (K.written out.new) expanded.new opened.old opened.new) }

    // causes
    ensures damaged { IsErrOf result SearchRefusal.Damaged
        → (s : Scope) (gone : List SegmentFront)
        → All (IsLane P.Disk.state (D.state lender.now) s (gone ++ fronts.now)) lanes.old
        → NoFronts (D.state lender.now).seen s.names s.files fronts.now }
    ensures sink_counts { CountsOf SearchRefusal.SinkFault
        (K.faults out.old) (K.faults out.new) result }
{
    // The disk is there for what is said of it.
    let _ = lender;
    let most = rows_each(fronts, lanes.len());
    let left = deal(lanes, fronts, most);
    run_lanes(rt, lanes);
    if any_fell(lanes) {
        return Err(SearchRefusal::DiskFault);
    }
    let count = gather_lanes(lanes, out, batch, opened, expanded)?;
    Ok((left, count))
}

/// Searches the segments by lanes, in turns, and answers how many were opened. Between the turns
/// the lanes share the words that they have read.
pub(crate) fn search_turns<
    'q,
    R: Threads + Sync,
    D: Disk,
    P: Disk + Send,
    K: Sink,
    L: Ledger,
    M: Ledger,
>(
    rt: &R,
    lender: &D,
    lanes: &mut [Lane<'q, P>],
    all: &mut HeldWords,
    fronts: &'q [SegmentFront],
    out: &mut K,
    batch: &mut PageBatch,
    opened: &mut Steps<L>,
    expanded: &mut Steps<M>,
) -> Result<u64, SearchRefusal>
    requires empty { batch.old.pages ≡ [] }
    requires some { 0 < length lanes.old }
    requires fresh { All (IsFresh P.Disk.state) lanes.old }
    requires lanes { (s : Scope) × Serves s.names all.old
        × All (IsLane P.Disk.state (D.state lender.now) s fronts.now) lanes.old }

    // the lanes
    ensures lanes { (s : Scope)
        → All (IsLane P.Disk.state (D.state lender.now) s fronts.now) lanes.old
        → All (IsLane P.Disk.state (D.state lender.now) s fronts.now) lanes.new }
    ensures len { length lanes.new ≡ length lanes.old }
    ensures faults { FaultsOf P.Disk.state lanes.new result }

    // what came of it
    ensures searched { (s : Scope)
        → All (IsLane P.Disk.state (D.state lender.now) s fronts.now) lanes.old
        → WentOverFronts (D.state lender.now).seen s fronts.now
        (state (K.written out.old) batch.old expanded.old)
        (state (K.written out.new) batch.new expanded.new) opened.old opened.new result }
    ensures empty { OnOk result (batch.new.pages ≡ []) }
    ensures sink_counts { CountsOf SearchRefusal.SinkFault
        (K.faults out.old) (K.faults out.new) result }
{
    let mut left = fronts;
    let mut count = 0;
    while !left.is_empty() {
        share_all(lanes, all);
        let (later, more) = run_turn(rt, lender, lanes, left, out, batch, opened, expanded)?;
        left = later;
        count += more;
    }
    Ok(count)
}
