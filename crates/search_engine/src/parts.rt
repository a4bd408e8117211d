//! Parts of the disk, each with a lane over it: they are lent before a search, and come back behind
//! it.
ghost use Rattle.std.specs.Prelude.{◌≡◌, ◌<◌, ◌≤◌, [], All, List, IfOk};
ghost use Rattle.std.specs.List.{Contains};
ghost use Rattle.log_seams.specs.Disk.{Rests};
ghost use Rattle.log_seams.specs.Outside.{Rose};
ghost use Rattle.archive_places.specs.declared.front.SegmentFront.{SegmentFront};
ghost use Rattle.search_walk.specs.Held.{named};
ghost use Rattle.search_walk.specs.Opened.{ReadsFronts};
ghost use Rattle.search_walk.specs.Ready.{Serves};
ghost use Rattle.search_walk.specs.StepsScope.{IsScope, Scope, scope};
ghost use Rattle.search_engine.specs.Lanes.{IsFresh, IsLane, LaneView};
ghost use Rattle.log_seams.specs.Parts.{Lends};

use crate::lane::Lane;
use archive_places::SegmentFront;
use log_seams::SharedDisk;
use search_walk::LaneScope;
use std::alloc::{AllocError, Global};
use word_places::HeldWords;

/// At most so many lanes, each over a part of the disk and with a share of the words that are held,
/// and without segments: as many as parts can be had.
pub(crate) fn lend_lanes<'q, D: SharedDisk>(
    alloc: Global,
    most: u32,
    lane: LaneScope<'q>,
    first: &'q HeldWords,
    none: &'q [SegmentFront],
    disk: &mut D,
) -> Result<Vec<Lane<'q, D::Part>>, AllocError>
    requires none { none.now ≡ [] }
    requires scope { IsScope (named (D.Disk.state disk.old).seen first.now) lane.query.now
        lane.layouts.now lane.asked.now lane.found.now }
    requires serves { Serves (named (D.Disk.state disk.old).seen first.now) first.now }
    ensures lends { Lends (D.Disk.state disk.old) (D.Disk.state disk.new) }
    ensures fresh { IfOk result (λ v. All (IsFresh D.Part.state) v.items) }
    ensures lanes { IfOk result (λ v. (fronts : List SegmentFront)
        → All (IsLane D.Part.state (D.Disk.state disk.new)
        (scope (named (D.Disk.state disk.old).seen first.now)
        lane.entry.query.now lane.entry.files.now)
        fronts) v.items) }
{
    let mut lanes = Vec::new(alloc);
    for _ in 0..most {
        let Some(part) = disk.part() else {
            return Ok(lanes);
        };
        let held = first.share()?;
        lanes.push(Lane::new(alloc, lane, first, part, held, none))?;
    }
    Ok(lanes)
}

/// Takes the parts of all lanes back.
pub(crate) fn take_back_all<D: SharedDisk>(disk: &mut D, mut lanes: Vec<Lane<'_, D::Part>>)
    ensures rests { Rests (D.Disk.state disk.old) (D.Disk.state disk.new) }
    ensures reads { (s : Scope) (fronts : List SegmentFront)
        → All (IsLane D.Part.state (D.Disk.state disk.old) s fronts) lanes.entry.items
        → ReadsFronts (D.Disk.state disk.old) (D.Disk.state disk.new)
        s.names s.files s.query fronts }
    ensures later { (D.Disk.state disk.old).faults ≤ (D.Disk.state disk.new).faults }
    ensures steady { All (λ l. (D.Part.state l.part).faults ≡ 0) lanes.entry.items
        → (D.Disk.state disk.new).faults ≡ (D.Disk.state disk.old).faults }
    ensures rose { (l : LaneView D.Part) → Contains lanes.entry.items l
        → 0 < (D.Part.state l.part).faults
        → Rose (D.Disk.state disk.old).faults (D.Disk.state disk.new).faults }
{
    while let Some(lane) = lanes.pop() {
        disk.take_back(lane.into_part());
    }
}
