//! The segments of an archive, gone over one after the other.
ghost use Rattle.std.specs.Prelude.{◌≡◌, ◌<◌, [], ◌∷◌, length, slice_get, Some, IfOk, OnErr, IsErrOf, cond};
ghost use Rattle.log_seams.specs.Disk.{Rests};
ghost use Rattle.log_seams.specs.Outside.{CountsOf};
ghost use Rattle.search_walk.specs.Loaded.{OfLoaded};
ghost use Rattle.search_walk.specs.Opened.{NoFronts, NoneTold, ReadsFronts, ReadsTold};
ghost use Rattle.search_walk.specs.Walked.{SearchedFronts, SearchedTold, StoppedFronts, StoppedTold};

use crate::context::Context;
use crate::label::Label;
use crate::loaded::{LoadedSegment, load_head};
use crate::paging::read_pages;
use crate::passing::TypeRoom;
use crate::refusal::SearchRefusal;
use crate::taking::TakesPages;
use archive_places::SegmentFront;
use log_seams::Disk;
use query_plan::wide_is_wider;
use std::alloc::Global;
use std::sync::ledger::Ledger;
use step_count::Steps;
use subquery_filter::barren_has_no_match;
use word_places::HeldWords;

/// Searches a segment whose head is loaded, and tells whether it was opened: a barren one is not.
/// Where it cannot be opened, what was taken before it is finished first.
fn search_segment<D: Disk, W: TakesPages, L: Ledger>(
    context: &Context<'_, D>,
    held: &mut HeldWords,
    segment: &LoadedSegment,
    disk: &mut D,
    work: &mut W,
    room: &mut TypeRoom,
    opened: &mut Steps<L>,
) -> Result<bool, SearchRefusal>
    requires served { W.served work.old context.now held.old }
    requires told { (D.state disk.old).seen ≡ context.now.names.told }

    // what stays
    ensures rests { Rests (D.state disk.old) (D.state disk.new) }
    ensures reads { OfLoaded context.now.query segment.now (λ p. ReadsTold
        (D.state disk.old) (D.state disk.new)
        context.now.names context.now.files context.now.query (p ∷ [])) }
    ensures lent { W.lent work.new ≡ W.lent work.old }
    ensures served { IfOk result (λ _. W.served work.new context.now held.new) }

    // by the answer
    ensures done { IfOk result (λ yes. OfLoaded context.now.query segment.now (λ p. SearchedTold
        (W.reaches work.old work.new context.now.names context.now.query) (D.state disk.old).seen
        context.now.names context.now.files context.now.query (p ∷ [])
        opened.old opened.new (cond yes 1 0))) }
    ensures stopped { OnErr result (OfLoaded context.now.query segment.now (λ p. StoppedTold
        (W.halts work.old work.new context.now.names context.now.query) (D.state disk.old).seen
        context.now.names context.now.files context.now.query (p ∷ [])
        opened.old opened.new)) }

    // causes
    ensures damaged { IsErrOf result SearchRefusal.Damaged → W.stands work.old context.now.names
        → OfLoaded context.now.query segment.now (λ p. NoneTold (D.state disk.old).seen
        context.now.names context.now.files (p ∷ [])) }
    ensures disk_counts { CountsOf SearchRefusal.DiskFault
        (D.state disk.old).faults (D.state disk.new).faults result }
    ensures sink_counts { CountsOf SearchRefusal.SinkFault
        (W.sink_faults work.old) (W.sink_faults work.new) result }
{
    // A barren segment has no message in the range that the pattern which the search is planned
    // over matches; and what the pattern matches, that one matches too.
    barren_has_no_match();
    wide_is_wider();
    if context.is_barren(segment) {
        return Ok(false);
    }
    let Some((file, pages)) = context.begin_segment(segment, opened) else {
        work.finish(context, held)?;
        return Err(SearchRefusal::Damaged);
    };
    if !context.may_match(segment) {
        return Ok(true);
    }
    let name = file.name.as_slice();
    let number = segment.place.head.first + 1;
    let label = Label { name, number };
    read_pages(context, held, label, pages, disk, work, room)?;
    Ok(true)
}

/// Searches a segment by its front, and tells whether it was opened. One that is out of the range
/// is not read; of any other the head is loaded. Where that cannot be done, what was taken before
/// it is finished first, but not after a fault of the disk.
fn visit_segment<D: Disk, W: TakesPages, L: Ledger>(
    alloc: Global,
    context: &Context<'_, D>,
    held: &mut HeldWords,
    front: &SegmentFront,
    disk: &mut D,
    work: &mut W,
    room: &mut TypeRoom,
    opened: &mut Steps<L>,
) -> Result<bool, SearchRefusal>
    requires served { W.served work.old context.now held.old }
    requires told { (D.state disk.old).seen ≡ context.now.names.told }

    // what stays
    ensures rests { Rests (D.state disk.old) (D.state disk.new) }
    ensures reads { ReadsFronts (D.state disk.old) (D.state disk.new)
        context.now.names context.now.files context.now.query (front.now ∷ []) }
    ensures lent { W.lent work.new ≡ W.lent work.old }
    ensures served { IfOk result (λ _. W.served work.new context.now held.new) }

    // by the answer
    ensures done { IfOk result (λ yes. SearchedFronts
        (W.reaches work.old work.new context.now.names context.now.query) (D.state disk.old).seen
        context.now.names context.now.files context.now.query (front.now ∷ [])
        opened.old opened.new (cond yes 1 0)) }
    ensures stopped { OnErr result (StoppedFronts
        (W.halts work.old work.new context.now.names context.now.query) (D.state disk.old).seen
        context.now.names context.now.files context.now.query (front.now ∷ [])
        opened.old opened.new) }

    // causes
    ensures damaged { IsErrOf result SearchRefusal.Damaged → W.stands work.old context.now.names
        → NoFronts (D.state disk.old).seen context.now.names context.now.files
        (front.now ∷ []) }
    ensures disk_counts { CountsOf SearchRefusal.DiskFault
        (D.state disk.old).faults (D.state disk.new).faults result }
    ensures sink_counts { CountsOf SearchRefusal.SinkFault
        (W.sink_faults work.old) (W.sink_faults work.new) result }
{
    // One that is out of the range is barren, and what the pattern matches, the one that the search
    // is planned over matches too.
    barren_has_no_match();
    wide_is_wider();
    if context.is_outside(front) {
        return Ok(false);
    }
    let segment = match load_head(alloc, context, disk, front) {
        Ok(segment) => segment,
        // An output that fails too would be a second fault.
        Err(SearchRefusal::DiskFault) => return Err(SearchRefusal::DiskFault),
        Err(refusal) => {
            work.finish(context, held)?;
            return Err(refusal);
        }
    };
    search_segment(context, held, &segment, disk, work, room, opened)
}

/// The front at a place.
fn front_at(fronts: &[SegmentFront], place: usize) -> &SegmentFront
    requires { place < length fronts.now }
    ensures { slice_get fronts.now place ≡ Some result.now }
{
    &fronts[place]
}

/// Searches the segments in their order, and answers how many were opened.
pub fn visit_segments<D: Disk, W: TakesPages, L: Ledger>(
    alloc: Global,
    context: &Context<'_, D>,
    held: &mut HeldWords,
    fronts: &[SegmentFront],
    disk: &mut D,
    work: &mut W,
    opened: &mut Steps<L>,
) -> Result<u64, SearchRefusal>
    requires served { W.served work.old context.now held.old }
    requires told { (D.state disk.old).seen ≡ context.now.names.told }

    // what stays
    ensures rests { Rests (D.state disk.old) (D.state disk.new) }
    ensures reads { ReadsFronts (D.state disk.old) (D.state disk.new)
        context.now.names context.now.files context.now.query fronts.now }
    ensures lent { W.lent work.new ≡ W.lent work.old }
    ensures served { IfOk result (λ _. W.served work.new context.now held.new) }

    // by the answer
    ensures done { IfOk result (λ count. SearchedFronts
        (W.reaches work.old work.new context.now.names context.now.query) (D.state disk.old).seen
        context.now.names context.now.files context.now.query fronts.now
        opened.old opened.new count) }
    ensures stopped { OnErr result (StoppedFronts
        (W.halts work.old work.new context.now.names context.now.query) (D.state disk.old).seen
        context.now.names context.now.files context.now.query fronts.now
        opened.old opened.new) }

    // causes
    ensures damaged { IsErrOf result SearchRefusal.Damaged → W.stands work.old context.now.names
        → NoFronts (D.state disk.old).seen context.now.names context.now.files fronts.now }
    ensures disk_counts { CountsOf SearchRefusal.DiskFault
        (D.state disk.old).faults (D.state disk.new).faults result }
    ensures sink_counts { CountsOf SearchRefusal.SinkFault
        (W.sink_faults work.old) (W.sink_faults work.new) result }
{
    let mut room = TypeRoom::new(alloc);
    let mut count = 0;
    for place in 0..fronts.len() {
        let front = front_at(fronts, place);
        let yes = visit_segment(alloc, context, held, front, disk, work, &mut room, opened)?;
        count += u64::from(yes);
    }
    Ok(count)
}
