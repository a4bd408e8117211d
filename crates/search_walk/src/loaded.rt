//! A segment whose head is loaded, with its list of words or without it.
ghost use Rattle.std.specs.Prelude.{IfOk, IsErrOf};
ghost use Rattle.log_seams.specs.Disk.{ReadsOnly, Rests};
ghost use Rattle.log_seams.specs.Outside.{CountsOf};
ghost use Rattle.segment_format.specs.Layout.{head_length};
ghost use Rattle.archive_places.specs.Fronts.{fixed_in};
ghost use Rattle.archive_places.specs.Heads.{OfFront};
ghost use Rattle.search_walk.specs.Loaded.{IsLoaded};

use crate::context::Context;
use crate::refusal::SearchRefusal;
use archive_open::SegmentPlace;
use archive_places::{SegmentFront, load_segment, load_types};
use log_seams::Disk;
use std::alloc::Global;

/// A segment whose head was read: all of it, or all but its list of words, which then is empty.
#[derive(Debug, Drop)]
pub struct LoadedSegment {
    /// Where the segment stands, and its head.
    pub place: SegmentPlace,
    /// How many words the head on the disk lists that were not read.
    pub unread: u32,
}

/// Loads the head of a segment, and its list of words only where a search may ask that: it is the
/// longest part of a head by far.
pub(crate) fn load_head<D: Disk>(
    alloc: Global,
    context: &Context<'_, D>,
    disk: &mut D,
    front: &SegmentFront,
) -> Result<LoadedSegment, SearchRefusal>
    // what stays
    ensures rests { Rests (D.state disk.old) (D.state disk.new) }
    ensures reads { ReadsOnly front.now.payload (head_length (fixed_in front.now))
        (D.state disk.old) (D.state disk.new) }

    // by the answer
    ensures loaded { IfOk result (λ s. OfFront (D.state disk.old).seen front.now
        (IsLoaded context.now.query s)) }

    // causes
    ensures damaged { IsErrOf result SearchRefusal.Damaged
        → OfFront (D.state disk.old).seen front.now (λ _. ⊥) }
    ensures counts { CountsOf SearchRefusal.DiskFault
        (D.state disk.old).faults (D.state disk.new).faults result }
    ensures sink { ¬ IsErrOf result SearchRefusal.SinkFault }
{
    if context.spares_words() {
        let place = load_types(alloc, disk, front)?;
        return Ok(LoadedSegment {
            place,
            unread: front.words,
        });
    }
    let place = load_segment(alloc, disk, front)?;
    Ok(LoadedSegment { place, unread: 0 })
}
