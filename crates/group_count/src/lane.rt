//! A lane: it counts the messages of segments of its own over its part of the disk, as one worker
//! does, in a table of its own.
ghost use Rattle.std.specs.Prelude.{◌≡◌, IfOk, IsErrOf, IsFalse, IsTrue, Ok};
ghost use Rattle.step_count.specs.Opens.{OpensFor};
ghost use Rattle.search_walk.specs.Held.{named};
ghost use Rattle.search_walk.specs.Ready.{Serves};
ghost use Rattle.search_walk.specs.StepsScope.{IsScope, scope};
ghost use Rattle.search_walk.specs.declared.refusal.SearchRefusal.{SearchRefusal};
ghost use Rattle.group_count.specs.StepsLanes.{IsLaneCount, IsLaneRun, LaneView};
ghost use Rattle.group_count.specs.StepsServed.{IsWay};

use crate::counts::Told;
use crate::page_counter::PageCounter;
use crate::page_taking::count_segments;
use crate::table::RowTable;
use crate::way::Way;
use archive_places::SegmentFront;
use log_seams::Disk;
use search_walk::{LaneScope, SearchRefusal};
use std::alloc::Global;
use std::marker::{Brand, Model};
use std::sync::ledger::{Blank, Ledger};
use step_count::Steps;
use word_places::HeldWords;

/// What a lane begins with.
#[derive(Drop)]
pub(crate) struct Empty<T> {
    alloc: Global,
    way: Way,
    /// A table in which nothing was counted.
    like: T,
}

/// Counts the messages of segments as one worker does, over a part of the disk, with a share of the
/// words that are held, in an empty table like the one that is lent, and with counters of its own.
fn count_part<P: Disk, T: RowTable, L: Ledger, M: Ledger>(
    lane: LaneScope<'_>,
    empty: &Empty<T>,
    first: &HeldWords,
    fronts: &[SegmentFront],
    part: &mut P,
    one: Blank,
    two: Blank,
) -> Result<Told<T>, SearchRefusal>
    requires blanks { OpensFor one L.name L.parts × OpensFor two M.name M.parts }
    requires scope { IsScope (named (P.state part.old).seen first.now)
        lane.query.now lane.layouts.now lane.asked.now lane.found.now }
    requires serves { Serves (named (P.state part.old).seen first.now) first.now }
    requires way { IsWay lane.query.now empty.now.way }
    ensures { IsLaneCount T.counted (P.state part.old) (P.state part.new)
        (scope (named (P.state part.old).seen first.now)
        lane.entry.query.now lane.entry.files.now)
        fronts.now empty.now.like result }
{
    let mut opened: Steps<L> = Steps::new(one);
    let mut expanded: Steps<M> = Steps::new(two);
    let mut held = first.share()?;
    let context = lane.context(first, part);
    let alloc = empty.alloc;
    let mut counter = PageCounter::new(alloc, empty.way, empty.like.like(alloc));
    let count = count_segments(
        &context,
        &mut held,
        fronts,
        part,
        &mut counter,
        &mut opened,
        &mut expanded,
    )?;
    Ok(Told {
        counts: counter.into_counts(),
        opened: count,
    })
}

/// A lane of a count.
#[derive(Drop)]
pub(crate) struct Lane<'q, P: Disk, T> {
    scope: LaneScope<'q>,
    empty: Empty<T>,
    /// The words that are held when the lanes begin.
    first: &'q HeldWords,
    part: P,
    fronts: &'q [SegmentFront],
    /// What it has counted, or why it was stopped.
    answer: Result<Told<T>, SearchRefusal>,
}

impl<'q, P: Disk, T> Model for Lane<'q, P, T> {
    ghost use Rattle.std.specs.Prelude.{IsErrOf};
    ghost use Rattle.search_walk.specs.declared.refusal.SearchRefusal.{SearchRefusal};
    ghost use Rattle.search_walk.specs.Held.{named};
    ghost use Rattle.search_walk.specs.Ready.{Serves};
    ghost use Rattle.search_walk.specs.StepsScope.{IsScope};
    ghost use Rattle.group_count.specs.StepsServed.{IsWay};
    ghost use Rattle.group_count.specs.StepsLanes.{LaneView};

    ghost Value = { LaneView P T };

    ghost view = { λ l. record {
      part = l.part;
      first = l.first.now;
      files = l.scope.files.now;
      query = l.scope.query.now;
      fronts = l.fronts.now;
      like = l.empty.like;
      answer = l.answer;
    } };

    ghost invariant = { λ l. IsScope (named (P.state l.part).seen l.first.now)
        l.scope.query.now l.scope.layouts.now l.scope.asked.now l.scope.found.now
        × Serves (named (P.state l.part).seen l.first.now) l.first.now
        × IsWay l.scope.query.now l.empty.way
        × ¬ IsErrOf l.answer SearchRefusal.SinkFault };
}

impl<'q, P: Disk, T: RowTable> Lane<'q, P, T> {
    /// A lane over a part of the disk, which has counted nothing yet. The table is one in which
    /// nothing was counted.
    pub(crate) fn new(
        alloc: Global,
        scope: LaneScope<'q>,
        way: Way,
        like: T,
        first: &'q HeldWords,
        part: P,
        fronts: &'q [SegmentFront],
    ) -> Lane<'q, P, T>
        requires scope { IsScope (named (P.state part).seen first.now)
            scope.query.now scope.layouts.now scope.asked.now scope.found.now }
        requires serves { Serves (named (P.state part).seen first.now) first.now }
        requires way { IsWay scope.query.now way }
        ensures { result ≡ record {
          part = part;
          first = first.now;
          files = scope.entry.files.now;
          query = scope.entry.query.now;
          fronts = fronts.now;
          like = like;
          answer = result.answer;
        } }
    {
        let told = Told {
            counts: PageCounter::new(alloc, way, like.like(alloc)).into_counts(),
            opened: 0,
        };
        Lane {
            scope,
            empty: Empty { alloc, way, like },
            first,
            part,
            fronts,
            answer: Ok(told),
        }
    }

    /// What it has counted, or why it was stopped.
    pub(crate) fn told(&self) -> Result<&Told<T>, SearchRefusal>
        ensures told { IfOk result (λ told. self.now.answer ≡ Ok told.now) }
        ensures refused { (e : SearchRefusal) → IsErrOf result e → IsErrOf self.now.answer e }
        ensures sink { ¬ IsErrOf result SearchRefusal.SinkFault }
    {
        match &self.answer {
            Ok(told) => Ok(told),
            Err(refusal) => Err(*refusal),
        }
    }

    /// Whether it was stopped by a fault of the disk.
    pub(crate) fn fell(&self) -> bool
        ensures yes { IsTrue result → IsErrOf self.now.answer SearchRefusal.DiskFault }
        ensures no { IsFalse result → ¬ IsErrOf self.now.answer SearchRefusal.DiskFault }
    {
        match &self.answer {
            Ok(_) => false,
            Err(refusal) => *refusal == SearchRefusal::DiskFault,
        }
    }

    /// Its part of the disk.
    pub(crate) fn into_part(self) -> P
        ensures { result ≡ self.entry.part }
    {
        let Lane { part, .. } = self;
        part
    }

    /// Counts the messages of its segments. What it counted before is lost.
    pub(crate) fn run(&mut self)
        ensures { IsLaneRun P.state T.counted self.old self.new }
    {
        self.answer = count_part::<P, T, Brand, Brand>(
            self.scope,
            &self.empty,
            self.first,
            self.fronts,
            &mut self.part,
            Blank::new(1),
            Blank::new(1),
        );
    }
}
