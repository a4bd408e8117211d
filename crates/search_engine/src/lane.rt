//! A lane: it searches segments of its own over its part of the disk, as one worker does, into a
//! text.
ghost use Rattle.std.specs.Prelude.{◌≡◌, ◌≤◌, [], length, IfOk, IsErrOf, Ok};
ghost use Rattle.step_count.specs.Opens.{OpensFor};
ghost use Rattle.search_walk.specs.Held.{named};
ghost use Rattle.search_walk.specs.Ready.{Serves};
ghost use Rattle.search_walk.specs.StepsScope.{IsScope, scope};
ghost use Rattle.search_engine.specs.Lanes.{IsLaneRun, IsLaneSearch, IsWell, given, left_of, scope_of};
ghost use Rattle.search_engine.specs.Waiting.{no_counts};

use crate::counts::{Counts, LaneCounts};
use crate::page_batch::PageBatch;
use crate::page_slot::NO_COUNTS;
use crate::page_taking::print_segments;
use crate::refusal::in_text;
use crate::text_sink::TextSink;
use archive_places::SegmentFront;
use log_seams::Disk;
use search_walk::{LaneScope, SearchRefusal};
use std::alloc::Global;
use std::marker::{Brand, Model};
use std::mem::swap;
use std::sync::ledger::{Blank, Ledger};
use step_count::Steps;
use word_places::HeldWords;

/// Searches segments as one worker does, over a part of the disk and into a text that is empty,
/// with counters of its own. A text that cannot grow is a fault of the output.
fn search_into<P: Disk, L: Ledger, M: Ledger>(
    lane: LaneScope<'_>,
    first: &HeldWords,
    fronts: &[SegmentFront],
    part: &mut P,
    held: &mut HeldWords,
    sink: &mut TextSink,
    one: Blank,
    two: Blank,
) -> Result<LaneCounts, SearchRefusal>
    requires blanks { OpensFor one L.name L.parts × OpensFor two M.name M.parts }
    requires scope { IsScope (named (P.state part.old).seen first.now)
        lane.query.now lane.layouts.now lane.asked.now lane.found.now }
    requires serves { Serves (named (P.state part.old).seen first.now) held.old }
    requires empty { sink.old.text.items ≡ [] }
    ensures serves { IfOk result
        (λ _. Serves (named (P.state part.old).seen first.now) held.new) }
    ensures ran { IsLaneSearch (P.state part.old) (P.state part.new)
        (scope (named (P.state part.old).seen first.now)
        lane.entry.query.now lane.entry.files.now)
        fronts.now sink.new.text.items result }
{
    let mut opened: Steps<L> = Steps::new(one);
    let mut expanded: Steps<M> = Steps::new(two);
    let context = lane.context(first, part);
    let mut batch = PageBatch::new(sink.alloc);
    let count = print_segments(
        &context,
        held,
        fronts,
        part,
        sink,
        &mut batch,
        &mut opened,
        &mut expanded,
    )?;
    batch.finish(&context, held, sink, &mut expanded)?;
    Ok(LaneCounts {
        counts: batch.counts(),
        opened: count.min(fronts.len() as u64),
    })
}

/// A lane of a search. The words that it reads in a turn it keeps for itself until they are shared.
#[derive(Drop)]
pub(crate) struct Lane<'q, P: Disk> {
    scope: LaneScope<'q>,
    /// The words that were held when the search began.
    first: &'q HeldWords,
    part: P,
    held: HeldWords,
    /// The segments of this turn.
    fronts: &'q [SegmentFront],
    sink: TextSink,
    told: LaneCounts,
    answer: Result<(), SearchRefusal>,
}

impl<'q, P: Disk> Model for Lane<'q, P> {
    ghost use Rattle.std.specs.Prelude.{◌≤◌, length, OnOk, IsErrOf};
    ghost use Rattle.search_walk.specs.declared.refusal.SearchRefusal.{SearchRefusal};
    ghost use Rattle.search_walk.specs.Held.{named};
    ghost use Rattle.search_walk.specs.Ready.{Serves};
    ghost use Rattle.search_walk.specs.StepsScope.{IsScope};
    ghost use Rattle.search_engine.specs.Lanes.{LaneView};

    ghost Value = { LaneView P };

    ghost view = { λ l. record {
      part = l.part;
      first = l.first.now;
      files = l.scope.files.now;
      query = l.scope.query.now;
      fronts = l.fronts.now;
      left = record {
        text = l.sink.text.items;
        counts = l.told.counts;
        opened = l.told.opened;
        answer = l.answer;
      };
    } };

    ghost invariant = { λ l. (length l.fronts.now ≤ 65536)
        × IsScope (named (P.state l.part).seen l.first.now)
        l.scope.query.now l.scope.layouts.now l.scope.asked.now l.scope.found.now
        × OnOk l.answer (Serves (named (P.state l.part).seen l.first.now) l.held)
        × (l.told.opened ≤ length l.fronts.now)
        × ¬ IsErrOf l.answer SearchRefusal.SinkFault };
}

impl<'q, P: Disk> Lane<'q, P> {
    /// A lane without segments, over a part of the disk and a share of the words that are held.
    pub(crate) fn new(
        alloc: Global,
        scope: LaneScope<'q>,
        first: &'q HeldWords,
        part: P,
        held: HeldWords,
        fronts: &'q [SegmentFront],
    ) -> Lane<'q, P>
        requires few { length fronts.now ≤ 65536 }
        requires scope { IsScope (named (P.state part).seen first.now)
            scope.query.now scope.layouts.now scope.asked.now scope.found.now }
        requires serves { Serves (named (P.state part).seen first.now) held }
        ensures { result ≡ record {
          part = part;
          first = first.now;
          files = scope.entry.files.now;
          query = scope.entry.query.now;
          fronts = fronts.now;
          left = left_of [] no_counts 0 (Ok tt);
        } }
    {
        Lane {
            scope,
            first,
            part,
            held,
            fronts,
            sink: TextSink::new(alloc),
            told: LaneCounts {
                counts: NO_COUNTS,
                opened: 0,
            },
            answer: Ok(()),
        }
    }

    /// Gives it segments for a turn. What it left is lost.
    pub(crate) fn set_fronts(&mut self, fronts: &'q [SegmentFront])
        requires { length fronts.now ≤ 65536 }
        ensures { self.new ≡ given self.old fronts.now }
    {
        self.sink.text.clear();
        self.told = LaneCounts {
            counts: NO_COUNTS,
            opened: 0,
        };
        self.fronts = fronts;
    }

    /// The lines that its search left.
    pub(crate) fn text(&self) -> &[u8]
        ensures { result.now ≡ self.now.left.text }
    {
        self.sink.text.as_slice()
    }

    /// The counts that its search left.
    pub(crate) fn counts(&self) -> Counts
        ensures { result ≡ self.now.left.counts }
    {
        self.told.counts
    }

    /// How many segments its search opened.
    pub(crate) fn opened(&self) -> u64
        ensures is { result ≡ self.now.left.opened }
        ensures most { result ≤ length self.now.fronts }
    {
        self.told.opened
    }

    /// Whether its search went through.
    pub(crate) fn answer(&self) -> Result<(), SearchRefusal>
        ensures is { result ≡ self.now.left.answer }
        ensures sink { ¬ IsErrOf result SearchRefusal.SinkFault }
    {
        self.answer
    }

    /// Lets all have the words that it has read, and goes on with those that all had. Without
    /// memory for a share it keeps its own.
    pub(crate) fn share_words(&mut self, all: &mut HeldWords)
        requires well { IsWell self.old }
        requires serves { Serves (scope_of P.state self.old).names all.old }
        ensures kept { self.new ≡ self.old }
        ensures serves { Serves (scope_of P.state self.old).names all.new }
    {
        if let Ok(mut share) = all.share() {
            swap(&mut self.held, &mut share);
            all.take_in(share);
        }
    }

    /// Its part of the disk.
    pub(crate) fn into_part(self) -> P
        ensures { result ≡ self.entry.part }
    {
        let Lane { part, .. } = self;
        part
    }

    /// Searches its segments, if it was not stopped before. What the last turn left is lost.
    pub(crate) fn run(&mut self)
        ensures { IsWell self.old → IsLaneRun P.state self.old self.new }
    {
        if self.answer.is_err() {
            return;
        }
        self.sink.text.clear();
        let searched = search_into::<P, Brand, Brand>(
            self.scope,
            self.first,
            self.fronts,
            &mut self.part,
            &mut self.held,
            &mut self.sink,
            Blank::new(1),
            Blank::new(1),
        );
        match searched {
            Ok(told) => self.told = told,
            Err(refusal) => self.answer = Err(in_text(refusal)),
        }
    }
}
