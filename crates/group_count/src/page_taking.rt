//! What takes the pages of a walk for a count: each is read and counted as it comes.
ghost use Rattle.std.specs.Prelude.{◌≡◌, ◌∷◌, [], IfOk, OnErr, IsErrOf};
ghost use Rattle.log_seams.specs.Disk.{Rests};
ghost use Rattle.log_seams.specs.Outside.{CountsOf};
ghost use Rattle.word_places.specs.Held.{kept_of};
ghost use Rattle.search_walk.specs.Opened.{NoFronts, ReadsFronts};
ghost use Rattle.search_walk.specs.Walked.{SearchedFronts, StoppedFronts};
ghost use Rattle.group_count.specs.StepsCounted.{Passes, Stops, sofar};
ghost use Rattle.group_count.specs.StepsGoing.{passes_on, passes_over, stops_behind, stops_here, stops_more};
ghost use Rattle.group_count.specs.StepsServed.{IsServed};

use crate::page_counter::{PageCounter, count_next, count_rest};
use crate::table::RowTable;
use archive_places::SegmentFront;
use log_seams::Disk;
use search_walk::{Context, Label, SearchRefusal, TakesPages, visit_segments};
use segment_pages::SegmentPages;
use std::sync::ledger::Ledger;
use step_count::Steps;
use word_places::HeldWords;

/// Takes the pages of a walk for a count. None of them waits.
#[derive(Drop)]
struct Counting<'a, T, M: Ledger> {
    counter: &'a mut PageCounter<T>,
    expanded: &'a mut Steps<M>,
}

impl<'a, T, M: Ledger> Counting<'a, T, M> {
    /// Lends it what counts, and the counter of expanded messages.
    fn new(counter: &'a mut PageCounter<T>, expanded: &'a mut Steps<M>) -> Counting<'a, T, M>
        // the same references
        ensures counter_is { result.counter.ghost_name ≡ counter.entry.ghost_name }
        ensures expanded_is { result.expanded.ghost_name ≡ expanded.entry.ghost_name }

        // and what stands behind them
        ensures counter { result.counter.now ≡ counter.old }
        ensures expanded { result.expanded.now ≡ expanded.old }
    {
        Counting { counter, expanded }
    }
}

impl<'a, T: RowTable, M: Ledger> TakesPages for Counting<'a, T, M> {
    ghost served = { λ w s held. IsServed s held w.counter.now.way };

    ghost reaches = { λ a b n q all. Passes T.counted n q all
        (sofar a.counter.now.counts a.expanded.now)
        (sofar b.counter.now.counts b.expanded.now) };

    ghost halts = { λ a b n q all. Stops n.version q all a.expanded.now b.expanded.now };

    ghost stands = { λ _ _. Unit {0} };

    ghost lent = { λ w. w.counter.ghost_name ∷ w.expanded.ghost_name ∷ [] };

    ghost sink_faults = { λ _. 0 };

    fn take_page<D: Disk>(
        &mut self,
        context: &Context<'_, D>,
        held: &mut HeldWords,
        _label: Label<'_>,
        pages: &mut SegmentPages,
        disk: &mut D,
    ) -> Result<u32, SearchRefusal> {
        if self.counter.finds_all() {
            return count_rest(context, pages, disk, self.counter);
        }
        count_next(context, held, pages, disk, self.counter, self.expanded)
    }

    fn finish<D: Disk>(
        &mut self,
        _context: &Context<'_, D>,
        _held: &HeldWords,
    ) -> Result<(), SearchRefusal> {
        Ok(())
    }

    ghost passes_over = { λ w n q all found tried. passes_over T.counted n q all
        (sofar w.counter.now.counts w.expanded.now) found tried };

    ghost goes_on = { λ a b c n q xs ys one two. passes_on T.counted n q xs ys
        (sofar a.counter.now.counts a.expanded.now)
        (sofar b.counter.now.counts b.expanded.now)
        (sofar c.counter.now.counts c.expanded.now) one two };

    ghost stops_here = { λ w n q. stops_here n.version q w.expanded.now };

    ghost stops_behind = { λ a b c n q xs ys one two. stops_behind T.counted n q xs ys
        (sofar a.counter.now.counts a.expanded.now)
        (sofar b.counter.now.counts b.expanded.now) c.expanded.now one two };

    ghost stops_within = { λ a b n q xs ys one. stops_more n.version q xs ys
        a.expanded.now b.expanded.now one };

    ghost stands_on = { λ _ _ _ _ _ _ _. tt };

    ghost has_words = { λ _ _ _ served. served.serves };
}

/// Counts the messages of segments, and answers how many of these were opened.
pub(crate) fn count_segments<D: Disk, T: RowTable, L: Ledger, M: Ledger>(
    context: &Context<'_, D>,
    held: &mut HeldWords,
    fronts: &[SegmentFront],
    disk: &mut D,
    counter: &mut PageCounter<T>,
    opened: &mut Steps<L>,
    expanded: &mut Steps<M>,
) -> Result<u64, SearchRefusal>
    requires served { IsServed context.now held.old counter.old.way }
    requires told { (D.state disk.old).seen ≡ context.now.names.told }

    // what stays
    ensures rests { Rests (D.state disk.old) (D.state disk.new) }
    ensures reads { ReadsFronts (D.state disk.old) (D.state disk.new)
        context.now.names context.now.files context.now.query fronts.now }
    ensures kept { IfOk result (λ _. kept_of held.new ≡ context.now.names.kept) }

    // by the answer
    ensures done { IfOk result (λ count. SearchedFronts
        (λ all. Passes T.counted context.now.names context.now.query all
        (sofar counter.old.counts expanded.old) (sofar counter.new.counts expanded.new))
        (D.state disk.old).seen context.now.names context.now.files context.now.query fronts.now
        opened.old opened.new count) }
    ensures stopped { OnErr result (StoppedFronts
        (λ all. Stops context.now.names.version context.now.query all expanded.old expanded.new)
        (D.state disk.old).seen context.now.names context.now.files context.now.query fronts.now
        opened.old opened.new) }

    // causes
    ensures damaged { IsErrOf result SearchRefusal.Damaged → NoFronts
        (D.state disk.old).seen context.now.names context.now.files fronts.now }
    ensures disk_counts { CountsOf SearchRefusal.DiskFault
        (D.state disk.old).faults (D.state disk.new).faults result }
    ensures sink { ¬ IsErrOf result SearchRefusal.SinkFault }
{
    let alloc = counter.alloc();
    let mut counting = Counting::new(counter, expanded);
    visit_segments(alloc, context, held, fronts, disk, &mut counting, opened)
}
