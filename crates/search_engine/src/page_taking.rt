//! What takes the pages of a walk for a search: each is searched, and what is found goes out.
ghost use Rattle.std.specs.Prelude.{◌≡◌, ◌∷◌, [], IfOk, OnOk, OnErr, IsErrOf};
ghost use Rattle.log_seams.specs.Disk.{Rests};
ghost use Rattle.log_seams.specs.Outside.{CountsOf};
ghost use Rattle.search_walk.specs.Held.{OfLeft};
ghost use Rattle.search_walk.specs.Opened.{NoFronts, ReadsFronts};
ghost use Rattle.search_walk.specs.PagesRead.{ReadsPage};
ghost use Rattle.printed_lines.specs.Lines.{numbered};
ghost use Rattle.search_walk.specs.Takes.{IsLeft};
ghost use Rattle.search_walk.specs.Walked.{PageGone, PastTold};
ghost use Rattle.search_engine.specs.Over.{HaltsOver, IsServedOver, ReachesOver};
ghost use Rattle.search_engine.specs.SegmentsDone.{SearchedFronts, StoppedFronts};
ghost use Rattle.search_engine.specs.Served.{IsServed};
ghost use Rattle.search_engine.specs.StepsWaiting.{halts_behind, halts_more, halts_same, reaches_on, reaches_over, stands_on};
ghost use Rattle.search_engine.specs.Waiting.{Blames, Halts, Reaches, StandFor, state};

use crate::page_batch::PageBatch;
use archive_places::SegmentFront;
use log_seams::{Disk, Sink};
use search_walk::{Context, Label, SearchRefusal, TakesPages, visit_segments};
use segment_pages::SegmentPages;
use std::sync::ledger::Ledger;
use step_count::Steps;
use word_places::HeldWords;

/// Reads the next page, whose first message has this label, and lets it wait, or searches it where
/// it is due. Where a page cannot be read, the pages before it are searched and sent out first, but
/// not after a fault of the disk.
fn read_next<D: Disk, K: Sink, M: Ledger>(
    context: &Context<'_, D>,
    held: &mut HeldWords,
    label: Label<'_>,
    pages: &mut SegmentPages,
    disk: &mut D,
    out: &mut K,
    batch: &mut PageBatch,
    expanded: &mut Steps<M>,
) -> Result<u32, SearchRefusal>
    requires left { IsLeft pages.old label.number }
    requires served { IsServedOver context.now held.old batch.old.pages }
    requires told { (D.state disk.old).seen ≡ context.now.names.told }

    // what stays
    ensures reads { ReadsPage context.now.names pages.old
        (D.state disk.old) (D.state disk.new) }
    ensures served { OnOk result (IsServedOver context.now held.new batch.new.pages) }

    // by the answer
    ensures gone { IfOk result (λ rows. PageGone pages.old pages.new rows) }
    ensures done { IfOk result (λ rows. PastTold
        (λ all. ReachesOver context.now all
        (state (K.written out.old) batch.old expanded.old)
        (state (K.written out.new) batch.new expanded.new))
        (D.state disk.old).seen pages.old context.now.names
        label.entry.name.now label.entry.number pages.new rows) }
    ensures stopped { OnErr result (OfLeft (D.state disk.old).seen pages.old
        context.now.names (λ messages. HaltsOver context.now
        (numbered label.entry.name.now label.entry.number messages)
        (state (K.written out.old) batch.old expanded.old) (K.written out.new) expanded.new)) }

    // causes
    ensures damaged { IsErrOf result SearchRefusal.Damaged → Blames
        context.now.names batch.old.pages
        (OfLeft (D.state disk.old).seen pages.old context.now.names (λ _. ⊥)) }
    ensures disk_counts { CountsOf SearchRefusal.DiskFault
        (D.state disk.old).faults (D.state disk.new).faults result }
    ensures sink_counts { CountsOf SearchRefusal.SinkFault
        (K.faults out.old) (K.faults out.new) result }
{
    let slot = match batch.read(context, held, label, pages, disk) {
        Ok(slot) => slot,
        // An output that fails too would be a second fault.
        Err(SearchRefusal::DiskFault) => return Err(SearchRefusal::DiskFault),
        Err(refusal) => {
            batch.finish(context, held, out, expanded)?;
            return Err(refusal);
        }
    };
    let rows = slot.rows();
    batch.push(slot)?;
    batch.run(context, held, out, expanded)?;
    Ok(rows)
}

/// Takes the pages of a walk for a search: a batch of them waits, and what is found in them is
/// written.
#[derive(Drop)]
struct Printing<'a, K, M: Ledger> {
    out: &'a mut K,
    batch: &'a mut PageBatch,
    expanded: &'a mut Steps<M>,
}

impl<'a, K, M: Ledger> Printing<'a, K, M> {
    /// Lends it where it writes to, the batch, and the counter.
    fn new(
        out: &'a mut K,
        batch: &'a mut PageBatch,
        expanded: &'a mut Steps<M>,
    ) -> Printing<'a, K, M>
        // the same references
        ensures out_is { result.out.ghost_name ≡ out.entry.ghost_name }
        ensures batch_is { result.batch.ghost_name ≡ batch.entry.ghost_name }
        ensures expanded_is { result.expanded.ghost_name ≡ expanded.entry.ghost_name }

        // and what stands behind them
        ensures out { result.out.now ≡ out.old }
        ensures batch { result.batch.now ≡ batch.old }
        ensures expanded { result.expanded.now ≡ expanded.old }
    {
        Printing {
            out,
            batch,
            expanded,
        }
    }
}

impl<'a, K: Sink, M: Ledger> TakesPages for Printing<'a, K, M> {
    ghost served = { λ w s held. IsServed s.names s.query held w.batch.now.pages };

    ghost reaches = { λ a b n q all. Reaches n q all
        (state (K.written a.out.now) a.batch.now a.expanded.now)
        (state (K.written b.out.now) b.batch.now b.expanded.now) };

    ghost halts = { λ a b n q all. Halts n q all
        (state (K.written a.out.now) a.batch.now a.expanded.now)
        (K.written b.out.now) b.expanded.now };

    ghost stands = { λ w n. StandFor n w.batch.now.pages };

    ghost lent = { λ w. w.out.ghost_name ∷ w.batch.ghost_name ∷ w.expanded.ghost_name ∷ [] };

    ghost sink_faults = { λ w. K.faults w.out.now };

    fn take_page<D: Disk>(
        &mut self,
        context: &Context<'_, D>,
        held: &mut HeldWords,
        label: Label<'_>,
        pages: &mut SegmentPages,
        disk: &mut D,
    ) -> Result<u32, SearchRefusal> {
        let out = &mut *self.out;
        let batch = &mut *self.batch;
        read_next(context, held, label, pages, disk, out, batch, self.expanded)
    }

    fn finish<D: Disk>(
        &mut self,
        context: &Context<'_, D>,
        held: &HeldWords,
    ) -> Result<(), SearchRefusal> {
        self.batch.finish(context, held, self.out, self.expanded)
    }

    ghost passes_over = { λ w n q all found tried. reaches_over n q all
        (state (K.written w.out.now) w.batch.now w.expanded.now) found tried };

    ghost goes_on = { λ a b c n q xs ys one two. reaches_on n q xs ys
        (state (K.written a.out.now) a.batch.now a.expanded.now)
        (state (K.written b.out.now) b.batch.now b.expanded.now)
        (state (K.written c.out.now) c.batch.now c.expanded.now) one two };

    ghost stops_here = { λ w n q. halts_same n q (K.written w.out.now) w.batch.now w.expanded.now };

    ghost stops_behind = { λ a b c n q xs ys one two. halts_behind n q xs ys
        (state (K.written a.out.now) a.batch.now a.expanded.now)
        (state (K.written b.out.now) b.batch.now b.expanded.now)
        (K.written c.out.now) c.expanded.now one two };

    ghost stops_within = { λ a b n q xs ys one. halts_more n q xs ys
        (state (K.written a.out.now) a.batch.now a.expanded.now)
        (K.written b.out.now) b.expanded.now one };

    ghost stands_on = { λ a b n q all one stands. stands_on n q all
        (state (K.written a.out.now) a.batch.now a.expanded.now)
        (state (K.written b.out.now) b.batch.now b.expanded.now) one stands };

    ghost has_words = { λ w s held served. served.serves };
}

/// Searches the segments in their order, and answers how many were opened.
pub(crate) fn print_segments<D: Disk, K: Sink, L: Ledger, M: Ledger>(
    context: &Context<'_, D>,
    held: &mut HeldWords,
    fronts: &[SegmentFront],
    disk: &mut D,
    out: &mut K,
    batch: &mut PageBatch,
    opened: &mut Steps<L>,
    expanded: &mut Steps<M>,
) -> Result<u64, SearchRefusal>
    requires served { IsServedOver context.now held.old batch.old.pages }
    requires told { (D.state disk.old).seen ≡ context.now.names.told }

    // what stays
    ensures rests { Rests (D.state disk.old) (D.state disk.new) }
    ensures reads { ReadsFronts (D.state disk.old) (D.state disk.new) context.now.names
        context.now.files context.now.query fronts.now }
    ensures served { IfOk result (λ _. IsServedOver context.now
        held.new batch.new.pages) }

    // by the answer
    ensures done { IfOk result (λ count. SearchedFronts
        (D.state disk.old).seen context.now.names
        context.now.files context.now.query fronts.now
        (state (K.written out.old) batch.old expanded.old)
        (state (K.written out.new) batch.new expanded.new)
        opened.old opened.new count) }
    ensures stopped { OnErr result (StoppedFronts
        (D.state disk.old).seen context.now.names
        context.now.files context.now.query fronts.now
        (state (K.written out.old) batch.old expanded.old)
        (K.written out.new) expanded.new opened.old opened.new) }

    // causes
    ensures damaged { IsErrOf result SearchRefusal.Damaged → Blames
        context.now.names batch.old.pages (NoFronts (D.state disk.old).seen
        context.now.names context.now.files fronts.now) }
    ensures disk_counts { CountsOf SearchRefusal.DiskFault
        (D.state disk.old).faults (D.state disk.new).faults result }
    ensures sink_counts { CountsOf SearchRefusal.SinkFault
        (K.faults out.old) (K.faults out.new) result }
{
    let alloc = batch.alloc();
    let mut printing = Printing::new(out, batch, expanded);
    visit_segments(alloc, context, held, fronts, disk, &mut printing, opened)
}
