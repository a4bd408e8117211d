//! A batch of pages: they are read one after the other, searched, and sent on in order.
ghost use Rattle.std.specs.Prelude.{◌≡◌, ◌++◌, ◌∷◌, [], IfOk, OnOk, OnErr, IsErrOf};
ghost use Rattle.log_seams.specs.Outside.{CountsOf};
ghost use Rattle.search_walk.specs.Held.{OfLeft};
ghost use Rattle.search_walk.specs.PagesRead.{ReadsPage};
ghost use Rattle.search_walk.specs.Takes.{IsLeft};
ghost use Rattle.sink_pieces.specs.Output.{GrewByFront};
ghost use Rattle.search_engine.specs.Lanes.{TakesLeft};
ghost use Rattle.search_engine.specs.NextPage.{IsNextPage};
ghost use Rattle.search_engine.specs.Over.{HaltsOver, IsServedOver, ReachesOver};
ghost use Rattle.search_engine.specs.Served.{IsServed};
ghost use Rattle.search_engine.specs.Waiting.{Blames, nothing_pending, state};

use crate::counts::Counts;
use crate::gathering::{gather_all, put_text, tick_times};
use crate::page_slot::{NO_COUNTS, PageSlot, match_chunk};
use crate::printing::Printer;
use log_seams::{Disk, Sink};
use search_walk::{Context, Label, SearchRefusal};
use segment_pages::SegmentPages;
use sink_pieces::flush;
use std::alloc::{AllocError, Global};
use std::marker::Model;
use std::mem::swap;
use std::sync::ledger::Ledger;
use step_count::Steps;
use word_places::HeldWords;

/// What is at hand between the reads of pages: the lines for the output, the counts, and the pages
/// that wait to be searched. Pages that were searched lend their memory to later ones.
#[derive(Drop)]
pub(crate) struct PageBatch {
    alloc: Global,
    gathered: Vec<u8>,
    counts: Counts,
    waiting: Vec<PageSlot>,
    spare: Vec<PageSlot>,
    /// What the reads of pages take place in.
    bytes: Vec<u8>,
}

impl Model for PageBatch {
    ghost use Rattle.search_engine.specs.Waiting.{Pending, pages_of};

    ghost Value = { Pending };

    ghost view = { λ r. record {
      gathered = r.gathered.items;
      counts = r.counts;
      pages = pages_of r.waiting.items;
    } };
}

impl PageBatch {
    /// Nothing at hand. Takes no memory.
    pub(crate) fn new(alloc: Global) -> PageBatch
        ensures { result ≡ nothing_pending }
    {
        PageBatch {
            alloc,
            gathered: Vec::new(alloc),
            counts: NO_COUNTS,
            waiting: Vec::new(alloc),
            spare: Vec::new(alloc),
            bytes: Vec::new(alloc),
        }
    }

    /// The counts.
    pub(crate) fn counts(&self) -> Counts
        ensures { result ≡ self.now.counts }
    {
        self.counts
    }

    /// The allocator that it was made with.
    pub(crate) fn alloc(&self) -> Global {
        self.alloc
    }

    /// Reads the next page of a segment, whose first message has this label, and the words by which
    /// its rows may have to be written. It does not wait yet.
    pub(crate) fn read<D: Disk>(
        &mut self,
        context: &Context<'_, D>,
        held: &mut HeldWords,
        label: Label<'_>,
        pages: &mut SegmentPages,
        disk: &mut D,
    ) -> Result<PageSlot, SearchRefusal>
        requires left { IsLeft pages.old label.number }
        requires served { IsServed context.now.names context.now.query held.old self.old.pages }
        requires told { (D.state disk.old).seen ≡ context.now.names.told }

        // what stays
        ensures kept { self.new ≡ self.old }
        ensures reads { ReadsPage context.now.names pages.old
            (D.state disk.old) (D.state disk.new) }
        ensures served { IsServed context.now.names context.now.query held.new self.old.pages }

        // by the answer
        ensures page { IfOk result (λ s. IsNextPage context.now.names context.now.query held.new
            (D.state disk.old).seen pages.old pages.new
            label.entry.name.now label.entry.number s.page) }

        // causes
        ensures damaged { IsErrOf result SearchRefusal.Damaged → OfLeft
            (D.state disk.old).seen pages.old context.now.names (λ _. ⊥) }
        ensures counts { CountsOf SearchRefusal.DiskFault
            (D.state disk.old).faults (D.state disk.new).faults result }
        ensures sink { ¬ IsErrOf result SearchRefusal.SinkFault }
    {
        let slot = match self.spare.pop() {
            Some(slot) => slot,
            None => PageSlot::new(self.alloc),
        };
        slot.read(context, held, label, pages, disk, &mut self.bytes)
    }

    /// Lets a page wait. A refusal changes nothing.
    pub(crate) fn push(&mut self, slot: PageSlot) -> Result<(), AllocError>
        ensures done { OnOk result (self.new ≡ record {
          gathered = self.old.gathered;
          counts = self.old.counts;
          pages = self.old.pages ++ slot.page ∷ [];
        }) }
        ensures kept { OnErr result (self.new ≡ self.old) }
    {
        self.waiting.push(slot)?;
        Ok(())
    }

    /// Searches the pages that wait, and sends on what they left.
    pub(crate) fn run<D: Disk, K: Sink, M: Ledger>(
        &mut self,
        context: &Context<'_, D>,
        held: &HeldWords,
        out: &mut K,
        expanded: &mut Steps<M>,
    ) -> Result<(), SearchRefusal>
        requires served { IsServedOver context.now held.now self.old.pages }

        // by the answer
        ensures done { OnOk result (ReachesOver context.now []
            (state (K.written out.old) self.old expanded.old)
            (state (K.written out.new) self.new expanded.new)) }
        ensures empty { OnOk result (self.new.pages ≡ []) }
        ensures stopped { OnErr result (HaltsOver context.now []
            (state (K.written out.old) self.old expanded.old)
            (K.written out.new) expanded.new) }

        // causes
        ensures damaged { IsErrOf result SearchRefusal.Damaged
            → Blames context.now.names self.old.pages ⊥ }
        ensures disk { ¬ IsErrOf result SearchRefusal.DiskFault }
        ensures sink_counts { CountsOf SearchRefusal.SinkFault
            (K.faults out.old) (K.faults out.new) result }
    {
        let printer = Printer::of(context, held);
        let slots = self.waiting.as_mut_slice();
        match_chunk(&printer, slots);
        gather_all(slots, out, &mut self.gathered, &mut self.counts, expanded)?;
        swap(&mut self.waiting, &mut self.spare);
        self.waiting.clear();
        Ok(())
    }

    /// Gathers what a lane left, its lines and its counts.
    pub(crate) fn take_left<K: Sink, M: Ledger>(
        &mut self,
        text: &[u8],
        counts: Counts,
        out: &mut K,
        expanded: &mut Steps<M>,
    ) -> Result<(), SearchRefusal>
        // by the answer
        ensures done { OnOk result (TakesLeft text.now counts
            (state (K.written out.old) self.old expanded.old)
            (state (K.written out.new) self.new expanded.new)) }
        ensures stopped { OnErr result (GrewByFront (K.written out.old) (K.written out.new)
            (self.old.gathered ++ text.now)) }
        ensures ticks { OnErr result (expanded.new ≡ expanded.old) }

        // causes
        ensures damaged { ¬ IsErrOf result SearchRefusal.Damaged }
        ensures disk { ¬ IsErrOf result SearchRefusal.DiskFault }
        ensures sink_counts { CountsOf SearchRefusal.SinkFault
            (K.faults out.old) (K.faults out.new) result }
    {
        put_text(out, &mut self.gathered, text)?;
        tick_times(counts.expanded, expanded);
        self.counts.matched = self.counts.matched.saturating_add(counts.matched);
        self.counts.expanded = self.counts.expanded.saturating_add(counts.expanded);
        Ok(())
    }

    /// Sends out what is gathered, and behind it the lines that a lane left which was stopped.
    pub(crate) fn send_left<K: Sink>(
        &mut self,
        text: &[u8],
        out: &mut K,
    ) -> Result<(), SearchRefusal>
        ensures front { GrewByFront (K.written out.old) (K.written out.new)
            (self.old.gathered ++ text.now) }

        // causes
        ensures damaged { ¬ IsErrOf result SearchRefusal.Damaged }
        ensures disk { ¬ IsErrOf result SearchRefusal.DiskFault }
        ensures sink_counts { CountsOf SearchRefusal.SinkFault
            (K.faults out.old) (K.faults out.new) result }
    {
        put_text(out, &mut self.gathered, text)?;
        flush(out, &mut self.gathered)?;
        Ok(())
    }

    /// Searches the pages that wait, and sends out all that is at hand.
    pub(crate) fn finish<D: Disk, K: Sink, M: Ledger>(
        &mut self,
        context: &Context<'_, D>,
        held: &HeldWords,
        out: &mut K,
        expanded: &mut Steps<M>,
    ) -> Result<(), SearchRefusal>
        requires served { IsServedOver context.now held.now self.old.pages }

        // by the answer
        ensures done { OnOk result (ReachesOver context.now []
            (state (K.written out.old) self.old expanded.old)
            (state (K.written out.new) self.new expanded.new)) }
        ensures empty { OnOk result ((self.new.pages ≡ []) × (self.new.gathered ≡ [])) }
        ensures stopped { OnErr result (HaltsOver context.now []
            (state (K.written out.old) self.old expanded.old)
            (K.written out.new) expanded.new) }

        // causes
        ensures damaged { IsErrOf result SearchRefusal.Damaged
            → Blames context.now.names self.old.pages ⊥ }
        ensures disk { ¬ IsErrOf result SearchRefusal.DiskFault }
        ensures sink_counts { CountsOf SearchRefusal.SinkFault
            (K.faults out.old) (K.faults out.new) result }
    {
        self.run(context, held, out, expanded)?;
        flush(out, &mut self.gathered)?;
        Ok(())
    }
}
