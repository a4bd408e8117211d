//! Pages in memory: each is searched into a buffer of its own.
ghost use Rattle.std.specs.Prelude.{◌≡◌, ◌<◌, ◌+◌, ◌^◌, ℕ, List, length, IfOk, OnOk, IsErrOf};
ghost use Rattle.log_seams.specs.Outside.{CountsOf};
ghost use Rattle.step_count.specs.Opens.{OpensFor};
ghost use Rattle.row_codec.specs.Laid.{AreCut};
ghost use Rattle.word_places.specs.Held.{Grow};
ghost use Rattle.search_walk.specs.Held.{AreRowsOf, Named, OfLeft};
ghost use Rattle.search_walk.specs.PagesRead.{ReadsPage};
ghost use Rattle.search_walk.specs.Ready.{IsReadyPage, Serves};
ghost use Rattle.search_walk.specs.Takes.{IsLeft};
ghost use Rattle.search_engine.specs.NextPage.{IsNextPage};
ghost use Rattle.search_engine.specs.Waiting.{PrintsPage, Slotted, page};
ghost use Rattle.search_engine.specs.Worked.{AreMatched, IsWorkedBy};

use crate::counts::Counts;
use crate::printing::{Printer, print_page};
use crate::refusal::PrintRefusal;
use column_store::Columns;
use log_seams::Disk;
use search_walk::{Context, Label, SearchRefusal, decide_rows};
use segment_pages::SegmentPages;
use std::alloc::Global;
use std::marker::{Brand, Model};
use std::sync::ledger::{Blank, Ledger};
use step_count::Steps;
use subquery_filter::Verdict;
use word_places::HeldWords;

/// The counts of no search.
pub(crate) const NO_COUNTS: Counts = Counts {
    matched: 0,
    expanded: 0,
};

/// A page in memory, what was decided of its rows, and what its search left: the lines of the
/// messages that are found, the counts, and whether it went through.
#[derive(Drop)]
pub(crate) struct PageSlot {
    /// The name of the file.
    name: Vec<u8>,
    /// The number of the first message.
    number: u64,
    columns: Columns,
    /// What was decided of each row.
    verdicts: Vec<Verdict>,
    text: Vec<u8>,
    counts: Counts,
    answer: Result<(), PrintRefusal>,
}

impl Model for PageSlot {
    ghost use Rattle.std.specs.Prelude.{◌≡◌, ◌<◌, ◌+◌, ◌^◌, length};
    ghost use Rattle.search_engine.specs.Waiting.{Slotted, page};

    ghost Value = { Slotted };

    ghost view = { λ s. record {
      page = page s.name.items s.number s.columns.rows s.verdicts.items;
      text = s.text.items;
      counts = s.counts;
      answer = s.answer;
    } };

    ghost invariant = { λ s. (s.number + length s.columns.rows < 2 ^ 64)
        × (length s.verdicts.items ≡ length s.columns.rows) };
}

impl PageSlot {
    /// A page without rows. Takes no memory.
    pub(crate) fn new(alloc: Global) -> PageSlot {
        PageSlot {
            name: Vec::new(alloc),
            number: 0,
            columns: Columns::new(alloc),
            verdicts: Vec::new(alloc),
            text: Vec::new(alloc),
            counts: NO_COUNTS,
            answer: Ok(()),
        }
    }

    /// How many rows it has.
    pub(crate) fn rows(&self) -> u32
        ensures { result ≡ length self.now.page.rows }
    {
        self.columns.rows()
    }

    /// The lines that its search left.
    pub(crate) fn text(&self) -> &[u8]
        ensures { result.now ≡ self.now.text }
    {
        self.text.as_slice()
    }

    /// The counts that its search left.
    pub(crate) fn counts(&self) -> Counts
        ensures { result ≡ self.now.counts }
    {
        self.counts
    }

    /// Whether its search went through.
    pub(crate) fn answer(&self) -> Result<(), PrintRefusal>
        ensures { result ≡ self.now.answer }
    {
        self.answer
    }

    /// Reads the next page in the place of the one that it has, decides its rows, and reads the
    /// words by which they may have to be written.
    pub(crate) fn read<D: Disk>(
        self,
        context: &Context<'_, D>,
        held: &mut HeldWords,
        label: Label<'_>,
        pages: &mut SegmentPages,
        disk: &mut D,
        bytes: &mut Vec<u8>,
    ) -> Result<PageSlot, SearchRefusal>
        requires left { IsLeft pages.old label.number }
        requires serves { Serves context.now.names held.old }
        requires told { (D.state disk.old).seen ≡ context.now.names.told }

        // what stays, and what grows
        ensures reads { ReadsPage context.now.names pages.old
            (D.state disk.old) (D.state disk.new) }
        ensures serves { Serves context.now.names held.new }
        ensures grow { Grow held.old.records held.new.records }

        // by the answer
        ensures page { IfOk result (λ s. IsNextPage context.now.names context.now.query held.new
            (D.state disk.old).seen pages.old pages.new
            label.entry.name.now label.entry.number s.page) }

        // causes
        ensures damaged { IsErrOf result SearchRefusal.Damaged → OfLeft
            (D.state disk.old).seen pages.old context.now.names (λ _. ⊥) }
        ensures counts { CountsOf SearchRefusal.DiskFault
            (D.state disk.old).faults (D.state disk.new).faults result }
        ensures sink { ¬ IsErrOf result SearchRefusal.SinkFault }
    {
        let PageSlot {
            name: mut kept,
            number: _,
            columns,
            mut verdicts,
            text,
            counts,
            answer,
        } = self;
        kept.clear();
        kept.extend_from_slice(label.name)?;
        let columns = pages.next_page(disk, bytes, columns)?;
        decide_rows(context, &columns, held, disk, &mut verdicts)?;
        Ok(PageSlot {
            name: kept,
            number: label.number,
            columns,
            verdicts,
            text,
            counts,
            answer,
        })
    }
}

// Searches a page, with a counter of its own. Its counts are exact, as a page is small.
fn match_counted<M: Ledger>(
    printer: &Printer<'_>,
    slot: &mut PageSlot,
    blank: Blank,
) -> Result<(), PrintRefusal>
    requires blank { OpensFor blank M.name M.parts }
    requires types { AreCut printer.now.layouts.now printer.now.held.now.types }
    ensures page { slot.new.page ≡ slot.old.page }
    ensures done { OnOk result ((n : Named)
        → IsReadyPage n printer.now.query.now printer.now.held.now
        slot.old.page.rows slot.old.page.verdicts
        → PrintsPage n printer.now.query.now slot.old.page slot.new.text slot.new.counts) }
    ensures damaged { IsErrOf result PrintRefusal.Damaged → (n : Named)
        → IsReadyPage n printer.now.query.now printer.now.held.now
        slot.old.page.rows slot.old.page.verdicts
        → (messages : List (List ℕ)) → ¬ AreRowsOf n slot.old.page.rows messages }
{
    let mut expanded: Steps<M> = Steps::new(blank);
    slot.text.clear();
    slot.counts = NO_COUNTS;
    let label = Label {
        name: slot.name.as_slice(),
        number: slot.number,
    };
    print_page(
        printer,
        label,
        &slot.columns,
        slot.verdicts.as_slice(),
        &mut slot.text,
        &mut slot.counts,
        &mut expanded,
    )
}

/// Searches a page that is in memory.
fn match_page(printer: &Printer<'_>, slot: &mut PageSlot)
    requires types { AreCut printer.now.layouts.now printer.now.held.now.types }
    ensures page { slot.new.page ≡ slot.old.page }
    ensures worked { IsWorkedBy printer.now.query.now printer.now.held.now slot.new }
{
    let answer = match_counted::<Brand>(printer, slot, Blank::new(1));
    slot.answer = answer;
}

/// Searches pages that are in memory, one after the other.
pub(crate) fn match_chunk(printer: &Printer<'_>, slots: &mut [PageSlot])
    requires types { AreCut printer.now.layouts.now printer.now.held.now.types }
    ensures { AreMatched printer.now.query.now printer.now.held.now slots.old slots.new }
{
    for slot in slots.iter_mut() {
        match_page(printer, slot);
    }
}
