//! What takes the pages of segments, as a walk reads them.
ghost use Rattle.std.specs.Prelude.{◌≡◌, ℕ, List, [], IfOk, OnOk, OnErr, IsErrOf};
ghost use Rattle.log_seams.specs.Outside.{CountsOf};
ghost use Rattle.word_places.specs.Held.{HeldNames};
ghost use Rattle.search_walk.specs.Held.{Named, OfLeft};
ghost use Rattle.search_walk.specs.PagesRead.{ReadsPage};
ghost use Rattle.printed_lines.specs.Lines.{Placed, numbered};
ghost use Rattle.search_meaning.specs.Scan.{Asked};
ghost use Rattle.search_walk.specs.StepsScope.{Scope};
ghost use Rattle.search_walk.specs.Takes.{GoesOn, HasWords, IsLeft, PassesOver, StandsOn, StopsBehind, StopsHere, StopsWithin};
ghost use Rattle.search_walk.specs.Walked.{PagesGone, PastTold};

use crate::context::Context;
use crate::label::Label;
use crate::refusal::SearchRefusal;
use log_seams::Disk;
use segment_pages::SegmentPages;
use word_places::HeldWords;

/// What takes the pages of segments, in their order, as a walk reads them. Pages may wait in it.
///
/// How far it came is told by words of its own, of which the laws below hold; so a walk is proved
/// for whatever becomes of the pages.
pub trait TakesPages {
    // It may go on, with these words held.
    ghost served: { Self → Scope → HeldNames → Type 0 };

    // From the one to the other it got past these messages.
    ghost reaches: { Self → Self → Named → Asked → List Placed → Type 0 };

    // It stopped among these.
    ghost halts: { Self → Self → Named → Asked → List Placed → Type 0 };

    // What it has in hand stands for messages.
    ghost stands: { Self → Named → Type 0 };

    // The names of what was lent to it.
    ghost lent: { Self → List ℕ };

    // How many faults that had to which it writes, if it writes.
    ghost sink_faults: { Self → ℕ };

    /// Reads the next page, whose first message has this label, or several of the next pages of the
    /// segment, and takes them. Answers how many rows they have.
    ///
    /// # Errors
    ///
    /// `DiskFault` or `SinkFault`, where the count of faults of the disk or of what it writes to
    /// rose; `Damaged`, where a page, or what is in hand, is none of an archive; or `OutOfMemory`.
    fn take_page<D: Disk>(
        &mut self,
        context: &Context<'_, D>,
        held: &mut HeldWords,
        label: Label<'_>,
        pages: &mut SegmentPages,
        disk: &mut D,
    ) -> Result<u32, SearchRefusal>
        requires left { IsLeft pages.old label.number }
        requires served { served self.old context.now held.old }
        requires told { (D.state disk.old).seen ≡ context.now.names.told }

        // what stays
        ensures reads { ReadsPage context.now.names pages.old
            (D.state disk.old) (D.state disk.new) }
        ensures lent { lent self.new ≡ lent self.old }
        ensures served { OnOk result (served self.new context.now held.new) }

        // by the answer
        ensures gone { IfOk result (λ rows. PagesGone pages.old pages.new rows) }
        ensures done { IfOk result (λ rows. PastTold
            (reaches self.old self.new context.now.names context.now.query)
            (D.state disk.old).seen pages.old context.now.names
            label.entry.name.now label.entry.number pages.new rows) }
        ensures stopped { OnErr result (OfLeft (D.state disk.old).seen pages.old
            context.now.names (λ messages. halts self.old self.new
            context.now.names context.now.query
            (numbered label.entry.name.now label.entry.number messages))) }

        // causes
        ensures damaged { IsErrOf result SearchRefusal.Damaged → stands self.old context.now.names
            → OfLeft (D.state disk.old).seen pages.old context.now.names (λ _. ⊥) }
        ensures disk_counts { CountsOf SearchRefusal.DiskFault
            (D.state disk.old).faults (D.state disk.new).faults result }
        ensures sink_counts { CountsOf SearchRefusal.SinkFault
            (sink_faults self.old) (sink_faults self.new) result };

    /// Ends what is begun: no page waits behind it, and what is to be written is written.
    ///
    /// # Errors
    ///
    /// `SinkFault`, where the count of faults of what it writes to rose; `Damaged`, where what is
    /// in hand is none of an archive; or `OutOfMemory`.
    fn finish<D: Disk>(
        &mut self,
        context: &Context<'_, D>,
        held: &HeldWords,
    ) -> Result<(), SearchRefusal>
        requires served { served self.old context.now held.now }

        // what stays
        ensures lent { lent self.new ≡ lent self.old }

        // by the answer
        ensures done { OnOk result
            (reaches self.old self.new context.now.names context.now.query []) }
        ensures stopped { OnErr result
            (halts self.old self.new context.now.names context.now.query []) }

        // causes
        ensures damaged { IsErrOf result SearchRefusal.Damaged
            → ¬ stands self.old context.now.names }
        ensures disk { ¬ IsErrOf result SearchRefusal.DiskFault }
        ensures sink_counts { CountsOf SearchRefusal.SinkFault
            (sink_faults self.old) (sink_faults self.new) result };

    // Laws. Past messages that are neither found nor tried it gets by no step.
    ghost passes_over: { PassesOver reaches };

    // What it got past goes together.
    ghost goes_on: { GoesOn reaches };

    // Who did nothing has stopped, who stopped behind messages stopped among all, and who stopped
    // among messages stopped among more.
    ghost stops_here: { StopsHere halts };

    ghost stops_behind: { StopsBehind reaches halts };

    ghost stops_within: { StopsWithin halts };

    // What is in hand goes on to stand for messages.
    ghost stands_on: { StandsOn reaches stands };

    // The words that are held are those of the names.
    ghost has_words: { HasWords served };
}
