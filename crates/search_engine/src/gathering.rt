//! What the searches of pages left, sent on in the order of the pages.
ghost use Rattle.std.specs.Prelude.{◌≡◌, ◌+◌, ◌++◌, OnOk, OnErr, IsErrOf};
ghost use Rattle.log_seams.specs.Outside.{CountsOf};
ghost use Rattle.sink_pieces.specs.Output.{GrewByFront, Moves};
ghost use Rattle.search_engine.specs.Sofar.{Passes, Stops, sofar};
ghost use Rattle.search_engine.specs.Waiting.{OfAllWorked, OfWorked};

use crate::counts::Counts;
use crate::page_slot::PageSlot;
use log_seams::Sink;
use search_walk::SearchRefusal;
use sink_pieces::{PIECE, flush, flush_piece, write_all};
use std::sync::ledger::Ledger;
use step_count::Steps;

/// Sends a text behind what is gathered. One that is long enough for a piece is not copied.
pub(crate) fn put_text<K: Sink>(
    out: &mut K,
    gathered: &mut Vec<u8>,
    text: &[u8],
) -> Result<(), SearchRefusal>
    // by the answer
    ensures done { OnOk result (Moves (K.written out.old) (K.written out.new)
        (gathered.old.items ++ text.now) gathered.new.items) }
    ensures stopped { OnErr result (GrewByFront (K.written out.old) (K.written out.new)
        (gathered.old.items ++ text.now)) }

    // causes
    ensures damaged { ¬ IsErrOf result SearchRefusal.Damaged }
    ensures disk { ¬ IsErrOf result SearchRefusal.DiskFault }
    ensures sink_counts { CountsOf SearchRefusal.SinkFault
        (K.faults out.old) (K.faults out.new) result }
{
    if text.len() < PIECE {
        gathered.extend_from_slice(text)?;
        flush_piece(out, gathered)?;
        return Ok(());
    }
    flush(out, gathered)?;
    write_all(out, text)?;
    Ok(())
}

/// Ticks so often.
pub(crate) fn tick_times<M: Ledger>(times: u64, expanded: &mut Steps<M>)
    ensures { expanded.new ≡ expanded.old + times }
{
    for _ in 0..times {
        expanded.tick();
    }
}

/// Sends on what the search of a page left. Where it did not go through, what the pages before it
/// left is sent out first.
fn gather<K: Sink, M: Ledger>(
    slot: &PageSlot,
    out: &mut K,
    gathered: &mut Vec<u8>,
    counts: &mut Counts,
    expanded: &mut Steps<M>,
) -> Result<(), SearchRefusal>
    // by the answer
    ensures done { OnOk result (OfWorked slot.now (λ n q all. Passes n.version q all
        (sofar (K.written out.old) gathered.old.items counts.old expanded.old)
        (sofar (K.written out.new) gathered.new.items counts.new expanded.new))) }
    ensures stopped { OnErr result (OfWorked slot.now (λ n q all. Stops n.version q all
        (sofar (K.written out.old) gathered.old.items counts.old expanded.old)
        (K.written out.new) expanded.new)) }

    // causes
    ensures damaged { IsErrOf result SearchRefusal.Damaged → OfWorked slot.now (λ _ _ _. ⊥) }
    ensures disk { ¬ IsErrOf result SearchRefusal.DiskFault }
    ensures sink_counts { CountsOf SearchRefusal.SinkFault
        (K.faults out.old) (K.faults out.new) result }
{
    if let Err(refusal) = slot.answer() {
        flush(out, gathered)?;
        return Err(SearchRefusal::from(refusal));
    }
    put_text(out, gathered, slot.text())?;
    let own = slot.counts();
    tick_times(own.expanded, expanded);
    counts.matched = counts.matched.saturating_add(own.matched);
    counts.expanded = counts.expanded.saturating_add(own.expanded);
    Ok(())
}

/// Sends on what the searches of pages left, in order, up to the first that did not go through.
pub(crate) fn gather_all<K: Sink, M: Ledger>(
    slots: &[PageSlot],
    out: &mut K,
    gathered: &mut Vec<u8>,
    counts: &mut Counts,
    expanded: &mut Steps<M>,
) -> Result<(), SearchRefusal>
    // by the answer
    ensures done { OnOk result (OfAllWorked slots.now (λ n q all. Passes n.version q all
        (sofar (K.written out.old) gathered.old.items counts.old expanded.old)
        (sofar (K.written out.new) gathered.new.items counts.new expanded.new))) }
    ensures stopped { OnErr result (OfAllWorked slots.now (λ n q all. Stops n.version q all
        (sofar (K.written out.old) gathered.old.items counts.old expanded.old)
        (K.written out.new) expanded.new)) }

    // causes
    ensures damaged { IsErrOf result SearchRefusal.Damaged
        → OfAllWorked slots.now (λ _ _ _. ⊥) }
    ensures disk { ¬ IsErrOf result SearchRefusal.DiskFault }
    ensures sink_counts { CountsOf SearchRefusal.SinkFault
        (K.faults out.old) (K.faults out.new) result }
{
    for slot in slots {
        gather(slot, out, gathered, counts, expanded)?;
    }
    Ok(())
}
