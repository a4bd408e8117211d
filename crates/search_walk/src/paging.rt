//! The pages of a segment, read one after the other.
ghost use Rattle.std.specs.Prelude.{◌≡◌, ◌<◌, ◌+◌, ◌^◌, IfSome, OnOk};
ghost use Rattle.log_seams.specs.Outside.{CountsOf};
ghost use Rattle.search_walk.specs.PagesRead.{ReadsPage};
ghost use Rattle.search_walk.specs.Walked.{TellAhead, WentOverPages};

use crate::context::Context;
use crate::label::Label;
use crate::passing::{Ahead, TypeRoom, known_of, read_ahead, take_next};
use crate::refusal::SearchRefusal;
use crate::taking::TakesPages;
use log_seams::Disk;
use segment_pages::SegmentPages;
use word_places::HeldWords;

/// Goes over the pages of a segment, of whose log types this is known: those that they rule out are
/// passed, and the others are taken.
fn take_pages<D: Disk, W: TakesPages>(
    context: &Context<'_, D>,
    held: &mut HeldWords,
    label: Label<'_>,
    pages: SegmentPages,
    disk: &mut D,
    work: &mut W,
    known: Option<&[u32]>,
    buffer: &mut Vec<u8>,
) -> Result<(), SearchRefusal>
    requires begins { (pages.pages.row ≡ 0)
        × (label.number + pages.pages.rows + 4096 < 2 ^ 64) }
    requires served { W.served work.old context.now held.old }
    requires told { (D.state disk.old).seen ≡ context.now.names.told }
    requires known { IfSome known (λ types. TellAhead (D.state disk.old).seen pages
        context.now.names context.now.query types.now) }

    // what stays
    ensures reads { ReadsPage context.now.names pages (D.state disk.old) (D.state disk.new) }
    ensures lent { W.lent work.new ≡ W.lent work.old }
    ensures served { OnOk result (W.served work.new context.now held.new) }

    // by the answer
    ensures went { WentOverPages
        (W.reaches work.old work.new context.now.names context.now.query)
        (W.halts work.old work.new context.now.names context.now.query)
        (W.stands work.old context.now.names) (D.state disk.old).seen pages context.now.names
        label.entry.name.now label.entry.number result }

    // causes
    ensures disk_counts { CountsOf SearchRefusal.DiskFault
        (D.state disk.old).faults (D.state disk.new).faults result }
    ensures sink_counts { CountsOf SearchRefusal.SinkFault
        (W.sink_faults work.old) (W.sink_faults work.new) result }
{
    let mut pages = pages;
    let mut at = label.number;
    while pages.has_next() {
        let here = Label {
            name: label.name,
            number: at,
        };
        let gone = (at - label.number) as usize;
        let ahead = Ahead { known, gone };
        let rows = take_next(context, held, here, &mut pages, disk, work, ahead, buffer)?;
        at += u64::from(rows);
    }
    Ok(())
}

/// Goes over the pages of a segment, whose first message has this label. The log types of all its
/// rows come first, by one read: pages that they rule out are passed, and the others are taken.
pub(crate) fn read_pages<D: Disk, W: TakesPages>(
    context: &Context<'_, D>,
    held: &mut HeldWords,
    label: Label<'_>,
    pages: SegmentPages,
    disk: &mut D,
    work: &mut W,
    room: &mut TypeRoom,
) -> Result<(), SearchRefusal>
    requires first { pages.pages.row ≡ 0 }
    requires small { label.number + pages.pages.rows + 4096 < 2 ^ 64 }
    requires served { W.served work.old context.now held.old }
    requires told { (D.state disk.old).seen ≡ context.now.names.told }

    // what stays
    ensures reads { ReadsPage context.now.names pages (D.state disk.old) (D.state disk.new) }
    ensures lent { W.lent work.new ≡ W.lent work.old }
    ensures served { OnOk result (W.served work.new context.now held.new) }

    // by the answer
    ensures went { WentOverPages
        (W.reaches work.old work.new context.now.names context.now.query)
        (W.halts work.old work.new context.now.names context.now.query)
        (W.stands work.old context.now.names) (D.state disk.old).seen pages context.now.names
        label.entry.name.now label.entry.number result }

    // causes
    ensures disk_counts { CountsOf SearchRefusal.DiskFault
        (D.state disk.old).faults (D.state disk.new).faults result }
    ensures sink_counts { CountsOf SearchRefusal.SinkFault
        (W.sink_faults work.old) (W.sink_faults work.new) result }
{
    let told = read_ahead(&pages, disk, room)?;
    let known = known_of(context, told, room.types.as_slice());
    take_pages(
        context,
        held,
        label,
        pages,
        disk,
        work,
        known,
        &mut room.bytes,
    )
}
