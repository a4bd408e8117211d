//! The next bytes of a text.
ghost use Rattle.std.specs.Prelude.{◌≡◌, ◌+◌, ◌≤◌, ◌<◌, ◌⊎◌, length, IfOk, IsErrOf, IsTrue, OnErr, OnOk};
ghost use Rattle.log_seams.specs.Disk.{Rests};
ghost use Rattle.log_seams.specs.Outside.{CountsOf};
ghost use Rattle.row_codec.specs.Laid.{AreCut};
ghost use Rattle.archive_text.specs.Way.{GivesTold, NotOnWay, OnWayTold};

use crate::walk::{Walk, gather};
use log_seams::Disk;
use row_codec::{Layouts, Names};
use segment_pages::PageRefusal;

// Writes out what comes next, where all that was written out was given.
fn fill<N: Names, D: Disk>(
    names: &N,
    layouts: &Layouts,
    open_end: bool,
    disk: &mut D,
    walk: &mut Walk<'_>,
) -> Result<(), PageRefusal>
    requires types { AreCut layouts.now (N.types names.now) }
    requires within { walk.old.lines.sent ≤ length walk.old.lines.gathered.items }

    // what stays
    ensures rests { Rests (D.state disk.old) (D.state disk.new) }
    ensures given { walk.new.lines.given ≡ walk.old.lines.given }

    // by the answer
    ensures on { OnOk result (OnWayTold (D.state disk.old).seen (N.types names.now)
        (N.words names.now) open_end walk.old walk.new) }
    ensures within { OnOk result
        (walk.new.lines.sent ≤ length walk.new.lines.gathered.items) }
    ensures ready { OnOk result ((walk.new.lines.sent < length walk.new.lines.gathered.items)
        ⊎ IsTrue walk.new.ended) }

    // causes
    ensures damaged { IsErrOf result PageRefusal.Damaged
        → NotOnWay (D.state disk.old).seen (N.types names.now) (N.words names.now) open_end
        walk.old }
    ensures disk { CountsOf PageRefusal.DiskFault
        (D.state disk.old).faults (D.state disk.new).faults result }
{
    if walk.ended || !walk.lines.is_spent() {
        return Ok(());
    }
    walk.lines.restart();
    if gather(names, layouts, disk, walk)? {
        walk.lines.end(open_end)?;
        walk.ended = true;
    }
    Ok(())
}

/// Gives the next bytes of a text to the front of a buffer, which has some room, and tells how
/// many. There are none at the end alone.
pub(crate) fn give_next<N: Names, D: Disk>(
    names: &N,
    layouts: &Layouts,
    open_end: bool,
    disk: &mut D,
    walk: &mut Walk<'_>,
    buf: &mut [u8],
) -> Result<usize, PageRefusal>
    requires types { AreCut layouts.now (N.types names.now) }
    requires within { walk.old.lines.sent ≤ length walk.old.lines.gathered.items }
    requires room { 0 < length buf.old }

    // what stays
    ensures rests { Rests (D.state disk.old) (D.state disk.new) }
    ensures kept { OnErr result (walk.new.lines.given ≡ walk.old.lines.given) }

    // by the answer
    ensures on { OnOk result (OnWayTold (D.state disk.old).seen (N.types names.now)
        (N.words names.now) open_end walk.old walk.new) }
    ensures these { IfOk result (λ n. GivesTold (D.state disk.old).seen (N.types names.now)
        (N.words names.now) open_end walk.old n buf.new) }
    ensures given { IfOk result (λ n. walk.new.lines.given ≡ walk.old.lines.given + n) }
    ensures within { OnOk result
        (walk.new.lines.sent ≤ length walk.new.lines.gathered.items) }
    ensures room { IfOk result (λ n. n ≤ length buf.old) }

    // causes
    ensures damaged { IsErrOf result PageRefusal.Damaged
        → NotOnWay (D.state disk.old).seen (N.types names.now) (N.words names.now) open_end
        walk.old }
    ensures disk { CountsOf PageRefusal.DiskFault
        (D.state disk.old).faults (D.state disk.new).faults result }
{
    fill(names, layouts, open_end, disk, walk)?;
    let count = walk.lines.give(buf)?;
    Ok(count)
}
