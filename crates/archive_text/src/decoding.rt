//! The text of a file of an archive, written into a sink.
ghost use Rattle.std.specs.Prelude.{◌≡◌, ◌<◌, ◌≤◌, ℕ, List, Option, Some, length, is_ok, IfSome, IsErrOf, OnErr, OnOk};
ghost use Rattle.log_seams.specs.Disk.{Rests};
ghost use Rattle.log_seams.specs.Outside.{CountsOf};
ghost use Rattle.sink_pieces.specs.Output.{Took};
ghost use Rattle.row_codec.specs.Laid.{AreCut};
ghost use Rattle.archive_open.specs.Archive.{shown};
ghost use Rattle.archive_open.specs.Shown.{Opens, StandsForNone};
ghost use Rattle.archive_text.specs.Ahead.{IsPast, ahead, work};
ghost use Rattle.archive_text.specs.Decoded.{Decodes};
ghost use Rattle.archive_text.specs.Sent.{IsSent, Sends, SendsFront, SendsNone};

use crate::places::{ends_open, segments_of};
use crate::refusal::DecodeRefusal;
use crate::walk::{TextRoom, Walk, advance, write_rows};
use archive_open::{Archive, KeepsTexts};
use log_seams::{Disk, Sink};
use row_codec::{Layouts, Names};
use sink_pieces::{flush, flush_piece};
use std::alloc::Global;

// Of how many log types the text is cut before rows are written: of the common ones, which come first.
// What is cut is longer than the text, and of an archive whose messages have several lines most log types
// have one row. Free to tune.
const LAID_TYPES: u32 = 4096;

// Sends the rows that are left of the page in hand, each piece once there is enough for it.
fn send_page<N: Names, K: Sink>(
    names: &N,
    layouts: &Layouts,
    walk: &mut Walk<'_>,
    out: &mut K,
) -> Result<(), DecodeRefusal>
    requires types { AreCut layouts.now (N.types names.now) }

    // what stays
    ensures work { OnOk result (work (ahead walk.new) ≡ work (ahead walk.old)) }

    // by the answer
    ensures done { OnOk result (length walk.new.columns.rows ≤ walk.new.row) }
    ensures sends { OnOk result ((seen : Option (List ℕ))
        → Sends seen (N.types names.now) (N.words names.now)
        (K.written out.old) (K.written out.new) walk.old walk.new) }
    ensures front { OnErr result ((seen : Option (List ℕ))
        → SendsFront seen (N.types names.now) (N.words names.now)
        (K.written out.old) (K.written out.new) walk.old) }

    // causes
    ensures damaged { IsErrOf result DecodeRefusal.Damaged → (seen : Option (List ℕ))
        → SendsNone seen (N.types names.now) (N.words names.now) (K.written out.old) walk.old }
    ensures disk { ¬ IsErrOf result DecodeRefusal.DiskFault }
    ensures sink { CountsOf DecodeRefusal.SinkFault (K.faults out.old) (K.faults out.new) result }
{
    while walk.row < walk.columns.rows() {
        write_rows(names, layouts, walk)?;
        flush_piece(out, &mut walk.lines.gathered)?;
    }
    Ok(())
}

// Sends the rows of the pages and segments behind the page in hand, whose rows were sent.
fn send_pages<N: Names, D: Disk, K: Sink>(
    names: &N,
    layouts: &Layouts,
    disk: &mut D,
    walk: &mut Walk<'_>,
    out: &mut K,
) -> Result<(), DecodeRefusal>
    requires types { AreCut layouts.now (N.types names.now) }
    requires done { length walk.old.columns.rows ≤ walk.old.row }

    // what stays
    ensures rests { Rests (D.state disk.old) (D.state disk.new) }

    // by the answer
    ensures past { OnOk result (IsPast (ahead walk.new)) }
    ensures sends { OnOk result (Sends (D.state disk.old).seen (N.types names.now)
        (N.words names.now) (K.written out.old) (K.written out.new) walk.old walk.new) }
    ensures front { OnErr result (SendsFront (D.state disk.old).seen (N.types names.now)
        (N.words names.now) (K.written out.old) (K.written out.new) walk.old) }

    // causes
    ensures damaged { IsErrOf result DecodeRefusal.Damaged
        → SendsNone (D.state disk.old).seen (N.types names.now) (N.words names.now)
        (K.written out.old) walk.old }
    ensures disk { CountsOf DecodeRefusal.DiskFault
        (D.state disk.old).faults (D.state disk.new).faults result }
    ensures sink { CountsOf DecodeRefusal.SinkFault (K.faults out.old) (K.faults out.new) result }
{
    while advance(disk, walk)? {
        send_page(names, layouts, walk, out)?;
    }
    Ok(())
}

// Sends what is ahead of a walk, and the newline behind the last message, unless its end is open.
fn send_all<N: Names, D: Disk, K: Sink>(
    names: &N,
    layouts: &Layouts,
    open_end: bool,
    disk: &mut D,
    walk: &mut Walk<'_>,
    out: &mut K,
) -> Result<(), DecodeRefusal>
    requires types { AreCut layouts.now (N.types names.now) }
    requires done { length walk.old.columns.rows ≤ walk.old.row }

    // what stays
    ensures rests { Rests (D.state disk.old) (D.state disk.new) }

    // by the answer
    ensures took { (bytes text : List ℕ) (start : Option (List ℕ))
        → (D.state disk.old).seen ≡ Some bytes
        → IsSent (N.types names.now) (N.words names.now) open_end bytes start
        (K.written out.old) walk.old text
        → Took (is_ok result) start (K.written out.new) text }

    // causes
    ensures damaged { IsErrOf result DecodeRefusal.Damaged
        → SendsNone (D.state disk.old).seen (N.types names.now) (N.words names.now)
        (K.written out.old) walk.old }
    ensures disk { CountsOf DecodeRefusal.DiskFault
        (D.state disk.old).faults (D.state disk.new).faults result }
    ensures sink { CountsOf DecodeRefusal.SinkFault (K.faults out.old) (K.faults out.new) result }
{
    send_pages(names, layouts, disk, walk, out)?;
    walk.lines.end(open_end)?;
    flush(out, &mut walk.lines.gathered)?;
    Ok(())
}

/// Writes the bytes of the file of a number into a sink, in pieces of 32 KiB: of a whole file the
/// bytes that it had, of a part each of its messages that the archive has with a newline behind it.
/// It only reads the disk.
///
/// # Errors
///
/// `DiskFault`, where the disk's count of faults rose; `Damaged`, where the disk's bytes stand for no
/// archive; `SinkFault`, where the sink's count of faults rose; or `OutOfMemory`. Then the sink took a
/// front of the file's bytes.
pub fn decode<N: KeepsTexts + Drop, D: Disk, K: Sink>(
    alloc: Global,
    archive: &Archive<N>,
    number: u32,
    disk: &mut D,
    out: &mut K,
) -> Result<(), DecodeRefusal>
    requires opened { Opens (D.state disk.old).seen (shown N.kept archive.now) }
    requires there { number < length (shown N.kept archive.now).files }

    // what stays
    ensures rests { Rests (D.state disk.old) (D.state disk.new) }

    // by the answer
    ensures decoded { Decodes (is_ok result) number
        (D.state disk.old).seen (K.written out.old) (K.written out.new) }

    // causes
    ensures damaged { IsErrOf result DecodeRefusal.Damaged
        → IfSome (D.state disk.old).seen StandsForNone }
    ensures disk { CountsOf DecodeRefusal.DiskFault
        (D.state disk.old).faults (D.state disk.new).faults result }
    ensures sink { CountsOf DecodeRefusal.SinkFault (K.faults out.old) (K.faults out.new) result }
{
    let names = archive.names();
    let layouts = Layouts::front(alloc, names, LAID_TYPES)?;
    let places = segments_of(archive.segments().as_slice(), number);
    let open_end = ends_open(&archive.files().as_slice()[number as usize]);
    let mut walk = Walk::new(alloc, places, TextRoom::new(alloc), 0);
    send_all(names, &layouts, open_end, disk, &mut walk, out)
}
