//! The next segment of a file that is taken over.
ghost use Rattle.std.specs.Prelude.{◌≡◌, [], ℕ, List, IsErrOf, OnOk, Some};
ghost use Rattle.log_seams.specs.Disk.{Rests};
ghost use Rattle.log_seams.specs.Outside.{CountsOf};
ghost use Rattle.row_rename.specs.Causes.{IsFull};
ghost use Rattle.row_rename.specs.Paths.{HasNamedMore};
ghost use Rattle.archive_merge.specs.Next.{HoldsNext, TakesNext, part_of};
ghost use Rattle.archive_merge.specs.Needed.{IsTextThere};
ghost use Rattle.archive_merge.specs.Taken.{HasNamed, Serves, books_by, texts_by, texts_in};
ghost use Rattle.archive_merge.specs.declared.stop.Stop.TheVariants.{SecondDamaged, SecondFault};

use crate::hand::Hand;
use crate::segment::take_segment;
use crate::stop::Stop;
use crate::taker::Taker;
use archive_core::{Part, ends_well, may_follow};
use archive_open::SegmentPlace;
use log_seams::Disk;
use row_codec::{Namer, Names};
use segment_format::Head;

// Which part of its file a segment with this head is.
fn part_of(head: &Head) -> Part
    ensures { result ≡ part_of head.now }
{
    Part {
        file: head.file,
        first: head.first,
        last: head.last,
        ended: head.ended,
    }
}

/// Takes a segment over as the next one of the file in hand, where it goes on with that, and marks
/// the hand as the segment is marked. It only reads the disk.
///
/// # Errors
///
/// [`Stop::Full`]; [`Stop::SecondDamaged`], where the bytes hold no segment at the place that may go
/// on with the file; [`Stop::SecondFault`]; or [`Stop::OutOfMemory`]. Some of the rows may be in hand
/// then.
pub(crate) fn take_next<M: Names, N: Namer, E: Disk>(
    place: &SegmentPlace,
    names: &M,
    taker: &mut Taker,
    namer: &mut N,
    disk: &mut E,
    hand: &mut Hand,
) -> Result<(), Stop>
    requires serves { Serves (M.version names.now) (texts_by M.types M.words names.now)
        (books_by N.types N.words namer.old) taker.old }
    requires empty { hand.old.draft.columns.rows ≡ [] }

    // what stays, and what is named
    ensures rests { Rests (E.state disk.old) (E.state disk.new) }
    ensures named { HasNamed
        (IsTextThere (texts_by M.types M.words names.now) (E.state disk.old).seen place.now)
        (M.version names.now) (texts_by M.types M.words names.now)
        (books_by N.types N.words namer.old) (books_by N.types N.words namer.new) taker.new }
    ensures namer { (N.version namer.new ≡ N.version namer.old)
        × HasNamedMore N.naming namer.old namer.new }

    // by the answer
    ensures taken { OnOk result (TakesNext (M.version names.now)
        (texts_by M.types M.words names.now) (texts_in (books_by N.types N.words namer.old))
        (texts_in (books_by N.types N.words namer.new))
        place.now (E.state disk.old).seen hand.old hand.new) }

    // causes
    ensures full { (book : _) (count : ℕ) → IsErrOf result (Stop.Full book count)
        → IsFull book (M.types names.now) (M.words names.now)
        (N.types namer.new) (N.words namer.new) count }
    ensures damaged { IsErrOf result SecondDamaged
        → (bytes : List ℕ) → (E.state disk.old).seen ≡ Some bytes
        → ¬ HoldsNext (M.version names.now) (texts_by M.types M.words names.now)
        place.now bytes hand.old }
    ensures disk { CountsOf SecondFault (E.state disk.old).faults (E.state disk.new).faults result }
{
    let sum = hand.sum();
    let part = part_of(&place.head);
    let open_end = take_segment(place, hand.open_end, names, taker, namer, disk, hand)?;
    if !may_follow(sum, part, &hand.draft.columns) || !ends_well(part, open_end) {
        return Err(Stop::SecondDamaged);
    }
    hand.draft.last = part.last;
    hand.draft.ended = part.ended;
    hand.open_end = open_end;
    Ok(())
}
