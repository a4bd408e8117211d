//! Segments of the second archive.
ghost use Rattle.std.specs.Prelude.{◌≡◌, [], ℕ, List, IfOk, IfSome, IsErrOf, IsNone, Some};
ghost use Rattle.log_seams.specs.Disk.{Rests};
ghost use Rattle.log_seams.specs.Outside.{CountsOf};
ghost use Rattle.step_count.specs.Opens.{OpensFor};
ghost use Rattle.column_store.specs.declared.row.Row.{Row};
ghost use Rattle.row_rename.specs.Causes.{IsFull};
ghost use Rattle.row_rename.specs.Paths.{HasNamedMore};
ghost use Rattle.segment_pages.specs.Paged.{HoldsLeft, HoldsSegment, paged_first};
ghost use Rattle.archive_merge.specs.InHand.{SameMarks};
ghost use Rattle.archive_merge.specs.Needed.{IsTextThere};
ghost use Rattle.archive_merge.specs.Taken.{HasNamed, MayTakeSegment, Serves, TakesSegment, books_by, texts_by, texts_in};
ghost use Rattle.archive_merge.specs.declared.stop.Stop.TheVariants.{SecondDamaged, SecondFault};

use crate::hand::Hand;
use crate::rows::take_page;
use crate::stop::Stop;
use crate::taker::Taker;
use archive_meaning::MAX_ROWS;
use archive_open::SegmentPlace;
use column_store::Columns;
use log_seams::Disk;
use row_codec::{Namer, Names};
use segment_pages::{SegmentPages, none_are_left};
use std::marker::Brand;
use std::mem;
use std::sync::ledger::{Blank, Ledger};
use step_count::Steps;

// A reader of the pages of a segment. It counts its opening where nobody reads the count.
fn open_pages<L: Ledger>(place: &SegmentPlace, blank: Blank) -> Option<SegmentPages>
    requires { OpensFor blank L.name L.parts }
    ensures first { IfSome result (λ p. p ≡ paged_first place.now.payload place.now.head) }
    ensures holds { IfSome result (λ p. (bytes : List ℕ) (rows : List Row)
        → HoldsSegment place.now.payload place.now.length place.now.head bytes rows
        → HoldsLeft p bytes rows) }
    ensures none { IsNone result → (bytes : List ℕ) (rows : List Row)
        → ¬ HoldsSegment place.now.payload place.now.length place.now.head bytes rows }
{
    let mut steps: Steps<L> = Steps::new(blank);
    SegmentPages::open(place.payload, place.length, &place.head, &mut steps)
}

/// Takes the rows of a segment over, a page at a time, where each is the encoding of a message. Tells
/// whether the last of their messages may be a last line without newline, where `before` tells it of
/// the messages before them. It only reads the disk.
///
/// # Errors
///
/// [`Stop::Full`]; [`Stop::SecondDamaged`], where the bytes hold no segment with such rows at the
/// place; [`Stop::SecondFault`]; or [`Stop::OutOfMemory`]. Some of the rows may be in hand then.
pub fn take_segment<M: Names, N: Namer, E: Disk>(
    place: &SegmentPlace,
    before: bool,
    names: &M,
    taker: &mut Taker,
    namer: &mut N,
    disk: &mut E,
    hand: &mut Hand,
) -> Result<bool, Stop>
    requires serves { Serves (M.version names.now) (texts_by M.types M.words names.now)
        (books_by N.types N.words namer.old) taker.old }
    requires empty { hand.old.draft.columns.rows ≡ [] }

    // what stays, and what is named
    ensures rests { Rests (E.state disk.old) (E.state disk.new) }
    ensures named { HasNamed
        (IsTextThere (texts_by M.types M.words names.now) (E.state disk.old).seen place.now)
        (M.version names.now) (texts_by M.types M.words names.now)
        (books_by N.types N.words namer.old) (books_by N.types N.words namer.new) taker.new }
    ensures namer { (N.version namer.new ≡ N.version namer.old)
        × HasNamedMore N.naming namer.old namer.new }
    ensures marks { SameMarks hand.old hand.new }

    // by the answer
    ensures taken { IfOk result (λ open_end. TakesSegment (M.version names.now)
        (texts_by M.types M.words names.now) (texts_in (books_by N.types N.words namer.old))
        (texts_in (books_by N.types N.words namer.new))
        place.now (E.state disk.old).seen hand.old hand.new before open_end) }

    // causes
    ensures full { (book : _) (count : ℕ) → IsErrOf result (Stop.Full book count)
        → IsFull book (M.types names.now) (M.words names.now)
        (N.types namer.new) (N.words namer.new) count }
    ensures damaged { IsErrOf result SecondDamaged
        → (bytes : List ℕ) → (E.state disk.old).seen ≡ Some bytes
        → ¬ MayTakeSegment (M.version names.now) (texts_by M.types M.words names.now)
        place.now bytes hand.old }
    ensures disk { CountsOf SecondFault (E.state disk.old).faults (E.state disk.new).faults result }
{
    if place.head.rows as usize > MAX_ROWS {
        return Err(Stop::SecondDamaged);
    }
    let Some(mut pages) = open_pages::<Brand>(place, Blank::new(1)) else {
        return Err(Stop::SecondDamaged);
    };
    let alloc = taker.alloc;
    let mut open_end = before;
    while pages.has_next() {
        let columns = mem::replace(&mut taker.columns, Columns::new(alloc));
        let page = pages.next_page(disk, &mut taker.bytes, columns)?;
        open_end = take_page(&page, open_end, names, taker, namer, hand)?;
        taker.columns = page;
    }
    none_are_left();
    Ok(open_end)
}
