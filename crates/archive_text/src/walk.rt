//! How far the writing of a file came, and its way over segments and pages.
ghost use Rattle.std.specs.Prelude.{◌≡◌, ◌≤◌, ◌<◌, ◌⊎◌, ℕ, List, [], length, IfOk, IfSome, IsErrOf, IsFalse, IsNone, IsTrue, None, OnOk, false};
ghost use Rattle.log_seams.specs.Disk.{Rests};
ghost use Rattle.log_seams.specs.Outside.{CountsOf};
ghost use Rattle.column_store.specs.declared.row.Row.{Row};
ghost use Rattle.row_codec.specs.Laid.{AreCut};
ghost use Rattle.segment_pages.specs.Paged.{HoldsLeft, HoldsSegment, paged_first};
ghost use Rattle.step_count.specs.Opens.{OpensFor};
ghost use Rattle.archive_text.specs.Ahead.{GoesTold, Goes, HasNoPage, HasPage, IsAhead, IsPast, NotAhead, ahead, work};

use crate::lines::Lines;
use crate::page::write_page;
use archive_open::SegmentPlace;
use column_store::Columns;
use log_seams::Disk;
use row_codec::{Layouts, Names};
use segment_pages::{PageRefusal, SegmentPages};
use sink_pieces::PIECE;
use std::alloc::Global;
use std::marker::Brand;
use std::mem;
use std::sync::ledger::{Blank, Ledger};
use step_count::Steps;

/// Memory that serves all files: for the bytes of a page, for its rows, and for the text that is
/// written out and not given yet.
#[derive(Debug, Drop)]
pub struct TextRoom {
    bytes: Vec<u8>,
    columns: Columns,
    gathered: Vec<u8>,
}

impl TextRoom {
    /// No memory yet.
    pub fn new(alloc: Global) -> TextRoom {
        TextRoom {
            bytes: Vec::new(alloc),
            columns: Columns::new(alloc),
            gathered: Vec::new(alloc),
        }
    }
}

/// How far the writing of a file's segments came.
#[derive(Drop)]
pub(crate) struct Walk<'a> {
    pub(crate) alloc: Global,
    /// The segments that come next.
    pub(crate) places: &'a [SegmentPlace],
    /// The pages that come next of the segment in hand.
    pub(crate) pages: Option<SegmentPages>,
    /// The page in hand, and its next row.
    pub(crate) columns: Columns,
    pub(crate) row: u32,
    /// Memory for the bytes of a page.
    pub(crate) bytes: Vec<u8>,
    /// The text that was written out.
    pub(crate) lines: Lines,
    /// Whether the text is written out to its end.
    pub(crate) ended: bool,
}

impl<'a> Walk<'a> {
    /// Before the first segment, where so many bytes count as given. The room may have served
    /// another file.
    pub(crate) fn new(
        alloc: Global,
        places: &'a [SegmentPlace],
        room: TextRoom,
        given: u64,
    ) -> Walk<'a>
        ensures rows { result.columns.rows ≡ [] }
        ensures pages { result.pages ≡ None }
        ensures places { result.places.now ≡ places.now }
        ensures nothing { result.lines.gathered.items ≡ [] }
        ensures sent { result.lines.sent ≡ 0 }
        ensures given { result.lines.given ≡ given }
        ensures begun { result.lines.begun ≡ false }
        ensures ended { result.ended ≡ false }
    {
        let TextRoom {
            bytes,
            mut columns,
            gathered,
        } = room;
        columns.clear();
        Walk {
            alloc,
            places,
            pages: None,
            columns,
            row: 0,
            bytes,
            lines: Lines::new(gathered, given),
            ended: false,
        }
    }

    /// The memory, for another file.
    pub(crate) fn into_room(self) -> TextRoom {
        TextRoom {
            bytes: self.bytes,
            columns: self.columns,
            gathered: self.lines.gathered,
        }
    }
}

// A reader before the first page of a segment.
fn pages_with<L: Ledger>(place: &SegmentPlace, blank: Blank) -> Option<SegmentPages>
    requires { OpensFor blank L.name L.parts }
    ensures first { IfSome result (λ p. p ≡ paged_first place.now.payload place.now.head) }
    ensures holds { IfSome result (λ p. (bytes : List ℕ) (rows : List Row)
        → HoldsSegment place.now.payload place.now.length place.now.head bytes rows
        → HoldsLeft p bytes rows) }
    ensures none { IsNone result → (bytes : List ℕ) (rows : List Row)
        → ¬ HoldsSegment place.now.payload place.now.length place.now.head bytes rows }
{
    let mut steps: Steps<L> = Steps::new(blank);
    SegmentPages::open(place.payload, place.length, &place.head, &mut steps)
}

// The same, with a counter that nobody reads.
fn pages_of(place: &SegmentPlace) -> Option<SegmentPages>
    ensures first { IfSome result (λ p. p ≡ paged_first place.now.payload place.now.head) }
    ensures holds { IfSome result (λ p. (bytes : List ℕ) (rows : List Row)
        → HoldsSegment place.now.payload place.now.length place.now.head bytes rows
        → HoldsLeft p bytes rows) }
    ensures none { IsNone result → (bytes : List ℕ) (rows : List Row)
        → ¬ HoldsSegment place.now.payload place.now.length place.now.head bytes rows }
{
    pages_with::<Brand>(place, Blank::new(1))
}

// Whether a page of the segment in hand is left.
fn has_page(pages: &Option<SegmentPages>) -> bool
    ensures yes { IsTrue result → HasPage pages.now }
    ensures no { IsFalse result → HasNoPage pages.now }
{
    match pages {
        Some(pages) => pages.has_next(),
        None => false,
    }
}

// Loads the next page of the segment in hand, once all rows of the page before are written.
fn load_page<D: Disk>(disk: &mut D, walk: &mut Walk<'_>) -> Result<(), PageRefusal>
    requires done { length walk.old.columns.rows ≤ walk.old.row }
    requires more { HasPage walk.old.pages }

    // what stays
    ensures rests { Rests (D.state disk.old) (D.state disk.new) }
    ensures lines { walk.new.lines ≡ walk.old.lines }
    ensures ended { walk.new.ended ≡ walk.old.ended }

    // by the answer
    ensures goes { OnOk result ((types words : List (List ℕ))
        → GoesTold (D.state disk.old).seen types words (ahead walk.old) (ahead walk.new)
        walk.old.lines walk.new.lines) }
    ensures smaller { OnOk result (work (ahead walk.new) < work (ahead walk.old)) }

    // causes
    ensures damaged { IsErrOf result PageRefusal.Damaged → (types words : List (List ℕ))
        → NotAhead (D.state disk.old).seen types words (ahead walk.old) }
    ensures disk { CountsOf PageRefusal.DiskFault
        (D.state disk.old).faults (D.state disk.new).faults result }
{
    let Some(mut pages) = walk.pages.take() else {
        unreachable!();
    };
    let columns = mem::replace(&mut walk.columns, Columns::new(walk.alloc));
    walk.columns = pages.next_page(disk, &mut walk.bytes, columns)?;
    walk.row = 0;
    walk.pages = Some(pages);
    Ok(())
}

// Opens the next segment, once all pages of the one before are written, and tells whether there is
// one.
fn open_next(walk: &mut Walk<'_>) -> Result<bool, PageRefusal>
    requires done { length walk.old.columns.rows ≤ walk.old.row }
    requires none { HasNoPage walk.old.pages }

    // what stays
    ensures lines { walk.new.lines ≡ walk.old.lines }
    ensures ended { walk.new.ended ≡ walk.old.ended }

    // by the answer
    ensures goes { OnOk result ((types words : List (List ℕ)) (bytes : List ℕ)
        → Goes types words bytes (ahead walk.old) (ahead walk.new)
        walk.old.lines walk.new.lines) }
    ensures smaller { IfOk result (λ more. IsTrue more
        → work (ahead walk.new) < work (ahead walk.old)) }
    ensures past { IfOk result (λ more. IsFalse more → IsPast (ahead walk.new)) }

    // causes
    ensures damaged { IsErrOf result PageRefusal.Damaged
        → (types words messages : List (List ℕ)) (bytes : List ℕ)
        → ¬ IsAhead types words (ahead walk.old) bytes messages }
    ensures disk { ¬ IsErrOf result PageRefusal.DiskFault }
{
    let places = walk.places;
    let Some((place, rest)) = places.split_first() else {
        return Ok(false);
    };
    let Some(pages) = pages_of(place) else {
        return Err(PageRefusal::Damaged);
    };
    walk.pages = Some(pages);
    walk.places = rest;
    Ok(true)
}

/// Goes on to the next page, or else to the next segment, once all rows of the page before are
/// written. Tells whether there is one.
pub(crate) fn advance<D: Disk>(disk: &mut D, walk: &mut Walk<'_>) -> Result<bool, PageRefusal>
    requires done { length walk.old.columns.rows ≤ walk.old.row }

    // what stays
    ensures rests { Rests (D.state disk.old) (D.state disk.new) }
    ensures lines { walk.new.lines ≡ walk.old.lines }
    ensures ended { walk.new.ended ≡ walk.old.ended }

    // by the answer
    ensures goes { OnOk result ((types words : List (List ℕ))
        → GoesTold (D.state disk.old).seen types words (ahead walk.old) (ahead walk.new)
        walk.old.lines walk.new.lines) }
    ensures smaller { IfOk result (λ more. IsTrue more
        → work (ahead walk.new) < work (ahead walk.old)) }
    ensures past { IfOk result (λ more. IsFalse more → IsPast (ahead walk.new)) }

    // causes
    ensures damaged { IsErrOf result PageRefusal.Damaged → (types words : List (List ℕ))
        → NotAhead (D.state disk.old).seen types words (ahead walk.old) }
    ensures disk { CountsOf PageRefusal.DiskFault
        (D.state disk.old).faults (D.state disk.new).faults result }
{
    if has_page(&walk.pages) {
        load_page(disk, walk)?;
        return Ok(true);
    }
    open_next(walk)
}

/// Writes the rows of the page in hand out, until there is enough for a piece.
pub(crate) fn write_rows<N: Names>(
    names: &N,
    layouts: &Layouts,
    walk: &mut Walk<'_>,
) -> Result<(), PageRefusal>
    requires types { AreCut layouts.now (N.types names.now) }

    // what stays
    ensures sent { walk.new.lines.sent ≡ walk.old.lines.sent }
    ensures given { walk.new.lines.given ≡ walk.old.lines.given }
    ensures ended { walk.new.ended ≡ walk.old.ended }
    ensures columns { walk.new.columns ≡ walk.old.columns }
    ensures work { OnOk result (work (ahead walk.new) ≡ work (ahead walk.old)) }

    // by the answer
    ensures goes { OnOk result ((bytes : List ℕ)
        → Goes (N.types names.now) (N.words names.now) bytes (ahead walk.old) (ahead walk.new)
        walk.old.lines walk.new.lines) }
    ensures enough { OnOk result ((length walk.new.columns.rows ≤ walk.new.row)
        ⊎ (PIECE ≤ length walk.new.lines.gathered.items)) }
    ensures further { OnOk result (walk.old.row < length walk.old.columns.rows
        → walk.old.row < walk.new.row) }

    // causes
    ensures damaged { IsErrOf result PageRefusal.Damaged
        → (bytes : List ℕ) (messages : List (List ℕ))
        → ¬ IsAhead (N.types names.now) (N.words names.now) (ahead walk.old) bytes messages }
    ensures disk { ¬ IsErrOf result PageRefusal.DiskFault }
{
    walk.row = write_page(&walk.columns, walk.row, names, layouts, &mut walk.lines)?;
    Ok(())
}

/// Writes out what comes next: enough to be given, or up to the end of the segments. Tells whether
/// it is the end.
pub(crate) fn gather<N: Names, D: Disk>(
    names: &N,
    layouts: &Layouts,
    disk: &mut D,
    walk: &mut Walk<'_>,
) -> Result<bool, PageRefusal>
    requires types { AreCut layouts.now (N.types names.now) }

    // what stays
    ensures rests { Rests (D.state disk.old) (D.state disk.new) }
    ensures sent { walk.new.lines.sent ≡ walk.old.lines.sent }
    ensures given { walk.new.lines.given ≡ walk.old.lines.given }
    ensures ended { walk.new.ended ≡ walk.old.ended }

    // by the answer
    ensures goes { OnOk result (GoesTold (D.state disk.old).seen (N.types names.now)
        (N.words names.now) (ahead walk.old) (ahead walk.new) walk.old.lines walk.new.lines) }
    ensures past { IfOk result (λ end. IsTrue end → IsPast (ahead walk.new)) }
    ensures enough { IfOk result (λ end. IsFalse end
        → PIECE ≤ length walk.new.lines.gathered.items) }

    // causes
    ensures damaged { IsErrOf result PageRefusal.Damaged
        → NotAhead (D.state disk.old).seen (N.types names.now) (N.words names.now)
        (ahead walk.old) }
    ensures disk { CountsOf PageRefusal.DiskFault
        (D.state disk.old).faults (D.state disk.new).faults result }
{
    write_rows(names, layouts, walk)?;
    while walk.lines.gathered.len() < PIECE {
        if !advance(disk, walk)? {
            return Ok(true);
        }
        write_rows(names, layouts, walk)?;
    }
    Ok(false)
}
