//! Rows that are written one after the other.
ghost use Rattle.std.specs.Prelude.{◌≡◌, ◌++◌, ℕ, List, IfOk, IsFalse, IsTrue, OnErr, Some, slice_get};
ghost use mathlib.Core.List.{IsPrefix};
ghost use Rattle.column_store.specs.Row.{row_of};
ghost use Rattle.row_codec.specs.Laid.{AreCut};
ghost use Rattle.row_codec.specs.Means.{HasSpelling, IsAppended, IsSpelling};
ghost use Rattle.row_codec.specs.StepsBody.{HasBody, IsBody};
ghost use Rattle.row_codec.specs.StepsLayouts.{IsClosed, spelled};

use crate::Names;
use crate::expanding::{put_body, put_stamp, put_symbol};
use crate::laying::{NotLaid, lay_row};
use crate::layouts::{Layout, Layouts, Next};
use crate::runs::put_front;
use crate::stores::ROOM;
use column_store::{Columns, RowRef};
use logtype_text::Symbol;
use std::alloc::AllocError;
use std::marker::Model;
use time_patterns::StampPrinter;

// The most room that is taken at once for rows that were looked at: longer ones take theirs as they
// are written, so that a number that stands often in a damaged file asks for no more memory than the
// rows themselves. Free to tune.
const MOST_ROOM: usize = 1 << 16;

// How many rows are looked at together. Free to tune: 32 to 256 served alike, and 4 gained two thirds.
const AHEAD: u32 = 64;

/// What writes rows one after the other, by layouts of log types that were cut before. It keeps the day
/// of the last stamp. Contracts see the list of the log types that were cut.
#[derive(Drop)]
pub struct RowWriter<'l> {
    layouts: &'l Layouts,
    printer: StampPrinter,
    // A row is put together here before it is appended.
    text: [u8; ROOM],
    // About how much room the words of the rows need that were looked at since a row was written.
    room: usize,
}

impl<'l> Model for RowWriter<'l> {
    ghost use Rattle.std.specs.Prelude.{List, ℕ};

    ghost Value = { List (List ℕ) };

    ghost view = { λ w. w.layouts.now };
}

impl<'l> RowWriter<'l> {
    /// A writer of rows of these log types. Takes no memory.
    pub fn new(layouts: &'l Layouts) -> RowWriter<'l>
        ensures { result ≡ layouts.now }
    {
        RowWriter {
            layouts,
            printer: StampPrinter::new(),
            text: [0; ROOM],
            room: 0,
        }
    }

    /// Looks at the words of a row that is written soon, so that they are near when it is: each waits
    /// for its place and then for its bytes, and those of some rows wait together. What is seen is how
    /// much room they need. Nothing else rests on it, and the row need not be written. Takes no memory.
    #[inline]
    pub fn look_at<N: Names>(&mut self, row: RowRef<'_>, names: &N)
        ensures { self.new ≡ self.old }
    {
        let slots = self.layouts.slots_of(row.log_type);
        let room = room_of(slots, row.words, names);
        self.room = self.room.saturating_add(room).min(MOST_ROOM);
    }

    /// Looks at the words of the next rows of a page, as [`look_at`](RowWriter::look_at) does, where the
    /// row at this place is the first of so many: to be called before each row. Takes no memory.
    #[inline]
    pub fn look_ahead<N: Names>(&mut self, columns: &Columns, place: u32, names: &N)
        ensures { self.new ≡ self.old }
    {
        if place % AHEAD != 0 {
            return;
        }
        let end = place.saturating_add(AHEAD).min(columns.rows());
        for next in place..end {
            self.look_at(columns.row(next), names);
        }
    }

    /// Appends what a row is written as, where it can be written, and tells whether it can. Where the
    /// row means a message, this is the message. Where it cannot, and without memory, nothing is
    /// appended. A log type that was not cut is read from its text.
    pub fn write_fitting<N: Names>(
        &mut self,
        row: RowRef<'_>,
        names: &N,
        out: &mut Vec<u8>,
    ) -> Result<bool, AllocError>
        requires types { AreCut self.old (N.types names.now) }
        ensures types { self.new ≡ self.old }
        ensures written { IfOk result (λ fits. IsTrue fits
            → ((text : List ℕ)
            × IsSpelling (row_of row.entry) (N.types names.now) (N.words names.now) text
            × (out.new.items ≡ out.old.items ++ text))) }
        ensures misfit { IfOk result (λ fits. IsFalse fits
            → ¬ HasSpelling (row_of row.entry) (N.types names.now) (N.words names.now)) }
        ensures left { IfOk result (λ fits. IsFalse fits → out.new.items ≡ out.old.items) }
        ensures kept { OnErr result (out.new.items ≡ out.old.items) }
    {
        out.reserve(self.room)?;
        self.room = 0;
        match lay_row(self.layouts, &mut self.printer, row, names, &mut self.text) {
            Ok(Some(len)) => {
                out.extend_from_slice(&self.text[..len])?;
                Ok(true)
            }
            Ok(None) => Ok(false),
            Err(NotLaid) => put_fitting(self.layouts, &mut self.printer, row, names, out),
        }
    }
}

// Appends what a row is written as piece by piece, where it can be written, and tells whether it can.
// Where it cannot, and without memory, nothing is appended.
fn put_fitting<N: Names>(
    layouts: &Layouts,
    printer: &mut StampPrinter,
    row: RowRef<'_>,
    names: &N,
    out: &mut Vec<u8>,
) -> Result<bool, AllocError>
    requires { AreCut layouts.now (N.types names.now) }
    ensures written { IfOk result (λ fits. IsTrue fits → IsAppended (row_of row.entry)
        (N.types names.now) (N.words names.now) out.old.items out.new.items) }
    ensures misfit { IfOk result (λ fits. IsFalse fits
        → ¬ HasSpelling (row_of row.entry) (N.types names.now) (N.words names.now)) }
    ensures left { IfOk result (λ fits. IsFalse fits → out.new.items ≡ out.old.items) }
    ensures kept { OnErr result (out.new.items ≡ out.old.items) }
{
    let len = out.len();
    match put_laid_row(layouts, printer, row, names, out) {
        Ok(true) => Ok(true),
        Ok(false) => {
            out.truncate(len);
            Ok(false)
        }
        Err(error) => {
            out.truncate(len);
            Err(error)
        }
    }
}

// Appends what a row is written as, where it can be written; where it cannot, and without memory, a
// part of it.
fn put_laid_row<N: Names>(
    layouts: &Layouts,
    printer: &mut StampPrinter,
    row: RowRef<'_>,
    names: &N,
    out: &mut Vec<u8>,
) -> Result<bool, AllocError>
    requires { AreCut layouts.now (N.types names.now) }
    ensures written { IfOk result (λ fits. IsTrue fits → IsAppended (row_of row.entry)
        (N.types names.now) (N.words names.now) out.old.items out.new.items) }
    ensures misfit { IfOk result (λ fits. IsFalse fits
        → ¬ HasSpelling (row_of row.entry) (N.types names.now) (N.words names.now)) }
    ensures front { IsPrefix out.old.items out.new.items }
{
    if !put_stamp(printer, row.pattern, row.moment, out)? {
        return Ok(false);
    }
    put_laid(layouts, row.log_type, row.words, names, out)
}

// Appends what the log type with this number is written as with these words in its slots, where they
// fit the slots: by its layout, and by its text where it was not cut.
fn put_laid<N: Names>(
    layouts: &Layouts,
    number: u32,
    words: &[u64],
    names: &N,
    out: &mut Vec<u8>,
) -> Result<bool, AllocError>
    requires { AreCut layouts.now (N.types names.now) }
    ensures written { IfOk result (λ fits. IsTrue fits → ((text body : List ℕ)
        × (slice_get (N.types names.now) number ≡ Some text)
        × IsBody (N.words names.now) text words.now body
        × (out.new.items ≡ out.old.items ++ body))) }
    ensures misfit { IfOk result (λ fits. IsFalse fits → (text : List ℕ)
        → slice_get (N.types names.now) number ≡ Some text
        → ¬ HasBody (N.words names.now) text words.now) }
    ensures front { IsPrefix out.old.items out.new.items }
{
    if let Some(layout) = layouts.layout(number) {
        return put_layout(layout, words, names, out);
    }
    match names.type_text(number) {
        Some(text) => put_body(text, words, names, out),
        None => Ok(false),
    }
}

// Appends what a log type is written as with these words in its slots, where they fit the slots.
fn put_layout<N: Names>(
    layout: Layout<'_>,
    words: &[u64],
    names: &N,
    out: &mut Vec<u8>,
) -> Result<bool, AllocError>
    requires { IsClosed layout.bytes.now layout.pieces.now }
    ensures written { IfOk result (λ fits. IsTrue fits → ((body : List ℕ)
        × IsBody (N.words names.now) (spelled layout.entry.bytes.now layout.entry.pieces.now)
        words.now body
        × (out.new.items ≡ out.old.items ++ body))) }
    ensures misfit { IfOk result (λ fits. IsFalse fits
        → ¬ HasBody (N.words names.now) (spelled layout.entry.bytes.now layout.entry.pieces.now)
        words.now) }
    ensures front { IsPrefix out.old.items out.new.items }
{
    let Layout { bytes, pieces } = layout;
    let mut rest = bytes;
    let mut others = pieces;
    let mut left = words;
    while let Some((piece, behind)) = others.split_first() {
        let (_, after) = rest.split_at(piece.len);
        put_front(out, rest, piece.len)?;
        match piece.next {
            Next::Slot(kind) => {
                let Some(more) = put_symbol(Symbol::Slot(kind), left, names, out)? else {
                    return Ok(false);
                };
                left = more;
            }
            Next::End => return Ok(left.is_empty()),
            Next::Misfit => return Ok(false),
        }
        rest = after;
        others = behind;
    }
    unreachable!();
}

// About how much room the words of a row need that stand in these slots.
#[inline]
fn room_of<N: Names>(slots: u64, words: &[u64], names: &N) -> usize {
    let mut left = slots;
    let mut room: usize = 0;
    for word in words {
        if left & 1 == 1 {
            room = room.saturating_add(word_room(*word, names));
        }
        left >>= 1;
    }
    room
}

// About how much room a word needs. Its first byte is looked at, and has to count, so that the look
// stays in the built program: one outside ASCII counts as one more.
#[inline]
fn word_room<N: Names>(word: u64, names: &N) -> usize {
    let Ok(number) = u32::try_from(word) else {
        return 0;
    };
    let Some(text) = names.word_text(number) else {
        return 0;
    };
    match text.first() {
        Some(first) => text.len().saturating_add(usize::from(*first >> 7)),
        None => 0,
    }
}
