//! The log types of an archive, each cut once into runs of constants and slots.
ghost use Rattle.std.specs.Prelude.{◌≡◌, ◌≤◌, ◌++◌, [], ◌∷◌, ℕ, List, IfNone, IfOk, IfSome, OnErr, OnOk, Some, length, slice_get};
ghost use mathlib.Core.List.{IsPrefix};
ghost use Rattle.logtype_text.specs.TypeText.{IsTypeText};
ghost use Rattle.row_codec.specs.Laid.{AreCut};
ghost use Rattle.row_codec.specs.StepsLayouts.{AddsRun, AddsSymbol, IsClosed, LaysOut, spelled};

use crate::Names;
use logtype_text::{Kind, Symbol, first_symbol, plain_front, text_ok};
use std::alloc::{AllocError, Global};
use std::marker::Model;

// What stands behind a run of constants.
#[derive(Clone, Copy, Debug)]
pub(crate) enum Next {
    // A slot of this kind.
    Slot(Kind),
    // The end of the log type.
    End,
    // Nothing: the run is a text that is none of a log type, which no row fits.
    Misfit,
}

// A run of so many constants, and what stands behind it.
#[derive(Clone, Copy, Debug)]
pub(crate) struct Piece {
    pub(crate) len: usize,
    pub(crate) next: Next,
}

// Where the constants and the pieces of a log type begin.
#[derive(Clone, Copy, Debug)]
pub(crate) struct Start {
    byte: usize,
    piece: usize,
}

// A log type: its constants as they are printed, and its pieces, the last of which has no slot.
// What follows those is of other log types.
#[derive(Clone, Copy)]
pub(crate) struct Layout<'l> {
    pub(crate) bytes: &'l [u8],
    pub(crate) pieces: &'l [Piece],
}

/// The log types of an archive, each cut once into runs of constants and slots, so that no row has to
/// read the text of its log type. Contracts see the list of the texts.
#[derive(Debug, Drop)]
pub struct Layouts {
    // The constants of all log types, as they are printed.
    bytes: Vec<u8>,
    pieces: Vec<Piece>,
    // For each log type which of its first 64 slots are words: a bit for each, the lowest for the
    // first. These are hints, on which no answer rests.
    word_slots: Vec<u64>,
    starts: Vec<Start>,
}

impl Model for Layouts {
    ghost use Rattle.std.specs.Prelude.{List, ℕ, All, map};
    ghost use Rattle.row_codec.specs.StepsLayouts.{IsLaidOut, laid_text};

    ghost Value = { List (List ℕ) };

    ghost view = { λ l. map (laid_text l.bytes.items l.pieces.items) l.starts.items };

    ghost invariant = { λ l. All (IsLaidOut l.bytes.items l.pieces.items) l.starts.items };
}

impl Layouts {
    /// The layouts of no log types. Takes no memory.
    pub fn new(alloc: Global) -> Layouts
        ensures { result ≡ [] }
    {
        Layouts {
            bytes: Vec::new(alloc),
            pieces: Vec::new(alloc),
            word_slots: Vec::new(alloc),
            starts: Vec::new(alloc),
        }
    }

    /// The layouts of all log types that an archive has.
    pub fn of<N: Names>(alloc: Global, names: &N) -> Result<Layouts, AllocError>
        ensures { IfOk result (λ layouts. layouts ≡ N.types names.now) }
    {
        let mut layouts = Layouts::new(alloc);
        layouts.extend(names)?;
        Ok(layouts)
    }

    /// The layouts of the first log types that an archive has, of so many at most. They are those of
    /// the common ones, as a log type gets its number when it is first met.
    pub fn front<N: Names>(alloc: Global, names: &N, most: u32) -> Result<Layouts, AllocError>
        ensures { IfOk result (λ layouts. AreCut layouts (N.types names.now)) }
    {
        let mut layouts = Layouts::new(alloc);
        for number in 0..most {
            let Some(text) = names.type_text(number) else {
                break;
            };
            layouts.push(text)?;
        }
        Ok(layouts)
    }

    // How many log types there are.
    fn count(&self) -> usize
        ensures { result ≡ length self.now }
    {
        self.starts.len()
    }

    /// Adds the log types that came later. Without memory it has some of them.
    pub fn extend<N: Names>(&mut self, names: &N) -> Result<(), AllocError>
        requires { IsPrefix self.old (N.types names.now) }
        ensures all { OnOk result (self.new ≡ N.types names.now) }
        ensures some { OnErr result (IsPrefix self.new (N.types names.now)) }
    {
        for _ in 0..u64::MAX {
            let Ok(number) = u32::try_from(self.count()) else {
                // No number is left. No memory holds so many log types.
                return Err(AllocError);
            };
            let Some(text) = names.type_text(number) else {
                return Ok(());
            };
            self.push(text)?;
        }
        Err(AllocError)
    }

    /// Adds a log type. Without memory nothing is added.
    pub fn push(&mut self, text: &[u8]) -> Result<(), AllocError>
        ensures added { OnOk result (self.new ≡ self.old ++ text.now ∷ []) }
        ensures kept { OnErr result (self.new ≡ self.old) }
    {
        let start = Start {
            byte: self.bytes.len(),
            piece: self.pieces.len(),
        };
        lay_out(text, &mut self.bytes, &mut self.pieces)?;
        // First, since without memory a hint too many is left, and no log type.
        self.word_slots
            .push(words_among(&self.pieces[start.piece..]))?;
        self.starts.push(start)?;
        Ok(())
    }

    // Which of the first 64 slots of the log type with this number are words: a bit for each, the
    // lowest for the first. No bit is set where there is no layout of it.
    #[inline]
    pub(crate) fn slots_of(&self, number: u32) -> u64 {
        match self.word_slots.get(number as usize) {
            Some(slots) => *slots,
            None => 0,
        }
    }

    // The layout of the log type with this number.
    #[inline]
    pub(crate) fn layout(&self, number: u32) -> Option<Layout<'_>>
        ensures some { IfSome result (λ l.
            slice_get self.now number ≡ Some (spelled l.bytes.now l.pieces.now)) }
        ensures closed { IfSome result (λ l. IsClosed l.bytes.now l.pieces.now) }
        ensures none { IfNone result (length self.now ≤ number) }
    {
        let Some(start) = self.starts.get(number as usize) else {
            return None;
        };
        Some(Layout {
            bytes: &self.bytes[start.byte..],
            pieces: &self.pieces[start.piece..],
        })
    }
}

// Which of the first 64 slots are words: a bit for each, the lowest for the first.
fn words_among(pieces: &[Piece]) -> u64 {
    let mut words = 0;
    let mut bit: u64 = 1;
    for piece in pieces {
        if let Next::Slot(Kind::Word) = piece.next {
            words |= bit;
        }
        bit <<= 1;
    }
    words
}

// Adds the constants and the pieces of a text.
fn lay_out(text: &[u8], bytes: &mut Vec<u8>, pieces: &mut Vec<Piece>) -> Result<(), AllocError>
    ensures laid { OnOk result (LaysOut text.now bytes.old.items bytes.new.items
        pieces.old.items pieces.new.items) }
    ensures bytes { IsPrefix bytes.old.items bytes.new.items }
    ensures pieces { IsPrefix pieces.old.items pieces.new.items }
{
    if text_ok(text) {
        return cut_text(text, bytes, pieces);
    }
    bytes.extend_from_slice(text)?;
    pieces.push(Piece {
        len: text.len(),
        next: Next::Misfit,
    })?;
    Ok(())
}

// Adds the constants and the pieces of a text of a log type.
fn cut_text(text: &[u8], bytes: &mut Vec<u8>, pieces: &mut Vec<Piece>) -> Result<(), AllocError>
    requires { IsTypeText text.now }
    ensures laid { OnOk result (LaysOut text.now bytes.old.items bytes.new.items
        pieces.old.items pieces.new.items) }
    ensures bytes { IsPrefix bytes.old.items bytes.new.items }
    ensures pieces { IsPrefix pieces.old.items pieces.new.items }
{
    let mut start = bytes.len();
    let mut rest = add_plain(text, bytes)?;
    while let Some((symbol, after)) = first_symbol(rest) {
        start = add_symbol(symbol, start, bytes, pieces)?;
        rest = add_plain(after, bytes)?;
    }
    pieces.push(Piece {
        len: bytes.len() - start,
        next: Next::End,
    })?;
    Ok(())
}

// Adds a constant to the run that begins at `start`, or a slot behind that run, and gives where the
// run begins that is open then.
fn add_symbol(
    symbol: Symbol,
    start: usize,
    bytes: &mut Vec<u8>,
    pieces: &mut Vec<Piece>,
) -> Result<usize, AllocError>
    requires { start ≤ length bytes.old.items }
    ensures cut { IfOk result (λ end. AddsSymbol symbol start end bytes.old.items bytes.new.items
        pieces.old.items pieces.new.items) }
    ensures within { IfOk result (λ end. end ≤ length bytes.new.items) }
    ensures bytes { IsPrefix bytes.old.items bytes.new.items }
    ensures pieces { IsPrefix pieces.old.items pieces.new.items }
{
    match symbol {
        Symbol::Byte(byte) => {
            bytes.push(byte)?;
            Ok(start)
        }
        Symbol::Slot(kind) => {
            let end = bytes.len();
            pieces.push(Piece {
                len: end - start,
                next: Next::Slot(kind),
            })?;
            Ok(end)
        }
    }
}

// Adds the constants at the front of a text that stand there as they are, and gives what follows.
fn add_plain<'a>(text: &'a [u8], bytes: &mut Vec<u8>) -> Result<&'a [u8], AllocError>
    ensures added { IfOk result (λ rest.
        AddsRun text.now rest.now bytes.old.items bytes.new.items) }
    ensures shorter { IfOk result (λ rest. length rest.now ≤ length text.now) }
    ensures front { IsPrefix bytes.old.items bytes.new.items }
{
    let (plain, rest) = text.split_at(plain_front(text));
    bytes.extend_from_slice(plain)?;
    Ok(rest)
}
