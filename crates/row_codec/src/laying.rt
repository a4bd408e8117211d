//! Rows that are put together in an array, and appended at once.
ghost use Rattle.std.specs.Prelude.{◌≡◌, ◌≤◌, ◌++◌, ℕ, List, IfNone, IfOk, IfSome, length, take};
ghost use Rattle.column_store.specs.Row.{row_of};
ghost use Rattle.logtype_text.specs.TypeText.{text_of_symbol};
ghost use Rattle.logtype_text.specs.declared.symbols.Symbol.TheVariants.{Slot};
ghost use Rattle.row_codec.specs.Laid.{AreCut};
ghost use Rattle.row_codec.specs.Means.{HasSpelling, HasStampText, IsSpelling, IsWritten};
ghost use Rattle.row_codec.specs.StepsBody.{HasBody, HasStampWriting, HasWriting, IsBody, Puts};
ghost use Rattle.row_codec.specs.StepsLayouts.{IsClosed, spelled};
ghost use Rattle.var_codec.specs.Codes.{Codes, HasText};

use crate::Names;
use crate::fitting::{dictionary_word, stamp_fits};
use crate::layouts::{Layout, Layouts, Next};
use crate::stores::{ROOM, WIDTH, put_bytes, put_front};
use column_store::RowRef;
use itoa::Buffer;
use logtype_text::Kind;
use time_patterns::StampPrinter;
use var_codec::{Coded, decimal_ok, decimal_text};

/// The row has to be appended piece by piece: it is longer than the array, or its log type was not cut.
#[derive(Clone, Copy, Debug)]
pub(crate) struct NotLaid;

/// Puts what a row is written as to the front of the array, and gives its length; `None` where the row
/// cannot be written.
pub(crate) fn lay_row<N: Names>(
    layouts: &Layouts,
    printer: &mut StampPrinter,
    row: RowRef<'_>,
    names: &N,
    out: &mut [u8; ROOM],
) -> Result<Option<usize>, NotLaid>
    requires { AreCut layouts.now (N.types names.now) }
    ensures within { IfOk result (λ laid. IfSome laid (λ len. len ≤ 1024)) }
    ensures written { IfOk result (λ laid. IfSome laid (λ len. IsSpelling (row_of row.entry)
        (N.types names.now) (N.words names.now) (take len out.new))) }
    ensures misfit { IfOk result (λ laid. IfNone laid
        (¬ HasSpelling (row_of row.entry) (N.types names.now) (N.words names.now))) }
{
    let Some(layout) = layouts.layout(row.log_type) else {
        return Err(NotLaid);
    };
    let Some(end) = lay_stamp(printer, row.pattern, row.moment, out) else {
        return Ok(None);
    };
    lay_layout(layout, row.words, names, out, end)
}

// Puts the text of a stamp, which is empty without one, to the front, where the pattern prints the
// moment.
#[inline]
fn lay_stamp(
    printer: &mut StampPrinter,
    pattern: u8,
    moment: i64,
    out: &mut [u8; ROOM],
) -> Option<usize>
    ensures within { IfSome result (λ end. end ≤ 32) }
    ensures written { IfSome result (λ end. HasStampText pattern moment (take end out.new)) }
    ensures misfit { IfNone result (¬ HasStampWriting pattern moment) }
{
    if pattern == 0 {
        if stamp_fits(pattern, moment) {
            return Some(0);
        }
        return None;
    }
    let mut text = [0; WIDTH];
    let Some(len) = printer.print_front(pattern, moment, &mut text) else {
        return None;
    };
    Some(put_front(out, 0, &text, len))
}

// Puts behind the first `at` bytes what a log type is written as with these words in its slots, where
// they fit the slots, and gives the end.
fn lay_layout<N: Names>(
    layout: Layout<'_>,
    words: &[u64],
    names: &N,
    out: &mut [u8; ROOM],
    at: usize,
) -> Result<Option<usize>, NotLaid>
    requires closed { IsClosed layout.bytes.now layout.pieces.now }
    requires at { at ≤ 1024 }
    ensures within { IfOk result (λ laid. IfSome laid (λ end. end ≤ 1024)) }
    ensures written { IfOk result (λ laid. IfSome laid (λ end. ((body : List ℕ)
        × IsBody (N.words names.now) (spelled layout.entry.bytes.now layout.entry.pieces.now)
        words.now body
        × (take end out.new ≡ take at out.old ++ body)))) }
    ensures misfit { IfOk result (λ laid. IfNone laid
        (¬ HasBody (N.words names.now) (spelled layout.entry.bytes.now layout.entry.pieces.now)
        words.now)) }
{
    let Layout { bytes, pieces } = layout;
    let mut rest = bytes;
    let mut others = pieces;
    let mut left = words;
    let mut end = at;
    while let Some((piece, behind)) = others.split_first() {
        let (_, after) = rest.split_at(piece.len);
        let run_end = lay_front(out, end, rest, piece.len)?;
        match piece.next {
            Next::Slot(kind) => {
                let Some((word_end, more)) = lay_slot(kind, left, names, out, run_end)? else {
                    return Ok(None);
                };
                end = word_end;
                left = more;
            }
            Next::End => {
                if left.is_empty() {
                    return Ok(Some(run_end));
                }
                return Ok(None);
            }
            Next::Misfit => return Ok(None),
        }
        rest = after;
        others = behind;
    }
    unreachable!();
}

// Puts what a slot is written as with the first of these words to a place, and gives the end and the
// words behind it; `None` where no word that fits it is there.
#[inline]
fn lay_slot<'a, N: Names>(
    kind: Kind,
    words: &'a [u64],
    names: &N,
    out: &mut [u8; ROOM],
    at: usize,
) -> Result<Option<(usize, &'a [u64])>, NotLaid>
    requires { at ≤ 1024 }
    ensures within { IfOk result (λ laid. IfSome laid (λ found. found.0 ≤ 1024)) }
    ensures put { IfOk result (λ laid. IfSome laid (λ found. (after : List ℕ)
        → Puts (N.words names.now) (text_of_symbol (Slot kind) ++ after) words.now
        after found.1.now (take at out.old) (take found.0 out.new))) }
    ensures none { IfOk result (λ laid. IfNone laid ((after : List ℕ)
        → ¬ HasBody (N.words names.now) (text_of_symbol (Slot kind) ++ after) words.now)) }
{
    let [word, left @ ..] = words else {
        return Ok(None);
    };
    let Some(end) = lay_word(kind, *word, names, out, at)? else {
        return Ok(None);
    };
    Ok(Some((end, left)))
}

// Puts the text of a variable of this kind with this word to a place, where it has one, and gives the
// end.
#[inline]
fn lay_word<N: Names>(
    kind: Kind,
    word: u64,
    names: &N,
    out: &mut [u8; ROOM],
    at: usize,
) -> Result<Option<usize>, NotLaid>
    requires { at ≤ 1024 }
    ensures within { IfOk result (λ laid. IfSome laid (λ end. end ≤ 1024)) }
    ensures written { IfOk result (λ laid. IfSome laid (λ end. ((text : List ℕ)
        × IsWritten (N.words names.now) kind text word
        × (take end out.new ≡ take at out.old ++ text)))) }
    ensures misfit { IfOk result (λ laid. IfNone laid
        (¬ HasWriting (N.words names.now) kind word)) }
{
    match kind {
        Kind::Whole => {
            let end = lay_whole(word.cast_signed(), out, at)?;
            Ok(Some(end))
        }
        Kind::Decimal => {
            if !decimal_ok(word) {
                return Ok(None);
            }
            let end = lay_decimal(word, out, at)?;
            Ok(Some(end))
        }
        Kind::Word => match dictionary_word(word, names) {
            Some(text) => {
                let end = lay_bytes(out, at, text)?;
                Ok(Some(end))
            }
            None => Ok(None),
        },
    }
}

// Puts a whole number to a place, and gives the end.
#[inline]
fn lay_whole(value: i64, out: &mut [u8; ROOM], at: usize) -> Result<usize, NotLaid>
    requires { at ≤ 1024 }
    ensures within { IfOk result (λ end. end ≤ 1024) }
    ensures written { IfOk result (λ end. ((text : List ℕ) × Codes text (Coded.Whole value)
        × (take end out.new ≡ take at out.old ++ text))) }
{
    let mut buffer = Buffer::new();
    lay_bytes(out, at, buffer.format(value).as_bytes())
}

// Puts the decimal of a word to a place, and gives the end.
#[inline]
fn lay_decimal(word: u64, out: &mut [u8; ROOM], at: usize) -> Result<usize, NotLaid>
    requires word { HasText word }
    requires at { at ≤ 1024 }
    ensures within { IfOk result (λ end. end ≤ 1024) }
    ensures written { IfOk result (λ end. ((text : List ℕ) × Codes text (Coded.Decimal word)
        × (take end out.new ≡ take at out.old ++ text))) }
{
    let mut digits = [0; 20];
    let len = decimal_text(word, &mut digits);
    lay_bytes(out, at, &digits[..len])
}

// Puts so many bytes of the front of a text to a place, and gives the end.
#[inline(always)]
fn lay_front(out: &mut [u8; ROOM], at: usize, text: &[u8], len: usize) -> Result<usize, NotLaid>
    requires within { len ≤ length text.now }
    requires at { at ≤ 1024 }
    ensures within { IfOk result (λ end. end ≤ 1024) }
    ensures written { IfOk result (λ end.
        take end out.new ≡ take at out.old ++ take len text.now) }
{
    let room = ROOM - at;
    if room < WIDTH || room - WIDTH < len {
        return Err(NotLaid);
    }
    Ok(put_front(out, at, text, len))
}

// Puts bytes to a place, and gives the end.
#[inline(always)]
fn lay_bytes(out: &mut [u8; ROOM], at: usize, bytes: &[u8]) -> Result<usize, NotLaid>
    requires { at ≤ 1024 }
    ensures within { IfOk result (λ end. end ≤ 1024) }
    ensures written { IfOk result (λ end. take end out.new ≡ take at out.old ++ bytes.now) }
{
    if ROOM - at < bytes.len() {
        return Err(NotLaid);
    }
    Ok(put_bytes(out, at, bytes))
}
