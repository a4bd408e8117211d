//! From a row back to its message.
ghost use Rattle.std.specs.Prelude.{◌≡◌, ◌+◌, ◌≤◌, ◌↔◌, ◌++◌, [], ℕ, List, length, IfNone, IfOk, IfSome, IsFalse, IsTrue, OnErr, OnOk};
ghost use mathlib.Core.List.{IsPrefix};
ghost use Rattle.column_store.specs.Row.{row_of};
ghost use Rattle.logtype_text.specs.TypeText.{text_of_symbol};
ghost use Rattle.row_codec.specs.Means.{HasSpelling, HasStampText, IsAppended, IsSpelling, IsWritten, Means};
ghost use Rattle.row_codec.specs.StepsBody.{HasBody, HasStampWriting, HasWriting, IsBody, Puts};

use crate::Names;
use crate::fitting::{dictionary_word, stamp_fits};
use crate::runs::{put_bytes, put_front};
use column_store::RowRef;
use logtype_text::{Kind, Symbol, first_symbol, plain_front};
use plain_list::Text;
use std::alloc::{AllocError, Global};
use std::sync::ledger::Ledger;
use step_count::Steps;
use time_patterns::StampPrinter;
use var_codec::{append_whole, decimal_ok, decimal_text};

/// Appends what a row is written as, where it can be written, and tells whether it can. Where the row
/// means a message, this is the message. Where it cannot, and without memory, nothing is appended.
///
/// This asks what [`row_fits`](crate::row_fits) asks, in the pass that writes.
pub fn write_fitting<N: Names>(
    row: RowRef<'_>,
    names: &N,
    out: &mut Vec<u8>,
) -> Result<bool, AllocError>
    ensures written { IfOk result (λ fits. IsTrue fits
        → ((text : List ℕ)
        × IsSpelling (row_of row.entry) (N.types names.now) (N.words names.now) text
        × (out.new.items ≡ out.old.items ++ text))) }
    ensures misfit { IfOk result (λ fits. IsFalse fits
        → ¬ HasSpelling (row_of row.entry) (N.types names.now) (N.words names.now)) }
    ensures left { IfOk result (λ fits. IsFalse fits → out.new.items ≡ out.old.items) }
    ensures kept { OnErr result (out.new.items ≡ out.old.items) }
{
    let len = out.len();
    match put_row(row, names, out) {
        Ok(true) => Ok(true),
        Ok(false) => {
            out.truncate(len);
            Ok(false)
        }
        Err(error) => {
            out.truncate(len);
            Err(error)
        }
    }
}

/// Appends what a row is written as. Where the row means a message, this is the message. Without memory
/// nothing is appended.
pub fn write_onto<N: Names>(row: RowRef<'_>, names: &N, out: &mut Vec<u8>) -> Result<(), AllocError>
    requires { HasSpelling (row_of row) (N.types names.now) (N.words names.now) }
    ensures written { OnOk result
        ((text : List ℕ)
        × IsSpelling (row_of row.entry) (N.types names.now) (N.words names.now) text
        × (out.new.items ≡ out.old.items ++ text)) }
    ensures kept { OnErr result (out.new.items ≡ out.old.items) }
{
    if !write_fitting(row, names, out)? {
        unreachable!();
    }
    Ok(())
}

/// Appends what a row is written as, as [`write_onto`] does, and counts one step.
pub fn expand_onto<N: Names, L: Ledger>(
    row: RowRef<'_>,
    names: &N,
    out: &mut Vec<u8>,
    steps: &mut Steps<L>,
) -> Result<(), AllocError>
    requires { HasSpelling (row_of row) (N.types names.now) (N.words names.now) }
    ensures counted { steps.new ≡ steps.old + 1 }
    ensures written { OnOk result
        ((text : List ℕ)
        × IsSpelling (row_of row.entry) (N.types names.now) (N.words names.now) text
        × (out.new.items ≡ out.old.items ++ text)) }
    ensures kept { OnErr result (out.new.items ≡ out.old.items) }
{
    steps.tick();
    write_onto(row, names, out)
}

/// What a row is written as, and counts one step. Where the row means a message, this is the
/// message.
pub fn expand<N: Names, L: Ledger>(
    alloc: Global,
    row: RowRef<'_>,
    names: &N,
    steps: &mut Steps<L>,
) -> Result<Text, AllocError>
    requires { HasSpelling (row_of row) (N.types names.now) (N.words names.now) }
    ensures counted { steps.new ≡ steps.old + 1 }
    ensures written { IfOk result (IsSpelling (row_of row.entry) (N.types names.now)
        (N.words names.now)) }
    ensures means { (message : List ℕ)
        → Means (row_of row.entry) (N.types names.now) (N.words names.now) message
        → IfOk result (λ text. text ≡ message) }
{
    let mut text = Vec::new(alloc);
    expand_onto(row, names, &mut text, steps)?;
    Ok(Text::new(text))
}

// Appends what a row is written as, where it can be written; where it cannot, and without memory, a
// part of it.
fn put_row<N: Names>(row: RowRef<'_>, names: &N, out: &mut Vec<u8>) -> Result<bool, AllocError>
    ensures written { IfOk result (λ fits. IsTrue fits → IsAppended (row_of row.entry)
        (N.types names.now) (N.words names.now) out.old.items out.new.items) }
    ensures misfit { IfOk result (λ fits. IsFalse fits
        → ¬ HasSpelling (row_of row.entry) (N.types names.now) (N.words names.now)) }
    ensures front { IsPrefix out.old.items out.new.items }
{
    let mut printer = StampPrinter::new();
    if !put_stamp(&mut printer, row.pattern, row.moment, out)? {
        return Ok(false);
    }
    match names.type_text(row.log_type) {
        Some(text) => put_body(text, row.words, names, out),
        None => Ok(false),
    }
}

// Appends the text of a stamp, which is empty without one, where the pattern prints the moment.
#[inline]
pub(crate) fn put_stamp(
    printer: &mut StampPrinter,
    pattern: u8,
    moment: i64,
    out: &mut Vec<u8>,
) -> Result<bool, AllocError>
    ensures written { IfOk result (λ fits. IsTrue fits → ((text : List ℕ)
        × HasStampText pattern moment text × (out.new.items ≡ out.old.items ++ text))) }
    ensures misfit { IfOk result (λ fits. IsFalse fits → ¬ HasStampWriting pattern moment) }
    ensures front { IsPrefix out.old.items out.new.items }
{
    if pattern == 0 {
        return Ok(stamp_fits(pattern, moment));
    }
    printer.print_fitting(pattern, moment, out)
}

// Appends what the text of a log type is written as with these words in its slots, where they fit
// the slots and it is one.
pub(crate) fn put_body<N: Names>(
    text: &[u8],
    words: &[u64],
    names: &N,
    out: &mut Vec<u8>,
) -> Result<bool, AllocError>
    ensures written { IfOk result (λ fits. IsTrue fits → ((body : List ℕ)
        × IsBody (N.words names.now) text.now words.now body
        × (out.new.items ≡ out.old.items ++ body))) }
    ensures misfit { IfOk result (λ fits. IsFalse fits
        → ¬ HasBody (N.words names.now) text.now words.now) }
    ensures front { IsPrefix out.old.items out.new.items }
{
    let mut rest = put_plain(text, out)?;
    let mut left = words;
    while let Some((symbol, after)) = first_symbol(rest) {
        let Some(others) = put_symbol(symbol, left, names, out)? else {
            return Ok(false);
        };
        left = others;
        rest = put_plain(after, out)?;
    }
    Ok(ends(rest, left))
}

// Whether no text and no word is left.
#[inline]
fn ends(rest: &[u8], left: &[u64]) -> bool
    ensures { IsTrue result ↔ ((rest.now ≡ []) × (left.now ≡ [])) }
{
    rest.is_empty() && left.is_empty()
}

// Appends what a symbol is written as with the first of these words, and gives the words behind it;
// `None` where it is a slot, and no word that fits it is there.
#[inline]
pub(crate) fn put_symbol<'a, N: Names>(
    symbol: Symbol,
    words: &'a [u64],
    names: &N,
    out: &mut Vec<u8>,
) -> Result<Option<&'a [u64]>, AllocError>
    ensures put { IfOk result (λ found. IfSome found (λ left. (after : List ℕ)
        → Puts (N.words names.now) (text_of_symbol symbol ++ after) words.now after left.now
        out.old.items out.new.items)) }
    ensures none { IfOk result (λ found. IfNone found ((after : List ℕ)
        → ¬ HasBody (N.words names.now) (text_of_symbol symbol ++ after) words.now)) }
    ensures front { IsPrefix out.old.items out.new.items }
{
    match symbol {
        Symbol::Byte(byte) => {
            put_bytes(out, &[byte])?;
            Ok(Some(words))
        }
        Symbol::Slot(kind) => {
            let [word, left @ ..] = words else {
                return Ok(None);
            };
            if !put_word(kind, *word, names, out)? {
                return Ok(None);
            }
            Ok(Some(left))
        }
    }
}

// Appends the constants at the front of a text that stand there as they are, and gives what
// follows.
#[inline]
fn put_plain<'a>(text: &'a [u8], out: &mut Vec<u8>) -> Result<&'a [u8], AllocError>
    ensures put { IfOk result (λ rest. (words : List (List ℕ)) (row : List ℕ)
        → Puts words text.now row rest.now row out.old.items out.new.items) }
    ensures shorter { IfOk result (λ rest. length rest.now ≤ length text.now) }
    ensures front { IsPrefix out.old.items out.new.items }
{
    let len = plain_front(text);
    let (_, rest) = text.split_at(len);
    put_front(out, text, len)?;
    Ok(rest)
}

// Appends the text of a variable of this kind with this word, where it has one.
#[inline]
fn put_word<N: Names>(
    kind: Kind,
    word: u64,
    names: &N,
    out: &mut Vec<u8>,
) -> Result<bool, AllocError>
    ensures written { IfOk result (λ fits. IsTrue fits → ((text : List ℕ)
        × IsWritten (N.words names.now) kind text word
        × (out.new.items ≡ out.old.items ++ text))) }
    ensures misfit { IfOk result (λ fits. IsFalse fits
        → ¬ HasWriting (N.words names.now) kind word) }
    ensures front { IsPrefix out.old.items out.new.items }
{
    match kind {
        Kind::Whole => {
            append_whole(word.cast_signed(), out)?;
            Ok(true)
        }
        Kind::Decimal => {
            if !decimal_ok(word) {
                return Ok(false);
            }
            let mut digits = [0; 20];
            let len = decimal_text(word, &mut digits);
            put_bytes(out, &digits[..len])?;
            Ok(true)
        }
        Kind::Word => match dictionary_word(word, names) {
            Some(text) => {
                put_bytes(out, text)?;
                Ok(true)
            }
            None => Ok(false),
        },
    }
}
