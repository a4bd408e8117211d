//! A pattern cut into pieces, and the pieces that a search is planned over.
ghost use Rattle.std.specs.Prelude.{◌≡◌, ◌++◌, [], ◌∷◌, ◌||◌, List, IfOk, OnOk, nat_lt, not};
ghost use Rattle.token_rules.specs.Tokens.{is_token_byte};
ghost use Rattle.query_plan.specs.declared.pieces.Piece.{Piece};
ghost use Rattle.query_plan.specs.Pieces.{pieces, put, EndsWord, thin, less, merge, flat, bytes, Free};
ghost use Rattle.query_plan.specs.Cutting.{delimiter_of, ended, fronted, opens, kept, is_mark, trimmed};

use plain_list::Text;
use std::alloc::{AllocError, Global};
use token_rules::is_delim;
use wild_match::Item;

/// How many open tokens stay in the pattern that a search is planned over; each one after them may be
/// any bytes. It bounds in how many ways a pattern can be read.
pub const MAX_OPEN_TOKENS: usize = 4;

/// A piece of a pattern.
#[derive(Debug, Drop)]
pub enum Piece {
    /// Any bytes, none too.
    Gap,
    /// A delimiter.
    Mark(u8),
    /// A token, as long as it can be.
    Word(Text),
}

/// Ends a token whose bytes were gathered, where there are any, and gives an empty one.
fn end_token(alloc: Global, out: &mut Vec<Piece>, token: Vec<u8>) -> Result<Vec<u8>, AllocError>
    ensures out { OnOk result (out.new.items ≡ ended out.old.items token.items) }
    ensures token { IfOk result (λ next. next.items ≡ []) }
{
    if token.is_empty() {
        return Ok(token);
    }
    out.push(Piece::Word(Text::new(token)))?;
    Ok(Vec::new(alloc))
}

/// Ends the token at hand and adds a piece behind it, which is no token.
fn end_with(
    alloc: Global,
    out: &mut Vec<Piece>,
    token: Vec<u8>,
    piece: Piece,
) -> Result<Vec<u8>, AllocError>
    requires { EndsWord (piece ∷ []) }
    ensures { IfOk result (λ next. (rest : List Piece) → out.new.items ++ fronted next.items rest
        ≡ out.old.items ++ fronted token.items (piece ∷ rest)) }
{
    let next = end_token(alloc, out, token)?;
    out.push(piece)?;
    Ok(next)
}

/// Takes one byte more: it goes on with the token at hand, or is a delimiter that ends it.
fn add_byte(
    alloc: Global,
    out: &mut Vec<Piece>,
    mut token: Vec<u8>,
    byte: u8,
) -> Result<Vec<u8>, AllocError>
    ensures { IfOk result (λ next. (rest : List Piece) → out.new.items ++ fronted next.items rest
        ≡ out.old.items ++ fronted token.items (put (is_token_byte byte) byte rest)) }
{
    if is_delim(byte) {
        return end_with(alloc, out, token, Piece::Mark(byte));
    }
    token.push(byte)?;
    Ok(token)
}

/// Takes one item more.
fn add_item(
    alloc: Global,
    out: &mut Vec<Piece>,
    token: Vec<u8>,
    item: Item,
) -> Result<Vec<u8>, AllocError>
    ensures { IfOk result
        (λ next. (rest : List Item) → out.new.items ++ fronted next.items (pieces rest)
        ≡ out.old.items ++ fronted token.items (pieces (item ∷ rest))) }
{
    match item {
        Item::Byte(byte) => add_byte(alloc, out, token, byte),
        Item::One | Item::Many => end_with(alloc, out, token, Piece::Gap),
    }
}

/// The pieces of a pattern, in which each wildcard is a gap.
pub(crate) fn cut(alloc: Global, items: &[Item]) -> Result<Vec<Piece>, AllocError>
    ensures { IfOk result (λ cut. cut.items ≡ pieces items.now) }
{
    let mut out = Vec::new(alloc);
    let mut token = Vec::new(alloc);
    let mut rest = items;
    while let Some((first, behind)) = rest.split_first() {
        token = add_item(alloc, &mut out, token, *first)?;
        rest = behind;
    }
    end_token(alloc, &mut out, token)?;
    Ok(out)
}

/// Whether a piece is a delimiter.
pub(crate) fn is_mark(piece: &Piece) -> bool
    ensures { result ≡ is_mark piece.now }
{
    match piece {
        Piece::Mark(_) => true,
        Piece::Gap | Piece::Word(_) => false,
    }
}

/// The delimiter that a piece is.
pub(crate) fn delimiter(piece: &Piece) -> Option<u8>
    ensures { result ≡ delimiter_of piece.now }
{
    match piece {
        Piece::Mark(byte) => Some(*byte),
        Piece::Gap | Piece::Word(_) => None,
    }
}

/// Whether a piece is an open token: a delimiter stands not on both of its sides.
pub(crate) fn opens(after_mark: bool, piece: &Piece, behind: &[Piece]) -> bool
    ensures { result ≡ opens after_mark piece.now behind.now }
{
    let Piece::Word(_) = piece else {
        return false;
    };
    match behind.first() {
        Some(next) => !(after_mark && is_mark(next)),
        None => true,
    }
}

/// A copy of a piece, or a gap in the place of a token that may not stay.
fn keep(alloc: Global, piece: &Piece, stays: bool) -> Result<Piece, AllocError>
    ensures { IfOk result (λ kept_one. kept_one ≡ kept stays piece.now) }
{
    match piece {
        Piece::Gap => Ok(Piece::Gap),
        Piece::Mark(byte) => Ok(Piece::Mark(*byte)),
        Piece::Word(text) => {
            if stays {
                let bytes = Vec::from_slice(alloc, text.as_slice())?;
                Ok(Piece::Word(Text::new(bytes)))
            } else {
                Ok(Piece::Gap)
            }
        }
    }
}

/// Adds a piece, but for a gap behind a gap, and tells whether a gap stands last.
fn push_merged(out: &mut Vec<Piece>, behind_gap: bool, piece: Piece) -> Result<bool, AllocError>
    ensures { IfOk result (λ gap. (rest : List Piece) → out.new.items ++ trimmed gap (merge rest)
        ≡ out.old.items ++ trimmed behind_gap (merge (piece ∷ rest))) }
{
    let is_gap = match &piece {
        Piece::Gap => true,
        Piece::Mark(_) | Piece::Word(_) => false,
    };
    if !(is_gap && behind_gap) {
        out.push(piece)?;
    }
    Ok(is_gap)
}

/// How many open tokens may stay behind a piece.
fn spend(left: usize, opened: bool) -> usize
    ensures { result ≡ less left opened }
{
    if opened && left > 0 { left - 1 } else { left }
}

/// Whether a piece may stay.
fn may_stay(left: usize, opened: bool) -> bool
    ensures { result ≡ (not opened || nat_lt 0 left) }
{
    !opened || left > 0
}

/// The pieces that a search is planned over: each open token after the first few is a gap, and gaps in
/// a row are one.
pub(crate) fn plan_pieces(alloc: Global, cut: &[Piece]) -> Result<Vec<Piece>, AllocError>
    ensures { IfOk result (λ planned. planned.items ≡ merge (thin MAX_OPEN_TOKENS Free cut.now)) }
{
    let mut out = Vec::new(alloc);
    let mut rest = cut;
    let mut after_mark = false;
    let mut behind_gap = false;
    let mut left = MAX_OPEN_TOKENS;
    while let Some((first, behind)) = rest.split_first() {
        let opened = opens(after_mark, first, behind);
        let piece = keep(alloc, first, may_stay(left, opened))?;
        behind_gap = push_merged(&mut out, behind_gap, piece)?;
        left = spend(left, opened);
        after_mark = is_mark(first);
        rest = behind;
    }
    Ok(out)
}

/// Appends the bytes of a token as items.
pub(crate) fn push_bytes(items: &mut Vec<Item>, token: &[u8]) -> Result<(), AllocError>
    ensures { OnOk result (items.new.items ≡ items.old.items ++ bytes token.now []) }
{
    for byte in token {
        items.push(Item::Byte(*byte))?;
    }
    Ok(())
}

/// Appends the items of a piece.
fn push_items(items: &mut Vec<Item>, piece: &Piece) -> Result<(), AllocError>
    ensures { OnOk result (items.new.items ≡ items.old.items ++ flat (piece.now ∷ [])) }
{
    match piece {
        Piece::Gap => items.push(Item::Many)?,
        Piece::Mark(byte) => items.push(Item::Byte(*byte))?,
        Piece::Word(text) => push_bytes(items, text.as_slice())?,
    }
    Ok(())
}

/// The items of pieces.
pub(crate) fn items_of(alloc: Global, pieces: &[Piece]) -> Result<Vec<Item>, AllocError>
    ensures { IfOk result (λ items. items.items ≡ flat pieces.now) }
{
    let mut items = Vec::new(alloc);
    let mut rest = pieces;
    while let Some((first, behind)) = rest.split_first() {
        push_items(&mut items, first)?;
        rest = behind;
    }
    Ok(items)
}
