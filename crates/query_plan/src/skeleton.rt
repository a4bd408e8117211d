//! What a log type must have so that a message of it can match.
ghost use Rattle.std.specs.Prelude.{◌≡◌, ◌++◌, ◌∷◌, IfOk, OnOk};
ghost use Rattle.time_patterns.specs.Laws.{is_stamp_byte};
ghost use Rattle.query_plan.specs.Cutting.{bones_first};
ghost use Rattle.query_plan.specs.Pieces.{IsCut};
ghost use Rattle.query_plan.specs.Needs.{back_part, foreign_next, is_behind, is_foreign, skeleton_of};

use crate::pieces::{Piece, delimiter, opens, push_bytes};
use std::alloc::{AllocError, Global};
use token_rules::is_var;
use wild_match::Item;

/// Whether a byte can stand in a stamp.
fn is_stamp_byte(byte: u8) -> bool
    ensures { result ≡ is_stamp_byte byte }
{
    matches!(
        byte,
        b'0'..=b'9' | b'-' | b'.' | b'T' | b'Z' | b':' | b',' | b'/' | b'[' | b']' | b' '
    )
}

/// Whether a text has a byte that no stamp has, so that it stands in no stamp.
pub fn is_foreign(text: &[u8]) -> bool
    ensures { result ≡ is_foreign text.now }
{
    text.iter().any(|byte| !is_stamp_byte(*byte))
}

/// Whether a token comes first that can lie in no stamp.
fn foreign_next(pieces: &[Piece]) -> bool
    ensures { result ≡ foreign_next pieces.now }
{
    match pieces.split_first() {
        Some((Piece::Word(text), _)) => is_foreign(text.as_slice()),
        _ => false,
    }
}

/// Whether a piece can lie in no stamp: it has a byte that no stamp has, or is a delimiter before a
/// token with one.
fn is_behind(piece: &Piece, behind: &[Piece]) -> bool
    ensures { result ≡ is_behind piece.now behind.now }
{
    match piece {
        Piece::Gap => false,
        Piece::Mark(byte) => !is_stamp_byte(*byte) || foreign_next(behind),
        Piece::Word(text) => is_foreign(text.as_slice()),
    }
}

/// The pieces from the first one on that can lie in no stamp.
fn back_part(pieces: &[Piece]) -> &[Piece]
    ensures { result.now ≡ back_part pieces.now }
{
    let mut rest = pieces;
    while let Some((first, behind)) = rest.split_first() {
        if is_behind(first, behind) {
            break;
        }
        rest = behind;
    }
    rest
}

/// Appends what a piece says of the constant bytes.
fn push_bones(
    items: &mut Vec<Item>,
    before: Option<u8>,
    piece: &Piece,
    behind: &[Piece],
) -> Result<(), AllocError>
    requires { IsCut (piece.now ∷ behind.now) }
    ensures { OnOk result (items.new.items
        ≡ items.old.items ++ bones_first before piece.now behind.now) }
{
    let opened = opens(before.is_some(), piece, behind);
    match piece {
        Piece::Gap => items.push(Item::Many)?,
        Piece::Mark(byte) => items.push(Item::Byte(*byte))?,
        Piece::Word(text) => {
            if opened {
                items.push(Item::Many)?;
            } else if !is_var(before, text.as_slice()) {
                push_bytes(items, text.as_slice())?;
            }
        }
    }
    Ok(())
}

/// The skeleton of pieces: any bytes, and then what the pieces that can lie in no stamp say of the
/// constant bytes of a body.
pub(crate) fn skeleton_of(alloc: Global, pieces: &[Piece]) -> Result<Vec<Item>, AllocError>
    requires { IsCut pieces.now }
    ensures { IfOk result (λ items. items.items ≡ skeleton_of pieces.now) }
{
    let mut items = Vec::new(alloc);
    items.push(Item::Many)?;
    let mut rest = back_part(pieces);
    let mut before = None;
    while let Some((first, behind)) = rest.split_first() {
        push_bones(&mut items, before, first, behind)?;
        before = delimiter(first);
        rest = behind;
    }
    Ok(items)
}
