//! What stands around a token in the pattern, without a gap between.
ghost use Rattle.std.specs.Prelude.{◌≡◌, ◌≤◌, ◌<◌, ◌++◌, ◌∷◌, [], List, IfOk, IsFalse, IsTrue, None, OnOk, Some, drop, length, slice_get, take};
ghost use Rattle.query_plan.specs.declared.pieces.Piece.{Piece};
ghost use Rattle.query_plan.specs.declared.pieces.Piece.TheVariants.{Word};
ghost use Rattle.query_plan.specs.Laws.{NoGap, chunk_text};
ghost use Rattle.subquery_filter.specs.declared.tokens.ClosedVariable.{ClosedVariable};
ghost use Rattle.subquery_filter.specs.StepsFilter.{AddsRun, EndsRun};
ghost use Rattle.subquery_filter.specs.Tokens.{IsInRun};

use crate::tokens::ClosedVariable;
use plain_list::Text;
use query_plan::Piece;
use std::alloc::{AllocError, Global};

/// Appends the text of a piece that is no gap, and tells whether it is none.
fn push_piece(text: &mut Vec<u8>, piece: &Piece) -> Result<bool, AllocError>
    ensures put { IfOk result (λ yes. IsTrue yes → NoGap (piece.now ∷ [])
        × (text.new.items ≡ text.old.items ++ chunk_text (piece.now ∷ []))) }
    ensures gap { IfOk result (λ yes. IsFalse yes → text.new.items ≡ text.old.items) }
{
    match piece {
        Piece::Gap => return Ok(false),
        Piece::Mark(delimiter) => text.push(*delimiter)?,
        Piece::Word(word) => text.extend_from_slice(word.as_slice())?,
    }
    Ok(true)
}

/// Appends the text of the pieces from a place on, up to the next gap.
fn push_run(text: &mut Vec<u8>, pieces: &[Piece], from: usize) -> Result<(), AllocError>
    requires { from ≤ length pieces.now }
    ensures { OnOk result (AddsRun (drop from pieces.now) text.old.items text.new.items) }
{
    for place in from..pieces.len() {
        if !push_piece(text, &pieces[place])? {
            return Ok(());
        }
    }
    Ok(())
}

/// Goes on over a piece with the text of the pieces behind the last gap.
pub(crate) fn pass_piece(front: &mut Vec<u8>, piece: &Piece) -> Result<(), AllocError>
    ensures { OnOk result ((ps : List Piece) → EndsRun ps front.old.items
        → EndsRun (ps ++ piece.now ∷ []) front.new.items) }
{
    if !push_piece(front, piece)? {
        front.clear();
    }
    Ok(())
}

/// The text of the pieces around the token at a place, up to the gaps on both sides. That of the pieces
/// before it is given.
fn run_text(
    alloc: Global,
    pieces: &[Piece],
    place: usize,
    token: &[u8],
    front: &[u8],
) -> Result<Text, AllocError>
    requires here { slice_get pieces.now place ≡ Some (Word token.now) }
    requires within { place < length pieces.now }
    requires front { EndsRun (take place pieces.now) front.now }
    ensures { IfOk result (IsInRun pieces.now token.now) }
{
    let mut text = Vec::from_slice(alloc, front)?;
    text.extend_from_slice(token)?;
    push_run(&mut text, pieces, place + 1)?;
    Ok(Text::new(text))
}

/// The text of a closed variable with its delimiters.
fn closed_text(alloc: Global, variable: ClosedVariable, token: &[u8]) -> Result<Text, AllocError>
    ensures { IfOk result (λ w. w ≡ variable.before ∷ (token.now ++ variable.behind ∷ [])) }
{
    let mut text = Vec::new(alloc);
    text.push(variable.before)?;
    text.extend_from_slice(token)?;
    text.push(variable.behind)?;
    Ok(Text::new(text))
}

/// The text that stands around the token at a place: of a closed variable that with its delimiters, and
/// of another token that of the pieces up to the gaps on both sides.
pub(crate) fn text_around(
    alloc: Global,
    pieces: &[Piece],
    place: usize,
    token: &[u8],
    front: &[u8],
    variable: Option<ClosedVariable>,
) -> Result<Text, AllocError>
    requires here { slice_get pieces.now place ≡ Some (Word token.now) }
    requires within { place < length pieces.now }
    requires front { EndsRun (take place pieces.now) front.now }
    ensures runs { IfOk result (λ w. variable ≡ None → IsInRun pieces.now token.now w) }
    ensures closed { IfOk result (λ w. (n : ClosedVariable) → variable ≡ Some n
        → w ≡ n.before ∷ (token.now ++ n.behind ∷ [])) }
{
    match variable {
        Some(variable) => closed_text(alloc, variable, token),
        None => run_text(alloc, pieces, place, token, front),
    }
}
