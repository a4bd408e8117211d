//! What a plan says of its tokens: how many are open, and which words a message has to bring.
ghost use Rattle.std.specs.Prelude.{◌≡◌, ◌++◌, ◌∷◌, ◌<◌, ◌^◌, not, IfOk, OnOk};
ghost use Rattle.std.specs.List.{list_any};
ghost use Rattle.query_plan.specs.Pieces.{Free, IsCut, more, open_count, needed_of, is_stamp_token_byte};
ghost use Rattle.query_plan.specs.Cutting.{needed_first, variable_first};
ghost use Rattle.query_plan.specs.Needs.{needed_variables_of};

use crate::pieces::{Piece, delimiter, is_mark, opens};
use plain_list::Text;
use std::alloc::{AllocError, Global};
use token_rules::is_var;

/// One more, where there is an open token.
fn more(opened: bool, count: usize) -> usize
    requires { count < 2 ^ 63 }
    ensures { result ≡ more opened count }
{
    if opened { count + 1 } else { count }
}

/// How many open tokens there are.
pub(crate) fn open_count(pieces: &[Piece]) -> usize
    ensures { result ≡ open_count Free pieces.now }
{
    let mut count = 0;
    let mut rest = pieces;
    let mut after_mark = false;
    while let Some((first, behind)) = rest.split_first() {
        count = more(opens(after_mark, first, behind), count);
        after_mark = is_mark(first);
        rest = behind;
    }
    count
}

/// Whether a byte can stand in a token of a stamp.
#[tactic(auto, unfolding(crate::specs::Pieces::is_stamp_token_byte))]
fn is_stamp_token_byte(byte: u8) -> bool
    ensures { result ≡ is_stamp_token_byte byte }
{
    matches!(byte, b'0'..=b'9' | b'-' | b'.' | b'T' | b'Z')
}

/// Whether a token has a byte that no token of a stamp has.
fn has_own_byte(token: &[u8]) -> bool
    ensures { result ≡ list_any (λ b. not (is_stamp_token_byte b)) token.now }
{
    token.iter().any(|byte| !is_stamp_token_byte(*byte))
}

/// Appends a piece where it is a needed word: a closed token that can lie in no stamp.
fn push_needed(
    alloc: Global,
    words: &mut Vec<Text>,
    after_mark: bool,
    piece: &Piece,
    behind: &[Piece],
) -> Result<(), AllocError>
    ensures { OnOk result (words.new.items
        ≡ words.old.items ++ needed_first after_mark piece.now behind.now) }
{
    let opened = opens(after_mark, piece, behind);
    if let Piece::Word(text) = piece {
        if !opened && has_own_byte(text.as_slice()) {
            words.push(Text::new(Vec::from_slice(alloc, text.as_slice())?))?;
        }
    }
    Ok(())
}

/// The needed words, from left to right.
pub(crate) fn needed_words(alloc: Global, pieces: &[Piece]) -> Result<Vec<Text>, AllocError>
    ensures { IfOk result (λ words. words.items ≡ needed_of Free pieces.now) }
{
    let mut words = Vec::new(alloc);
    let mut rest = pieces;
    let mut after_mark = false;
    while let Some((first, behind)) = rest.split_first() {
        push_needed(alloc, &mut words, after_mark, first, behind)?;
        after_mark = is_mark(first);
        rest = behind;
    }
    Ok(words)
}

/// Appends whether a piece is a variable, where it is a needed word. A closed token has a delimiter of
/// the pattern before it, so this is known.
fn push_variable(
    flags: &mut Vec<bool>,
    before: Option<u8>,
    piece: &Piece,
    behind: &[Piece],
) -> Result<(), AllocError>
    requires { IsCut (piece.now ∷ behind.now) }
    ensures { OnOk result (flags.new.items
        ≡ flags.old.items ++ variable_first before piece.now behind.now) }
{
    let opened = opens(before.is_some(), piece, behind);
    if let Piece::Word(text) = piece {
        if !opened && has_own_byte(text.as_slice()) {
            flags.push(is_var(before, text.as_slice()))?;
        }
    }
    Ok(())
}

/// For each needed word, from left to right, whether it is a variable.
pub(crate) fn needed_variables(alloc: Global, pieces: &[Piece]) -> Result<Vec<bool>, AllocError>
    requires { IsCut pieces.now }
    ensures { IfOk result (λ flags. flags.items ≡ needed_variables_of Free pieces.now) }
{
    let mut flags = Vec::new(alloc);
    let mut rest = pieces;
    let mut before = None;
    while let Some((first, behind)) = rest.split_first() {
        push_variable(&mut flags, before, first, behind)?;
        before = delimiter(first);
        rest = behind;
    }
    Ok(flags)
}
