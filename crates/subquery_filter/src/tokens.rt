//! The tokens of a pattern, and in which texts they stand.
ghost use Rattle.std.specs.Prelude.{◌≡◌, ◌<◌, ℕ, All, IfOk, IfSome, IsTrue, None, OnOk, Option, Some, length, slice_get, take, true};
ghost use Rattle.token_rules.specs.Tokens.{is_variable};
ghost use Rattle.var_codec.specs.Codes.{Codes};
ghost use Rattle.var_codec.specs.declared.Coded.{Coded};
ghost use Rattle.wild_match.specs.Matches.{Match};
ghost use Rattle.query_plan.specs.declared.pieces.Piece.TheVariants.{Mark, Word};
ghost use Rattle.subquery_filter.specs.Filter.{Gives, Has, IsWanted, MarksOpen};
ghost use Rattle.subquery_filter.specs.declared.tokens.ClosedVariable.{ClosedVariable};
ghost use Rattle.subquery_filter.specs.StepsFilter.{AreTokens, EndsRun, HasAll, IsClosedBy};
ghost use Rattle.query_plan.specs.Needs.{around};
ghost use Rattle.query_plan.specs.Pieces.{IsCut};
ghost use Rattle.logtype_text.specs.TypeText.{IsTypeText};
ghost use Rattle.subquery_filter.specs.Tokens.{StandsInType, stored};

use crate::beside::{pass_piece, text_around};
use crate::bits::has;
use crate::number_text::{is_open, is_plain};
use crate::short_text::stands_in;
use crate::token::Token;
use logtype_text::{Symbol, Symbols, to_text};
use plain_list::Text;
use query_plan::Piece;
use std::alloc::{AllocError, Global};
use var_codec::{Coded, encode};
use wild_match::{Item, Matcher, Pattern};

/// A text with any bytes on both sides.
fn around(alloc: Global, text: &[u8]) -> Result<Pattern, AllocError>
    ensures { IfOk result (λ items. items ≡ around text.now) }
{
    let mut items = Vec::new(alloc);
    items.push(Item::Many)?;
    for byte in text {
        items.push(Item::Byte(*byte))?;
    }
    items.push(Item::Many)?;
    Ok(Pattern::new(items))
}

/// What constant bytes are stored as in the text of a log type.
pub(crate) fn stored_text(alloc: Global, run: &[u8]) -> Result<Text, AllocError>
    ensures { IfOk result (λ text. text ≡ stored run.now) }
{
    let mut symbols = Vec::new(alloc);
    for byte in run {
        symbols.push(Symbol::Byte(*byte))?;
    }
    let text = to_text(alloc, &Symbols::new(symbols))?;
    Ok(text)
}

/// Matches the texts of log types among whose constant bytes a token stands.
fn stored_matcher(alloc: Global, token: &[u8]) -> Result<Matcher, AllocError>
    ensures { IfOk result (λ matcher. matcher.items ≡ around (stored token.now)) }
{
    let text = stored_text(alloc, token)?;
    let pattern = around(alloc, text.as_slice())?;
    let matcher = Matcher::new(alloc, &pattern)?;
    Ok(matcher)
}

/// The bit of the token that comes behind so many: with more than eight tokens some share one.
pub(crate) fn bit_behind(count: usize) -> u8 {
    match count % 8 {
        0 => 1,
        1 => 2,
        2 => 4,
        3 => 8,
        4 => 16,
        5 => 32,
        6 => 64,
        _ => 128,
    }
}

/// The delimiter that stands at a place.
fn mark_at(pieces: &[Piece], place: usize) -> Option<u8>
    ensures { (d : ℕ) → result ≡ Some d → slice_get pieces.now place ≡ Some (Mark d) }
{
    match pieces.get(place) {
        Some(Piece::Mark(delimiter)) => Some(*delimiter),
        _ => None,
    }
}

/// The text of the token that stands at a place.
fn token_at(pieces: &[Piece], place: usize) -> Option<&[u8]>
    ensures { IfSome result (λ text. slice_get pieces.now place ≡ Some (Word text.now)) }
{
    match pieces.get(place) {
        Some(Piece::Word(text)) => Some(text.as_slice()),
        _ => None,
    }
}

/// Whether a text has a digit, so that it is a variable as a token.
fn has_digit(text: &[u8]) -> bool
    ensures { IsTrue result → (before : Option ℕ) → is_variable before text.now ≡ true }
{
    for byte in text {
        if byte.is_ascii_digit() {
            return true;
        }
    }
    false
}

/// What a text is stored as, where it has a digit.
fn variable_code(text: &[u8]) -> Option<Coded>
    ensures coded { (code : Coded) → result ≡ Some code → Codes text.now code }
    ensures variable { (code : Coded) → result ≡ Some code → (before : Option ℕ)
        → is_variable before text.now ≡ true }
{
    if !has_digit(text) {
        return None;
    }
    Some(encode(text))
}

/// A token with a digit between two delimiters of the pattern, and what it is stored as: a number,
/// or a word as `04`. It is all of a variable or none of it.
#[derive(Clone, Copy)]
pub(crate) struct ClosedVariable {
    pub(crate) code: Coded,
    pub(crate) before: u8,
    pub(crate) behind: u8,
}

/// The token at a place, where it has a digit and stands between two delimiters.
fn closed_variable(pieces: &[Piece], place: usize, text: &[u8]) -> Option<ClosedVariable>
    requires { slice_get pieces.now place ≡ Some (Word text.now) }
    ensures { (n : ClosedVariable) → result ≡ Some n
        → IsClosedBy pieces.now text.now n.code n.before n.behind }
{
    if place == 0 {
        return None;
    }
    let before = mark_at(pieces, place - 1)?;
    let behind = mark_at(pieces, place + 1)?;
    let code = variable_code(text)?;
    Some(ClosedVariable {
        code,
        before,
        behind,
    })
}

/// What a closed variable is stored as.
fn code_of(variable: Option<ClosedVariable>) -> Option<Coded>
    ensures none { result ≡ None → variable ≡ None }
    ensures some { (code : Coded) → result ≡ Some code → (n : ClosedVariable)
        × (variable ≡ Some n) × (n.code ≡ code) }
{
    match variable {
        Some(variable) => Some(variable.code),
        None => None,
    }
}

/// Appends the piece at a place where it is a token. The text of the pieces between it and the gap
/// before it is given.
fn push_token(
    alloc: Global,
    tokens: &mut Vec<Token>,
    pieces: &[Piece],
    place: usize,
    front: &[u8],
) -> Result<(), AllocError>
    requires cut { IsCut pieces.now }
    requires within { place < length pieces.now }
    requires front { EndsRun (take place pieces.now) front.now }
    ensures { OnOk result (AreTokens pieces.now tokens.old.items
        → AreTokens pieces.now tokens.new.items) }
{
    let Some(bytes) = token_at(pieces, place) else {
        return Ok(());
    };
    let pattern = around(alloc, bytes)?;
    let matcher = Matcher::new(alloc, &pattern)?;
    let storing = stored_matcher(alloc, bytes)?;
    let bit = bit_behind(tokens.len());
    let variable = closed_variable(pieces, place, bytes);
    let chunk = text_around(alloc, pieces, place, bytes, front, variable)?;
    let closed = code_of(variable);
    let numeric = is_open(closed, bytes);
    let plain = is_plain(bytes);
    let text = Text::new(Vec::from_slice(alloc, bytes)?);
    tokens.push(Token {
        text,
        chunk,
        matcher,
        pattern,
        storing,
        bit,
        closed,
        numeric,
        plain,
    })?;
    Ok(())
}

/// The tokens among the pieces of a pattern.
pub(crate) fn tokens_of(alloc: Global, pieces: &[Piece]) -> Result<Vec<Token>, AllocError>
    requires { IsCut pieces.now }
    ensures { IfOk result (λ tokens. AreTokens pieces.now tokens.items) }
{
    let mut tokens = Vec::new(alloc);
    let mut front = Vec::new(alloc);
    for place in 0..pieces.len() {
        push_token(alloc, &mut tokens, pieces, place, front.as_slice())?;
        pass_piece(&mut front, &pieces[place])?;
    }
    Ok(tokens)
}

/// The bits of all tokens.
pub(crate) fn all_bits(tokens: &[Token]) -> u8
    ensures each { HasAll tokens.now result }
    ensures only { IsWanted tokens.now result }
{
    let mut bits = 0;
    for token in tokens {
        bits |= token.bit;
    }
    bits
}

/// The bits of the tokens that stand in a text with all that stands around them in the pattern.
pub(crate) fn chunk_marks(tokens: &[Token], text: &[u8]) -> u8 {
    let mut bits = 0;
    for token in tokens {
        if stands_in(text, token.chunk.as_slice()) {
            bits |= token.bit;
        }
    }
    bits
}

/// The bit of a token where it stands among the constant bytes of a log type, as they are stored.
fn gift_of(token: &Token, text: &[u8]) -> u8
    ensures { IsTypeText text.now → StandsInType token.now.matcher.items text.now
        → result ≡ token.now.bit }
{
    if token.storing.matches(text) {
        token.bit
    } else {
        0
    }
}

/// The bit of a token where it stands among the constant bytes of a log type, or is not among
/// others: then it is taken to stand there.
fn gift_beside(token: &Token, others: u8, text: &[u8]) -> u8
    ensures { IsTypeText text.now → StandsInType token.now.matcher.items text.now
        → result ≡ token.now.bit }
{
    if has(others, token.bit) {
        gift_of(token, text)
    } else {
        token.bit
    }
}

/// The bits of the tokens that stand among the constant bytes of a log type. Those that rows bring
/// in no other way, so that their bits are not among others, are taken to stand there: without
/// them the log type is rejected.
pub(crate) fn gifts_of(tokens: &[Token], others: u8, text: &[u8]) -> u8
    ensures { Gives tokens.now text.now result }
{
    let mut bits = 0;
    for token in tokens {
        bits |= gift_beside(token, others, text);
    }
    bits
}

/// The bit of a token that is no closed variable where it stands in a text.
fn open_mark(token: &Token, text: &[u8]) -> u8
    ensures { token.now.closed ≡ None → Match token.now.matcher.items text.now
        → result ≡ token.now.bit }
{
    if token.closed.is_none() && stands_in(text, token.text.as_slice()) {
        token.bit
    } else {
        0
    }
}

/// The bits of the tokens that are no closed variables, and stand in a text.
pub(crate) fn open_marks(tokens: &[Token], text: &[u8]) -> u8
    ensures { MarksOpen tokens.now text.now result }
{
    let mut bits = 0;
    for token in tokens {
        bits |= open_mark(token, text);
    }
    bits
}

/// The bit of a token that is a closed variable, and is stored so.
#[inline]
fn coded_bit(token: &Token, code: Coded) -> u8
    ensures { token.now.closed ≡ Some code → result ≡ token.now.bit }
{
    if token.closed == Some(code) {
        token.bit
    } else {
        0
    }
}

/// The bits of the closed variables that are stored so.
#[inline]
pub(crate) fn coded_bits(tokens: &[Token], code: Coded) -> u8
    ensures { All (λ k. k.closed ≡ Some code → Has result k.bit) tokens.now }
{
    let mut bits = 0;
    for token in tokens {
        bits |= coded_bit(token, code);
    }
    bits
}
