//! Tokens that rows bring by the constant bytes of their log types alone.
ghost use Rattle.std.specs.Prelude.{IsTrue};
ghost use Rattle.logtype_text.specs.TypeText.{IsTypeText};
ghost use Rattle.subquery_filter.specs.Filter.{Has, LacksText};
ghost use Rattle.subquery_filter.specs.Tokens.{StandsInType};

use crate::bits::has;
use crate::token::Token;

/// Whether a log type lacks a token that is not among others, so that rows bring it in no other
/// way.
fn lacks_token(token: &Token, others: u8, text: &[u8]) -> bool
    ensures lacks { IsTrue result → IsTypeText text.now
        → ¬ StandsInType token.now.matcher.items text.now }
    ensures others { IsTrue result → ¬ Has others token.now.bit }
{
    if has(others, token.bit) {
        return false;
    }
    !token.storing.matches(text)
}

/// Whether a log type lacks the token at a place, which rows bring in no other way.
fn lacks_at(tokens: &[Token], place: usize, others: u8, text: &[u8]) -> bool
    ensures { IsTrue result → LacksText tokens.now others text.now }
{
    match tokens.get(place) {
        Some(token) => lacks_token(token, others, text),
        None => false,
    }
}

/// Whether a log type lacks a token that rows bring in no other way. The one at a place is looked
/// for first, and none is behind the first that is lacking.
pub(crate) fn lacks_rare(tokens: &[Token], lead: usize, others: u8, text: &[u8]) -> bool
    ensures { IsTrue result → LacksText tokens.now others text.now }
{
    if lacks_at(tokens, lead, others, text) {
        return true;
    }
    for place in 0..tokens.len() {
        if place != lead && lacks_at(tokens, place, others, text) {
            return true;
        }
    }
    false
}

/// The place of the longest of the tokens that are not among others.
pub(crate) fn longest_rare(tokens: &[Token], others: u8) -> usize {
    let mut lead = 0;
    let mut longest = 0;
    for place in 0..tokens.len() {
        let token = &tokens[place];
        let len = token.text.as_slice().len();
        if !has(others, token.bit) && len > longest {
            lead = place;
            longest = len;
        }
    }
    lead
}
