//! Whether a token stands in a text of a few bytes, as a stamp or a number.
//!
//! A search that is made ready for long texts costs more there than all bytes do.
ghost use Rattle.std.specs.Prelude.{◌+◌, ◌≤◌, IsFalse, length};
ghost use Rattle.wild_match.specs.Matches.{Match};
ghost use Rattle.query_plan.specs.Needs.{around};
ghost use Rattle.stamp_templates.specs.Laws.{StandsAt};

use stamp_templates::laws::matches_stand;

/// Whether a token stands in a text from a place on.
#[inline(always)]
fn stands_at(text: &[u8], token: &[u8], at: usize) -> bool
    requires { at + length token.now ≤ length text.now }
    ensures { IsFalse result → ¬ StandsAt token.now text.now at }
{
    for place in 0..token.len() {
        if text[at + place] != token[place] {
            return false;
        }
    }
    true
}

/// Whether a token stands in a text.
#[inline(always)]
pub(crate) fn stands_in(text: &[u8], token: &[u8]) -> bool
    ensures { IsFalse result → ¬ Match (around token.now) text.now }
{
    matches_stand();
    if text.len() < token.len() {
        return false;
    }
    // No place behind these has room for the token.
    let places = text.len() - token.len() + 1;
    for at in 0..places {
        if stands_at(text, token, at) {
            return true;
        }
    }
    false
}
