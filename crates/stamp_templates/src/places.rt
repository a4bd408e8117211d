//! Where a text may stand in the stamps of a pattern.
ghost use Rattle.std.specs.Prelude.{◌+◌, ◌≤◌, ℕ, ℤ, ◌↔◌, IfOk, IsFalse, IsTrue};
ghost use Rattle.std.specs.List.{Contains};
ghost use Rattle.time_patterns.specs.Stamps.{Prints};
ghost use Rattle.wild_match.specs.Matches.{Match};
ghost use Rattle.query_plan.specs.Needs.{around};
ghost use Rattle.stamp_templates.specs.Laws.{EndsNone, StandsAt, StandsInNone};
ghost use Rattle.stamp_templates.specs.Templates.{ArePlaces, FitsAt, FitsEnd, template_of};

use crate::laws::{matches_stand, places_fit, texts_fit};
use crate::templates::{LONGEST, PATTERNS, allows, template};
use std::alloc::{AllocError, Global};

/// Whether so many bytes stand in a whole of so many from a place on.
#[inline]
fn has_room(whole: usize, part: usize, at: usize) -> bool
    ensures { IsTrue result ↔ (at + part ≤ whole) }
{
    part <= whole && at <= whole - part
}

/// Whether the template allows the bytes of the text from a place on.
pub(crate) fn fits_at(template: &[u8], text: &[u8], at: usize) -> bool
    ensures { IsTrue result ↔ FitsAt template.now text.now at }
{
    if !has_room(template.len(), text.len(), at) {
        return false;
    }
    for place in 0..text.len() {
        if !allows(template[at + place], text[place]) {
            return false;
        }
    }
    true
}

/// The places from which on the text may stand in the stamps of a pattern, by its template alone: no
/// stamp of the pattern has the text at another place.
pub fn places_of(alloc: Global, pattern: u8, text: &[u8]) -> Result<Vec<u8>, AllocError>
    ensures { IfOk result (λ places. (at : ℕ)
        → Contains places.items at ↔ FitsAt (template_of pattern) text.now at) }
{
    let template = template(pattern);
    let mut places = Vec::new(alloc);
    for at in 0..LONGEST + 1 {
        if fits_at(template, text, usize::from(at)) {
            places.push(at)?;
        }
    }
    Ok(places)
}

/// Whether a text may stand in a stamp of the pattern, by its template alone.
pub fn may_hold(pattern: u8, text: &[u8]) -> bool
    ensures may { IsTrue result → (at : ℕ) × FitsAt (template_of pattern) text.now at }
    ensures none { IsFalse result → StandsInNone pattern text.now }
{
    matches_stand();
    places_fit();
    let template = template(pattern);
    for at in 0..LONGEST + 1 {
        if fits_at(template, text, usize::from(at)) {
            return true;
        }
    }
    false
}

/// Whether a text may stand in a stamp of any pattern. Where it may not, no stamp need be looked at.
pub fn may_stand(text: &[u8]) -> bool
    ensures may { IsTrue result → (k : ℕ) × (at : ℕ) × FitsAt (template_of k) text.now at }
    ensures none { IsFalse result → (k : ℕ) → StandsInNone k text.now }
{
    for pattern in 1..PATTERNS + 1 {
        if may_hold(pattern, text) {
            return true;
        }
    }
    false
}

/// Whether a stamp of the pattern may end with the text, by its template alone.
pub fn may_end(pattern: u8, text: &[u8]) -> bool
    ensures may { IsTrue result → FitsEnd (template_of pattern) text.now }
    ensures none { IsFalse result → EndsNone pattern text.now }
{
    texts_fit();
    let template = template(pattern);
    text.len() <= template.len() && fits_at(template, text, template.len() - text.len())
}

/// Whether the text stands in a stamp's from a place on.
#[inline]
pub fn stands_at(stamp: &[u8], text: &[u8], at: usize) -> bool
    ensures { IsTrue result ↔ StandsAt text.now stamp.now at }
{
    has_room(stamp.len(), text.len(), at) && &stamp[at..at + text.len()] == text
}

/// Whether the text stands in a stamp's at one of the places. Where they are those of the stamp's
/// pattern, the text stands nowhere else.
pub fn stands_at_some(stamp: &[u8], text: &[u8], places: &[u8]) -> bool
    ensures some { IsTrue result → (at : ℕ) × StandsAt text.now stamp.now at }
    ensures none { IsFalse result → (k : ℕ) (m : ℤ) → Prints k m stamp.now
        → ArePlaces (template_of k) text.now places.now → ¬ Match (around text.now) stamp.now }
{
    matches_stand();
    places_fit();
    for at in places {
        if stands_at(stamp, text, usize::from(*at)) {
            return true;
        }
    }
    false
}
