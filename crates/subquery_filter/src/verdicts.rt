//! What a log type alone tells of its messages.
ghost use Rattle.std.specs.Prelude.{◌≡◌, ◌↔◌, List, Some, false, map, IsTrue};
ghost use Rattle.logtype_text.specs.Parts.{Part, symbol_of};
ghost use Rattle.logtype_text.specs.TypeText.{type_text};
ghost use Rattle.query_plan.specs.declared.pieces.Piece.{Piece};
ghost use Rattle.query_plan.specs.Laws.{HasNot};
ghost use Rattle.query_plan.specs.Needs.{skeleton_of};
ghost use Rattle.query_plan.specs.Pieces.{flat};
ghost use Rattle.wild_match.specs.Matches.{Match};
ghost use Rattle.subquery_filter.specs.StepsLetters.{mark_of, marked_from};
ghost use Rattle.subquery_filter.specs.Verdicts.{BeginsMany, IsCertain, IsRejected};

use logtype_text::{Symbol, first_symbol};
use query_plan::{Letters, Plan, matches_letters};
use wild_match::Item;

/// What the constant bytes of a log type tell of all its messages.
#[derive(Clone, Copy, Debug, PartialEq, Eq)]
pub enum Verdict {
    /// The pattern that the search is planned over matches none of them.
    Rejected,
    /// It matches each of them.
    Certain,
    /// Each of them is to be tried.
    Tried,
}

/// The byte that stands for a variable where all of a log type's messages are tried at once.
const MARK: u8 = b'\n';

/// The constant bytes that are left of a log type's text, with a byte or none for each variable.
#[derive(Clone, Copy)]
struct TypeLetters<'a> {
    text: &'a [u8],
    mark: Option<u8>,
}

impl Letters for TypeLetters<'_> {
    ghost rest = { λ l. marked_from false (mark_of l.mark) l.text.now };

    fn letter(&mut self) -> Option<u8> {
        loop {
            let (symbol, after) = first_symbol(self.text)?;
            self.text = after;
            match symbol {
                Symbol::Byte(byte) => return Some(byte),
                Symbol::Slot(_) => {
                    if let Some(mark) = self.mark {
                        return Some(mark);
                    }
                }
            }
        }
    }
}

/// Whether no item is the mark.
fn has_no_mark(items: &[Item]) -> bool
    ensures { IsTrue result ↔ HasNot 10 items.now }
{
    let mut rest = items;
    while let Some((first, behind)) = rest.split_first() {
        if *first == Item::Byte(MARK) {
            return false;
        }
        rest = behind;
    }
    true
}

/// Whether any bytes may come first.
fn begins_many(items: &[Item]) -> bool
    ensures { IsTrue result ↔ BeginsMany items.now }
{
    match items.split_first() {
        Some((first, _)) => *first == Item::Many,
        None => false,
    }
}

/// Whether items match the constant bytes of a log type, with the mark for each variable.
fn matches_marked(items: &[Item], text: &[u8]) -> bool
    ensures { IsTrue result
        ↔ Match items.now (marked_from false (mark_of (Some 10)) text.now) }
{
    let letters = TypeLetters {
        text,
        mark: Some(MARK),
    };
    matches_letters(items, letters)
}

/// Whether the pattern matches each message of a log type.
fn is_certain(items: &[Item], text: &[u8]) -> bool
    ensures { IsTrue result ↔ (BeginsMany items.now × HasNot 10 items.now
        × Match items.now (marked_from false (mark_of (Some 10)) text.now)) }
{
    begins_many(items) && has_no_mark(items) && matches_marked(items, text)
}

/// What a log type's text tells of its messages, so that it need be asked once a search. Takes no
/// memory.
pub fn verdict_of(plan: &Plan, text: &[u8]) -> Verdict
    ensures rejected { (parts : List Part) → text.now ≡ type_text (map symbol_of parts)
        → (result ≡ Verdict.Rejected) ↔ IsRejected plan.now parts }
    ensures certain { (parts : List Part) → text.now ≡ type_text (map symbol_of parts)
        → result ≡ Verdict.Certain → IsCertain plan.now parts }
    ensures tried { (parts : List Part) → text.now ≡ type_text (map symbol_of parts)
        → result ≡ Verdict.Tried → ¬ IsCertain plan.now parts }
{
    let constants = TypeLetters { text, mark: None };
    if !matches_letters(plan.skeleton().as_slice(), constants) {
        Verdict::Rejected
    } else if is_certain(plan.wide().as_slice(), text) {
        Verdict::Certain
    } else {
        Verdict::Tried
    }
}

/// What the text of a log type tells of its messages, among whose constant bytes all tokens stand.
/// Mostly it is certain, so that is asked first.
pub(crate) fn verdict_in_order(wide: &[Item], skeleton: &[Item], text: &[u8]) -> Verdict
    ensures rejected { (ps : List Piece) → skeleton.now ≡ skeleton_of ps
        → (parts : List Part) → text.now ≡ type_text (map symbol_of parts)
        → result ≡ Verdict.Rejected → IsRejected ps parts }
    ensures certain { (ps : List Piece) → wide.now ≡ flat ps
        → (parts : List Part) → text.now ≡ type_text (map symbol_of parts)
        → result ≡ Verdict.Certain → IsCertain ps parts }
{
    if is_certain(wide, text) {
        return Verdict::Certain;
    }
    let constants = TypeLetters { text, mark: None };
    if matches_letters(skeleton, constants) {
        Verdict::Tried
    } else {
        Verdict::Rejected
    }
}
