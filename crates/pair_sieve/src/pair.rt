//! The two bytes of a pattern that are looked for.
ghost use Rattle.std.specs.Prelude.{◌≡◌, ◌<◌, ◌≤◌, ◌↔◌, ℕ, [], ◌∷◌, length, IfSome, IsTrue, Some, false, slice_get};
ghost use Rattle.logtype_text.specs.TypeText.{is_escaped};
ghost use Rattle.stamp_templates.specs.Laws.{StandsInNone};
ghost use Rattle.wild_match.specs.declared.pattern.Item.TheVariants.{Byte};
ghost use Rattle.pair_sieve.specs.Pairs.{IsOfNumber, IsPairOf};

use logtype_text::needs_escape;
use stamp_templates::may_stand;
use wild_match::Item;

/// Two bytes, the one right behind the other.
#[derive(Clone, Copy, Debug, PartialEq, Eq)]
pub struct Pair {
    /// The first byte.
    pub before: u8,
    /// The byte behind it.
    pub after: u8,
}

/// Bytes of log lines from the common to the rare, in English words and names. Free to tune: no answer
/// rests on it.
const COMMON: &[u8] = b" etaoinsrdlchumpgfbyvk_=:/wxjqz";

/// How rare a byte is: 0 for the most common one.
fn rareness(byte: u8) -> usize
    ensures { result ≤ 100 }
{
    for place in 0..COMMON.len() {
        if COMMON[place] == byte {
            return place;
        }
    }
    COMMON.len()
}

/// Whether a byte may stand in the text of a number.
fn is_of_number(byte: u8) -> bool
    ensures { IsTrue result ↔ IsOfNumber byte }
{
    byte.is_ascii_digit() || byte == b'-' || byte == b'.'
}

/// Whether the pair tells a message by its log type and its words alone.
fn serves(pair: Pair) -> bool
    ensures first { IsTrue result → ¬ IsOfNumber pair.before }
    ensures second { IsTrue result → ¬ IsOfNumber pair.after }
    ensures stamp { IsTrue result → (k : ℕ) → StandsInNone k (pair.before ∷ []) }
    ensures plain { IsTrue result → is_escaped pair.after ≡ false }
{
    !is_of_number(pair.before)
        && !is_of_number(pair.after)
        && !needs_escape(pair.after)
        && !may_stand(&[pair.before])
}

/// The byte at a place of a pattern, if one stands there as it is.
fn byte_at(items: &[Item], place: usize) -> Option<u8>
    ensures byte { IfSome result (λ b. slice_get items.now place ≡ Some (Byte b)) }
    ensures within { IfSome result (λ b. place < length items.now) }
{
    match items.get(place) {
        Some(Item::Byte(byte)) => Some(*byte),
        _ => None,
    }
}

/// The pair at a place of a pattern, if two bytes stand there that serve.
fn pair_at(items: &[Item], place: usize) -> Option<Pair>
    ensures { IfSome result (λ p. IsPairOf items.now p.before p.after) }
{
    let before = byte_at(items, place)?;
    let after = byte_at(items, place + 1)?;
    let pair = Pair { before, after };
    if serves(pair) { Some(pair) } else { None }
}

/// Of the pairs of a pattern that serve one that is likely rare; `None` where none serves.
pub(crate) fn rarest_pair(items: &[Item]) -> Option<Pair>
    ensures { IfSome result (λ p. IsPairOf items.now p.before p.after) }
{
    let mut found: Option<Pair> = None;
    let mut most = 0;
    for place in 0..items.len() {
        if let Some(pair) = pair_at(items, place) {
            let rare = 1 + rareness(pair.before) + rareness(pair.after);
            if rare > most {
                most = rare;
                found = Some(pair);
            }
        }
    }
    found
}
