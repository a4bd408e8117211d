//! Matching by the pattern alone, with no memory taken.
ghost use Rattle.std.specs.Prelude.{◌≡◌, ◌↔◌, ◌+◌, ◌≤◌, ◌<◌, IfSome, IsTrue, length, take, drop, ◌∷◌};
ghost use Rattle.memchr.specs.Find.{IsFirst};
ghost use Rattle.wild_match.specs.Matches.{Match, IsFixed, Fits, FitsAt};
ghost use Rattle.wild_match.specs.Runs.{RunAt};
ghost use Rattle.wild_match.specs.declared.pattern.Item.TheVariants.{Many};

use crate::pattern::{Item, Pattern};
use memchr::memmem::Finder;

/// How many items stand before the first [`Item::Many`], or all where there is none.
pub(crate) fn fixed_len(items: &[Item]) -> usize
    ensures within { result ≤ length items.now }
    ensures fixed { IsFixed (take result items.now) }
    ensures many { result < length items.now
        → drop result items.now ≡ Many ∷ drop (result + 1) items.now }
{
    items
        .iter()
        .position(|item| *item == Item::Many)
        .unwrap_or(items.len())
}

/// Whether the bytes begin with as many that the items match; never with an [`Item::Many`] there.
pub(crate) fn fits(fixed: &[Item], bytes: &[u8]) -> bool
    ensures fits { IsTrue result ↔ Fits fixed.now bytes.now }
    ensures long { IsTrue result → length fixed.now ≤ length bytes.now }
{
    if bytes.len() < fixed.len() {
        return false;
    }
    for i in 0..fixed.len() {
        match fixed[i] {
            Item::Byte(byte) => {
                if bytes[i] != byte {
                    return false;
                }
            }
            Item::One => {}
            Item::Many => return false,
        }
    }
    true
}

/// Whether [`Item::Many`] and then these items match the bytes.
pub(crate) fn ends_with(fixed: &[Item], bytes: &[u8]) -> bool
    requires { IsFixed fixed.now }
    ensures { IsTrue result ↔ Match (Many ∷ fixed.now) bytes.now }
{
    if bytes.len() < fixed.len() {
        return false;
    }
    let start = bytes.len() - fixed.len();
    fits(fixed, &bytes[start..])
}

/// The first place where the items fit the bytes, found by the literal bytes that stand among them
/// from `skip` on.
pub(crate) fn find_with(
    finder: &Finder<'_>,
    skip: usize,
    fixed: &[Item],
    bytes: &[u8],
) -> Option<usize>
    requires fixed { IsFixed fixed.now }
    requires within { skip + length finder.now ≤ length fixed.now }
    requires needle { RunAt fixed.now finder.now skip }
    ensures first { IsFirst (FitsAt fixed.now bytes.now) 0 (length bytes.now + 1) result }
    ensures within { IfSome result (λ at. at + length fixed.now ≤ length bytes.now) }
{
    let mut from = 0;
    while fixed.len() <= bytes.len() - from {
        let at = finder.find(&bytes[from + skip..])?;
        let start = from + at;
        if fits(fixed, &bytes[start..]) {
            return Some(start);
        }
        if start == bytes.len() {
            return None;
        }
        from = start + 1;
    }
    None
}

/// How many bytes of a needle are kept beside the pattern's items while one piece is looked for.
const NEEDLE_LEN: usize = 32;

/// The literal bytes at the front of the items, as many as there is room for.
fn copy_run(items: &[Item], room: &mut [u8; NEEDLE_LEN]) -> usize
    ensures within { result ≤ length items.now }
    ensures room { result ≤ length room.new }
    ensures run { RunAt items.now (take result room.new) 0 }
{
    for i in 0..NEEDLE_LEN {
        if i == items.len() {
            return i;
        }
        match items[i] {
            Item::Byte(byte) => room[i] = byte,
            _ => return i,
        }
    }
    NEEDLE_LEN
}

/// The first place where the items fit the bytes.
fn find_fixed(fixed: &[Item], bytes: &[u8]) -> Option<usize>
    requires { IsFixed fixed.now }
    ensures first { IsFirst (FitsAt fixed.now bytes.now) 0 (length bytes.now + 1) result }
    ensures within { IfSome result (λ at. at + length fixed.now ≤ length bytes.now) }
{
    let skip = leading_ones(fixed);
    let mut room = [0; NEEDLE_LEN];
    let count = copy_run(&fixed[skip..], &mut room);
    find_with(&Finder::new(&room[..count]), skip, fixed, bytes)
}

/// How many items stand before the first that is not [`Item::One`].
fn leading_ones(items: &[Item]) -> usize
    ensures { result ≤ length items.now }
{
    items
        .iter()
        .position(|item| *item != Item::One)
        .unwrap_or(items.len())
}

/// Whether [`Item::Many`] and then these items match the bytes: each piece between two
/// [`Item::Many`] is taken at its first place, so nothing before the last one is tried again.
fn matches_after(items: &[Item], bytes: &[u8]) -> bool
    ensures { IsTrue result ↔ Match (Many ∷ items.now) bytes.now }
{
    let mut rest = items;
    let mut left = bytes;
    'pieces: loop {
        let end = fixed_len(rest);
        if end == rest.len() {
            return ends_with(rest, left);
        }
        match find_fixed(&rest[..end], left) {
            None => return false,
            Some(at) => {
                left = &left[at + end..];
                rest = &rest[end + 1..];
            }
        }
    }
}

/// Whether the pattern matches the bytes, all of them: a byte matches itself, [`Item::One`] any
/// one byte, and [`Item::Many`] any bytes, none too.
///
/// Takes no memory. The items between two [`Item::Many`] are taken at their first place, so that
/// a mismatch goes back to the last [`Item::Many`] only. At worst it costs the items of the
/// pattern times the bytes; a plain word costs little more than a search for a substring, and
/// [`crate::Matcher`] makes that search ready once for many messages.
pub fn matches(pattern: &Pattern, bytes: &[u8]) -> bool
    ensures { IsTrue result ↔ Match pattern.now bytes.now }
{
    let items = pattern.as_slice();
    let front = fixed_len(items);
    if !fits(&items[..front], bytes) {
        return false;
    }
    if front == items.len() {
        return bytes.len() == front;
    }
    matches_after(&items[front + 1..], &bytes[front..])
}
