//! A pattern made ready for many messages.
ghost use Rattle.std.specs.Prelude.{◌≡◌, ◌↔◌, ◌+◌, ◌≤◌, ℕ, List, IfOk, IfSome, IsTrue, length, ◌∷◌};
ghost use Rattle.memchr.specs.Find.{IsFirst, FindsNeedle};
ghost use Rattle.wild_match.specs.Matches.{Match, IsFixed, FitsAt, joined};
ghost use Rattle.wild_match.specs.Runs.{IsLiteralRun, IsLongestRun, Occurs};
ghost use Rattle.wild_match.specs.declared.pattern.Item.TheVariants.{Many};

use crate::fixed::{ends_with, find_with, fits, fixed_len};
use crate::pattern::{Item, Pattern};
use crate::runs::longest_literal;
use memchr::memmem::Finder;
use std::alloc::{AllocError, Global};
use std::marker::Model;

/// Items with no [`Item::Many`] among them, and a search for the longest run of literal bytes that
/// stands among them, from place `skip` on.
#[derive(Debug, Drop)]
struct Piece {
    items: Vec<Item>,
    skip: usize,
    finder: Finder<'static>,
}

impl Model for Piece {
    ghost use Rattle.std.specs.Prelude.{List, ◌+◌, ◌≤◌, length};
    ghost use Rattle.wild_match.specs.declared.pattern.Item.{Item};
    ghost use Rattle.wild_match.specs.Matches.{IsFixed};
    ghost use Rattle.wild_match.specs.Runs.{RunAt};

    ghost Value = { List Item };

    ghost view = { λ p. p.items.items };

    ghost invariant = { λ p. IsFixed p.items.items
        × (p.skip + length p.finder ≤ length p.items.items)
        × RunAt p.items.items p.finder p.skip };
}

impl Piece {
    /// A piece of these items.
    fn new(alloc: Global, items: &[Item]) -> Result<Piece, AllocError>
        requires { IsFixed items.now }
        ensures { IfOk result (λ piece. piece ≡ items.now) }
    {
        let run = longest_literal(alloc, items)?;
        let finder = Finder::new(run.bytes.as_slice()).into_owned(alloc)?;
        Ok(Piece {
            items: Vec::from_slice(alloc, items)?,
            skip: run.start,
            finder,
        })
    }

    /// How many items there are, which is how many bytes they match.
    fn len(&self) -> usize
        ensures { result ≡ length self.now }
    {
        self.items.len()
    }

    /// The first place where the items fit the bytes.
    fn find(&self, bytes: &[u8]) -> Option<usize>
        ensures fixed { IsFixed self.now }
        ensures first { IsFirst (FitsAt self.now bytes.now) 0 (length bytes.now + 1) result }
        ensures within { IfSome result (λ at. at + length self.now ≤ length bytes.now) }
    {
        find_with(&self.finder, self.skip, self.items.as_slice(), bytes)
    }
}

/// The pieces behind an [`Item::Many`], each with one behind it, and the items behind the last.
#[derive(Debug, Drop)]
struct Pieces {
    pieces: Vec<Piece>,
    tail: Vec<Item>,
}

/// Cuts the items at each [`Item::Many`].
fn cut(alloc: Global, items: &[Item]) -> Result<Pieces, AllocError>
    ensures items { IfOk result (λ cut. joined cut.pieces.items cut.tail.items ≡ items.now) }
    ensures tail { IfOk result (λ cut. IsFixed cut.tail.items) }
{
    let mut pieces = Vec::new(alloc);
    let mut rest = items;
    'pieces: loop {
        let end = fixed_len(rest);
        if end == rest.len() {
            let tail = Vec::from_slice(alloc, rest)?;
            return Ok(Pieces { pieces, tail });
        }
        let piece = Piece::new(alloc, &rest[..end])?;
        pieces.push(piece)?;
        rest = &rest[end + 1..];
    }
}

/// Whether [`Item::Many`], the pieces and the tail match the bytes.
fn pieces_match(pieces: &[Piece], tail: &[Item], bytes: &[u8]) -> bool
    requires { IsFixed tail.now }
    ensures { IsTrue result ↔ Match (Many ∷ joined pieces.now tail.now) bytes.now }
{
    let mut left = bytes;
    for piece in pieces {
        match piece.find(left) {
            None => return false,
            Some(at) => left = &left[at + piece.len()..],
        }
    }
    ends_with(tail, left)
}

/// A pattern made ready once, for many messages.
///
/// It matches what its pattern matches. Its needle is the longest run of literal bytes of the
/// pattern: each message that matches has the needle in it, so that a caller with many messages in
/// one buffer may look for the needle first, and leave out the messages without it.
#[derive(Debug, Drop)]
pub struct Matcher {
    front: Vec<Item>,
    has_many: bool,
    behind: Pieces,
    finder: Finder<'static>,
}

impl Model for Matcher {
    ghost use Rattle.wild_match.specs.Runs.{Prepared, IsLiteralRun, IsLongestRun};
    ghost use Rattle.wild_match.specs.Matches.{IsFixed};

    ghost Value = { Prepared };

    ghost use Rattle.wild_match.specs.Whole.{items_of_matcher};

    ghost view = { λ m. record { items = items_of_matcher m; needle = m.finder } };

    ghost invariant = { λ m. IsFixed m.front.items × IsFixed m.behind.tail.items
        × IsLiteralRun (items_of_matcher m) m.finder × IsLongestRun (items_of_matcher m) m.finder };
}

impl Matcher {
    /// Makes a pattern ready.
    pub fn new(alloc: Global, pattern: &Pattern) -> Result<Matcher, AllocError>
        ensures { IfOk result (λ matcher. matcher.items ≡ pattern.now) }
    {
        let items = pattern.as_slice();
        let run = longest_literal(alloc, items)?;
        let finder = Finder::new(run.bytes.as_slice()).into_owned(alloc)?;
        let end = fixed_len(items);
        let front = Vec::from_slice(alloc, &items[..end])?;
        if end == items.len() {
            let behind = Pieces {
                pieces: Vec::new(alloc),
                tail: Vec::new(alloc),
            };
            return Ok(Matcher {
                front,
                has_many: false,
                behind,
                finder,
            });
        }
        let behind = cut(alloc, &items[end + 1..])?;
        Ok(Matcher {
            front,
            has_many: true,
            behind,
            finder,
        })
    }

    /// Whether the pattern matches the bytes, all of them, as [`crate::matches`] does.
    ///
    /// Takes no memory. A plain word costs what a search for a substring costs; at worst it costs
    /// the items of the pattern times the bytes.
    pub fn matches(&self, bytes: &[u8]) -> bool
        ensures { IsTrue result ↔ Match self.now.items bytes.now }
    {
        let front = self.front.as_slice();
        if !fits(front, bytes) {
            return false;
        }
        if !self.has_many {
            return bytes.len() == front.len();
        }
        pieces_match(
            self.behind.pieces.as_slice(),
            self.behind.tail.as_slice(),
            &bytes[front.len()..],
        )
    }

    /// The longest run of literal bytes of the pattern, or nothing where it has none. It stands in
    /// each message that the pattern matches.
    pub fn needle(&self) -> &[u8]
        ensures value { result.now ≡ self.now.needle }
        ensures run { IsLiteralRun self.now.items result.now }
        ensures longest { IsLongestRun self.now.items result.now }
        ensures needed { (message : List ℕ) → Match self.now.items message
            → Occurs message result.now }
    {
        self.finder.needle()
    }

    /// The first place of the bytes, from `from` on, where the needle stands, or `None` where it
    /// stands nowhere from there on. An empty needle stands at each place.
    pub fn next_needle(&self, bytes: &[u8], from: usize) -> Option<usize>
        requires { from ≤ length bytes.now }
        ensures { FindsNeedle bytes.now self.now.needle from result }
    {
        let at = self.finder.find(&bytes[from..])?;
        Some(from + at)
    }
}
