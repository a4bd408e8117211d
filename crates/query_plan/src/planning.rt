//! A plan: what a search has to know of its pattern.
ghost use Rattle.std.specs.Prelude.{◌≡◌, ◌↔◌, ◌++◌, ℕ, List, IfOk, IsTrue};
ghost use Rattle.logtype_text.specs.Parts.{AreParts, joined};
ghost use Rattle.wild_match.specs.Matches.{Match};
ghost use Rattle.query_plan.specs.Symbols.{parts};
ghost use Rattle.query_plan.specs.Laws.{IsWidened};
ghost use Rattle.query_plan.specs.Needs.{needed_variables_of, skeleton_of};
ghost use Rattle.query_plan.specs.Pieces.{flat, wide_pieces, Free, IsCut, open_count, needed_of};
ghost use Rattle.query_plan.specs.Readings.{IsBodyBehind, SomeReads};

use crate::laws::readings_are_exact;
use crate::letters::matches_letters;
use crate::needed::{needed_variables, needed_words, open_count};
use crate::pieces::{Piece, cut, items_of, plan_pieces};
use crate::skeleton::skeleton_of;
use crate::symbols::{SymbolLetters, VarSymbols};
use plain_list::TextList;
use std::alloc::{AllocError, Global};
use std::marker::Model;
use wild_match::Pattern;

/// A pattern made ready for a search over what is stored.
///
/// It keeps the pieces of the pattern that the search is planned over. They decide in which ways that
/// pattern can be read against a body, so no readings are listed.
#[derive(Debug, Drop)]
pub struct Plan {
    pieces: Vec<Piece>,
    wide: Pattern,
    open_tokens: usize,
    needed: TextList,
    needed_variables: Vec<bool>,
    skeleton: Pattern,
}

impl Model for Plan {
    ghost use Rattle.std.specs.Prelude.{List, ◌≡◌};
    ghost use Rattle.query_plan.specs.declared.pieces.Piece.{Piece};
    ghost use Rattle.query_plan.specs.Needs.{needed_variables_of, skeleton_of};
    ghost use Rattle.query_plan.specs.Pieces.{flat, Free, IsCut, open_count, needed_of};

    ghost Value = { List Piece };

    ghost view = { λ p. p.pieces.items };

    ghost invariant = { λ p. IsCut p.pieces.items × (p.wide ≡ flat p.pieces.items)
        × (p.skeleton ≡ skeleton_of p.pieces.items)
        × (p.needed_variables.items ≡ needed_variables_of Free p.pieces.items)
        × (p.open_tokens ≡ open_count Free p.pieces.items)
        × (p.needed ≡ needed_of Free p.pieces.items) };
}

impl Plan {
    /// Plans a search for a pattern. Costs time and memory in proportion to the pattern.
    pub fn new(alloc: Global, pattern: &Pattern) -> Result<Plan, AllocError>
        ensures { IfOk result (λ plan. plan ≡ wide_pieces pattern.now) }
    {
        let cut = cut(alloc, pattern.as_slice())?;
        let pieces = plan_pieces(alloc, cut.as_slice())?;
        let wide = Pattern::new(items_of(alloc, pieces.as_slice())?);
        let open_tokens = open_count(pieces.as_slice());
        let needed = TextList::new(needed_words(alloc, pieces.as_slice())?);
        let needed_variables = needed_variables(alloc, pieces.as_slice())?;
        let skeleton = Pattern::new(skeleton_of(alloc, pieces.as_slice())?);
        Ok(Plan {
            pieces,
            wide,
            open_tokens,
            needed,
            needed_variables,
            skeleton,
        })
    }

    /// The pattern that the search is planned over: each `?` is `*`, each open token after the first
    /// [`MAX_OPEN_TOKENS`](crate::MAX_OPEN_TOKENS) is `*`, and of several `*` in a row one stays.
    pub fn wide(&self) -> &Pattern
        ensures { result.now ≡ flat self.now }
    {
        &self.wide
    }

    /// Its pieces, in order. They are as long as they can be.
    pub fn pieces(&self) -> &[Piece]
        ensures pieces { result.now ≡ self.now }
        ensures cut { IsCut result.now }
    {
        self.pieces.as_slice()
    }

    /// How many open tokens it has.
    pub fn open_tokens(&self) -> usize
        ensures { result ≡ open_count Free self.now }
    {
        self.open_tokens
    }

    /// Its needed words, from left to right: the closed tokens with a byte that stands in no stamp's
    /// token.
    pub fn needed(&self) -> &TextList
        ensures { result.now ≡ needed_of Free self.now }
    {
        &self.needed
    }
    /// For each needed word, in their order, whether it is a variable: it is then looked for among the
    /// variables of a message, and among the constant bytes of its log type otherwise.
    pub fn needed_variables(&self) -> &[bool]
        ensures { result.now ≡ needed_variables_of Free self.now }
    {
        self.needed_variables.as_slice()
    }

    /// The skeleton: it matches the constant bytes of each message that the widened pattern matches,
    /// so one test of a log type's constant bytes can leave out all messages of that type.
    pub fn skeleton(&self) -> &Pattern
        ensures { result.now ≡ skeleton_of self.now }
    {
        &self.skeleton
    }

    /// Whether some reading of some tail behind the stamp accepts the symbols of the body, which is
    /// whether the widened pattern matches the stamp and the body behind it.
    ///
    /// Takes no memory. The stamp is read first, so that a match may begin or lie in it.
    pub fn reads(&self, stamp: &[u8], symbols: &VarSymbols) -> bool
        ensures matched { IsTrue result
            ↔ Match (flat self.now) (stamp.now ++ joined (parts symbols.now)) }
        ensures read { (body : List ℕ) → IsWidened (flat self.now) → IsBodyBehind stamp.now body
            → AreParts body (parts symbols.now)
            → IsTrue result ↔ SomeReads (flat self.now) stamp.now (parts symbols.now) }
    {
        readings_are_exact();
        let text = SymbolLetters {
            head: stamp,
            symbols: symbols.as_slice(),
        };
        matches_letters(self.wide.as_slice(), text)
    }
}
