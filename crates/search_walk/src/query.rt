//! A search made ready.
ghost use Rattle.std.specs.Prelude.{◌≡◌, IfOk, IsTrue};
ghost use Rattle.query_plan.specs.Pieces.{wide, wide_pieces};
ghost use Rattle.wild_match.specs.Matches.{Match};
ghost use Rattle.search_walk.specs.Judged.{Judges};

use column_store::Range;
use query_plan::{Plan, wide_is_wider};
use std::alloc::{AllocError, Global};
use std::marker::Model;
use wild_match::{Item, Matcher, Pattern};

/// What is told of a message.
#[derive(Clone, Copy, Debug, PartialEq, Eq)]
pub enum Judgement {
    /// The pattern that the search is planned over does not match it.
    Left,
    /// That pattern matches it, and the pattern does not.
    Tried,
    /// The pattern matches it.
    Found,
}

/// A search made ready: a pattern with its plan, and a range.
#[derive(Debug, Drop)]
pub struct Query {
    plan: Plan,
    range: Range,
    /// Matches what the pattern that the search is planned over matches.
    planned: Matcher,
    /// Matches what the pattern matches.
    whole: Matcher,
    /// Whether the two patterns are one.
    exact: bool,
}

impl Model for Query {
    ghost use Rattle.std.specs.Prelude.{◌≡◌, true};
    ghost use Rattle.query_plan.specs.Pieces.{wide, wide_pieces};
    ghost use Rattle.search_meaning.specs.Scan.{Asked};

    ghost Value = { Asked };

    ghost view = { λ q. record { pattern = q.whole.items; range = q.range } };

    ghost invariant = { λ q. (q.plan ≡ wide_pieces q.whole.items)
        × (q.planned.items ≡ wide q.whole.items)
        × (q.exact ≡ true → wide q.whole.items ≡ q.whole.items) };
}

/// Whether the items are the same.
fn are_same(items: &[Item], others: &[Item]) -> bool
    ensures { IsTrue result → items.now ≡ others.now }
{
    if items.len() != others.len() {
        return false;
    }
    for place in 0..items.len() {
        if items[place] != others[place] {
            return false;
        }
    }
    true
}

impl Query {
    /// Makes a search ready.
    pub fn new(alloc: Global, pattern: &Pattern, range: &Range) -> Result<Query, AllocError>
        ensures pattern { IfOk result (λ q. q.pattern ≡ pattern.now) }
        ensures range { IfOk result (λ q. q.range ≡ range.now) }
    {
        let plan = Plan::new(alloc, pattern)?;
        let planned = Matcher::new(alloc, plan.wide())?;
        let whole = Matcher::new(alloc, pattern)?;
        let exact = are_same(plan.wide().as_slice(), pattern.as_slice());
        Ok(Query {
            plan,
            range: *range,
            planned,
            whole,
            exact,
        })
    }

    /// The plan.
    pub fn plan(&self) -> &Plan
        ensures { result.now ≡ wide_pieces self.now.pattern }
    {
        &self.plan
    }

    /// The range.
    pub fn range(&self) -> &Range
        ensures { result.now ≡ self.now.range }
    {
        &self.range
    }

    /// Whether a message is expanded, and whether it is found, where it is in the range.
    ///
    /// `certain` tells that the pattern that the search is planned over matches it.
    pub fn judge(&self, certain: bool, text: &[u8]) -> Judgement
        ensures { (IsTrue certain → Match (wide self.now.pattern) text.now)
            → Judges self.now text.now result }
    {
        // What the pattern matches, the one that the search is planned over matches too.
        wide_is_wider();
        if !certain && !self.planned.matches(text) {
            return Judgement::Left;
        }
        if self.exact || self.whole.matches(text) {
            Judgement::Found
        } else {
            Judgement::Tried
        }
    }
}
