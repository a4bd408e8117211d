//! Log types of which no row can match, whatever else the row has.
ghost use Rattle.std.specs.Prelude.{◌≡◌, ℕ, List, All, IsTrue, Some, slice_get};
ghost use Rattle.wild_match.specs.declared.pattern.Item.{Item};
ghost use Rattle.query_plan.specs.Laws.{IsSearched};
ghost use Rattle.query_plan.specs.Pieces.{wide_pieces};
ghost use Rattle.subquery_filter.specs.Filter.{IsFilter, RejectsType};
ghost use Rattle.subquery_filter.specs.declared.verdicts.Verdict.TheVariants.{Rejected};

use crate::filter::Filter;
use crate::laws::{rows_bring_chunks, rows_bring_runs, verdicts_hold};
use crate::verdicts::Verdict;

impl Filter {
    /// Whether all rows of a log type are rejected, by the log type alone.
    #[inline]
    fn rejects(&self, number: u32) -> bool
        ensures { IsTrue result → slice_get self.now.verdicts.items number ≡ Some Rejected }
    {
        matches!(self.verdict_at(number), Some(Verdict::Rejected))
    }

    /// Whether the pattern matches no message of any row of these log types, whatever else the row
    /// has. It ends at the first log type that leaves a row. Takes no memory.
    // A function of its own, so that its loop has the registers.
    #[inline(never)]
    pub fn rejects_all(&self, types: &[u32]) -> bool
        ensures { IsTrue result → (p : List Item) (names : List (List ℕ)) (texts : List (List ℕ))
            → IsSearched p → IsFilter (wide_pieces p) names texts self.now
            → All (RejectsType (wide_pieces p) names texts) types.now }
    {
        verdicts_hold();
        rows_bring_runs();
        rows_bring_chunks();
        for number in types {
            if !self.rejects(*number) {
                return false;
            }
        }
        true
    }
}
