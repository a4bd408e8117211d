//! Rows that are decided as they are stored.
ghost use Rattle.std.specs.Prelude.{ℕ, List, IfSome, IsNone};
ghost use Rattle.column_store.specs.Row.{row_of};
ghost use Rattle.row_codec.specs.Means.{IsCanonical};
ghost use Rattle.subquery_filter.specs.declared.verdicts.Verdict.TheVariants.{Tried};
ghost use Rattle.group_count.specs.Judged.{Judges};

use column_store::RowRef;
use query_plan::{Plan, wide_is_wider};
use row_codec::{Names, means_one, row_fits};
use subquery_filter::{Verdict, accepts};

/// Whether a plain pattern matches the message of a row on which nothing was told yet.
fn judge_tried<N: Names>(plan: &Plan, names: &N, row: RowRef<'_>) -> Option<bool>
    ensures found { IfSome result (Judges plan.now (N.types names.now) (N.words names.now)
        (row_of row.entry) Tried) }
    ensures damaged { IsNone result → (version : ℕ) (message : List ℕ)
        → ¬ IsCanonical version (row_of row.entry) (N.types names.now) (N.words names.now) message }
{
    // What the pattern matches, the one that the search is planned over matches; and a row is
    // written as the message that it is the encoding of.
    wide_is_wider();
    means_one();
    if !row_fits(row, names) {
        return None;
    }
    Some(accepts(plan, row, names))
}

/// Whether a plain pattern matches the message of a row, by the row as it is stored; `None` only
/// where the row is the encoding of no message.
///
/// A pattern is plain where it has no `?` and at most four open tokens: its plan then decides
/// alone. No message is written, which takes no memory, and where the verdict is certain the words
/// of the row are not read.
pub fn judge_stored<N: Names>(
    plan: &Plan,
    names: &N,
    row: RowRef<'_>,
    verdict: Verdict,
) -> Option<bool>
    ensures found { IfSome result (Judges plan.now (N.types names.now) (N.words names.now)
        (row_of row.entry) verdict) }
    ensures damaged { IsNone result → (version : ℕ) (message : List ℕ)
        → ¬ IsCanonical version (row_of row.entry) (N.types names.now) (N.words names.now) message }
{
    // What the pattern matches, the one that the search is planned over matches too.
    wide_is_wider();
    means_one();
    match verdict {
        Verdict::Rejected => Some(false),
        Verdict::Certain => Some(true),
        Verdict::Tried => judge_tried(plan, names, row),
    }
}
