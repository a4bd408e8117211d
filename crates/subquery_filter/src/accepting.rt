//! Which rows match.
ghost use Rattle.std.specs.Prelude.{◌↔◌, List, ℕ, IsTrue};
ghost use Rattle.column_store.specs.Row.{row_of};
ghost use Rattle.row_codec.specs.Means.{HasSpelling, IsCanonical, IsSpelling};
ghost use Rattle.query_plan.specs.Laws.{IsWidened};
ghost use Rattle.query_plan.specs.Pieces.{flat};
ghost use Rattle.query_plan.specs.Readings.{SomeReads};
ghost use Rattle.wild_match.specs.Matches.{Match};

use crate::letters::row_letters;
use column_store::RowRef;
use query_plan::{Plan, matches_letters, readings_are_exact};
use row_codec::Names;

/// Whether the pattern that the search is planned over matches what the row is written as, which is
/// whether some reading of the pattern accepts its body. Takes no memory: the row is read a byte at
/// a time, and numbers are printed into the reader.
///
/// At worst it costs the items of the pattern times the bytes of the message. Where many rows
/// match, writing each one and matching its text is faster.
pub fn accepts<N: Names>(plan: &Plan, row: RowRef<'_>, names: &N) -> bool
    requires { HasSpelling (row_of row) (N.types names.now) (N.words names.now) }
    ensures matched { (message : List ℕ)
        → IsSpelling (row_of row.entry) (N.types names.now) (N.words names.now) message
        → IsTrue result ↔ Match (flat plan.now) message }
    ensures read { (version : ℕ) (message : List ℕ) → (is : IsCanonical version
        (row_of row.entry) (N.types names.now) (N.words names.now) message)
        → IsWidened (flat plan.now)
        → IsTrue result ↔ SomeReads (flat plan.now) is.means.stamp is.means.parts }
{
    readings_are_exact();
    matches_letters(plan.wide().as_slice(), row_letters(row, names))
}
