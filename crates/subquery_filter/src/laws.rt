//! Laws of barren segments and of verdicts. The functions do nothing.
ghost use Rattle.subquery_filter.specs.Laws.{BarrenHasNoMatch};
ghost use Rattle.subquery_filter.specs.Tokens.{RowsBringChunks, RowsBringClosed, RowsBringClosedRuns, RowsBringRuns, RowsBringTokens};
ghost use Rattle.subquery_filter.specs.Verdicts.{CertainAlwaysMatches, RejectedNeverMatches};

use query_plan::{
    chunks_are_brought, constants_suffice, needs_are_brought, readings_are_exact, texts_stand,
    tokens_are_brought,
};
use time_patterns::laws::stamp_texts_are_short;

/// A barren segment has no message in the range that the pattern which a search is planned over
/// matches, where its rows are encodings of their messages and its head is that of its rows.
pub fn barren_has_no_match()
    ensures { BarrenHasNoMatch }
{
    needs_are_brought();
    stamp_texts_are_short();
}

/// The pattern that a search is planned over matches no message of a log type that is rejected, and
/// each one of a log type that is certain.
pub fn verdicts_hold()
    ensures rejected { RejectedNeverMatches }
    ensures certain { CertainAlwaysMatches }
{
    needs_are_brought();
    constants_suffice();
    stamp_texts_are_short();
}

/// A row whose message a pattern matches brings each token of the pattern: in its stamp, among the
/// constant bytes of its log type, or in the text of one of its variables.
pub fn rows_bring_tokens()
    ensures { RowsBringTokens }
{
    tokens_are_brought();
}

/// A row whose message a pattern matches brings each token that stands between delimiters of the
/// pattern and is a variable: in its stamp, or as the whole text of a variable.
pub fn rows_bring_closed()
    ensures { RowsBringClosed }
{
    chunks_are_brought();
    readings_are_exact();
}

/// A row whose message a pattern matches brings each token of the pattern: in its stamp, and there
/// with what stands around the token in the pattern, among the constant bytes of its log type, or
/// in the text of one of its variables. One that stands between delimiters of the pattern and is a
/// variable it brings in its stamp so, or as the whole text of a variable.
pub fn rows_bring_runs()
    ensures runs { RowsBringRuns }
    ensures closed { RowsBringClosedRuns }
{
    tokens_are_brought();
    chunks_are_brought();
    readings_are_exact();
}

/// A row whose message a pattern matches has each run of the pattern's pieces in its stamp, where
/// no body of its log type may have the run or go on with it behind a stamp.
pub fn rows_bring_chunks()
    ensures { RowsBringChunks }
{
    texts_stand();
}
