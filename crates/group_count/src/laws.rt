//! Laws of groups. The functions do nothing: what they promise holds of every row and message.
ghost use Rattle.group_count.specs.Laws.{OthersExpandTried, PlainExpandsNone, RowsHaveMinutes, RowsHaveTypes, ShapesAreOfSymbols};

use time_patterns::laws::patterns_print_whole_moments;

/// The texts and minutes by which rows are counted are those of the messages that they are the
/// encodings of.
pub fn rows_have_keys()
    ensures types { RowsHaveTypes }
    ensures minutes { RowsHaveMinutes }
{
    patterns_print_whole_moments();
}

/// The shape of a log type's text is that of its symbols: a constant byte as it is, and `{i}`,
/// `{w}` and `{d}` for a slot of a whole number, a word and a decimal.
pub fn shapes_are_of_symbols()
    ensures { ShapesAreOfSymbols }
{}

/// Where the pattern is plain no message is expanded, and else those are that the widened pattern
/// matches, in the range.
pub fn plain_expands_none()
    ensures plain { PlainExpandsNone }
    ensures others { OthersExpandTried }
{}
