//! Laws of what a search finds and expands, each the contract of a function that does nothing.
ghost use Rattle.search_engine.specs.Laws.{ExactExpandsPrinted, OneIsFound};

use query_plan::wide_is_wider;

/// Where the pattern has no `?` and at most [`MAX_OPEN_TOKENS`](query_plan::MAX_OPEN_TOKENS) open
/// tokens, a search expands only what it prints.
pub fn exact_expands_printed()
    ensures { ExactExpandsPrinted }
{
    // What the pattern matches, the widened one matches too, and here nothing else.
    wide_is_wider();
}

/// What is found is one list, so that a search prints one text.
pub fn one_is_found()
    ensures { OneIsFound }
{}
