//! Laws of the definitions that the contracts cite. Each function does nothing; its contract says
//! what holds of all patterns and all texts.
ghost use Rattle.wild_match.specs.Laws.{OneSpelling, OneLoneBackslash, SpelledOrLone, NeverBoth};

/// A text spells one list of items at most.
pub fn one_spelling()
    ensures { OneSpelling }
{}

/// A text has a lone backslash at one place at most.
pub fn one_lone_backslash()
    ensures { OneLoneBackslash }
{}

/// Each text spells some items or has a lone backslash, and none does both.
pub fn spelled_or_lone()
    ensures either { SpelledOrLone }
    ensures never_both { NeverBoth }
{}
