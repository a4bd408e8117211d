//! A token that is looked for.
ghost use Rattle.std.specs.Prelude.{◌≡◌, None, false, true};
ghost use Rattle.query_plan.specs.Needs.{around};
ghost use Rattle.subquery_filter.specs.NumberText.{is_number_part, is_plain};
ghost use Rattle.subquery_filter.specs.Tokens.{is_inner, stored};

use plain_list::Text;
use var_codec::Coded;
use wild_match::{Matcher, Pattern};

/// A token of a pattern, made ready to be looked for, and its bit.
#[derive(Debug, Drop)]
pub(crate) struct Token {
    /// Its bytes.
    pub(crate) text: Text,
    /// Its bytes with what stands around it in the pattern, without a gap between: of a closed
    /// variable its delimiters, of another token all up to the gaps on both sides. So it stands in
    /// a stamp.
    pub(crate) chunk: Text,
    /// Matches the texts that the token stands in.
    pub(crate) matcher: Matcher,
    /// The pattern of these texts: the token with any bytes on both sides.
    pub(crate) pattern: Pattern,
    /// Matches the texts of log types in which the token stands among the constant bytes, as they
    /// are stored.
    pub(crate) storing: Matcher,
    /// One of eight bits.
    pub(crate) bit: u8,
    /// What it is stored as, where it has a digit and stands between delimiters of the pattern:
    /// then it is all of a variable or none of it.
    pub(crate) closed: Option<Coded>,
    /// Whether it is no closed variable, and may stand in the text of a number.
    pub(crate) numeric: bool,
    /// Whether it is digits alone, the first of which is no zero.
    pub(crate) plain: bool,
    pub(crate) ghost same: { matcher.items ≡ pattern },
    pub(crate) ghost stands: { pattern ≡ around text },
    pub(crate) ghost numeric_is: { numeric ≡ false → closed ≡ None → is_number_part true text ≡ false },
    pub(crate) ghost plain_is: { plain ≡ is_plain text },
    pub(crate) ghost inner: { is_inner text ≡ true },
    pub(crate) ghost storing_is: { storing.items ≡ around (stored text) },
}
