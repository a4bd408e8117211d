//! Laws of readings and of the pattern that a search is planned over. The functions do nothing: what
//! they promise holds of every pattern and every message.
ghost use Rattle.query_plan.specs.Laws.{ConstantsSuffice, NeededWordsAreBrought, SkeletonIsNeeded};
ghost use Rattle.query_plan.specs.Laws.{ReadingsAreExact, SearchesAreSearched, WideIsExact};
ghost use Rattle.query_plan.specs.Laws.{ChunksAreBrought, ForeignStandsInNoStamp, TokensAreBrought, TokensStand};
ghost use Rattle.query_plan.specs.Laws.{WideIsWidened, WideIsWider};
ghost use Rattle.query_plan.specs.Slots.{ChunksMayStand, FrontsBegin, TextsStand};

use logtype_text::parts_are_cut;

/// A reading of a tail that accepts a body's parts means a match of the message, and each message that
/// the pattern matches is accepted by some reading of some tail.
pub fn readings_are_exact()
    ensures { ReadingsAreExact }
{
    parts_are_cut();
}

/// The pattern that a search is planned over matches no less than the pattern, and no more where the
/// pattern has no `?` and at most [`MAX_OPEN_TOKENS`](crate::MAX_OPEN_TOKENS) open tokens. Where the
/// pattern is one that a text spells, any bytes come first and last, and the laws of readings hold of it.
pub fn wide_is_wider()
    ensures wider { WideIsWider }
    ensures exact { WideIsExact }
    ensures widened { WideIsWidened }
    ensures searched { SearchesAreSearched }
{}

/// What a message must bring for the pattern that a search is planned over: each needed word, as a
/// variable or as constant bytes, and constant bytes that the skeleton matches.
pub fn needs_are_brought()
    ensures words { NeededWordsAreBrought }
    ensures skeleton { SkeletonIsNeeded }
{
    parts_are_cut();
}

/// Where a pattern behind an [`Item::Many`](wild_match::Item::Many) matches the constant bytes, with a
/// byte that it does not have in place of each variable, it matches every message with these constant
/// bytes, so that no message of their log type has to be tried.
pub fn constants_suffice()
    ensures { ConstantsSuffice }
{}

/// A message that a pattern matches has each token of the pattern: in its stamp's text, among its
/// constant bytes, or in a variable. It does not lie across, since a variable is a whole token, and
/// since a body behind a stamp begins with a delimiter. One that has a byte which no stamp has
/// stands in no stamp.
pub fn tokens_are_brought()
    ensures stand { TokensStand }
    ensures brought { TokensAreBrought }
    ensures foreign { ForeignStandsInNoStamp }
{
    parts_are_cut();
}

/// A message that a pattern matches has the text of each run of the pattern's pieces between two
/// gaps: in its stamp's text, in its body, or over the border of the two. Over the border it goes on
/// in the body with a delimiter.
pub fn chunks_are_brought()
    ensures { ChunksAreBrought }
{
    parts_are_cut();
}

/// A text stands in a body only where it may stand in the text of the body's log type, and at its front
/// only where it may begin there. So of a message that a pattern matches, each run of the pattern's
/// pieces between two gaps stands in its stamp, or goes on behind it, or may stand in its log type.
pub fn texts_stand()
    ensures stand { TextsStand }
    ensures fronts { FrontsBegin }
    ensures chunks { ChunksMayStand }
{
    parts_are_cut();
}
