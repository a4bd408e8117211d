//! What the templates say of printed stamps: each law is the contract of a function that does nothing.
ghost use Rattle.stamp_templates.specs.Laws.{MatchesStand, PlacesFit, TextsFit, TextsRise};

/// What a pattern prints is as long as its template, which allows each of its bytes.
pub fn texts_fit()
    ensures { TextsFit }
{}

/// What stands in the text of a pattern stands at a place where the template allows it.
pub fn places_fit()
    ensures { PlacesFit }
{
    texts_fit();
}

/// A text that is matched with any bytes on both sides stands at some place.
pub fn matches_stand()
    ensures { MatchesStand }
{}

/// The texts of a pattern rise with the moment, byte by byte.
pub fn texts_rise()
    ensures { TextsRise }
{}
