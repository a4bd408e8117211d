//! Laws of words that stay on the disk. The functions do nothing: what they promise holds always.
ghost use Rattle.word_places.specs.Laws.{HeldAgree, HeldStay, HoldersHave, WordsAreOne};
ghost use Rattle.word_places.specs.Local.{EncodingIsLocal, EncodingIsOfType, MeaningIsLocal, MeaningIsOfType, NumbersAreOfType, SpellingIsLocal, SpellingIsOfType};

/// What a row is written as, what it means and whether it is an encoding depend on no other words
/// than those that its numbers name.
pub fn rows_are_local()
    ensures spelling { SpellingIsLocal }
    ensures meaning { MeaningIsLocal }
    ensures encoding { EncodingIsLocal }
{}

/// Which words a row has, what it is written as, what it means and whether it is an encoding depend
/// on no other log type than its own.
pub fn rows_are_of_type()
    ensures numbers { NumbersAreOfType }
    ensures spelling { SpellingIsOfType }
    ensures meaning { MeaningIsOfType }
    ensures encoding { EncodingIsOfType }
{}

/// A number that is held has the word of the bytes.
pub fn held_agree()
    ensures { HeldAgree }
{}

/// A number that is held stays held, with its word.
pub fn held_stay()
    ensures { HeldStay }
{}

/// A pass misses no word that has the needle.
pub fn holders_have()
    ensures { HoldersHave }
{}

/// Words that stand at the same places of the same bytes are the same.
pub fn words_are_one()
    ensures { WordsAreOne }
{}
