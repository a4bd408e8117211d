//! Where the log types, the words and the heads of a journal stand: contracts of functions that do
//! nothing.
ghost use Rattle.archive_places.specs.Laws.{HeadsStand, TypesStand, WordsStand};

/// Where the bytes of a disk stand for a journal, its log types stand at the places of its records
/// of log types.
pub fn types_stand()
    ensures { TypesStand }
{}

/// Where the bytes of a disk stand for a journal, its words stand at the places of its records of
/// words.
pub fn words_stand()
    ensures { WordsStand }
{}

/// Where the bytes of a disk stand for a journal, the head of each of its segments stands at the
/// front of the segment's payload.
pub fn heads_stand()
    ensures { HeadsStand }
{}
