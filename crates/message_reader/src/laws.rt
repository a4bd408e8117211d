//! What follows from the definition of a version's messages: each law is the contract of a function
//! that does nothing.
ghost use Rattle.message_reader.specs.VersionLaws.{LinesInVersionOne, MessagesOfAgree, MessagesOfExist, MessagesOfJoinBack, NothingHasNone};
ghost use Rattle.message_reader.specs.Taken.{ReadingBeforeRefusal, ReadingBegins, ReadingEnds, ReadingGoesOn, ReadingIsFront};

use log_seams::Source;

/// Exactly one list of messages, with one answer to whether the last line had its newline, fits
/// each list of bytes, and joining it back gives the bytes. No bytes have none.
pub fn one_answer()
    ensures exists { MessagesOfExist }
    ensures unique { MessagesOfAgree }
    ensures joins { MessagesOfJoinBack }
    ensures nothing { NothingHasNone }
{}

/// In version 1 the messages are the lines.
pub fn version_one_has_lines()
    ensures { LinesInVersionOne }
{}

/// The messages that a reader gave are the first ones of the bytes of its source, and at the end
/// all of them. What was given before each refusal is told by its cause.
pub fn messages_follow<S: Source>()
    ensures begins { ReadingBegins S.left }
    ensures goes_on { ReadingGoesOn S.left S.name S.faults }
    ensures ends { ReadingEnds S.left }
    ensures front { ReadingIsFront S.left }
    ensures refused { ReadingBeforeRefusal S.left S.faults }
{}
