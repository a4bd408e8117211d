//! What the answers of a cutter exclude, and what those of a joiner mean together.
ghost use Rattle.line_cut.specs.Exclusion.{LongLineIsNotGiven, LongLineStaysLong, NothingIsNotGiven};
ghost use Rattle.line_cut.specs.JoinLaws.{TornGroupIsOneMessage, WholeLineIsNotTooLong};

/// The answers of a cutter exclude each other: no line is given where the next one has more bytes
/// without its newline than the limit, which the first bytes that were taken already tell, and
/// none where nothing is left.
pub fn answers_exclude()
    ensures long { LongLineIsNotGiven }
    ensures begun { LongLineStaysLong }
    ensures nothing { NothingIsNotGiven }
{}

/// What a joiner keeps back where a read failed is one message of the lines that ended, and begins
/// with a stamp. A line that is one message too many is not too long.
pub fn joined_answers()
    ensures torn { TornGroupIsOneMessage }
    ensures whole { WholeLineIsNotTooLong }
{}
