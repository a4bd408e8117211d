//! What is true of all patterns, moments and lines: each law is the contract of a function that
//! does nothing.
ghost use Rattle.time_patterns.specs.Laws.{AlikeVersions, FirstLineTells, FrontTells, OneMoment, OneStampOf, OneText, PrintedMoments, ReadsBack, ShortTexts};

/// No two moments share a text of one pattern.
pub fn text_tells_moment()
    ensures { OneMoment }
{}

/// No two texts of one pattern share a moment.
pub fn moment_tells_text()
    ensures { OneText }
{}

/// A message has one stamp at most in an archive's version.
pub fn line_has_one_stamp()
    ensures { OneStampOf }
{}

/// What is printed reads back as its pattern and moment wherever a delimiter or the end follows,
/// unless a lower pattern of the version fits there too.
pub fn printed_text_reads_back()
    ensures { ReadsBack }
{}

/// A stamp's text has 17 to 28 bytes: digits, `-`, `.`, `T`, `Z`, `:`, `,`, `/`, `[`, `]` and
/// spaces.
pub fn stamp_texts_are_short()
    ensures { ShortTexts }
{}

/// The stamp of a message is that of its first 32 bytes.
pub fn front_tells_stamp()
    ensures { FrontTells }
{}

/// The stamp of a message is that of its first line.
pub fn first_line_tells_stamp()
    ensures { FirstLineTells }
{}

/// Versions 1 and 2 have the same stamps.
pub fn versions_are_alike()
    ensures { AlikeVersions }
{}

/// A pattern prints the moments of its years that are whole numbers of its unit, and no others.
pub fn patterns_print_whole_moments()
    ensures { PrintedMoments }
{}
