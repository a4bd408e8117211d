ghost use Rattle.var_codec.specs.Laws.{OneWord, OneWholeText, OneDecimalText};

/// A text has exactly one word.
pub fn one_word()
    ensures { OneWord }
{}

/// A number has exactly one text.
pub fn one_whole_text()
    ensures { OneWholeText }
{}

/// No two texts share the word of a decimal.
pub fn one_decimal_text()
    ensures { OneDecimalText }
{}
