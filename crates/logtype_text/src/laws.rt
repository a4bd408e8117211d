//! Laws of parts and of the texts of log types. The functions do nothing: what they promise holds of
//! every body and text.
ghost use Rattle.logtype_text.specs.Cut.{PartsAreCut};
ghost use Rattle.logtype_text.specs.Laws.{EachVariableIsAPart, GoodIsTypeText, OneListOfParts, OneListOfSymbols, SameTypeText};

use var_codec::one_word;

/// No two lists of parts fit one body, and each token that is a variable is one of the parts. That a
/// list fits is what [`split`](crate::split) shows.
pub fn one_list_of_parts()
    ensures one { OneListOfParts }
    ensures all { EachVariableIsAPart }
{
    one_word();
}

/// Parts are those of a body exactly where they join to it and are cut token by token from the left:
/// what has to be decided of parts whose body is nowhere to be read.
pub fn parts_are_cut()
    ensures { PartsAreCut }
{}

/// Two lists of symbols have the same text exactly where they are the same: what a log type's text
/// leaves aside is the texts of the variables. A text is good exactly where it is that of some symbols.
pub fn one_type_text()
    ensures symbols { OneListOfSymbols }
    ensures parts { SameTypeText }
    ensures good { GoodIsTypeText }
{}
