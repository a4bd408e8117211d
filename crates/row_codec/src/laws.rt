//! Laws of rows. The functions do nothing: what they promise holds of every row and message.
ghost use Rattle.row_codec.specs.Laws.{CanonicalStays, MeaningIsSpelling, OneMeaning, OneRow, OneSpelling, RowsReturn};

use logtype_text::one_list_of_parts;
use var_codec::one_word;

/// A row that is the encoding of a message stays so when texts are added to the dictionaries.
pub fn canonical_stays()
    ensures { CanonicalStays }
{}

/// A row means one message, which is what it is written as; and it is written as one message.
pub fn means_one()
    ensures meaning { OneMeaning }
    ensures spelling { OneSpelling }
    ensures spells { MeaningIsSpelling }
{}

/// A message has one row where no text of the dictionaries has two numbers; and what a row that is
/// the encoding of a message is written as is that message.
pub fn one_row()
    ensures row { OneRow }
    ensures returns { RowsReturn }
{
    one_word();
    one_list_of_parts();
}
