//! Laws of renamed rows. The functions do nothing: what they promise holds of every row and message.
ghost use Rattle.row_rename.specs.Laws.{RenamedMeansSame};

/// A row that is the encoding of a message is, with the numbers of another archive, the encoding of the
/// same message there.
pub fn renamed_means_same()
    ensures { RenamedMeansSame }
{}
