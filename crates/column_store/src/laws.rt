//! A law on rows and their arrays, as the contract of a function that does nothing.

ghost use Rattle.column_store.specs.Columns.{RowsAreUnique};

/// No arrays are those of two lists of rows.
pub fn one_list_of_rows()
    ensures { RowsAreUnique }
{}
