//! Laws on the spellings alone, each the contract of a function that does nothing.

ghost use Rattle.segment_format.specs.Laws.{HeadsAreUnique, ColumnsAreUnique, SegmentsAreUnique, SegmentsReadBack, PagesAreTheColumns};

/// No bytes begin with two heads.
pub fn heads_are_unique()
    ensures { HeadsAreUnique }
{}

/// No bytes are the columns of two lists of as many rows.
pub fn columns_are_unique()
    ensures { ColumnsAreUnique }
{}

/// No bytes are two segments.
pub fn segments_are_unique()
    ensures { SegmentsAreUnique }
{}

/// What is written of rows is a head, and columns that hold the rows.
pub fn segments_read_back()
    ensures { SegmentsReadBack }
{}

/// A payload holds rows exactly where it has pages that give these rows in order, so that it is refused
/// whole exactly where it has no pages or one of them is refused.
pub fn pages_are_the_columns()
    ensures { PagesAreTheColumns }
{}
