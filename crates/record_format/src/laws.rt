//! No bytes spell two values: laws on the spellings alone, each the contract of a function that
//! does nothing.

ghost use Rattle.record_format.specs.Laws.{HeadersAreUnique, FilesAreUnique, TextsAreUnique};

/// No 32 bytes spell two headers.
pub fn headers_are_unique()
    ensures { HeadersAreUnique }
{}

/// No payload spells two lists of names.
pub fn files_are_unique()
    ensures { FilesAreUnique }
{}

/// No payload spells two first numbers or two lists of texts.
pub fn texts_are_unique()
    ensures { TextsAreUnique }
{}
