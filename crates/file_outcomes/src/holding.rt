//! What an archive has, to which files are to be added.
ghost use Rattle.std.specs.Prelude.{◌≡◌};

use archive_core::Books;
use dict_core::Book;

/// What an archive has that was opened.
#[derive(Drop)]
pub struct Holding {
    /// The texts of log types.
    pub types: Book,
    /// The words of variables.
    pub words: Book,
    /// How many files there are.
    pub files: u64,
}

/// What an archive has that was opened with these books and so many files.
pub fn hold(books: Books, files: u64) -> Holding
    ensures types { result.types ≡ books.types }
    ensures words { result.words ≡ books.words }
    ensures files { result.files ≡ files }
{
    let Books { types, words, .. } = books;
    Holding {
        types,
        words,
        files,
    }
}
