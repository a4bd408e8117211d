//! The texts of a record, which go to a dictionary all or none.
ghost use Rattle.std.specs.Prelude.{◌≡◌, ℕ, [], ◌++◌, ◌∷◌, ◌↔◌, IsTrue, IsErrOf, List, OnErr, OnOk, length, take};
ghost use Rattle.archive_core.specs.Texts.{FairOf};
ghost use Rattle.archive_core.specs.declared.refusal.JudgeRefusal.TheVariants.{Illegal};
ghost use Rattle.archive_meaning.specs.Legal.{IsBook};
ghost use Rattle.logtype_text.specs.Fair.{IsFairType, IsFairWord};

use crate::refusal::JudgeRefusal;
use dict_core::{Book, BookRefusal};
use logtype_text::{MAX_TYPE_LEN, MAX_WORD_LEN, text_ok};
use plain_list::Text;
use row_codec::Which;

// Whether the dictionary of log types may hold the text.
fn is_fair_type(text: &[u8]) -> bool
    ensures { IsTrue result ↔ IsFairType text.now }
{
    text.len() <= MAX_TYPE_LEN && text_ok(text)
}

// Whether the dictionary of words may hold the text.
fn is_fair_word(text: &[u8]) -> bool
    ensures { IsTrue result ↔ IsFairWord text.now }
{
    !text.is_empty() && text.len() <= MAX_WORD_LEN
}

/// Whether the dictionary of this kind may hold the text.
pub fn is_fair(kind: Which, text: &[u8]) -> bool
    ensures { IsTrue result ↔ FairOf kind text.now }
{
    match kind {
        Which::Types => is_fair_type(text),
        Which::Words => is_fair_word(text),
    }
}

// Adds the text, where the dictionary with it still is one.
fn add_one(book: &mut Book, kind: Which, text: &[u8]) -> Result<(), JudgeRefusal>
    requires { IsBook (FairOf kind) book.old.limit book.old.texts }
    ensures limit { book.new.limit ≡ book.old.limit }
    ensures ok { OnOk result (book.new.texts ≡ book.old.texts ++ text.now ∷ []) }
    ensures book { OnOk result (IsBook (FairOf kind) book.old.limit book.new.texts) }
    ensures illegal { IsErrOf result Illegal
        → (rest : List (List ℕ))
        → ¬ IsBook (FairOf kind) book.old.limit (book.old.texts ++ text.now ∷ rest) }
    ensures err { OnErr result (book.new.texts ≡ book.old.texts) }
{
    if !is_fair(kind, text) {
        return Err(JudgeRefusal::Illegal);
    }
    let count = book.len();
    match book.intern(text) {
        Ok(number) if number == count => Ok(()),
        Ok(_) => Err(JudgeRefusal::Illegal),
        Err(BookRefusal::Full { .. }) => Err(JudgeRefusal::Illegal),
        Err(BookRefusal::OutOfMemory) => Err(JudgeRefusal::OutOfMemory),
    }
}

// Adds the texts in order, as long as the dictionary with them still is one.
fn add_each(book: &mut Book, kind: Which, texts: &[Text]) -> Result<(), JudgeRefusal>
    requires { IsBook (FairOf kind) book.old.limit book.old.texts }
    ensures limit { book.new.limit ≡ book.old.limit }
    ensures ok { OnOk result (book.new.texts ≡ book.old.texts ++ texts.now) }
    ensures book { OnOk result (IsBook (FairOf kind) book.old.limit book.new.texts) }
    ensures illegal { IsErrOf result Illegal
        → ¬ IsBook (FairOf kind) book.old.limit (book.old.texts ++ texts.now) }
    ensures front { take (length book.old.texts) book.new.texts ≡ book.old.texts }
{
    for text in texts {
        add_one(book, kind, text.as_slice())?;
    }
    Ok(())
}

/// Adds the texts behind those of the dictionary; where it is none with them, or memory ends, it stays
/// as it was.
pub(crate) fn add_texts(book: &mut Book, kind: Which, texts: &[Text]) -> Result<(), JudgeRefusal>
    requires { IsBook (FairOf kind) book.old.limit book.old.texts }
    ensures limit { book.new.limit ≡ book.old.limit }
    ensures ok { OnOk result (book.new.texts ≡ book.old.texts ++ texts.now) }
    ensures book { OnOk result (IsBook (FairOf kind) book.old.limit book.new.texts) }
    ensures illegal { IsErrOf result Illegal
        → ¬ IsBook (FairOf kind) book.old.limit (book.old.texts ++ texts.now) }
    ensures err { OnErr result (book.new.texts ≡ book.old.texts) }
{
    let count = book.len();
    let added = add_each(book, kind, texts);
    if added.is_err() {
        book.truncate(count);
    }
    added
}
