//! What is known of log types, so that rows need not read their texts.
ghost use Rattle.std.specs.Prelude.{◌≡◌, ◌++◌, ℕ, List, IfOk, IsErrOf, OnErr, OnOk, length, take};
ghost use Rattle.logtype_text.specs.Fair.{IsFairType};
ghost use Rattle.archive_meaning.specs.Legal.{IsBook};
ghost use Rattle.archive_core.specs.declared.refusal.JudgeRefusal.TheVariants.{Illegal};
ghost use Rattle.archive_core.specs.LogTypes.{AreKnown};

use crate::refusal::JudgeRefusal;
use crate::slots::{Slot, slots_of};
use crate::texts::add_texts;
use dict_core::Book;
use plain_list::Text;
use row_codec::{Names, Which};
use std::alloc::{AllocError, Global};

/// What is known of a log type.
#[derive(Drop)]
pub(crate) struct LogType {
    /// Its slots, from left to right.
    pub(crate) slots: Vec<Slot>,
    /// Whether one row of it was the encoding of a message: then its constants are cut as those of
    /// messages are, and of further rows only the words have to be looked at.
    pub(crate) tested: bool,
}

// Adds what is known of log types with these texts.
fn push_known(alloc: Global, texts: &[Text], known: &mut Vec<LogType>) -> Result<(), AllocError>
    ensures known { OnOk result ((old : List (List ℕ)) → AreKnown old known.old.items
        → AreKnown (old ++ texts.now) known.new.items) }
    ensures front { take (length known.old.items) known.new.items ≡ known.old.items }
{
    for text in texts {
        let slots = slots_of(alloc, text.as_slice())?;
        known.push(LogType {
            slots,
            tested: false,
        })?;
    }
    Ok(())
}

/// What is known of the log types that an archive has.
pub(crate) fn known_of<N: Names>(alloc: Global, names: &N) -> Result<Vec<LogType>, AllocError>
    ensures { IfOk result (λ known. AreKnown (N.types names.now) known.items) }
{
    let mut known = Vec::new(alloc);
    for number in 0..u32::MAX {
        let Some(text) = names.type_text(number) else {
            return Ok(known);
        };
        let slots = slots_of(alloc, text)?;
        known.push(LogType {
            slots,
            tested: false,
        })?;
    }
    // No memory holds so many log types.
    Err(AllocError)
}

/// Adds log types with these texts behind those of the dictionary; where it is none with them, or memory
/// ends, it stays as it was.
pub(crate) fn add_types(
    alloc: Global,
    book: &mut Book,
    known: &mut Vec<LogType>,
    texts: &[Text],
) -> Result<(), JudgeRefusal>
    requires book { IsBook IsFairType book.old.limit book.old.texts }
    requires known { AreKnown book.old.texts known.old.items }

    // what stays
    ensures limit { book.new.limit ≡ book.old.limit }
    ensures known { AreKnown book.new.texts known.new.items }

    // by the answer
    ensures ok { OnOk result (book.new.texts ≡ book.old.texts ++ texts.now) }
    ensures book { OnOk result (IsBook IsFairType book.old.limit book.new.texts) }
    ensures illegal { IsErrOf result Illegal
        → ¬ IsBook IsFairType book.old.limit (book.old.texts ++ texts.now) }
    ensures err { OnErr result (book.new.texts ≡ book.old.texts) }
{
    let count = known.len();
    if push_known(alloc, texts, known).is_err() {
        known.truncate(count);
        return Err(JudgeRefusal::OutOfMemory);
    }
    let added = add_texts(book, Which::Types, texts);
    if added.is_err() {
        known.truncate(count);
    }
    added
}
