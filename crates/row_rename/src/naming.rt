//! Naming one text of an archive in the dictionaries of another.
ghost use Rattle.std.specs.Prelude.{◌≡◌, ◌↔◌, ℕ, IfOk, IsErrOf, IsTrue};
ghost use Rattle.logtype_text.specs.Fair.{IsFairType, IsFairWord};
ghost use Rattle.row_codec.specs.Naming.{HasGrown};
ghost use Rattle.row_codec.specs.declared.namer.Which.TheVariants.{Types, Words};
ghost use Rattle.row_rename.specs.Causes.{HasFairText, IsFullOf};
ghost use Rattle.row_rename.specs.Paths.{HasNamedMore};
ghost use Rattle.row_rename.specs.Renamed.{HaveOneText, IsTextAt};
ghost use Rattle.row_rename.specs.Tables.{IsLogType};
ghost use Rattle.row_rename.specs.declared.refusal.RenameRefusal.TheVariants.{Damaged};

use crate::RenameRefusal;
use crate::log_types::{LogType, kinds_of};
use logtype_text::{MAX_TYPE_LEN, MAX_WORD_LEN, Span, text_ok};
use row_codec::{Namer, Names};
use std::alloc::Global;

// Whether a dictionary of log types may hold the text.
fn is_fair_type(text: &[u8]) -> bool
    ensures { IsTrue result ↔ IsFairType text.now }
{
    text.len() <= MAX_TYPE_LEN && text_ok(text)
}

// Whether a dictionary of words may hold the text.
fn is_fair_word(text: &[u8]) -> bool
    ensures { IsTrue result ↔ IsFairWord text.now }
{
    !text.is_empty() && text.len() <= MAX_WORD_LEN
}

/// The log type with this number, in the namer's archive, where it is named.
pub(crate) fn name_log_type<M: Names, N: Namer>(
    alloc: Global,
    number: u32,
    names: &M,
    namer: &mut N,
) -> Result<LogType, RenameRefusal>
    // what stays, and what is named
    ensures others { (N.version namer.new ≡ N.version namer.old)
        × (N.words namer.new ≡ N.words namer.old) }
    ensures grown { HasGrown (IsTextAt (M.types names.now) number)
        (N.types namer.old) (N.types namer.new) }
    ensures path { HasNamedMore N.naming namer.old namer.new }

    // by the answer
    ensures named { IfOk result (λ l.
        IsLogType (M.types names.now) (N.types namer.new).texts number l) }

    // causes
    ensures full { (book : _) (count : ℕ) → IsErrOf result (RenameRefusal.Full book count)
        → (book ≡ Types) × IsFullOf (M.types names.now) (N.types namer.new) count }
    ensures damaged { IsErrOf result Damaged
        → ¬ HasFairText IsFairType (M.types names.now) number }
{
    let Some(text) = names.type_text(number) else {
        return Err(RenameRefusal::Damaged);
    };
    if !is_fair_type(text) {
        return Err(RenameRefusal::Damaged);
    }
    let kinds = kinds_of(alloc, text)?;
    let renamed = namer.name_type(text)?;
    Ok(LogType {
        number: renamed,
        kinds,
    })
}

/// The number in the namer's archive of the word with this number, where it is named.
pub(crate) fn name_word<M: Names, N: Namer>(
    number: u32,
    names: &M,
    namer: &mut N,
    found: &mut Vec<u32>,
) -> Result<u32, RenameRefusal>
    // what stays, and what is named
    ensures others { (N.version namer.new ≡ N.version namer.old)
        × (N.types namer.new ≡ N.types namer.old) }
    ensures grown { HasGrown (IsTextAt (M.words names.now) number)
        (N.words namer.old) (N.words namer.new) }
    ensures path { HasNamedMore N.naming namer.old namer.new }

    // by the answer
    ensures named { IfOk result (λ renamed.
        HaveOneText (M.words names.now) (N.words namer.new).texts number renamed) }

    // causes
    ensures full { (book : _) (count : ℕ) → IsErrOf result (RenameRefusal.Full book count)
        → (book ≡ Words) × IsFullOf (M.words names.now) (N.words namer.new) count }
    ensures damaged { IsErrOf result Damaged
        → ¬ HasFairText IsFairWord (M.words names.now) number }
{
    let Some(text) = names.word_text(number) else {
        return Err(RenameRefusal::Damaged);
    };
    if !is_fair_word(text) {
        return Err(RenameRefusal::Damaged);
    }
    let whole = Span {
        start: 0,
        end: text.len(),
    };
    namer.name_spans(text, &[whole], found)?;
    Ok(found[0])
}
