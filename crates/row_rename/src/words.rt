//! Renaming the words of a row.
ghost use Rattle.std.specs.Prelude.{◌≡◌, ◌++◌, ◌∷◌, [], ℕ, IfOk, IsErrOf, OnOk};
ghost use Rattle.logtype_text.specs.Fair.{IsFairWord};
ghost use Rattle.row_codec.specs.Numbers.{word_numbers};
ghost use Rattle.row_codec.specs.declared.namer.Which.TheVariants.{Words};
ghost use Rattle.row_rename.specs.Causes.{HasFairText, IsFullOf, MayRenameWords};
ghost use Rattle.row_rename.specs.Paths.{HasNamedMore};
ghost use Rattle.row_rename.specs.Renamed.{AreRenamed, HaveOneText, IsTextAmong, IsTextAt};
ghost use Rattle.row_rename.specs.StepsPut.{PutsSlot};
ghost use Rattle.row_rename.specs.Tables.{HasNamedSome, IsTable};
ghost use Rattle.row_rename.specs.declared.refusal.RenameRefusal.TheVariants.{Damaged};

use crate::naming::name_word;
use crate::table::Table;
use crate::{RenameRefusal, RenamedRow};
use logtype_text::Kind;
use row_codec::{Namer, Names};

// The number in the namer's archive of the word with this number. It is named where the table has it
// not yet.
#[inline]
fn rename_word<M: Names, N: Namer>(
    word: u64,
    names: &M,
    table: &mut Table,
    namer: &mut N,
    found: &mut Vec<u32>,
) -> Result<u32, RenameRefusal>
    requires { IsTable (M.words names.now) (N.words namer.old).texts table.old.numbers.items }

    // what stays, and what is named
    ensures others { (N.version namer.new ≡ N.version namer.old)
        × (N.types namer.new ≡ N.types namer.old) }
    ensures words { HasNamedSome (IsTextAt (M.words names.now) word)
        (M.words names.now) (N.words namer.old) (N.words namer.new) table.new.numbers.items }
    ensures path { HasNamedMore N.naming namer.old namer.new }

    // by the answer
    ensures named { IfOk result (λ renamed.
        HaveOneText (M.words names.now) (N.words namer.new).texts word renamed) }

    // causes
    ensures full { (book : _) (count : ℕ) → IsErrOf result (RenameRefusal.Full book count)
        → (book ≡ Words) × IsFullOf (M.words names.now) (N.words namer.new) count }
    ensures damaged { IsErrOf result Damaged
        → ¬ HasFairText IsFairWord (M.words names.now) word }
{
    let Ok(number) = u32::try_from(word) else {
        // A number of 32 bits reaches every word, as this look-up tells.
        let _last = names.word_text(u32::MAX);
        return Err(RenameRefusal::Damaged);
    };
    if let Some(renamed) = table.get(number) {
        return Ok(renamed);
    }
    let renamed = name_word(number, names, namer, found)?;
    table.set(number, renamed)?;
    Ok(renamed)
}

// Adds the word of a slot to the renamed row.
#[inline]
fn put_slot<M: Names, N: Namer>(
    kind: Kind,
    word: u64,
    names: &M,
    table: &mut Table,
    namer: &mut N,
    renamed: &mut RenamedRow,
) -> Result<(), RenameRefusal>
    requires { IsTable (M.words names.now) (N.words namer.old).texts table.old.numbers.items }

    // what stays, and what is named
    ensures others { (N.version namer.new ≡ N.version namer.old)
        × (N.types namer.new ≡ N.types namer.old) }
    ensures words { HasNamedSome
        (IsTextAmong (M.words names.now) (word_numbers (kind ∷ []) (word ∷ [])))
        (M.words names.now) (N.words namer.old) (N.words namer.new) table.new.numbers.items }
    ensures path { HasNamedMore N.naming namer.old namer.new }

    // by the answer
    ensures put { OnOk result (PutsSlot (M.words names.now) (N.words namer.new).texts kind word
        renamed.old.words.items renamed.new.words.items
        renamed.old.used.items renamed.new.used.items) }

    // causes
    ensures full { (book : _) (count : ℕ) → IsErrOf result (RenameRefusal.Full book count)
        → (book ≡ Words) × IsFullOf (M.words names.now) (N.words namer.new) count }
    ensures damaged { IsErrOf result Damaged
        → (kind ≡ Kind.Word) × ¬ HasFairText IsFairWord (M.words names.now) word }
{
    if kind != Kind::Word {
        renamed.words.push(word)?;
        return Ok(());
    }
    let number = rename_word(word, names, table, namer, &mut renamed.found)?;
    renamed.words.push(u64::from(number))?;
    renamed.used.push(number)?;
    Ok(())
}

/// Renames the words in slots of these kinds, and makes them the words of the renamed row. Their
/// dictionary numbers go behind those of earlier rows.
pub(crate) fn rename_words<M: Names, N: Namer>(
    kinds: &[Kind],
    words: &[u64],
    names: &M,
    table: &mut Table,
    namer: &mut N,
    renamed: &mut RenamedRow,
) -> Result<(), RenameRefusal>
    requires { IsTable (M.words names.now) (N.words namer.old).texts table.old.numbers.items }

    // what stays, and what is named
    ensures others { (N.version namer.new ≡ N.version namer.old)
        × (N.types namer.new ≡ N.types namer.old) }
    ensures words { HasNamedSome
        (IsTextAmong (M.words names.now) (word_numbers kinds.now words.now))
        (M.words names.now) (N.words namer.old) (N.words namer.new) table.new.numbers.items }
    ensures path { HasNamedMore N.naming namer.old namer.new }

    // by the answer
    ensures renamed { OnOk result (AreRenamed (M.words names.now) (N.words namer.new).texts
        kinds.now words.now renamed.new.words.items) }
    ensures used { OnOk result (renamed.new.used.items
        ≡ renamed.old.used.items ++ word_numbers kinds.now renamed.new.words.items) }

    // causes
    ensures full { (book : _) (count : ℕ) → IsErrOf result (RenameRefusal.Full book count)
        → (book ≡ Words) × IsFullOf (M.words names.now) (N.words namer.new) count }
    ensures damaged { IsErrOf result Damaged
        → ¬ MayRenameWords (M.words names.now) kinds.now words.now }
{
    renamed.words.clear();
    let mut left = words;
    for kind in kinds {
        let Some((word, behind)) = left.split_first() else {
            return Err(RenameRefusal::Damaged);
        };
        put_slot(*kind, *word, names, table, namer, renamed)?;
        left = behind;
    }
    if !left.is_empty() {
        return Err(RenameRefusal::Damaged);
    }
    Ok(())
}
