//! Renaming rows.
ghost use Rattle.std.specs.Prelude.{◌≡◌, ◌++◌, ℕ, IsErrOf, OnOk, Some, slice_get};
ghost use Rattle.logtype_text.specs.Fair.{IsFairType};
ghost use Rattle.column_store.specs.Row.{row_of};
ghost use Rattle.row_codec.specs.Naming.{HasGrown};
ghost use Rattle.row_codec.specs.Numbers.{numbers_of_row};
ghost use Rattle.row_codec.specs.declared.namer.Which.TheVariants.{Types};
ghost use Rattle.row_rename.specs.Causes.{HasFairText, IsFull, IsFullOf, MayRename};
ghost use Rattle.row_rename.specs.Paths.{HasNamedMore};
ghost use Rattle.row_rename.specs.Renamed.{IsRenamed, IsTextAt, IsTextOfRow, row_in, used_in};
ghost use Rattle.row_rename.specs.Tables.{AreLogTypes, AreTables, HasNamedBoth};
ghost use Rattle.row_rename.specs.declared.refusal.RenameRefusal.TheVariants.{Damaged};

use crate::log_types::LogTypes;
use crate::naming::name_log_type;
use crate::words::rename_words;
use crate::{RenameRefusal, RenamedRow, Tables};
use column_store::RowRef;
use row_codec::{Namer, Names};
use std::alloc::Global;

// Sees to it that the log type with this number is among those that are known. It is named where it is
// not yet.
#[inline]
fn rename_type<M: Names, N: Namer>(
    alloc: Global,
    number: u32,
    names: &M,
    log_types: &mut LogTypes,
    namer: &mut N,
) -> Result<(), RenameRefusal>
    requires { AreLogTypes (M.types names.now) (N.types namer.old).texts
        log_types.old.named.items }

    // what stays, and what is named
    ensures others { (N.version namer.new ≡ N.version namer.old)
        × (N.words namer.new ≡ N.words namer.old) }
    ensures grown { HasGrown (IsTextAt (M.types names.now) number)
        (N.types namer.old) (N.types namer.new) }
    ensures kept { AreLogTypes (M.types names.now) (N.types namer.new).texts
        log_types.new.named.items }
    ensures path { HasNamedMore N.naming namer.old namer.new }

    // by the answer
    ensures named { OnOk result ((l : _)
        × (slice_get log_types.new.named.items number ≡ Some (Some l))) }

    // causes
    ensures full { (book : _) (count : ℕ) → IsErrOf result (RenameRefusal.Full book count)
        → (book ≡ Types) × IsFullOf (M.types names.now) (N.types namer.new) count }
    ensures damaged { IsErrOf result Damaged
        → ¬ HasFairText IsFairType (M.types names.now) number }
{
    if log_types.get(number).is_some() {
        return Ok(());
    }
    let log_type = name_log_type(alloc, number, names, namer)?;
    log_types.set(number, log_type)?;
    Ok(())
}

/// Makes the row with the numbers of the namer's archive of a row with those of `names`. Each text is
/// named where its number is first met; from then on its new number stands in the tables.
///
/// # Errors
///
/// [`RenameRefusal::Full`], where a text is new and its dictionary has as many texts as it may;
/// [`RenameRefusal::Damaged`] only where the row's numbers have no texts that a dictionary may hold, or
/// it has not one word for each slot; or [`RenameRefusal::OutOfMemory`]. The texts that were named
/// before stay named, and the numbers of this row may then stand among those that are used.
pub fn rename_row<M: Names, N: Namer>(
    row: RowRef<'_>,
    names: &M,
    tables: &mut Tables,
    namer: &mut N,
    renamed: &mut RenamedRow,
) -> Result<(), RenameRefusal>
    requires { AreTables (M.types names.now) (M.words names.now)
        (N.types namer.old).texts (N.words namer.old).texts tables.old }

    // what stays, and what is named
    ensures version { N.version namer.new ≡ N.version namer.old }
    ensures named { HasNamedBoth
        (IsTextOfRow (M.types names.now) (M.words names.now) (row_of row.entry))
        (M.types names.now) (M.words names.now) (N.types namer.old)
        (N.types namer.new) (N.words namer.old) (N.words namer.new) tables.new }
    ensures path { HasNamedMore N.naming namer.old namer.new }

    // the renamed row
    ensures renamed { OnOk result (IsRenamed (M.types names.now) (M.words names.now)
        (N.types namer.new).texts (N.words namer.new).texts
        (row_of row.entry) (row_in renamed.new)) }
    ensures used { OnOk result (used_in renamed.new
        ≡ used_in renamed.old ++ numbers_of_row (N.types namer.new).texts (row_in renamed.new)) }

    // causes
    ensures full { (book : _) (count : ℕ) → IsErrOf result (RenameRefusal.Full book count)
        → IsFull book (M.types names.now) (M.words names.now)
        (N.types namer.new) (N.words namer.new) count }
    ensures damaged { IsErrOf result Damaged
        → ¬ MayRename (M.types names.now) (M.words names.now) (row_of row.entry) }
{
    let Tables {
        alloc,
        log_types,
        words,
    } = tables;
    rename_type(*alloc, row.log_type, names, log_types, namer)?;
    let Some(log_type) = log_types.get(row.log_type) else {
        unreachable!();
    };
    rename_words(
        log_type.kinds.as_slice(),
        row.words,
        names,
        words,
        namer,
        renamed,
    )?;
    renamed.pattern = row.pattern;
    renamed.moment = row.moment;
    renamed.log_type = log_type.number;
    Ok(())
}
