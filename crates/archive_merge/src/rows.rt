//! Rows of the second archive.
ghost use Rattle.std.specs.Prelude.{◌≡◌, ◌+◌, ◌<◌, ◌≤◌, ℕ, List, IfOk, IsErrOf, OnOk, length};
ghost use Rattle.column_store.specs.Row.{row_of};
ghost use Rattle.row_rename.specs.Causes.{IsFull};
ghost use Rattle.row_rename.specs.Paths.{HasNamedMore};
ghost use Rattle.row_rename.specs.Renamed.{IsTextOfRow};
ghost use Rattle.row_rename.specs.Tables.{AreTables, HasNamedBoth};
ghost use Rattle.archive_core.specs.Rows.{AreMessages};
ghost use Rattle.archive_merge.specs.InHand.{MayTake, MayTakeAll, SameMarks, TakesAll, TakesRow, TakesRows};
ghost use Rattle.archive_merge.specs.Needed.{IsTextOfRows};
ghost use Rattle.archive_merge.specs.Taken.{HasNamed, Serves, books_by, texts_by, texts_in};
ghost use Rattle.archive_merge.specs.declared.stop.Stop.TheVariants.{SecondDamaged, SecondFault};

use crate::hand::Hand;
use crate::stop::Stop;
use crate::taker::Taker;
use column_store::{Columns, RowRef};
use row_codec::{Namer, Names};
use row_rename::{Tables, rename_row};

// Takes a row over: gives it the numbers of the first archive, and adds it to those in hand.
fn take_row<M: Names, N: Namer>(
    row: RowRef<'_>,
    names: &M,
    tables: &mut Tables,
    namer: &mut N,
    hand: &mut Hand,
) -> Result<(), Stop>
    requires tables { AreTables (M.types names.now) (M.words names.now)
        (N.types namer.old).texts (N.words namer.old).texts tables.old }
    requires room { length hand.old.draft.columns.rows < 65536 }

    // what stays, and what is named
    ensures version { N.version namer.new ≡ N.version namer.old }
    ensures named { HasNamedBoth
        (IsTextOfRow (M.types names.now) (M.words names.now) (row_of row.entry))
        (M.types names.now) (M.words names.now) (N.types namer.old)
        (N.types namer.new) (N.words namer.old) (N.words namer.new) tables.new }
    ensures path { HasNamedMore N.naming namer.old namer.new }
    ensures marks { SameMarks hand.old hand.new }

    // by the answer
    ensures taken { OnOk result (TakesRow
        (record { types = M.types names.now; words = M.words names.now })
        (record { types = (N.types namer.old).texts; words = (N.words namer.old).texts })
        (record { types = (N.types namer.new).texts; words = (N.words namer.new).texts })
        (row_of row.entry) hand.old hand.new) }

    // causes
    ensures full { (book : _) (count : ℕ) → IsErrOf result (Stop.Full book count)
        → IsFull book (M.types names.now) (M.words names.now)
        (N.types namer.new) (N.words namer.new) count }
    ensures damaged { IsErrOf result SecondDamaged
        → ¬ MayTake (M.types names.now) (M.words names.now) (row_of row.entry) hand.old }
    ensures disk { ¬ IsErrOf result SecondFault }
{
    if !hand.has_room(row.words.len()) {
        return Err(Stop::SecondDamaged);
    }
    rename_row(row, names, tables, namer, &mut hand.renamed)?;
    hand.draft.columns.push(hand.renamed.row(), 0)?;
    Ok(())
}

// Takes the rows of a page over, one after the other.
fn take_rows<M: Names, N: Namer>(
    page: &Columns,
    names: &M,
    tables: &mut Tables,
    namer: &mut N,
    hand: &mut Hand,
) -> Result<(), Stop>
    requires tables { AreTables (M.types names.now) (M.words names.now)
        (N.types namer.old).texts (N.words namer.old).texts tables.old }
    requires room { length hand.old.draft.columns.rows + length page.now.rows ≤ 65536 }

    // what stays, and what is named
    ensures version { N.version namer.new ≡ N.version namer.old }
    ensures named { HasNamedBoth
        (IsTextOfRows (record { types = M.types names.now; words = M.words names.now })
        page.now.rows)
        (M.types names.now) (M.words names.now) (N.types namer.old)
        (N.types namer.new) (N.words namer.old) (N.words namer.new) tables.new }
    ensures path { HasNamedMore N.naming namer.old namer.new }
    ensures marks { SameMarks hand.old hand.new }

    // by the answer
    ensures taken { OnOk result (TakesAll
        (record { types = M.types names.now; words = M.words names.now })
        (record { types = (N.types namer.old).texts; words = (N.words namer.old).texts })
        (record { types = (N.types namer.new).texts; words = (N.words namer.new).texts })
        page.now.rows hand.old hand.new) }

    // causes
    ensures full { (book : _) (count : ℕ) → IsErrOf result (Stop.Full book count)
        → IsFull book (M.types names.now) (M.words names.now)
        (N.types namer.new) (N.words namer.new) count }
    ensures damaged { IsErrOf result SecondDamaged
        → ¬ MayTakeAll (M.types names.now) (M.words names.now) page.now.rows hand.old }
    ensures disk { ¬ IsErrOf result SecondFault }
{
    for place in 0..page.rows() {
        take_row(page.row(place), names, tables, namer, hand)?;
    }
    Ok(())
}

/// Takes the rows of a page over, where each is the encoding of a message: gives them the numbers of the
/// first archive, and adds them to those in hand. Tells whether the last of their messages may be a last
/// line without newline, where `before` tells it of the messages before them.
///
/// # Errors
///
/// [`Stop::Full`], [`Stop::SecondDamaged`] or [`Stop::OutOfMemory`]. Some of the rows may be in hand then.
pub fn take_page<M: Names, N: Namer>(
    page: &Columns,
    before: bool,
    names: &M,
    taker: &mut Taker,
    namer: &mut N,
    hand: &mut Hand,
) -> Result<bool, Stop>
    requires serves { Serves (M.version names.now) (texts_by M.types M.words names.now)
        (books_by N.types N.words namer.old) taker.old }
    requires room { length hand.old.draft.columns.rows + length page.now.rows ≤ 65536 }

    // what stays, and what is named
    ensures named { HasNamed (IsTextOfRows (texts_by M.types M.words names.now) page.now.rows)
        (M.version names.now) (texts_by M.types M.words names.now)
        (books_by N.types N.words namer.old) (books_by N.types N.words namer.new) taker.new }
    ensures namer { (N.version namer.new ≡ N.version namer.old)
        × HasNamedMore N.naming namer.old namer.new }
    ensures marks { SameMarks hand.old hand.new }

    // by the answer
    ensures taken { IfOk result (λ open_end. TakesRows (M.version names.now)
        (texts_by M.types M.words names.now) (texts_in (books_by N.types N.words namer.old))
        (texts_in (books_by N.types N.words namer.new))
        page.now.rows hand.old hand.new before open_end) }

    // causes
    ensures full { (book : _) (count : ℕ) → IsErrOf result (Stop.Full book count)
        → IsFull book (M.types names.now) (M.words names.now)
        (N.types namer.new) (N.words namer.new) count }
    ensures damaged { IsErrOf result SecondDamaged → (messages : List (List ℕ))
        → AreMessages (M.version names.now) (M.types names.now) (M.words names.now)
        page.now.rows messages
        → ¬ MayTakeAll (M.types names.now) (M.words names.now) page.now.rows hand.old }
    ensures disk { ¬ IsErrOf result SecondFault }
{
    let (alloc, version) = (taker.alloc, taker.version);
    let Some(open_end) = taker.judge.rows_say(alloc, version, names, before, page)? else {
        return Err(Stop::SecondDamaged);
    };
    take_rows(page, names, &mut taker.tables, namer, hand)?;
    Ok(open_end)
}
