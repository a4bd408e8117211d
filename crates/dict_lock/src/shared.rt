//! A book under the turn lock: naming a text, and copying those that others may not have seen.
ghost use Rattle.std.specs.Prelude.{◌≡◌, ◌↔◌, ℕ, ◌+◌, ◌≤◌, drop, length, slice_get, Some, IfOk, OnErr, IsErrOf};
ghost use Rattle.turn_lock.specs.Words.{seen, own_list, number_of, IsReady, OthersMay};
ghost use Rattle.plain_list.specs.Texts.{IsNew};
ghost use Rattle.dict_core.specs.Fair.{IsFair};
ghost use Rattle.dict_core.specs.declared.refusals.BookRefusal.TheVariants.{Full};
ghost use Rattle.dict_lock.specs.Shared.{GoesOn, HasSeenBook, IsFull, OwnsOneMore};

use dict_core::{Book, BookRefusal};
use plain_list::TextList;
use std::alloc::AllocError;
use std::sync::Wait;
use std::sync::ledger::Ledger;
use step_count::Steps;
use turn_lock::{Pass, TurnLock};

/// A book that threads share. Each has a pass of its own.
pub type SharedBook = TurnLock<Book>;

/// The number of a text in the shared book, in a turn of its own. The text is added where the book
/// does not have it.
///
/// # Errors
///
/// [`BookRefusal::Full`] exactly where the book does not have the text and its limit is reached, or
/// [`BookRefusal::OutOfMemory`]. Nothing is added then.
pub fn intern<R: Wait, L: Ledger>(
    pass: &mut Pass<'_, Book>,
    rt: &R,
    text: &[u8],
    turns: &mut Steps<L>,
) -> Result<u32, BookRefusal>
    requires ready { IsReady pass.old }
    requires fair { IsFair (number_of pass.old) text.now }

    // the turn
    ensures pass { GoesOn pass.old pass.new }
    ensures book { HasSeenBook pass.new }
    ensures turns { turns.new ≡ turns.old + 1 }

    // by the answer
    ensures named { IfOk result (λ n. slice_get (seen pass.new) n ≡ Some text.now) }
    ensures own { IfOk result (λ n. OwnsOneMore pass.old pass.new n text.now) }
    ensures refused { OnErr result (own_list pass.new ≡ own_list pass.old) }
    ensures full { (count : ℕ) → IsErrOf result (Full count)
        ↔ (IsNew (seen pass.new) text.now × IsFull pass.new count) }
{
    let mut turn = pass.take(rt, turns);
    let answer = turn.value.intern(text);
    let _count = turn.value.len();
    turn.put(pass);
    answer
}

/// A copy of the shared book's texts from a number on, in a turn of its own. The pass has then seen
/// the whole book, also where there is no memory for the copy.
pub fn unsaved<R: Wait, L: Ledger>(
    pass: &mut Pass<'_, Book>,
    rt: &R,
    from: u32,
    turns: &mut Steps<L>,
) -> Result<TextList, AllocError>
    requires ready { IsReady pass.old }
    requires from { from ≤ length (seen pass.old) }

    // the turn
    ensures pass { GoesOn pass.old pass.new }
    ensures book { HasSeenBook pass.new }
    ensures own { own_list pass.new ≡ own_list pass.old }
    ensures others { OthersMay IsFair pass.old (seen pass.new) }
    ensures turns { turns.new ≡ turns.old + 1 }

    // the answer
    ensures texts { IfOk result (λ texts. texts ≡ drop from (seen pass.new)) }
{
    let turn = pass.take(rt, turns);
    let answer = turn.value.copy_from(from);
    let _count = turn.value.len();
    turn.put(pass);
    answer
}
