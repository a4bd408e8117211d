//! What workers have in hand.
ghost use Rattle.std.specs.Prelude.{◌≡◌, ◌<◌, ◌^◌, [], ◌++◌, ◌∷◌, IfNone, IfSome, IfOk, OnOk, length};
ghost use Rattle.column_store.specs.Row.{variable_count};
ghost use Rattle.archive_machine.specs.Machine.{rows_of, with_rows};
ghost use Rattle.archive_machine.specs.StepsHands.{IsFirstHand, IsNoHand};

use crate::state::Hand;
use column_store::{Row, RowList};
use std::alloc::{AllocError, Global};
use std::mem;

// The place of the worker's hand, if it has one.
fn place_of(hands: &[Hand], worker: u32) -> Option<usize>
    ensures some { IfSome result (IsFirstHand worker hands.now) }
    ensures none { IfNone result (IsNoHand worker hands.now) }
{
    for place in 0..hands.len() {
        if hands[place].worker == worker {
            return Some(place);
        }
    }
    None
}

/// How many rows the worker has in hand.
pub(crate) fn count_in_hand(hands: &[Hand], worker: u32) -> usize
    ensures { result ≡ length (rows_of worker hands.now) }
{
    match place_of(hands, worker) {
        Some(place) => hands[place].rows.len(),
        None => 0,
    }
}

/// The rows that the worker has in hand.
pub(crate) fn rows_in_hand(hands: &[Hand], worker: u32) -> &[Row]
    ensures { result.now ≡ rows_of worker hands.now }
{
    match place_of(hands, worker) {
        Some(place) => hands[place].rows.as_slice(),
        None => &[],
    }
}

/// Takes the rows out of the worker's hand, which is empty then.
pub(crate) fn take_rows(
    alloc: Global,
    hands: &mut Vec<Hand>,
    worker: u32,
) -> Result<RowList, AllocError>
    ensures rows { IfOk result (λ rows. rows ≡ rows_of worker hands.old.items) }
    ensures hands { IfOk result (λ rows. hands.new.items ≡ with_rows worker [] hands.old.items) }
{
    let empty = RowList::new(Vec::new(alloc));
    match place_of(hands.as_slice(), worker) {
        Some(place) => Ok(mem::replace(&mut hands[place].rows, empty)),
        None => {
            hands.push(Hand {
                worker,
                rows: empty,
            })?;
            Ok(RowList::new(Vec::new(alloc)))
        }
    }
}

/// Puts a row behind those that the worker has in hand.
pub(crate) fn push_row(
    alloc: Global,
    hands: &mut Vec<Hand>,
    worker: u32,
    row: Row,
) -> Result<(), AllocError>
    ensures { OnOk result (hands.new.items
        ≡ with_rows worker (rows_of worker hands.old.items ++ row ∷ []) hands.old.items) }
{
    let mut rows = take_rows(alloc, hands, worker)?.into_vec();
    rows.push(row)?;
    if let Some(place) = place_of(hands.as_slice(), worker) {
        hands[place].rows = RowList::new(rows);
    }
    Ok(())
}

/// How many variables the rows have.
pub(crate) fn variables_in(rows: &[Row]) -> u64
    requires { variable_count rows.now < 2 ^ 32 }
    ensures { result ≡ variable_count rows.now }
{
    let mut count = 0;
    for row in rows {
        count += row.words.len() as u64;
    }
    count
}
