//! The lock's atomic steps, each through a seat at the table.
ghost use Rattle.std.specs.Prelude.{◌≡◌, true, [], None};
ghost use Rattle.turn_lock.specs.Seats.{IsTable, SitsAt, IsFree, IsInLine, LearnsFrom};
ghost use Rattle.turn_lock.specs.StepPlays.{Came, Learned, MayAdd, TakesIn};
ghost use Rattle.turn_lock.specs.StepPlays.{waits, publishes, joined};

use crate::board::{Board, LENGTH, Place, SERVING, TICKET};
use crate::grows::Grows;
use crate::plays::{Both, Draw, Learn, Look, Publish, Tells};
use std::hint;
use std::sync::Wait;
use std::time::Duration;

// Both limits of a wait are free to tune: no clause speaks of them. A turn is mostly shorter than it
// takes to give the processor away and come back, so a thread spins first. Nobody wakes a thread that
// sleeps: it looks again when its nap is over, so that giving a turn back costs no system call.

/// Rounds in which a thread that finds the lock taken stays on the processor.
const SPINS: u64 = 1_000;

/// The longest sleep between two looks, in microseconds.
const NAP: u64 = 50;

/// Lets time pass between two looks at the ticket that is served, which was `served` last.
fn pause<V: Grows, R: Wait>(board: &Board<V>, rt: &R, round: u64, served: u64)
    requires { IsTable board.now.table_id }
{
    if round < SPINS {
        hint::spin_loop();
    } else {
        let expected = (served % (1 << 32)) as u32;
        board.park_timeout(rt, SERVING, expected, Duration::from_micros(NAP));
    }
}

/// Draws the next ticket, once it is the one that is served. A thread that waits holds no ticket: so
/// none has to wait for another that waits too and has lost its processor. Once 2^64 - 1 tickets
/// were drawn, it waits for good.
pub(crate) fn draw<V: Grows, R: Wait>(board: &Board<V>, rt: &R, seat: &mut Place<V>) -> u64
    requires table { SitsAt board.now.table_id seat.old.table_id }
    requires free { IsFree seat.old.me }
    ensures table { seat.new.table_id ≡ seat.old.table_id }
    ensures view { seat.new.me ≡ (waits seat.old.me.0 result, []) }
{
    let mut round = 0;
    for _ in rt.forever() {
        let served = board.peek(SERVING);
        let next = board.peek(TICKET);
        if next == served && next < u64::MAX {
            let found = board.compare_exchange::<Draw>(seat, TICKET, next, next + 1);
            if found == next {
                return next;
            }
        } else {
            pause(board, rt, round, served);
            round = if round < SPINS { round + 1 } else { round };
        }
    }
    unreachable!()
}

/// Waits until the ticket is served, and takes the value's slot.
pub(crate) fn wait<V: Grows, R: Wait>(board: &Board<V>, rt: &R, seat: &mut Place<V>, ticket: u64)
    requires table { SitsAt board.now.table_id seat.old.table_id }
    requires line { IsInLine seat.old.me ticket }
    ensures table { seat.new.table_id ≡ seat.old.table_id }
    ensures came { Came V.entries V.fixed V.may_add seat.old.me seat.new.me }
{
    // What is drawn is served by then, so this looks once. That it does is said by no clause.
    for _ in rt.forever() {
        let found = board.load::<Look<V>>(seat, SERVING);
        if found == ticket {
            return;
        }
        hint::spin_loop();
    }
    unreachable!()
}

/// Makes the length of the history that of the value's list.
pub(crate) fn publish<V: Grows, J: Tells<V::Entry>>(
    board: &Board<V>,
    seat: &mut Place<V>,
    value: &V,
)
    requires table { SitsAt board.now.table_id seat.old.table_id }
    requires told { J.told ≡ V.entries value.now }
    requires turn { (seat.old.me.0.inside ≡ true) × (seat.old.me.0.gone ≡ None) }
    requires adds { MayAdd V.may_add J.told seat.old.me.0 }
    ensures table { seat.new.table_id ≡ seat.old.table_id }
    ensures view { seat.new.me ≡ (publishes J.told seat.old.me.0, seat.old.me.1) }
{
    let count = value.count();
    board.swap::<Publish<V, J>>(seat, LENGTH, count);
}

/// Takes in another seat, and looks at what both have seen.
pub(crate) fn join<V: Grows>(board: &Board<V>, seat: &mut Place<V>, other: Place<V>)
    requires table { SitsAt board.now.table_id seat.old.table_id }
    requires other { other.table_id ≡ board.now.table_id }
    requires free { IsFree other.me }
    requires takes { TakesIn seat.old.me.0 other.me.0 }
    ensures table { seat.new.table_id ≡ seat.old.table_id }
    ensures view { Learned (joined seat.old.me.0 other.me.0, seat.old.me.1) seat.new.me }
    ensures learned { LearnsFrom seat.old.me other.me seat.new.me }
{
    board.join_seat::<Both>(seat, other);
    board.load::<Learn>(seat, SERVING);
}
