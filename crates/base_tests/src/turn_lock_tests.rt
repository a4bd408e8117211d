//! Threads that take turns with a list of numbers.
ghost use Rattle.std.specs.Prelude.{◌≡◌, ℕ, ◌+◌, ◌<◌, ◌≤◌, ◌∷◌, [], ◌++◌, length, Some, IfSome, OnSome, IfNone, slice_get};
ghost use Rattle.std.specs.Thread.{IsSync};
ghost use mathlib.Core.List.{IsPrefix};
ghost use Rattle.step_count.specs.Opens.{OpensFor};
ghost use Rattle.turn_lock.specs.declared.board.About.{About};
ghost use Rattle.turn_lock.specs.Words.{lock_of, number_of, seen, about, IsReady, IsStill};

use std::alloc::Global;
use std::marker::Brand;
use std::sync::Wait;
use std::sync::ledger::{Blank, Ledger};
use std::test::Fail;
use std::thread::{Threads, join_mut};
use step_count::Steps;
use turn_lock::{Grows, Pass, TurnLock};

/// Numbers in the order in which they were added. A pass adds none that is below its own number.
#[derive(Drop)]
struct Numbers {
    all: Vec<u64>,
    limit: u64,
}

impl Grows for Numbers {
    type Entry = u64;

    type Fixed = u64;

    ghost entries = { λ b. b.all.items };

    ghost may_add = { λ n entry. n ≤ entry };

    ghost fixed = { λ b. b.limit };

    fn count(&self) -> u64 {
        self.all.len() as u64
    }
}

impl Numbers {
    fn new(alloc: Global, limit: u64) -> Numbers
        ensures { (result.all.items ≡ []) × (result.limit ≡ limit) }
    {
        Numbers {
            all: Vec::new(alloc),
            limit,
        }
    }

    /// Adds the number last, and answers its place. None where the limit is reached.
    fn add(&mut self, number: u64) -> Option<u64>
        ensures limit { self.new.limit ≡ self.old.limit }
        ensures added { OnSome result (self.new.all.items ≡ self.old.all.items ++ number ∷ []) }
        ensures place { IfSome result (λ k. k ≡ length self.old.all.items) }
        ensures none { IfNone result (self.new.all.items ≡ self.old.all.items) }
    {
        let place = self.all.len() as u64;
        if place >= self.limit || self.all.push(number).is_err() {
            return None;
        }
        Some(place)
    }

    fn at(&self, place: u64) -> u64
        requires { place < length self.now.all.items }
        ensures { slice_get self.now.all.items place ≡ Some result }
    {
        self.all[place as usize]
    }
}

/// Adds the number in a turn.
fn added<R: Wait, L: Ledger>(
    pass: &mut Pass<'_, Numbers>,
    rt: &R,
    number: u64,
    turns: &mut Steps<L>,
) -> Option<u64>
    requires ready { IsReady pass.old }
    requires fair { number_of pass.old ≤ number }
    ensures still { IsStill pass.old pass.new × IsReady pass.new }
    ensures seen { IsPrefix (seen pass.old) (seen pass.new) }
    ensures named { IfSome result (λ k. slice_get (seen pass.new) k ≡ Some number) }
    ensures turns { turns.new ≡ turns.old + 1 }
{
    let mut turn = pass.take(rt, turns);
    let answer = turn.value.add(number);
    turn.put(pass);
    answer
}

/// The number at a place that the pass has seen. Past the opening it is not below the lock's first
/// number, since no pass adds one that is below its own.
fn number_at<R: Wait, L: Ledger>(
    pass: &mut Pass<'_, Numbers>,
    rt: &R,
    place: u64,
    turns: &mut Steps<L>,
) -> u64
    requires ready { IsReady pass.old }
    requires known { place < length (seen pass.old) }
    ensures still { IsStill pass.old pass.new × IsReady pass.new }
    ensures fair { (a : About ℕ) → about pass.old ≡ Some a → a.start ≤ place → a.first ≤ result }
{
    let turn = pass.take(rt, turns);
    let number = turn.value.at(place);
    turn.put(pass);
    number
}

/// What the writer adds, as the reader finds it once it has joined a note. None where the limit refuses it,
/// or leaves room for another.
fn passed_on<R: Wait, L: Ledger>(
    rt: &R,
    writer: &mut Pass<'_, Numbers>,
    reader: &mut Pass<'_, Numbers>,
    turns: &mut Steps<L>,
) -> Option<u64>
    requires ready { IsReady writer.old × IsReady reader.old }
    requires lock { lock_of writer.old ≡ lock_of reader.old }
    ensures writer { IsStill writer.old writer.new × IsReady writer.new }
    ensures reader { IsStill reader.old reader.new × IsReady reader.new }
{
    if writer.number() > 77 {
        return None;
    }
    let place = added(writer, rt, 77, turns)?;
    let refused = added(writer, rt, 78, turns);
    let note = writer.note();
    reader.join(note);
    let number = number_at(reader, rt, place, turns);
    refused.is_none().then_some(number)
}

/// What one pass adds, another reads once it has joined a note: the number of the reader, what it finds, and
/// all that was added within a limit of one.
fn told<R: Wait, L: Ledger>(rt: &R, alloc: Global, blank: Blank) -> Option<(u64, u64, Vec<u64>)>
    requires { OpensFor blank L.name L.parts }
{
    let mut turns: Steps<L> = Steps::new(blank);
    let (lock, mut maker) = TurnLock::new(alloc, Numbers::new(alloc, 1), 10).ok()?;
    let mut writer = maker.pass(&lock);
    let mut reader = maker.pass(&lock);
    let found = passed_on(rt, &mut writer, &mut reader, &mut turns);
    let last = reader.number();
    maker.join(writer);
    maker.join(reader);
    let numbers = lock.close(maker).all;
    Some((last, found?, numbers))
}

#[test]
fn a_note_shows_what_another_pass_saw(rt: HostRuntime) -> Result<(), Fail> {
    let told = told::<_, Brand>(&rt, rt.alloc(), Blank::new(1));
    let (last, number, all) = told.ok_or("a refusal")?;
    assert!(rt; last == 11 && number == 77 && all.as_slice() == [77].as_slice());
    Ok(())
}

/// A turn for each of the hundred numbers from this one on.
fn hundred<R: Wait, L: Ledger>(pass: &mut Pass<'_, Numbers>, rt: &R, from: u64, blank: Blank)
    requires blank { OpensFor blank L.name L.parts }
    requires from { (from < 1000000) × (number_of pass.old ≤ from) }
    requires ready { IsReady pass.old }
    ensures { IsStill pass.old pass.new × IsReady pass.new }
{
    let mut turns: Steps<L> = Steps::new(blank);
    for i in 0..100 {
        added(pass, rt, from + i, &mut turns);
    }
}

fn worker<R: Wait>(pass: &mut Pass<'_, Numbers>, rt: &R, from: u64)
    requires { (from < 1000000) × IsReady pass.old }
    ensures { IsStill pass.old pass.new × IsReady pass.new }
{
    if pass.number() <= from {
        hundred::<R, Brand>(pass, rt, from, Blank::new(1));
    }
}

fn pair<R: Threads + Wait + Sync>(
    rt: &R,
    one: &mut Pass<'_, Numbers>,
    two: &mut Pass<'_, Numbers>,
    from: u64,
)
    requires { (from < 10000) × IsReady one.old × IsReady two.old }
    ensures one { IsStill one.old one.new × IsReady one.new }
    ensures two { IsStill two.old two.new × IsReady two.new }
{
    join_mut(
        rt,
        &mut || worker(one, rt, from),
        &mut || worker(two, rt, from + 1000),
    );
}

fn four<R: Threads + Wait + Sync>(
    rt: &R,
    one: &mut Pass<'_, Numbers>,
    two: &mut Pass<'_, Numbers>,
    three: &mut Pass<'_, Numbers>,
    four: &mut Pass<'_, Numbers>,
)
    requires front { IsReady one.old × IsReady two.old }
    requires back { IsReady three.old × IsReady four.old }
    ensures one { IsStill one.old one.new × IsReady one.new }
    ensures two { IsStill two.old two.new × IsReady two.new }
    ensures three { IsStill three.old three.new × IsReady three.new }
    ensures four { IsStill four.old four.new × IsReady four.new }
{
    join_mut(
        rt,
        &mut ||
            requires shared { IsSync R.row }
            requires ready { IsReady one.now × IsReady two.now }
            ensures one { IsStill one.entry.now one.exit.now × IsReady one.exit.now }
            ensures two { IsStill two.entry.now two.exit.now × IsReady two.exit.now }
        { pair(rt, one, two, 1000) },
        &mut ||
            requires shared { IsSync R.row }
            requires ready { IsReady three.now × IsReady four.now }
            ensures three { IsStill three.entry.now three.exit.now × IsReady three.exit.now }
            ensures four { IsStill four.entry.now four.exit.now × IsReady four.exit.now }
        { pair(rt, three, four, 3000) },
    );
}

/// How many passes there were, and what four threads added to one list.
fn taken<R: Threads + Wait + Sync>(rt: &R, alloc: Global) -> Option<(u64, Vec<u64>)> {
    let (lock, mut maker) = TurnLock::new(alloc, Numbers::new(alloc, 1000), 0).ok()?;
    let mut a = maker.pass(&lock);
    let mut b = maker.pass(&lock);
    let mut c = maker.pass(&lock);
    let mut d = maker.pass(&lock);
    four(rt, &mut a, &mut b, &mut c, &mut d);
    maker.join(a);
    maker.join(b);
    maker.join(c);
    maker.join(d);
    let made = maker.made();
    Some((made, lock.close(maker).all))
}

/// Whether these are a hundred numbers of each of the four threads, its own in order.
fn are_in_order(numbers: &[u64]) -> bool {
    let mut next: [u64; 4] = [1000, 2000, 3000, 4000];
    for number in numbers {
        let thread = (*number / 1000).wrapping_sub(1);
        let Some(place) = next.get_mut(thread as usize) else {
            return false;
        };
        if *place != *number {
            return false;
        }
        *place = number.wrapping_add(1);
    }
    next == [1100, 2100, 3100, 4100]
}

#[test]
fn four_threads_take_a_hundred_turns_each(rt: HostRuntime) -> Result<(), Fail> {
    let (made, numbers) = taken(&rt, rt.alloc()).ok_or("no memory")?;
    assert!(rt; made == 4 && are_in_order(&numbers));
    Ok(())
}
