//! Books shared by passes and by threads.
ghost use Rattle.std.specs.Prelude.{◌≡◌, IsTrue, All};
ghost use Rattle.step_count.specs.Opens.{OpensFor};
ghost use Rattle.turn_lock.specs.Words.{lock_of, IsReady, IsStill};
ghost use Rattle.dict_core.specs.Fair.{IsFair};

use dict_core::{Book, BookRefusal, WORDS_FIRST};
use dict_lock::{CachedPass, SharedBook, intern, unsaved};
use logtype_text::{MAX_TYPE_LEN, MAX_WORD_LEN, text_ok};
use plain_list::{NumberList, Text, TextList};
use std::alloc::Global;
use std::marker::Brand;
use std::sync::Wait;
use std::sync::ledger::{Blank, Ledger};
use std::test::Fail;
use std::thread::{Threads, join_mut};
use step_count::Steps;
use turn_lock::Pass;

/// Whether a pass of this number may add the text.
fn is_fair(number: u64, text: &[u8]) -> bool
    ensures { IsTrue result → IsFair number text.now }
{
    if number < WORDS_FIRST {
        if text.len() > MAX_TYPE_LEN || !text_ok(text) {
            return false;
        }
        return true;
    }
    number > WORDS_FIRST && !text.is_empty() && text.len() <= MAX_WORD_LEN
}

/// The number of the text. None where it was refused, or where the pass may not add it.
fn named<R: Wait, L: Ledger>(
    pass: &mut Pass<'_, Book>,
    rt: &R,
    text: &[u8],
    turns: &mut Steps<L>,
) -> Option<Result<u32, BookRefusal>>
    requires { IsReady pass.old }
    ensures { IsStill pass.old pass.new × IsReady pass.new }
{
    if !is_fair(pass.number(), text) {
        return None;
    }
    Some(intern(pass, rt, text, turns))
}

/// Three texts, named by a worker that counts its own turns; None of one that was refused.
fn three<R: Wait, L: Ledger>(
    pass: &mut Pass<'_, Book>,
    rt: &R,
    texts: [&[u8]; 3],
    blank: Blank,
) -> [Option<u32>; 3]
    requires blank { OpensFor blank L.name L.parts }
    requires ready { IsReady pass.old }
    ensures { IsStill pass.old pass.new × IsReady pass.new }
{
    let mut turns: Steps<L> = Steps::new(blank);
    let first = named(pass, rt, texts[0], &mut turns);
    let second = named(pass, rt, texts[1], &mut turns);
    let third = named(pass, rt, texts[2], &mut turns);
    [number(first), number(second), number(third)]
}

/// The number that a text was named.
fn number(told: Option<Result<u32, BookRefusal>>) -> Option<u32> {
    match told {
        Some(Ok(number)) => Some(number),
        _ => None,
    }
}

fn worker<R: Wait>(pass: &mut Pass<'_, Book>, rt: &R, texts: [&[u8]; 3]) -> [Option<u32>; 3]
    requires { IsReady pass.old }
    ensures { IsStill pass.old pass.new × IsReady pass.new }
{
    three::<R, Brand>(pass, rt, texts, Blank::new(1))
}

fn beside<R: Threads + Wait + Sync>(
    rt: &R,
    one: &mut Pass<'_, Book>,
    two: &mut Pass<'_, Book>,
) -> ([Option<u32>; 3], [Option<u32>; 3])
    requires { IsReady one.old × IsReady two.old }
    ensures one { IsStill one.old one.new × IsReady one.new }
    ensures two { IsStill two.old two.new × IsReady two.new }
{
    join_mut(
        rt,
        &mut || -> [Option<u32>; 3]
            requires { IsReady one.now }
            ensures { IsStill one.entry.now one.exit.now × IsReady one.exit.now }
        { worker(one, rt, [b"a", b"b", b"c"]) },
        &mut || -> [Option<u32>; 3]
            requires { IsReady two.now }
            ensures { IsStill two.entry.now two.exit.now × IsReady two.exit.now }
        { worker(two, rt, [b"c", b"a", b"b"]) },
    )
}

/// What two threads were told of one book, and the book.
type Shared = (([Option<u32>; 3], [Option<u32>; 3]), Book);

fn shared<R: Threads + Wait + Sync>(rt: &R, alloc: Global) -> Option<Shared> {
    let (lock, mut maker) = SharedBook::new(alloc, Book::new(alloc, 8), 0).ok()?;
    let mut one = maker.pass(&lock);
    let mut two = maker.pass(&lock);
    let told = beside(rt, &mut one, &mut two);
    maker.join(one);
    maker.join(two);
    Some((told, lock.close(maker)))
}

/// Whether the book has these numbers for the texts.
fn has_numbers(book: &Book, texts: [&[u8]; 3], told: [Option<u32>; 3]) -> bool {
    told == [
        book.number_of(texts[0]),
        book.number_of(texts[1]),
        book.number_of(texts[2]),
    ]
}

#[test]
fn two_threads_share_one_book(rt: HostRuntime) -> Result<(), Fail> {
    let ((mine, theirs), book) = shared(&rt, rt.alloc()).ok_or("no memory")?;
    let well = has_numbers(&book, [b"a", b"b", b"c"], mine)
        && has_numbers(&book, [b"c", b"a", b"b"], theirs);
    assert!(rt; well && book.len() == 3 && mine[0].is_some());
    Ok(())
}

/// Whether a pass over a book with the limit 2 names two texts, and refuses a third alone.
fn fills<R: Wait, L: Ledger>(pass: &mut Pass<'_, Book>, rt: &R, turns: &mut Steps<L>) -> bool
    requires { IsReady pass.old }
    ensures { IsStill pass.old pass.new × IsReady pass.new }
{
    let first = named(pass, rt, b"a", turns);
    let second = named(pass, rt, b"b", turns);
    let third = named(pass, rt, b"c", turns);
    let again = named(pass, rt, b"a", turns);
    let full = Err(BookRefusal::Full { count: 2 });
    (first, second, third, again) == (Some(Ok(0)), Some(Ok(1)), Some(full), Some(Ok(0)))
}

/// The texts that the pass saves from the second on, once it has refused a third.
fn saved<R: Wait, L: Ledger>(
    pass: &mut Pass<'_, Book>,
    rt: &R,
    turns: &mut Steps<L>,
) -> Option<TextList>
    requires { IsReady pass.old }
{
    if !fills(pass, rt, turns) || !is_fair(pass.number(), b"b") {
        return None;
    }
    let from = intern(pass, rt, b"b", turns).ok()?;
    unsaved(pass, rt, from, turns).ok()
}

/// The one text that a book with the limit 2 has from the second on, once it has refused a third.
fn full<R: Wait, L: Ledger>(rt: &R, alloc: Global, blank: Blank) -> Option<TextList>
    requires { OpensFor blank L.name L.parts }
{
    let mut turns: Steps<L> = Steps::new(blank);
    let (lock, mut maker) = SharedBook::new(alloc, Book::new(alloc, 2), 0).ok()?;
    let mut pass = maker.pass(&lock);
    saved(&mut pass, rt, &mut turns)
}

/// Whether this is the text alone.
fn is_alone(texts: &TextList, text: &[u8]) -> bool {
    let [one] = texts.as_slice() else {
        return false;
    };
    one.as_slice() == text
}

#[test]
fn a_full_book_refuses_new_texts_alone(rt: HostRuntime) -> Result<(), Fail> {
    let texts = full::<_, Brand>(&rt, rt.alloc(), Blank::new(1)).ok_or("another answer")?;
    assert!(rt; is_alone(&texts, b"b"));
    Ok(())
}

/// Whether a pass of this number may add each of the texts.
fn are_fair(number: u64, texts: &TextList) -> bool
    ensures { IsTrue result → All (IsFair number) texts.now }
{
    for text in texts.as_slice() {
        if !is_fair(number, text.as_slice()) {
            return false;
        }
    }
    true
}

/// The texts of one byte each.
fn letters(alloc: Global, letters: &[u8]) -> Option<TextList> {
    let mut texts = Vec::new(alloc);
    for letter in letters {
        texts
            .push(Text::new(Vec::from_slice(alloc, &[*letter]).ok()?))
            .ok()?;
    }
    Some(TextList::new(texts))
}

/// The texts that a pass sees behind the first, once it has learned a note of the one that named it.
fn seen_by<R: Wait, L: Ledger>(
    rt: &R,
    one: &mut Pass<'_, Book>,
    two: &mut Pass<'_, Book>,
    turns: &mut Steps<L>,
) -> Option<TextList>
    requires ready { IsReady one.old × IsReady two.old }
    requires lock { lock_of one.old ≡ lock_of two.old }
{
    if !is_fair(one.number(), b"a") {
        return None;
    }
    let number = intern(one, rt, b"a", turns).ok()?;
    if number != 0 {
        return None;
    }
    let note = one.note();
    two.join(note);
    unsaved(two, rt, 1, turns).ok()
}

/// The texts that one pass of a book sees once it has learned a note of another one.
fn noted<R: Wait, L: Ledger>(rt: &R, alloc: Global, blank: Blank) -> Option<TextList>
    requires { OpensFor blank L.name L.parts }
{
    let mut turns: Steps<L> = Steps::new(blank);
    let (lock, mut maker) = SharedBook::new(alloc, Book::new(alloc, 2), 0).ok()?;
    let mut one = maker.pass(&lock);
    let mut two = maker.pass(&lock);
    seen_by(rt, &mut one, &mut two, &mut turns)
}

#[test]
fn a_joined_note_is_seen(rt: HostRuntime) -> Result<(), Fail> {
    let texts = noted::<_, Brand>(&rt, rt.alloc(), Blank::new(1)).ok_or("another answer")?;
    assert!(rt; texts.len() == 0);
    Ok(())
}

/// Whether the numbers are these.
fn are(numbers: Result<NumberList, BookRefusal>, want: &[u32]) -> bool {
    match numbers {
        Ok(numbers) => numbers.as_slice() == want,
        Err(_) => false,
    }
}

/// Whether a pass with a cache over a book with the limit 3 names these four lists as it should.
fn names_by_cache<R: Wait, L: Ledger>(
    rt: &R,
    alloc: Global,
    lists: [&TextList; 4],
    turns: &mut Steps<L>,
) -> bool {
    let [first, second, mixed, third] = lists;
    let Ok((lock, mut maker)) = SharedBook::new(alloc, Book::new(alloc, 3), 0) else {
        return false;
    };
    let pass = maker.pass(&lock);
    let number = pass.number();
    if !are_fair(number, first) || !are_fair(number, second) {
        return false;
    }
    if !are_fair(number, mixed) || !are_fair(number, third) {
        return false;
    }
    let mut pass = CachedPass::new(alloc, pass);
    let named = are(pass.name_all(rt, first, turns), &[0, 1, 0]);
    let known = are(pass.name_all(rt, second, turns), &[1]);
    let added = are(pass.name_all(rt, mixed, turns), &[0, 2, 2, 1]);
    let refused = match pass.name_all(rt, third, turns) {
        Err(BookRefusal::Full { count }) => count == 3,
        _ => false,
    };
    let held = pass.knows(b"a") == Some(0) && pass.knows(b"c") == Some(2);
    named && known && added && refused && held && pass.knows(b"d").is_none()
}

/// Whether a cache names these lists as it is to: `a`, `b` and `a`, then `b`, then new texts
/// between known ones, then `a` and `d`.
fn cached<R: Wait, L: Ledger>(rt: &R, alloc: Global, blank: Blank) -> Option<bool>
    requires { OpensFor blank L.name L.parts }
{
    let mut turns: Steps<L> = Steps::new(blank);
    let first = letters(alloc, b"aba")?;
    let second = letters(alloc, b"b")?;
    let mixed = letters(alloc, b"accb")?;
    let third = letters(alloc, b"ad")?;
    Some(names_by_cache(rt, alloc, [&first, &second, &mixed, &third], &mut turns))
}

#[test]
fn known_texts_are_numbered_by_the_cache(rt: HostRuntime) {
    let well = cached::<_, Brand>(&rt, rt.alloc(), Blank::new(1));
    assert!(rt; well == Some(true));
}
