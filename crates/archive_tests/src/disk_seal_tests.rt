//! Names in two books.
ghost use Rattle.std.specs.Prelude.{◌≡◌, ◌+◌, ◌<◌, IsTrue};
ghost use Rattle.step_count.specs.Opens.{OpensFor};
ghost use Rattle.logtype_text.specs.Fair.{IsFairType};
ghost use Rattle.turn_lock.specs.Words.{id_of, lock_by, made_by, IsReady};

use dict_core::{Book, WORDS_FIRST};
use dict_lock::SharedBook;
use disk_seal::{LockNamer, Turns};
use logtype_text::{MAX_TYPE_LEN, text_ok};
use row_codec::{NameRefusal, Namer, Which};
use std::alloc::Global;
use std::marker::Brand;
use std::sync::Wait;
use std::sync::ledger::{Blank, Ledger};
use std::test::Fail;
use step_count::Steps;
use turn_lock::{Maker, Pass};

/// Whether the text may be a log type.
fn fair_type(text: &[u8]) -> bool
    ensures { IsTrue result → IsFairType text.now }
{
    if text.len() > MAX_TYPE_LEN || !text_ok(text) {
        return false;
    }
    true
}

/// The number of a text. None where it was refused, or where it may not be a log type.
fn number<N: Namer>(namer: &mut N, text: &[u8]) -> Option<Result<u32, NameRefusal>> {
    if !fair_type(text) {
        return None;
    }
    Some(namer.name_type(text))
}

/// Whether a namer over a book of one log type names it, names it again, and refuses another.
fn names_one<N: Namer>(namer: &mut N) -> Option<bool> {
    let one = number(namer, b"a")?;
    let again = number(namer, b"a")?;
    let other = number(namer, b"b")?;
    let full = NameRefusal::Full {
        book: Which::Types,
        count: 1,
    };
    Some(namer.micro() && (one, again, other) == (Ok(0), Ok(0), Err(full)))
}

/// Counters that stand at 0.
fn zeros<A: Ledger, B: Ledger, C: Ledger>(a: Blank, b: Blank, c: Blank) -> Turns<A, B, C>
    requires first { OpensFor a A.name A.parts }
    requires second { OpensFor b B.name B.parts }
    requires third { OpensFor c C.name C.parts }
{
    Turns {
        types: Steps::new(a),
        words: Steps::new(b),
        store: Steps::new(c),
    }
}

/// The maker's next pass.
fn next_pass<'l>(maker: &mut Maker<Book>, lock: &'l SharedBook) -> Pass<'l, Book>
    requires lock { lock_by maker.old ≡ id_of lock.now }
    requires room { made_by maker.old < 4294967296 }
    ensures lock { lock_by maker.new ≡ lock_by maker.old }
    ensures made { made_by maker.new ≡ made_by maker.old + 1 }
    ensures ready { IsReady result }
{
    maker.pass(lock)
}

/// What a namer over the two passes answers; None where they may not add to their books.
fn named<R: Wait, A: Ledger, B: Ledger, C: Ledger>(
    rt: &R,
    alloc: Global,
    types: Pass<'_, Book>,
    words: Pass<'_, Book>,
    turns: Turns<A, B, C>,
) -> Option<bool>
    requires { IsReady types × IsReady words }
{
    if types.number() >= WORDS_FIRST || words.number() <= WORDS_FIRST {
        return None;
    }
    let mut namer = LockNamer::new(rt, alloc, 3, types, words, turns);
    names_one(&mut namer)
}

/// What a namer over the passes of two books of one text each answers.
fn named_in_two_books<R: Wait, A: Ledger, B: Ledger, C: Ledger>(
    rt: &R,
    alloc: Global,
    a: Blank,
    b: Blank,
    c: Blank,
) -> Option<bool>
    requires first { OpensFor a A.name A.parts }
    requires second { OpensFor b B.name B.parts }
    requires third { OpensFor c C.name C.parts }
{
    let turns: Turns<A, B, C> = zeros(a, b, c);
    let (first, mut types) = SharedBook::new(alloc, Book::new(alloc, 1), 0).ok()?;
    let (second, mut words) = SharedBook::new(alloc, Book::new(alloc, 1), WORDS_FIRST).ok()?;
    let _reader = next_pass(&mut words, &second);
    let types = next_pass(&mut types, &first);
    let words = next_pass(&mut words, &second);
    named(rt, alloc, types, words, turns)
}

#[test]
fn a_namer_names_texts_of_two_books(rt: HostRuntime) -> Result<(), Fail> {
    let answer = named_in_two_books::<_, Brand, Brand, Brand>(
        &rt,
        rt.alloc(),
        Blank::new(1),
        Blank::new(1),
        Blank::new(1),
    );
    assert_eq!(rt; answer, Some(true));
    Ok(())
}
