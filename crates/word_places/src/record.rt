//! The words of one record in memory.
ghost use Rattle.std.specs.Prelude.{◌≡◌, ◌≢◌, ◌<◌, ◌≤◌, ◌↔◌, ◌+◌, ◌++◌, List, ℕ, All, IsTrue, length, map, IfOk, IfSome, IfNone, MatchOption, slice_get, slice_index_or, Some};
ghost use Rattle.plain_list.specs.Texts.{IsNew};
ghost use Rattle.record_format.specs.Lists.{AreTexts, four_bytes, list_bytes};
ghost use Rattle.word_places.specs.Places.{Spells};
ghost use Rattle.word_places.specs.Record.{AreBeside, AreWalked, IsTextAt, text_from};

use crate::place::WordsPlace;
use record_format::next_text;
use std::alloc::{AllocError, Global};
use std::marker::Model;

/// How many bytes the length of a text takes.
const LEN_SIZE: usize = 4;

/// The words of one record: its payload as it was read, and where the length of each word stands in
/// it. Contracts see the list of the words.
#[derive(Debug, Drop)]
pub struct RecordWords {
    bytes: Vec<u8>,
    starts: Vec<u32>,
}

impl Model for RecordWords {
    ghost use Rattle.std.specs.Prelude.{List, ℕ, All, length, map};
    ghost use Rattle.word_places.specs.Record.{AreBeside, IsTextAt, text_from};

    ghost Value = { List (List ℕ) };

    ghost view = { λ r. map (text_from r.bytes.items) r.starts.items };

    ghost invariant = { λ r. All (IsTextAt r.bytes.items) r.starts.items
        × AreBeside r.bytes.items (length r.bytes.items) r.starts.items };
}

impl RecordWords {
    /// The words that a payload spells, which is kept as it is; `None` exactly where it spells none
    /// with the numbers of its place. A payload of 4 GiB or more is not kept, for want of memory.
    pub fn read(
        alloc: Global,
        place: WordsPlace,
        bytes: Vec<u8>,
    ) -> Result<Option<RecordWords>, AllocError>
        requires { length bytes.items ≡ place.length }
        ensures some { IfOk result (λ read.
            IfSome read (λ words. Spells place bytes.items words)) }
        ensures none { IfOk result (λ read. IfNone read
            ((texts : List (List ℕ)) → ¬ Spells place bytes.items texts)) }
    {
        let Some(starts) = starts_in(alloc, place, bytes.as_slice())? else {
            return Ok(None);
        };
        Ok(Some(RecordWords { bytes, starts }))
    }

    /// The word at a place of the record, or `None` past the last one. Takes no memory.
    pub fn text_of(&self, at: usize) -> Option<&[u8]>
        ensures { MatchOption result (length self.now ≤ at)
            (λ text. slice_get self.now at ≡ Some text.now) }
    {
        text_in(self.bytes.as_slice(), self.starts.as_slice(), at)
    }

    /// A place in the record where the word with this text stands, or `None` where there is none.
    /// Takes no memory.
    pub fn place_of(&self, text: &[u8]) -> Option<usize>
        ensures { MatchOption result (IsNew self.now text.now)
            (λ at. slice_get self.now at ≡ Some text.now) }
    {
        place_in(self.bytes.as_slice(), self.starts.as_slice(), text)
    }
}

// Where a text ends: where the length of the next one stands, or where all bytes end.
fn end_of(starts: &[u32], at: usize, all: usize) -> usize
    requires { at < length starts.now }
    ensures { result ≡ slice_index_or starts.now (at + 1) all }
{
    match starts.get(at + 1) {
        Some(next) => *next as usize,
        None => all,
    }
}

// The text at a start. Its end is told without a look at its length, which stands before it.
fn text_in<'b>(bytes: &'b [u8], starts: &[u32], at: usize) -> Option<&'b [u8]>
    requires starts { All (IsTextAt bytes.now) starts.now }
    requires beside { AreBeside bytes.now (length bytes.now) starts.now }
    ensures { MatchOption result (length starts.now ≤ at)
        (λ text. slice_get (map (text_from bytes.now) starts.now) at ≡ Some text.now) }
{
    if at >= starts.len() {
        return None;
    }
    let start = starts[at] as usize + LEN_SIZE;
    let end = end_of(starts, at, bytes.len());
    Some(&bytes[start..end])
}

// The place of a start where this text stands.
fn place_in(bytes: &[u8], starts: &[u32], text: &[u8]) -> Option<usize>
    requires starts { All (IsTextAt bytes.now) starts.now }
    requires beside { AreBeside bytes.now (length bytes.now) starts.now }
    ensures { MatchOption result (IsNew (map (text_from bytes.now) starts.now) text.now)
        (λ at. slice_get (map (text_from bytes.now) starts.now) at ≡ Some text.now) }
{
    for at in 0..starts.len() {
        if is_at(bytes, starts, at, text) {
            return Some(at);
        }
    }
    None
}

// Whether this text stands at a start.
fn is_at(bytes: &[u8], starts: &[u32], at: usize, text: &[u8]) -> bool
    requires starts { All (IsTextAt bytes.now) starts.now }
    requires beside { AreBeside bytes.now (length bytes.now) starts.now }
    ensures { IsTrue result
        ↔ (slice_get (map (text_from bytes.now) starts.now) at ≡ Some text.now) }
{
    match text_in(bytes, starts, at) {
        Some(found) => found == text,
        None => false,
    }
}

// Where the length of each text stands in a payload, where it spells texts with the numbers of its
// place.
fn starts_in(alloc: Global, place: WordsPlace, bytes: &[u8]) -> Result<Option<Vec<u32>>, AllocError>
    requires { length bytes.now ≡ place.length }
    ensures starts { IfOk result (λ read. IfSome read (λ starts.
        All (IsTextAt bytes.now) starts.items)) }
    ensures beside { IfOk result (λ read. IfSome read (λ starts.
        AreBeside bytes.now (length bytes.now) starts.items)) }
    ensures some { IfOk result (λ read. IfSome read (λ starts.
        Spells place bytes.now (map (text_from bytes.now) starts.items))) }
    ensures none { IfOk result (λ read. IfNone read
        ((texts : List (List ℕ)) → ¬ Spells place bytes.now texts)) }
{
    let Some(texts) = place.texts_in(bytes) else {
        return Ok(None);
    };
    walked(alloc, place.count, texts, bytes)
}

// Where the length of each of so many texts stands in a payload, where its rest is those and no
// more.
fn walked(
    alloc: Global,
    count: u32,
    texts: &[u8],
    bytes: &[u8],
) -> Result<Option<Vec<u32>>, AllocError>
    requires { (front : List ℕ) × (bytes.now ≡ front ++ texts.now) }
    ensures some { IfOk result (λ read. IfSome read (λ starts.
        AreWalked count texts.now bytes.now starts.items)) }
    ensures none { IfOk result (λ read. IfNone read ((all : List (List ℕ)) → AreTexts all
        → four_bytes count ++ texts.now ≢ list_bytes all)) }
{
    if bytes.len() > u32::MAX as usize {
        return Err(AllocError);
    }
    // Each text has a length of four bytes, so room is taken for no more texts than can be there.
    if texts.len() / LEN_SIZE < count as usize {
        return Ok(None);
    }
    let mut starts = Vec::with_capacity(alloc, count as usize)?;
    let mut rest = texts;
    for _ in 0..count {
        let Some((_text, after)) = next_text(rest) else {
            return Ok(None);
        };
        starts.push_reserved((bytes.len() - rest.len()) as u32);
        rest = after;
    }
    if !rest.is_empty() {
        return Ok(None);
    }
    Ok(Some(starts))
}
