//! Texts in one buffer, without an index.
ghost use Rattle.std.specs.Prelude.{◌≡◌, ◌≢◌, ℕ, ◌-◌, ◌<◌, ◌≤◌, [], ◌∷◌, ◌++◌, take, drop, length, slice_get, Some, IfSome, IfNone, IfOk, OnOk, OnErr};
ghost use Rattle.plain_list.specs.Texts.{IsNew};
ghost use Rattle.dict_core.specs.Buffer.{start_at, text_at, Rise};

use crate::search::first;
use plain_list::{Text, TextList};
use std::alloc::{AllocError, Global};
use std::marker::Model;

/// The most texts that a list may have, which is the greatest limit of a book.
pub const MAX_TEXTS: u32 = 2_147_483_648;

/// The place in the buffer where a text begins.
pub(crate) fn start_of(ends: &[usize], number: usize) -> usize
    requires { number ≤ length ends.now }
    ensures { result ≡ start_at ends.now number }
{
    if number == 0 { 0 } else { ends[number - 1] }
}

/// The bytes of a text.
fn cut<'b>(bytes: &'b [u8], ends: &[usize], number: usize) -> &'b [u8]
    requires rise { Rise 0 ends.now (length bytes.now) }
    requires within { number < length ends.now }
    ensures { result.now ≡ text_at bytes.now ends.now number }
{
    let start = start_of(ends, number);
    let end = ends[number];
    &bytes[start..end]
}

/// A list of texts in one buffer, for reading: it has no index, and a text may stand in it twice.
///
/// A text costs its bytes and eight more. Contracts see a list of lists of bytes.
#[derive(Debug, Drop)]
pub struct Texts {
    bytes: Vec<u8>,
    ends: Vec<usize>,
}

impl Model for Texts {
    ghost use Rattle.std.specs.Prelude.{List, ℕ, length, ◌≤◌};

    ghost Value = { List (List ℕ) };

    ghost use Rattle.dict_core.specs.Buffer.{texts_from, Rise};
    ghost use Rattle.dict_core.specs.declared.texts.TheConstants.{MAX_TEXTS};

    ghost view = { λ t. texts_from t.bytes.items 0 t.ends.items };

    ghost invariant = { λ t. Rise 0 t.ends.items (length t.bytes.items)
        × (length t.ends.items ≤ MAX_TEXTS) };
}

impl Texts {
    /// No texts. Takes no memory.
    pub fn new(alloc: Global) -> Texts
        ensures { result ≡ [] }
    {
        Texts {
            bytes: Vec::new(alloc),
            ends: Vec::new(alloc),
        }
    }

    /// Adds a text at the end.
    pub fn push(&mut self, text: &[u8]) -> Result<(), AllocError>
        requires room { length self.old < MAX_TEXTS }
        ensures ok { OnOk result (self.new ≡ self.old ++ text.now ∷ []) }
        ensures err { OnErr result (self.new ≡ self.old) }
    {
        self.ends.reserve(1)?;
        self.bytes.extend_from_slice(text)?;
        self.ends.push_reserved(self.bytes.len());
        Ok(())
    }

    /// Takes the last text away. Takes no memory.
    pub(crate) fn pop(&mut self)
        requires { 0 < length self.old }
        ensures { self.new ≡ take (length self.old - 1) self.old }
    {
        self.ends.truncate(self.ends.len() - 1);
        self.bytes
            .truncate(start_of(self.ends.as_slice(), self.ends.len()));
    }

    /// The count of texts.
    pub fn len(&self) -> u32
        ensures count { result ≡ length self.now }
        ensures most { result ≤ MAX_TEXTS }
    {
        self.ends.len() as u32
    }

    /// The text at this number.
    pub(crate) fn at(&self, number: u32) -> &[u8]
        requires { number < length self.now }
        ensures { slice_get self.now number ≡ Some result.now }
    {
        cut(self.bytes.as_slice(), self.ends.as_slice(), number as usize)
    }

    /// The text at this number, or `None` past the last one. Takes no memory.
    pub fn text_of(&self, number: u32) -> Option<&[u8]>
        ensures some { IfSome result (λ text. slice_get self.now number ≡ Some text.now) }
        ensures none { IfNone result (length self.now ≤ number) }
    {
        if number >= self.len() {
            return None;
        }
        Some(self.at(number))
    }

    /// The number of the first text with these bytes, or `None` where there is none. It is found by
    /// one pass over the buffer, and takes no memory.
    pub fn number_of(&self, text: &[u8]) -> Option<u32>
        ensures some { IfSome result (λ n. slice_get self.now n ≡ Some text.now) }
        ensures first { IfSome result
            (λ n. (k : ℕ) → k < n → slice_get self.now k ≢ Some text.now) }
        ensures none { IfNone result (IsNew self.now text.now) }
    {
        let number = first(self.bytes.as_slice(), self.ends.as_slice(), text)?;
        Some(number as u32)
    }

    /// The texts from this number on.
    pub fn copy_from(&self, alloc: Global, number: u32) -> Result<TextList, AllocError>
        requires { number ≤ length self.now }
        ensures { IfOk result (λ texts. texts ≡ drop number self.now) }
    {
        let count = self.len();
        let mut texts = Vec::with_capacity(alloc, (count - number) as usize)?;
        for next in number..count {
            let text = Vec::from_slice(alloc, self.at(next))?;
            texts.push(Text::new(text))?;
        }
        Ok(TextList::new(texts))
    }
}
