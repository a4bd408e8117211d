//! The records of types and of words: texts that a dictionary has numbered one after the other.

ghost use Rattle.std.specs.Prelude.{◌≡◌, ◌≢◌, ◌<◌, ◌++◌, ◌^◌, ℕ, List, length, IfSome, IsNone, IfOk, IsErrOf};
ghost use Rattle.record_format.specs.Lists.{four_bytes, texts_payload, AreTexts};

use crate::list::{list_of, number_at, put_list, put_number, room_for};
use crate::refusal::FormatRefusal;
use plain_list::{Text, TextList};
use std::alloc::{AllocError, Global};

/// What a record of types or of words holds.
#[derive(Debug, Drop)]
pub struct Texts {
    /// The number of the first text.
    pub first: u32,
    /// The texts, in the order of their numbers.
    pub texts: TextList,
}

/// What stands before the texts of a record of types or of words, and the bytes behind it.
#[derive(Clone, Copy, Debug)]
pub struct TextsFront<'p> {
    /// The number of the first text.
    pub first: u32,
    /// How many texts there are to be.
    pub count: u32,
    /// The bytes of the texts, one after the other: [`next_text`](crate::next_text) walks them.
    pub rest: &'p [u8],
}

/// The front of the payload of a record of types or of words. A walk of `count` steps by
/// [`next_text`](crate::next_text) that leaves no bytes gives the texts. The payload spells none
/// where a step gives `None`, or bytes are left. Takes no memory.
pub fn texts_front(payload: &[u8]) -> Option<TextsFront<'_>>
    ensures first { IfSome result (λ front. front.first < 2 ^ 32) }
    ensures count { IfSome result (λ front. front.count < 2 ^ 32) }
    ensures some { IfSome result (λ front. payload.now
        ≡ four_bytes front.first ++ (four_bytes front.count ++ front.rest.now)) }
    ensures none { IsNone result → length payload.now < 8 }
{
    let (first, rest) = number_at(payload)?;
    let (count, rest) = number_at(rest)?;
    Some(TextsFront { first, count, rest })
}

/// The payload of a record of types or of words: the number of the first text, the count of
/// texts, and for each text its length and its bytes. Numbers have four bytes, the lowest first.
/// It takes one allocation.
pub fn write_texts(alloc: Global, first: u32, texts: &TextList) -> Result<Text, AllocError>
    requires { AreTexts texts.now }
    ensures { IfOk result (λ payload. payload ≡ texts_payload first texts.now) }
{
    let room = room_for(texts.as_slice()).saturating_add(4);
    let mut out = Vec::with_capacity(alloc, room)?;
    put_number(&mut out, first)?;
    put_list(&mut out, texts.as_slice())?;
    Ok(Text::new(out))
}

/// What the payload of a record of types or of words spells. `Malformed` comes exactly where it
/// spells nothing, unless memory runs out before that is known.
pub fn read_texts(alloc: Global, payload: &[u8]) -> Result<Texts, FormatRefusal>
    ensures first { IfOk result (λ read. read.first < 2 ^ 32) }
    ensures fits { IfOk result (λ read. AreTexts read.texts) }
    ensures spelled { IfOk result (λ read. payload.now ≡ texts_payload read.first read.texts) }
    ensures malformed { IsErrOf result FormatRefusal.Malformed
        → (first : ℕ) (texts : List (List ℕ))
        → first < 2 ^ 32 → AreTexts texts → payload.now ≢ texts_payload first texts }
{
    let Some((first, rest)) = number_at(payload) else {
        return Err(FormatRefusal::Malformed);
    };
    let texts = list_of(alloc, rest)?;
    Ok(Texts { first, texts })
}
