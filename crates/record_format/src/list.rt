//! A list of texts: its count, and then for each text its length and its bytes.

ghost use Rattle.std.specs.Prelude.{◌≡◌, ◌≢◌, ◌<◌, ◌++◌, ◌^◌, ℕ, List, length, min, IfSome, IsNone, IfOk, OnOk, IsErrOf};
ghost use Rattle.record_format.specs.Lists.{four_bytes, text_bytes, list_bytes, AreTexts};

use crate::refusal::FormatRefusal;
use byteorder::{ByteOrder, LittleEndian};
use plain_list::{Text, TextList};
use std::alloc::{AllocError, Global};

/// Adds a number of four bytes, the lowest first.
pub fn put_number(out: &mut Vec<u8>, number: u32) -> Result<(), AllocError>
    ensures { OnOk result (out.new.items ≡ out.old.items ++ four_bytes number) }
{
    let mut bytes = [0; 4];
    LittleEndian::write_u32(&mut bytes, number);
    out.extend_from_slice(&bytes)
}

/// The number in the first four bytes, and the bytes after it.
pub fn number_at(bytes: &[u8]) -> Option<(u32, &[u8])>
    ensures fits { IfSome result (λ x. x.0 < 2 ^ 32) }
    ensures some { IfSome result (λ x. bytes.now ≡ four_bytes x.0 ++ x.1.now) }
    ensures none { IsNone result → length bytes.now < 4 }
{
    if bytes.len() < 4 {
        return None;
    }
    let (front, rest) = bytes.split_at(4);
    Some((LittleEndian::read_u32(front), rest))
}

/// The text that the bytes begin with, and the bytes after it: the next step of a walk along the
/// texts of a payload. `None` where no text stands in front, whatever follows it. Takes no memory.
pub fn next_text(bytes: &[u8]) -> Option<(&[u8], &[u8])>
    ensures fits { IfSome result (λ x. length x.0.now < 2 ^ 32) }
    ensures some { IfSome result (λ x. bytes.now ≡ text_bytes x.0.now ++ x.1.now) }
    ensures none { IsNone result → (t rest : List ℕ) → length t < 2 ^ 32
        → bytes.now ≢ text_bytes t ++ rest }
{
    let (len, rest) = number_at(bytes)?;
    if rest.len() < len as usize {
        return None;
    }
    Some(rest.split_at(len as usize))
}

/// How many bytes a list of these texts takes in a record, or the greatest number where they are more
/// than can be.
pub fn room_for(texts: &[Text]) -> usize
    ensures { result ≡ min (length (list_bytes texts.now)) usize.MAX }
{
    let mut room: usize = 4;
    for text in texts {
        room = room.saturating_add(4).saturating_add(text.as_slice().len());
    }
    room
}

/// Adds the list.
pub fn put_list(out: &mut Vec<u8>, texts: &[Text]) -> Result<(), AllocError>
    requires { AreTexts texts.now }
    ensures { OnOk result (out.new.items ≡ out.old.items ++ list_bytes texts.now) }
{
    put_number(out, texts.len() as u32)?;
    for text in texts {
        let bytes = text.as_slice();
        put_number(out, bytes.len() as u32)?;
        out.extend_from_slice(bytes)?;
    }
    Ok(())
}

/// The list that the bytes spell, all of the bytes.
pub fn list_of(alloc: Global, bytes: &[u8]) -> Result<TextList, FormatRefusal>
    ensures fits { IfOk result (λ texts. AreTexts texts) }
    ensures spelled { IfOk result (λ texts. bytes.now ≡ list_bytes texts) }
    ensures malformed { IsErrOf result FormatRefusal.Malformed
        → (texts : List (List ℕ)) → AreTexts texts → bytes.now ≢ list_bytes texts }
{
    let Some((count, mut rest)) = number_at(bytes) else {
        return Err(FormatRefusal::Malformed);
    };
    // Each text has a length of four bytes, so room is taken for no more texts than can be there.
    if rest.len() / 4 < count as usize {
        return Err(FormatRefusal::Malformed);
    }
    let mut texts = Vec::with_capacity(alloc, count as usize)?;
    for _ in 0..count {
        let Some((text, after)) = next_text(rest) else {
            return Err(FormatRefusal::Malformed);
        };
        texts.push_reserved(Text::new(Vec::from_slice(alloc, text)?));
        rest = after;
    }
    if !rest.is_empty() {
        return Err(FormatRefusal::Malformed);
    }
    Ok(TextList::new(texts))
}
