//! The slots of log types, without the constant bytes between them.
ghost use Rattle.std.specs.Prelude.{◌≡◌, [], false, IfOk, OnOk, slice_index_or};
ghost use Rattle.row_codec.specs.Numbers.{kinds_from};
ghost use Rattle.word_places.specs.StepsHeld.{HaveSlots};

use crate::slots::read_kind;
use crate::types::TypeTexts;
use dict_core::Texts;
use std::alloc::{AllocError, Global};

/// What tells the slots of a log type: their bytes, where these are kept, or else its whole text,
/// which is empty where there is none.
#[inline]
pub(crate) fn slots_at<'t>(slots: &'t Texts, types: &'t TypeTexts, number: u32) -> &'t [u8]
    requires { HaveSlots types.now.texts slots.now }
    ensures { kinds_from false result.now
        ≡ kinds_from false (slice_index_or types.now.texts number []) }
{
    if let Some(kept) = slots.text_of(number) {
        return kept;
    }
    match types.text_of(number) {
        Some(text) => text,
        None => &[],
    }
}

// The bytes of a log type's text that stand for its slots, put into a buffer that is empty.
fn push_slots(text: &[u8], slots: &mut Vec<u8>) -> Result<(), AllocError>
    requires { slots.old.items ≡ [] }
    ensures { OnOk result (kinds_from false slots.new.items ≡ kinds_from false text.now) }
{
    let mut escaped = false;
    for byte in text {
        let (next, slot) = read_kind(escaped, *byte);
        escaped = next;
        let Some(_kind) = slot else {
            continue;
        };
        slots.push(*byte)?;
    }
    Ok(())
}

/// Of each of the first log types, so many at most, the bytes that stand for its slots: what tells
/// which numbers of a row are words, in a few bytes for each.
pub(crate) fn slots_of(alloc: Global, types: &TypeTexts, most: u16) -> Result<Texts, AllocError>
    ensures { IfOk result (λ slots. HaveSlots types.now.texts slots) }
{
    let mut all = Texts::new(alloc);
    let mut slots = Vec::new(alloc);
    for number in 0..u32::from(most) {
        let Some(text) = types.text_of(number) else {
            return Ok(all);
        };
        slots.clear();
        push_slots(text, &mut slots)?;
        all.push(slots.as_slice())?;
    }
    Ok(all)
}
