//! The slots of log types.
ghost use Rattle.std.specs.Prelude.{◌≡◌, ◌∷◌, ℕ, List, IfOk};
ghost use Rattle.archive_core.specs.Slots.{slots_from, slots_of, with_slot};

use logtype_text::Kind;
use std::alloc::{AllocError, Global};

/// A slot of a log type.
#[derive(Clone, Copy, Debug)]
pub(crate) struct Slot {
    /// How the variable there is coded.
    pub(crate) kind: Kind,
    /// The constant byte directly before it, if one stands there.
    pub(crate) prev: Option<u8>,
}

// A place in the text of a log type.
#[derive(Clone, Copy)]
struct Place {
    // The constant byte directly before it.
    prev: Option<u8>,
    // Whether a `\` stands before it that belongs to the byte there.
    escaped: bool,
}

// The place behind a byte, and the slot that it is, if it is one.
#[inline]
fn pass_byte(at: Place, byte: u8) -> (Place, Option<Slot>)
    ensures { (text : List ℕ) → slots_from at.prev at.escaped (byte ∷ text)
        ≡ with_slot result.1 (slots_from result.0.prev result.0.escaped text) }
{
    let constant = Place {
        prev: Some(byte),
        escaped: false,
    };
    if at.escaped {
        return (constant, None);
    }
    let kind = match byte {
        b'\\' => {
            return (
                Place {
                    prev: at.prev,
                    escaped: true,
                },
                None,
            );
        }
        0x11 => Kind::Whole,
        0x12 => Kind::Word,
        0x13 => Kind::Decimal,
        _ => return (constant, None),
    };
    let behind = Place {
        prev: None,
        escaped: false,
    };
    (
        behind,
        Some(Slot {
            kind,
            prev: at.prev,
        }),
    )
}

/// The slots of a log type's text, from left to right.
pub(crate) fn slots_of(alloc: Global, text: &[u8]) -> Result<Vec<Slot>, AllocError>
    ensures { IfOk result (λ slots. slots.items ≡ slots_of text.now) }
{
    let mut slots = Vec::new(alloc);
    let mut at = Place {
        prev: None,
        escaped: false,
    };
    for byte in text {
        let (behind, found) = pass_byte(at, *byte);
        at = behind;
        if let Some(slot) = found {
            slots.push(slot)?;
        }
    }
    Ok(slots)
}
