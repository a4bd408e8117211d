//! The words in the slots of a log type.
ghost use Rattle.std.specs.Prelude.{◌≡◌, ◌<◌, ◌∷◌, ℕ, List, false, length, IfSome, OnOk, IsErrOf};
ghost use Rattle.log_seams.specs.Disk.{Rests};
ghost use Rattle.log_seams.specs.Outside.{CountsOf};
ghost use Rattle.logtype_text.specs.declared.symbols.Kind.TheVariants.{Word};
ghost use Rattle.row_codec.specs.Numbers.{kinds_from, word_numbers};
ghost use Rattle.word_places.specs.Held.{AreHeld, AreNumbered, Grow, IsHeld, RightTold, lends, places_of};
ghost use Rattle.word_places.specs.Places.{OfWords};
ghost use Rattle.word_places.specs.Reads.{ReadsOneOf, ReadsWords};
ghost use Rattle.word_places.specs.StepsHeld.{with_kind};

use crate::held::HeldRecord;
use crate::holding::hold_in;
use crate::refusal::HoldRefusal;
use log_seams::Disk;
use logtype_text::Kind;
use std::alloc::Global;

/// The kind of the slot that a byte of a log type's text is, if it is one, and whether it escapes
/// the next byte; `escaped` tells that it is escaped itself.
#[inline]
pub(crate) fn read_kind(escaped: bool, byte: u8) -> (bool, Option<Kind>)
    ensures kinds { (text : List ℕ)
        → kinds_from escaped (byte ∷ text) ≡ with_kind result.1 (kinds_from result.0 text) }
    ensures slot { IfSome result.1 (λ _. (escaped ≡ false) × (result.0 ≡ false)) }
{
    if escaped {
        return (false, None);
    }
    match byte {
        b'\\' => (true, None),
        0x11 => (false, Some(Kind::Whole)),
        0x12 => (false, Some(Kind::Word)),
        0x13 => (false, Some(Kind::Decimal)),
        _ => (false, None),
    }
}

// Reads the record of the word in a slot of this kind, where the kind has words of the dictionary.
fn hold_slot<D: Disk>(
    alloc: Global,
    records: &mut Vec<HeldRecord>,
    disk: &mut D,
    kind: Kind,
    word: u64,
) -> Result<(), HoldRefusal>
    requires { AreNumbered 0 records.old.items }

    // what stays
    ensures rests { Rests (D.state disk.old) (D.state disk.new) }
    ensures reads { ReadsOneOf (places_of records.old.items)
        (D.state disk.old) (D.state disk.new) }
    ensures numbered { AreNumbered 0 records.new.items }

    // what grows
    ensures grow { Grow records.old.items records.new.items }
    ensures right { RightTold (D.state disk.old).seen records.old.items
        → RightTold (D.state disk.old).seen records.new.items }

    // by the answer, and causes
    ensures held { OnOk result (kind ≡ Word → word < length (lends records.old.items)
        → IsHeld records.new.items word) }
    ensures damaged { IsErrOf result HoldRefusal.Damaged
        → OfWords (D.state disk.old).seen (places_of records.old.items) (λ _. ⊥) }
    ensures counts { CountsOf HoldRefusal.DiskFault
        (D.state disk.old).faults (D.state disk.new).faults result }
{
    if kind != Kind::Word {
        return Ok(());
    }
    if word > u64::from(u32::MAX) {
        return Ok(());
    }
    hold_in(alloc, records, disk, word as u32)
}

/// Reads the records of the words that stand in the slots of a log type's text.
pub(crate) fn hold_slots<D: Disk>(
    alloc: Global,
    records: &mut Vec<HeldRecord>,
    disk: &mut D,
    text: &[u8],
    words: &[u64],
) -> Result<(), HoldRefusal>
    requires { AreNumbered 0 records.old.items }

    // what stays
    ensures rests { Rests (D.state disk.old) (D.state disk.new) }
    ensures reads { ReadsWords (places_of records.old.items)
        (D.state disk.old) (D.state disk.new) }
    ensures numbered { AreNumbered 0 records.new.items }

    // what grows
    ensures grow { Grow records.old.items records.new.items }
    ensures right { RightTold (D.state disk.old).seen records.old.items
        → RightTold (D.state disk.old).seen records.new.items }

    // by the answer, and causes
    ensures held { OnOk result
        (AreHeld records.new.items (word_numbers (kinds_from false text.now) words.now)) }
    ensures damaged { IsErrOf result HoldRefusal.Damaged
        → OfWords (D.state disk.old).seen (places_of records.old.items) (λ _. ⊥) }
    ensures counts { CountsOf HoldRefusal.DiskFault
        (D.state disk.old).faults (D.state disk.new).faults result }
{
    let mut escaped = false;
    let mut left = words;
    for byte in text {
        let (next, slot) = read_kind(escaped, *byte);
        escaped = next;
        let Some(kind) = slot else {
            continue;
        };
        let [word, behind @ ..] = left else {
            return Ok(());
        };
        hold_slot(alloc, records, disk, kind, *word)?;
        left = behind;
    }
    Ok(())
}
