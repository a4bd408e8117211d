//! The record of files: the names of the files that an archive takes in together.

ghost use Rattle.std.specs.Prelude.{◌≡◌, ◌≢◌, ℕ, List, IfOk, IsErrOf};
ghost use Rattle.record_format.specs.Lists.{files_payload, AreTexts};

use crate::list::{list_of, put_list, room_for};
use crate::refusal::FormatRefusal;
use plain_list::{Text, TextList};
use std::alloc::{AllocError, Global};

/// The payload of a record of files: the count of names, and for each name its length and its
/// bytes. Count and lengths have four bytes, the lowest first. It takes one allocation.
pub fn write_files(alloc: Global, names: &TextList) -> Result<Text, AllocError>
    requires { AreTexts names.now }
    ensures { IfOk result (λ payload. payload ≡ files_payload names.now) }
{
    let mut out = Vec::with_capacity(alloc, room_for(names.as_slice()))?;
    put_list(&mut out, names.as_slice())?;
    Ok(Text::new(out))
}

/// The names that the payload of a record of files spells. `Malformed` comes exactly where it
/// spells none, unless memory runs out before that is known.
pub fn read_files(alloc: Global, payload: &[u8]) -> Result<TextList, FormatRefusal>
    ensures fits { IfOk result (λ names. AreTexts names) }
    ensures spelled { IfOk result (λ names. payload.now ≡ files_payload names) }
    ensures malformed { IsErrOf result FormatRefusal.Malformed
        → (names : List (List ℕ)) → AreTexts names → payload.now ≢ files_payload names }
{
    list_of(alloc, payload)
}
