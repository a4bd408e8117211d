//! Whether a row is the encoding of a message.
ghost use Rattle.std.specs.Prelude.{◌≡◌, ◌↔◌, ◌++◌, ℕ, List, length, IsTrue};
ghost use Rattle.column_store.specs.Row.{row_of};
ghost use Rattle.time_patterns.specs.Stamps.{HasStamp};
ghost use Rattle.row_codec.specs.Means.{HasStampText, IsEncoding};
ghost use Rattle.row_codec.specs.StepsBody.{HasBody, HasStampWriting, IsBody};

use crate::Names;
use crate::cutting::body_is_cut;
use crate::encoder::{Front, read_front};
use crate::fitting::stamp_fits;
use crate::opening::{OPENING_LEN, fill_body, open_with_stamp};
use column_store::RowRef;

/// Whether a row is the encoding of a message: its numbers have texts, its words fit the slots of
/// its log type, the parts that it stands for are those of the body that they join to, and its stamp
/// is the message's. Takes no memory.
pub fn row_ok<N: Names>(row: RowRef<'_>, names: &N) -> bool
    ensures { IsTrue result ↔ IsEncoding (N.version names.now) (row_of row.entry)
        (N.types names.now) (N.words names.now) }
{
    let Some(text) = names.type_text(row.log_type) else {
        return false;
    };
    if !stamp_fits(row.pattern, row.moment) {
        return false;
    }
    if !body_is_cut(text, row.words, names) {
        return false;
    }
    stamp_is(row.pattern, row.moment, text, row.words, names)
}

// Whether the stamp of what a row is written as is the row's.
fn stamp_is<N: Names>(pattern: u8, moment: i64, text: &[u8], words: &[u64], names: &N) -> bool
    requires stamp { HasStampWriting pattern moment }
    requires body { HasBody (N.words names.now) text.now words.now }
    ensures { (stamp body : List ℕ) → HasStampText pattern moment stamp
        → IsBody (N.words names.now) text.now words.now body
        → (IsTrue result
        ↔ HasStamp (N.version names.now) (stamp ++ body) pattern moment (length stamp)) }
{
    let mut opening = [0; OPENING_LEN];
    let len = open_with_stamp(pattern, moment, &mut opening);
    let end = fill_body(text, words, names, &mut opening, len);
    let front = read_front(names.micro(), &opening[..end]);
    is_front(front, pattern, moment, len)
}

// Whether a front has this pattern, moment and length.
fn is_front(front: Front, pattern: u8, moment: i64, len: usize) -> bool
    ensures { IsTrue result
        ↔ ((front.pattern ≡ pattern) × (front.moment ≡ moment) × (front.len ≡ len)) }
{
    front.pattern == pattern && front.moment == moment && front.len == len
}
