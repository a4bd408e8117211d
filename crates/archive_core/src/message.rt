//! Whether bytes are a message.
ghost use Rattle.std.specs.Prelude.{◌≡◌, ℕ, ◌<◌, ◌≤◌, ◌↔◌, IsTrue};
ghost use Rattle.log_messages.specs.Messages.{IsLine};
ghost use Rattle.row_codec.specs.Messages.{HasLaterStamp, IsGroup, IsMessage};
ghost use Rattle.row_codec.specs.Steps.{front_of};
ghost use Rattle.time_patterns.specs.Stamps.{HasStamp, IsStamped};

use bstr::ByteSlice;
use row_codec::MAX_MESSAGE_LEN;
use time_patterns::{Stamp, read_micro, read_stamp};

// Whether a line begins with a stamp, where moments count microseconds or milliseconds.
#[inline]
fn has_stamp(micro: bool, line: &[u8]) -> bool
    ensures { (version : ℕ) → (IsTrue micro ↔ (3 ≤ version))
        → (IsTrue result ↔ IsStamped version line.now) }
{
    if micro {
        read_micro(line).is_some()
    } else {
        read_stamp(line).is_some()
    }
}

// The pattern and the moment of a stamp, which are 0 without one.
#[derive(Clone, Copy)]
struct Mark {
    pattern: u8,
    moment: i64,
}

#[inline]
fn mark_of(stamp: Option<Stamp>) -> Mark
    ensures pattern { result.pattern ≡ (front_of stamp).pattern }
    ensures moment { result.moment ≡ (front_of stamp).moment }
{
    match stamp {
        Some(found) => Mark {
            pattern: found.pattern,
            moment: found.moment,
        },
        None => Mark {
            pattern: 0,
            moment: 0,
        },
    }
}

// Those of a message's stamp, where moments count microseconds or milliseconds.
fn mark_in(micro: bool, message: &[u8]) -> Mark
    ensures { (version : ℕ) → (IsTrue micro ↔ (3 ≤ version))
        → (n : ℕ) × HasStamp version message.now result.pattern result.moment n }
{
    if micro {
        return mark_of(read_micro(message));
    }
    mark_of(read_stamp(message))
}

// Whether these are the pattern and the moment.
fn is_mark(mark: Mark, pattern: u8, moment: i64) -> bool
    ensures { IsTrue result ↔ ((mark.pattern ≡ pattern) × (mark.moment ≡ moment)) }
{
    mark.pattern == pattern && mark.moment == moment
}

/// Whether a message has a stamp of this pattern and moment, which are 0 for a message without one.
/// `micro` tells whether moments count microseconds.
pub(crate) fn stamp_is(micro: bool, message: &[u8], pattern: u8, moment: i64) -> bool
    ensures { (version : ℕ) → (IsTrue micro ↔ (3 ≤ version))
        → IsTrue result ↔ ((n : ℕ) × HasStamp version message.now pattern moment n) }
{
    let mark = mark_in(micro, message);
    is_mark(mark, pattern, moment)
}

// Whether a line behind a newline of the message has a stamp.
fn has_later_stamp(micro: bool, message: &[u8]) -> bool
    ensures { (version : ℕ) → (IsTrue micro ↔ (3 ≤ version))
        → (IsTrue result ↔ HasLaterStamp version message.now) }
{
    let mut lines = message.split_str(b"\n");
    let _first = lines.next();
    for line in lines {
        if has_stamp(micro, line) {
            return true;
        }
    }
    false
}

// Whether the bytes are one line: no newline is among them.
fn is_line(bytes: &[u8]) -> bool
    ensures { IsTrue result ↔ IsLine bytes.now }
{
    bytes.find_byte(b'\n').is_none()
}

// Whether an archive of this version has messages of several lines, and the bytes are one: a line with a
// stamp, and lines without one behind it.
fn is_group(version: u32, bytes: &[u8]) -> bool
    ensures { IsTrue result ↔ ((1 < version) × IsGroup version bytes.now) }
{
    if version < 2 {
        return false;
    }
    let micro = version >= 3;
    if !has_stamp(micro, bytes) {
        return false;
    }
    !has_later_stamp(micro, bytes)
}

/// Whether the bytes are a message of an archive of this version: a line, or from version 2 on a line
/// with a stamp and lines without one behind it.
pub fn is_message(version: u32, bytes: &[u8]) -> bool
    ensures { IsTrue result ↔ IsMessage version bytes.now }
{
    if bytes.len() > MAX_MESSAGE_LEN {
        return false;
    }
    if is_line(bytes) {
        return true;
    }
    is_group(version, bytes)
}
