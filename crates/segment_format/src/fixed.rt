//! The fixed part of a segment's head.

ghost use Rattle.std.specs.Prelude.{◌≡◌, ◌≢◌, ◌≤◌, ◌++◌, Bool, length, take, IsTrue, IfSome, IsNone, OnOk};
ghost use Rattle.segment_format.specs.Layout.{IsFixed, fixed_bytes, flags, head_length};

use crate::numbers::{put_long, put_moment, put_number};
use byteorder::{ByteOrder, LittleEndian};
use std::alloc::AllocError;

/// How many bytes the fixed part of a head has.
pub const FIXED_LEN: usize = 45;

/// What stands in a head before its two lists.
#[derive(Clone, Copy, Debug, PartialEq, Eq)]
pub struct Fixed {
    /// The number of the segment's file.
    pub file: u32,
    /// The place of the first message in its file, from 0.
    pub first: u64,
    /// How many rows there are.
    pub rows: u32,
    /// Whether this is the last segment of its file.
    pub last: bool,
    /// Whether the file's last line had its newline.
    pub ended: bool,
    /// Whether some row has a stamp.
    pub stamped: bool,
    /// The least moment.
    pub least: i64,
    /// The greatest moment.
    pub greatest: i64,
    /// How many log types the head lists.
    pub types: u32,
    /// How many dictionary words the head lists.
    pub words: u32,
    /// How many variables all rows have.
    pub variables: u32,
}

/// The three flags of a byte, and none where another bit is set.
fn flags_in(byte: u8) -> Option<(bool, bool, bool)>
    ensures some { IfSome result (λ x. byte ≡ flags x.0 x.1 x.2) }
    ensures none { IsNone result → (last ended stamped : Bool) → byte ≢ flags last ended stamped }
{
    if byte >= 8 {
        return None;
    }
    Some((byte % 2 == 1, byte / 2 % 2 == 1, byte / 4 == 1))
}

/// The byte of three flags.
fn flags_byte(last: bool, ended: bool, stamped: bool) -> u8
    ensures { result ≡ flags last ended stamped }
{
    u8::from(last) + (2 * u8::from(ended) + 4 * u8::from(stamped))
}

/// Adds the fixed part of a head.
pub fn put_fixed(out: &mut Vec<u8>, fixed: &Fixed) -> Result<(), AllocError>
    requires { IsFixed fixed.now }
    ensures { OnOk result (out.new.items ≡ out.old.items ++ fixed_bytes fixed.now) }
{
    put_number(out, fixed.file)?;
    put_long(out, fixed.first)?;
    put_number(out, fixed.rows)?;
    out.push(flags_byte(fixed.last, fixed.ended, fixed.stamped))?;
    put_moment(out, fixed.least)?;
    put_moment(out, fixed.greatest)?;
    put_number(out, fixed.types)?;
    put_number(out, fixed.words)?;
    put_number(out, fixed.variables)
}

/// The fixed part that the bytes begin with, and none exactly where they begin with none: where an
/// unknown flag is set.
pub fn read_fixed(bytes: &[u8]) -> Option<Fixed>
    requires { 45 ≤ length bytes.now }
    ensures fits { IfSome result (λ f. IsFixed f) }
    ensures spelled { IfSome result (λ f. take 45 bytes.now ≡ fixed_bytes f) }
    ensures none { IsNone result → (f : _) → IsFixed f → take 45 bytes.now ≢ fixed_bytes f }
{
    let (last, ended, stamped) = flags_in(bytes[16])?;
    Some(Fixed {
        file: LittleEndian::read_u32(bytes),
        first: LittleEndian::read_u64(&bytes[4..]),
        rows: LittleEndian::read_u32(&bytes[12..]),
        last,
        ended,
        stamped,
        least: LittleEndian::read_i64(&bytes[17..]),
        greatest: LittleEndian::read_i64(&bytes[25..]),
        types: LittleEndian::read_u32(&bytes[33..]),
        words: LittleEndian::read_u32(&bytes[37..]),
        variables: LittleEndian::read_u32(&bytes[41..]),
    })
}

/// How many bytes the head has whose fixed part this is, and none exactly where it is no fixed part.
pub fn head_len(fixed: &[u8; FIXED_LEN]) -> Option<u64>
    ensures some { IfSome result (λ n. (f : _) × IsFixed f
        × (fixed.now ≡ fixed_bytes f) × (n ≡ head_length f)) }
    ensures none { IsNone result → (f : _) → IsFixed f → fixed.now ≢ fixed_bytes f }
{
    let fixed = read_fixed(fixed)?;
    Some(fixed.head_len())
}

impl Fixed {
    /// How many bytes the head has.
    pub fn head_len(&self) -> u64
        ensures { result ≡ head_length self.now }
    {
        FIXED_LEN as u64 + 4 * (u64::from(self.types) + u64::from(self.words))
    }

    /// Whether both have the same fields.
    pub fn is(&self, other: &Fixed) -> bool
        ensures yes { IsTrue result → self.now ≡ other.now }
        ensures no { self.now ≡ other.now → IsTrue result }
    {
        let places = self.file == other.file && self.first == other.first;
        let flags = self.last == other.last
            && self.ended == other.ended
            && self.stamped == other.stamped;
        let moments = self.least == other.least && self.greatest == other.greatest;
        let lists = self.types == other.types && self.words == other.words;
        let columns = self.rows == other.rows && self.variables == other.variables;
        places && flags && moments && lists && columns
    }
}
