//! A segment by the fixed part of its head.
ghost use Rattle.std.specs.Prelude.{◌≡◌, ◌≢◌, ◌+◌, ◌*◌, length, IfSome, IsNone};
ghost use Rattle.segment_format.specs.Layout.{IsFixed, fixed_bytes, head_length};
ghost use Rattle.archive_places.specs.Fronts.{fixed_in};

use disk_journal::RecordPlace;
use plain_list::ListOf;
use segment_format::read_fixed;

/// How many bytes the fixed part of a head has.
pub(crate) const FIXED_LEN: u64 = 45;

/// Where a segment stands, and what its head says before its two lists.
#[derive(Clone, Copy, Debug, PartialEq, Eq)]
pub struct SegmentFront {
    /// The place of its record's gate.
    pub at: u64,
    /// The place of the first byte of its payload, which is the head's.
    pub payload: u64,
    /// The count of bytes of its payload.
    pub length: u64,
    /// The number of the segment's file.
    pub file: u32,
    /// The place of the first message in its file, from 0.
    pub first: u64,
    /// How many rows there are.
    pub rows: u32,
    /// Whether this is the last segment of its file.
    pub last: bool,
    /// Whether the file's last line had its newline.
    pub ended: bool,
    /// Whether some row has a stamp.
    pub stamped: bool,
    /// The least moment of the stamped rows, 0 without any.
    pub least: i64,
    /// The greatest moment of the stamped rows, 0 without any.
    pub greatest: i64,
    /// How many log types the head lists.
    pub types: u32,
    /// How many dictionary words the head lists.
    pub words: u32,
    /// How many variables all rows have.
    pub variables: u32,
}

/// Segments, sorted by file and first message.
pub type FrontList = ListOf<SegmentFront>;

impl SegmentFront {
    /// How many bytes the head has, with its lists.
    pub fn head_len(&self) -> u64
        ensures { result ≡ head_length (fixed_in self.now) }
    {
        FIXED_LEN + 4 * (u64::from(self.types) + u64::from(self.words))
    }

    /// Where in the head its list of words begins.
    pub fn types_end(&self) -> u64
        ensures { result ≡ 45 + 4 * self.now.types }
    {
        FIXED_LEN + 4 * u64::from(self.types)
    }
}

/// The segment at a place, whose head begins with these bytes; none exactly where no head does.
pub(crate) fn read_front(place: RecordPlace, bytes: &[u8]) -> Option<SegmentFront>
    requires { length bytes.now ≡ 45 }
    ensures fits { IfSome result (λ f. IsFixed (fixed_in f)) }
    ensures spelled { IfSome result (λ f. bytes.now ≡ fixed_bytes (fixed_in f)) }
    ensures place { IfSome result (λ f.
        (f.at ≡ place.at) × (f.payload ≡ place.payload) × (f.length ≡ place.length)) }
    ensures none { IsNone result → (f : _) → IsFixed f → bytes.now ≢ fixed_bytes f }
{
    let fixed = read_fixed(bytes)?;
    Some(SegmentFront {
        at: place.at,
        payload: place.payload,
        length: place.length,
        file: fixed.file,
        first: fixed.first,
        rows: fixed.rows,
        last: fixed.last,
        ended: fixed.ended,
        stamped: fixed.stamped,
        least: fixed.least,
        greatest: fixed.greatest,
        types: fixed.types,
        words: fixed.words,
        variables: fixed.variables,
    })
}
