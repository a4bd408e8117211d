//! Reading the head of a segment, with its two lists or with that of its log types alone.
ghost use Rattle.std.specs.Prelude.{◌≡◌, ◌≢◌, ◌↔◌, ◌≤◌, ◌+◌, ◌*◌, length, take, drop, IfOk, OnOk, IfSome, IsErrOf, IsTrue, IsFalse, Err};
ghost use Rattle.log_seams.specs.Disk.{ReadsOnly, Rests};
ghost use Rattle.log_seams.specs.Outside.{CountsOf};
ghost use Rattle.segment_format.specs.Layout.{IsHead, head_bytes, head_length};
ghost use Rattle.archive_open.specs.declared.segments.SegmentPlace.{SegmentPlace};
ghost use Rattle.archive_places.specs.Fronts.{fixed_in, front_of_place};
ghost use Rattle.archive_places.specs.Heads.{OfFront};
ghost use Rattle.archive_places.specs.StepsHeads.{HasFlags, HasNumbers, placed_by};
ghost use Rattle.archive_places.specs.TypeHeads.{types_bytes, without_words};

use crate::front::{FIXED_LEN, SegmentFront};
use archive_open::SegmentPlace;
use log_seams::Disk;
use plain_list::NumberList;
use segment_format::{Head, list_in, read_head};
use segment_pages::PageRefusal;
use std::alloc::Global;

// Fills a buffer with the first bytes of a head, so many as it has room for.
fn fill<D: Disk>(
    disk: &mut D,
    front: &SegmentFront,
    size: u64,
    buffer: &mut [u8],
) -> Result<(), PageRefusal>
    requires exact { length buffer.old ≡ size }
    requires within { size ≤ head_length (fixed_in front.now) }

    // what stays
    ensures rests { Rests (D.state disk.old) (D.state disk.new) }
    ensures reads { ReadsOnly front.now.payload size (D.state disk.old) (D.state disk.new) }

    // by the answer, and causes
    ensures filled { OnOk result (IfSome (D.state disk.old).seen (λ bytes. buffer.new
        ≡ take size (drop front.now.payload bytes))) }
    ensures damaged { IsErrOf result PageRefusal.Damaged
        → OfFront (D.state disk.old).seen front.now (λ _. ⊥) }
    ensures counts { CountsOf PageRefusal.DiskFault
        (D.state disk.old).faults (D.state disk.new).faults result }
{
    let count = disk.read(front.payload, buffer)?;
    if (count as u64) < size {
        return Err(PageRefusal::Damaged);
    }
    Ok(())
}

// Whether a head has the numbers of a front.
fn has_numbers(head: &Head, front: &SegmentFront) -> bool
    requires { IsHead head.now }
    ensures { IsTrue result ↔ HasNumbers head.now front.now }
{
    head.file == front.file
        && head.first == front.first
        && head.rows == front.rows
        && head.least == front.least
        && head.greatest == front.greatest
        && head.types.len() == front.types as usize
        && head.words.len() == front.words as usize
        && head.variables == front.variables
}

// Whether it has its flags.
fn has_flags(head: &Head, front: &SegmentFront) -> bool
    ensures { IsTrue result ↔ HasFlags head.now front.now }
{
    head.last == front.last && head.ended == front.ended && head.stamped == front.stamped
}

// Whether it is the head of a segment with this front.
fn is_head_of(head: &Head, front: &SegmentFront) -> bool
    requires { IsHead head.now }
    ensures yes { IsTrue result → front_of_place (placed_by front.now head.now) ≡ front.now }
    ensures no { IsFalse result → front_of_place (placed_by front.now head.now) ≢ front.now }
{
    has_numbers(head, front) && has_flags(head, front)
}

// The segment of a front whose head is all of these bytes.
fn segment_of(
    alloc: Global,
    front: &SegmentFront,
    bytes: &[u8],
) -> Result<SegmentPlace, PageRefusal>
    ensures front { IfOk result (λ p. front_of_place p ≡ front.now) }
    ensures head { IfOk result (λ p. IsHead p.head × (bytes.now ≡ head_bytes p.head)) }
    ensures damaged { IsErrOf result PageRefusal.Damaged → (p : SegmentPlace)
        → front_of_place p ≡ front.now → IsHead p.head → bytes.now ≢ head_bytes p.head }
    ensures disk { result ≢ Err PageRefusal.DiskFault }
{
    let head = read_head(alloc, bytes)?;
    if !is_head_of(&head, front) {
        return Err(PageRefusal::Damaged);
    }
    Ok(SegmentPlace {
        at: front.at,
        payload: front.payload,
        length: front.length,
        head,
    })
}

/// Reads the head of a segment with its two lists, by one read. Where the disk's bytes have a head
/// with this front there, it is that one.
///
/// # Errors
///
/// `DiskFault`, where the disk's count of faults rose; `Damaged`, where no head with this front
/// stands there: where the disk ends within it, its fixed part is another, or a list does not rise;
/// or `OutOfMemory`.
pub fn load_segment<D: Disk>(
    alloc: Global,
    disk: &mut D,
    front: &SegmentFront,
) -> Result<SegmentPlace, PageRefusal>
    // what stays
    ensures rests { Rests (D.state disk.old) (D.state disk.new) }
    ensures reads { ReadsOnly front.now.payload (head_length (fixed_in front.now))
        (D.state disk.old) (D.state disk.new) }

    // by the answer
    ensures front { IfOk result (λ p. front_of_place p ≡ front.now) }
    ensures head { IfOk result (λ p. IsHead p.head) }
    ensures loaded { IfOk result (λ p. OfFront (D.state disk.old).seen front.now (λ q. p ≡ q)) }

    // causes
    ensures damaged { IsErrOf result PageRefusal.Damaged
        → OfFront (D.state disk.old).seen front.now (λ _. ⊥) }
    ensures counts { CountsOf PageRefusal.DiskFault
        (D.state disk.old).faults (D.state disk.new).faults result }
{
    let size = front.head_len();
    let mut bytes = vec![in alloc; 0; size as usize]?;
    fill(disk, front, size, bytes.as_mut_slice())?;
    segment_of(alloc, front, bytes.as_slice())
}

// The segment of a front whose head lists these log types, and no words.
fn types_of(alloc: Global, front: &SegmentFront, bytes: &[u8]) -> Result<SegmentPlace, PageRefusal>
    requires { length bytes.now ≡ 45 + 4 * front.now.types }
    ensures types { IfOk result (λ p. (q : SegmentPlace) → front_of_place q ≡ front.now
        → IsHead q.head → bytes.now ≡ types_bytes q.head → p ≡ without_words q) }
    ensures damaged { IsErrOf result PageRefusal.Damaged → (q : SegmentPlace)
        → front_of_place q ≡ front.now → IsHead q.head → bytes.now ≢ types_bytes q.head }
    ensures disk { ¬ IsErrOf result PageRefusal.DiskFault }
{
    // The count of log types fits its type.
    let SegmentFront { types: _types, .. } = *front;
    let (_, listed) = bytes.split_at(FIXED_LEN as usize);
    let types = list_in(alloc, listed)?;
    Ok(SegmentPlace {
        at: front.at,
        payload: front.payload,
        length: front.length,
        head: Head {
            file: front.file,
            first: front.first,
            rows: front.rows,
            last: front.last,
            ended: front.ended,
            stamped: front.stamped,
            least: front.least,
            greatest: front.greatest,
            types,
            words: NumberList::new(Vec::new(alloc)),
            variables: front.variables,
        },
    })
}

/// Reads the head of a segment without its list of words, by one read: none is listed here. Where
/// the disk's bytes have a head with this front there, it is that one but for its words.
///
/// # Errors
///
/// `DiskFault`, where the disk's count of faults rose; `Damaged`, where no head with this front
/// stands there: where the disk ends within its list of log types, or that does not rise; or
/// `OutOfMemory`.
pub fn load_types<D: Disk>(
    alloc: Global,
    disk: &mut D,
    front: &SegmentFront,
) -> Result<SegmentPlace, PageRefusal>
    // what stays
    ensures rests { Rests (D.state disk.old) (D.state disk.new) }
    ensures reads { ReadsOnly front.now.payload (45 + 4 * front.now.types)
        (D.state disk.old) (D.state disk.new) }

    // by the answer
    ensures loaded { IfOk result (λ p. OfFront (D.state disk.old).seen front.now
        (λ q. p ≡ without_words q)) }

    // causes
    ensures damaged { IsErrOf result PageRefusal.Damaged
        → OfFront (D.state disk.old).seen front.now (λ _. ⊥) }
    ensures counts { CountsOf PageRefusal.DiskFault
        (D.state disk.old).faults (D.state disk.new).faults result }
{
    let size = front.types_end();
    let mut bytes = vec![in alloc; 0; size as usize]?;
    fill(disk, front, size, bytes.as_mut_slice())?;
    types_of(alloc, front, bytes.as_slice())
}
