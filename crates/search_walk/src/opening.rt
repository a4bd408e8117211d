//! The opening of a segment.
ghost use Rattle.std.specs.Prelude.{◌≡◌, ◌≤◌, ◌+◌, ◌^◌, ℕ, List, [], ◌∷◌, length, slice_get, Option, Some, IfSome, IsNone, MatchOption};
ghost use Rattle.search_meaning.specs.Scan.{Asked};
ghost use Rattle.search_walk.specs.Held.{Named};
ghost use Rattle.search_walk.specs.Loaded.{OfLoaded};
ghost use Rattle.search_walk.specs.Opened.{IsOpened, NoneTold};

use crate::loaded::LoadedSegment;
use archive_meaning::MAX_MESSAGES;
use archive_open::{FileEntry, SegmentPlace};
use segment_pages::SegmentPages;
use std::sync::ledger::Ledger;
use step_count::Steps;

/// The file with this number.
fn file_of(files: &[FileEntry], number: u32) -> Option<&FileEntry>
    ensures { MatchOption result (length files.now ≤ number)
        (λ file. slice_get files.now number ≡ Some file.now) }
{
    files.get(number as usize)
}

/// Where a payload begins and how long it is without so many of its bytes. None where it has not so
/// many, or ends behind the last place.
fn shortened(place: &SegmentPlace, left_out: u64) -> Option<(u64, u64)>
    ensures some { IfSome result (λ r. (r.0 ≡ place.now.payload + left_out)
        × (r.1 + left_out ≡ place.now.length)) }
    ensures none { IsNone result → left_out ≤ place.now.length
        → 2 ^ 64 ≤ place.now.payload + place.now.length }
{
    if place.length < left_out || place.length > u64::MAX - place.payload {
        return None;
    }
    Some((place.payload + left_out, place.length - left_out))
}

/// The file of a segment, and a reader of its pages. None where no archive has such a segment.
///
/// Where its words were not read, its payload is taken to begin so much later that the columns
/// stand where its head, which lists no words here, says.
pub(crate) fn open_segment<'a, L: Ledger>(
    files: &'a [FileEntry],
    segment: &LoadedSegment,
    opened: &mut Steps<L>,
) -> Option<(&'a FileEntry, SegmentPages)>
    ensures some { IfSome result (λ r. (q : Asked) → OfLoaded q segment.now (λ p.
        IsOpened files.now p r.0.now r.1 opened.old opened.new)) }
    ensures first { IfSome result (λ _. segment.now.place.head.first ≤ MAX_MESSAGES) }
    ensures row { IfSome result (λ r. r.1.pages.row ≡ 0) }
    ensures none { IsNone result → (q : Asked) → OfLoaded q segment.now (λ p.
        (seen : Option (List ℕ)) (n : Named) → NoneTold seen n files.now (p ∷ [])) }
{
    let place = &segment.place;
    let file = file_of(files, place.head.file)?;
    if place.head.first > MAX_MESSAGES {
        return None;
    }
    let (at, length) = shortened(place, 4 * u64::from(segment.unread))?;
    let pages = SegmentPages::open(at, length, &place.head, opened)?;
    Some((file, pages))
}
