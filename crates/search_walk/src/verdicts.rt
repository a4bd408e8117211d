//! What verdicts on rows say.
ghost use Rattle.std.specs.Prelude.{◌≡◌, ◌≢◌, ◌<◌, length, slice_get, Some, IsFalse, IsTrue};

use subquery_filter::Verdict;

/// Whether it is known that a row's message is not expanded.
#[inline]
pub fn is_rejected(verdict: Verdict) -> bool
    ensures yes { IsTrue result → verdict ≡ Verdict.Rejected }
    ensures no { IsFalse result → verdict ≢ Verdict.Rejected }
{
    matches!(verdict, Verdict::Rejected)
}

/// Whether it is known that a row's message is expanded, where it is in the range.
#[inline]
pub fn is_certain(verdict: Verdict) -> bool
    ensures { IsTrue result → verdict ≡ Verdict.Certain }
{
    matches!(verdict, Verdict::Certain)
}

/// The verdict at a place.
#[inline]
pub fn verdict_at(verdicts: &[Verdict], place: u32) -> Verdict
    requires { place < length verdicts.now }
    ensures { slice_get verdicts.now place ≡ Some result }
{
    verdicts[place as usize]
}
