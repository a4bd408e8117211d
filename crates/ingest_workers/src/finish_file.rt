//! The end of a file.
ghost use Rattle.std.specs.Prelude.{◌≡◌, ◌≤◌, ℕ, Bool, List, None, Ok, false, true, not, is_some, length};
ghost use Rattle.archive_meaning.specs.declared.TheConstants.{MAX_ROWS, MAX_MESSAGES};
ghost use Rattle.archive_meaning.specs.Held.{last_is_open};
ghost use Rattle.disk_seal.specs.Fixed.{KeeperPass};
ghost use Rattle.ingest_workers.specs.Doing.{Doing};
ghost use Rattle.ingest_workers.specs.Done.{IsOutcome};
ghost use Rattle.ingest_workers.specs.Full.{books_by};
ghost use Rattle.ingest_workers.specs.Namer.{HasOnlySeen, types_pass, words_pass};
ghost use Rattle.ingest_workers.specs.Taking.{StopsAt, UpToRest, mark_of, why_of};
ghost use Rattle.ingest_workers.specs.Turns.{EndBoth, spare_of, stop_in};

use crate::file_end::FileEnd;
use crate::open_segment::OpenSegment;
use crate::outcome::{Cause, Outcome};
use disk_seal::{LockNamer, Store};
use log_seams::Disk;
use std::alloc::Global;
use std::sync::Wait;
use std::sync::ledger::Ledger;
use turn_lock::Pass;

/// Seals the open segment as the last one of its file, also without messages. `ended` tells whether
/// the last line of the file had its newline.
pub(crate) fn seal_last<'d, 'b, D: Disk, R: Wait, A: Ledger, B: Ledger, C: Ledger>(
    rt: &R,
    alloc: Global,
    _rows: u32,
    ended: bool,
    segment: &mut OpenSegment,
    namer: &mut LockNamer<'_, '_, R, A, B, C>,
    keeper: &mut Pass<'_, Store<'d, 'b, D>>,
) -> Outcome
    requires limit { _rows ≤ MAX_ROWS }
    requires doing { (start : KeeperPass _) × (taken : List (List ℕ))
        × (length taken ≤ MAX_MESSAGES)
        × (ended ≡ false → last_is_open taken ≡ true)
        × Doing D.state _rows start keeper.old namer.old segment.old taken }
    ensures namer { HasOnlySeen namer.old namer.new }
    ensures turns { EndBoth D.state 1 keeper.old keeper.new namer.old namer.new }
    ensures cause { is_some result.cause ≡ not result.whole }
    ensures outcome { (start : KeeperPass _) (taken : List (List ℕ))
        → Doing D.state _rows start keeper.old namer.old segment.old taken
        → IsOutcome D.state _rows namer.old.version (books_by (types_pass namer.new)
        (words_pass namer.new)) start keeper.new taken (λ all. all ≡ taken) ended None result }
{
    segment.draft.last = true;
    segment.draft.ended = ended;
    match segment.seal(rt, alloc, namer, keeper) {
        Ok(()) => Outcome {
            messages: segment.draft.first,
            whole: true,
            cause: None,
        },
        Err(cause) => Outcome {
            messages: segment.draft.first,
            whole: false,
            cause: Some(cause),
        },
    }
}

/// Seals the open segment, where it has messages, as one that is not the last of its file. `cause`
/// tells why no further message is taken, where they are not all; a refusal takes its place.
pub(crate) fn seal_part<'d, 'b, D: Disk, R: Wait, A: Ledger, B: Ledger, C: Ledger>(
    rt: &R,
    alloc: Global,
    _rows: u32,
    cause: Option<Cause>,
    segment: &mut OpenSegment,
    namer: &mut LockNamer<'_, '_, R, A, B, C>,
    keeper: &mut Pass<'_, Store<'d, 'b, D>>,
) -> Outcome
    requires limit { _rows ≤ MAX_ROWS }
    requires doing { (start : KeeperPass _) × (taken : List (List ℕ))
        × (length taken ≤ MAX_MESSAGES)
        × Doing D.state _rows start keeper.old namer.old segment.old taken }
    ensures namer { HasOnlySeen namer.old namer.new }
    ensures turns { EndBoth D.state 1 keeper.old keeper.new namer.old namer.new }
    ensures part { result.whole ≡ false }
    ensures none { result.cause ≡ None → cause ≡ None }
    ensures outcome { (start : KeeperPass _) (taken : List (List ℕ)) (ended : Bool)
        → Doing D.state _rows start keeper.old namer.old segment.old taken
        → IsOutcome D.state _rows namer.old.version (books_by (types_pass namer.new)
        (words_pass namer.new)) start keeper.new taken (λ all. all ≡ taken) ended cause result }
{
    if segment.draft.columns.rows() == 0 {
        return Outcome {
            messages: segment.draft.first,
            whole: false,
            cause,
        };
    }
    match segment.seal(rt, alloc, namer, keeper) {
        Ok(()) => Outcome {
            messages: segment.draft.first,
            whole: false,
            cause,
        },
        Err(refused) => Outcome {
            messages: segment.draft.first,
            whole: false,
            cause: Some(refused),
        },
    }
}

/// Ends a file whose source was read to its end: seals the open segment as the last one, or that of
/// a part as one that is not.
pub(crate) fn seal_end<'d, 'b, D: Disk, R: Wait, A: Ledger, B: Ledger, C: Ledger>(
    rt: &R,
    alloc: Global,
    rows: u32,
    part: bool,
    ended: bool,
    segment: &mut OpenSegment,
    namer: &mut LockNamer<'_, '_, R, A, B, C>,
    keeper: &mut Pass<'_, Store<'d, 'b, D>>,
) -> Outcome
    requires limit { rows ≤ MAX_ROWS }
    requires doing { (start : KeeperPass _) × (taken : List (List ℕ))
        × (length taken ≤ MAX_MESSAGES)
        × (ended ≡ false → last_is_open taken ≡ true)
        × Doing D.state rows start keeper.old namer.old segment.old taken }
    ensures namer { HasOnlySeen namer.old namer.new }
    ensures turns { EndBoth D.state 1 keeper.old keeper.new namer.old namer.new }
    ensures cause { part ≡ false → is_some result.cause ≡ not result.whole }
    ensures part { part ≡ true → result.whole ≡ false }
    ensures outcome { (start : KeeperPass _) (taken : List (List ℕ))
        → Doing D.state rows start keeper.old namer.old segment.old taken
        → IsOutcome D.state rows namer.old.version (books_by (types_pass namer.new)
        (words_pass namer.new)) start keeper.new taken (λ all. all ≡ taken) ended None result }
{
    if part {
        seal_part(rt, alloc, rows, None, segment, namer, keeper)
    } else {
        seal_last(rt, alloc, rows, ended, segment, namer, keeper)
    }
}

/// Ends a file of which no further message is taken: seals what may still be sealed. `stop` is the
/// answer of `add_messages`, and `part` tells whether the file is not to be marked whole.
pub(crate) fn finish_file<'d, 'b, D: Disk, R: Wait, A: Ledger, B: Ledger, C: Ledger>(
    rt: &R,
    alloc: Global,
    rows: u32,
    part: bool,
    stop: Result<bool, FileEnd>,
    segment: &mut OpenSegment,
    namer: &mut LockNamer<'_, '_, R, A, B, C>,
    keeper: &mut Pass<'_, Store<'d, 'b, D>>,
) -> Outcome
    requires limit { (1 ≤ rows) × (rows ≤ MAX_ROWS) }
    requires stops { (start : KeeperPass _) × (taken : List (List ℕ))
        × (length taken ≤ MAX_MESSAGES)
        × StopsAt D.state rows start keeper.old namer.old segment.old taken stop }
    ensures namer { HasOnlySeen namer.old namer.new }
    ensures turns { EndBoth D.state (spare_of (stop_in stop)) keeper.old keeper.new
        namer.old namer.new }
    ensures cause { part ≡ false → is_some result.cause ≡ not result.whole }
    ensures part { part ≡ true → result.whole ≡ false }
    ensures ends { result.cause ≡ None → (ended : Bool) × (stop ≡ Ok ended) }
    ensures outcome { (start : KeeperPass _) (taken : List (List ℕ))
        → StopsAt D.state rows start keeper.old namer.old segment.old taken stop
        → IsOutcome D.state rows namer.old.version (books_by (types_pass namer.new)
        (words_pass namer.new)) start keeper.new taken (UpToRest stop taken)
        (mark_of stop) (why_of stop) result }
{
    match stop {
        Ok(ended) => seal_end(rt, alloc, rows, part, ended, segment, namer, keeper),
        Err(FileEnd::Part(cause)) => {
            seal_part(rt, alloc, rows, Some(cause), segment, namer, keeper)
        }
        Err(FileEnd::Lost(cause)) => Outcome {
            messages: segment.draft.first,
            whole: false,
            cause: Some(cause),
        },
    }
}
