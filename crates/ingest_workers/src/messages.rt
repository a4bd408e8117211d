//! The messages of a source, which are added to the segments of its file.
ghost use Rattle.std.specs.Prelude.{◌≡◌, ◌≤◌, ◌<◌, ◌++◌, ◌∷◌, [], ℕ, List, length, IfErr, OnOk, Option, Ok, Err, IfNone, IfOk, IfSome};
ghost use Rattle.row_codec.specs.Messages.{IsMessage};
ghost use Rattle.archive_meaning.specs.declared.TheConstants.{MAX_ROWS, MAX_MESSAGES};
ghost use Rattle.disk_seal.specs.Fixed.{KeeperPass};
ghost use Rattle.ingest_workers.specs.Doing.{Doing};
ghost use Rattle.ingest_workers.specs.Stopping.{IsAtStop};
ghost use Rattle.ingest_workers.specs.Naming.{HasNamed};
ghost use Rattle.ingest_workers.specs.Turns.{LearnBoth, stop_in};
ghost use Rattle.disk_seal.specs.declared.namer.LockNamer.{LockNamer};
ghost use Rattle.ingest_workers.specs.Causes.{cause_by, log_from};
ghost use Rattle.ingest_workers.specs.Taking.{KeepsSource, Taking, Took};

use crate::file_end::FileEnd;
use crate::naming::add_message;
use crate::open_segment::OpenSegment;
use crate::outcome::Cause;
use disk_seal::{LockNamer, Store};
use log_seams::{Disk, Source};
use message_reader::{Cut, MessageReader};
use std::alloc::Global;
use std::sync::Wait;
use std::sync::ledger::Ledger;
use turn_lock::Pass;

/// Adds a message to the open segment of its file, and seals that where it is full then.
///
/// # Errors
///
/// `Part` where a dictionary is full; the open segment then has the rows that it had. `Lost` where
/// memory ended, or where the segment was refused.
pub(crate) fn add_and_seal<'d, 'b, D: Disk, R: Wait, A: Ledger, B: Ledger, C: Ledger>(
    rt: &R,
    alloc: Global,
    rows: u32,
    line: &[u8],
    segment: &mut OpenSegment,
    namer: &mut LockNamer<'_, '_, R, A, B, C>,
    keeper: &mut Pass<'_, Store<'d, 'b, D>>,
) -> Result<(), FileEnd>
    requires limit { rows ≤ MAX_ROWS }
    requires message { IsMessage namer.old.version line.now }
    requires doing { (start : KeeperPass _) × (taken : List (List ℕ))
        × (length taken < MAX_MESSAGES)
        × Doing D.state rows start keeper.old namer.old segment.old taken }

    // what the namer has learned
    ensures names { HasNamed (λ m. m ≡ line.now) namer.old namer.new }
    ensures turns { LearnBoth D.state (λ m. m ≡ line.now) (stop_in result) keeper.old keeper.new
        namer.old namer.new }

    // by the answer
    ensures taken { (start : KeeperPass _) (taken : List (List ℕ))
        → Doing D.state rows start keeper.old namer.old segment.old taken
        → OnOk result (Doing D.state rows start keeper.new namer.new segment.new
        (taken ++ line.now ∷ [])) }
    ensures stopped { (start : KeeperPass _) (taken : List (List ℕ))
        → Doing D.state rows start keeper.old namer.old segment.old taken
        → IfErr result (IsAtStop D.state rows start keeper.new namer.new segment.new taken
        line.now) }
{
    add_message(segment, line, namer)?;
    if !segment.is_full(rows) {
        return Ok(());
    }
    match segment.seal(rt, alloc, namer, keeper) {
        Ok(()) => Ok(()),
        Err(cause) => Err(FileEnd::Lost(cause)),
    }
}

/// The cause for which a reader gives no further message.
fn cause_of(cut: Cut) -> Cause
    ensures { result ≡ cause_by cut }
{
    match cut {
        Cut::ReadFault => Cause::ReadFault,
        Cut::LineTooLong { line } => Cause::LineTooLong { line },
        Cut::TooManyLines => Cause::TooManyLines,
        Cut::OutOfMemory => Cause::OutOfMemory,
    }
}

/// Adds the next message of a source. At the end of the source it tells whether the last line had
/// its newline.
///
/// # Errors
///
/// `Part` where the reader refuses, or a dictionary is full. `Lost` where memory ended, or a
/// segment was refused.
fn add_next<'d, 'b, S: Source, D: Disk, R: Wait, A: Ledger, B: Ledger, C: Ledger>(
    rt: &R,
    alloc: Global,
    rows: u32,
    reader: &mut MessageReader<S>,
    segment: &mut OpenSegment,
    namer: &mut LockNamer<'_, '_, R, A, B, C>,
    keeper: &mut Pass<'_, Store<'d, 'b, D>>,
) -> Result<Option<bool>, FileEnd>
    requires limit { rows ≤ MAX_ROWS }
    requires taking { (bytes : Option (List ℕ)) × (start : KeeperPass _)
        × (begin : LockNamer _ _ _ _) × (taken : List (List ℕ)) × Taking D.state S.left rows
        bytes start keeper.old begin namer.old segment.old reader.old taken }

    // what stays
    ensures source { KeepsSource S.name S.faults reader.old.source reader.new.source }

    // by the answer
    ensures taken { (bytes : Option (List ℕ)) (start : KeeperPass _)
        (begin : LockNamer _ _ _ _) (taken : List (List ℕ)) → Taking D.state S.left rows
        bytes start keeper.old begin namer.old segment.old reader.old taken
        → IfOk result (λ o. IfNone o (Taking D.state S.left rows bytes start keeper.new begin
        namer.new segment.new reader.new (taken ++ reader.new.message ∷ []))) }
    ensures steady { OnOk result (S.faults reader.new.source ≡ S.faults reader.old.source) }
    ensures ended { (bytes : Option (List ℕ)) (start : KeeperPass _)
        (begin : LockNamer _ _ _ _) (taken : List (List ℕ)) → Taking D.state S.left rows
        bytes start keeper.old begin namer.old segment.old reader.old taken
        → IfOk result (λ o. IfSome o (λ e. Took D.state rows namer.old.version
        (log_from bytes S.left S.faults reader.old.source reader.new.source) start
        keeper.new begin namer.new segment.new (Ok e))) }
    ensures stopped { (bytes : Option (List ℕ)) (start : KeeperPass _)
        (begin : LockNamer _ _ _ _) (taken : List (List ℕ)) → Taking D.state S.left rows
        bytes start keeper.old begin namer.old segment.old reader.old taken
        → IfErr result (λ s. Took D.state rows namer.old.version
        (log_from bytes S.left S.faults reader.old.source reader.new.source) start
        keeper.new begin namer.new segment.new (Err s)) }
{
    let mark = match reader.advance() {
        Ok(Some(mark)) => mark,
        Ok(None) => return Ok(Some(true)),
        Err(cut) => return Err(FileEnd::Part(cause_of(cut))),
    };
    add_and_seal(rt, alloc, rows, reader.message(), segment, namer, keeper)?;
    if mark.ended {
        Ok(None)
    } else {
        Ok(Some(false))
    }
}

/// Adds the messages of a source, and tells whether its last line had its newline.
///
/// # Errors
///
/// Where no further message is taken: `Part` where the open segment may still be sealed, and else
/// `Lost`.
pub(crate) fn add_messages<'d, 'b, S: Source, D: Disk, R: Wait, A: Ledger, B: Ledger, C: Ledger>(
    rt: &R,
    alloc: Global,
    rows: u32,
    reader: &mut MessageReader<S>,
    segment: &mut OpenSegment,
    namer: &mut LockNamer<'_, '_, R, A, B, C>,
    keeper: &mut Pass<'_, Store<'d, 'b, D>>,
) -> Result<bool, FileEnd>
    requires limit { rows ≤ MAX_ROWS }
    requires taking { (bytes : Option (List ℕ)) × (start : KeeperPass _)
        × (begin : LockNamer _ _ _ _) × (taken : List (List ℕ)) × Taking D.state S.left rows
        bytes start keeper.old begin namer.old segment.old reader.old taken }

    // what stays
    ensures source { KeepsSource S.name S.faults reader.old.source reader.new.source }

    // the answer
    ensures took { (bytes : Option (List ℕ)) (start : KeeperPass _)
        (begin : LockNamer _ _ _ _) (taken : List (List ℕ)) → Taking D.state S.left rows
        bytes start keeper.old begin namer.old segment.old reader.old taken
        → Took D.state rows namer.old.version
        (log_from bytes S.left S.faults reader.old.source reader.new.source) start
        keeper.new begin namer.new segment.new result }
{
    'messages: loop {
        match add_next(rt, alloc, rows, reader, segment, namer, keeper) {
            Ok(None) => {}
            Ok(Some(ended)) => return Ok(ended),
            Err(stop) => return Err(stop),
        }
    }
}
