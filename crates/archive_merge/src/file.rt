//! A file of the second archive as one of the first.
ghost use Rattle.std.specs.Prelude.{◌≡◌, ℕ, List, All, IfErr, IsErrOf, Some, is_ok};
ghost use Rattle.log_seams.specs.Disk.{Rests};
ghost use Rattle.log_seams.specs.Outside.{CountsOf};
ghost use Rattle.logtype_text.specs.Fair.{IsFairType, IsFairWord};
ghost use Rattle.archive_merge.specs.Causes.{HasMoveCause};
ghost use Rattle.archive_merge.specs.Files.{CameOver, IsNewFile};
ghost use Rattle.archive_merge.specs.Needed.{IsNeeded};
ghost use Rattle.archive_merge.specs.Runs.{HoldRun, IsReached, SoFar, nothing_so_far};
ghost use Rattle.archive_merge.specs.Sealing.{AddsTexts, IsMover, books_in};
ghost use Rattle.archive_merge.specs.Taken.{texts_by};
ghost use Rattle.archive_merge.specs.declared.cause.MergeCause.TheVariants.{SecondDamaged, SecondFault};

use crate::cause::MergeCause;
use crate::hand::Hand;
use crate::moving::move_segment;
use crate::taker::Taker;
use archive_open::SegmentPlace;
use disk_seal::{LockNamer, Store};
use log_seams::Disk;
use row_codec::Names;
use std::sync::Wait;
use std::sync::ledger::Ledger;
use turn_lock::Pass;

/// What a file of the first archive has of one of the second, durably.
#[derive(Clone, Copy, Debug, PartialEq, Eq)]
pub struct Merged {
    /// The number of the file in the first archive.
    pub file: u32,
    /// How many messages it has.
    pub messages: u64,
    /// Whether it is whole.
    pub whole: bool,
}

/// Moves the segments of a file, one after the other, and counts what is sealed of it. It only reads
/// the second disk.
///
/// # Errors
///
/// Those of [`move_segment`]. The segments before the one that was not moved are sealed then.
pub fn move_file<'d, 'b, M: Names, E: Disk, D: Disk, R: Wait, A: Ledger, B: Ledger, C: Ledger>(
    rt: &R,
    places: &[SegmentPlace],
    names: &M,
    taker: &mut Taker,
    namer: &mut LockNamer<'_, '_, R, A, B, C>,
    disk: &mut E,
    keeper: &mut Pass<'_, Store<'d, 'b, D>>,
    file: &mut Merged,
) -> Result<(), MergeCause>
    requires mover { IsMover (M.version names.now) (texts_by M.types M.words names.now)
        keeper.old namer.old taker.old }
    requires new { IsNewFile D.state file.old keeper.old }

    // what stays, and what is named
    ensures rests { Rests (E.state disk.old) (E.state disk.new) }
    ensures mover { IsMover (M.version names.now) (texts_by M.types M.words names.now)
        keeper.new namer.new taker.new }
    ensures named { AddsTexts
        (IsNeeded (texts_by M.types M.words names.now) (E.state disk.old).seen
        (IsReached (M.version names.now) (texts_by M.types M.words names.now) places.now
        (E.state disk.old).seen file.new.messages)) namer.old namer.new }

    // what became of the file
    ensures came { CameOver D.state (M.version names.now) (texts_by M.types M.words names.now)
        places.now (E.state disk.old).seen (is_ok result) keeper.old keeper.new
        file.old file.new }

    // causes
    ensures causes { IfErr result (HasMoveCause D.state (M.version names.now)
        (texts_by M.types M.words names.now) places.now (E.state disk.old).seen
        file.new.messages keeper.old keeper.new (books_in namer.new)) }
    ensures damaged { IsErrOf result SecondDamaged
        → (bytes : List ℕ) (all : SoFar) → (E.state disk.old).seen ≡ Some bytes
        → All IsFairType (M.types names.now) → All IsFairWord (M.words names.now)
        → ¬ HoldRun (M.version names.now) (texts_by M.types M.words names.now) bytes
        places.now nothing_so_far all }
    ensures disk { CountsOf SecondFault (E.state disk.old).faults (E.state disk.new).faults result }
{
    let mut hand = Hand::new(taker.alloc, file.file);
    for place in places {
        move_segment(rt, place, names, taker, namer, disk, &mut hand, keeper)?;
        file.messages = hand.draft.first;
        file.whole = hand.draft.last;
    }
    Ok(())
}
