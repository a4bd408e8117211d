//! A segment of the second archive as one of the first.
ghost use Rattle.std.specs.Prelude.{◌≡◌, ◌∷◌, [], ℕ, List, IfErr, IsErrOf, OnErr, OnOk, Some};
ghost use Rattle.log_seams.specs.Disk.{Rests};
ghost use Rattle.log_seams.specs.Outside.{CountsOf};
ghost use Rattle.ingest_workers.specs.Sealed.{HasNotSealed};
ghost use Rattle.archive_merge.specs.Causes.{HasMoveCause};
ghost use Rattle.archive_merge.specs.Needed.{IsTextThere};
ghost use Rattle.archive_merge.specs.Next.{HoldsNext};
ghost use Rattle.archive_merge.specs.Sealing.{AddsTexts, IsMover, MovesSegment, StandsBehind, books_in};
ghost use Rattle.archive_merge.specs.Taken.{texts_by};
ghost use Rattle.archive_merge.specs.declared.cause.MergeCause.TheVariants.{SecondDamaged, SecondFault};

use crate::cause::{MergeCause, of_sealing};
use crate::hand::Hand;
use crate::next::take_next;
use crate::taker::Taker;
use archive_open::SegmentPlace;
use disk_seal::{LockNamer, Store};
use log_seams::Disk;
use row_codec::Names;
use std::sync::Wait;
use std::sync::ledger::Ledger;
use turn_lock::Pass;

/// Takes a segment over as the next one of the file in hand, and seals it. It only reads the second
/// disk.
///
/// # Errors
///
/// Of its reading `SecondFault`, `SecondDamaged`, where the bytes hold no segment at the place that may
/// go on with the file, or `OutOfMemory`; `Full`; and of sealing `ArchiveFull`, `FirstFault` or
/// `OutOfMemory`. No segment was added then.
pub fn move_segment<'d, 'b, M: Names, E: Disk, D: Disk, R: Wait, A: Ledger, B: Ledger, C: Ledger>(
    rt: &R,
    place: &SegmentPlace,
    names: &M,
    taker: &mut Taker,
    namer: &mut LockNamer<'_, '_, R, A, B, C>,
    disk: &mut E,
    hand: &mut Hand,
    keeper: &mut Pass<'_, Store<'d, 'b, D>>,
) -> Result<(), MergeCause>
    requires mover { IsMover (M.version names.now) (texts_by M.types M.words names.now)
        keeper.old namer.old taker.old }
    requires stands { (covered : List (List ℕ)) × StandsBehind D.state covered keeper.old hand.old }

    // what stays, and what is named
    ensures rests { Rests (E.state disk.old) (E.state disk.new) }
    ensures mover { IsMover (M.version names.now) (texts_by M.types M.words names.now)
        keeper.new namer.new taker.new }
    ensures named { AddsTexts
        (IsTextThere (texts_by M.types M.words names.now) (E.state disk.old).seen place.now)
        namer.old namer.new }

    // by the answer
    ensures moved { OnOk result (MovesSegment D.state (M.version names.now)
        (texts_by M.types M.words names.now) place.now (E.state disk.old).seen
        hand.old hand.new keeper.old keeper.new) }
    ensures refused { OnErr result (HasNotSealed D.state keeper.old keeper.new) }

    // causes
    ensures causes { IfErr result (HasMoveCause D.state (M.version names.now)
        (texts_by M.types M.words names.now) (place.now ∷ []) (E.state disk.old).seen
        hand.old.draft.first keeper.old keeper.new (books_in namer.new)) }
    ensures damaged { IsErrOf result SecondDamaged
        → (bytes : List ℕ) → (E.state disk.old).seen ≡ Some bytes
        → ¬ HoldsNext (M.version names.now) (texts_by M.types M.words names.now)
        place.now bytes hand.old }
    ensures disk { CountsOf SecondFault (E.state disk.old).faults (E.state disk.new).faults result }
{
    take_next(place, names, taker, namer, disk, hand)?;
    match hand.seal(rt, taker.alloc, namer, keeper) {
        Ok(()) => Ok(()),
        Err(cause) => Err(of_sealing(cause)),
    }
}
