//! Sealing a draft.
ghost use Rattle.std.specs.Prelude.{◌≡◌, ℕ, IfErr, OnOk, OnErr, IsErrOf};
ghost use Rattle.turn_lock.specs.Words.{number_of};
ghost use Rattle.disk_seal.specs.Planned.{HasNumbers};
ghost use Rattle.disk_seal.specs.Prepare.{MayBeNext};
ghost use Rattle.ingest_workers.specs.declared.outcome.Cause.TheVariants.{ArchiveFull};
ghost use Rattle.ingest_workers.specs.Causes.{HasSealCause};
ghost use Rattle.ingest_workers.specs.Namer.{HasNoRoom, HasOnlySeen, types_seen, words_seen};
ghost use Rattle.ingest_workers.specs.NoRoom.{HasNoRoomBy};
ghost use Rattle.ingest_workers.specs.OpenSegment.{SameMarks};
ghost use Rattle.ingest_workers.specs.MaySeal.{HasNoRoomFor, IsEmptied, IsWorker, MaySeal};
ghost use Rattle.ingest_workers.specs.Sealed.{HasNotSealed, HasSealed, NowHas};
ghost use Rattle.ingest_workers.specs.Turns.{OneTurn};

use crate::open_segment::OpenSegment;
use crate::outcome::Cause;
use disk_seal::{DiskFault, Draft, LockNamer, Notes, PrepareRefusal, Store, prepare};
use log_seams::Disk;
use plain_list::NumberList;
use segment_format::set_of;
use std::alloc::Global;
use std::sync::Wait;
use std::sync::ledger::Ledger;
use turn_lock::Pass;

/// Seals a draft, with all texts of the namer's two books that are not saved.
///
/// # Errors
///
/// `OutOfMemory`; `ArchiveFull`, where the namer then learns the texts that do not fit; or
/// `DiskFault`. No segment was added then.
pub fn seal_draft<'d, 'b, D: Disk, R: Wait, A: Ledger, B: Ledger, C: Ledger>(
    rt: &R,
    alloc: Global,
    draft: &Draft,
    namer: &mut LockNamer<'_, '_, R, A, B, C>,
    keeper: &mut Pass<'_, Store<'d, 'b, D>>,
) -> Result<(), Cause>
    requires worker { IsWorker keeper.old namer.old }

    // the draft
    requires file { draft.now.file ≡ number_of keeper.old }
    requires numbers { HasNumbers draft.now }
    requires next { MayBeNext D.state draft.now keeper.old (types_seen namer.old)
        (words_seen namer.old) }

    // what stays
    ensures namer { HasOnlySeen namer.old namer.new }
    ensures turns { OneTurn namer.old namer.new }

    // by the answer
    ensures sealed { OnOk result (HasSealed D.state draft.now keeper.old keeper.new) }
    ensures holds { OnOk result (NowHas D.state draft.now namer.old.version (types_seen namer.old)
        (words_seen namer.old) keeper.old keeper.new) }
    ensures refused { OnErr result (HasNotSealed D.state keeper.old keeper.new) }

    // causes
    ensures causes { IfErr result (HasSealCause D.state (HasNoRoomBy keeper.old)
        keeper.old keeper.new) }
    ensures full { (end need : ℕ) → IsErrOf result (ArchiveFull end need)
        → HasNoRoom D.state draft.now end need keeper.old keeper.new namer.old namer.new }
{
    let Notes { types, words } = namer.notes();
    let turns = &mut namer.turns;
    match prepare(keeper, rt, alloc, draft, types, words, turns) {
        Ok(prepared) => match prepared.commit(keeper) {
            Ok(_receipt) => Ok(()),
            Err(DiskFault { opened, now }) => Err(Cause::DiskFault { opened, now }),
        },
        Err(PrepareRefusal::OutOfMemory) => Err(Cause::OutOfMemory),
        Err(
            PrepareRefusal::ArchiveFull {
                end,
                need,
                types,
                words,
            },
        ) => {
            namer.join(Notes { types, words });
            Err(Cause::ArchiveFull { end, need })
        }
    }
}

impl OpenSegment {
    /// Seals it as the next segment of its file, and leaves it empty for the one behind it.
    ///
    /// # Errors
    ///
    /// Those of `seal_draft`. No segment was added then.
    pub(crate) fn seal<'d, 'b, D: Disk, R: Wait, A: Ledger, B: Ledger, C: Ledger>(
        &mut self,
        rt: &R,
        alloc: Global,
        namer: &mut LockNamer<'_, '_, R, A, B, C>,
        keeper: &mut Pass<'_, Store<'d, 'b, D>>,
    ) -> Result<(), Cause>
        requires { MaySeal D.state keeper.old namer.old self.old }

        // what stays
        ensures namer { HasOnlySeen namer.old namer.new }
        ensures turns { OneTurn namer.old namer.new }
        ensures marks { OnErr result (SameMarks self.old self.new) }

        // by the answer
        ensures emptied { OnOk result (IsEmptied self.old self.new) }
        ensures sealed { OnOk result (HasSealed D.state self.old.draft keeper.old keeper.new) }
        ensures holds { OnOk result (NowHas D.state self.old.draft namer.old.version
            (types_seen namer.old) (words_seen namer.old) keeper.old keeper.new) }
        ensures refused { OnErr result (HasNotSealed D.state keeper.old keeper.new) }

        // causes
        ensures causes { IfErr result (HasSealCause D.state (HasNoRoomBy keeper.old)
            keeper.old keeper.new) }
        ensures full { (end need : ℕ) → IsErrOf result (ArchiveFull end need)
            → HasNoRoomFor D.state self.old end need keeper.old keeper.new namer.old namer.new }
    {
        self.draft.columns.rows_fit();
        let _variables = self.draft.columns.variables();
        let words = set_of(alloc, self.used.as_slice())?;
        self.draft.words = NumberList::new(words);
        seal_draft(rt, alloc, &self.draft, namer, keeper)?;
        self.draft.first += u64::from(self.draft.columns.rows());
        self.draft.columns.clear();
        self.used.clear();
        Ok(())
    }
}
