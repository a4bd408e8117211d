//! Sealing what is in hand.
ghost use Rattle.std.specs.Prelude.{ℕ, IfErr, IsErrOf, OnErr, OnOk};
ghost use Rattle.ingest_workers.specs.declared.outcome.Cause.TheVariants.{ArchiveFull};
ghost use Rattle.ingest_workers.specs.Causes.{HasSealCause};
ghost use Rattle.ingest_workers.specs.Namer.{HasOnlySeen, types_seen, words_seen};
ghost use Rattle.ingest_workers.specs.NoRoom.{HasNoRoomBy};
ghost use Rattle.ingest_workers.specs.Sealed.{HasNotSealed, HasSealed, NowHas};
ghost use Rattle.archive_merge.specs.Sealing.{IsEmptied, LacksRoom, MaySeal};

use crate::hand::Hand;
use disk_seal::{LockNamer, Store};
use ingest_workers::{Cause, seal_draft};
use log_seams::Disk;
use plain_list::NumberList;
use segment_format::set_of;
use std::alloc::Global;
use std::sync::Wait;
use std::sync::ledger::Ledger;
use turn_lock::Pass;

impl Hand {
    /// Seals what is in hand as the next segment of its file, with all texts of the namer's two books
    /// that are not saved, and leaves nothing in hand.
    ///
    /// # Errors
    ///
    /// Those of `seal_draft`. No segment was added then.
    pub(crate) fn seal<'d, 'b, D: Disk, R: Wait, A: Ledger, B: Ledger, C: Ledger>(
        &mut self,
        rt: &R,
        alloc: Global,
        namer: &mut LockNamer<'_, '_, R, A, B, C>,
        keeper: &mut Pass<'_, Store<'d, 'b, D>>,
    ) -> Result<(), Cause>
        requires { MaySeal D.state keeper.old namer.old self.old }

        // what stays
        ensures namer { HasOnlySeen namer.old namer.new }

        // by the answer
        ensures emptied { OnOk result (IsEmptied self.old self.new) }
        ensures sealed { OnOk result (HasSealed D.state self.old.draft keeper.old keeper.new) }
        ensures holds { OnOk result (NowHas D.state self.old.draft namer.old.version
            (types_seen namer.old) (words_seen namer.old) keeper.old keeper.new) }
        ensures refused { OnErr result (HasNotSealed D.state keeper.old keeper.new) }

        // causes
        ensures causes { IfErr result (HasSealCause D.state (HasNoRoomBy keeper.old)
            keeper.old keeper.new) }
        ensures full { (end need : ℕ) → IsErrOf result (ArchiveFull end need)
            → LacksRoom D.state self.old end need keeper.old keeper.new namer.old namer.new }
    {
        self.draft.columns.rows_fit();
        let _variables = self.draft.columns.variables();
        let words = set_of(alloc, self.renamed.used())?;
        self.draft.words = NumberList::new(words);
        seal_draft(rt, alloc, &self.draft, namer, keeper)?;
        self.draft.first += u64::from(self.draft.columns.rows());
        self.draft.columns.clear();
        self.renamed.forget_used();
        Ok(())
    }
}
