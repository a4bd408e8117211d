//! What lanes have counted, put together in their order.
ghost use Rattle.std.specs.Prelude.{◌≡◌, ◌+◌, All, IfOk, OnOk, IsErrOf};
ghost use Rattle.search_walk.specs.Opened.{NoFronts};
ghost use Rattle.group_count.specs.StepsLanes.{IsWorked, Joins, WentOver, fronts_of};

use crate::counts::{Counts, LaneSums, Told};
use crate::lane::Lane;
use crate::table::RowTable;
use log_seams::Disk;
use search_walk::{Context, SearchRefusal};
use std::alloc::AllocError;
use std::sync::ledger::Ledger;
use step_count::Steps;

/// Counts what a lane has counted, behind what was counted before.
fn join_told<T: RowTable>(
    told: &Told<T>,
    counts: &mut Counts<T>,
    sums: &mut LaneSums,
) -> Result<(), AllocError>
    ensures { OnOk result (Joins T.counted told.now counts.old sums.old counts.new sums.new) }
{
    counts.table.join(&told.counts.table)?;
    counts.matched = counts.matched.saturating_add(told.counts.matched);
    counts.expanded = counts.expanded.saturating_add(told.counts.expanded);
    sums.opened = sums.opened.saturating_add(told.opened);
    sums.expanded = sums.expanded.saturating_add(told.counts.expanded);
    Ok(())
}

/// Counts what lanes have counted, in their order, up to the first that was stopped. The context is
/// there for what is said of them.
pub(crate) fn join_lanes<D: Disk, P: Disk, T: RowTable>(
    context: &Context<'_, D>,
    lanes: &[Lane<'_, P, T>],
    counts: &mut Counts<T>,
) -> Result<LaneSums, SearchRefusal>
    requires stood { All (λ l. ¬ IsErrOf l.answer SearchRefusal.DiskFault) lanes.now }
    requires worked { All (IsWorked T.counted context.now counts.old.table) lanes.now }

    // by the answer
    ensures done { IfOk result (λ sums. WentOver T.counted context.now counts.old counts.new sums
        (fronts_of lanes.now)) }

    // causes
    ensures damaged { IsErrOf result SearchRefusal.Damaged → NoFronts
        context.now.names.told context.now.names context.now.files (fronts_of lanes.now) }
    ensures disk { ¬ IsErrOf result SearchRefusal.DiskFault }
    ensures sink { ¬ IsErrOf result SearchRefusal.SinkFault }
{
    let _ = context;
    let mut sums = LaneSums {
        opened: 0,
        expanded: 0,
    };
    for lane in lanes {
        join_told(lane.told()?, counts, &mut sums)?;
    }
    Ok(sums)
}

/// Ticks so often.
pub(crate) fn tick_times<M: Ledger>(times: u64, steps: &mut Steps<M>)
    ensures { steps.new ≡ steps.old + times }
{
    for _ in 0..times {
        steps.tick();
    }
}
