//! The messages of an archive, counted in a table.
ghost use Rattle.std.specs.Prelude.{IfOk, OnErr, IsErrOf};
ghost use Rattle.log_seams.specs.Disk.{Rests};
ghost use Rattle.log_seams.specs.Outside.{CountsOf};
ghost use Rattle.search_meaning.specs.Journal.{OfJournal};
ghost use Rattle.group_count.specs.Grouped.{IsNoJournal, ReadsAside, StopsJournal};
ghost use Rattle.group_count.specs.StepsArchive.{HasCounted, HoldsTypes};
ghost use Rattle.group_count.specs.StepsCounted.{sofar};
ghost use Rattle.group_count.specs.StepsServed.{MayCount};

use crate::beside::{Crew, Workers, count_fronts};
use crate::page_counter::PageCounter;
use crate::table::RowTable;
use archive_places::{Places, heads_stand, types_stand, words_stand};
use log_seams::SharedDisk;
use search_walk::{LaneScope, Prepared, Query, SearchRefusal};
use std::sync::ledger::Ledger;
use std::thread::Threads;
use step_count::Steps;
use word_places::HeldWords;

/// What a count has gone over.
#[derive(Drop)]
pub(crate) struct Gone {
    /// The log types that were left, and the words that were read.
    pub(crate) held: HeldWords,
    /// How many segments were opened.
    pub(crate) opened: u64,
    /// How many segments the archive has.
    pub(crate) segments: u64,
}

/// Counts the messages of an archive that are found.
pub(crate) fn count_archive<
    R: Threads + Sync,
    D: SharedDisk,
    T: RowTable + Send,
    L: Ledger,
    M: Ledger,
>(
    workers: Workers<'_, R>,
    query: &Query,
    places: Places,
    disk: &mut D,
    counter: &mut PageCounter<T>,
    opened: &mut Steps<L>,
    expanded: &mut Steps<M>,
) -> Result<Gone, SearchRefusal>
    requires { MayCount (D.Disk.state disk.old).seen places query.now counter.old.way }

    // what stays
    ensures rests { Rests (D.Disk.state disk.old) (D.Disk.state disk.new) }
    ensures reads { ReadsAside (D.Disk.state disk.old) (D.Disk.state disk.new) query.now }

    // by the answer
    ensures held { IfOk result (λ gone. HoldsTypes (D.Disk.state disk.old).seen places gone.held) }
    ensures done { IfOk result (λ gone. OfJournal (D.Disk.state disk.old).seen (λ h es held.
        HasCounted T.RowTable.counted h es held query.now gone
        (sofar counter.old.counts expanded.old) (sofar counter.new.counts expanded.new)
        opened.old opened.new)) }
    ensures stopped { OnErr result (StopsJournal (D.Disk.state disk.old).seen query.now
        opened.old opened.new expanded.old expanded.new) }

    // causes
    ensures damaged { IsErrOf result SearchRefusal.Damaged
        → IsNoJournal (D.Disk.state disk.old).seen }
    ensures disk_counts { CountsOf SearchRefusal.DiskFault
        (D.Disk.state disk.old).faults (D.Disk.state disk.new).faults result }
    ensures sink { ¬ IsErrOf result SearchRefusal.SinkFault }
{
    // A journal's log types, words and heads stand where its places say.
    types_stand();
    words_stand();
    heads_stand();
    let prepared = Prepared::of(counter.alloc(), query, places, disk)?;
    let Prepared { mut held, archive } = prepared;
    let context = archive.context(query, &held, disk);
    let fronts = archive.segments.as_slice();
    let lane = LaneScope {
        query,
        layouts: &archive.layouts,
        asked: &archive.asked,
        files: archive.files.as_slice(),
        found: archive.found.as_slice(),
    };
    let crew = Crew {
        workers,
        context: &context,
        lane,
    };
    let count = count_fronts(&crew, &mut held, fronts, disk, counter, opened, expanded)?;
    Ok(Gone {
        held,
        opened: count,
        segments: fronts.len() as u64,
    })
}
