//! Searching an archive.
ghost use Rattle.std.specs.Prelude.{◌≡◌, IfOk, OnErr, IsErrOf};
ghost use Rattle.log_seams.specs.Disk.{Rests};
ghost use Rattle.log_seams.specs.Outside.{CountsOf};
ghost use Rattle.query_plan.specs.Laws.{IsSearched};
ghost use Rattle.archive_places.specs.Opened.{ArePlacesOrdered, OpensPlaces};
ghost use Rattle.search_engine.specs.Waiting.{nothing_pending};
ghost use Rattle.search_engine.specs.Searched.{HasSearched, HasStopped};
ghost use Rattle.search_meaning.specs.Journal.{OfJournal, ReadsNoBarren, asked};

use crate::beside::{Crew, Workers, search_fronts};
use crate::page_batch::PageBatch;
use archive_places::{Places, heads_stand, types_stand, words_stand};
use column_store::Range;
use log_seams::{SharedDisk, Sink};
use search_meaning::Report;
use search_walk::{LaneScope, Prepared, Query, SearchRefusal};
use std::alloc::Global;
use std::sync::ledger::Ledger;
use std::thread::Threads;
use step_count::Steps;
use wild_match::Pattern;

/// Searches the segments of an archive, with nothing gathered, and sends out what is left. A
/// journal's log types, words and heads stand where its places say.
fn search_opened<R: Threads + Sync, D: SharedDisk, K: Sink, L: Ledger, M: Ledger>(
    workers: Workers<'_, R>,
    query: &Query,
    places: Places,
    disk: &mut D,
    out: &mut K,
    batch: &mut PageBatch,
    opened: &mut Steps<L>,
    expanded: &mut Steps<M>,
) -> Result<Report, SearchRefusal>
    requires searched { IsSearched query.now.pattern }
    requires opens { OpensPlaces (D.Disk.state disk.old).seen places }
    requires order { ArePlacesOrdered places }
    requires empty { batch.old ≡ nothing_pending }

    // what stays, and by the answer
    ensures rests { Rests (D.Disk.state disk.old) (D.Disk.state disk.new) }
    ensures reads { OfJournal (D.Disk.state disk.old).seen (λ h es held. ReadsNoBarren h es held
        query.now (D.Disk.state disk.old).ranges (D.Disk.state disk.new).ranges) }
    ensures done { IfOk result (λ r. OfJournal (D.Disk.state disk.old).seen
        (λ h es held. HasSearched
        h es held query.now r (K.written out.old) (K.written out.new)
        opened.old opened.new expanded.old expanded.new)) }
    ensures stopped { OnErr result (OfJournal (D.Disk.state disk.old).seen (λ h es held. HasStopped
        h es held query.now (K.written out.old) (K.written out.new)
        opened.old opened.new expanded.old expanded.new)) }

    // causes
    ensures damaged { IsErrOf result SearchRefusal.Damaged
        → OfJournal (D.Disk.state disk.old).seen (λ _ _ _. ⊥) }
    ensures disk_counts { CountsOf SearchRefusal.DiskFault
        (D.Disk.state disk.old).faults (D.Disk.state disk.new).faults result }
    ensures sink_counts { CountsOf SearchRefusal.SinkFault
        (K.faults out.old) (K.faults out.new) result }
{
    types_stand();
    words_stand();
    heads_stand();
    let prepared = Prepared::of(batch.alloc(), query, places, disk)?;
    let Prepared { mut held, archive } = prepared;
    let context = archive.context(query, &held, disk);
    let names = archive.files.as_slice();
    let found = archive.found.as_slice();
    let fronts = archive.segments.as_slice();
    let lane = LaneScope {
        query,
        layouts: &archive.layouts,
        asked: &archive.asked,
        files: names,
        found,
    };
    let crew = Crew {
        workers,
        context: &context,
        lane,
    };
    let count = search_fronts(&crew, &mut held, fronts, disk, out, batch, opened, expanded)?;
    batch.finish(&context, &held, out, expanded)?;
    let counts = batch.counts();
    Ok(Report {
        matched: counts.matched,
        expanded: counts.expanded,
        opened: count,
        segments: fronts.len() as u64,
    })
}

/// Prints the messages of an archive that a pattern matches, in the range: each with the name of
/// its file and its number in the file, by file and then by number. The pattern is one that
/// [`read_pattern`](wild_match::read_pattern) read, and the places those of the disk.
///
/// Words and then log types are read before the segments, each record once: all words, where some
/// word may bring what is looked for or a word that is needed is a variable. Later each word of a
/// message that is written is read with its record.
///
/// The `workers` are so many threads in all, each with a part of the disk. In a turn each reads and
/// searches whole segments by itself, up to 65,536 rows or one segment; what they found is printed
/// in order behind the turn. With any number of workers the same is printed and counted. Where the
/// disk has no parts there is one.
///
/// Of a barren segment no column is read: its head tells that no message of it in the range
/// matches. Of the others `opened` counts each, and `expanded` counts the messages in the range
/// that the widened pattern matches.
///
/// # Errors
///
/// `DiskFault` or `SinkFault`, where the count of faults of the disk or of the output rose;
/// `Damaged`, where the disk's bytes are no archive; or `OutOfMemory`. The output then has a front
/// of what is to be printed.
pub fn search<R: Threads + Sync, D: SharedDisk, K: Sink, L: Ledger, M: Ledger>(
    rt: &R,
    workers: u32,
    alloc: Global,
    places: Places,
    disk: &mut D,
    pattern: &Pattern,
    range: &Range,
    out: &mut K,
    opened: &mut Steps<L>,
    expanded: &mut Steps<M>,
) -> Result<Report, SearchRefusal>
    requires searched { IsSearched pattern.now }
    requires opens { OpensPlaces (D.Disk.state disk.old).seen places }
    requires order { ArePlacesOrdered places }

    // what stays
    ensures rests { Rests (D.Disk.state disk.old) (D.Disk.state disk.new) }
    ensures reads { OfJournal (D.Disk.state disk.old).seen (λ h es held. ReadsNoBarren h es held
        (asked pattern.now range.now)
        (D.Disk.state disk.old).ranges (D.Disk.state disk.new).ranges) }

    // by the answer
    ensures done { IfOk result (λ r. OfJournal (D.Disk.state disk.old).seen
        (λ h es held. HasSearched
        h es held (asked pattern.now range.now) r (K.written out.old) (K.written out.new)
        opened.old opened.new expanded.old expanded.new)) }
    ensures stopped { OnErr result (OfJournal (D.Disk.state disk.old).seen (λ h es held. HasStopped
        h es held (asked pattern.now range.now) (K.written out.old) (K.written out.new)
        opened.old opened.new expanded.old expanded.new)) }

    // causes
    ensures damaged { IsErrOf result SearchRefusal.Damaged
        → OfJournal (D.Disk.state disk.old).seen (λ _ _ _. ⊥) }
    ensures disk_counts { CountsOf SearchRefusal.DiskFault
        (D.Disk.state disk.old).faults (D.Disk.state disk.new).faults result }
    ensures sink_counts { CountsOf SearchRefusal.SinkFault
        (K.faults out.old) (K.faults out.new) result }
{
    let query = Query::new(alloc, pattern, range)?;
    let mut batch = PageBatch::new(alloc);
    let workers = Workers { rt, count: workers };
    search_opened(
        workers, &query, places, disk, out, &mut batch, opened, expanded,
    )
}
