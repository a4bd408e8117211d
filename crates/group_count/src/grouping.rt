//! Counting the messages of an archive.
ghost use Rattle.std.specs.Prelude.{◌≡◌, ◌<◌, ◌^◌, ℤ, pos, List, [], length, count_by, is_none, All, Option, IfOk, OnErr, IsErrOf};
ghost use Rattle.std.specs.Ordering.{int_cmp};
ghost use Rattle.log_seams.specs.Disk.{Rests};
ghost use Rattle.log_seams.specs.Outside.{CountsOf};
ghost use Rattle.query_plan.specs.Laws.{IsSearched};
ghost use Rattle.archive_places.specs.Opened.{ArePlacesOrdered, OpensPlaces};
ghost use Rattle.search_meaning.specs.Journal.{OfJournal, ReadsNoBarren, asked};
ghost use Rattle.word_places.specs.Held.{kept_of};
ghost use Rattle.word_places.specs.Kept.{AreKeptOf};
ghost use Rattle.word_places.specs.Places.{AreInOrder, OfWords, SomeWords};
ghost use Rattle.word_places.specs.Reads.{ReadsWords};
ghost use Rattle.group_count.specs.Grouped.{GroupsJournal, HasGrouped, HasStoppedCounting, IsNoJournal, ReadsAside, StopsJournal};
ghost use Rattle.search_meaning.specs.Groups.{AreGroups, by_moment, stamped};
ghost use Rattle.group_count.specs.StepsArchive.{reported};
ghost use Rattle.group_count.specs.StepsServed.{MayCount};
ghost use Rattle.group_count.specs.Tables.{AreGroupsBy, AreMinutes, LackTexts};

use crate::archive_counting::{Gone, count_archive};
use crate::beside::Workers;
use crate::counts::Counts;
use crate::laws::rows_have_keys;
use crate::minutes::MinuteTable;
use crate::page_counter::PageCounter;
use crate::refusal::TableRefusal;
use crate::types::TypeTable;
use crate::way::{Way, way_of};
use archive_places::{Places, types_stand};
use column_store::Range;
use log_seams::{Disk, SharedDisk};
use search_meaning::{GroupBy, GroupReport, Grouped};
use search_walk::{Query, SearchRefusal};
use std::alloc::{AllocError, Global};
use std::sync::ledger::Ledger;
use std::thread::Threads;
use step_count::Steps;
use wild_match::Pattern;
use word_places::{TypeTexts, words_are_one};

/// The counts of a count's work.
fn report_of<T>(counts: &Counts<T>, gone: &Gone) -> GroupReport
    ensures { result ≡ reported counts.now gone.now }
{
    GroupReport {
        matched: counts.matched,
        expanded: counts.expanded,
        opened: gone.opened,
        segments: gone.segments,
    }
}

/// The groups of what was counted by log types that have these texts.
fn types_by(
    alloc: Global,
    counts: &Counts<TypeTable>,
    gone: &Gone,
    types: &TypeTexts,
) -> Result<Grouped, TableRefusal>
    ensures groups { IfOk result (λ g. AreGroupsBy types.now.texts counts.now.table g.groups) }
    ensures moments { IfOk result (λ g. All (λ p. p.moment ≡ pos 0) g.groups) }
    ensures without { IfOk result (λ g. g.without ≡ 0) }
    ensures report { IfOk result (λ g. g.report ≡ reported counts.now gone.now) }
    ensures damaged { IsErrOf result TableRefusal.Damaged
        → LackTexts types.now.texts counts.now.table }
{
    let groups = counts.table.groups(alloc, types)?;
    Ok(Grouped {
        groups,
        without: 0,
        report: report_of(counts, gone),
    })
}

/// The groups of what was counted by log types. Where some of these were left out, all of them are
/// read once more.
fn types_of<D: Disk>(
    alloc: Global,
    counts: &Counts<TypeTable>,
    gone: &Gone,
    disk: &mut D,
) -> Result<Grouped, SearchRefusal>
    requires order { AreInOrder 0 gone.now.held.type_places }
    requires kept { SomeWords (D.state disk.old).seen gone.now.held.type_places
        (λ texts. AreKeptOf texts (kept_of gone.now.held)) }

    // what stays
    ensures rests { Rests (D.state disk.old) (D.state disk.new) }
    ensures reads { ReadsWords gone.now.held.type_places (D.state disk.old) (D.state disk.new) }

    // by the answer
    ensures groups { IfOk result (λ g. OfWords (D.state disk.old).seen
        gone.now.held.type_places (λ texts. AreGroupsBy texts counts.now.table g.groups)) }
    ensures moments { IfOk result (λ g. All (λ p. p.moment ≡ pos 0) g.groups) }
    ensures without { IfOk result (λ g. g.without ≡ 0) }
    ensures report { IfOk result (λ g. g.report ≡ reported counts.now gone.now) }

    // causes
    ensures damaged { IsErrOf result SearchRefusal.Damaged → OfWords (D.state disk.old).seen
        gone.now.held.type_places (λ texts. LackTexts texts counts.now.table) }
    ensures disk_counts { CountsOf SearchRefusal.DiskFault
        (D.state disk.old).faults (D.state disk.new).faults result }
    ensures sink { ¬ IsErrOf result SearchRefusal.SinkFault }
{
    // Texts that stand at the same places are the same.
    words_are_one();
    let kept = gone.held.kept();
    if kept.left_out() {
        let whole = TypeTexts::read(alloc, disk, kept.places())?;
        let grouped = types_by(alloc, counts, gone, &whole)?;
        return Ok(grouped);
    }
    let grouped = types_by(alloc, counts, gone, kept)?;
    Ok(grouped)
}

/// The groups of what was counted by minutes.
fn minutes_of(
    alloc: Global,
    counts: Counts<MinuteTable>,
    gone: &Gone,
) -> Result<Grouped, AllocError>
    ensures groups { IfOk result (λ g. (keys : List (Option ℤ)) → AreMinutes counts.table keys
        → length keys < 2 ^ 64 → AreGroups int_cmp (stamped keys) (by_moment g.groups)) }
    ensures keys { IfOk result (λ g. All (λ p. p.key ≡ []) g.groups) }
    ensures without { IfOk result (λ g. (keys : List (Option ℤ)) → AreMinutes counts.table keys
        → length keys < 2 ^ 64 → g.without ≡ count_by is_none keys) }
    ensures report { IfOk result (λ g. g.report ≡ reported counts gone.now) }
{
    let report = report_of(&counts, gone);
    let Counts {
        table,
        matched: _,
        expanded: _,
    } = counts;
    let without = table.without();
    let groups = table.groups(alloc)?;
    Ok(Grouped {
        groups,
        without,
        report,
    })
}

/// Counts the messages of an archive that are found, by their log types.
fn group_types<R: Threads + Sync, D: SharedDisk, L: Ledger, M: Ledger>(
    workers: Workers<'_, R>,
    alloc: Global,
    query: &Query,
    way: Way,
    places: Places,
    disk: &mut D,
    opened: &mut Steps<L>,
    expanded: &mut Steps<M>,
) -> Result<Grouped, SearchRefusal>
    requires { MayCount (D.Disk.state disk.old).seen places query.now way }

    // what stays
    ensures rests { Rests (D.Disk.state disk.old) (D.Disk.state disk.new) }
    ensures reads { ReadsAside (D.Disk.state disk.old) (D.Disk.state disk.new) query.now }

    // by the answer
    ensures done { IfOk result (λ g. GroupsJournal (D.Disk.state disk.old).seen query.now
        GroupBy.Shape g opened.old opened.new expanded.old expanded.new) }
    ensures stopped { OnErr result (StopsJournal (D.Disk.state disk.old).seen query.now
        opened.old opened.new expanded.old expanded.new) }

    // causes
    ensures damaged { IsErrOf result SearchRefusal.Damaged
        → IsNoJournal (D.Disk.state disk.old).seen }
    ensures disk_counts { CountsOf SearchRefusal.DiskFault
        (D.Disk.state disk.old).faults (D.Disk.state disk.new).faults result }
    ensures sink { ¬ IsErrOf result SearchRefusal.SinkFault }
{
    // The log types of rows are those of the messages that they are the encodings of, and those of
    // a journal stand where its places say.
    rows_have_keys();
    types_stand();
    let table = TypeTable::new(alloc, places.types_count);
    let mut counter = PageCounter::new(alloc, way, table);
    let gone = count_archive(workers, query, places, disk, &mut counter, opened, expanded)?;
    let grouped = types_of(alloc, &counter.counts, &gone, disk)?;
    Ok(grouped)
}

/// Counts the messages of an archive that are found, by the minutes of their stamps.
fn group_minutes<R: Threads + Sync, D: SharedDisk, L: Ledger, M: Ledger>(
    workers: Workers<'_, R>,
    alloc: Global,
    query: &Query,
    way: Way,
    places: Places,
    disk: &mut D,
    opened: &mut Steps<L>,
    expanded: &mut Steps<M>,
) -> Result<Grouped, SearchRefusal>
    requires { MayCount (D.Disk.state disk.old).seen places query.now way }

    // what stays
    ensures rests { Rests (D.Disk.state disk.old) (D.Disk.state disk.new) }
    ensures reads { ReadsAside (D.Disk.state disk.old) (D.Disk.state disk.new) query.now }

    // by the answer
    ensures done { IfOk result (λ g. GroupsJournal (D.Disk.state disk.old).seen query.now
        GroupBy.Minute g opened.old opened.new expanded.old expanded.new) }
    ensures stopped { OnErr result (StopsJournal (D.Disk.state disk.old).seen query.now
        opened.old opened.new expanded.old expanded.new) }

    // causes
    ensures damaged { IsErrOf result SearchRefusal.Damaged
        → IsNoJournal (D.Disk.state disk.old).seen }
    ensures disk_counts { CountsOf SearchRefusal.DiskFault
        (D.Disk.state disk.old).faults (D.Disk.state disk.new).faults result }
    ensures sink { ¬ IsErrOf result SearchRefusal.SinkFault }
{
    // The minutes of rows are those of the messages that they are the encodings of. From version 3
    // on moments count microseconds.
    rows_have_keys();
    let table = MinuteTable::new(alloc, places.header.version >= 3);
    let mut counter = PageCounter::new(alloc, way, table);
    let gone = count_archive(workers, query, places, disk, &mut counter, opened, expanded)?;
    let grouped = minutes_of(alloc, counter.into_counts(), &gone)?;
    Ok(grouped)
}

/// A query, and by what it is told which messages it finds.
#[derive(Clone, Copy)]
struct PlannedQuery<'a> {
    query: &'a Query,
    way: Way,
}

/// Counts the messages of an archive that are found, by what it is asked.
fn group_found<R: Threads + Sync, D: SharedDisk, L: Ledger, M: Ledger>(
    workers: Workers<'_, R>,
    alloc: Global,
    planned: PlannedQuery<'_>,
    places: Places,
    disk: &mut D,
    by: GroupBy,
    opened: &mut Steps<L>,
    expanded: &mut Steps<M>,
) -> Result<Grouped, SearchRefusal>
    requires may { MayCount (D.Disk.state disk.old).seen places planned.query.now planned.way }

    // what stays
    ensures rests { Rests (D.Disk.state disk.old) (D.Disk.state disk.new) }
    ensures reads { ReadsAside (D.Disk.state disk.old) (D.Disk.state disk.new)
        planned.entry.query.now }

    // by the answer
    ensures done { IfOk result (λ g. GroupsJournal (D.Disk.state disk.old).seen
        planned.entry.query.now by g opened.old opened.new expanded.old expanded.new) }
    ensures stopped { OnErr result (StopsJournal (D.Disk.state disk.old).seen
        planned.entry.query.now opened.old opened.new expanded.old expanded.new) }

    // causes
    ensures damaged { IsErrOf result SearchRefusal.Damaged
        → IsNoJournal (D.Disk.state disk.old).seen }
    ensures disk_counts { CountsOf SearchRefusal.DiskFault
        (D.Disk.state disk.old).faults (D.Disk.state disk.new).faults result }
    ensures sink { ¬ IsErrOf result SearchRefusal.SinkFault }
{
    let PlannedQuery { query, way } = planned;
    match by {
        GroupBy::Shape => group_types(workers, alloc, query, way, places, disk, opened, expanded),
        GroupBy::Minute => group_minutes(
            workers, alloc, query, way, places, disk, opened, expanded,
        ),
    }
}

/// What is counted, and by what.
#[derive(Clone, Copy)]
pub struct GroupQuery<'a> {
    /// What the messages are to match.
    pub pattern: &'a Pattern,
    /// Of which time they are to be.
    pub range: &'a Range,
    /// What they are counted by.
    pub by: GroupBy,
}

/// Counts the messages of an archive that a pattern matches, in the range, by their log types or by
/// the minutes of their stamps. The pattern is one that [`read_pattern`](wild_match::read_pattern)
/// read, and the places those of the disk.
///
/// Where the pattern is plain, with no `?` and at most
/// [`MAX_OPEN_TOKENS`](query_plan::MAX_OPEN_TOKENS) open tokens, no message is expanded: each row
/// is decided as it is stored. Otherwise `expanded` counts the messages in the range that the
/// widened pattern matches.
///
/// The `workers` are so many threads in all, each with a part of the disk. Each counts whole
/// segments by itself, in a table of its own, and the tables are put together in the order of the
/// segments. With any number of workers the same is counted. Where the disk has no parts there is
/// one.
///
/// Of a barren segment no column is read: its head tells that no message of it in the range
/// matches. Of the others `opened` counts each.
///
/// # Errors
///
/// `DiskFault`, where the count of faults of the disk rose; `Damaged`, where the disk's bytes are
/// no archive; or `OutOfMemory`. There is no output, so `SinkFault` is none of its answers.
pub fn group<R: Threads + Sync, D: SharedDisk, L: Ledger, M: Ledger>(
    workers: Workers<'_, R>,
    alloc: Global,
    places: Places,
    disk: &mut D,
    wanted: GroupQuery<'_>,
    opened: &mut Steps<L>,
    expanded: &mut Steps<M>,
) -> Result<Grouped, SearchRefusal>
    requires searched { IsSearched wanted.pattern.now }
    requires opens { OpensPlaces (D.Disk.state disk.old).seen places }
    requires order { ArePlacesOrdered places }

    // what stays
    ensures rests { Rests (D.Disk.state disk.old) (D.Disk.state disk.new) }
    ensures reads { OfJournal (D.Disk.state disk.old).seen (λ h es held. ReadsNoBarren h es held
        (asked wanted.entry.pattern.now wanted.entry.range.now)
        (D.Disk.state disk.old).ranges (D.Disk.state disk.new).ranges) }

    // by the answer
    ensures done { IfOk result (λ g. OfJournal (D.Disk.state disk.old).seen (λ h es held. HasGrouped
        h es held (asked wanted.entry.pattern.now wanted.entry.range.now) wanted.entry.by g
        opened.old opened.new expanded.old expanded.new)) }
    ensures stopped { OnErr result (OfJournal (D.Disk.state disk.old).seen (λ h es held.
        HasStoppedCounting h es held (asked wanted.entry.pattern.now wanted.entry.range.now)
        opened.old opened.new expanded.old expanded.new)) }

    // causes
    ensures damaged { IsErrOf result SearchRefusal.Damaged
        → OfJournal (D.Disk.state disk.old).seen (λ _ _ _. ⊥) }
    ensures disk_counts { CountsOf SearchRefusal.DiskFault
        (D.Disk.state disk.old).faults (D.Disk.state disk.new).faults result }
    ensures sink { ¬ IsErrOf result SearchRefusal.SinkFault }
{
    let way = way_of(alloc, wanted.pattern, wanted.range)?;
    let query = Query::new(alloc, wanted.pattern, wanted.range)?;
    let planned = PlannedQuery { query: &query, way };
    group_found(
        workers, alloc, planned, places, disk, wanted.by, opened, expanded,
    )
}
