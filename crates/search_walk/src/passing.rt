//! Pages that their log types rule out: nobody takes them.
ghost use Rattle.std.specs.Prelude.{◌≡◌, ◌<◌, drop, take, IfOk, IfSome, OnOk, OnErr, IsErrOf, IsTrue};
ghost use Rattle.log_seams.specs.Outside.{CountsOf};
ghost use Rattle.segment_pages.specs.Paged.{AreTypesTold, ReadsColumns};
ghost use Rattle.printed_lines.specs.Lines.{numbered};
ghost use Rattle.search_walk.specs.Held.{OfLeft};
ghost use Rattle.search_walk.specs.PagesRead.{ReadsPage};
ghost use Rattle.search_walk.specs.Ready.{KeepsFirst};
ghost use Rattle.search_walk.specs.Takes.{IsLeft};
ghost use Rattle.search_walk.specs.Walked.{PagesGone, PastTold, TellLeft, WentOver};

use crate::context::Context;
use crate::label::Label;
use crate::refusal::SearchRefusal;
use crate::taking::TakesPages;
use archive_meaning::MAX_ROWS;
use log_seams::Disk;
use query_plan::wide_is_wider;
use segment_pages::{PageRefusal, SegmentPages, left_are_counted};
use std::alloc::Global;
use word_places::HeldWords;

/// How many log types are looked at together, from the end of a segment on: those of a page.
const LOOK_ROWS: usize = 4096;

/// Where the log types of a segment lie while its pages are gone over, and what is read to pass one
/// of them. It serves for all segments of a search.
#[derive(Drop)]
pub(crate) struct TypeRoom {
    pub(crate) bytes: Vec<u8>,
    pub(crate) types: Vec<u32>,
}

impl TypeRoom {
    /// Takes no memory before the first segment.
    pub(crate) fn new(alloc: Global) -> TypeRoom {
        TypeRoom {
            bytes: Vec::new(alloc),
            types: Vec::new(alloc),
        }
    }
}

/// What is known of the log types of the rows of a segment that are left.
#[derive(Clone, Copy, Debug)]
pub(crate) struct Ahead<'t> {
    /// The log types of the segment's rows, up to a row behind which all are ruled out. None where
    /// they could not be read.
    pub(crate) known: Option<&'t [u32]>,
    /// How many rows of the segment come before those that are left.
    pub(crate) gone: usize,
}

/// Reads the log types of all rows of a segment, and tells whether it could. Those of more rows
/// than an archive has in a segment are not read. Whatever stops it is forgotten but a fault of the
/// disk: the pages are then taken, and whoever takes them tells the damage or the want of memory.
pub(crate) fn read_ahead<D: Disk>(
    pages: &SegmentPages,
    disk: &mut D,
    room: &mut TypeRoom,
) -> Result<bool, SearchRefusal>
    // what stays
    ensures reads { ReadsColumns pages.now (D.state disk.old) (D.state disk.new) }

    // by the answer
    ensures told { IfOk result (λ told. IsTrue told
        → AreTypesTold (D.state disk.old).seen pages.now room.new.types.items) }

    // causes
    ensures damaged { ¬ IsErrOf result SearchRefusal.Damaged }
    ensures counts { CountsOf SearchRefusal.DiskFault
        (D.state disk.old).faults (D.state disk.new).faults result }
    ensures sink { ¬ IsErrOf result SearchRefusal.SinkFault }
{
    if !pages.has_next() {
        return Ok(false);
    }
    // No archive has more in a segment; so the memory has a bound, whatever a head says.
    if pages.rows_left() as usize > MAX_ROWS {
        return Ok(false);
    }
    match pages.read_all_types(disk, &mut room.bytes, &mut room.types) {
        Ok(()) => Ok(true),
        Err(PageRefusal::DiskFault) => Err(SearchRefusal::DiskFault),
        Err(_) => Ok(false),
    }
}

/// The front of log types behind which all are ruled out. It looks from the end on, at those of a
/// page together, up to the first of them that stay.
fn kept_of<'t, D: Disk>(context: &Context<'_, D>, types: &'t [u32]) -> &'t [u32]
    ensures { KeepsFirst context.now.names context.now.query types.now result.now }
{
    let mut kept = types;
    while !kept.is_empty() {
        let (front, last) = kept.split_at(kept.len().saturating_sub(LOOK_ROWS));
        if !context.rules_out(last) {
            return kept;
        }
        kept = front;
    }
    kept
}

/// The front of log types that were read behind which all are ruled out. None where they were not
/// read.
pub(crate) fn known_of<'t, D: Disk>(
    context: &Context<'_, D>,
    told: bool,
    types: &'t [u32],
) -> Option<&'t [u32]>
    ensures told { IfSome result (λ _. IsTrue told) }
    ensures kept { IfSome result (λ kept.
        KeepsFirst context.now.names context.now.query types.now kept.now) }
{
    if !told {
        return None;
    }
    Some(kept_of(context, types))
}

/// The log types behind so many.
fn behind(types: &[u32], gone: usize) -> &[u32]
    ensures { result.now ≡ drop gone types.now }
{
    if gone >= types.len() {
        return &[];
    }
    let (_, left) = types.split_at(gone);
    left
}

/// So many of log types, or all of fewer.
fn first_of(types: &[u32], count: usize) -> &[u32]
    ensures { result.now ≡ take count types.now }
{
    if count >= types.len() {
        return types;
    }
    let (first, _) = types.split_at(count);
    first
}

/// Passes pages whose rows are all ruled out, and answers how many rows they have: all that are
/// left, with nothing read, or the next page, by its counts. Else nothing is passed.
fn pass_page<D: Disk>(
    context: &Context<'_, D>,
    pages: &mut SegmentPages,
    disk: &mut D,
    left: &[u32],
    buffer: &mut Vec<u8>,
) -> Result<Option<u32>, PageRefusal>
    requires page { pages.old.pages.row < pages.old.pages.rows }
    requires told { TellLeft (D.state disk.old).seen pages.old
        context.now.names context.now.query left.now }

    // what stays
    ensures reads { ReadsColumns pages.old (D.state disk.old) (D.state disk.new) }
    ensures kept { OnErr result (pages.new ≡ pages.old) }

    // by the answer, and causes
    ensures over { IfOk result (λ passed. WentOver (D.state disk.old).seen pages.old
        context.now.names context.now.query pages.new passed) }
    ensures counts { CountsOf PageRefusal.DiskFault
        (D.state disk.old).faults (D.state disk.new).faults result }
{
    // What the pattern matches, the one that the search is planned over matches too; and as many
    // rows are left as the pages before have not had.
    wide_is_wider();
    left_are_counted();
    if left.is_empty() {
        let rows = pages.rows_left();
        pages.pass_rest();
        return Ok(Some(rows));
    }
    let count = pages.page_rows() as usize;
    if !context.rules_out(first_of(left, count)) {
        return Ok(None);
    }
    let rows = pages.pass_page(disk, buffer)?;
    Ok(Some(rows))
}

/// Passes pages whose rows are known to be ruled out, and answers how many rows they have. Whatever
/// stops it is forgotten but a fault of the disk: the page is then taken, and whoever takes it
/// tells the damage or the want of memory.
fn pass_next<D: Disk>(
    context: &Context<'_, D>,
    pages: &mut SegmentPages,
    disk: &mut D,
    ahead: Ahead<'_>,
    buffer: &mut Vec<u8>,
) -> Result<Option<u32>, SearchRefusal>
    requires page { pages.old.pages.row < pages.old.pages.rows }
    requires ahead { IfSome ahead.known (λ types. TellLeft (D.state disk.old).seen pages.old
        context.now.names context.now.query (drop ahead.gone types.now)) }

    // what stays
    ensures reads { ReadsPage context.now.names pages.old (D.state disk.old) (D.state disk.new) }

    // by the answer
    ensures over { IfOk result (λ passed. WentOver (D.state disk.old).seen pages.old
        context.now.names context.now.query pages.new passed) }

    // causes
    ensures damaged { ¬ IsErrOf result SearchRefusal.Damaged }
    ensures counts { CountsOf SearchRefusal.DiskFault
        (D.state disk.old).faults (D.state disk.new).faults result }
    ensures sink { ¬ IsErrOf result SearchRefusal.SinkFault }
{
    let Some(types) = ahead.known else {
        return Ok(None);
    };
    match pass_page(context, pages, disk, behind(types, ahead.gone), buffer) {
        Ok(passed) => Ok(passed),
        Err(PageRefusal::DiskFault) => Err(SearchRefusal::DiskFault),
        Err(_) => Ok(None),
    }
}

/// Passes the next page, or all that are left, where its log types rule out all of its rows, and
/// else has it taken, or several of the next pages. Answers how many rows they have.
pub(crate) fn take_next<D: Disk, W: TakesPages>(
    context: &Context<'_, D>,
    held: &mut HeldWords,
    label: Label<'_>,
    pages: &mut SegmentPages,
    disk: &mut D,
    work: &mut W,
    ahead: Ahead<'_>,
    buffer: &mut Vec<u8>,
) -> Result<u32, SearchRefusal>
    requires left { IsLeft pages.old label.number }
    requires ready { W.served work.old context.now held.old
        × ((D.state disk.old).seen ≡ context.now.names.told) }
    requires ahead { IfSome ahead.known (λ types. TellLeft (D.state disk.old).seen pages.old
        context.now.names context.now.query (drop ahead.gone types.now)) }

    // what stays
    ensures reads { ReadsPage context.now.names pages.old (D.state disk.old) (D.state disk.new) }
    ensures lent { W.lent work.new ≡ W.lent work.old }
    ensures served { OnOk result (W.served work.new context.now held.new) }

    // by the answer
    ensures gone { IfOk result (λ rows. PagesGone pages.old pages.new rows) }
    ensures done { IfOk result (λ rows. PastTold
        (W.reaches work.old work.new context.now.names context.now.query)
        (D.state disk.old).seen pages.old context.now.names
        label.entry.name.now label.entry.number pages.new rows) }
    ensures stopped { OnErr result (OfLeft (D.state disk.old).seen pages.old
        context.now.names (λ messages. W.halts work.old work.new
        context.now.names context.now.query
        (numbered label.entry.name.now label.entry.number messages))) }

    // causes
    ensures damaged { IsErrOf result SearchRefusal.Damaged → W.stands work.old context.now.names
        → OfLeft (D.state disk.old).seen pages.old context.now.names (λ _. ⊥) }
    ensures disk_counts { CountsOf SearchRefusal.DiskFault
        (D.state disk.old).faults (D.state disk.new).faults result }
    ensures sink_counts { CountsOf SearchRefusal.SinkFault
        (W.sink_faults work.old) (W.sink_faults work.new) result }
{
    let passed = pass_next(context, pages, disk, ahead, buffer)?;
    match passed {
        Some(rows) => Ok(rows),
        None => work.take_page(context, held, label, pages, disk),
    }
}
