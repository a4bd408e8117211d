//! Pages that are read one after the other, and whose rows are counted.
ghost use Rattle.std.specs.Prelude.{◌≡◌, ℕ, List, IfOk, OnOk, OnErr, IsErrOf};
ghost use Rattle.log_seams.specs.Outside.{CountsOf};
ghost use Rattle.search_walk.specs.Held.{OfLeft};
ghost use Rattle.search_walk.specs.PagesRead.{ReadsPage};
ghost use Rattle.search_walk.specs.Ready.{Serves};
ghost use Rattle.printed_lines.specs.Lines.{numbered};
ghost use Rattle.search_walk.specs.Walked.{PageGone, PagesGone, PastTold};
ghost use Rattle.group_count.specs.StepsCounted.{Counted, Passes, Stops, sofar};
ghost use Rattle.group_count.specs.StepsServed.{FindsAll, HasNext, IsDecidedPage, IsServed};

use crate::columns::ColumnRoom;
use crate::counts::Counts;
use crate::row_counting::count_rows;
use crate::table::RowTable;
use crate::way::Way;
use column_store::Columns;
use log_seams::Disk;
use search_walk::{Context, SearchRefusal, decide_rows};
use segment_pages::{SegmentPages, left_are_counted};
use std::alloc::Global;
use std::mem;
use std::sync::ledger::Ledger;
use step_count::Steps;
use subquery_filter::Verdict;
use word_places::HeldWords;

/// What pages are read into and decided in. Each takes the place, and the memory, of the one before
/// it.
#[derive(Drop)]
pub(crate) struct PageRoom {
    alloc: Global,
    /// What the reads take place in.
    bytes: Vec<u8>,
    columns: Columns,
    /// What was decided of each row.
    verdicts: Vec<Verdict>,
}

impl PageRoom {
    /// Room without a page. Takes no memory.
    fn new(alloc: Global) -> PageRoom {
        PageRoom {
            alloc,
            bytes: Vec::new(alloc),
            columns: Columns::new(alloc),
            verdicts: Vec::new(alloc),
        }
    }
}

/// Reads the next page in the place of the last one, decides its rows, and reads the words by which
/// they may have to be told.
fn read_page<D: Disk>(
    context: &Context<'_, D>,
    held: &mut HeldWords,
    pages: &mut SegmentPages,
    disk: &mut D,
    room: &mut PageRoom,
) -> Result<(), SearchRefusal>
    requires next { HasNext (D.state disk.old).seen context.now.names pages.old }
    requires serves { Serves context.now.names held.old }

    // what stays
    ensures reads { ReadsPage context.now.names pages.old (D.state disk.old) (D.state disk.new) }

    // by the answer
    ensures page { OnOk result (IsDecidedPage (D.state disk.old).seen context.now
        pages.old pages.new held.new room.new.columns.rows room.new.verdicts.items) }

    // causes
    ensures damaged { IsErrOf result SearchRefusal.Damaged → OfLeft
        (D.state disk.old).seen pages.old context.now.names (λ _. ⊥) }
    ensures counts { CountsOf SearchRefusal.DiskFault
        (D.state disk.old).faults (D.state disk.new).faults result }
    ensures sink { ¬ IsErrOf result SearchRefusal.SinkFault }
{
    let columns = mem::replace(&mut room.columns, Columns::new(room.alloc));
    room.columns = pages.next_page(disk, &mut room.bytes, columns)?;
    decide_rows(context, &room.columns, held, disk, &mut room.verdicts)?;
    Ok(())
}

/// Counts the rows of pages: what was counted, and the memory in which it is done.
#[derive(Drop)]
pub(crate) struct PageCounter<T> {
    /// By what it is told which messages are found.
    way: Way,
    pub(crate) counts: Counts<T>,
    room: PageRoom,
    /// What columns are read into, where each message is found.
    columns: ColumnRoom,
    /// What rows are written into.
    text: Vec<u8>,
}

impl<T> PageCounter<T> {
    /// Nothing was counted yet but what the table has. Takes no memory.
    pub(crate) fn new(alloc: Global, way: Way, table: T) -> PageCounter<T>
        ensures way { result.way ≡ way }
        ensures table { result.counts.table ≡ table }
        ensures matched { result.counts.matched ≡ 0 }
        ensures expanded { result.counts.expanded ≡ 0 }
    {
        PageCounter {
            way,
            counts: Counts {
                table,
                matched: 0,
                expanded: 0,
            },
            room: PageRoom::new(alloc),
            columns: ColumnRoom::new(alloc),
            text: Vec::new(alloc),
        }
    }

    /// The allocator that it was made with.
    pub(crate) fn alloc(&self) -> Global {
        self.room.alloc
    }

    /// By what it is told which messages are found.
    pub(crate) fn way(&self) -> Way
        ensures { result ≡ self.now.way }
    {
        self.way
    }

    /// Whether each message is found, whatever it is.
    pub(crate) fn finds_all(&self) -> bool
        ensures { result ≡ self.now.way.all }
    {
        self.way.all
    }

    /// What was counted.
    pub(crate) fn into_counts(self) -> Counts<T>
        ensures { result ≡ self.counts }
    {
        let PageCounter {
            way: _,
            counts,
            room: _,
            columns: _,
            text: _,
        } = self;
        counts
    }
}

/// Reads the next page and counts its rows. Answers how many it has.
pub(crate) fn count_next<D: Disk, T: RowTable, M: Ledger>(
    context: &Context<'_, D>,
    held: &mut HeldWords,
    pages: &mut SegmentPages,
    disk: &mut D,
    counter: &mut PageCounter<T>,
    expanded: &mut Steps<M>,
) -> Result<u32, SearchRefusal>
    requires next { HasNext (D.state disk.old).seen context.now.names pages.old }
    requires served { IsServed context.now held.old counter.old.way }

    // what stays
    ensures reads { ReadsPage context.now.names pages.old (D.state disk.old) (D.state disk.new) }
    ensures served { IfOk result (λ _. IsServed context.now held.new counter.new.way) }

    // by the answer
    ensures gone { IfOk result (λ rows. PageGone pages.old pages.new rows) }
    ensures done { IfOk result (λ rows. (name : List ℕ) (number : ℕ) → PastTold
        (λ all. Passes T.counted context.now.names context.now.query all
        (sofar counter.old.counts expanded.old) (sofar counter.new.counts expanded.new))
        (D.state disk.old).seen pages.old context.now.names name number pages.new rows) }
    ensures stopped { OnErr result ((name : List ℕ) (number : ℕ) → OfLeft
        (D.state disk.old).seen pages.old context.now.names (λ messages. Stops
        context.now.names.version context.now.query (numbered name number messages)
        expanded.old expanded.new)) }

    // causes
    ensures damaged { IsErrOf result SearchRefusal.Damaged
        → OfLeft (D.state disk.old).seen pages.old context.now.names (λ _. ⊥) }
    ensures counts { CountsOf SearchRefusal.DiskFault
        (D.state disk.old).faults (D.state disk.new).faults result }
    ensures sink { ¬ IsErrOf result SearchRefusal.SinkFault }
{
    read_page(context, held, pages, disk, &mut counter.room)?;
    count_rows(
        counter.way.plain,
        context,
        held,
        &counter.room.columns,
        counter.room.verdicts.as_slice(),
        &mut counter.text,
        &mut counter.counts,
        expanded,
    )?;
    Ok(counter.room.columns.rows())
}

/// Counts that so many messages were found.
fn count_matched<T>(counts: &mut Counts<T>, rows: u32)
    ensures table { counts.new.table ≡ counts.old.table }
    ensures matched { Counted counts.old.matched counts.new.matched rows }
    ensures expanded { counts.new.expanded ≡ counts.old.expanded }
{
    counts.matched = counts.matched.saturating_add(u64::from(rows));
}

/// Counts all rows that are left of a segment, where each message is found, by the columns that the
/// table looks at. Answers how many they are.
pub(crate) fn count_rest<D: Disk, T: RowTable>(
    context: &Context<'_, D>,
    pages: &mut SegmentPages,
    disk: &mut D,
    counter: &mut PageCounter<T>,
) -> Result<u32, SearchRefusal>
    requires next { HasNext (D.state disk.old).seen context.now.names pages.old }
    requires all { FindsAll context.now.query }

    // what stays
    ensures reads { ReadsPage context.now.names pages.old (D.state disk.old) (D.state disk.new) }
    ensures way { counter.new.way ≡ counter.old.way }

    // by the answer
    ensures gone { IfOk result (λ rows. PagesGone pages.old pages.new rows) }
    ensures done { IfOk result (λ rows. (name : List ℕ) (number ticks : ℕ) → PastTold
        (λ all. Passes T.counted context.now.names context.now.query all
        (sofar counter.old.counts ticks) (sofar counter.new.counts ticks))
        (D.state disk.old).seen pages.old context.now.names name number pages.new rows) }

    // causes
    ensures damaged { IsErrOf result SearchRefusal.Damaged
        → OfLeft (D.state disk.old).seen pages.old context.now.names (λ _. ⊥) }
    ensures counts { CountsOf SearchRefusal.DiskFault
        (D.state disk.old).faults (D.state disk.new).faults result }
    ensures sink { ¬ IsErrOf result SearchRefusal.SinkFault }
{
    // So many rows are left as the pages before have not had.
    left_are_counted();
    let _ = context;
    let rows = pages.rows_left();
    counter
        .counts
        .table
        .count_left(pages, disk, &mut counter.columns)?;
    count_matched(&mut counter.counts, rows);
    pages.pass_rest();
    Ok(rows)
}
