//! Logs that are added to an archive while a reader prints the messages of each sealed segment that a
//! pattern matches.
ghost use Rattle.std.specs.Prelude.{◌≡◌, ◌≤◌, ℕ, map, IfErr, IfOk, IfSome, IsTrue, OnErr, is_some};
ghost use Rattle.disk_journal.specs.Journal.{state_of};
ghost use Rattle.live_search.specs.Reader.{live_follower};
ghost use Rattle.command_answers.specs.Ingested.{TellsDamage};
ghost use Rattle.command_answers.specs.Known.{told_if};
ghost use Rattle.command_refusals.specs.GoesOn.{DiskGoesOn};
ghost use Rattle.command_refusals.specs.Reading.{IsArchive};
ghost use Rattle.write_commands.specs.Followed.{FollowsBy, MayBeginAt};
ghost use Rattle.write_commands.specs.IngestPrints.{came_of};
ghost use Rattle.file_outcomes.specs.Naming.{IsHeldBy};
ghost use Rattle.write_commands.specs.StepsAdding.{AddsOrRefuses, HasRoomFor, MayAdd, RefusesNewLogs, ShelfGoesOn, names_asked};
ghost use Rattle.file_outcomes.specs.StepsCauses.{logs_around};
ghost use Rattle.file_outcomes.specs.StepsKnown.{IsNoDamage, lent_state};
ghost use Rattle.watch_command.specs.StepsWatched.{AddsWatched};

use crate::reader::outcome_of;
use archive_core::Books;
use archive_open::{Archive, open_archive, open_for_append};
use command_refusals::{AddRefusal, ReadRefusal};
use disk_journal::{Journal, start};
use file_outcomes::{
    FileReport, Founded, Holding, Lent, OpenedArchive, PartedJournal, hold, part_journal,
};
use live_search::LiveReader;
use log_seams::{Disk, Shelf, Sink};
use std::alloc::Global;
use std::marker::Brand;
use std::sync::Wait;
use std::thread::Threads;
use wild_match::Pattern;
use write_commands::{NewLogs, add_over};

/// What came of logs that were added while a reader printed.
#[derive(Clone, Copy, Debug)]
pub(crate) struct Watched {
    /// The number of the first new file.
    pub(crate) first: u32,
    /// How the reader ended.
    pub(crate) reader: Result<(), ReadRefusal>,
}

/// Adds the logs to an archive that was opened, over the disk of its journal, which tells its bytes only
/// where it is to, and is an archive's there. Answers the number of the first new file, and gives the disk
/// back.
fn add_founded<
    'a,
    'd,
    'o,
    R: Threads + Wait + Sync,
    H: Shelf,
    D: Disk + Send,
    K: Sink + Send,
    L: Lent + Send,
>(
    rt: &R,
    alloc: Global,
    asked: NewLogs<'a>,
    journal: Journal<'d, D>,
    holding: Holding,
    shelf: &mut H,
    taken: &mut Vec<FileReport<'a>>,
    reader: &mut LiveReader<'o, Books, K>,
) -> (Result<u32, AddRefusal>, &'d mut D)
where
    H::Src: Send,
    requires asked { MayAdd asked }
    requires room { HasRoomFor asked taken.old }
    requires lent { journal.disk.ghost_name ≡ L.name }
    requires told { is_some (D.state journal.disk.now).seen ≡ L.told }
    requires held { (name : ℕ) → IsHeldBy (lent_state L.tells name (state_of journal))
        holding.types holding.words holding.files }
    requires reader { (name : ℕ) → MayBeginAt (live_follower K.written reader.old)
        (lent_state L.tells name (state_of journal)) }

    // by the answer
    ensures came { AddsOrRefuses (H.content shelf.old)
        (logs_around H.unread H.open_faults H.read_faults shelf.old shelf.new)
        asked.entry taken.new.items
        (told_if L.tells (D.state journal.entry.disk.now))
        (told_if L.tells (D.state result.1.now)) result.0 }
    ensures followed { FollowsBy (live_follower K.written)
        asked.entry.segment (names_asked asked.entry)
        (map (came_of (H.content shelf.old)) taken.new.items)
        (told_if L.tells (D.state journal.entry.disk.now))
        (told_if L.tells (D.state result.1.now)) reader.old reader.new result.0 }
    ensures undamaged { IfErr result.0 IsNoDamage }

    // what stays
    ensures back { result.1.ghost_name ≡ journal.entry.disk.ghost_name }
    ensures goes_on { DiskGoesOn (D.state journal.entry.disk.now) (D.state result.1.now) }
    ensures logs { ShelfGoesOn H.content H.open_faults H.read_faults shelf.old shelf.new }
{
    let PartedJournal { mut founded, end } = part_journal::<D, L>(journal);
    let opened = OpenedArchive { end, holding };
    let answer = add_over(rt, alloc, asked, opened, shelf, &mut founded, taken, reader);
    let Founded { disk, .. } = founded;
    (answer, disk)
}

/// Adds the logs to the archive of a disk, which is an archive where its bytes are to be told, with a
/// reader beside the workers. Damage is told of any bytes. The archive is opened twice: its books go to
/// the workers, and then it goes to the reader.
pub(crate) fn add_watched<
    'a,
    R: Threads + Wait + Sync,
    H: Shelf,
    D: Disk + Send,
    K: Sink + Send,
    L: Lent + Send,
>(
    rt: &R,
    alloc: Global,
    asked: NewLogs<'a>,
    pattern: Pattern,
    shelf: &mut H,
    disk: &mut D,
    out: &mut K,
    taken: &mut Vec<FileReport<'a>>,
) -> Result<Watched, AddRefusal>
where
    H::Src: Send,
    requires asked { MayAdd asked }
    requires room { HasRoomFor asked taken.old }
    requires archive { IsTrue L.tells → IfSome (D.state disk.old).seen IsArchive }

    // by the answer
    ensures added { IfOk result (λ w. AddsWatched (H.content shelf.old)
        (logs_around H.unread H.open_faults H.read_faults shelf.old shelf.new)
        asked.entry pattern w taken.new.items
        (K.written out.old, K.written out.new) (K.faults out.old, K.faults out.new)
        (told_if L.tells (D.state disk.old)) (told_if L.tells (D.state disk.new))) }
    ensures refused { IfErr result (RefusesNewLogs asked.entry
        (told_if L.tells (D.state disk.old)) (told_if L.tells (D.state disk.new))) }
    ensures damaged { IfErr result (TellsDamage (D.state disk.old) (D.state disk.new)) }
    ensures rests { OnErr result (out.new ≡ out.old) }

    // what stays
    ensures goes_on { DiskGoesOn (D.state disk.old) (D.state disk.new) }
    ensures logs { ShelfGoesOn H.content H.open_faults H.read_faults shelf.old shelf.new }
    ensures later { K.faults out.old ≤ K.faults out.new }
{
    let first: Archive<Books> = open_archive(alloc, disk)?;
    let header = start(disk)?;
    let mut journal = Journal::begin(disk, header);
    let archive: Archive<Books> = open_for_append(alloc, &mut journal)?;
    let files = archive.files().as_slice().len() as u64;
    let holding = hold(first.into_books(), files);
    let mut reader = LiveReader::new(alloc, archive, pattern, out);
    let (answer, _disk) = add_founded::<R, H, D, K, Brand>(
        rt,
        alloc,
        asked,
        journal,
        holding,
        shelf,
        taken,
        &mut reader,
    );
    let outcome = outcome_of(reader.refusal());
    let _out = reader.into_out();
    match answer {
        Ok(first) => Ok(Watched {
            first,
            reader: outcome,
        }),
        Err(refusal) => Err(refusal),
    }
}
