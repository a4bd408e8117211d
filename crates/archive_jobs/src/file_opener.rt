//! What opens the files of an archive, one after the other, and lends the disk to them.
ghost use Rattle.std.specs.Prelude.{◌≡◌, None, Some, true, false};
ghost use Rattle.log_seams.specs.Disk.{Rests};
ghost use Rattle.archive_jobs.specs.Lent.{IsRead, LeavesCause, StaysFirst, cause_name};
ghost use Rattle.archive_jobs.specs.LentLaws.{leaves_later, stays_none, stays_then};

use crate::file_source::{ClosedFile, FileSource};
use crate::lent::Lent;
use crate::stored_file::StoredFile;
use archive_text::{TextCause, TextRoom};
use ingest_workers::Opens;
use log_seams::Disk;
use row_codec::{Layouts, Names};
use std::alloc::Global;
use std::marker::{Model, PhantomData};

/// What is lent to a source.
#[derive(Drop)]
pub(crate) struct Hand<'a, D: Disk> {
    pub(crate) disk: &'a mut D,
    pub(crate) room: TextRoom,
}

/// Opens the files of an archive, one at a time: it lends them the disk and the memory for a page,
/// and takes both back. Once a text could not be had no call of the disk is made any more.
#[derive(Drop)]
pub struct FileOpener<'a, D: Disk, L: Lent> {
    alloc: Global,
    layouts: &'a Layouts,
    // None while a source is open.
    hand: Option<Hand<'a, D>>,
    cause: Option<TextCause>,
    lent: PhantomData<L>,
}

impl<'a, D: Disk, L: Lent> Model for FileOpener<'a, D, L> {
    ghost use Rattle.std.specs.Prelude.{◌≡◌, IfSome, is_some};
    ghost use Rattle.archive_jobs.specs.Lent.{IsRead, OpenerState};

    ghost Value = { OpenerState };

    ghost view = { λ s. record { cause = s.cause; is_idle = is_some s.hand } };

    ghost invariant = { λ s. (s.layouts.now ≡ L.lent.types)
        × IfSome s.hand (λ h. IsRead D.state L.lent s.cause h.disk.ghost_name h.disk.now) };
}

impl<'a, D: Disk, L: Lent> FileOpener<'a, D, L> {
    /// Opens files over a disk, of which the log types are cut already. Takes no memory.
    pub fn new(alloc: Global, layouts: &'a Layouts, disk: &'a mut D) -> FileOpener<'a, D, L>
        requires layouts { layouts.now ≡ L.lent.types }
        requires name { disk.ghost_name ≡ L.lent.name }
        requires rests { Rests L.lent.disk (D.state disk.old) }
        requires faults { (D.state disk.old).faults ≡ L.lent.disk.faults }
        ensures cause { result.cause ≡ None }
        ensures idle { result.is_idle ≡ true }
    {
        let hand = Hand {
            disk,
            room: TextRoom::new(alloc),
        };
        FileOpener::<'a, D, L> {
            alloc,
            layouts,
            hand: Some(hand),
            cause: None,
            lent: PhantomData,
        }
    }

    /// Gives the disk back, with the first cause for which a text could not be had.
    pub fn into_disk(self) -> (&'a mut D, Option<TextCause>)
        requires { self.is_idle ≡ true }
        ensures cause { result.1 ≡ self.entry.cause }
        ensures read { IsRead D.state L.lent result.1 result.0.ghost_name result.0.now }
    {
        let FileOpener {
            alloc: _,
            layouts: _,
            hand,
            cause,
            lent: _,
        } = self;
        let Some(hand) = hand else { unreachable!() };
        let Hand { disk, room: _room } = hand;
        (disk, cause)
    }
}

impl<'a, D: Disk, N: Names, L: Lent> Opens<StoredFile<'a, D, N, L>> for FileOpener<'a, D, L> {
    type Src = FileSource<'a, D, N, L>;

    ghost left = { λ t. t.left };

    ghost name = { λ _. None };

    ghost faults = { λ t. t.faults };

    ghost idle = { λ o. o.is_idle ≡ true };

    ghost lends = { λ o _ name. (o.is_idle ≡ false) × (name ≡ Some (cause_name o.cause)) };

    ghost goes = { λ a b. StaysFirst a.cause b.cause };

    ghost knows = { λ o t. LeavesCause o.cause t.faults };

    fn open(&mut self, asked: StoredFile<'a, D, N, L>) -> FileSource<'a, D, N, L> {
        let Some(Hand { disk, room }) = self.hand.take() else {
            unreachable!()
        };
        FileSource::new(self.alloc, asked, self.layouts, disk, room, self.cause)
    }

    fn close(&mut self, source: FileSource<'a, D, N, L>) -> StoredFile<'a, D, N, L> {
        let ClosedFile {
            file,
            disk,
            room,
            cause,
        } = source.close();
        self.cause = cause;
        let left = self.hand.replace(Hand { disk, room });
        let None = left else { unreachable!() };
        file
    }

    ghost rests = { λ o. stays_none o.cause };

    ghost goes_on = { λ a b c one two. stays_then a.cause b.cause c.cause one two };

    ghost knows_on = { λ a b t one known.
        leaves_later a.cause b.cause t.faults one known };
}
