//! A file of an archive that is to be read from a disk that is lent.
ghost use Rattle.std.specs.Prelude.{◌≡◌, ◌<◌, length};
ghost use Rattle.archive_open.specs.Archive.{shown};
ghost use Rattle.archive_open.specs.Shown.{Opens};
ghost use Rattle.archive_text.specs.Told.{TellsFile};

use crate::lent::Lent;
use archive_open::{Archive, KeepsTexts};
use archive_text::StoredText;
use log_seams::Disk;
use row_codec::Names;
use std::marker::{Model, PhantomData};

/// The text of a file of an archive, as far as it was read from the disk that is lent.
#[derive(Drop)]
pub struct StoredFile<'a, D: Disk, N: Names, L: Lent> {
    text: StoredText<'a, D, N>,
    lent: PhantomData<L>,
}

impl<'a, D: Disk, N: Names, L: Lent> Model for StoredFile<'a, D, N, L> {
    ghost use Rattle.archive_text.specs.State.{StoredState};
    ghost use Rattle.archive_jobs.specs.Lent.{StandsOn};

    ghost Value = { StoredState D };

    ghost view = { λ s. s.text };

    ghost invariant = { λ s. StandsOn D.state L.lent s.text };
}

impl<'a, D: Disk, N: Names, L: Lent> StoredFile<'a, D, N, L> {
    /// The file of a text that stands on the disk.
    pub(crate) fn of(text: StoredText<'a, D, N>) -> StoredFile<'a, D, N, L>
        requires seen { (D.state text.disk).seen ≡ L.lent.disk.seen }
        requires types { text.types ≡ L.lent.types }
        ensures { result ≡ text.entry }
    {
        StoredFile::<'a, D, N, L> {
            text,
            lent: PhantomData,
        }
    }

    /// Its text.
    pub(crate) fn into_text(self) -> StoredText<'a, D, N>
        ensures is { result ≡ self.entry }
        ensures seen { (D.state result.disk).seen ≡ L.lent.disk.seen }
        ensures types { result.types ≡ L.lent.types }
    {
        self.text
    }
}

impl<'a, D: Disk, N: KeepsTexts + Drop, L: Lent> StoredFile<'a, D, N, L> {
    /// The file of a number. Makes no call of the disk, and takes no memory.
    pub fn new(archive: &'a Archive<N>, number: u32, disk: &D) -> StoredFile<'a, D, N, L>
        requires opened { Opens (D.state disk.now).seen (shown N.kept archive.now) }
        requires there { number < length (shown N.kept archive.now).files }
        requires seen { (D.state disk.now).seen ≡ L.lent.disk.seen }
        requires types { (shown N.kept archive.now).kept.types ≡ L.lent.types }
        ensures tells { TellsFile number L.lent.disk.seen result.left }
        ensures given { result.given ≡ 0 }
        ensures faults { result.faults ≡ 0 }
    {
        StoredFile::of(StoredText::new(archive, number, disk))
    }
}
