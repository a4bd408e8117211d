//! The text of one file of an archive, without the disk that it is read from.
ghost use Rattle.std.specs.Prelude.{◌≡◌, ◌<◌, length};
ghost use Rattle.archive_open.specs.Archive.{shown};
ghost use Rattle.archive_open.specs.Shown.{Opens};
ghost use Rattle.archive_text.specs.Told.{TellsFile};

use crate::places::{ends_open, segments_of};
use crate::told_text::ToldText;
use archive_open::{Archive, KeepsTexts};
use log_seams::Disk;
use row_codec::Names;
use std::marker::Model;

/// The text of one file of an archive, without the disk that it is read from: what a source is made
/// of, and what is left of the source at its end.
#[derive(Drop)]
pub struct StoredText<'a, D: Disk, N: Names> {
    pub(crate) told: ToldText<'a, D, N>,
    /// How many of its bytes were given.
    pub(crate) given: u64,
    /// How often a read of it has failed.
    pub(crate) faults: u64,
}

impl<'a, D: Disk, N: Names> Model for StoredText<'a, D, N> {
    ghost use Rattle.std.specs.Prelude.{◌≡◌, IfSome, None, drop, option_map};
    ghost use Rattle.archive_open.specs.Shown.{StandsForNone};
    ghost use Rattle.archive_text.specs.State.{StoredState};

    ghost Value = { StoredState D };

    ghost view = { λ s. record {
      disk = s.told.disk.value;
      types = N.types s.told.names.now;
      left = option_map (drop s.given) s.told.has.0;
      given = s.given;
      faults = s.faults;
    } };

    ghost invariant = { λ s. s.told.has.0 ≡ None
        → IfSome (D.state s.told.disk.value).seen StandsForNone };
}

impl<'a, D: Disk, N: KeepsTexts + Drop> StoredText<'a, D, N> {
    /// The text of the file of a number. Makes no call of the disk, and takes no memory.
    pub fn new(archive: &'a Archive<N>, number: u32, disk: &D) -> StoredText<'a, D, N>
        requires opened { Opens (D.state disk.now).seen (shown N.kept archive.now) }
        requires there { number < length (shown N.kept archive.now).files }
        ensures tells { TellsFile number (D.state disk.now).seen result.left }
        ensures disk { result.disk ≡ disk.now }
        ensures types { result.types ≡ (shown N.kept archive.now).kept.types }
        ensures given { result.given ≡ 0 }
        ensures faults { result.faults ≡ 0 }
    {
        let places = segments_of(archive.segments().as_slice(), number);
        let open_end = ends_open(&archive.files().as_slice()[number as usize]);
        let told = ToldText::new(archive.names(), places, open_end, disk);
        StoredText {
            told,
            given: 0,
            faults: 0,
        }
    }
}
