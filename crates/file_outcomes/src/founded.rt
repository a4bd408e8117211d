//! A disk that tells its bytes only where they were those of an archive that is known.
//!
//! What is done to an archive is proved over bytes that stand for a legal journal. Whether those of a disk
//! do is not asked when the program runs: it is a premise of what is said of the call. So the calls below
//! are made over this disk, which tells its bytes only where the premise holds.
ghost use Rattle.std.specs.Prelude.{◌≡◌, ℕ, Bool, false, is_some, Option, None};
ghost use Rattle.command_answers.specs.Known.{KnownArchive, told_if};
ghost use Rattle.file_outcomes.specs.JournalAt.{AreParts};
ghost use Rattle.file_outcomes.specs.StepsKnown.{told_lawful};

use crate::journal_end::JournalEnd;
use disk_journal::Journal;
use log_seams::{Disk, Failed};
use std::marker::{Brand, PhantomData};

/// The archive that a disk is known to hold, if any, for proofs alone. What is said of a call holds for
/// each.
pub trait Base {
    /// The archive.
    ghost archive: { Option KnownArchive };
}

impl Base for Brand {
    ghost archive = { None };
}

/// A disk that is lent, for proofs alone.
pub trait Lent {
    /// Which borrow it is.
    ghost name: { ℕ };

    /// Whether the disk tells its bytes.
    ghost told: { Bool };

    /// Whether they are to be told.
    ghost tells: { Bool };
}

impl Lent for Brand {
    ghost name = { 0 };

    ghost told = { false };

    ghost tells = { false };
}

/// A disk whose bytes are told only where they are to be.
#[derive(Drop)]
pub struct Founded<'d, D: Disk, L: Lent> {
    /// The disk.
    pub disk: &'d mut D,
    /// Which borrow it is.
    pub lent: PhantomData<L>,
    ghost same: { disk.ghost_name ≡ L.name },
    ghost told: { is_some (D.state disk.now).seen ≡ L.told },
}

impl<'d, D: Disk, L: Lent> Disk for Founded<'d, D, L> {
    ghost state = { λ f. told_if L.tells (D.state f.disk.now) };

    fn len(&mut self) -> Result<u64, Failed> {
        self.disk.len()
    }

    fn read(&mut self, at: u64, buf: &mut [u8]) -> Result<usize, Failed> {
        self.disk.read(at, buf)
    }

    fn write(&mut self, at: u64, bytes: &[u8]) -> Result<(), Failed> {
        self.disk.write(at, bytes)
    }

    fn sync(&mut self) -> Result<(), Failed> {
        self.disk.sync()
    }

    fn faults(&self) -> u64 {
        self.disk.faults()
    }

    ghost lawful = { λ f. told_lawful L.tells (D.state f.disk.now) (D.lawful f.disk.now) };
}

/// A journal in its parts.
#[derive(Drop)]
pub struct PartedJournal<'d, D: Disk, L: Lent> {
    /// Its disk, which tells its bytes only where it is to.
    pub founded: Founded<'d, D, L>,
    /// Where it has come to.
    pub end: JournalEnd,
}

/// Parts a journal, so that it can be gone on with over the disk that tells its bytes only where it is
/// to.
pub fn part_journal<'d, D: Disk, L: Lent>(journal: Journal<'d, D>) -> PartedJournal<'d, D, L>
    requires lent { journal.disk.ghost_name ≡ L.name }
    requires told { is_some (D.state journal.disk.now).seen ≡ L.told }
    ensures parts { AreParts journal.entry result.founded.disk.now result.end }
{
    let Journal {
        disk,
        header,
        place,
        count,
        closed,
    } = journal;
    let founded = Founded::<'d, D, L> {
        disk,
        lent: PhantomData,
    };
    let end = JournalEnd {
        header,
        place,
        count,
        closed,
    };
    PartedJournal { founded, end }
}
