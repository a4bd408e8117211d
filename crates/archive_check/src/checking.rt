//! The check of an archive.
ghost use Rattle.std.specs.Prelude.{◌≡◌, ◌<◌, ◌+◌, ◌≤◌, ◌^◌, ℕ, IfOk, IfSome, IsErrOf, IsFalse, IsTrue, OnOk};
ghost use Rattle.log_seams.specs.Disk.{KeepsBytes, Rests};
ghost use Rattle.log_seams.specs.Outside.{CountsOf};
ghost use Rattle.disk_journal.specs.Place.{ClosedAt};
ghost use Rattle.step_count.specs.Opens.{OpensFor};
ghost use Rattle.check_meaning.specs.Checked.{DamagedAt, Stood};
ghost use Rattle.archive_check.specs.Checked.{Checked};

use crate::take::take;
use archive_core::{Judge, JudgeRefusal};
use check_meaning::{CheckRefusal, Summary};
use disk_journal::{Journal, LoadRefusal, StartRefusal, WalkRefusal, start};
use log_seams::Disk;
use std::alloc::Global;
use std::marker::Brand;
use std::sync::ledger::{Blank, Ledger};
use step_count::Steps;

// Why the check ends where the start refused.
fn of_start(refusal: StartRefusal) -> CheckRefusal
    ensures fault { result ≡ CheckRefusal.DiskFault → refusal ≡ StartRefusal.DiskFault }
    ensures other { refusal ≡ StartRefusal.DiskFault → result ≡ CheckRefusal.DiskFault }
    ensures damaged { (at : ℕ) → result ≡ CheckRefusal.Damaged at
        → refusal ≡ StartRefusal.Damaged at }
{
    match refusal {
        StartRefusal::DiskFault => CheckRefusal::DiskFault,
        StartRefusal::Damaged { at } => CheckRefusal::Damaged { at },
    }
}

// Why the check ends where the walk refused.
fn of_walk(refusal: WalkRefusal) -> CheckRefusal
    ensures fault { result ≡ CheckRefusal.DiskFault → refusal ≡ WalkRefusal.DiskFault }
    ensures other { refusal ≡ WalkRefusal.DiskFault → result ≡ CheckRefusal.DiskFault }
    ensures damaged { (at : ℕ) → result ≡ CheckRefusal.Damaged at
        → refusal ≡ WalkRefusal.Damaged at }
{
    match refusal {
        WalkRefusal::DiskFault => CheckRefusal::DiskFault,
        WalkRefusal::Damaged { at } => CheckRefusal::Damaged { at },
    }
}

// Why the check ends where a payload was not loaded.
fn of_load(refusal: LoadRefusal) -> CheckRefusal
    ensures fault { result ≡ CheckRefusal.DiskFault → refusal ≡ LoadRefusal.DiskFault }
    ensures other { refusal ≡ LoadRefusal.DiskFault → result ≡ CheckRefusal.DiskFault }
    ensures damaged { (at : ℕ) → result ≡ CheckRefusal.Damaged at
        → refusal ≡ LoadRefusal.Damaged at }
{
    match refusal {
        LoadRefusal::DiskFault => CheckRefusal::DiskFault,
        LoadRefusal::Damaged { at } => CheckRefusal::Damaged { at },
        LoadRefusal::OutOfMemory => CheckRefusal::OutOfMemory,
    }
}

// Why the check ends where the judge refused the record at this place.
fn of_judge(refusal: JudgeRefusal, at: u64) -> CheckRefusal
    ensures none { result ≡ CheckRefusal.DiskFault → ⊥ }
    ensures damaged { (place : ℕ) → result ≡ CheckRefusal.Damaged place → (place ≡ at)
        × (refusal ≡ JudgeRefusal.Illegal) }
{
    match refusal {
        JudgeRefusal::Illegal => CheckRefusal::Damaged { at },
        JudgeRefusal::OutOfMemory => CheckRefusal::OutOfMemory,
    }
}

// Takes the next record; false at the closed gate.
fn check_next<D: Disk, L: Ledger>(
    journal: &mut Journal<'_, D>,
    judge: &mut Judge,
    alloc: Global,
    steps: &mut Steps<L>,
) -> Result<bool, CheckRefusal>
    requires { Checked journal.old.header journal.old.place journal.old.count judge.old
        (D.state journal.old.disk.now).seen }

    // what stays
    ensures name { journal.new.disk.ghost_name ≡ journal.old.disk.ghost_name }
    ensures rests { Rests (D.state journal.old.disk.now) (D.state journal.new.disk.now) }

    // by the answer
    ensures checked { OnOk result
        (Checked journal.new.header journal.new.place journal.new.count judge.new
        (D.state journal.new.disk.now).seen) }
    ensures ended { IfOk result (λ more. IsFalse more
        → ClosedAt journal.new.place (D.state journal.new.disk.now).seen) }
    ensures further { IfOk result (λ more. IsTrue more
        → journal.old.place + 10 ≤ journal.new.place) }

    // causes
    ensures damaged { (at : ℕ) → IsErrOf result (CheckRefusal.Damaged at)
        → IfSome (D.state journal.old.disk.now).seen (DamagedAt at) }
    ensures counts { CountsOf CheckRefusal.DiskFault
        (D.state journal.old.disk.now).faults (D.state journal.new.disk.now).faults result }
{
    let next = match journal.next_place() {
        Ok(next) => next,
        Err(refusal) => return Err(of_walk(refusal)),
    };
    let Some(record) = next else {
        return Ok(false);
    };
    let payload = match journal.load(alloc, record.payload, record.length) {
        Ok(payload) => payload,
        Err(refusal) => return Err(of_load(refusal)),
    };
    match take(judge, alloc, record.kind, payload.as_slice(), steps) {
        Ok(()) => Ok(true),
        Err(refusal) => Err(of_judge(refusal, record.at)),
    }
}

// The place of the gate that a walk has come to, which is a number of 64 bits.
fn place_of<D: Disk>(journal: &Journal<'_, D>) -> u64
    ensures place { result ≡ journal.now.place }
    ensures fits { result < 2 ^ 64 }
{
    journal.place
}

// Takes all records up to the closed gate.
fn check_all<D: Disk, L: Ledger>(
    journal: &mut Journal<'_, D>,
    judge: &mut Judge,
    alloc: Global,
    steps: &mut Steps<L>,
) -> Result<(), CheckRefusal>
    requires { Checked journal.old.header journal.old.place journal.old.count judge.old
        (D.state journal.old.disk.now).seen }

    // what stays
    ensures name { journal.new.disk.ghost_name ≡ journal.old.disk.ghost_name }
    ensures rests { Rests (D.state journal.old.disk.now) (D.state journal.new.disk.now) }

    // by the answer
    ensures checked { OnOk result
        (Checked journal.new.header journal.new.place journal.new.count judge.new
        (D.state journal.new.disk.now).seen) }
    ensures ended { OnOk result (ClosedAt journal.new.place (D.state journal.new.disk.now).seen) }

    // causes
    ensures damaged { (at : ℕ) → IsErrOf result (CheckRefusal.Damaged at)
        → IfSome (D.state journal.old.disk.now).seen (DamagedAt at) }
    ensures counts { CountsOf CheckRefusal.DiskFault
        (D.state journal.old.disk.now).faults (D.state journal.new.disk.now).faults result }
{
    // Each record has ten bytes at least, so a journal ends before so many.
    for _passed in 0..u64::MAX {
        if !check_next(journal, judge, alloc, steps)? {
            return Ok(());
        }
    }
    let _place = place_of(journal);
    unreachable!()
}

// The check, with a counter that nobody reads.
fn check_with<D: Disk, L: Ledger>(
    alloc: Global,
    disk: &mut D,
    blank: Blank,
) -> Result<Summary, CheckRefusal>
    requires { OpensFor blank L.name L.parts }
    ensures keeps { KeepsBytes (D.state disk.old) (D.state disk.new) }
    ensures stood { IfOk result (λ summary. IfSome (D.state disk.old).seen (Stood summary)) }
    ensures damaged { (at : ℕ) → IsErrOf result (CheckRefusal.Damaged at)
        → IfSome (D.state disk.old).seen (DamagedAt at) }
    ensures counts { CountsOf CheckRefusal.DiskFault (D.state disk.old).faults
        (D.state disk.new).faults result }
{
    let header = match start(disk) {
        Ok(header) => header,
        Err(refusal) => return Err(of_start(refusal)),
    };
    let mut judge = Judge::new(alloc, &header);
    let mut steps: Steps<L> = Steps::new(blank);
    let mut journal = Journal::begin(disk, header);
    check_all(&mut journal, &mut judge, alloc, &mut steps)?;
    let (files, messages) = judge.counts();
    Ok(Summary {
        entries: journal.count(),
        files,
        messages,
    })
}

/// Whether the bytes of a disk are a legal archive: `Ok` with what it has, or the place of the first
/// damage. It only reads, after a sync.
///
/// # Errors
///
/// [`CheckRefusal::Damaged`] exactly where a disk that tells its bytes has none that stand for a legal
/// journal, [`CheckRefusal::DiskFault`] where its count of faults rose, or
/// [`CheckRefusal::OutOfMemory`].
pub fn check<D: Disk>(alloc: Global, disk: &mut D) -> Result<Summary, CheckRefusal>
    // what stays
    ensures keeps { KeepsBytes (D.state disk.old) (D.state disk.new) }

    // by the answer
    ensures stood { IfOk result (λ summary. IfSome (D.state disk.old).seen (Stood summary)) }

    // causes
    ensures damaged { (at : ℕ) → IsErrOf result (CheckRefusal.Damaged at)
        → IfSome (D.state disk.old).seen (DamagedAt at) }
    ensures counts { CountsOf CheckRefusal.DiskFault (D.state disk.old).faults
        (D.state disk.new).faults result }
{
    check_with::<D, Brand>(alloc, disk, Blank::new(1))
}
