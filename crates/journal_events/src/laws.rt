//! Laws, each the contract of a function that does nothing.
ghost use Rattle.std.specs.Prelude.{ℕ, List, Option};
ghost use Rattle.archive_merge.specs.Behind.{SecondView};
ghost use Rattle.archive_merge.specs.declared.file.Merged.{Merged};
ghost use Rattle.archive_merge.specs.declared.refusal.MergeRefusal.{MergeRefusal};
ghost use Rattle.journal_events.specs.ByEvents.{IngestsByEvents, MergesByEvents};

use disk_journal::Journal;
use ingest_workers::Job;
use log_seams::{Disk, Source};

/// What an ingest adds to a journal is added by events of the machine, and one event writes each
/// entry. They lead from a state of the journal of before, which events led to.
pub fn ingests_by_events<'d, D: Disk, S: Source>(
    rows: u32,
    old: &[Job<S>],
    new: &[Job<S>],
    before: &Journal<'d, D>,
    after: &Journal<'d, D>,
)
    ensures { IngestsByEvents S.left rows old.now new.now before.now after.now }
{}

/// What a merge adds to a journal is added by events of the machine too, whatever it was answered.
pub fn merges_by_events<'d, D: Disk>(before: &Journal<'d, D>, after: &Journal<'d, D>)
    ensures { (second : SecondView) (first : ℕ) (names : List (List ℕ)) (files : List Merged)
        (refusal : Option MergeRefusal)
        → MergesByEvents second first names files refusal before.now after.now }
{}
