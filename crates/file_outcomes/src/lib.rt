//! What came of files that were to be taken into an archive, and how it is told; and what the commands
//! share that add files to one.
#![tactic(auto)]

mod file_report;
mod founded;
mod holding;
mod journal_end;

pub use file_report::{FileReport, print_taken, refusal_of_cause, report_taken};
pub use founded::{Base, Founded, Lent, PartedJournal, part_journal};
pub use holding::{Holding, hold};
pub use journal_end::{JournalEnd, OpenedArchive};
