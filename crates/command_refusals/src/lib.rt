//! What a refusal of the program is: its cause, its line on the error output, and its status; and how the
//! commands of each kind are refused.
//!
//! [`Refusal`] is what is printed. A command that prints a log is refused by a [`LogRefusal`], one that
//! reads an archive by a [`ReadRefusal`], the one that prints a file by a [`FileRefusal`]. One that adds
//! files is refused by an [`AddRefusal`], and a file that is not whole has a [`PartCause`]. The one that
//! adds the files of a second archive is refused by a [`MergeRefusal`], the one that makes a new archive
//! of an older one by an [`UpgradeRefusal`].
#![tactic(auto)]

mod ending;
mod into_refusal;
mod outcome;
mod refusal;

pub use ending::{answer, report_merge};
pub use into_refusal::{
    refusal_of_add, refusal_of_create, refusal_of_file, refusal_of_log, refusal_of_part,
    refusal_of_pattern, refusal_of_print, refusal_of_read, refusal_of_upgrade, refusal_of_words,
};
pub use outcome::{
    AddRefusal, FileRefusal, LogRefusal, MergeRefusal, PartCause, ReadRefusal, UpgradeRefusal,
    of_second,
};
pub use refusal::{Refusal, report, report_file};
