//! Rows of one archive with the numbers of another.
//!
//! A row names texts by their numbers in the dictionaries of its archive. In another archive the same
//! message has a row of the same stamp, whole numbers and decimals, whose numbers are those of the same
//! texts there. So rows go from archive to archive without being written as text.
#![tactic(auto)]

mod laws;
mod log_types;
mod naming;
mod refusal;
mod renamed_row;
mod rows;
mod table;
mod tables;
mod words;

pub use laws::renamed_means_same;
pub use refusal::RenameRefusal;
pub use renamed_row::RenamedRow;
pub use rows::rename_row;
pub use tables::Tables;
