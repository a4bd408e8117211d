//! Messages as rows of numbers, kept in columns.
//!
//! A row has a message's stamp, the number of its log type and a word for each of its variables.
//! Contracts see columns as the list of their rows; in memory and on the disk each field has an array
//! of its own.
#![tactic(auto)]

mod arrays;
mod columns;
mod laws;
mod range;
mod row;
mod sums;

pub use arrays::Arrays;
pub use columns::Columns;
pub use laws::one_list_of_rows;
pub use range::Range;
pub use row::{Row, RowList, RowRef};
