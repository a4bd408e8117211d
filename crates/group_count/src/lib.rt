//! Messages of an archive that a pattern matches, counted by the text of their log type, or by the
//! minute of their stamp.
//!
//! Messages are counted by numbers as they come, in a table of log types or one of minutes. At the
//! end a table gives its groups: each key that came, in order, with how often it did.
#![tactic(auto)]

mod archive_counting;
mod beside;
mod columns;
mod counts;
mod grouping;
mod joining;
mod judging;
mod lane;
mod lanes;
pub mod laws;
mod minutes;
mod page_counter;
mod page_taking;
pub mod printed;
mod refusal;
mod row_counting;
mod table;
mod tally;
mod text_tally;
mod types;
mod way;

pub use beside::Workers;
pub use grouping::{GroupQuery, group};
pub use judging::judge_stored;
pub use minutes::MinuteTable;
pub use refusal::TableRefusal;
pub use search_meaning::{Group, GroupBy, GroupList, GroupReport, Grouped};
pub use search_walk::SearchRefusal;
pub use types::TypeTable;
