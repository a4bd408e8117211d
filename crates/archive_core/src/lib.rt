//! Whether a journal is legal, entry by entry.
//!
//! A [`Judge`] keeps of the entries so far what decides over the next one: the texts of both
//! dictionaries, and of each file how many messages it has and how it ends.
#![tactic(auto)]

mod books;
mod held;
mod judge;
mod log_types;
mod message;
mod numbers;
mod refusal;
mod row_judge;
mod rows;
mod segment;
mod slots;
mod texts;

pub use books::Books;
pub use judge::Judge;
pub use message::is_message;
pub use numbers::push_numbers;
pub use refusal::JudgeRefusal;
pub use row_judge::RowJudge;
pub use rows::Rows;
pub use segment::{Part, ends_well, may_follow};
pub use texts::is_fair;
