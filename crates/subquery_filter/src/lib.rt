//! Which segments cannot match a search, and which rows do.
//!
//! Both are decided from what is stored, with no memory taken: a segment by its head, a row by its
//! numbers and the texts that they name.
#![tactic(auto)]

mod accepting;
mod alone;
mod asking;
mod beside;
mod bits;
mod by_types;
mod filter;
mod known;
mod known_names;
mod laws;
mod letters;
mod marks;
mod needing;
mod needles;
mod number_text;
mod numbers;
mod rare;
mod rejecting;
mod rules;
mod run;
mod run_stamps;
mod runs;
mod shared;
mod short_text;
mod slots;
mod small;
mod stamps;
mod token;
mod tokens;
mod verdicts;

pub use accepting::accepts;
pub use asking::{AskedTypes, Asking};
pub use filter::Filter;
pub use known::{KnownWord, known_words};
pub use known_names::KnownNames;
pub use laws::{
    barren_has_no_match, rows_bring_chunks, rows_bring_closed, rows_bring_runs, rows_bring_tokens,
    verdicts_hold,
};
pub use rules::{barren, barren_by, is_outside};
pub use shared::PageTests;
pub use verdicts::{Verdict, verdict_of};
