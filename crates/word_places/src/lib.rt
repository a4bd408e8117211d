//! Log types and words that stay on the disk: where each record of them stands, and what reads them
//! from there.
//!
//! An archive that is opened for reading keeps of these records the places alone. A search reads
//! what it asks. The log types are read before it begins, through one buffer, and those that it has
//! use for are kept. One pass over the payloads of words finds those that hold a needle, and the
//! words of a row are read with their record when they are first wanted.
#![tactic(auto)]

mod finding;
mod gaps;
mod held;
mod hints;
mod holding;
mod laws;
mod lending;
mod needle;
mod order;
mod pass;
mod place;
mod reading;
mod record;
mod refusal;
mod sharing;
mod slots;
mod taking;
mod type_slots;
mod types;

pub use finding::find_words;
pub use held::{HeldRecord, HeldWords};
pub use laws::{
    held_agree, held_stay, holders_have, rows_are_local, rows_are_of_type, words_are_one,
};
pub use needle::{Fit, Needle};
pub use pass::{add_holders, word_found};
pub use place::WordsPlace;
pub use record::RecordWords;
pub use refusal::HoldRefusal;
pub use sharing::SharedWords;
pub use taking::{TakesTexts, take_texts};
pub use types::TypeTexts;
