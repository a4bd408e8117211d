//! A journal on a disk: records that are appended behind gates, so that a crash at any moment leaves
//! the journal as it was, or with the new record.
#![tactic(auto)]

mod creation;
mod gates;
mod journal;
mod laws;
mod record;
mod refusals;
mod series;
mod synced;
mod walk;

pub use creation::create;
pub use journal::{Journal, start};
pub use laws::{frames_one, stand_for_one};
pub use record::{CLOSED_GATE, FRONT_LEN, OPEN_GATE, frame};
pub use refusals::{AppendRefusal, CreateRefusal, LoadRefusal, StartRefusal, WalkRefusal};
pub use series::append_each;
pub use walk::RecordPlace;
