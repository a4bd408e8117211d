//! The machine of one archive, whose events are what workers do in any order.
//!
//! Workers name texts, add messages and seal what they have in hand, each in its own time; the texts of a
//! dictionary are saved as one entry. What holds of the state holds for every list of events.
#![tactic(auto)]

mod event;
mod hands;
mod journal;
pub mod laws;
mod lookup;
mod machine;
mod run;
mod state;

pub use event::{Event, EventList};
pub use run::core_run;
pub use state::{Core, Hand, HandList};
