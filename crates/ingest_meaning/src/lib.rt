//! What an ingest makes of messages, as definitions that the crates above share: which messages a log
//! gives, how they are cut into segments, when a dictionary is full by them, and what has no room.
#![tactic(auto)]

mod refusal;

pub use refusal::RegisterRefusal;
