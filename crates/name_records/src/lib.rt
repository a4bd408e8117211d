//! The names of files behind a journal, in records of as many as one may have.
#![tactic(auto)]

mod registering;

pub use registering::{Registered, register_names};
