//! Time stamps at the front of log lines: read as a pattern and a moment, and printed back.
//!
//! There are twenty-six patterns, each with a form: the shape of its day and time of day, its
//! fraction of the second and its last byte. A moment is a count since 1970-01-01T00:00:00, read
//! without zone, in the proleptic Gregorian calendar: of milliseconds for the patterns 1 to 10, of
//! microseconds for 11 to 26.
#![tactic(auto)]

mod civil_time;
mod digits;
mod field;
mod form;
pub mod laws;
mod patterns;
mod printer;
mod shape;
mod stamps;

pub use printer::StampPrinter;
pub use stamps::{Stamp, print_stamp, read_micro, read_stamp, stamp_ok};
