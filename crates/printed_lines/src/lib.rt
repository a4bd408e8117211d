//! Messages as printed lines: the name of the file, the number in the file, the message.
//!
//! The definitions stand in `specs/Lines.antt` and `specs/Printed.antt`.
#![tactic(auto)]

mod label;
mod line;
mod rows;

pub use label::put_label;
pub use rows::print_segment;
