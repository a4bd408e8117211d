//! Tests of the bytes of archives, over the public calls of their crates.
#![tactic(auto)]

#[cfg(test)]
mod column_store_tests;
#[cfg(test)]
mod message_reader_tests;
#[cfg(test)]
mod record_format_tests;
#[cfg(test)]
mod segment_format_tests;
#[cfg(test)]
mod telling;
