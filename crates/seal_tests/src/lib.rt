//! Tests of a store whose disk stops or fails while a segment is committed, or a gate is looked at.
#![tactic(auto)]

#[cfg(test)]
mod commit_tests;
#[cfg(test)]
mod found_tests;
#[cfg(test)]
mod looks_tests;
#[cfg(test)]
mod quiet;
#[cfg(test)]
mod worked;
