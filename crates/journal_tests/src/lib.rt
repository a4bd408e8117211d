//! Tests of a journal on a disk: its bytes, its refusals, and what crashes leave.
#![tactic(auto)]

#[cfg(test)]
mod disk_journal_tests;
#[cfg(test)]
mod short_disk_tests;
#[cfg(test)]
mod telling;

#[cfg(test)]
pub(crate) use telling::holds;
