//! Tests of dictionaries, and of what threads share of them, over the public calls of their crates.
#![tactic(auto)]

#[cfg(test)]
mod dict_core_tests;
#[cfg(test)]
mod dict_lock_tests;
#[cfg(test)]
mod ingest_fork_beside_tests;
#[cfg(test)]
mod ingest_fork_tests;
#[cfg(test)]
mod telling;
