//! Tests of the crates over whole archives, over their public calls.
#![tactic(auto)]

#[cfg(test)]
mod archive_check_tests;
#[cfg(test)]
mod archive_machine_tests;
#[cfg(test)]
mod archive_merge_tests;
#[cfg(test)]
mod archive_open_tests;
#[cfg(test)]
mod disk_seal_tests;
#[cfg(test)]
mod ingest_workers_fault_tests;
#[cfg(test)]
mod ingest_workers_tests;
#[cfg(test)]
mod search_engine_tests;
#[cfg(test)]
mod segment_pages_tests;
#[cfg(test)]
mod worn;
