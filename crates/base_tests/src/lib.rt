//! Tests of the crates that the others stand on, over their public calls.
#![tactic(auto)]

#[cfg(test)]
mod disk_calls;
#[cfg(test)]
mod disk_parts;
#[cfg(test)]
mod generated_logs_tests;
#[cfg(test)]
mod halting;
#[cfg(test)]
mod host_files_tests;
#[cfg(test)]
mod log_seams_tests;
#[cfg(test)]
mod log_sources_tests;
#[cfg(test)]
mod mem_disk_tests;
#[cfg(test)]
mod mem_part_tests;
#[cfg(test)]
mod plain_list_tests;
#[cfg(test)]
mod real_disk_tests;
#[cfg(test)]
mod sink_pieces_tests;
#[cfg(test)]
mod step_count_tests;
#[cfg(test)]
mod telling;
#[cfg(test)]
mod turn_lock_tests;
