//! Tests of the commands, over `run`, as a program calls it: scripts, and what plays them.
#![tactic(auto)]

#[cfg(test)]
mod bench_script;
#[cfg(test)]
mod beside_tests;
#[cfg(test)]
mod calls;
#[cfg(test)]
mod checks;
#[cfg(test)]
mod count_script;
#[cfg(test)]
mod create_script;
#[cfg(test)]
mod damage_script;
#[cfg(test)]
mod disks;
#[cfg(test)]
mod fault_script;
#[cfg(test)]
mod ingest_script;
#[cfg(test)]
mod law_tests;
#[cfg(test)]
mod log_script;
#[cfg(test)]
mod loops;
#[cfg(test)]
mod machine;
#[cfg(test)]
mod merge_script;
#[cfg(test)]
mod merge_stop_script;
#[cfg(test)]
mod names;
#[cfg(test)]
mod naming;
#[cfg(test)]
mod output_script;
#[cfg(test)]
mod outside;
#[cfg(test)]
mod play;
#[cfg(test)]
mod play_tests;
#[cfg(test)]
mod reading_script;
#[cfg(test)]
mod rounds;
#[cfg(test)]
mod search_script;
#[cfg(test)]
mod source_script;
#[cfg(test)]
mod stop_script;
#[cfg(test)]
mod texts;
#[cfg(test)]
mod turns_tests;
#[cfg(test)]
mod upgrade_script;
#[cfg(test)]
mod upgrade_stop_script;
#[cfg(test)]
mod wanted;
#[cfg(test)]
mod watch_script;
#[cfg(test)]
mod watch_stop_script;
