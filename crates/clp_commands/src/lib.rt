//! The top call: what the program's words ask for, what it prints, and its answers.
//!
//! [`run`] is the top call. Its contract says for each command what the output takes, and for each
//! refusal its cause. It calls [`run_without_turns`] first, which does all commands that wait for no
//! turn of a lock, and returns on every input. The commands stand in `log_commands`,
//! `read_commands`, `count_command`, `write_commands`, `bench_command`, `merge_command`,
//! `upgrade_command` and `watch_command`.
#![tactic(auto)]

mod laws;
mod top_call;
mod without_turns;

pub use command_refusals::Refusal;
pub use laws::numbers_are_these;
pub use top_call::run;
pub use without_turns::run_without_turns;
