//! Laws that are called.
use clp_commands::numbers_are_these;
use log_seams::MemDisk;
use write_commands::{rests_end_their_log, unopened_give_nothing};

#[test]
fn laws_of_ingest_hold() {
    unopened_give_nothing();
    rests_end_their_log::<MemDisk>();
}

#[test]
fn the_numbers_stand() {
    numbers_are_these();
}
