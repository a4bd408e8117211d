use generated_logs::GeneratedShelf;
use log_seams::{Shelf, Source};
use std::test::Fail;

// The first lines of logs: the number that they are made from, the name, and the line.
const FIRST: &[(u32, &str, &[u8])] = &[
    (
        1,
        "gen0",
        b"2023-11-14 22:13:20,010 INFO worker_0 task_8 took 1.8 s\n",
    ),
    (
        0,
        "gen0",
        b"2023-11-14 22:13:20,010 INFO worker_0 task_7 took 1.7 s\n",
    ),
    (
        0,
        "gen1",
        b"2023-11-14 22:13:20,010 INFO worker_1 task_20 took 1.0 s\n",
    ),
    (
        0,
        "gen2",
        b"2023-11-14 22:13:20,010 WARN worker_2 task_33 took 1.3 s\n",
    ),
    (
        4_294_967_295,
        "gen3",
        b"2023-11-14 22:13:20,010 INFO worker_3 task_341 took 1.1 s\n",
    ),
];

/// Whether the first of a million lines of a log is this one.
fn begins_with(number: u32, name: &str, line: &[u8]) -> bool {
    let mut shelf = GeneratedShelf::new(number, 1_000_000);
    let Ok(mut log) = shelf.open_log(name) else {
        return false;
    };
    let mut buf = [0; 64];
    let Ok(count) = log.read(&mut buf) else {
        return false;
    };
    buf[..count].starts_with(line)
}

/// How many bytes a log has, as far as a few reads give them.
fn length_of(lines: u8) -> usize {
    let mut shelf = GeneratedShelf::new(1, u32::from(lines));
    let Ok(mut log) = shelf.open_log("gen0") else {
        return 0;
    };
    let mut buf = [0; 40];
    let mut sum: usize = 0;
    for _ in 0..8 {
        match log.read(&mut buf) {
            Ok(count) => sum = sum.saturating_add(count),
            Err(_) => return 0,
        }
    }
    sum
}

#[test]
fn logs_begin_with_these_lines(rt: HostRuntime) -> Result<(), Fail> {
    for (number, name, line) in FIRST {
        assert!(rt; begins_with(*number, name, line), "{name:?}");
    }
    Ok(())
}

#[test]
fn logs_end_and_others_are_not_there(rt: HostRuntime) -> Result<(), Fail> {
    assert!(rt; length_of(1) == 56 && length_of(2) == 113);
    assert!(rt; !begins_with(1, "gen4", b"") && !begins_with(1, "gen", b""));
    Ok(())
}
