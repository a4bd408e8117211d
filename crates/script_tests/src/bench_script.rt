//! Archives of generated logs, over a disk in memory.
use crate::play::failing_line;

static BENCH_SCRIPT: &str = r#"
# an archive of generated logs is summed up

row
call bench 1 10 1
is 0 "messages 40 matched 4 segments 4\n"

row
call bench 0 1 64
is 0 "messages 4 matched 1 segments 4\n"

row
disk "x"
call bench 1 10 1
is 8 "" "clpa: archive: not empty, 1 bytes\n"
"#;

#[test]
fn generated_logs_are_summed_up(rt: HostRuntime) {
    let line = failing_line(&rt, rt.alloc(), BENCH_SCRIPT, "");
    assert!(rt; line == 0, "line {line}");
}
