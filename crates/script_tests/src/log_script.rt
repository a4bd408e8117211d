//! The commands over logs, with logs and outputs in memory.
use crate::play::failing_line;

static LOG_SCRIPT: &str = r#"
# ---- show marks variables
log n.log ""
call show n.log
is 0
log n.log "\n"
call show n.log
is 0 "\n"
log n.log "a\r\nb"
call show n.log
is 0 "a\r\nb\n"
log n.log "x=foo foo bad to\n"
call show n.log
is 0 "x={w:foo} foo {w:bad} to\n"
log n.log "x=foo foo bad to"
call show n.log
is 0 "x={w:foo} foo {w:bad} to\n"
log n.log "=_ =a a\n"
call show n.log
is 0 "=_ ={w:a} a\n"
log n.log "INFO Task task_12 assigned to container: [NodeAddress:172.128.0.41, ContainerID:container_15], operation took 0.335 SECONDS\n"
call show n.log
is 0 "INFO Task {w:task_12} assigned to container: [NodeAddress:{w:172.128.0.41}, ContainerID:{w:container_15}], operation took {d:0.335=0000000000014F32} SECONDS\n"
log n.log "0 -0 007 9223372036854775807 9223372036854775808 -9223372036854775808 +5\n"
call show n.log
is 0 "{i:0=0000000000000000} {w:-0} {w:007} {i:9223372036854775807=7FFFFFFFFFFFFFFF} {w:9223372036854775808} {i:-9223372036854775808=8000000000000000} {w:+5}\n"
log n.log "1. .5 -.5 -12.50 00.10 1.2.3 1234567890123456.7 .9999999999999999\n"
call show n.log
is 0 "{w:1.} {d:.5=0000000000000500} {d:-.5=8000000000000500} {d:-12.50=800000000004E231} {d:00.10=0000000000000A31} {w:1.2.3} {w:1234567890123456.7} {d:.9999999999999999=2386F26FC0FFFFFF}\n"
log n.log "\x11\x12\x13\\\xFF"
call show n.log
is 0 "\x11\x12\x13\\\xFF\n"
log n.log "\x80be\xFF"
call show n.log
is 0 "\x80{w:be}\xFF\n"
log n.log "-1=-1\n\n7"
call show n.log
is 0 "{i:-1=FFFFFFFFFFFFFFFF}={i:-1=FFFFFFFFFFFFFFFF}\n\n{i:7=0000000000000007}\n"

# ---- scan prints what matches
log a.log "12534\n12 34\na12*34\n\nlast"
call scan 12*34 a.log
is 0 "a.log:1:12534\na.log:2:12 34\na.log:3:a12*34\n"
call scan 12\*34 a.log
is 0 "a.log:3:a12*34\n"
call scan "" a.log
is 0 "a.log:1:12534\na.log:2:12 34\na.log:3:a12*34\na.log:4:\na.log:5:last\n"
call scan ? a.log
is 0 "a.log:1:12534\na.log:2:12 34\na.log:3:a12*34\na.log:5:last\n"
call scan l?st a.log
is 0 "a.log:5:last\n"
call scan 5?1 a.log
is 0
call scan nowhere a.log
is 0

# ---- refusals have their lines
call
is 2 "" $usage
call show
is 2 "" $usage
call show a.log b.log
is 2 "" $usage
call show -a.log
is 2 "" $usage
call Show a.log
is 2 "" $usage
call scan a.log
is 2 "" $usage
call scan -x a.log
is 2 "" $usage
call create a.log
is 2 "" $usage
call create --types 0
is 2 "" $usage
call create --bytes=33 --bytes=33
is 2 "" $usage
call --help
is 2 "" $usage
call bench 1 0 1
is 2 "" $usage
call show gone.log
is 4 "" "clpa: gone.log: cannot open\n"
call show -
is 4 "" "clpa: -: cannot open\n"
call show -- -a.log
is 4 "" "clpa: -a.log: cannot open\n"
call scan ab\ a.log
is 3 "" "clpa: pattern: lone backslash at 2\n"
call scan \\\ gone.log
is 3 "" "clpa: pattern: lone backslash at 2\n"

# ---- an output that fails has a front
room 0
call scan 12*34 a.log
front 7 "a.log:1:12534\na.log:2:12 34\n" $output_failed
room 20
call scan 12*34 a.log
front 7 "a.log:1:12534\na.log:2:12 34\n" $output_failed
room 0
call show a.log
front 7 "{i:12534=" $output_failed
room 3
call show a.log
front 7 "{i:12534=" $output_failed

# ---- a failing error output changes nothing else
log a.log "7x\n"
unsaid
call show
is 2
unsaid
call scan \ a.log
is 3
unsaid
call show gone.log
is 4
unsaid
call show a.log
is 0 "{w:7x}\n"

# ---- a read that fails ends the log
log n.log "a\nb" 0
call show n.log
is 4 "" "clpa: n.log: read failed\n"
log n.log "a\nb" 1
call show n.log
is 4 "a\n" "clpa: n.log: read failed\n"
log n.log "a\nb" 2
call show n.log
is 0 "a\nb\n"

# ---- a read that fails later ends the log: the lines that ended in the bytes taken, in reads of
# 262,144 bytes
repeat long 50000 "a b c d e\n"
log n.log $long 0
head want 0 $long
call show n.log
is 4 $want "clpa: n.log: read failed\n"
log n.log $long 1
head want 262140 $long
call show n.log
is 4 $want "clpa: n.log: read failed\n"
log n.log $long 2
head want 500000 $long
call show n.log
is 4 $want "clpa: n.log: read failed\n"
log n.log $long 3
head want 500000 $long
call show n.log
is 0 $want

# ---- an opening that fails is told, and the log is opened then
log n.log "a\n"
opening 0
call scan a n.log
is 4 "" "clpa: n.log: cannot open\n"
call scan a n.log
is 0 "n.log:1:a\n"
"#;

#[test]
fn logs_are_printed(rt: HostRuntime) {
    let line = failing_line(&rt, rt.alloc(), LOG_SCRIPT, "");
    assert!(rt; line == 0, "line {line}");
}
