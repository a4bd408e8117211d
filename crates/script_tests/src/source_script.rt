//! Logs that cannot be opened or read.
use crate::play::failing_line;

static SOURCE_SCRIPT: &str = r#"
# ---- a read that fails leaves the messages before
row
disk $empty
log b.log "7 x7\n8" 0
call ingest b.log
is 4 "0 0 part b.log\n" "clpa: b.log: read failed\n"
call decode 0
is 0
# the message without its line end is not whole
row
disk $empty
log b.log "7 x7\n8" 1
call ingest b.log
is 4 "0 1 part b.log\n" "clpa: b.log: read failed\n"
call decode 0
is 0 "7 x7\n"

# of a name that is given twice each file has what was before
row
disk $empty
call ingest b.log b.log
is 4 "0 1 part b.log\n1 1 part b.log\n" "clpa: b.log: read failed\nclpa: b.log: read failed\n"
call decode 0
is 0 "7 x7\n"
call decode 1
is 0 "7 x7\n"

# ---- a log whose reads fail is opened once a call
log n.log "a\nb" 1
opening 1
call show n.log
is 4 "a\n" "clpa: n.log: read failed\n"
opening 0
call show n.log
is 4 "" "clpa: n.log: cannot open\n"

# ---- an opening that fails leaves the other logs whole
log a.log "a\n"
log b.log "b\n"
log c.log "c\n"
row
disk $empty
opening 1
call ingest a.log b.log c.log
is 4 "0 1 whole a.log\n1 0 part b.log\n2 1 whole c.log\n" "clpa: b.log: cannot open\n"

# ---- a name that is given twice is two files
row
disk $empty
call ingest a.log a.log
is 0 "0 1 whole a.log\n1 1 whole a.log\n"
call search a
is 0 "a.log:1:a\na.log:1:a\n"
"#;

#[test]
fn failing_logs_are_told(rt: HostRuntime) {
    let line = failing_line(&rt, rt.alloc(), SOURCE_SCRIPT, "");
    assert!(rt; line == 0, "line {line}");
}
