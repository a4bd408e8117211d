//! The files of a second archive behind those of a first, over disks in memory.
use crate::play::failing_line;

static MERGE_SCRIPT: &str = r#"
# c.log and d.log share a word with a.log, in t.log a message has three lines
log a.log "task_1 done\ntask_2 done\n"
log c.log "task_2 done\n7\n"
log d.log "task_9 done\ntask_2 done"
log e.log ""
log u.log "a\x12\\b 7\n2023-11-14 22:13:20.000123 up\n"
log w.log "task_1 done\ntask_2 done\nup task_3\ntask_4 done\n"
log t.log "2023-11-14 22:13:20,000 INFO start\n\tat x.Y(Z.java:7)\n\tat x.Z(Z.java:9)\n"

# ---- archives are merged, and the second one stays

row
call create
call ingest a.log
swap
disk ""
call create
call ingest c.log
keep second
swap
call merge
is 0 "1 2 whole c.log\n"
call search task_2
is 0 "a.log:2:task_2 done\nc.log:1:task_2 done\n"
call check
is 0 "entries 7 files 2 messages 4\n"
call decode 1
is 0 "task_2 done\n7\n"
call merge
is 0 "2 2 whole c.log\n"
call check
is 0 "entries 9 files 3 messages 6\n"
call merge a
is 2 "" $usage
swap
image $second

# nothing to merge, and nothing before
row
call create
call ingest a.log
swap
disk ""
call create
keep second
swap
call merge
is 0
call check
is 0 "entries 4 files 1 messages 2\n"
swap
image $second

row
call create
swap
disk ""
call create
call ingest a.log e.log
keep second
swap
call merge
is 0 "0 2 whole a.log\n1 0 whole e.log\n"
call decode 1
is 0
swap
image $second

# segments stay as they were cut, words get the numbers of the first archive, equal names stay
row
call create
call ingest a.log
swap
disk ""
call create
call ingest --segment 1 d.log
call ingest a.log
keep second
swap
call merge
is 0 "1 2 whole d.log\n2 2 whole a.log\n"
call decode 1
is 0 "task_9 done\ntask_2 done"
call check
is 0 "entries 10 files 3 messages 6\n"
call search task_9
is 0 "d.log:1:task_9 done\n"
swap
image $second

# a row whose text has a placeholder's byte, and one with microseconds
row
call create --format=3
call ingest a.log
swap
disk ""
call create --format=3
call ingest u.log
keep second
swap
call merge
is 0 "1 2 whole u.log\n"
call search --from=1700000000000123 up
is 0 "u.log:2:2023-11-14 22:13:20.000123 up\n"
call decode 1
is 0 "a\x12\\b 7\n2023-11-14 22:13:20.000123 up\n"
swap
image $second

# a message of three lines, and a file of which the second archive has a part
row
call create --format=2
swap
disk ""
call create --format=2
call ingest t.log
keep second
swap
call merge
is 0 "0 1 whole t.log\n"
call decode 0
is 0 "2023-11-14 22:13:20,000 INFO start\n\tat x.Y(Z.java:7)\n\tat x.Z(Z.java:9)\n"
swap
image $second

row
call create
swap
disk ""
call create --types=1
call ingest --segment=1 c.log
keep second
swap
call merge
is 0 "0 1 part c.log\n"
call decode 0
is 0 "task_2 done\n"
swap
image $second

# ---- archives that do not fit are refused

row
call create
call ingest a.log
swap
disk ""
call create --format=2
call ingest c.log
keep second
swap
call merge
is 8 "" "clpa: second archive: version 2, the archive has 1\n"
call check
is 0 "entries 4 files 1 messages 2\n"
swap
image $second

row
call create --types 1
call ingest a.log
swap
disk ""
call create
call ingest c.log
keep second
swap
call merge
is 4 "1 0 part c.log\n" "clpa: c.log: dictionary of types is full at 1\n"
call decode 0
is 0 "task_1 done\ntask_2 done\n"
swap
image $second

# files behind one that stopped have their names
row
call create --words=2
call ingest a.log
swap
disk ""
call create
call ingest d.log c.log
keep second
swap
call merge
is 4 "1 0 part d.log\n2 0 part c.log\n" "clpa: d.log: dictionary of words is full at 2\n"
call check
is 0 "entries 5 files 3 messages 2\n"
swap
image $second

# texts of segments that were not reached are not there: a stop leaves, byte for byte, what that of an ingest does
row
call create --types=1
call ingest --segment=1 w.log
is 4 "0 2 part w.log\n" "clpa: w.log: dictionary of types is full at 1\n"
keep stopped
disk ""
call create --types=1
swap
disk ""
call create
call ingest --segment=1 w.log
keep second
swap
call merge
is 4 "0 2 part w.log\n" "clpa: w.log: dictionary of types is full at 1\n"
image $stopped
swap
image $second

row
call create --words=2
call ingest --segment=1 w.log
is 4 "0 2 part w.log\n" "clpa: w.log: dictionary of words is full at 2\n"
keep stopped
disk ""
call create --words=2
swap
disk ""
call create
call ingest --segment=1 w.log
swap
call merge
is 4 "0 2 part w.log\n" "clpa: w.log: dictionary of words is full at 2\n"
image $stopped

# no archive
row
call create
swap
disk ""
keep second
swap
call merge
is 6 "" "clpa: second archive: damaged at 0\n"
swap
image $second

row
swap
disk ""
call create
call ingest c.log
keep second
swap
call merge
is 6 "" "clpa: archive: damaged at 0\n"
swap
image $second
"#;

#[test]
fn archives_are_merged(rt: HostRuntime) {
    let line = failing_line(&rt, rt.alloc(), MERGE_SCRIPT, "");
    assert!(rt; line == 0, "line {line}");
}
