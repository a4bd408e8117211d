//! Logs that become files of an archive while the messages that a pattern matches are printed.
use crate::play::failing_line;

static WATCH_SCRIPT: &str = r#"
# In t.log a message has two lines from version 2 on, and the second read of r.log fails.
log a.log "task_1 done\ntask_2 done\n"
log b.log "task_2 done\n"
log c.log "7\n"
log e.log ""
log n.log "task_2"
log r.log "task_2 done\n7\n" 1
log t.log "2023-11-14 22:13:20,000 ERROR failed\n\tat x.Y(Z.java:7)\n2023-11-14 22:13:21,000 INFO on\n"
log x.log "a\n"

# what is printed of three logs in turn, where the second was taken in before the end of the first, and by files
text three "a.log:2:task_2 done\nb.log:1:task_2 done\n0 2 whole a.log\n1 1 whole b.log\n2 1 whole c.log\n"
text other_order "b.log:1:task_2 done\na.log:2:task_2 done\n0 2 whole a.log\n1 1 whole b.log\n2 1 whole c.log\n"
text whole "0 2 whole a.log\n1 1 whole b.log\n2 1 whole c.log\n"

# ---- new messages that match are printed

row
call create
call ingest --workers 1 --watch task_2 a.log b.log c.log
is 0 $three
call files
is 0 $whole
call search task_2
is 0 "a.log:2:task_2 done\nb.log:1:task_2 done\n"

# in segments of one message and of two, the last of which may have none
row
call create
call ingest --segment=1 --watch=task_2 a.log b.log c.log
is 0 $three

row
call create
call ingest --watch=task_2 --segment=2 a.log b.log c.log
is 0 $three

# what was there before is not printed, and a log that comes again is
row
call create
call ingest a.log
call ingest --watch task_2 b.log
is 0 "b.log:1:task_2 done\n1 1 whole b.log\n"
call ingest --watch "" a.log
is 0 "a.log:1:task_1 done\na.log:2:task_2 done\n2 2 whole a.log\n"
call search task_2
is 0 "a.log:2:task_2 done\nb.log:1:task_2 done\na.log:2:task_2 done\n"

# nothing matches, or there is nothing
row
call create
call ingest --watch absent a.log e.log
is 0 "0 2 whole a.log\n1 0 whole e.log\n"
call ingest --watch \* b.log
is 0 "2 1 whole b.log\n"

# wildcards, and a last line without its newline
row
call create
call ingest a.log --watch t?sk*2 n.log
is 0 "a.log:2:task_2 done\nn.log:1:task_2\n0 2 whole a.log\n1 1 whole n.log\n"

# a message of two lines is printed whole, and in version 1 a line is one
row
call create --format=2
call ingest --segment=1 --watch "at x" t.log
is 0 "t.log:1:2023-11-14 22:13:20,000 ERROR failed\n\tat x.Y(Z.java:7)\n0 2 whole t.log\n"

row
call create --format=3
call ingest --watch "22:13:21,000 INFO" t.log
is 0 "t.log:2:2023-11-14 22:13:21,000 INFO on\n0 2 whole t.log\n"

row
call create
call ingest --watch "at x" t.log
is 0 "t.log:2:\tat x.Y(Z.java:7)\n0 3 whole t.log\n"

# ---- messages of parts are printed, those before the fault too

row
call create --types=1
call ingest --watch "" a.log c.log
is 4 "a.log:1:task_1 done\na.log:2:task_2 done\n0 2 whole a.log\n1 0 part c.log\n" "clpa: c.log: dictionary of types is full at 1\n"

row
call create
call ingest --watch task_2 r.log gone.log b.log
is 4 "r.log:1:task_2 done\nb.log:1:task_2 done\n0 2 part r.log\n1 0 part gone.log\n2 1 whole b.log\n" "clpa: r.log: read failed\nclpa: gone.log: cannot open\n"
call search task_2
is 0 "r.log:1:task_2 done\nb.log:1:task_2 done\n"

# what has no room is not printed
row
call create --bytes=60
call ingest --watch "" x.log
is 4 "0 0 part x.log\n" "clpa: x.log: archive full at 56, 99 more needed\n"

# ---- refused calls print nothing: by their words, by the pattern before all else, and by the
# archive

row
call ingest --watch a
is 2 "" $usage
call ingest --watch=a --watch=a a.log
is 2 "" $usage
call ingest --watch ab\ gone.log
is 3 "" "clpa: pattern: lone backslash at 2\n"
call ingest --watch a a.log
is 6 "" "clpa: archive: damaged at 0\n"

row
call create --bytes=50
call ingest --watch=a a.log
is 8 "" "clpa: archive: full at 33, 23 more needed\n"
call check
is 0 "entries 0 files 0 messages 0\n"

# ---- a pattern is refused before a name that is too long
repeat long 4097 a
row
call ingest --watch a\ $long
is 3 "" "clpa: pattern: lone backslash at 1\n"
row
call ingest --watch a $long
is 8 "" "clpa: name 0 is too long\n"

# ---- several workers print the lines of each log, in either order
row
call create
call ingest --workers=2 --segment=1 --watch task_2 a.log b.log c.log
or is 0 $three
or is 0 $other_order
one
row
call create
call ingest --workers=3 --segment=65536 --watch task_2 a.log b.log c.log
or is 0 $three
or is 0 $other_order
one
row
call create
call ingest --workers=3 --segment=1 --watch task_2 a.log b.log c.log
or is 0 $three
or is 0 $other_order
one
row
call create
call ingest --workers=64 --segment=2 --watch task_2 a.log b.log c.log
or is 0 $three
or is 0 $other_order
one

# ---- messages before a line that is too long are printed
repeat line 1048577 x
text line "task_2 done\n" $line "\ntask_2 done\n"
log l.log $line
row
call create
call ingest --watch task_2 l.log
is 4 "l.log:1:task_2 done\n0 1 part l.log\n" "clpa: l.log: line 2 is too long\n"

# ---- logs are taken in where the output has no room
row
call create
room 0
call ingest --workers 1 --watch task_2 a.log b.log c.log
front 7 $three $output_failed
call files
is 0 $whole
row
call create
room 19
call ingest --workers 1 --watch task_2 a.log b.log c.log
front 7 $three $output_failed
call files
is 0 $whole
row
call create
room 20
call ingest --workers 1 --watch task_2 a.log b.log c.log
front 7 $three $output_failed
call files
is 0 $whole
row
call create
room 39
call ingest --workers 1 --watch task_2 a.log b.log c.log
front 7 $three $output_failed
call files
is 0 $whole
row
call create
room 40
call ingest --workers 1 --watch task_2 a.log b.log c.log
front 7 $three $output_failed
call files
is 0 $whole
row
call create
room 87
call ingest --workers 1 --watch task_2 a.log b.log c.log
front 7 $three $output_failed
call files
is 0 $whole

# ---- an output that fails is told first
# a write of the messages fails: the files are told behind that
row
call create --types=1
room 0
call ingest --watch "" a.log c.log
front 7 "a.log:1:task_1 done\na.log:2:task_2 done\n" "clpa: output failed\nclpa: c.log: dictionary of types is full at 1\n"
# a write of the files' lines does: nothing else is told
row
call create --types=1
room 40
call ingest --watch "" a.log c.log
front 7 "a.log:1:task_1 done\na.log:2:task_2 done\n" "clpa: output failed\n"

# ---- an output may take a byte at a time
row
call create
slow
call ingest --workers 1 --watch task_2 a.log b.log c.log
is 0 $three
"#;

#[test]
fn matches_are_printed(rt: HostRuntime) {
    let line = failing_line(&rt, rt.alloc(), WATCH_SCRIPT, "");
    assert!(rt; line == 0, "line {line}");
}
