//! An ingest that prints what a pattern matches, and stops after any of its calls of the disk, or
//! of whose calls of the disk or writes to the output one fails.
use crate::play::failing_line;

static WATCH_STOP_SCRIPT: &str = r#"
# Each message has its segment, and behind them stands one without messages. The reader's calls come between
# those of the worker, in another order each time, but as many in all.
log b.log "7 x7\n8 x7\n"

# what is printed before the line of the file, and where the log is added to an archive with a file
text lines "b.log:1:7 x7\nb.log:2:8 x7\n"
text printed "b.log:1:7 x7\nb.log:2:8 x7\n1 2 whole b.log\n"

# ---- each stop of a watched ingest keeps what was acknowledged: first none of the six records,
# then one more at a time, and in the end all. These are the name of the log, its log type, its word
# and three segments
test empty
row
disk $empty
play watch
count n
aside
each p 0 3
  play state 0 "entries 1 files 1 messages 0\n" "entries 0 files 0 messages 0\n" "" ""
  play state k "entries 2 files 1 messages 0\n" "entries 1 files 1 messages 0\n" "0 0 part b.log\n" ""
  play state k "entries 3 files 1 messages 0\n" "entries 2 files 1 messages 0\n" "0 0 part b.log\n" ""
  play state k "entries 4 files 1 messages 1\n" "entries 3 files 1 messages 0\n" "0 0 part b.log\n" ""
  play state k "entries 5 files 1 messages 2\n" "entries 4 files 1 messages 1\n" "0 1 part b.log\n" "b.log:1:7 x7\n"
  play state k "entries 6 files 1 messages 2\n" "entries 5 files 1 messages 2\n" "0 2 part b.log\n" "b.log:1:7 x7\nb.log:2:8 x7\n"
  play state k none "entries 6 files 1 messages 2\n" "0 2 whole b.log\n" "b.log:1:7 x7\nb.log:2:8 x7\n"
end

# ---- each stop of a watched ingest keeps the files before
test worked
row
disk $worked
play watch
count n
aside
each p 0 3
  play state 0 "entries 4 files 2 messages 1\n" "entries 3 files 1 messages 1\n" "0 1 whole a.log\n" "a.log:1:a\n"
  play state k "entries 5 files 2 messages 1\n" "entries 4 files 2 messages 1\n" "0 1 whole a.log\n1 0 part b.log\n" "a.log:1:a\n"
  play state k "entries 6 files 2 messages 1\n" "entries 5 files 2 messages 1\n" "0 1 whole a.log\n1 0 part b.log\n" "a.log:1:a\n"
  play state k "entries 7 files 2 messages 2\n" "entries 6 files 2 messages 1\n" "0 1 whole a.log\n1 0 part b.log\n" "a.log:1:a\n"
  play state k "entries 8 files 2 messages 3\n" "entries 7 files 2 messages 2\n" "0 1 whole a.log\n1 1 part b.log\n" "a.log:1:a\nb.log:1:7 x7\n"
  play state k "entries 9 files 2 messages 3\n" "entries 8 files 2 messages 3\n" "0 1 whole a.log\n1 2 part b.log\n" "a.log:1:a\nb.log:1:7 x7\nb.log:2:8 x7\n"
  play state k none "entries 9 files 2 messages 3\n" "0 1 whole a.log\n1 2 whole b.log\n" "a.log:1:a\nb.log:1:7 x7\nb.log:2:8 x7\n"
end

# ---- each call of a watched ingest that fails leaves an archive: the file's line stands behind
# lines of messages that are in it. Twenty-four calls append the records, and the reader makes one
# at least for each of them
test failures
# of the reader, and of the file
text both_failed "clpa: archive: disk failed\nclpa: b.log: disk failed\n"
disk $worked
play watch
is 0 $printed
count n
least 31 n
each k 0 n-1
  disk $worked
  fault k
  play watch
  or lines 5 "" "1 0 part b.log\n" $both_failed
  or lines 5 "b.log:1:7 x7\n" "1 1 part b.log\n" $both_failed
  or lines 5 $lines "1 2 part b.log\n" $both_failed
  or lines 5 $lines "1 2 whole b.log\n" $disk_failed
  or is 5 "" $disk_failed
  one
  calls k+1
  call check
  status 0
  play again
end

# ---- each write of a watched ingest that fails leaves the log whole: the lines of each segment go
# out at once, and then that of the file
test writes
each k 0 19
  disk $worked
  write k
  play watch
  leave 0 $printed
  front 7 $printed $output_failed
  call files
  is 0 "0 1 whole a.log\n1 2 whole b.log\n"
end
is 0 $printed
least 3 k
call files
is 0 "0 1 whole a.log\n1 2 whole b.log\n"

# ---- the log is added, and all of its messages are printed
part watch
call ingest --segment=1 --watch "" b.log
back

# ---- it is added once more
part again
play watch
begins 0 $lines
back

# ---- crashes after these calls leave this, up to one that leaves what check prints of the next
# state
part state
each k $1 n
  crash k p
  call check
  leave 0 $2
  is 0 $3
  call files
  is 0 $4
  call search ""
  is 0 $5
  play again
end
back
"#;

#[test]
fn each_stop_of_a_watched_ingest_keeps_what_was_acknowledged(rt: HostRuntime) {
    let line = failing_line(&rt, rt.alloc(), WATCH_STOP_SCRIPT, "empty");
    assert!(rt; line == 0, "line {line}");
}

#[test]
fn each_stop_of_a_watched_ingest_keeps_the_files_before(rt: HostRuntime) {
    let line = failing_line(&rt, rt.alloc(), WATCH_STOP_SCRIPT, "worked");
    assert!(rt; line == 0, "line {line}");
}

#[test]
fn each_call_of_a_watched_ingest_that_fails_leaves_an_archive(rt: HostRuntime) {
    let line = failing_line(&rt, rt.alloc(), WATCH_STOP_SCRIPT, "failures");
    assert!(rt; line == 0, "line {line}");
}

#[test]
fn each_write_of_a_watched_ingest_that_fails_leaves_the_log_whole(rt: HostRuntime) {
    let line = failing_line(&rt, rt.alloc(), WATCH_STOP_SCRIPT, "writes");
    assert!(rt; line == 0, "line {line}");
}
