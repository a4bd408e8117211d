//! A merge that stops after any of its calls of the disk, or of whose calls one fails.
use crate::play::failing_line;

static MERGE_STOP_SCRIPT: &str = r#"
# the log of the archive, and that of the second one, which shares a word with it
log a.log "task_1 done\ntask_2 done\n"
log c.log "task_2 done\n7\n"

# ---- each stop of merge keeps what was acknowledged: three records, each by four calls, are the
# name, the log type that is new, and the segment
test stops
play two $never $never
call merge
count n
least 12 n
aside
# what was written since the last sync is left, or ones
each p 0 1
  play state n-12 n-10 "entries 4 files 1 messages 2\n" "0 2 whole a.log\n"
  play state n-9 n-6 "entries 5 files 2 messages 2\n" "0 2 whole a.log\n1 0 part c.log\n"
  play state n-5 n-2 "entries 6 files 2 messages 2\n" "0 2 whole a.log\n1 0 part c.log\n"
  play state n-1 n "entries 7 files 2 messages 4\n" "0 2 whole a.log\n1 2 whole c.log\n"
end
# nothing of it, or the first half
each p 2 3
  play state n-12 n-9 "entries 4 files 1 messages 2\n" "0 2 whole a.log\n"
  play state n-8 n-5 "entries 5 files 2 messages 2\n" "0 2 whole a.log\n1 0 part c.log\n"
  play state n-4 n-1 "entries 6 files 2 messages 2\n" "0 2 whole a.log\n1 0 part c.log\n"
  play state n n "entries 7 files 2 messages 4\n" "0 2 whole a.log\n1 2 whole c.log\n"
end

# ---- each call of merge that fails leaves an archive
test failures
play two $never $never
count f
swap
count g
swap
call merge
count n
swap
count m
each k f n-1
  play two k $never
  play fails
end
each k g m-1
  play two $never k
  play fails
end

# ---- a merge that cannot print is done
play two $never $never
write 0
call merge
is 7 "" $output_failed
play stands "entries 7 files 2 messages 4\n" "0 2 whole a.log\n1 2 whole c.log\n"

# ---- two archives, of whose calls these fail
part two
row
disk $empty
fault $1
call ingest a.log
swap
disk $empty
fault $2
call ingest c.log
swap
back

# ---- a crash after each of these calls leaves this
part state
each k $1 $2
  crash k p
  call check
  is 0 $3
  call files
  is 0 $4
  call decode 0
  is 0 "task_1 done\ntask_2 done\n"
end
back

# ---- the archive is this
part stands
call check
is 0 $1
call files
is 0 $2
call decode 0
is 0 "task_1 done\ntask_2 done\n"
back

# ---- a merge is told as failed, and can be done then
part fails
call merge
front 5 "1 0 part c.log\n" $disk_failed
call check
status 0
call decode 0
is 0 "task_1 done\ntask_2 done\n"
call merge
status 0
back
"#;

#[test]
fn each_stop_of_merge_keeps_what_was_acknowledged(rt: HostRuntime) {
    let line = failing_line(&rt, rt.alloc(), MERGE_STOP_SCRIPT, "stops");
    assert!(rt; line == 0, "line {line}");
}

#[test]
fn each_call_of_merge_that_fails_leaves_an_archive(rt: HostRuntime) {
    let line = failing_line(&rt, rt.alloc(), MERGE_STOP_SCRIPT, "failures");
    assert!(rt; line == 0, "line {line}");
}
