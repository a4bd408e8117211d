//! An upgrade that stops after any of its calls of the new archive's disk, or of whose calls one
//! fails.
use crate::play::failing_line;

static UPGRADE_STOP_SCRIPT: &str = r#"
log a.log "task_1 done\ntask_2 done\n"

# ---- each stop of upgrade leaves a front of the new archive: no archive or an empty one until it
# is made by three calls, then four records, each by four calls: the name, the log type, the words,
# and the segment
test stops
play made $never $never
call upgrade
swap
count n
least 19 n
aside
each p 0 3
  each k 0 2
    crash k p
    call check
    next 6 "" $no_archive
    is 0 "entries 0 files 0 messages 0\n"
    call files
    is 0
  end
end
# what was written since the last sync is left, or ones
each p 0 1
  play state 3 n-14 "entries 0 files 0 messages 0\n" ""
  play state n-13 n-10 "entries 1 files 1 messages 0\n" "0 0 part a.log\n"
  play state n-9 n-6 "entries 2 files 1 messages 0\n" "0 0 part a.log\n"
  play state n-5 n-2 "entries 3 files 1 messages 0\n" "0 0 part a.log\n"
  play state n-1 n "entries 4 files 1 messages 2\n" "0 2 whole a.log\n"
end
# nothing of it, or the first half
each p 2 3
  play state 3 n-13 "entries 0 files 0 messages 0\n" ""
  play state n-12 n-9 "entries 1 files 1 messages 0\n" "0 0 part a.log\n"
  play state n-8 n-5 "entries 2 files 1 messages 0\n" "0 0 part a.log\n"
  play state n-4 n-1 "entries 3 files 1 messages 0\n" "0 0 part a.log\n"
  play state n n "entries 4 files 1 messages 2\n" "0 2 whole a.log\n"
end

# ---- each stop of upgrade leaves the archive
play made $never $never
count f
keep old
call upgrade
count n
aside
each k f n
  each p 0 3
    crash k p
    image $old
  end
end

# ---- each call of upgrade that fails is told, as the outcome of the file where this was begun: the
# last twelve calls of the new disk append the records behind the name
test failures
play made $never $never
count f
call upgrade
count n
swap
count m
each k f n-1
  play made k $never
  call upgrade
  front 5 "0 0 part a.log\n" $disk_failed
  play again
end
each k 0 m-13
  play made $never k
  call upgrade
  front 5 "0 0 part a.log\n" $disk_failed
  play again
end
each k m-12 m-1
  play made $never k
  call upgrade
  is 5 "0 0 part a.log\n" "clpa: a.log: disk failed\n"
  play again
end

# ---- an upgrade that cannot print is done
play made $never $never
write 0
call upgrade
is 7 "" $output_failed
swap
play stands "entries 4 files 1 messages 2\n" "0 2 whole a.log\n"

# ---- an archive and a disk for the new one, of whose calls these fail
part made
row
disk $empty
fault $1
call ingest a.log
swap
disk ""
fault $2
swap
back

# ---- a crash after each of these calls leaves this
part state
each k $1 $2
  crash k p
  call check
  is 0 $3
  call files
  is 0 $4
end
back

# ---- the archive is this
part stands
call check
is 0 $1
call files
is 0 $2
back

# ---- what was left of the new archive is one, or nothing; the archive has its file still, and is
# upgraded to a disk that works
part again
swap
or image ""
call check
or status 0
one
swap
call decode 0
is 0 "task_1 done\ntask_2 done\n"
swap
disk ""
swap
call upgrade
status 0
swap
play stands "entries 4 files 1 messages 2\n" "0 2 whole a.log\n"
back
"#;

#[test]
fn each_stop_of_upgrade_leaves_both_archives(rt: HostRuntime) {
    let line = failing_line(&rt, rt.alloc(), UPGRADE_STOP_SCRIPT, "stops");
    assert!(rt; line == 0, "line {line}");
}

#[test]
fn each_call_of_upgrade_that_fails_is_told(rt: HostRuntime) {
    let line = failing_line(&rt, rt.alloc(), UPGRADE_STOP_SCRIPT, "failures");
    assert!(rt; line == 0, "line {line}");
}
