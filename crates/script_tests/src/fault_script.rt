//! Calls of the disk that fail, each in turn.
use crate::play::failing_line;

static FAULT_SCRIPT: &str = r#"
log b.log "7 x7\n"
log c.log "8 x7\n"

# ---- each call of ingest that fails leaves an archive: the last twelve append three records of the
# log, behind four that append its name
test ingest
disk $worked
call ingest b.log
is 0 "1 1 whole b.log\n"
count n
least 13 n
each k 0 n-13
  disk $worked
  fault k
  call ingest b.log
  is 5 "" $disk_failed
  play again
end
each k n-12 n-1
  disk $worked
  fault k
  call ingest b.log
  is 5 "1 0 part b.log\n" "clpa: b.log: disk failed\n"
  play again
end

# ---- each call of a reading that fails is told, and the archive stays
test readings
disk $worked
call search a
is 0 "a.log:1:a\n"
count n
each k 0 n-1
  disk $worked
  fault k
  call search a
  front 5 "a.log:1:a\n" $disk_failed
  image $worked
end
disk $worked
call decode 0
is 0 "a\n"
count n
each k 0 n-1
  disk $worked
  fault k
  call decode 0
  front 5 "a\n" $disk_failed
  image $worked
end
disk $worked
call files
is 0 "0 1 whole a.log\n"
count n
each k 0 n-1
  disk $worked
  fault k
  call files
  front 5 "0 1 whole a.log\n" $disk_failed
  image $worked
end
disk $worked
call check
is 0 "entries 3 files 1 messages 1\n"
count n
each k 0 n-1
  disk $worked
  fault k
  call check
  front 5 "entries 3 files 1 messages 1\n" $disk_failed
  image $worked
end

# ---- a disk that failed is called no more
test silence
disk $worked
call ingest b.log c.log
status 0
count n
each k 0 n-1
  disk $worked
  fault k
  call ingest b.log c.log
  status 5
  calls k+1
end

# ---- the disk has an archive to which the log can be added, as the second file or as the third
part again
call check
status 0
call ingest b.log
or is 0 "1 1 whole b.log\n"
or is 0 "2 1 whole b.log\n"
one
back
"#;

#[test]
fn each_call_of_ingest_that_fails_leaves_an_archive(rt: HostRuntime) {
    let line = failing_line(&rt, rt.alloc(), FAULT_SCRIPT, "ingest");
    assert!(rt; line == 0, "line {line}");
}

#[test]
fn each_call_of_a_reading_that_fails_is_told(rt: HostRuntime) {
    let line = failing_line(&rt, rt.alloc(), FAULT_SCRIPT, "readings");
    assert!(rt; line == 0, "line {line}");
}

#[test]
fn a_disk_that_failed_is_called_no_more(rt: HostRuntime) {
    let line = failing_line(&rt, rt.alloc(), FAULT_SCRIPT, "silence");
    assert!(rt; line == 0, "line {line}");
}
