//! An ingest that stops after any of its calls of the disk.
use crate::play::failing_line;

static STOP_SCRIPT: &str = r#"
# a number and a word, so that the segment of the log names a log type and a word
text log "7 x7\n"
log a.log $log
log b.log $log

# ---- each stop of ingest keeps what was acknowledged: four records, each by four calls, are the
# name of the log, its log type, its word and its segment
test empty
row
disk $empty
call ingest a.log
count n
least 16 n
aside
# what was written since the last sync is left, or ones
each p 0 1
  play state n-16 n-14 "entries 0 files 0 messages 0\n" "" "0 1 whole a.log\n" a.log
  play state n-13 n-10 "entries 1 files 1 messages 0\n" "0 0 part a.log\n" "1 1 whole a.log\n" a.log
  play state n-9 n-6 "entries 2 files 1 messages 0\n" "0 0 part a.log\n" "1 1 whole a.log\n" a.log
  play state n-5 n-2 "entries 3 files 1 messages 0\n" "0 0 part a.log\n" "1 1 whole a.log\n" a.log
  play state n-1 n "entries 4 files 1 messages 1\n" "0 1 whole a.log\n" "1 1 whole a.log\n" a.log
end
# nothing of it, or the first half
each p 2 3
  play state n-16 n-13 "entries 0 files 0 messages 0\n" "" "0 1 whole a.log\n" a.log
  play state n-12 n-9 "entries 1 files 1 messages 0\n" "0 0 part a.log\n" "1 1 whole a.log\n" a.log
  play state n-8 n-5 "entries 2 files 1 messages 0\n" "0 0 part a.log\n" "1 1 whole a.log\n" a.log
  play state n-4 n-1 "entries 3 files 1 messages 0\n" "0 0 part a.log\n" "1 1 whole a.log\n" a.log
  play state n n "entries 4 files 1 messages 1\n" "0 1 whole a.log\n" "1 1 whole a.log\n" a.log
end

# ---- each stop of ingest keeps the files before
test worked
row
disk $worked
call ingest b.log
count n
least 16 n
aside
# what was written since the last sync is left, or ones
each p 0 1
  play state n-16 n-14 "entries 3 files 1 messages 1\n" "0 1 whole a.log\n" "1 1 whole b.log\n" b.log
  play state n-13 n-10 "entries 4 files 2 messages 1\n" "0 1 whole a.log\n1 0 part b.log\n" "2 1 whole b.log\n" b.log
  play state n-9 n-6 "entries 5 files 2 messages 1\n" "0 1 whole a.log\n1 0 part b.log\n" "2 1 whole b.log\n" b.log
  play state n-5 n-2 "entries 6 files 2 messages 1\n" "0 1 whole a.log\n1 0 part b.log\n" "2 1 whole b.log\n" b.log
  play state n-1 n "entries 7 files 2 messages 2\n" "0 1 whole a.log\n1 1 whole b.log\n" "2 1 whole b.log\n" b.log
end
# nothing of it, or the first half
each p 2 3
  play state n-16 n-13 "entries 3 files 1 messages 1\n" "0 1 whole a.log\n" "1 1 whole b.log\n" b.log
  play state n-12 n-9 "entries 4 files 2 messages 1\n" "0 1 whole a.log\n1 0 part b.log\n" "2 1 whole b.log\n" b.log
  play state n-8 n-5 "entries 5 files 2 messages 1\n" "0 1 whole a.log\n1 0 part b.log\n" "2 1 whole b.log\n" b.log
  play state n-4 n-1 "entries 6 files 2 messages 1\n" "0 1 whole a.log\n1 0 part b.log\n" "2 1 whole b.log\n" b.log
  play state n n "entries 7 files 2 messages 2\n" "0 1 whole a.log\n1 1 whole b.log\n" "2 1 whole b.log\n" b.log
end

# ---- a crash after each of these calls leaves an archive that prints this of check, of files and
# of the log that is added again
part state
each k $1 $2
  crash k p
  call check
  is 0 $3
  call files
  is 0 $4
  call ingest $6
  is 0 $5
end
back
"#;

#[test]
fn each_stop_of_ingest_keeps_what_was_acknowledged(rt: HostRuntime) {
    let line = failing_line(&rt, rt.alloc(), STOP_SCRIPT, "empty");
    assert!(rt; line == 0, "line {line}");
}

#[test]
fn each_stop_of_ingest_keeps_the_files_before(rt: HostRuntime) {
    let line = failing_line(&rt, rt.alloc(), STOP_SCRIPT, "worked");
    assert!(rt; line == 0, "line {line}");
}
