//! Writes to the two outputs that fail.
use crate::play::failing_line;

static OUTPUT_SCRIPT: &str = r#"
# ---- a first write that fails is told
test first
log b.log "7 x7\n"
disk $worked
write 0
call show b.log
is 7 "" $output_failed
disk $worked
call show b.log
is 0 "{i:7=0000000000000007} {w:x7}\n"
disk $worked
write 0
call scan x b.log
is 7 "" $output_failed
disk $worked
call scan x b.log
is 0 "b.log:1:7 x7\n"
disk $worked
write 0
call ingest b.log
is 7 "" $output_failed
disk $worked
call ingest b.log
is 0 "1 1 whole b.log\n"
disk $worked
write 0
call search a
is 7 "" $output_failed
disk $worked
call search a
is 0 "a.log:1:a\n"
disk $worked
write 0
call search --stats a
is 7 "" $output_failed
disk $worked
call search --stats a
is 0 "a.log:1:a\nmatched 1 expanded 1 opened 1 segments 1\n"
disk $worked
write 0
call decode 0
is 7 "" $output_failed
disk $worked
call decode 0
is 0 "a\n"
disk $worked
write 0
call files
is 7 "" $output_failed
disk $worked
call files
is 0 "0 1 whole a.log\n"
disk $worked
write 0
call check
is 7 "" $output_failed
disk $worked
call check
is 0 "entries 3 files 1 messages 1\n"

disk $worked
write 0
call count --by type a
is 7 "" $output_failed
disk $worked
call count --by type a
is 0 "1 a\n"
disk $worked
write 0
call count --by minute --stats a
is 7 "" $output_failed
disk $worked
call count --by minute --stats a
is 0 "none 1\nmatched 1 expanded 0 opened 1 segments 1\n"

# ---- an error output that fails changes nothing else
log a.log "x\ny\nz\n"
row
call create --types 2
is 0
say 0
call ingest a.log
is 4 "0 2 part a.log\n"
row
call create --types 2
is 0
call ingest a.log
is 4 "0 2 part a.log\n" "clpa: a.log: dictionary of types is full at 2\n"

# ---- each write that fails leaves a front: of nine long lines, with their numbers where they are
# printed
test long
repeat line 40000 x
text line $line "\n"
repeat long 9 $line
log l.log $long
text numbered ""
text numbered $numbered "l.log:1:" $line
text numbered $numbered "l.log:2:" $line
text numbered $numbered "l.log:3:" $line
text numbered $numbered "l.log:4:" $line
text numbered $numbered "l.log:5:" $line
text numbered $numbered "l.log:6:" $line
text numbered $numbered "l.log:7:" $line
text numbered $numbered "l.log:8:" $line
text numbered $numbered "l.log:9:" $line

# a search sends what it gathered at the end of a page of rows, so of a segment too
each k 0 19
  row
  disk $empty
  call ingest --segment=1 l.log
  write k
  call show l.log
  leave 0 $long
  front 7 $long $output_failed
end
is 0 $long
least 3 k
each k 0 19
  row
  disk $empty
  call ingest --segment=1 l.log
  write k
  call decode 0
  leave 0 $long
  front 7 $long $output_failed
end
is 0 $long
least 3 k
each k 0 19
  row
  disk $empty
  call ingest --segment=1 l.log
  write k
  call scan x l.log
  leave 0 $numbered
  front 7 $numbered $output_failed
end
is 0 $numbered
least 3 k
each k 0 19
  row
  disk $empty
  call ingest --segment=1 l.log
  write k
  call search x
  leave 0 $numbered
  front 7 $numbered $output_failed
end
is 0 $numbered
least 3 k

# ---- one worker searches a page of few rows before it reads the next one: told by the calls of the
# disk. Of several, each reads a part of the disk, whose calls are none of the disk's
play search --workers=1
count n
least 1 n
play search --workers=2
play search --workers=9

# ---- a decode whose first write fails reads the first of nine segments alone: told by the calls of the
# disk, five for each segment
test once
repeat line 40000 x
text line $line "\n"
repeat long 9 $line
log l.log $long
row
disk $empty
call ingest --segment=1 l.log
count a
call decode 0
is 0 $long
count b
write 0
call decode 0
is 7 "" $output_failed
count c
least c-b+40 b-a

# ---- a search whose first write fails
part search
row
disk $empty
call ingest --segment=1 l.log
write 0
call search $1 x
front 7 "" $output_failed
back
"#;

#[test]
fn a_first_write_that_fails_is_told(rt: HostRuntime) {
    let line = failing_line(&rt, rt.alloc(), OUTPUT_SCRIPT, "first");
    assert!(rt; line == 0, "line {line}");
}

#[test]
fn a_decode_ends_with_its_output(rt: HostRuntime) {
    let line = failing_line(&rt, rt.alloc(), OUTPUT_SCRIPT, "once");
    assert!(rt; line == 0, "line {line}");
}

#[test]
fn each_write_that_fails_leaves_a_front(rt: HostRuntime) {
    let line = failing_line(&rt, rt.alloc(), OUTPUT_SCRIPT, "long");
    assert!(rt; line == 0, "line {line}");
}
