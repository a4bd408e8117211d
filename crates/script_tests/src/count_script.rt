//! Messages of an archive counted over a disk in memory.
use crate::play::failing_line;

static COUNT_SCRIPT: &str = r#"
# logs of tasks, and one with stamps
log a.log "task_1 done\ntask_2 done\n"
log b.log "task_2 done\n"
log c.log "7\n"
text damaged_tasks "clpa: archive: damaged at 451\n"
log t.log "2023-11-14 22:13:20,000 INFO start\n2023-11-14 22:13:21,500 INFO stop\n  no stamp here\n"

# ---- tasks are counted
row
call create
is 0
call ingest a.log b.log c.log
is 0 "0 2 whole a.log\n1 1 whole b.log\n2 1 whole c.log\n"
keep tasks
call count --by type task
is 0 "3 {w} done\n"
call count --by type --stats ""
is 0 "1 {i}\n3 {w} done\nmatched 4 expanded 0 opened 3 segments 3\n"
call count --by type --stats task?2
is 0 "2 {w} done\nmatched 2 expanded 2 opened 3 segments 3\n"
call count --by=type --stats none
is 0 "matched 0 expanded 0 opened 3 segments 3\n"
call count --by=type --stats " task_9 "
is 0 "matched 0 expanded 0 opened 0 segments 3\n"
call count --by minute ""
is 0 "none 4\n"
call count --by=type --to=5 ""
is 0
call count --by=type --workers=0 task
is 2 "" $usage
call count task
is 2 "" $usage
call count --by hour task
is 2 "" $usage

# ---- minutes are counted
row
call create
is 0
call ingest t.log
is 0 "0 3 whole t.log\n"
call count --by minute ""
is 0 "1699999980000 2\nnone 1\n"
call count --by minute --from 0 ""
is 0 "1699999980000 2\n"
call count --by minute --stats --from=1700000001500 a?start
is 0 "matched 0 expanded 0 opened 1 segments 1\n"
call count --by=minute --from=6 --to=5 ""
is 0

# ---- with any number of workers the same is counted, also if each is found and if none is
play alike --workers=1
play alike --workers=2
play alike --workers=3
play alike --workers=5

# ---- each call of the disk that fails is told, and so is one of each of its parts
play faults --workers=2
play faults --workers=3
play faults --workers=5

# ---- damage of each segment is told, also of the last
play damaged 224
play damaged 328
play damaged 435

# ---- a count that cannot be made is told
row
disk $numbers
call count --by=type 12*34
is 0 "1 {i}\n1 {i} {i}\n1 {w}*{i}\n"
row
disk $numbers
fault 0
call count --by=type ab\
is 3 "" "clpa: pattern: lone backslash at 2\n"
row
disk $numbers
fault 0
call count --by=type 12
is 5 "" "clpa: archive: disk failed\n"
row
disk $numbers
fault 12
call count --by=minute 12
is 5 "" "clpa: archive: disk failed\n"

# ---- a count without room prints a front
text text "1 {i}\n1 {i} {i}\n1 {w}*{i}\nmatched"
row
disk $numbers
room 0
call count --by=type --stats 12*34
front 7 $text $output_failed
row
disk $numbers
room 9
call count --by=type --stats 12*34
front 7 $text $output_failed
row
disk $numbers
room 33
call count --by=type --stats 12*34
front 7 $text $output_failed

# ---- a count of the tasks by so many workers
part alike
row
disk $tasks
call count $1 --by=type --stats ""
is 0 "1 {i}\n3 {w} done\nmatched 4 expanded 0 opened 3 segments 3\n"
call count $1 --by=type --stats task
is 0 "3 {w} done\nmatched 3 expanded 0 opened 3 segments 3\n"
call count $1 --by=type --stats task?2
is 0 "2 {w} done\nmatched 2 expanded 2 opened 3 segments 3\n"
call count $1 --by=type --stats " task_9 "
is 0 "matched 0 expanded 0 opened 0 segments 3\n"
call count $1 --by=minute --stats ""
is 0 "none 4\nmatched 4 expanded 0 opened 3 segments 3\n"
call count $1 --by=minute --stats task?2
is 0 "none 2\nmatched 2 expanded 2 opened 3 segments 3\n"
image $tasks
back

part faults
row
disk $tasks
call count $1 --by=type task?2
is 0 "2 {w} done\n"
count n
each k 0 n-1
  disk $tasks
  fault k
  call count $1 --by=type task?2
  is 5 "" $disk_failed
  image $tasks
end
each k 0 9
  disk $tasks
  parts k
  call count $1 --by=type task?2
  or is 0 "2 {w} done\n"
  or is 5 "" $disk_failed
  one
  image $tasks
end
disk $tasks
parts 0
call count $1 --by=type task?2
is 5 "" $disk_failed
back

part damaged
row
disk $tasks
change $1 "\x09"
call count --by=type ""
is 6 "" $damaged_tasks
call count --by=type --workers=2 ""
is 6 "" $damaged_tasks
call count --by=type --workers=3 ""
is 6 "" $damaged_tasks
call count --by=type --workers=5 ""
is 6 "" $damaged_tasks
back
"#;

#[test]
fn messages_are_counted(rt: HostRuntime) {
    let line = failing_line(&rt, rt.alloc(), COUNT_SCRIPT, "");
    assert!(rt; line == 0, "line {line}");
}
