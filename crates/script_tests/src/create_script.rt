//! The making of an archive over a disk in memory.
use crate::play::failing_line;

static CREATE_SCRIPT: &str = r#"
# ---- an empty disk becomes an archive
row
call create
is 0
image $empty
calls 3
faults 0
row
call create --types=2 --words 3 --bytes=60
is 0
image $small
calls 3
faults 0
row
call create --bytes 60 --types 2 --words=3
is 0
image $small
calls 3
faults 0

# ---- a disk with bytes is left as it is, after one call
row
disk $small
room 0
call create
is 8 "" "clpa: archive: not empty, 33 bytes\n"
image $small
calls 1
row
disk $small
room 0
unsaid
call create
is 8
image $small
calls 1

# ---- each call on the disk may fail
each k 0 2
  row
  fault k
  call create
  is 5 "" $disk_failed
end
"#;

#[test]
fn archives_are_made(rt: HostRuntime) {
    let line = failing_line(&rt, rt.alloc(), CREATE_SCRIPT, "");
    assert!(rt; line == 0, "line {line}");
}
