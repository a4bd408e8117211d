//! The commands that read an archive, over a disk in memory.
use crate::play::failing_line;

static READING_SCRIPT: &str = r#"
# ---- an archive is printed, also where a byte stands behind its end
row
disk $worked
call files
is 0 "0 1 whole a.log\n"
call check
is 0 "entries 3 files 1 messages 1\n"
call decode 0
is 0 "a\n"
call decode 1
is 8 "" "clpa: no file 1, the archive has 1\n"
call decode 5
is 8 "" "clpa: no file 5, the archive has 1\n"
call decode 4294967295
is 8 "" "clpa: no file 4294967295, the archive has 1\n"
call decode 4294967296
is 2 "" $usage
call decode 00
is 2 "" $usage
call decode -1
is 2 "" $usage

text more $worked "\xFF"
disk $more
call files
is 0 "0 1 whole a.log\n"
call check
is 0 "entries 3 files 1 messages 1\n"
call decode 0
is 0 "a\n"
call decode 1
is 8 "" "clpa: no file 1, the archive has 1\n"
call decode 5
is 8 "" "clpa: no file 5, the archive has 1\n"
call decode 4294967295
is 8 "" "clpa: no file 4294967295, the archive has 1\n"
call decode 4294967296
is 2 "" $usage
call decode 00
is 2 "" $usage
call decode -1
is 2 "" $usage

# ---- damage is told at its gate
head front 154 $worked
disk $front
call check
is 6 "" "clpa: archive: damaged at 154\n"
call files
is 6 "" "clpa: archive: damaged at 154\n"
head front 153 $worked
disk $front
call check
is 6 "" "clpa: archive: damaged at 78\n"
call files
is 6 "" "clpa: archive: damaged at 78\n"
head front 0 $worked
disk $front
call check
is 6 "" "clpa: archive: damaged at 0\n"
call files
is 6 "" "clpa: archive: damaged at 0\n"

# ---- an output without room is told
disk $more
room 5
call check
front 7 "entri" $output_failed
disk $more
room 5
call files
front 7 "0 1 w" $output_failed
"#;

#[test]
fn archives_are_read(rt: HostRuntime) {
    let line = failing_line(&rt, rt.alloc(), READING_SCRIPT, "");
    assert!(rt; line == 0, "line {line}");
}
