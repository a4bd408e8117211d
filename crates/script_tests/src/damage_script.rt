//! Archives that were cut or changed.
use crate::play::failing_line;

static DAMAGE_SCRIPT: &str = r#"
# ---- each front of an archive is damaged at its gate
each k 0 31
  head front k $worked
  disk $front
  call check
  is 6 "" "clpa: archive: damaged at 0\n"
end
each k 32 54
  head front k $worked
  disk $front
  call check
  is 6 "" "clpa: archive: damaged at 32\n"
end
each k 55 77
  head front k $worked
  disk $front
  call check
  is 6 "" "clpa: archive: damaged at 55\n"
end
each k 78 153
  head front k $worked
  disk $front
  call check
  is 6 "" "clpa: archive: damaged at 78\n"
end
each k 154 154
  head front k $worked
  disk $front
  call check
  is 6 "" "clpa: archive: damaged at 154\n"
end

# ---- a changed byte is damage at its record
disk $worked
change 8 "\x09"
call check
is 6 "" "clpa: archive: damaged at 0\n"
disk $worked
change 33 "\x05"
call check
is 6 "" "clpa: archive: damaged at 32\n"
# the row is no longer the encoding of its message
disk $worked
change 77 "\x37"
call check
is 6 "" "clpa: archive: damaged at 78\n"
# the text of the log type is not good
disk $worked
change 77 "\x5C"
call check
is 6 "" "clpa: archive: damaged at 55\n"
# there is no file 1
disk $worked
change 88 "\x01"
call check
is 6 "" "clpa: archive: damaged at 78\n"
# the last line ended, but the segment is not the last
disk $worked
change 104 "\x02"
call check
is 6 "" "clpa: archive: damaged at 78\n"

# ---- a record of log types that spells no texts is told by what reads them, at the last gate
disk $worked
change 73 "\x02"
call search a
is 6 "" "clpa: archive: damaged at 154\n"
call count --by type ""
is 6 "" "clpa: archive: damaged at 154\n"
call count --by minute a
is 6 "" "clpa: archive: damaged at 154\n"
call check
is 6 "" "clpa: archive: damaged at 55\n"
# and not by what reads none
call files
is 0 "0 1 whole a.log\n"
# its numbers are read by all
disk $worked
change 65 "\x01"
call files
is 6 "" "clpa: archive: damaged at 55\n"
call search a
is 6 "" "clpa: archive: damaged at 55\n"

# ---- a changed byte may make another archive
# the gate before the log type is closed
disk $worked
change 55 "\x00"
call check
is 0 "entries 1 files 1 messages 0\n"
# the last line had no line end
disk $worked
change 104 "\x01"
call check
is 0 "entries 3 files 1 messages 1\n"
disk $worked
change 104 "\x01"
call decode 0
is 0 "a"
# any byte but 1 closes the last gate
disk $worked
change 154 "\x07"
call check
is 0 "entries 3 files 1 messages 1\n"
"#;

#[test]
fn damage_is_told(rt: HostRuntime) {
    let line = failing_line(&rt, rt.alloc(), DAMAGE_SCRIPT, "");
    assert!(rt; line == 0, "line {line}");
}
