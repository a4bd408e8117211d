//! Logs that become files of an archive over a disk in memory, and what the archive then has.
use crate::play::failing_line;

static INGEST_SCRIPT: &str = r#"
# ---- without logs: no archive takes nothing
row
disk "CLPARCH\n\x01\0\0\0"
call ingest c.log
is 6 "" "clpa: archive: damaged at 0\n"

# ---- names are refused by their length and their count
repeat long 4097 a
row
words 513 a
call ingest
is 8 "" "clpa: too many files: 0 held, 513 more\n"
row
words 512 a
words 1 $long
call ingest
is 8 "" "clpa: name 512 is too long\n"
row
words 1 $long
call ingest
is 8 "" "clpa: name 0 is too long\n"

# ---- logs become files, by one worker and by three
# the reads of b.log fail
log a.log "12534\n12 34\na12*34"
log b.log "never read\n" 0
log c.log "a\n"
log w.log "x1\ny2\nz\n"
log none.log ""
play become --workers=1
play become --workers=3

# ---- what does not fit is told, and the archive is legal then

row
call create --types=1
is 0
call ingest a.log c.log
is 4 "0 1 part a.log\n1 0 part c.log\n" "clpa: a.log: dictionary of types is full at 1\nclpa: c.log: dictionary of types is full at 1\n"
call check
ends 0 "\n"

row
call create --words=1
is 0
call ingest a.log c.log
is 0 "0 3 whole a.log\n1 1 whole c.log\n"
call check
ends 0 "\n"

# the second word has no room, and what needs no word has
row
call create --words=1
is 0
call ingest --workers=1 w.log c.log
is 4 "0 1 part w.log\n1 1 whole c.log\n" "clpa: w.log: dictionary of words is full at 1\n"
call check
ends 0 "\n"

row
call create --bytes=60
is 0
call ingest a.log c.log
is 8 "" "clpa: archive: full at 33, 32 more needed\n"
call check
ends 0 "\n"

row
call create --bytes=65
is 0
call ingest a.log c.log
is 4 "0 0 part a.log\n1 0 part c.log\n" "clpa: a.log: archive full at 65, 224 more needed\nclpa: c.log: archive full at 65, 143 more needed\n"
call check
ends 0 "\n"

# an archive of 250 bytes has room for 224, but not behind 65
row
call create --bytes=250
is 0
call ingest a.log c.log
is 4 "0 0 part a.log\n1 1 whole c.log\n" "clpa: a.log: archive full at 65, 224 more needed\n"
call check
ends 0 "\n"

# a log that could not be opened gives the dictionary no text
row
call create --types=1
is 0
call ingest gone.log a.log
is 4 "0 0 part gone.log\n1 1 part a.log\n" "clpa: gone.log: cannot open\nclpa: a.log: dictionary of types is full at 1\n"
call check
ends 0 "\n"

# a whole part of two messages needs 151 bytes, also where one more is left
row
call create --bytes=206
is 0
call ingest --segment=2 a.log
is 4 "0 0 part a.log\n" "clpa: a.log: archive full at 56, 151 more needed\n"
call check
ends 0 "\n"

# and the rest needs those of the one that is left at the end of the log
row
call create --bytes=352
is 0
call ingest --segment=2 a.log
is 4 "0 2 part a.log\n" "clpa: a.log: archive full at 207, 146 more needed\n"
call check
ends 0 "\n"

# ---- names are kept up to their greatest length
repeat name 1 a
play kept $name
repeat name 255 a
play kept $name
repeat name 256 a
play kept $name
repeat name 4096 a
play kept $name

# ---- a file may have more segments than a page has rows
# the last segment has no rows: the log ended behind a full one
repeat long 4100 "a\n"
log a.log $long
row
wide 2097152 262144
call create
is 0
call ingest --segment=1 a.log
is 0 "0 4100 whole a.log\n"
call search --stats --workers=3 a
ends 0 "\na.log:4100:a\nmatched 4100 expanded 4100 opened 4100 segments 4101\n"

# ---- by workers of an option
part become
row
call create
is 0
call ingest $1 --segment=2 a.log gone.log b.log c.log
is 4 "0 3 whole a.log\n1 0 part gone.log\n2 0 part b.log\n3 1 whole c.log\n" "clpa: gone.log: cannot open\nclpa: b.log: read failed\n"
call ingest none.log c.log
is 0 "4 0 whole none.log\n5 1 whole c.log\n"
call files
is 0 "0 3 whole a.log\n1 0 part gone.log\n2 0 part b.log\n3 1 whole c.log\n4 0 whole none.log\n5 1 whole c.log\n"
call decode 0
is 0 "12534\n12 34\na12*34"
call decode 1
is 0
call decode 3
is 0 "a\n"
call decode 4
is 0
call search *a*
is 0 "a.log:3:a12*34\nc.log:1:a\nc.log:1:a\n"
call check
ends 0 " files 6 messages 5\n"
back

# ---- a log of a name
part kept
row
log $1 "a\n"
text line "0 1 whole " $1 "\n"
call create
is 0
call ingest $1
is 0 $line
call files
is 0 $line
back
"#;

#[test]
fn logs_become_files(rt: HostRuntime) {
    let line = failing_line(&rt, rt.alloc(), INGEST_SCRIPT, "");
    assert!(rt; line == 0, "line {line}");
}
