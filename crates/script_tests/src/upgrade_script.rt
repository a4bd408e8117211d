//! Archives of earlier versions as archives of the last one, over disks in memory.
use crate::play::failing_line;

static UPGRADE_SCRIPT: &str = r#"
# In t.log a message has three lines from version 2 on. The stamp of u.log is one in version 3 alone. The lines
# of v.log have one log type, or two where the stamp of the second one is read; there is no day as that of the
# first. The log types of s.log are two, or three from version 2 on, each of which has the line of the others
# once more.
text trace "2023-11-14 22:13:20,000 ERROR failed\njava.io.IOException: reset\n\tat x.Y(Z.java:7)\n2023-11-14 22:13:21,000 INFO on\n"
text x "2023-11-14 22:13:20,000 x\n"
text z "zzzzzzzzzzzzzzzzzzzzzzzzzzzzzzzzzzzzzzzzzzzzzzzzzzzzzzzzzzzzzzzz\n"
text steps $x $z $x $z $z $x $z $z $z
log a.log "x\ny\nz\n"
log d.log "task_9 done\ntask_2 done"
log e.log ""
log s.log $steps
log t.log $trace
log u.log "2023-11-14 22:13:20.000123 up\n"
log v.log "2023-13-14 22:13:20.000123 up\n2023-11-14 22:13:20.000123 up\n"
log w.log "2023-13-14 22:13:20.000123 up\n"

# what is said of an archive that has the last version
text newest "clpa: archive: version 3 is the newest\n"

# ---- archives are upgraded, and stay

# lines that become one message, and no second upgrade over the new archive or of it
row
call create
call ingest t.log
play beside
call upgrade
is 0 "0 2 whole t.log\n"
call upgrade
is 8 "" "clpa: archive: not empty, 253 bytes\n"
call check
is 0 "entries 3 files 1 messages 4\n"
swap
call decode 0
is 0 $trace
call check
is 0 "entries 3 files 1 messages 2\n"
call search INFO
is 0 "t.log:2:2023-11-14 22:13:21,000 INFO on\n"
call upgrade
is 8 "" $newest
swap
image $old

# from version 2, with several files, an empty one and one without its last newline
row
call create --format=2
call ingest --segment=1 t.log e.log
call ingest d.log e.log
play beside
call upgrade
is 0 "0 2 whole t.log\n1 0 whole e.log\n2 2 whole d.log\n3 0 whole e.log\n"
swap
call decode 0
is 0 $trace
call decode 2
is 0 "task_9 done\ntask_2 done"
call decode 3
is 0
# all names in one record, texts before the segments that have them, and a segment a file
call check
is 0 "entries 8 files 4 messages 4\n"
swap
image $old

# moments that are stamps of version 3 alone
row
call create
call ingest u.log
play beside
call search --from=0 up
is 0
call upgrade
is 0 "0 1 whole u.log\n"
swap
call search --from=1700000000000123 --to=1700000000000123 up
is 0 "u.log:1:2023-11-14 22:13:20.000123 up\n"
swap
image $old

# a part stays one, and a file without messages too
row
call create --types=2
call ingest a.log t.log
play beside
call upgrade
is 0 "0 2 part a.log\n1 0 part t.log\n"
swap
call decode 0
is 0 "x\ny\n"
call files
is 0 "0 2 part a.log\n1 0 part t.log\n"
swap
image $old

# no file
row
call create
play beside
call upgrade
is 0
swap
call check
is 0 "entries 0 files 0 messages 0\n"
swap
image $old

# ---- archives that cannot be upgraded are refused

# the last version, and none
row
call create --format=3
play beside
call upgrade
is 8 "" $newest
call upgrade a
is 2 "" $usage
call upgrade --types=1
is 2 "" $usage
swap
call check
is 6 "" $no_archive
swap
image $old

row
play beside
call upgrade
is 6 "" $no_archive
swap
call check
is 6 "" $no_archive
swap
image $old

# the limits stay, and the texts are others; files behind the one that met a limit are upgraded
row
call create --types=1
call ingest v.log w.log
play beside
call check
is 0 "entries 5 files 2 messages 3\n"
call upgrade
is 4 "0 1 part v.log\n1 1 whole w.log\n" "clpa: v.log: dictionary of types is full at 1\n"
swap
call decode 0
is 0 "2023-13-14 22:13:20.000123 up\n"
call decode 1
is 0 "2023-13-14 22:13:20.000123 up\n"
swap
image $old

# the bytes have no room for the texts, which are still to be saved with the next file
row
call create --bytes=500
call ingest s.log e.log
play beside
call check
is 0 "entries 4 files 2 messages 9\n"
call upgrade
is 4 "0 0 part s.log\n1 0 part e.log\n" "clpa: s.log: archive full at 65, 544 more needed\nclpa: e.log: archive full at 65, 481 more needed\n"
swap
call check
is 0 "entries 1 files 2 messages 0\n"
swap
image $old

# ---- changed archives are upgraded or told

# a name that is no text
row
call create
call ingest a.log
change 50 "\xFF"
play beside
call upgrade
is 0 "0 3 whole \xFF.log\n"
swap
call files
is 0 "0 3 whole \xFF.log\n"
call search y
is 0 "\xFF.log:2:y\n"
swap
image $old

# a row of the second of three files names a word that is not there: the first file is whole
row
call create
call ingest a.log w.log
call ingest d.log
change 359 "\x09"
play beside
call upgrade
is 6 "" "clpa: archive: damaged at 597\n"
swap
call files
is 0 "0 3 whole a.log\n1 0 part w.log\n2 0 part d.log\n"
call check
is 0 "entries 3 files 3 messages 3\n"
call decode 0
is 0 "x\ny\nz\n"
swap
image $old

# ---- an upgrade is, byte for byte, what an ingest makes

row
call create --format=3 --types=9 --words=30 --bytes=9000
call ingest t.log d.log u.log e.log v.log
keep want
row
call create --types=9 --words=30 --bytes=9000
call ingest --segment=1 t.log d.log
call ingest u.log e.log v.log
play beside
call upgrade
swap
image $want

row
call create --format=3
call ingest d.log t.log
keep want
row
call create --format=2
call ingest --workers=2 d.log t.log
play beside
call upgrade
swap
image $want

# ---- a disk for the new archive
part beside
keep old
swap
disk ""
swap
back
"#;

#[test]
fn archives_are_upgraded(rt: HostRuntime) {
    let line = failing_line(&rt, rt.alloc(), UPGRADE_SCRIPT, "");
    assert!(rt; line == 0, "line {line}");
}
