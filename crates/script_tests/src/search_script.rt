//! Searches of an archive over a disk in memory.
use crate::play::failing_line;

static SEARCH_SCRIPT: &str = r#"
log d.log "alpha 1\nbeta 2\ngamma 3\nalpha beta 4\nalpha x5\n"

# ---- a search prints what it finds
row
disk $numbers
call search --stats 12*34
is 0 "a.log:1:12534\na.log:2:12 34\na.log:3:a12*34\nmatched 3 expanded 3 opened 1 segments 1\n"
call search 12\*34
is 0 "a.log:3:a12*34\n"
call search y --stats
is 0 "matched 0 expanded 0 opened 1 segments 1\n"
call search --workers=3 --from=-5 12
is 0
call search
is 2 "" $usage
call search --segment=5 x
is 2 "" $usage

# ---- patterns that leave a single log type, some, none and all print alike with any workers
row
call create
is 0
call ingest --segment=2 d.log
is 0 "0 5 whole d.log\n"
keep types
play types --workers=1
play types --workers=2
play types --workers=3
play types --workers=5

# ---- a search that cannot be made is told: a pattern that is none before any call
disk $numbers
fault 0
call search --stats ab\
is 3 "" "clpa: pattern: lone backslash at 2\n"
disk $numbers
fault 0
call search 12
is 5 "" "clpa: archive: disk failed\n"
disk $numbers
fault 12
call search 12
is 5 "" "clpa: archive: disk failed\n"

# ---- a search without room prints a front
text text "a.log:1:12534\na.log:2:12 34\na.log:3:a12*34\nmatched"
disk $numbers
room 0
call search --stats 12*34
front 7 $text $output_failed
disk $numbers
room 20
call search --stats 12*34
front 7 $text $output_failed
disk $numbers
room 50
call search --stats 12*34
front 7 $text $output_failed

# ---- what each pattern finds, by so many workers
part types
row
disk $types
call search $1 gamma
is 0 "d.log:3:gamma 3\n"
call search $1 "alpha ? "
is 0
call search $1 beta
is 0 "d.log:2:beta 2\nd.log:4:alpha beta 4\n"
call search $1 "alpha 1"
is 0 "d.log:1:alpha 1\n"
call search $1 x5
is 0 "d.log:5:alpha x5\n"
call search $1 delta
is 0
call search $1 a
is 0 "d.log:1:alpha 1\nd.log:2:beta 2\nd.log:3:gamma 3\nd.log:4:alpha beta 4\nd.log:5:alpha x5\n"
image $types
back
"#;

#[test]
fn archives_are_searched(rt: HostRuntime) {
    let line = failing_line(&rt, rt.alloc(), SEARCH_SCRIPT, "");
    assert!(rt; line == 0, "line {line}");
}
