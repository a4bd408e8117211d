//! Rows of which a run of the pattern may stand in the stamp, in the body, or over the border of
//! the two.
use crate::play::play;
use subquery_filter::rows_bring_chunks;

/// 1740787200000 is 2025-03-01 in milliseconds, and 1740787474000 the same at 00:04:34.
static STAMP_SCRIPT: &str = r#"
# without a place for a time, with slots for it, with the end of a time behind a stamp, and with a
# whole number behind a `:`
type " INFO took \x11 ms"
type "Mar \x12 \x12:\x12:\x11 up"
type ":04:34 late"
type "x:\x11"
type " page=\x11 of \x12"
word "01"
word "00"
word "04"
word "05"

# in the stamp
row     "00:04:34"            0:5@1:1740787474000  tried
row     "00:04:34"            0:5@1:1740787475000  rejected
row     "00:04:34"            0:5                  rejected
# in the body
row     "00:04:34"            1:0,1,2,34           tried
row     "00:04:34"            1:0,1,2,35           rejected
row     "00:04:34"            1:0,1,3,34           rejected
# over the border of a stamp to the second and a body
row     "00:04:34"            2:-@8:1740787200000  tried
row     "00:04:34"            2:-@8:1740787201000  rejected
row     " 00:04:34 l"         2:-                  rejected
# one digit
row     ":0"                  3:0                  tried
row     ":0"                  3:7                  rejected
row     "x:0"                 3:0                  tried
# a run that no stamp may have, in a log type that may not have it
row     "page=33"             4:33,0               tried
row     "page=33"             4:34,0               rejected
row     "page=33"             0:33@1:1740787474000 rejected
# more runs than bits: the first and the last share one, which the log type brings
row     "x*:*0*0*0*0*0*0*4"   3:4000000            tried
row     "x*:*0*0*0*0*0*0*4"   3:3000000            tried
row     "2*5*0*3*0*1*0*0*:34" 0:5@1:1740787474000  tried
# segments
segment "00:04:34"            0                    - yes
segment "page=33"             0                    - no
segment "page=33"             0,4                  - yes

# Rows of one page. One is rejected where its own stamp has no such text, or no stamp of the page
# may.
# one moment
stamped "00:04:34" 0:5 1:1740787474000=tried
stamped "00:04:34" 0:5 1:1740787475000=rejected
# before, at and behind the time
stamped "00:04:34" 0:5 1:1740787473999=rejected 1:1740787474000=tried 1:1740787475000=rejected
# a page of another minute, and rows without a stamp
stamped "00:04:34" 0:5 1:1740787534000=rejected 0:0=rejected 1:1740787593000=rejected
# over midnight; milliseconds that end with the front of the run would be tried
stamped "00:00:00" 0:5 1:1740873599001=rejected 1:1740873600404=tried 1:1740873601001=rejected
# two patterns, of milliseconds and of microseconds: each has a span of its own
stamped "00:04:34" 0:5 1:1740787534000=rejected 11:1740787474000000=tried 1:1740787535000=rejected
# in the body, and over the border of a stamp and a body
stamped "00:04:34" 1:0,1,2,34 1:1740787534000=tried 1:1740787535000=tried
stamped "00:04:34" 2:- 8:1740787200000=tried 8:1740787201000=rejected
# nine tokens
stamped "2025-03-01 00:04:34,000*took*5" 0:5 1:1740787474000=tried 1:1740787474001=rejected
"#;

#[test]
fn rows_by_runs(rt: HostRuntime) -> Result<(), usize> {
    play(rt.alloc(), STAMP_SCRIPT)
}

#[test]
fn the_law_of_rows_and_runs() {
    rows_bring_chunks();
}
