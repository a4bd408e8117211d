//! Which rows of a segment are passed over for a pattern, and which lines are printed of it.
use crate::play::play;

/// Of each pattern: how many of the messages are passed over, and the lines that are printed.
static SIEVE_SCRIPT: &str = r#"
# a pair over the two sides of a word, within a word, within constants, behind a `\` and before one;
# with bytes of stamps and of numbers; behind others that do not serve, or are common, as the last
# two bytes too, and before common ones; and patterns that have none, or none that serves
printed "=j"     7 "f:1:k=job done;\n"
printed "b;"     6 "f:2:job k=ab;\n"
printed "ob"     6 "f:1:k=job done;\nf:2:job k=ab;\n"
printed "job*;"  6 "f:1:k=job done;\nf:2:job k=ab;\n"
printed "one"    7 "f:1:k=job done;\n"
printed "\\\\b"  7 "f:3:a\\b\n"
printed "a\\\\"  0 "f:3:a\\b\n"
printed "0 T"    0 "f:4:2023-11-14 22:13:20 Tub\n"
printed "Tu"     0 "f:4:2023-11-14 22:13:20 Tub\n"
printed "ub"     7 "f:4:2023-11-14 22:13:20 Tub\n"
printed "12 s"   0 "f:5:took 12 s\n"
printed "k 12"   7 "f:5:took 12 s\n"
printed "x7y"    0 "f:6:id x7y\n"
printed "()"     8 ""
printed "(?)"    0 "f:7:(5)\n"
printed "e-1.5e" 0 "f:8:e-1.5e\n"
printed "3*ub"   7 "f:4:2023-11-14 22:13:20 Tub\n"
printed "ob*=a"  7 "f:2:job k=ab;\n"
printed "1? s"   0 "f:5:took 12 s\n"
printed "k=job"  7 "f:1:k=job done;\n"
printed "jz"     8 ""
"#;

#[test]
fn rows_that_cannot_match_are_passed_over(rt: HostRuntime) -> Result<(), usize> {
    play(rt.alloc(), SIEVE_SCRIPT)
}
