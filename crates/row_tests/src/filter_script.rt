//! What a filter tells of segments and of rows.
use crate::play::play;

/// Segments by their heads, rows, log types by themselves, and words that are marked.
static FILTER_SCRIPT: &str = r#"
# Patterns of one whole word that is no variable. A `\` before another byte is no constant byte, and
# a constant `\` belongs to a token.
type "run \x12 x"
type "runs \x12"
type "rerun \x12"
type "a\\\\b c"
type "x\\\x12 y"
type "x\x12 y"
type "y \\"
type ""
# run \x12 x
barren " run "        1 0 - no
barren " x "          1 0 - no
# runs \x12
barren " run "        1 1 - yes
# rerun \x12
barren " run "        1 2 - yes
# a\\\\b c
barren " a\\\\b "     1 3 - no
barren " a\\\\\\\\b " 1 3 - yes
# x\\\x12 y
barren " x "          1 4 - no
# x\x12 y
barren " x "          1 5 - no
# y \\
barren " y "          1 6 - no
# an empty one
barren " x "          1 7 - yes

books 1 100
type "run \x12 x"
type " INFO \x11 took \x13 s"
type "a\\\\b \x12"
word "task_1"
word "task_2"
word "xfoo1y"

# segments without a needed text, and others
barren " task_2 " 1 0   1     no
barren " task_2 " 1 0   0,2   yes
barren " task_9 " 1 0   0,1,2 yes
barren "task_9"   1 0   0     no
barren " 12 "     1 0   0     no
barren " took "   1 0   -     yes
barren " took "   1 0,1 -     no
barren " run  x " 1 0   -     no
barren " a\\\\b " 1 2   -     no
barren " \\*b "   1 2   -     yes
barren ""         0 0   -     yes

# Each bound is tested for itself.
outside "x" stamped -  -  no
outside "x" bare    -  -  no
outside "x" bare    0  -  yes
outside "x" stamped 40 -  no
outside "x" stamped 41 -  yes
outside "x" stamped -  10 no
outside "x" stamped -  9  yes
outside "x" stamped 30 20 no

# rows that match, and others
accepted " task_2 "     0:1                        yes
accepted " task_2 "     0:0                        no
accepted "oo1"          0:2                        yes
accepted "o*y x"        0:2                        yes
accepted "41,123] INFO" 1:7,0x14F32@5:1427089121123 yes
accepted "-1 took 0.3"  1:-1,0x14F32@5:1427089121123 yes
accepted "took 0.3 "    1:-1,0x14F32@5:1427089121123 no
accepted "a\\\\b t"     2:0                        yes
accepted "a\\\\\\\\b"   2:0                        no
accepted ""             0:-                        unwritten
accepted ""             3:-                        unwritten

# log types by themselves
of_type ""         "run \x12 x" certain
of_type " x"       "run \x12 x" certain
of_type "run * x"  "run \x12 x" certain
of_type " task_2 " "run \x12 x" tried
of_type "task"     "run \x12 x" tried
of_type " run "    "run \x12 x" rejected
of_type " took "   "run \x12 x" rejected
of_type "\n"       "run \x12 x" rejected

# A row is told by what its words bring, and a segment by the words that its head lists. A number
# that happens to be that of a word brings nothing of the word.
both "task"   0:0         0   tried    yes
both "task"   0:2         2   rejected no
both "run*oo" 0:1         1,2 rejected yes
both "run*oo" 0:2         1,2 tried    yes
both "run"    0:1         1   certain  yes
both "took"   1:7,0x14F32 -   certain  yes
both "oo1"    1:7,0x14F32 -   rejected no
both "oo1"    1:2,0x14F32 2   rejected no
both "12"     0:0         0   rejected yes

# segments by their moments: 1740787200000 is 2025-03-01
between "2025-03-01" stamped 1740787200000        1740790800000       yes
between "2025-03-01" bare    0                    0                   no
between "2025-03-02" stamped 1740787200000        1740790800000       no
between "2025-03-02" stamped 1740787200000        1740873600000       yes
between "2025-03-05" stamped 1740787200000        1740873600000       no
between "03-01"      stamped 1740787200000        1740790800000       yes
between "03-02"      stamped 1740787200000        1740790800000       no
between "2025-02-28" stamped 1740787199500        1740790800001       yes
between "2024-"      stamped 1740787200001        1740790800001       no
between "1999"       stamped -9223372036854775808 9223372036854775807 yes

# Words are marked by the numbers of those that have the token: no word is looked at, and a log type
# whose rows cannot bring the token is given up.
marked "task" 0,1           0:1       tried
marked "task" 0,1           0:2       rejected
marked "task" -             0:0       rejected
marked "task" 70000,4000000 0:4000000 tried
marked "task" 70000,4000000 0:4000001 rejected
marked "run"  -             0:0       certain
again  "task" 0,1           0:1       tried
again  "task" 0,1           0:2       rejected
again  "task" -             0:0       rejected

# texts that are looked for
needles "task"    1
needles "task*oo" 2
needles " took "  1
needles "run"     1
"#;

#[test]
fn rows_and_segments(rt: HostRuntime) -> Result<(), usize> {
    play(rt.alloc(), FILTER_SCRIPT)
}

/// Rows that are told by the texts of their words and numbers, and by their stamps.
static NUMBER_SCRIPT: &str = r#"
# 0x14F32, 0xF10 and 0x8000000000000510 are the words of 0.335, 1.5 and -0.5. The moments are
# 2025-03-01 00:00:00,404 and 2021-11-12 11:11:11,111.
type " from \x12 in \x11 ms"
type " load \x13 of \x12"
type "\x11 \x11 \x11 \x11 \x11 \x11 \x11 \x11 \x11"
word "10.0.2.7"
word "10.2.15.191"
word "007"
word "-0"
word "+5"
word "1."
word "a-404"

# A row is told by the texts of its words and numbers and by its stamp. None that matches is left
# out.
# a whole number, in words, numbers and stamps
row " 404 "             0:1,404                 tried
row " 404 "             0:1,405                 rejected
row " 404 "             0:1,1404                rejected
row " 404 "             0:1,4040404             rejected
row " 404 "             0:1,405@1:1636715471111 rejected
row " 0.335 "           1:0x14F32,0             tried
row " 0.335 "           1:0xF10,0               rejected
row " 11:11:11,"        0:3,1@1:1636715471111   tried
row " 11:11:11,"        0:3,1@1:1740787200404   rejected
row "404"               0:1,405@1:1740787200404 tried
row "404"               0:6,405                 tried
row "404"               0:1,70404               tried
row "404"               0:1,70405               rejected
row "-404"              0:6,0                   tried
row "-404"              0:1,-404                tried
row "-404"              0:1,404                 rejected
# a decimal
row "0.335"             1:0x14F32,0             tried
row "0.335"             1:0xF10,0               rejected
row "0.335"             0:0,335@1:1740787200404 rejected
# addresses: a number that is that of a marked word is no such word
row "10.0."             0:0,7                   tried
row "10.0."             0:1,0                   rejected
row "10.0."             1:0,1                   rejected
row "10.2.15.191"       0:1,7@1:1740787200404   tried
row "10.2.15.191"       0:0,7@1:1740787200404   rejected
# words that look like numbers
row "-0"                0:3,1                   tried
row "-0"                0:1,0                   rejected
row "-0"                1:0x8000000000000510,1  tried
row "007"               0:2,1                   tried
row "007"               0:1,7                   rejected
row "007"               0:1,10070               tried
row "+5"                0:4,1                   tried
row "+5"                0:1,5                   rejected
row "1."                0:5,1                   tried
row "1."                1:0xF10,3               tried
row "1."                0:3,1                   rejected
# stamps
row "2025-03-01 00"     0:3,1                   rejected
row "2025-03-01 00"     0:3,1@1:1740787200404   tried
row "2025-03-01 00"     0:3,1@1:1636715471111   rejected
# nine tokens: the first and the last share a bit
row "1 2 3 4 5 6 7 8 9" 2:1,2,3,4,5,6,7,8,9     tried
row "1 2 3 4 5 6 7 8 9" 2:1,2,3,4,5,6,7,8,1     tried
row "1 2 3 4 5 6 7 8 9" 2:1,2,3,4,5,6,7,7,9     rejected

# The words of a segment are asked only where no stamp and no number may bring what is missing.
segment "10.0."   0   0   yes
segment "10.0."   0   1,2 no
segment "10.0."   2   0   no
segment "404"     2   -   yes
segment "+5"      0,1 4   yes
segment "+5"      0,1 1   no
segment "00:00"   1   -   yes
segment "-12345"  0   -   yes
segment "-12345." 0   -   no
segment "-12345." 1   -   yes
"#;

#[test]
fn rows_and_segments_by_numbers(rt: HostRuntime) -> Result<(), usize> {
    play(rt.alloc(), NUMBER_SCRIPT)
}
