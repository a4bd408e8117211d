//! Rows that are told by the values of their numbers, and by words that look like numbers.
use crate::play::play;

/// 0x3E721, 0x3E831, 0x421 and 0x8000000000000510 are the words of 9.99, 10.00, 0.04 and -0.5.
static VALUE_SCRIPT: &str = r#"
# a whole number behind a `:`, a word there, a decimal there, a whole number before a word, and a
# word before a whole number
type "x:\x11"
type "x:\x12"
type "x:\x13"
type " took \x11 of \x12"
type " of \x12 in \x11 ms"
word "00"
word "04"
word "007"
word "+5"
word "task_1000"
word "a-999"

# A number has no token of more digits than its own, but 0 has one of one digit.
# one digit
row ":0"                   0:0                   tried
row ":0"                   0:7                   rejected
row "0"                    0:0                   tried
row "0"                    0:9                   rejected
row "0"                    0:10                  tried
row "5"                    0:5                   tried
# two zeros beside one
row "00"                   0:0                   rejected
row "00"                   0:10                  rejected
row "00"                   0:100                 tried
row ":00"                  0:0                   rejected
row ":00"                  1:0                   tried
row ":00"                  1:1                   rejected
row "0*00"                 0:0                   rejected
# three digits and four
row "100"                  0:99                  rejected
row "100"                  0:100                 tried
row "999"                  0:998                 rejected
row "999"                  0:999                 tried
row "999"                  0:1000                rejected
row "1000"                 0:999                 rejected
row "1000"                 0:1000                tried
row "1000"                 0:1001                rejected
row "1000"                 0:91000               tried
row "0999"                 0:999                 rejected
row "0999"                 0:10999               tried
# more digits than the table has
row "65536"                0:65535               rejected
row "65536"                0:65536               tried
row "100000"               0:99999               rejected
row "100000"               0:100000              tried
# eighteen digits and more
row "999999999999999999"   0:999999999999999999  tried
row "1000000000000000000"  0:999999999999999999  rejected
row "1000000000000000000"  0:1000000000000000000 tried
row "10000000000000000000" 0:9223372036854775807 rejected
# below zero
row "5"                    0:-5                  tried
row "-5"                   0:-5                  tried
row "-5"                   0:5                   rejected
row "1000"                 0:-1000               tried
row "1000"                 0:-999                rejected
# decimals: their digits are read as one number, which may have a token across the point
row "99"                   2:0x3E721             tried
row "100"                  2:0x3E721             rejected
row "999"                  2:0x3E721             tried
row "1000"                 2:0x3E721             rejected
row "1000"                 2:0x3E831             tried
row "10"                   2:0x3E831             tried
row "00"                   2:0x3E831             tried
row "04"                   2:0x421               tried
row "00"                   2:0x421               rejected
row "4"                    2:0x421               tried
row "5"                    2:0x8000000000000510  tried
# several tokens
row "12*1000"              3:12,4                tried
row "12*1000"              3:13,4                rejected
row "took 2 of"            3:2,4                 tried
# words that have no token, and one that has it
row "27891811"             3:27891811,5          tried
row "27891811"             3:27891812,5          rejected
row "1000"                 3:5,4                 tried
row "1000"                 3:5,5                 rejected

# A token with a digit between two delimiters of the pattern, stored as a word, is in no number.
row  " 00 "        4:0,0                   tried
row  " 00 "        4:1,0                   rejected
row  " 00 "        4:1,100                 rejected
row  " 04 "        4:1,104                 tried
row  " 04 "        4:0,104                 rejected
row  " 04 "        4:0,4                   rejected
row  " 007 "       4:2,7                   tried
row  " 007 "       4:1,10070               rejected
row  " +5 "        4:3,5                   tried
row  " +5 "        4:1,5                   rejected
row  " task_1000 " 4:4,1                   tried
row  " task_1000 " 4:5,1                   rejected
# one delimiter alone
row  " 4 "         4:0,4                   tried
row  " 04"         4:1,1                   tried
row  "04 "         4:0,104                 tried
# in the stamp
row  ":04:"        4:0,1@1:1740787474000   tried
row  ":04:"        4:0,104@1:1740787534000 rejected
# a segment without the word
both " 04 "        4:0,104                 0 rejected no
both " 04 "        4:1,104                 1 tried    yes
"#;

#[test]
fn rows_by_values(rt: HostRuntime) -> Result<(), usize> {
    play(rt.alloc(), VALUE_SCRIPT)
}
