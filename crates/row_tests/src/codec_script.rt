//! Messages and their rows over two books.
use crate::play::play;

/// Messages as rows, and rows as messages.
static CODEC_SCRIPT: &str = r#"
# one encoder reads all of these
stamp milli "2023-11-14 22:13:20,000 INFO start" 1:1700000000000
stamp milli "7 x7" 0:0
stamp milli "2023-11-14 22:13:20,000x INFO" 8:1700000000000
stamp micro "2023-11-14 22:13:20,000 INFO start" 17:1700000000000000
stamp milli "\x11\x12\x13\\\xFF" 0:0

# The first message has the first numbers, and one of its type names nothing anew.
encodes "7 x7" 0:7,0 0
encodes "8 x7" 0:8,0 0
counts 1 1

# Whether rows can be written, and are encodings: rows of numbers without texts, of too few words
# and of too many, of a moment without a pattern, and of a stamp that the message written so has
# not.
books 1 100
names "7 x7"
fits 0:7,0            yes yes
fits 0:7,1            no  no
fits 0:7,4294967296   no  no
fits 0:7              no  no
fits 0:7,0,0          no  no
fits 1:7,0            no  no
fits 0:7,0@0:1        no  no
fits 0:7,0@8:0        yes no

# A word that has no room is refused after what stands before it was named.
books 1 1
names "7 x7"
full "9 y9" 1
counts 1 1

# A log type, and the words before one that has no room, have their numbers.
books 1 1
full "x1-a y1 z" 1
type_is "\x12 \x12 z" 0
word_is "x1-a" 0

# Messages come back, each over books of its version.
books 1 100
back ""
books 1 100
back "\x11\x12\x13\\\xFF"
books 1 100
back "a\\b \\\\ c=d =\\ 7\\7"
books 1 100
back "2023-11-14 22:13:20,000 INFO start task_12 took -0.50 s"
books 1 100
back "2023-11-14 22:13:20=abc 007"
books 2 100
back "[2023-11-14 22:13:20,000] 1\n  at 2.5"
books 3 100
back "2023-11-14 22:13:20.123456 took 12 ms"
books 3 100
back "2023-11-14 22:13:20,000 INFO face"
"#;

#[test]
fn messages_and_rows(rt: HostRuntime) -> Result<(), usize> {
    play(rt.alloc(), CODEC_SCRIPT)
}

/// Rows by a writer.
static WRITER_SCRIPT: &str = r#"
# Messages with and without stamps, of log types with and without slots, and bytes that are escaped;
# words, constants and numbers at the borders of the widths by which they are copied.
written ""
written "7 x7"
written "\x11\x12\x13\\\xFF"
written "7"
written "a\\b \\\\ c=d =\\ 7\\7"
written "2023-11-14 22:13:20,000 INFO start task_12 took -0.50 s"
written "no variable"
written "2023-11-14 22:13:20=abc 007"
written "8 y8"
written "k=a k=ab k=abc k=abcd k=abcdef7 k=abcdefg8 k=abcdefgh9"
written "a234567890a2345 a234567890a23456 a234567890a234567"
written "a234567890a234567890a234567890a a234567890a234567890a234567890a2"
written "a234567890a234567890a234567890a23"
written "1 xxxxxxxxxxxxxxxxxxxxxxxxxxxxx 2 xxxxxxxxxxxxxxxxxxxxxxxxxxxxxx 3"
written "3 xxxxxxxxxxxxxxxxxxxxxxxxxxxxxxx 4"
written "-9223372036854775808 9223372036854775807 0 -1 -10 999 1000 -9999 10000 99999999 100000000"

# One writer writes rows of four log types, the second of which has a text that is none: by all log
# types, and by a front of none of them, some, all, and more than there are.
books 1 100
type "\x11 \x12"
type "\x11 \\x"
type "a\\\x11b\\\\"
type "\x12\x12\x11"
word "x7"
writer
front 0
front 1
front 3
front 4
front 100

# a log type that comes after layouts were cut
books 1 100
later "7 x7"
"#;

#[test]
fn rows_by_a_writer(rt: HostRuntime) -> Result<(), usize> {
    play(rt.alloc(), WRITER_SCRIPT)
}
