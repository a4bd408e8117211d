//! Texts that all scripts name.

pub(crate) static NAMES: &str = r#"
# what is said of words without a meaning, of a disk, of an output and of no archive
text usage "clpa: usage: clpa ARCHIVE COMMAND [OPTION]... [WORD]...\n"
text disk_failed "clpa: archive: disk failed\n"
text output_failed "clpa: output failed\n"
text no_archive "clpa: archive: damaged at 0\n"

# the number of a call that is never made
text never 18446744073709551615

# an archive without files, as create makes it, and one with the limits 2, 3 and 60
text empty "CLPARCH\n\x01\0\0\0\0\0\0\x01\0\0\0\x80\0\0\0\0\0\0\0\0\0\x01\0\0\0"
text small "CLPARCH\n\x01\0\0\0\x02\0\0\0\x03\0\0\0\0\0\0\0<\0\0\0\0\0\0\0\0"

# an archive with one file a.log of one message a, which is also its log type: the header, the name, the
# log type, the segment and its columns
text worked "CLPARCH\n\x01\0\0\0\0\0\0\x01\0\0\0\x80\0\0\0\0\0\0\0\0\0\x01\0\0"
text worked $worked "\x01\x01\r\0\0\0\0\0\0\0\x01\0\0\0\x05\0\0\0a.log"
text worked $worked "\x01\x02\r\0\0\0\0\0\0\0\0\0\0\0\x01\0\0\0\x01\0\0\0a"
text worked $worked "\x01\x04B\0\0\0\0\0\0\0\0\0\0\0\0\0\0\0\0\0\0\0\x01\0\0\0\x03\0\0\0\0\0\0\0\0\0\0\0\0\0\0\0\0\x01\0\0\0\0\0\0\0\0\0\0\0"
text worked $worked "\0\0\0\0\0\0\0\0\0\0\0\0\0\0\0\0\0\0\0\0\0\0"

# file a.log with the lines 12534, 12 34 and a12*34
text numbers "CLPARCH\n\x01\0\0\0d\0\0\0d\0\0\0\0\0\0\0\0\x10\0\0\0\0\0\0"
text numbers $numbers "\x01\x01\r\0\0\0\0\0\0\0\x01\0\0\0\x05\0\0\0a.log"
text numbers $numbers "\x01\x02\x1B\0\0\0\0\0\0\0\0\0\0\0\x03\0\0\0\x01\0\0\0\x11\x03\0\0\0\x11 \x11\x03\0\0\0\x12*\x11"
text numbers $numbers "\x01\x03\x0F\0\0\0\0\0\0\0\0\0\0\0\x01\0\0\0\x03\0\0"
text numbers $numbers "\0a12\x01\x04\x98\0\0\0\0\0\0\0\0\0\0\0\0\0\0\0\0\0\0\0\x03"
text numbers $numbers "\0\0\0\x03\0\0\0\0\0\0\0\0\0\0\0\0\0\0\0\0\x03\0\0\0\x01\0\0\0\x05\0"
text numbers $numbers "\0\0\0\0\0\0\x01\0\0\0\x02\0\0\0\0\0\0\0\0\0\0\0\0\0\0\0\0\0\0\0"
text numbers $numbers "\0\0\0\0\0\0\0\0\0\0\0\0\0\0\0\0\0\0\0\x01\0\0\0\x02\0\0\0\x01\0\0"
text numbers $numbers "\0\x02\0\0\0\x02\0\0\0\xF60\0\0\0\0\0\0\x0C\0\0\0\0\0\0\0"
text numbers $numbers "\x22\0\0\0\0\0\0\0\0\0\0\0\0\0\0\0\x22\0\0\0\0\0\0\0\0"
"#;
