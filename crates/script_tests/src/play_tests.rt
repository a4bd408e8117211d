//! That scripts fail where what they want is not so, and at which line.
use crate::play::failing_line;

/// A script, the name of its test, and the number of the line that fails; 0 where none does.
const TESTS: &[(&str, &str, usize)] = &[
    ("disk a\ntest b\nimage b", "", 0),
    ("disk a\ntest b\nimage b\ntest c\nimage a", "c", 0),
    ("disk a\ntest b\nimage b\ntest c\nimage a", "b", 3),
    ("disk a\none\ntest b", "b", 2),
    ("test b", "a", usize::MAX),
];

/// A script without tests, and the number of its line that fails; 0 where none does.
const ROWS: &[(&str, usize)] = &[
    ("", 0),
    ("# a comment\ncall # of a line\nis 2 \"\" $usage", 0),
    ("call\nis 2", 2),
    ("call\nis 2 $usage", 2),
    ("call\nis 3 \"\" $usage", 2),
    ("call\nis 2 a $usage", 2),
    ("call show\n\nstatus 0", 3),
    ("call create\nfront 0 a", 0),
    ("call create\nfront 1 a", 2),
    ("call create\nfront 0 a b", 2),
    ("log a \"x y\\n\"\ncall show a\nfront 0 x", 3),
    ("log a \"x y\\n\"\ncall show a\nfront 0 \"x y\\n\\n\"", 0),
    ("log a \"x y\\n\"\ncall show a\nbegins 0 x\nbegins 0 y", 4),
    (
        "log a \"x y\\n\"\ncall show a\nends 0 \"y\\n\"\nends 0 y",
        4,
    ),
    (
        "log a \"x y\\n\"\ncall show a\nlines 0 \"x \" \"y\\n\"\nlines 0 \"y \" \"y\\n\"",
        4,
    ),
    ("log a \"x y\\n\"\ncall show a\nlines 0 \"x \" \"x\\n\"", 3),
    (
        "log a \"x y\\n\"\ncall show a\nlines 0 \"x \" \"y\\n\" c",
        3,
    ),
    ("log a a 0\ncall show a\nstatus 0", 3),
    (
        "log a x\nlog a y\ncall show a\nis 0 \"y\\n\"\nopening 0\ncall show a\nstatus 0",
        7,
    ),
    ("call create\nimage $empty\nimage $small", 3),
    ("call create\nchange 8 \"\\x02\"\nimage $empty", 3),
    ("change 0 a", 1),
    ("call create\ncalls 3\ncalls 4", 3),
    ("fault 0\ncall create\nfaults 1\nfaults 0", 4),
    (
        "disk \"a\\x41\\x5c\\n\\0\\\\\"\nimage \"aA\\\\\\x0A\\x00\\x5C\"\nimage $none",
        3,
    ),
    ("disk a\nswap\nimage a", 3),
    ("disk a\naside\ncrash 0 0\nimage a\ncrash 1 0", 5),
    (
        "call create\naside\ncrash 3 2\nimage $empty\ncrash 2 2\nimage $empty",
        6,
    ),
    (
        "repeat a 3 b\nhead b 2 $a\ntext c $b $a\ndisk $c\nimage bbbbb\nimage bbbb",
        6,
    ),
    ("head b 2 a", 1),
    ("call create\nkeep a\ndisk b\nimage $a", 4),
    (
        "call create\ncount n\nleast 3 n\nleast n-1 2\nleast n+1 3",
        5,
    ),
    ("or image a\nor image \"\"\none\none", 4),
    ("or image a\nor image b\none", 3),
    ("or disk a", 1),
    ("or", 1),
    ("nonsense", 1),
    ("each k 1 0\nend", 1),
    ("each k 0 2\nleast k 1\nend", 2),
    (
        "each k 1 2\neach p 3 4\ndisk a\nend\nend\nleast 2 k\nleast 4 p\nleast 3 k",
        8,
    ),
    (
        "call create\neach k 0 2\nleave 1\nleave 0\none\nend\nleast 1 k",
        7,
    ),
    (
        "call create\neach k 0 2\neach p 0 1\nnext 0\none\nend\nend\nleast 2 k\none",
        9,
    ),
    ("call create\nleave 0", 2),
    ("play a", 1),
    ("back", 1),
    ("play a b\nimage b\none\npart a\ndisk $1\nback", 3),
    ("part a\none\nback", 0),
    (
        "room 0\nlog a a\ncall show a\nis 7 \"\" $output_failed\ncall show a\nis 0 a",
        6,
    ),
    (
        "write 0\nlog a a\ncall show a\nis 7 \"\" $output_failed\nslow\ncall show a\nis 0 a",
        7,
    ),
    ("unsaid\ncall\nis 2\nsay 0\ncall\nis 2\ncall\nis 2", 8),
    (
        "words 2 a\ncall show\nis 2 \"\" $usage\nlog a a\nwords 1 a\ncall show\nis 0 a",
        7,
    ),
];

#[test]
fn scripts_fail_where_what_they_want_is_not_so(rt: HostRuntime) {
    for (script, wanted) in ROWS {
        let line = failing_line(&rt, rt.alloc(), script, "");
        assert!(rt; line == *wanted, "line {line} of {script}");
    }
}

#[test]
fn tests_are_played_behind_what_stands_before_them(rt: HostRuntime) {
    for (script, test, wanted) in TESTS {
        let line = failing_line(&rt, rt.alloc(), script, test);
        assert!(rt; line == *wanted, "line {line} of {script}");
    }
}
