//! Where texts may stand in log types, which are given by their texts.
use query_plan::{may_begin, may_stand, texts_stand};

/// A text, the text of a log type, and whether the text may begin it and may stand in it.
const SLOTS: &[(&[u8], &[u8], bool, bool)] = &[
    // a time of the day: in one word, in three slots, where the constant bytes have its colons
    (b"00:04:34", b" INFO opened by \x12", false, false),
    (b"00:04:34", b"\x11:\x11:\x11", true, true),
    (b"00:04:34", b"Mar \x12 \x12:\x12:\x11 up", false, true),
    (b"00:04:34", b" took \x13:\x11 s", false, false),
    (b"00:04:34", b" from 00:04:34 on", false, true),
    (b"00:04:34", b":04:34 behind a stamp", false, false),
    (b":04:34", b":04:34 behind a stamp", true, true),
    (b":04:34", b":\x11:\x11 behind a stamp", true, true),
    // a delimiter before a slot is the text's too
    (b":04", b"\x11:\x11", false, true),
    (b":04", b"\x11 \x11", false, false),
    (b" 04", b"\x11 \x11", false, true),
    (b"04:", b"\x11 \x11", false, false),
    (b"04:", b"\x11", false, false),
    // a token goes to the end of its slot, and constant bytes stand for themselves
    (b"a1b c", b"\x12 c", true, true),
    (b"a1b c", b"\x12 d", false, false),
    (b"a1b c", b"x\x12 c", false, true),
    (b"a1b c", b"\x12", false, false),
    (b"opened", b" INFO opened by", false, true),
    (b"opener", b" INFO opened by", false, false),
    (b"opener", b" INFO opened by \x12", false, true),
    // a delimiter that is no space is looked for first, and a space where there is no other
    (b"a b:c", b"x a b:c", false, true),
    (b"a b:c", b"a b c", false, false),
    (b"a b:c", b"a b:d b:c", false, false),
    (b" 404 ", b" \x11 ", true, true),
    (b" 404 ", b"took \x11 ms", false, true),
    (b" 404 ", b"took \x11", false, false),
    (b"4 4", b"\x11 \x11", true, true),
    (b"4 4", b" \x11", false, false),
    // an escaped byte is a constant, and a slot's byte is none
    (b":1", b"\\\x11:\x11", false, true),
    (b"1:", b"\\\x11:\x11", false, false),
    (b"a:b", b"a\\\x12:b", false, false),
    (b"a\x11b", b"a\\\x11b", true, true),
    (b"\x11", b"\\\x11", true, true),
    (b"\x11", b"\x11", false, false),
    (b"7", b"\\\x11", false, false),
    (b"7", b"\x11", true, true),
    (b"\\", b"a \\\\ b", false, true),
    (b"\\\\", b"a \\\\ b", false, false),
    // a start in the middle, behind more than one window of other bytes, and in none
    (
        b"02:44:16",
        b"\x12 of a body that goes on for long enough, with a few more words in it: \x11:\x11:\x11 and on",
        false,
        true,
    ),
    (
        b"zone 7",
        b"a body that goes on for long enough, with a few more words in it, and then some zone \x11",
        false,
        true,
    ),
    (
        b"zone 7",
        b"a body that goes on for long enough, with a few more words in it, and then some zones",
        false,
        false,
    ),
    (b"page=33", b"GET /x?page=\x11&y=\x11", false, true),
    (b"page=33", b"GET /x?age=\x11&y=\x11", false, false),
    (b"10.2.15.191:9092", b"from \x12:\x11 on", false, true),
    (
        b"10.2.15.191:9092",
        b"from 10.2.15.191:\x11 on",
        false,
        true,
    ),
    (
        b"10.2.15.191:9092",
        b"from 10.2.15.190:\x11 on",
        false,
        false,
    ),
    (
        b"2025-03-01 02:25:17",
        b"at \x12 \x11:\x11:\x11",
        false,
        true,
    ),
    (
        b"2025-03-01 02:25:17",
        b"at \x12, \x11:\x11:\x11",
        false,
        false,
    ),
    // the byte before a delimiter: the text's, a slot's, another one's, or none
    (b" 85,", b"done \x11, left \x11", false, true),
    (b" 85,", b"done 85, left \x11", false, true),
    (b" 85,", b"done 86, left \x11", false, false),
    (b" 85,", b", left \x11", false, false),
    (b"a:b", b"a:b", true, true),
    (b"a:b", b"b:b a:b", false, true),
    (b"a:b", b":b a :b", false, false),
    // an escaped byte is no slot, and the byte behind it is its own
    (b"a\\:b", b"a\\\\:b", true, true),
    (b"\x11:b", b"\\\x11:b", true, true),
    (b"\x11:b", b"\x11:b", false, false),
    (b"7:b", b"\\\x11:b", false, false),
    (b"7:b", b"\\\\\x11:b", false, true),
    (b"7:b", b"\\\\\\\x11:b", false, false),
    (b"7b", b"\\\\\x11", false, true),
    (b"7b", b"\\\\\\\x11", false, false),
    // the empty text, and the empty log type
    (b"", b"", true, true),
    (b"", b"\x11", true, true),
    (b"a", b"", false, false),
];

#[test]
fn where_texts_may_stand(rt: HostRuntime) {
    for (text, log_type, begins, stands) in SLOTS {
        assert!(rt;
            may_begin(text, log_type) == *begins,
            "{text:?} begins {log_type:?}"
        );
        assert!(rt;
            may_stand(text, log_type) == *stands,
            "{text:?} stands in {log_type:?}"
        );
    }
}

#[test]
fn the_law_of_texts_stands() {
    texts_stand();
}
