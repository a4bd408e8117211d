use std::test::Fail;
use var_codec::{Coded, decimal_ok, decimal_text, encode, whole_text};

// Texts and their words.
const VARIABLES: &[(&str, Coded)] = &[
    ("0", Coded::Whole(0)),
    ("-1", Coded::Whole(-1)),
    ("10", Coded::Whole(10)),
    ("-10", Coded::Whole(-10)),
    ("-706738", Coded::Whole(-706_738)),
    ("168147732108002", Coded::Whole(0x98ED_F1D7_92E2)),
    ("1234567890123456", Coded::Whole(1_234_567_890_123_456)),
    ("9223372036854775807", Coded::Whole(i64::MAX)),
    ("-9223372036854775808", Coded::Whole(i64::MIN)),
    (".5", Coded::Decimal(0x0000_0000_0000_0500)),
    ("-.5", Coded::Decimal(0x8000_0000_0000_0500)),
    ("0.335", Coded::Decimal(0x0000_0000_0001_4F32)),
    ("-12.50", Coded::Decimal(0x8000_0000_0004_E231)),
    ("00.10", Coded::Decimal(0x0000_0000_0000_0A31)),
    ("-00.0", Coded::Decimal(0x8000_0000_0000_0020)),
    ("532.6886", Coded::Decimal(0x0000_0000_5148_2663)),
    ("87639251.34891", Coded::Decimal(0x0007_F882_A4FE_2BC4)),
    ("-5973228808962.818", Coded::Decimal(0x9538_9EB5_5203_02F2)),
    (".9999999999999999", Coded::Decimal(0x2386_F26F_C0FF_FFFF)),
    ("0.000000000000000", Coded::Decimal(0x0000_0000_0000_00FE)),
    ("000000000000000.0", Coded::Decimal(0x0000_0000_0000_00F0)),
    ("-123456789012345.6", Coded::Decimal(0x8462_D53C_8ABA_C0F0)),
    ("be", Coded::Word),
    ("foo", Coded::Word),
    ("", Coded::Word),
    ("-", Coded::Word),
    (".", Coded::Word),
    ("-.", Coded::Word),
    ("-0", Coded::Word),
    ("00", Coded::Word),
    ("007", Coded::Word),
    ("-007", Coded::Word),
    ("+5", Coded::Word),
    ("--1", Coded::Word),
    ("1-2", Coded::Word),
    ("5.-", Coded::Word),
    ("1.", Coded::Word),
    ("1.2.3", Coded::Word),
    ("52413507-8..9", Coded::Word),
    ("172.128.0.41", Coded::Word),
    ("1e5", Coded::Word),
    ("x\\1", Coded::Word),
    ("container_15", Coded::Word),
    ("9223372036854775808", Coded::Word),
    ("-9223372036854775809", Coded::Word),
    ("99999999999999999999", Coded::Word),
    ("1234567890123456.7", Coded::Word),
    ("-63613125053.3385901", Coded::Word),
    ("0000000000000000.", Coded::Word),
];

// Numbers of 64 bits and the decimals whose words they are.
const DECIMAL_WORDS: &[(u64, Option<&str>)] = &[
    (0x0000_0000_0020_BEE4, Some("0000000000.08382")),
    (0x0000_0000_0000_0291, Some("00000000.02")),
    (0x8000_0000_0000_08D1, Some("-000000000000.08")),
    (0x902F_0CFD_A645_01F5, Some("-4555332469.015809")),
    (0x0000_7166_2F3C_1BE1, Some("0004870456760.59")),
    (0x0000_005D_4A15_48A0, Some("0156513620.0")),
    (0x0000_010E_740C_84AA, Some(".04537453700")),
    (0x8000_0000_0003_1D68, None),
    (0x8000_0000_0150_8387, Some("-0.00086147")),
    (0x0000_171A_A4F3_38FE, Some("0.000099231265592")),
    (0x2386_F26F_C0FF_FFFF, Some(".9999999999999999")),
    (0x2386_F26F_C0FF_FFF0, Some("999999999999999.9")),
    (0x2386_F26F_C100_00FF, None),
    (0x0000_0000_0000_0000, Some(".0")),
    (0x0000_0000_0000_0900, Some(".9")),
    (0x0000_0000_0000_0A00, None),
    (0x0000_0000_0000_0001, None),
    (0x0000_0000_0000_000F, None),
    (0x4000_0000_0000_0500, None),
    (0xC000_0000_0000_0500, None),
    (0x4000_1049_851A_1ED1, None),
    (0x0000_0248_8CE2_23AF, None),
    (0x6A47_B9AE_28FB_F36E, None),
    (0xFFFF_FFFF_FFFF_FFFF, None),
];

// Whether the word is this text's.
fn is_text_of(coded: Coded, text: &[u8]) -> bool {
    let mut out = [0; 20];
    match coded {
        Coded::Whole(value) => {
            let len = whole_text(value, &mut out);
            &out[..len] == text
        }
        Coded::Decimal(word) => is_decimal(word, text),
        Coded::Word => true,
    }
}

// Whether the word is that of a decimal with this text.
fn is_decimal(word: u64, text: &[u8]) -> bool {
    let mut out = [0; 20];
    if !decimal_ok(word) {
        return false;
    }
    let len = decimal_text(word, &mut out);
    &out[..len] == text
}

#[test]
fn texts_have_their_words_and_words_their_texts(rt: HostRuntime) {
    for &(text, coded) in VARIABLES {
        let well = encode(text.as_bytes()) == coded && is_text_of(coded, text.as_bytes());
        assert!(rt; well, "{text}");
    }
}

// Whether the word is that of a decimal with this text, which is encoded so, or of none.
fn is_told(word: u64, text: Option<&str>) -> bool {
    match text {
        Some(text) => {
            let bytes = text.as_bytes();
            is_decimal(word, bytes) && encode(bytes) == Coded::Decimal(word)
        }
        None => !decimal_ok(word),
    }
}

#[test]
fn decimal_words_are_told_from_other_numbers(rt: HostRuntime) {
    for &(word, text) in DECIMAL_WORDS {
        assert!(rt; is_told(word, text), "{word}");
    }
}
