use command_words::{Command, CountKey, WordsRefusal, read_words};
use std::alloc::{AllocError, Global};
use std::test::Fail;

/// The words of a command line.
fn words_of(alloc: Global, words: &[&str]) -> Result<Vec<String>, AllocError> {
    let mut all = Vec::new(alloc);
    for word in words {
        all.push(String::from_str(alloc, word)?)?;
    }
    Ok(all)
}

/// Whether the words have no meaning.
fn is_usage(alloc: Global, words: &[&str]) -> Result<bool, AllocError> {
    let all = words_of(alloc, words)?;
    Ok(read_words(alloc, all.as_slice()).err() == Some(WordsRefusal::Usage))
}

/// Words that are of no form.
const NO_FORM: &[&[&str]] = &[
    &[],
    &["show"],
    &["show", "a", "b"],
    &["show", "-a"],
    &["show", "--"],
    &["sho", "a"],
    &["--", "show", "a"],
    &["scan", "p"],
    &["scan", "p", "f", "g"],
    &["files", "a"],
    &["merge", "a"],
    &["upgrade", "a"],
    &["check", "--stats"],
    &["help"],
    &["help", "show"],
    &["-h"],
    &["--version"],
    &["show", "--help"],
];

/// Words whose options are not of the form.
const NO_OPTION: &[&[&str]] = &[
    &["create", "--types=5", "--types=5"],
    &["create", "--types"],
    &["create", "--types", "--words=5"],
    &["create", "--type=5"],
    &["create", "--workers=1"],
    &["create", "a"],
    &["--types=5", "create"],
    &["ingest"],
    &["ingest", "--workers=2"],
    &["ingest", "a", "--stats"],
    &["ingest", "--watch=a"],
    &["ingest", "a", "--watch"],
    &["ingest", "--watch", "--segment=5", "a"],
    &["ingest", "--watch", "-x", "a"],
    &["ingest", "--watch=a", "--watch=a", "a"],
    &["ingest", "--watch", "a", "b", "--watch", "c"],
    &["search", "--watch=a", "a"],
    &["search"],
    &["search", "a", "b"],
    &["search", "-a"],
    &["search", "--from", "-5", "a"],
    &["search", "--stats", "--stats", "a"],
    &["search", "--stats=true", "a"],
    &["search", "--segment=1", "a"],
    &["count", "a"],
    &["count", "--by", "type"],
    &["count", "--by=type", "--by=type", "a"],
    &["count", "--by=type", "--workers=1", "--workers=1", "a"],
    &["count", "--by=type", "--segment=1", "a"],
];

/// Words that name nothing that messages are counted by.
const NO_KEY: &[&[&str]] = &[
    &["count", "--by", "hour", "a"],
    &["count", "--by=", "a"],
    &["count", "--by=Type", "a"],
    &["count", "--by=types", "a"],
    &["count", "--by", "type", "--from=05", "a"],
];

/// Words with a number that is outside its range.
const OUTSIDE: &[&[&str]] = &[
    &["create", "--format=0"],
    &["create", "--format=4"],
    &["create", "--types", "0"],
    &["create", "--types", "2147483649"],
    &["create", "--words=0"],
    &["create", "--words=2147483649"],
    &["create", "--bytes=32"],
    &["create", "--bytes=1099511627777"],
    &["ingest", "--workers=0", "a"],
    &["ingest", "--workers=65", "a"],
    &["ingest", "--segment=0", "a"],
    &["ingest", "--segment=65537", "a"],
    &["decode", "4294967296"],
    &["search", "--from=9223372036854775808", "a"],
    &["search", "--to=-9223372036854775809", "a"],
    &["count", "--by=type", "--workers=0", "a"],
    &["count", "--by=type", "--workers=65", "a"],
    &["bench", "4294967296", "1", "1"],
    &["bench", "0", "0", "1"],
    &["bench", "0", "1000001", "1"],
    &["bench", "0", "1", "65"],
];

/// Words with a number that is not written as numbers are.
const NO_NUMBER: &[&[&str]] = &[
    &["create", "--types="],
    &["create", "--types=007"],
    &["create", "--types=+5"],
    &["create", "--types=-5"],
    &["create", "--types= 5"],
    &["create", "--types=5.0"],
    &["decode", "--", "-0"],
    &["decode", "00"],
    &["decode", "+1"],
    &["decode", "x"],
    &["decode", ""],
    &["search", "--from=-0", "a"],
    &["search", "--from=05", "a"],
];

#[test]
fn other_forms_are_refused(rt: HostRuntime) -> Result<(), Fail> {
    for &words in NO_FORM {
        let well = is_usage(rt.alloc(), words)?;
        assert!(rt; well, "{words:?}");
    }
    Ok(())
}

#[test]
fn other_options_are_refused(rt: HostRuntime) -> Result<(), Fail> {
    for &words in NO_OPTION {
        let well = is_usage(rt.alloc(), words)?;
        assert!(rt; well, "{words:?}");
    }
    Ok(())
}

#[test]
fn other_keys_are_refused(rt: HostRuntime) -> Result<(), Fail> {
    for &words in NO_KEY {
        let well = is_usage(rt.alloc(), words)?;
        assert!(rt; well, "{words:?}");
    }
    Ok(())
}

#[test]
fn numbers_outside_their_range_are_refused(rt: HostRuntime) -> Result<(), Fail> {
    for &words in OUTSIDE {
        let well = is_usage(rt.alloc(), words)?;
        assert!(rt; well, "{words:?}");
    }
    Ok(())
}

#[test]
fn other_texts_are_no_numbers(rt: HostRuntime) -> Result<(), Fail> {
    for &words in NO_NUMBER {
        let well = is_usage(rt.alloc(), words)?;
        assert!(rt; well, "{words:?}");
    }
    Ok(())
}

/// Words of `show`, and the file.
const SHOWS: &[(&[&str], &str)] = &[
    (&["show", "a"], "a"),
    (&["show", ""], ""),
    (&["show", "-"], "-"),
    (&["show", "--", "--"], "--"),
];

/// Whether the words ask to show this file.
fn shows(alloc: Global, words: &[&str], wanted: &str) -> Result<bool, AllocError> {
    let all = words_of(alloc, words)?;
    Ok(match read_words(alloc, all.as_slice()) {
        Ok(Command::Show { file }) => file == wanted,
        _ => false,
    })
}

#[test]
fn show_has_a_file(rt: HostRuntime) -> Result<(), Fail> {
    for &(words, wanted) in SHOWS {
        let well = shows(rt.alloc(), words, wanted)?;
        assert!(rt; well, "{words:?}");
    }
    Ok(())
}

/// Words of `create`, and the version and the limits.
const CREATES: &[(&[&str], u32, u32, u32, u64)] = &[
    (&["create"], 1, 16_777_216, 2_147_483_648, 1_099_511_627_776),
    (
        &[
            "create",
            "--bytes",
            "33",
            "--types=1",
            "--format=3",
            "--words=1",
        ],
        3,
        1,
        1,
        33,
    ),
    (
        &["create", "--types=2147483648", "--words", "2147483648"],
        1,
        2_147_483_648,
        2_147_483_648,
        1_099_511_627_776,
    ),
];

/// Whether the words ask to create an archive of this version, with these limits.
fn creates(
    alloc: Global,
    words: &[&str],
    (version, types): (u32, u32),
    (limit, bytes): (u32, u64),
) -> Result<bool, AllocError> {
    let all = words_of(alloc, words)?;
    Ok(match read_words(alloc, all.as_slice()) {
        Ok(Command::Create { header }) => {
            (header.version, header.types_limit) == (version, types)
                && (header.words_limit, header.length_limit) == (limit, bytes)
        }
        _ => false,
    })
}

#[test]
fn create_has_limits(rt: HostRuntime) -> Result<(), Fail> {
    for &(words, version, types, limit, bytes) in CREATES {
        let well = creates(rt.alloc(), words, (version, types), (limit, bytes))?;
        assert!(rt; well, "{words:?}");
    }
    Ok(())
}

/// Words of `ingest`, and the counts of workers, of rows and of files.
const INGESTS: &[(&[&str], u32, u32, usize)] = &[
    (&["ingest", "a"], 1, 65_536, 1),
    (
        &["ingest", "--segment", "1", "--workers=64", "a", "b"],
        64,
        1,
        2,
    ),
    (
        &["ingest", "a", "--workers", "2", "b", "--", "-c"],
        2,
        65_536,
        3,
    ),
];

/// Whether the words ask to ingest so many files, by so many workers in segments of so many rows.
fn ingests(alloc: Global, words: &[&str], wanted: (u32, u32, usize)) -> Result<bool, AllocError> {
    let all = words_of(alloc, words)?;
    Ok(match read_words(alloc, all.as_slice()) {
        Ok(Command::Ingest { asked }) => {
            (asked.workers, asked.segment, asked.files.len()) == wanted
        }
        _ => false,
    })
}

/// Words of `ingest`, the pattern of the messages that are printed, and the count of files.
const WATCHES: &[(&[&str], Option<&str>, usize)] = &[
    (&["ingest", "a"], None, 1),
    (&["ingest", "--", "--watch=a"], None, 1),
    (&["ingest", "--watch=a", "b"], Some("a"), 1),
    (&["ingest", "--watch", "a", "b", "c"], Some("a"), 2),
    (&["ingest", "a", "--watch", "*error*"], Some("*error*"), 1),
    (&["ingest", "--watch=", "a"], Some(""), 1),
    (&["ingest", "a", "--watch", ""], Some(""), 1),
    (&["ingest", "--watch", "-", "a"], Some("-"), 1),
    (&["ingest", "--watch=-x", "a"], Some("-x"), 1),
    (&["ingest", "--watch=a=b", "a"], Some("a=b"), 1),
    (
        &["ingest", "--segment=5", "--watch", "2", "--workers=3", "4"],
        Some("2"),
        1,
    ),
];

/// Whether the words ask to ingest so many files, with the messages of this pattern printed.
fn watches(
    alloc: Global,
    words: &[&str],
    pattern: Option<&str>,
    files: usize,
) -> Result<bool, AllocError> {
    let all = words_of(alloc, words)?;
    Ok(match read_words(alloc, all.as_slice()) {
        Ok(Command::Ingest { asked }) => asked.watch == pattern && asked.files.len() == files,
        _ => false,
    })
}

#[test]
fn ingest_may_have_a_pattern(rt: HostRuntime) -> Result<(), Fail> {
    for &(words, pattern, files) in WATCHES {
        let well = watches(rt.alloc(), words, pattern, files)?;
        assert!(rt; well, "{words:?}");
    }
    Ok(())
}

#[test]
fn ingest_has_workers_rows_and_files(rt: HostRuntime) -> Result<(), Fail> {
    for &(words, workers, segment, files) in INGESTS {
        let well = ingests(rt.alloc(), words, (workers, segment, files))?;
        assert!(rt; well, "{words:?}");
    }
    Ok(())
}

/// Words of `search`, and the bounds, whether counts are printed, the workers and the pattern.
const SEARCHES: &[(&[&str], Option<i64>, Option<i64>, bool, u32, &str)] = &[
    (&["search", "a*b"], None, None, false, 1, "a*b"),
    (
        &["search", "--from=-5", "--stats", "--", "-x"],
        Some(-5),
        None,
        true,
        1,
        "-x",
    ),
    (
        &["search", "", "--to", "5", "--from", "6", "--workers", "64"],
        Some(6),
        Some(5),
        false,
        64,
        "",
    ),
    (
        &["search", "--from=-9223372036854775808", "x"],
        Some(i64::MIN),
        None,
        false,
        1,
        "x",
    ),
];

/// Whether the words ask to search for a pattern in these bounds, with counts or without, by so many workers.
fn searches(
    alloc: Global,
    words: &[&str],
    bounds: (Option<i64>, Option<i64>),
    told: (bool, u32),
    pattern: &str,
) -> Result<bool, AllocError> {
    let all = words_of(alloc, words)?;
    Ok(match read_words(alloc, all.as_slice()) {
        Ok(Command::Search { asked }) => {
            (asked.from, asked.to) == bounds
                && (asked.stats, asked.workers) == told
                && asked.pattern == pattern
        }
        _ => false,
    })
}

#[test]
fn search_has_a_range_and_a_pattern(rt: HostRuntime) -> Result<(), Fail> {
    for &(words, from, to, stats, workers, pattern) in SEARCHES {
        let well = searches(rt.alloc(), words, (from, to), (stats, workers), pattern)?;
        assert!(rt; well, "{words:?}");
    }
    Ok(())
}

/// Words of `count`, and what is counted by, the bounds, whether counts are printed, the workers and
/// the pattern.
const COUNTS: &[(&[&str], CountKey, Option<i64>, Option<i64>, bool, u32, &str)] = &[
    (
        &["count", "--by", "type", "a*b"],
        CountKey::LogType,
        None,
        None,
        false,
        1,
        "a*b",
    ),
    (
        &[
            "count",
            "",
            "--from=-5",
            "--stats",
            "--workers=64",
            "--by=minute",
        ],
        CountKey::Minute,
        Some(-5),
        None,
        true,
        64,
        "",
    ),
    (
        &[
            "count",
            "--to",
            "5",
            "--by=minute",
            "--from",
            "6",
            "--workers",
            "2",
            "--",
            "-x",
        ],
        CountKey::Minute,
        Some(6),
        Some(5),
        false,
        2,
        "-x",
    ),
];

/// Whether the words ask to count by this in these bounds, with the counts of the search or without, by
/// so many workers.
fn counts(
    alloc: Global,
    words: &[&str],
    by: CountKey,
    bounds: (Option<i64>, Option<i64>),
    told: (bool, u32, &str),
) -> Result<bool, AllocError> {
    let all = words_of(alloc, words)?;
    Ok(match read_words(alloc, all.as_slice()) {
        Ok(Command::Count { asked }) => {
            asked.by == by
                && (asked.from, asked.to) == bounds
                && (asked.stats, asked.workers, asked.pattern) == told
        }
        _ => false,
    })
}

#[test]
fn count_has_a_key_and_a_pattern(rt: HostRuntime) -> Result<(), Fail> {
    for &(words, by, from, to, stats, workers, pattern) in COUNTS {
        let well = counts(rt.alloc(), words, by, (from, to), (stats, workers, pattern))?;
        assert!(rt; well, "{words:?}");
    }
    Ok(())
}

/// Whether the words ask to decode the file of this number.
fn decodes(alloc: Global, words: &[&str], wanted: u32) -> Result<bool, AllocError> {
    let all = words_of(alloc, words)?;
    Ok(match read_words(alloc, all.as_slice()) {
        Ok(Command::Decode { number }) => number == wanted,
        _ => false,
    })
}

/// Whether the words ask for generated logs of this number, so many lines each, by so many workers.
fn benches(alloc: Global, words: &[&str], wanted: (u32, u32, u32)) -> Result<bool, AllocError> {
    let all = words_of(alloc, words)?;
    Ok(match read_words(alloc, all.as_slice()) {
        Ok(Command::Bench { asked }) => (asked.number, asked.lines, asked.workers) == wanted,
        _ => false,
    })
}

#[test]
fn decode_and_bench_have_numbers(rt: HostRuntime) -> Result<(), Fail> {
    let decoded = decodes(rt.alloc(), &["decode", "4294967295"], u32::MAX)?;
    let words = ["bench", "0", "1000000", "64"];
    let benched = benches(rt.alloc(), &words, (0, 1_000_000, 64))?;
    assert!(rt; decoded && benched);
    Ok(())
}
