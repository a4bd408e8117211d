//! Tests of groups and of their lines.

use group_count::printed::{put_minutes, put_types};
use group_count::{MinuteTable, TableRefusal, TypeTable};
use std::alloc::{AllocError, Global};
use word_places::TypeTexts;

/// The log types of the rows below. One of them stands twice, and one is the front of another.
const TEXTS: &[&[u8]] = &[
    b"\x12 done",
    b"\x11",
    b"a\\\x12b\\\\\x13\xff",
    b"\x12 done",
    b"\x12",
    b"",
];

/// Numbers of log types that are counted, and what is printed.
const BY_TYPE: &[(&[u32], &[u8])] = &[
    (&[], b""),
    (&[0, 0, 0], b"3 {w} done\n"),
    (&[0, 1, 0, 0], b"1 {i}\n3 {w} done\n"),
    (&[2, 5], b"1 \n1 a\x12b\\{d}\xff\n"),
    (&[0, 4, 3], b"1 {w}\n2 {w} done\n"),
];

/// Whether moments count microseconds, the patterns and moments that are counted, and what is
/// printed.
const BY_MINUTE: &[(bool, &[(u8, i64)], &[u8])] = &[
    (false, &[], b""),
    (
        false,
        &[(1, 1_700_000_000_000), (1, 1_700_000_001_500), (0, 0)],
        b"1699999980000 2\nnone 1\n",
    ),
    (
        false,
        &[(8, -30_000), (8, -62_167_219_200_000)],
        b"-62167219200000 1\n-60000 1\n",
    ),
    (
        false,
        &[
            (1, 60_000),
            (1, 60_001),
            (1, 60_002),
            (1, 60_003),
            (1, 60_004),
            (1, 0),
            (1, 119_999),
        ],
        b"0 1\n60000 6\n",
    ),
    (true, &[(11, -1), (11, 59_999_999)], b"-60000000 1\n0 1\n"),
];

/// The log types.
fn log_types(alloc: Global) -> Result<TypeTexts, AllocError> {
    let mut types = TypeTexts::begin(alloc, &[])?;
    for text in TEXTS {
        types.keep(text)?;
    }
    Ok(types)
}

/// A table of the log types above in which numbers were counted.
fn counted(alloc: Global, numbers: &[u32]) -> Result<TypeTable, AllocError> {
    let mut table = TypeTable::new(alloc, TEXTS.len() as u32);
    for number in numbers {
        table.count(*number)?;
    }
    Ok(table)
}

/// What is printed of numbers by type.
fn types_printed(
    alloc: Global,
    types: &TypeTexts,
    numbers: &[u32],
) -> Result<Vec<u8>, TableRefusal> {
    let table = counted(alloc, numbers)?;
    let groups = table.groups(alloc, types)?;
    let mut out = Vec::new(alloc);
    put_types(&mut out, &groups)?;
    Ok(out)
}

/// What is printed of stamps by minute.
fn minutes_printed(
    alloc: Global,
    micro: bool,
    stamps: &[(u8, i64)],
) -> Result<Vec<u8>, AllocError> {
    let mut table = MinuteTable::new(alloc, micro);
    for (pattern, moment) in stamps {
        table.count(*pattern, *moment)?;
    }
    let without = table.without();
    let groups = table.groups(alloc)?;
    let mut out = Vec::new(alloc);
    put_minutes(&mut out, &groups, without)?;
    Ok(out)
}

/// Whether just that is printed by type.
fn prints_types(alloc: Global, types: &TypeTexts, numbers: &[u32], text: &[u8]) -> bool {
    match types_printed(alloc, types, numbers) {
        Ok(out) => out.as_slice() == text,
        Err(_) => false,
    }
}

/// Whether just that is printed by minute.
fn prints_minutes(alloc: Global, micro: bool, stamps: &[(u8, i64)], text: &[u8]) -> bool {
    match minutes_printed(alloc, micro, stamps) {
        Ok(out) => out.as_slice() == text,
        Err(_) => false,
    }
}

/// Whether each row by type is printed so.
fn rows_by_type(alloc: Global) -> Result<bool, AllocError> {
    let types = log_types(alloc)?;
    for (numbers, text) in BY_TYPE {
        if !prints_types(alloc, &types, numbers, text) {
            return Ok(false);
        }
    }
    Ok(true)
}

/// Whether each row by minute is.
fn rows_by_minute(alloc: Global) -> bool {
    for (micro, stamps, text) in BY_MINUTE {
        if !prints_minutes(alloc, *micro, stamps, text) {
            return false;
        }
    }
    true
}

/// Numbers of which one has no text. One that is far beyond takes no more memory than others.
const BEYOND: &[&[u32]] = &[&[0, 6], &[6], &[u32::MAX, 0], &[1, 4_000_000_000, 2]];

/// Whether a number without a text is told.
fn tells_damage(alloc: Global) -> Result<bool, AllocError> {
    let types = log_types(alloc)?;
    for numbers in BEYOND {
        let printed = types_printed(alloc, &types, numbers);
        if !matches!(printed, Err(TableRefusal::Damaged)) {
            return Ok(false);
        }
    }
    Ok(true)
}

#[test]
fn groups_by_type(rt: HostRuntime) -> Result<(), AllocError> {
    let rows = rows_by_type(rt.alloc())?;
    assert!(rt; rows);
    let well = tells_damage(rt.alloc())?;
    assert!(rt; well);
    Ok(())
}

#[test]
fn groups_by_minute(rt: HostRuntime) {
    let rows = rows_by_minute(rt.alloc());
    assert!(rt; rows);
}
