//! The check of a small archive, whole, cut and changed.
use archive_check::{CheckRefusal, Summary, check};
use log_seams::MemDisk;
use plain_list::Text;
use std::alloc::{AllocError, Global};
use std::test::Fail;
use test_archives::{WORKED, changed};

// A byte that is changed, and the place of the damage.
const CHANGED: &[(usize, u8, u64)] = &[
    (0, 0x44, 0),
    (8, 4, 0),
    (33, 9, 32),
    (42, 2, 32),
    (65, 1, 55),
    (69, 2, 55),
    (77, 0x5C, 55),
    (77, 0x37, 78),
    (88, 1, 78),
    (92, 1, 78),
    (104, 2, 78),
    (104, 7, 78),
    (121, 2, 78),
    (142, 1, 78),
];

fn check_bytes(alloc: Global, bytes: &[u8]) -> Result<Result<Summary, CheckRefusal>, AllocError> {
    let text = Text::new(bytes.to_vec(alloc)?);
    let mut disk = MemDisk::new(alloc, text, 400, 40, Vec::new(alloc))?;
    Ok(check(alloc, &mut disk))
}

/// Whether the bytes are damaged at this place.
fn is_damaged(alloc: Global, bytes: &[u8], at: u64) -> Result<bool, AllocError> {
    Ok(check_bytes(alloc, bytes)? == Err(CheckRefusal::Damaged { at }))
}

// The place of the gate that the first so many bytes lack, or whose record they cut.
fn damage_of_cut(len: usize) -> u64 {
    match len {
        0..32 => 0,
        32..55 => 32,
        55..78 => 55,
        78..154 => 78,
        _ => 154,
    }
}

#[test]
fn a_small_archive_is_legal(rt: HostRuntime) -> Result<(), Fail> {
    let whole = Summary {
        entries: 3,
        files: 1,
        messages: 1,
    };
    let told = check_bytes(rt.alloc(), &WORKED)?;
    assert!(rt; told == Ok(whole));
    Ok(())
}

#[test]
fn each_cut_is_told_at_its_gate(rt: HostRuntime) -> Result<(), Fail> {
    for len in 0..WORKED.len() {
        let well = is_damaged(rt.alloc(), &WORKED[..len], damage_of_cut(len))?;
        assert!(rt; well, "{len}");
    }
    Ok(())
}

#[test]
fn each_changed_byte_is_told_at_its_gate(rt: HostRuntime) -> Result<(), Fail> {
    for &(place, byte, at) in CHANGED {
        let bytes = changed(rt.alloc(), &WORKED, place, byte)?;
        let well = is_damaged(rt.alloc(), bytes.as_slice(), at)?;
        assert!(rt; well, "{place}");
    }
    Ok(())
}
