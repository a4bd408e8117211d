//! Runs of bytes, appended by copies of fixed widths where they are short: a call for each of them
//! would cost more than its bytes do.
ghost use Rattle.std.specs.Prelude.{◌≡◌, ◌+◌, ◌≤◌, ◌++◌, length, take, OnOk};
ghost use mathlib.Core.List.{IsPrefix};

use std::alloc::AllocError;

// What is copied of a text for a run at its front. Most constants between two slots are shorter.
const WIDTH: usize = 32;

// Appends so many bytes of the front of a text. Where they are few, a whole width is copied, and what
// is behind them is taken back.
#[inline(always)]
pub(crate) fn put_front(out: &mut Vec<u8>, text: &[u8], len: usize) -> Result<(), AllocError>
    requires { len ≤ length text.now }
    ensures put { OnOk result (out.new.items ≡ out.old.items ++ take len text.now) }
    ensures front { IsPrefix out.old.items out.new.items }
{
    if len <= WIDTH {
        if let Some(wide) = text.first_chunk::<WIDTH>() {
            return put_wide(out, wide, len);
        }
    }
    out.extend_from_slice(&text[..len])
}

// Appends so many bytes of the front of an array.
#[inline(always)]
fn put_wide(out: &mut Vec<u8>, wide: &[u8; WIDTH], len: usize) -> Result<(), AllocError>
    requires { len ≤ 32 }
    ensures put { OnOk result (out.new.items ≡ out.old.items ++ take len wide.now) }
    ensures front { IsPrefix out.old.items out.new.items }
{
    let end = out.len() + len;
    out.extend_from_slice(wide)?;
    out.truncate(end);
    Ok(())
}

// Appends bytes.
#[inline(always)]
pub(crate) fn put_bytes(out: &mut Vec<u8>, bytes: &[u8]) -> Result<(), AllocError>
    ensures put { OnOk result (out.new.items ≡ out.old.items ++ bytes.now) }
    ensures front { IsPrefix out.old.items out.new.items }
{
    match bytes.len() {
        0 => Ok(()),
        1 => {
            out.push(bytes[0])?;
            Ok(())
        }
        2..4 => put_ends::<2>(out, bytes),
        4..8 => put_ends::<4>(out, bytes),
        8..16 => put_ends::<8>(out, bytes),
        16..=32 => put_ends::<16>(out, bytes),
        _ => out.extend_from_slice(bytes),
    }
}

// Appends bytes by two copies of one width, of the first and of the last of them, which may overlap.
#[inline(always)]
fn put_ends<const N: usize>(out: &mut Vec<u8>, bytes: &[u8]) -> Result<(), AllocError>
    requires { (N ≤ length bytes.now) × (length bytes.now ≤ N + N) }
    ensures put { OnOk result (out.new.items ≡ out.old.items ++ bytes.now) }
    ensures front { IsPrefix out.old.items out.new.items }
{
    let Some(first) = bytes.first_chunk::<N>() else {
        unreachable!();
    };
    let Some(last) = bytes.last_chunk::<N>() else {
        unreachable!();
    };
    let seam = out.len() + (bytes.len() - N);
    out.extend_from_slice(first)?;
    out.truncate(seam);
    out.extend_from_slice(last)
}
