//! Columns of numbers as bytes, the lowest byte of each number first.

ghost use Rattle.std.specs.Prelude.{◌≡◌, ◌<◌, ◌^◌, ◌++◌, ◌*◌, ◌%◌, length, All, IsTrue, OnOk};
ghost use Rattle.std.specs.Int.{w64};
ghost use Rattle.std.specs.Int.RustNames.{FitsSigned};
ghost use Rattle.std.specs.List.{flat_map};
ghost use Rattle.record_format.specs.Lists.{four_bytes};
ghost use Rattle.segment_format.specs.Layout.{eight_bytes, moment_bytes};

use byteorder::{ByteOrder, LittleEndian};
use std::alloc::AllocError;

/// Each number fits its type. It does nothing.
fn numbers_fit(numbers: &[u32])
    ensures { All (λ n. n < 2 ^ 32) numbers.now }
{
    let _ = numbers;
}

/// Each number fits its type. It does nothing.
fn longs_fit(numbers: &[u64])
    ensures { All (λ n. n < 2 ^ 64) numbers.now }
{
    let _ = numbers;
}

/// Each moment fits its type. It does nothing.
fn moments_fit(moments: &[i64])
    ensures { All (λ m. FitsSigned w64 m) moments.now }
{
    for moment in moments {
        let _value = *moment;
    }
}

/// Adds a number in four bytes.
pub fn put_number(out: &mut Vec<u8>, number: u32) -> Result<(), AllocError>
    ensures { OnOk result (out.new.items ≡ out.old.items ++ four_bytes number) }
{
    out.extend_from_slice(&number.to_le_bytes())
}

/// Adds a number in eight bytes.
pub fn put_long(out: &mut Vec<u8>, number: u64) -> Result<(), AllocError>
    ensures { OnOk result (out.new.items ≡ out.old.items ++ eight_bytes number) }
{
    out.extend_from_slice(&number.to_le_bytes())
}

/// Adds a moment.
pub fn put_moment(out: &mut Vec<u8>, moment: i64) -> Result<(), AllocError>
    ensures { OnOk result (out.new.items ≡ out.old.items ++ moment_bytes moment) }
{
    out.extend_from_slice(&moment.to_le_bytes())
}

/// Adds numbers of four bytes each.
pub fn put_numbers(out: &mut Vec<u8>, numbers: &[u32]) -> Result<(), AllocError>
    requires few { length numbers.now < 2 ^ 32 }
    requires room { length out.old.items < 2 ^ 48 }
    ensures { OnOk result (out.new.items ≡ out.old.items ++ flat_map four_bytes numbers.now) }
{
    let start = out.len();
    out.resize(start + 4 * numbers.len(), 0)?;
    LittleEndian::write_u32_into(numbers, &mut out[start..]);
    Ok(())
}

/// Adds numbers of eight bytes each.
pub fn put_longs(out: &mut Vec<u8>, numbers: &[u64]) -> Result<(), AllocError>
    requires few { length numbers.now < 2 ^ 32 }
    requires room { length out.old.items < 2 ^ 48 }
    ensures { OnOk result (out.new.items ≡ out.old.items ++ flat_map eight_bytes numbers.now) }
{
    let start = out.len();
    out.resize(start + 8 * numbers.len(), 0)?;
    LittleEndian::write_u64_into(numbers, &mut out[start..]);
    Ok(())
}

/// Adds moments.
pub fn put_moments(out: &mut Vec<u8>, moments: &[i64]) -> Result<(), AllocError>
    requires few { length moments.now < 2 ^ 32 }
    requires room { length out.old.items < 2 ^ 48 }
    ensures { OnOk result (out.new.items ≡ out.old.items ++ flat_map moment_bytes moments.now) }
{
    let start = out.len();
    out.resize(start + 8 * moments.len(), 0)?;
    LittleEndian::write_i64_into(moments, &mut out[start..]);
    Ok(())
}

/// Whether the bytes are these numbers, in four bytes each.
pub fn are_numbers(bytes: &[u8], numbers: &[u32]) -> bool
    requires { length bytes.now ≡ 4 * length numbers.now }
    ensures yes { IsTrue result → bytes.now ≡ flat_map four_bytes numbers.now }
    ensures no { bytes.now ≡ flat_map four_bytes numbers.now → IsTrue result }
{
    for place in 0..numbers.len() {
        if LittleEndian::read_u32(&bytes[4 * place..]) != numbers[place] {
            return false;
        }
    }
    true
}

/// Makes the vector the numbers of four bytes each that the bytes are.
pub fn fill_numbers(out: &mut Vec<u32>, bytes: &[u8]) -> Result<(), AllocError>
    requires { length bytes.now % 4 ≡ 0 }
    ensures spelled { OnOk result (bytes.now ≡ flat_map four_bytes out.new.items) }
    ensures length { OnOk result (length bytes.now ≡ 4 * length out.new.items) }
    ensures fit { OnOk result (All (λ n. n < 2 ^ 32) out.new.items) }
{
    out.resize(bytes.len() / 4, 0)?;
    LittleEndian::read_u32_into(bytes, &mut out[..]);
    numbers_fit(out.as_slice());
    Ok(())
}

/// Makes the vector the numbers of eight bytes each that the bytes are.
pub fn fill_longs(out: &mut Vec<u64>, bytes: &[u8]) -> Result<(), AllocError>
    requires { length bytes.now % 8 ≡ 0 }
    ensures spelled { OnOk result (bytes.now ≡ flat_map eight_bytes out.new.items) }
    ensures length { OnOk result (length bytes.now ≡ 8 * length out.new.items) }
    ensures fit { OnOk result (All (λ n. n < 2 ^ 64) out.new.items) }
{
    out.resize(bytes.len() / 8, 0)?;
    LittleEndian::read_u64_into(bytes, &mut out[..]);
    longs_fit(out.as_slice());
    Ok(())
}

/// Makes the vector the moments that the bytes are.
pub fn fill_moments(out: &mut Vec<i64>, bytes: &[u8]) -> Result<(), AllocError>
    requires { length bytes.now % 8 ≡ 0 }
    ensures spelled { OnOk result (bytes.now ≡ flat_map moment_bytes out.new.items) }
    ensures length { OnOk result (length bytes.now ≡ 8 * length out.new.items) }
    ensures fit { OnOk result (All (λ m. FitsSigned w64 m) out.new.items) }
{
    out.resize(bytes.len() / 8, 0)?;
    LittleEndian::read_i64_into(bytes, &mut out[..]);
    moments_fit(out.as_slice());
    Ok(())
}
