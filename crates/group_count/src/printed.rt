//! The lines that are printed of groups.
ghost use Rattle.std.specs.Prelude.{◌≡◌, ◌≢◌, ◌<◌, ◌≤◌, ◌++◌, [], flat_map, length, true, IfOk, OnOk};
ghost use Rattle.search_meaning.specs.GroupLines.{minute_line, minutes_text, none_line, shape_from, shape_of, type_line, types_text};

use logtype_text::plain_front;
use search_meaning::{Group, GroupList};
use std::alloc::AllocError;

// Stands before a constant byte of a log type's text that would stand for a slot, or is this byte.
const ESCAPE: u8 = b'\\';

// Stand for the slots of a whole number, a word and a decimal.
const WHOLE: u8 = 0x11;

const WORD: u8 = 0x12;

const DECIMAL: u8 = 0x13;

/// Writes the byte behind an escape, and gives what stands behind it.
fn put_escaped<'a>(out: &mut Vec<u8>, text: &'a [u8]) -> Result<&'a [u8], AllocError>
    ensures shorter { IfOk result (λ rest. length rest.now ≤ length text.now) }
    ensures put { IfOk result (λ rest. out.new.items ++ shape_of rest.now
        ≡ out.old.items ++ shape_from true text.now) }
{
    match text {
        [byte, rest @ ..] => {
            out.push(*byte)?;
            Ok(rest)
        }
        [] => Ok(text),
    }
}

/// Writes a slot or an escaped byte, and gives what stands behind it.
fn put_symbol<'a>(out: &mut Vec<u8>, text: &'a [u8]) -> Result<&'a [u8], AllocError>
    requires { text.now ≢ [] }
    ensures shorter { IfOk result (λ rest. length rest.now < length text.now) }
    ensures put { IfOk result (λ rest. out.new.items ++ shape_of rest.now
        ≡ out.old.items ++ shape_of text.now) }
{
    let [first, rest @ ..] = text else {
        return Ok(text);
    };
    match *first {
        ESCAPE => return put_escaped(out, rest),
        WHOLE => out.extend_from_slice(b"{i}")?,
        WORD => out.extend_from_slice(b"{w}")?,
        DECIMAL => out.extend_from_slice(b"{d}")?,
        byte => out.push(byte)?,
    }
    Ok(rest)
}

/// Writes the constants at the front of a text, or its first symbol where there are none, and gives
/// what stands behind that.
fn put_front<'a>(out: &mut Vec<u8>, text: &'a [u8]) -> Result<&'a [u8], AllocError>
    requires { text.now ≢ [] }
    ensures shorter { IfOk result (λ rest. length rest.now < length text.now) }
    ensures put { IfOk result (λ rest. out.new.items ++ shape_of rest.now
        ≡ out.old.items ++ shape_of text.now) }
{
    let plain = plain_front(text);
    if plain == 0 {
        return put_symbol(out, text);
    }
    let (constants, rest) = text.split_at(plain);
    out.extend_from_slice(constants)?;
    Ok(rest)
}

/// Writes the shape of a log type's text.
fn put_shape(out: &mut Vec<u8>, text: &[u8]) -> Result<(), AllocError>
    ensures { OnOk result (out.new.items ≡ out.old.items ++ shape_of text.now) }
{
    let mut rest = text;
    while !rest.is_empty() {
        rest = put_front(out, rest)?;
    }
    Ok(())
}

/// Writes the line of a group by log type.
fn put_type(out: &mut Vec<u8>, group: &Group) -> Result<(), AllocError>
    ensures { OnOk result (out.new.items ≡ out.old.items ++ type_line group.now) }
{
    out.extend_from_slice(itoa::Buffer::new().format(group.count).as_bytes())?;
    out.push(b' ')?;
    put_shape(out, group.key.as_slice())?;
    out.push(b'\n')?;
    Ok(())
}

/// Writes the line of a group by minute.
fn put_minute(out: &mut Vec<u8>, group: &Group) -> Result<(), AllocError>
    ensures { OnOk result (out.new.items ≡ out.old.items ++ minute_line group.now) }
{
    out.extend_from_slice(itoa::Buffer::new().format(group.moment).as_bytes())?;
    out.push(b' ')?;
    out.extend_from_slice(itoa::Buffer::new().format(group.count).as_bytes())?;
    out.push(b'\n')?;
    Ok(())
}

/// Writes how many messages have no stamp, where some have none.
fn put_without(out: &mut Vec<u8>, without: u64) -> Result<(), AllocError>
    ensures { OnOk result (out.new.items ≡ out.old.items ++ none_line without) }
{
    if without > 0 {
        out.extend_from_slice(b"none ")?;
        out.extend_from_slice(itoa::Buffer::new().format(without).as_bytes())?;
        out.push(b'\n')?;
    }
    Ok(())
}

/// Writes the lines of groups by log type, `COUNT SHAPE`.
pub fn put_types(out: &mut Vec<u8>, groups: &GroupList) -> Result<(), AllocError>
    ensures { OnOk result (out.new.items ≡ out.old.items ++ types_text groups.now) }
{
    for group in groups.as_slice() {
        put_type(out, group)?;
    }
    Ok(())
}

/// Writes the lines of groups by minute, `MOMENT COUNT`.
fn put_all_minutes(out: &mut Vec<u8>, groups: &[Group]) -> Result<(), AllocError>
    ensures { OnOk result (out.new.items ≡ out.old.items ++ flat_map minute_line groups.now) }
{
    for group in groups {
        put_minute(out, group)?;
    }
    Ok(())
}

/// Writes the lines of groups by minute, `MOMENT COUNT`, and behind them `none COUNT` where some
/// messages have no stamp.
pub fn put_minutes(out: &mut Vec<u8>, groups: &GroupList, without: u64) -> Result<(), AllocError>
    ensures { OnOk result (out.new.items ≡ out.old.items ++ minutes_text groups.now without) }
{
    put_all_minutes(out, groups.as_slice())?;
    put_without(out, without)?;
    Ok(())
}
