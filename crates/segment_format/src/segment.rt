//! A segment of rows as bytes.

ghost use Rattle.std.specs.Prelude.{◌≡◌, ◌<◌, ◌^◌, ◌++◌, if◌then◌else◌, length, map, IfOk, OnOk};
ghost use Rattle.std.specs.Ordering.{int_cmp, ord_min, ord_max};
ghost use Rattle.column_store.specs.Row.{variable_count};
ghost use Rattle.std.specs.Int.{w64};
ghost use Rattle.std.specs.Int.RustNames.{FitsSigned};
ghost use Rattle.std.specs.List.{flat_map};
ghost use Rattle.std.specs.List.Sorted.{IsStrictlyIncreasing};
ghost use Rattle.record_format.specs.Lists.{four_bytes};
ghost use Rattle.segment_format.specs.Layout.{stamped_moments, has_any, least_of, greatest_of, columns_bytes, segment_bytes};

use crate::columns::{ROW_LEN, WORD_LEN};
use crate::fixed::{Fixed, put_fixed};
use crate::numbers::{put_longs, put_moments, put_number, put_numbers};
use crate::sets::set_of;
use column_store::Columns;
use plain_list::{NumberList, Text};
use std::alloc::{AllocError, Global};

/// The least of the moments so far, if there are any, and this one.
fn lesser(any: bool, least: i64, moment: i64) -> i64
    ensures is { result ≡ (if any then ord_min int_cmp least moment else moment) }
    ensures fits { FitsSigned w64 result }
{
    if any { least.min(moment) } else { moment }
}

/// The greatest of the moments so far, if there are any, and this one.
fn greater(any: bool, greatest: i64, moment: i64) -> i64
    ensures is { result ≡ (if any then ord_max int_cmp greatest moment else moment) }
    ensures fits { FitsSigned w64 result }
{
    if any { greatest.max(moment) } else { moment }
}

/// Whether a row has a stamp, and the least and the greatest moment of those that have, else 0.
fn span_of(columns: &Columns) -> (bool, i64, i64)
    ensures stamped { result.0 ≡ has_any (stamped_moments columns.now.rows) }
    ensures least { result.1 ≡ least_of (stamped_moments columns.now.rows) }
    ensures greatest { result.2 ≡ greatest_of (stamped_moments columns.now.rows) }
    ensures fits_least { FitsSigned w64 result.1 }
    ensures fits_greatest { FitsSigned w64 result.2 }
{
    columns.rows_fit();
    let patterns = columns.patterns();
    let moments = columns.moments();
    let mut stamped = false;
    let mut least = 0;
    let mut greatest = 0;
    for place in 0..patterns.len() {
        if patterns[place] == 0 {
            continue;
        }
        least = lesser(stamped, least, moments[place]);
        greatest = greater(stamped, greatest, moments[place]);
        stamped = true;
    }
    (stamped, least, greatest)
}

/// Adds how many words each row has.
fn put_counts(out: &mut Vec<u8>, columns: &Columns) -> Result<(), AllocError>
    ensures { OnOk result (out.new.items ≡ out.old.items
        ++ flat_map four_bytes (map (λ r. length r.words) columns.now.rows)) }
{
    let mut start = 0;
    for end in columns.ends() {
        put_number(out, *end - start)?;
        start = *end;
    }
    Ok(())
}

/// Adds the columns of the rows.
fn put_columns(out: &mut Vec<u8>, columns: &Columns) -> Result<(), AllocError>
    requires room { length out.old.items < 2 ^ 40 }
    requires rows { length columns.now.rows < 2 ^ 32 }
    requires words { variable_count columns.now.rows < 2 ^ 32 }
    ensures { OnOk result (out.new.items ≡ out.old.items ++ columns_bytes columns.now.rows) }
{
    out.extend_from_slice(columns.patterns())?;
    put_moments(out, columns.moments())?;
    put_numbers(out, columns.types())?;
    put_counts(out, columns)?;
    put_longs(out, columns.words())?;
    Ok(())
}

/// The bytes of a segment with these rows: its head, which lists their log types and these numbers of
/// dictionary words, and their columns. It takes three allocations, two of them for the log types alone.
pub fn write_segment(
    alloc: Global,
    file: u32,
    first: u64,
    last: bool,
    ended: bool,
    columns: &Columns,
    words: &NumberList,
) -> Result<Text, AllocError>
    requires rise { IsStrictlyIncreasing words.now }
    requires count { length words.now < 2 ^ 32 }
    ensures { IfOk result (λ payload. payload
        ≡ segment_bytes file first last ended columns.now.rows words.now) }
{
    let types = set_of(alloc, columns.types())?;
    let (stamped, least, greatest) = span_of(columns);
    let fixed = Fixed {
        file,
        first,
        rows: columns.rows(),
        last,
        ended,
        stamped,
        least,
        greatest,
        types: types.len() as u32,
        words: words.len() as u32,
        variables: columns.variables(),
    };
    let room = fixed.head_len()
        + (ROW_LEN * u64::from(fixed.rows) + WORD_LEN * u64::from(fixed.variables));
    let mut out = Vec::with_capacity(alloc, room as usize)?;
    put_fixed(&mut out, &fixed)?;
    put_numbers(&mut out, types.as_slice())?;
    put_numbers(&mut out, words.as_slice())?;
    put_columns(&mut out, columns)?;
    Ok(Text::new(out))
}
