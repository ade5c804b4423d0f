//! Writing a row's bytes.
ghost use Rattle.std.specs.Prelude.{◌≡◌, ◌≤◌, ◌<◌, ◌++◌, ◌^◌, ◌+◌, ◌/◌, IfOk, OnOk, OnErr, length};
ghost use Rattle.std.specs.Int.{w16, to_be_bytes};
ghost use Rattle.std.specs.List.{flat_map, All};
ghost use Rattle.rows.specs.RowBytes.{IsRowOf, low_bytes, null_bits, nullables, bit_bytes, one_if_null, row_bytes, value_bytes};
ghost use Rattle.rows.specs.RowFields.{IsFront, IsStorable};

use crate::{Column, ColumnList, Row, Value};
use std::alloc::{AllocError, Global};

// In how many bytes the bits of the nullable columns stand.
pub(crate) fn bit_bytes(columns: &[Column]) -> usize
    ensures value { result ≡ bit_bytes columns.now }
    ensures small { result ≤ (length columns.now + 7) / 8 }
{
    let mut count = 0usize;
    for column in columns {
        if column.nullable {
            count += 1;
        }
    }
    count.div_ceil(8)
}

fn null_bit(value: &Value) -> u32
    ensures value { result ≡ one_if_null value.now }
    ensures small { result ≤ 1 }
{
    match value {
        Value::Null => 1,
        _ => 0,
    }
}

// The bits of the nullable columns, the first one's lowest.
fn null_bits(row: &[Value], columns: &[Column]) -> u32
    requires few { length columns.now ≤ 32 }
    requires row { length row.now ≡ length columns.now }
    ensures { result ≡ null_bits columns.now row.now }
{
    let mut bits = 0u32;
    for place in (0..columns.len()).rev() {
        if columns[place].nullable {
            bits = 2 * bits + null_bit(&row[place]);
        }
    }
    bits
}

/// How many bytes a value takes, at most 2,002: an integer four, a text two for its length and its own, a truth value one, null
/// none. The value fits a column.
pub fn value_size(value: &Value) -> u32
    requires { IsStorable value.now }
    ensures value { result ≡ length (value_bytes value.now) }
    ensures small { result ≤ 2002 }
{
    match value {
        Value::Null => 0,
        Value::Number(_) => 4,
        Value::Word(text) => 2 + text.items().len() as u32,
        Value::Truth(_) => 1,
    }
}

// How many bytes the values of a row take.
fn values_size(row: &[Value]) -> u32
    requires few { length row.now ≤ 32 }
    requires storable { All IsStorable row.now }
    ensures value { result ≡ length (flat_map value_bytes row.now) }
    ensures small { result ≤ 64064 }
{
    let mut size = 0u32;
    for value in row {
        size += value_size(value);
    }
    size
}

/// How many bytes the encoding of a row takes. The row is of the columns, and there are at most 32 of them.
pub fn row_size(row: &Row, columns: &ColumnList) -> u32
    requires few { length columns.now ≤ 32 }
    requires row { IsRowOf columns.now row.now }
    ensures { result ≡ length (row_bytes columns.now row.now) }
{
    bit_bytes(columns.items()) as u32 + values_size(row.items())
}

// Puts the lowest bytes of a number behind those of `out`. An `Err` may leave some of them there.
fn put_bits(out: &mut Vec<u8>, count: usize, bits: u32) -> Result<(), AllocError>
    ensures ok { OnOk result (out.new.items ≡ out.old.items ++ low_bytes count bits) }
    ensures err { OnErr result (IsFront out.old.items out.new.items) }
{
    let mut rest = bits;
    for _place in 0..count {
        out.push((rest % 256) as u8)?;
        rest /= 256;
    }
    Ok(())
}

// Puts the length of a text in two bytes and then its bytes behind those of `out`. An `Err` changes nothing.
fn put_text(out: &mut Vec<u8>, text: &[u8]) -> Result<(), AllocError>
    requires { length text.now ≤ 2000 }
    ensures ok { OnOk result (out.new.items ≡ out.old.items ++ (to_be_bytes w16 (length text.now) ++ text.now)) }
    ensures err { OnErr result (out.new.items ≡ out.old.items) }
{
    let begin = out.len();
    out.extend_from_slice(&(text.len() as u16).to_be_bytes())?;
    if let Err(fault) = out.extend_from_slice(text) {
        out.truncate(begin);
        return Err(fault);
    }
    Ok(())
}

/// Puts the bytes of a value behind those of `out`: an integer takes four bytes, the highest first, a text two bytes for its
/// length and its own, a truth value one, null none. The value fits a column. An `Err` changes nothing.
pub fn put_value(out: &mut Vec<u8>, value: &Value) -> Result<(), AllocError>
    requires { IsStorable value.now }
    ensures ok { OnOk result (out.new.items ≡ out.old.items ++ value_bytes value.now) }
    ensures err { OnErr result (out.new.items ≡ out.old.items) }
{
    match value {
        Value::Null => Ok(()),
        Value::Number(number) => Ok(out.extend_from_slice(&(*number as i32).to_be_bytes())?),
        Value::Word(text) => put_text(out, text.items()),
        Value::Truth(truth) => Ok(out.push(*truth as u8)?),
    }
}

// Puts the bytes of values behind those of `out`. An `Err` may leave some of them there.
fn put_values(out: &mut Vec<u8>, row: &[Value]) -> Result<(), AllocError>
    requires { All IsStorable row.now }
    ensures ok { OnOk result (out.new.items ≡ out.old.items ++ flat_map value_bytes row.now) }
    ensures err { OnErr result (IsFront out.old.items out.new.items) }
{
    for value in row {
        put_value(out, value)?;
    }
    Ok(())
}

// Puts the bytes of a row behind those of `out`. An `Err` may leave some of them there.
fn put_parts(out: &mut Vec<u8>, row: &Row, columns: &ColumnList) -> Result<(), AllocError>
    requires few { length columns.now ≤ 32 }
    requires row { IsRowOf columns.now row.now }
    ensures ok { OnOk result (out.new.items ≡ out.old.items ++ row_bytes columns.now row.now) }
    ensures err { OnErr result (IsFront out.old.items out.new.items) }
{
    let bits = null_bits(row.items(), columns.items());
    put_bits(out, bit_bytes(columns.items()), bits)?;
    put_values(out, row.items())
}

/// Puts the bytes of a row behind those of `out`: a bit for each nullable column that says whether its value is null, in as
/// few bytes as hold them, the first column's bit lowest in the first byte; then each value that isn't null. An integer
/// takes four bytes, the highest first, a text two bytes for its length and its own, a truth value one. The row is of the
/// columns, and there are at most 32 of them. An `Err` changes nothing.
pub fn put_row(out: &mut Vec<u8>, row: &Row, columns: &ColumnList) -> Result<(), AllocError>
    requires few { length columns.now ≤ 32 }
    requires row { IsRowOf columns.now row.now }
    ensures ok { OnOk result (out.new.items ≡ out.old.items ++ row_bytes columns.now row.now) }
    ensures err { OnErr result (out.new.items ≡ out.old.items) }
{
    let before = out.len();
    if let Err(fault) = put_parts(out, row, columns) {
        out.truncate(before);
        return Err(fault);
    }
    Ok(())
}

/// The bytes of a row, as `put_row` puts them.
pub fn encode_row(alloc: Global, row: &Row, columns: &ColumnList) -> Result<Vec<u8>, AllocError>
    requires few { length columns.now ≤ 32 }
    requires row { IsRowOf columns.now row.now }
    ensures { IfOk result (λ bytes. bytes.items ≡ row_bytes columns.now row.now) }
{
    let mut out = Vec::with_capacity(alloc, row_size(row, columns) as usize)?;
    put_row(&mut out, row, columns)?;
    Ok(out)
}
