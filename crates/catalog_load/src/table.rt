//! The rows of a table.

ghost use Rattle.std.specs.Prelude.{◌≡◌, ◌≤◌, ◌+◌, ◌^◌, ◌<◌, length, OnOk, IfOk, All};
ghost use Rattle.std.specs.Option.{option_copied};
ghost use Rattle.csv.specs.Records.{fields_of};
ghost use Rattle.rows.specs.Fields.{GivesField};
ghost use Rattle.rows.specs.RowBytes.{IsRowOf};
ghost use Rattle.catalog_load.specs.Records.{IsPlain, left_in};
ghost use Rattle.catalog_load.specs.Tables.{Loads, all_or_first, cells, counted_row, first_difference, if_short, is_named, placed, row_of, rows_from, rows_of, value_of};

use crate::records::{next_record, records};
use crate::{LoadErr, TableWhat};
use csv::{ByteRecord, Reader};
use rows::{
    Column, ColumnList, FieldErr, Relation, Row, Rows, Sequence, Value, read_field, row_size,
};
use std::alloc::Global;

/// How many bytes a row's encoding may take.
const MAX_ROW: u32 = 8168;

/// The number of the last record of the longest table. The header is record 1.
const LAST_RECORD: u32 = 1_000_001;

// The value that a field spells in a column.
fn value(alloc: Global, column: &Column, field: &[u8]) -> Result<Value, FieldErr>
    ensures { GivesField result (value_of column.now field.now) }
{
    if column.nullable && field.is_empty() {
        return Ok(Value::Null);
    }
    read_field(alloc, field, column.col_type)
}

// The same with the place of its fault.
fn cell(
    alloc: Global,
    column: &Column,
    field: &[u8],
    number: u32,
    place: u32,
) -> Result<Value, LoadErr>
    ensures { Loads (λ v. v) result (placed number place (value_of column.now field.now)) }
{
    match value(alloc, column, field) {
        Ok(value) => Ok(value),
        Err(error) => Err(LoadErr::of_field(number, place, error)),
    }
}

// The values of a record that has one field for each column.
fn values(
    alloc: Global,
    columns: &[Column],
    fields: &ByteRecord,
    number: u32,
) -> Result<Vec<Value>, LoadErr>
    requires few { length columns.now ≤ 32 }
    requires whole { length (fields_of fields.now) ≡ length columns.now }
    ensures value { Loads (λ v. v.items) result (all_or_first (cells number 1 columns.now (fields_of fields.now))) }
    ensures row { IfOk result (λ v. IsRowOf columns.now v.items) }
{
    let mut values = Vec::with_capacity(alloc, columns.len())?;
    for (place, column) in columns.iter().enumerate() {
        match fields.get(place) {
            Some(field) => values.push(cell(alloc, column, field, number, place as u32 + 1)?)?,
            None => unreachable!(),
        }
    }
    Ok(values)
}

// Whether a field is the name of a column.
fn is_named(field: Option<&[u8]>, column: &Column) -> bool
    ensures { result ≡ is_named (option_copied field.entry) column.now }
{
    match field {
        Some(field) => field == column.name.items(),
        None => false,
    }
}

// The first place at which a header isn't the names of the columns.
fn difference(columns: &[Column], header: &ByteRecord) -> Option<u32>
    requires few { length columns.now ≤ 32 }
    ensures { result ≡ first_difference 1 columns.now (fields_of header.now) }
{
    for (place, column) in columns.iter().enumerate() {
        if !is_named(header.get(place), column) {
            return Some(place as u32 + 1);
        }
    }
    if header.len() > columns.len() {
        Some(columns.len() as u32 + 1)
    } else {
        None
    }
}

// The row of a record that has one field for each column.
fn short_row(
    alloc: Global,
    columns: &ColumnList,
    fields: &ByteRecord,
    number: u32,
) -> Result<Row, LoadErr>
    requires few { length columns.now ≤ 32 }
    requires whole { length (fields_of fields.now) ≡ length columns.now }
    ensures { Loads (λ r. r) result (if_short number columns.now (all_or_first (cells number 1 columns.now (fields_of fields.now)))) }
{
    let row = Sequence::from_vec(values(alloc, columns.items(), fields, number)?);
    if row_size(&row, columns) > MAX_ROW {
        return Err(LoadErr::of_record(number, TableWhat::RowTooLong));
    }
    Ok(row)
}

// The row that a record writes.
fn row(
    alloc: Global,
    columns: &ColumnList,
    fields: &ByteRecord,
    number: u32,
) -> Result<Row, LoadErr>
    requires few { length columns.now ≤ 32 }
    ensures value { Loads (λ r. r) result (row_of columns.now number (fields_of fields.now)) }
    ensures within { OnOk result (number ≤ 1000001) }
{
    if number > LAST_RECORD {
        return Err(LoadErr::of_record(number, TableWhat::TooManyRows));
    }
    if fields.len() != columns.len() {
        return Err(LoadErr::of_record(number, TableWhat::FieldCount));
    }
    short_row(alloc, columns, fields, number)
}

// The rows of the records behind the header.
fn rows(
    alloc: Global,
    columns: &ColumnList,
    reader: &mut Reader<&[u8]>,
    fields: &mut ByteRecord,
) -> Result<Vec<Row>, LoadErr>
    requires few { length columns.now ≤ 32 }
    requires plain { IsPlain reader.old }
    ensures { Loads (λ v. v.items) result (all_or_first (rows_from 2 columns.now (left_in reader.old))) }
{
    let mut rows = Vec::new(alloc);
    let mut number = 2;
    while next_record(reader, fields)? {
        rows.push(row(alloc, columns, fields, number)?)?;
        number += 1;
    }
    Ok(rows)
}

/// The rows of a table, or its first fault. Record 1 is the header: `NoHeader` (column 0) where there
/// is none, `BadHeader` at the first column that isn't named so. Of the records behind it the first
/// faulty one counts: `TooManyRows` at the 1,000,001st, `FieldCount` where it hasn't one field for each
/// column, the first fault of its fields from left to right, and `RowTooLong` where the row's encoding
/// takes more than 8,168 bytes. An empty field of a nullable column is null.
pub fn load_table(alloc: Global, bytes: &[u8], relation: &Relation) -> Result<Rows, LoadErr>
    requires few { length relation.now.columns ≤ 32 }
    ensures value { Loads (λ r. r) result (rows_of relation.now.columns bytes.now) }
    ensures rows { IfOk result (All (IsRowOf relation.now.columns)) }
{
    let columns = &relation.columns;
    let mut reader = records(alloc, bytes);
    let mut fields = ByteRecord::new(alloc);
    if !next_record(&mut reader, &mut fields)? {
        return Err(LoadErr::of_record(1, TableWhat::NoHeader));
    }
    if let Some(column) = difference(columns.items(), &fields) {
        return Err(LoadErr::of_header(column));
    }
    Ok(Sequence::from_vec(rows(alloc, columns, &mut reader, &mut fields)?))
}
