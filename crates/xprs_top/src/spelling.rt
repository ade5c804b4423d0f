ghost use Rattle.std.specs.Prelude.{◌≡◌, ◌++◌, IfOk, OnOk, map};
ghost use Rattle.std.specs.Io.KnownBytes.{Appends};
ghost use Rattle.std.specs.List.{flat_map};
ghost use Rattle.csv.specs.Writing.{default_writer, row_text};
ghost use Rattle.rows.specs.Fields.{field_bytes};
ghost use Rattle.xprs_top.specs.Answers.{Answer, IsReady, answer_of, row_record, text_of};

use csv::{Writer, WriterBuilder};
use name_check::Header;
use rows::{Row, Rows, field_text};
use std::alloc::{AllocError, Global};

// The fields as slices.
fn slices(alloc: Global, fields: &[Vec<u8>]) -> Result<Vec<&[u8]>, AllocError>
    ensures { IfOk result (λ slices. map (λ s. s.now) slices.items ≡ map (λ f. f.items) fields.now) }
{
    let mut slices = Vec::new(alloc);
    for field in fields {
        slices.push(field.as_slice())?;
    }
    Ok(slices)
}

// Adds a record to the text of a writer that stands between two records.
fn put_record(
    alloc: Global,
    writer: &mut Writer<Vec<u8>>,
    fields: &[Vec<u8>],
) -> Result<(), AllocError>
    requires { IsReady writer.old }
    ensures ready { OnOk result (IsReady writer.new) }
    ensures text { OnOk result (Appends (text_of writer.old) (text_of writer.new) (row_text default_writer (map (λ f. f.items) fields.now))) }
{
    let fields = slices(alloc, fields)?;
    match writer.write_fields(fields.as_slice()) {
        Ok(()) => Ok(()),
        Err(_) => Err(AllocError),
    }
}

// The fields of a row.
fn row_fields(alloc: Global, row: &Row) -> Result<Vec<Vec<u8>>, AllocError>
    ensures { IfOk result (λ fields. map (λ f. f.items) fields.items ≡ map field_bytes row.now) }
{
    let mut fields = Vec::new(alloc);
    for value in row.items() {
        fields.push(field_text(alloc, value)?)?;
    }
    Ok(fields)
}

fn name_fields(alloc: Global, header: &Header) -> Result<Vec<Vec<u8>>, AllocError>
    ensures { IfOk result (λ fields. map (λ f. f.items) fields.items ≡ header.now) }
{
    let mut fields = Vec::new(alloc);
    for name in header.items() {
        fields.push(Vec::from_slice(alloc, name.items())?)?;
    }
    Ok(fields)
}

/// Adds an answer to a text: the names that head it, and then the rows.
pub(crate) fn answer_text(
    alloc: Global,
    text: Vec<u8>,
    header: &Header,
    rows: &Rows,
) -> Result<Vec<u8>, AllocError>
    ensures { IfOk result (λ v. v.items ≡ text.items ++ answer_of (record { header = header.now; rows = rows.now })) }
{
    let mut writer = WriterBuilder::new().from_writer(text);
    let names = name_fields(alloc, header)?;
    put_record(alloc, &mut writer, names.as_slice())?;
    for row in rows.items() {
        let fields = row_fields(alloc, row)?;
        put_record(alloc, &mut writer, fields.as_slice())?;
    }
    match writer.into_inner() {
        Ok(text) => Ok(text),
        Err(_) => Err(AllocError),
    }
}
