//! The checks of a catalogue's entries, and the relations that they are.

ghost use Rattle.std.specs.Prelude.{◌≡◌, ◌≤◌, ◌<◌, [], None, IfOk, length, map, IfSome};
ghost use Rattle.std.specs.List.{position};
ghost use Rattle.std.specs.Str.{bytes_eq};
ghost use Rattle.catalog_load.specs.Catalogs as spec;
ghost use Rattle.catalog_load.specs.Catalogs.{column_checks, first_of, has_column, has_relation, index_check, index_of, relation_checks};
ghost use Rattle.catalog_load.specs.Checks.{Checked, catalog_from};

use crate::form::{ColumnForm, Flaw, RelationForm};
use lists::{Duplicate, Sequence};
use postquel_tokens::{Ident, TextErr, What};
use rows::{Column, Relation, Text};
use std::alloc::{AllocError, Global};

/// The most columns of a relation.
const MAX_COLUMNS: usize = 32;

/// The most relations of a catalogue.
const MAX_RELATIONS: usize = 16;

// Whether one of the columns has the name.
fn has_column(columns: &[ColumnForm], name: &Text) -> bool
    ensures { result ≡ has_column columns.now name.now }
{
    columns.iter().any(|column| column.name.text == *name)
}

// Whether one of the entries has the name.
fn has_relation(entries: &[RelationForm], name: &Text) -> bool
    ensures { result ≡ has_relation entries.now name.now }
{
    entries.iter().any(|entry| entry.name.text == *name)
}

// The first fault of the columns.
fn columns_flaw(columns: &[ColumnForm]) -> Option<Flaw>
    ensures flaw { result ≡ first_of (column_checks [] columns.now) }
    ensures few { result ≡ None → length columns.now ≤ 32 }
{
    for (place, column) in columns.iter().enumerate() {
        let spot = column.name.spot;
        if place >= MAX_COLUMNS {
            let what = What::TooManyColumns;
            return Some(Flaw { what, spot });
        }
        if has_column(&columns[..place], &column.name.text) {
            let what = What::DoubleColumn;
            return Some(Flaw { what, spot });
        }
    }
    None
}

// The fault of an index.
fn index_flaw(columns: &[ColumnForm], index: &Option<Ident>) -> Option<Flaw>
    ensures { result ≡ index_check columns.now index.now }
{
    match index {
        Some(name) if !has_column(columns, &name.text) => Some(Flaw {
            what: What::NoColumn,
            spot: name.spot,
        }),
        _ => None,
    }
}

// The first fault of an entry behind earlier ones.
fn entry_flaw(earlier: &[RelationForm], entry: &RelationForm) -> Option<Flaw>
    ensures flaw { result ≡ first_of (relation_checks earlier.now entry.now) }
    ensures few { result ≡ None → length entry.now.columns ≤ 32 }
{
    let spot = entry.name.spot;
    if earlier.len() >= MAX_RELATIONS {
        let what = What::TooManyRelations;
        return Some(Flaw { what, spot });
    }
    if has_relation(earlier, &entry.name.text) {
        let what = What::DoubleRelation;
        return Some(Flaw { what, spot });
    }
    if let Some(flaw) = columns_flaw(entry.columns.items()) {
        return Some(flaw);
    }
    index_flaw(entry.columns.items(), &entry.index)
}

// The place of the column of this name.
fn place_of(columns: &[ColumnForm], name: &Text) -> Option<usize>
    ensures place { result ≡ position (λ c. bytes_eq c.name.text name.now) columns.now }
    ensures within { IfSome result (λ place. place < length columns.now) }
{
    columns.iter().position(|column| column.name.text == *name)
}

// The place of an index's column.
fn index_place(columns: &[ColumnForm], index: &Option<Ident>) -> Option<u32>
    requires { length columns.now ≤ 32 }
    ensures { result ≡ index_of columns.now index.now }
{
    let Some(name) = index else {
        return None;
    };
    match place_of(columns, &name.text) {
        Some(place) => Some(place as u32),
        None => None,
    }
}

// The columns of an entry.
fn copied(alloc: Global, forms: &[ColumnForm]) -> Result<Vec<Column>, AllocError>
    ensures { IfOk result (λ v. v.items ≡ map spec.column_of forms.now) }
{
    let mut columns = Vec::with_capacity(alloc, forms.len())?;
    for form in forms {
        columns.push(Column {
            name: form.name.text.duplicate(alloc)?,
            col_type: form.col_type,
            nullable: form.nullable,
        })?;
    }
    Ok(columns)
}

// The relation of an entry.
fn relation(alloc: Global, entry: &RelationForm) -> Result<Relation, AllocError>
    requires { length entry.now.columns ≤ 32 }
    ensures { IfOk result (λ r. r ≡ spec.relation_of entry.now) }
{
    let columns = entry.columns.items();
    Ok(Relation {
        name: entry.name.text.duplicate(alloc)?,
        file: entry.file.duplicate(alloc)?,
        columns: Sequence::from_vec(copied(alloc, columns)?),
        index: index_place(columns, &entry.index),
    })
}

/// The relations of a catalogue's entries, or the first fault of these.
pub fn relations(alloc: Global, entries: &[RelationForm]) -> Result<Vec<Relation>, TextErr>
    ensures { Checked (λ v. v.items) result (catalog_from [] entries.now) }
{
    let mut relations = Vec::new(alloc);
    for (place, entry) in entries.iter().enumerate() {
        if let Some(flaw) = entry_flaw(&entries[..place], entry) {
            return Err(TextErr::at(flaw.spot, flaw.what));
        }
        relations.push(relation(alloc, entry)?)?;
    }
    Ok(relations)
}
